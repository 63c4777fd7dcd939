//! A survey that is ready to be carried out.
ghost use Rattle.target_core.specs.Windows.{IsRam};

use crate::player::Player;
use crate::region_plan::RegionPlan;
use ram_arena::Arena;

/// The player of the plans that a survey made, for the first region and, if the board has two, for the second; and the player's RAM.
#[derive(Drop)]
pub(crate) struct Survey {
    pub player: Player,
    pub arena: Arena,

    ghost ram: { IsRam arena player.window player.calls.machine.ram_size },
}

impl Survey {
    ghost use Rattle.std.specs.Prelude.{◌≡◌, ◌<◌, length, get_or};
    ghost use Rattle.job_text.specs.declared.job.Job.{Job};
    ghost use Rattle.flash_session.specs.declared.region_plan.RegionPlan.{RegionPlan};
    ghost use Rattle.flash_session.specs.Fit.{AreTwins};
    ghost use Rattle.flash_session.specs.Parts.{IsPlayerOf};
    ghost use Rattle.flash_session.specs.Surveys.{regions_of, survey_shown};
    ghost use Rattle.flash_session.specs.SurveyFacts.{IsSurvey};

    /// The plan of a region.
    pub fn region(&self, region: usize) -> &RegionPlan
        requires { region < length (regions_of self.now) }
        ensures { (other : RegionPlan) → result.now ≡ get_or (regions_of self.now) region other }
    {
        if region == 0 {
            return &self.player.work.first;
        }
        match &self.player.work.second {
            Some(second) => second,
            None => unreachable!(),
        }
    }

    /// Returns the player, restarted before its first move. The survey's RAM is freed.
    pub fn into_player(self) -> Player
        requires { AreTwins self.player }
        ensures { (j : Job) → IsSurvey j self → IsPlayerOf j (survey_shown self) result }
    {
        let Survey { player, arena } = self;
        let mut player = player;
        let mut arena = arena;
        player.work.count();
        player.restart(&mut arena);
        player
    }
}
