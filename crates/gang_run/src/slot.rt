//! One slot of a gang.
ghost use Rattle.std.specs.Prelude.{◌≤◌};
ghost use Rattle.gang_run.specs.Slots.{IsReady, SlotTurns, SlotTakes, slot_turn, IsSlotEnd, IsSlotJob};

use crate::target::GangTarget;
use bench_model::Bench;
use flash_session::{TargetEnd, Turn};
use job_text::Job;
use ram_arena::Arena;

/// A target whose job was opened and surveyed, or how a target without a script ended.
#[derive(Drop)]
pub(crate) enum Slot {
    Refused(TargetEnd),
    Open(GangTarget),
}

impl Slot {
    ghost use Rattle.std.specs.Prelude.{◌≡◌};

    /// Whether the target has ended.
    pub fn state(&self) -> Turn
        ensures { result ≡ slot_turn self.now }
    {
        match self {
            Slot::Refused(_) => Turn::Ended,
            Slot::Open(target) => target.player.state(),
        }
    }

    /// How the target has ended: none where it hasn't.
    pub fn end(&self) -> Option<&TargetEnd>
        ensures { IsSlotEnd self.now result }
    {
        match self {
            Slot::Refused(end) => Some(end),
            Slot::Open(target) => target.player.end(),
        }
    }

    /// The target's job: none where it has no script.
    pub fn job(&self) -> Option<&Job>
        ensures { IsSlotJob self.now result }
    {
        match self {
            Slot::Refused(_) => None,
            Slot::Open(target) => Some(&target.job),
        }
    }

    /// One turn of the target, which changes nothing where it has ended.
    pub fn turn<B: Bench>(&mut self, arena: &mut Arena, bench: &mut B, steps: u64)
        requires ready { IsReady B.tells self.old arena.old (B.state bench.old) }
        requires steps { 1 ≤ steps }
        ensures turns { SlotTurns B.Bench self.old arena.old bench.old self.new arena.new bench.new }
        ensures one { SlotTakes B.tells steps self.old arena.old (B.state bench.old) self.new arena.new (B.state bench.new) }
    {
        match self {
            Slot::Refused(_) => {}
            Slot::Open(target) => match target.player.state() {
                Turn::Ended => {}
                Turn::More => target.player.turn(&target.job, arena, bench, steps),
            },
        }
    }
}
