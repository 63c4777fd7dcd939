//! Whether an algorithm keeps its duties: it does where its table is filled.
ghost use Rattle.std.specs.Prelude.{◌≡◌, IfOk, IfNone};
ghost use Rattle.flash_layout.specs.Maps.{board_map, map_of};
ghost use Rattle.target_core.specs.Units.{fresh, unit_state};
ghost use Rattle.target_core.specs.Windows.{window_of};
ghost use Rattle.algo_calls.specs.Frames.{loaded};
ghost use Rattle.algo_calls.specs.Duties.{Serves};
ghost use Rattle.duty_runs.specs.Hands.{hand_setup, hand_base, hand_map};
ghost use Rattle.duty_proofs.specs.Decided.{Decided};
ghost use Rattle.duty_trials.specs.Subjects.{board_in, algorithm_in, setup_for};
ghost use Rattle.duty_table.specs.Tables.{state_for, load_for};

use crate::reason::{Reason, Why};
use crate::table::Table;
use algo_calls::Call;
use duty_proofs::a_filled_table_serves;
use duty_runs::{Between, Hand};
use duty_trials::{Subject, Work, calls_of};
use faults::OutOfMemory;
use flash_layout::FlashMap;
use ram_arena::Arena;
use std::alloc::Global;

/// A target of the board after a load of the algorithm.
fn hand_of<'a>(
    alloc: Global,
    subject: &Subject<'_>,
    map: &'a FlashMap,
) -> Result<Hand<'a>, OutOfMemory>
    requires { map_of map.now ≡ board_map (board_in subject.now) }
    ensures setup { IfOk result (λ hand. hand_setup hand ≡ setup_for subject.now) }
    ensures base { IfOk result (λ hand. hand_base hand ≡ (board_in subject.now).ram_base) }
    ensures map { IfOk result (λ hand. hand_map hand ≡ board_map (board_in subject.now)) }
    ensures ram { IfOk result (λ hand. window_of hand.arena 0 ≡ loaded (setup_for subject.now)) }
    ensures state { IfOk result (λ hand. unit_state hand.calls.machine.unit ≡ fresh (board_in subject.now).kind) }
{
    let mut arena = Arena::new(alloc, &[subject.board.ram_size])?;
    let mut calls = calls_of(alloc, subject)?;
    calls.load(&mut arena, 0);
    Ok(Hand::new(calls, arena, map))
}

impl<'h, 's, 'b> Table<'h, 's, 'b> {
    ghost use Rattle.duty_table.specs.Tables.{ListFills};

    /// Returns why the algorithm's table isn't filled, or None where it is.
    fn fills(&mut self, loaded: &Between) -> Result<Option<Reason>, OutOfMemory>
        requires { state_for self.old.subject.now loaded.now ≡ load_for self.old.subject.now }
        ensures { IfOk result (λ reason. IfNone reason (Decided (board_in self.old.subject.now) (algorithm_in self.old.subject.now) self.old.subject.now.region)) }
    {
        if self.subject.algorithm.device.empty != 0xFF {
            let call = Call::Init { kind: 1 };
            let why = Why::Empty;
            return Ok(Some(Reason { call, why }));
        }
        let _erasing = match self.find(loaded, Work::Sectors)? {
            Ok(states) => states,
            Err(reason) => return Ok(Some(reason)),
        };
        let _programming = match self.find(loaded, Work::Pages)? {
            Ok(states) => states,
            Err(reason) => return Ok(Some(reason)),
        };
        if !self.subject.has(Work::Checks) {
            return Ok(None);
        }
        match self.find(loaded, Work::Checks)? {
            Ok(_verifying) => Ok(None),
            Err(reason) => Ok(Some(reason)),
        }
    }
}

/// Returns why it isn't decided that the subject's algorithm keeps its duties, or None where it is decided that it does. All runs together
/// make at most `steps` steps.
pub fn why_undecided(
    alloc: Global,
    subject: &Subject<'_>,
    steps: u64,
) -> Result<Option<Reason>, OutOfMemory>
    ensures { IfOk result (λ reason. IfNone reason (Serves (board_in subject.now) (algorithm_in subject.now) subject.now.region)) }
{
    a_filled_table_serves();
    let map = FlashMap::of(alloc, subject.board)?;
    let hand = hand_of(alloc, subject, &map)?;
    let loaded = hand.loaded(alloc)?;
    let mut table = Table {
        alloc,
        subject,
        hand,
        left: steps,
    };
    table.fills(&loaded)
}
