//! The target on which the calls for a table are made.
ghost use Rattle.std.specs.Prelude.{◌≡◌};
ghost use Rattle.flash_layout.specs.Maps.{board_map};
ghost use Rattle.duty_runs.specs.Hands.{hand_setup, hand_base, hand_map};
ghost use Rattle.duty_trials.specs.Subjects.{board_in, setup_for};

use duty_runs::Hand;
use duty_trials::Subject;
use std::alloc::Global;

/// An algorithm for a region of a board, a target that has it loaded, and the number of steps that may still be made.
#[derive(Drop)]
pub(crate) struct Table<'h, 's, 'b> {
    pub(crate) alloc: Global,
    pub(crate) subject: &'s Subject<'b>,
    pub(crate) hand: Hand<'h>,
    pub(crate) left: u64,

    ghost setup: { hand_setup hand ≡ setup_for subject.now },
    ghost base: { hand_base hand ≡ (board_in subject.now).ram_base },
    ghost map: { hand_map hand ≡ board_map (board_in subject.now) },
}
