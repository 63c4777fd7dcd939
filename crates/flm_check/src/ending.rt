//! How a check of algorithms ends.
ghost use Rattle.std.specs.Prelude.{◌≡◌, ◌++◌};
ghost use Rattle.std.specs.List.{flat_map};
ghost use Rattle.outside_io.specs.Puts.{Puts};
ghost use Rattle.flm_check.specs.Verdicts.{end_duty, breach_duty};

use algo_calls::CallEnd;
use duty_rounds::{Broken, Report, Verdict};
use duty_trials::Breach;
use itoa::Buffer;
use outside_io::{OutputFault, Sink, put_all};
use target_core::RunEnd;

/// How a call broke its duty.
#[derive(Clone, Copy)]
pub enum Duty {
    /// The call returned another value than the one for success.
    Answer,
    /// The call didn't return within its time-out.
    NoFuel,
    /// The call ended by a fault of the core or at a breakpoint.
    Fault,
    /// The call opened an operation outside its place.
    OperationOutside,
    /// The call left an operation open.
    OperationOpen,
    /// The call left a cell in its place in another state than the ideal device does.
    CellInside,
    /// The call left a cell outside its place in another state than the ideal device does.
    CellOutside,
}

/// How the check of some algorithms ends.
#[derive(Clone, Copy)]
pub enum Ending {
    /// The algorithms keep their duties, by a theorem.
    Proved,
    /// None of these lists of calls broke a duty.
    Tried { lists: u64, calls: u64 },
    /// A call of one of the algorithms broke this duty.
    Broken { duty: Duty },
}

/// How a call that ended so broke its duty.
fn duty_of_end(end: CallEnd) -> Duty
    ensures { result ≡ end_duty end }
{
    match end {
        CallEnd::Ended(RunEnd::NoFuel { .. }) => Duty::NoFuel,
        CallEnd::Ended(_) | CallEnd::DeviceFault => Duty::Fault,
        CallEnd::Done | CallEnd::Refused { .. } => Duty::Answer,
    }
}

/// How a call broke its duty. `is_inside` says whether a cell that differs lies in the call's place.
fn duty_of(broken: &Broken, is_inside: bool) -> Duty
    ensures { result ≡ breach_duty broken.now.breach is_inside }
{
    match broken.breach {
        Breach::NotDone { end } => duty_of_end(end),
        Breach::Outside { .. } => Duty::OperationOutside,
        Breach::LeftOpen => Duty::OperationOpen,
        Breach::Cell if is_inside => Duty::CellInside,
        Breach::Cell => Duty::CellOutside,
    }
}

impl Duty {
    ghost use Rattle.flm_check.specs.Endings.{word_of};

    /// The word for this duty in the report.
    pub fn word(self) -> &'static [u8]
        ensures { result.now ≡ word_of self }
    {
        match self {
            Duty::Answer => b"answer",
            Duty::NoFuel => b"no-fuel",
            Duty::Fault => b"fault",
            Duty::OperationOutside => b"operation-outside",
            Duty::OperationOpen => b"operation-open",
            Duty::CellInside => b"cell-inside",
            Duty::CellOutside => b"cell-outside",
        }
    }
}

impl Ending {
    ghost use Rattle.flm_check.specs.Endings.{status_of, first_line};
    ghost use Rattle.flm_check.specs.Verdicts.{IsTold};

    /// The ending for a report. `is_inside` says whether a cell that differs lies in the call's place.
    pub fn of(report: &Report, is_inside: bool) -> Ending
        ensures { IsTold report.now.verdict result }
    {
        match &report.verdict {
            Verdict::Proved => Ending::Proved,
            Verdict::Tried => Ending::Tried {
                lists: report.lists(),
                calls: report.calls(),
            },
            Verdict::Broken(broken) => Ending::Broken {
                duty: duty_of(broken, is_inside),
            },
        }
    }

    /// The status that the program ends with.
    pub fn status(self) -> u8
        ensures { result ≡ status_of self }
    {
        match self {
            Ending::Proved | Ending::Tried { .. } => 0,
            Ending::Broken { .. } => 15,
        }
    }

    /// Puts the line of this ending, and a text after it. A fault may leave a beginning of them.
    pub fn put<O: Sink>(self, out: &mut O, details: &[u8]) -> Result<(), OutputFault>
        ensures { Puts O.tells (O.state out.old) (O.state out.new) (first_line self ++ details.now) result }
    {
        self.put_line(out)?;
        put_pieces(out, &[details])
    }

    /// Puts the line of this ending. A fault may leave a beginning of it.
    #[tactic(auto, unfolding(crate::specs::Endings::first_line))]
    fn put_line<O: Sink>(self, out: &mut O) -> Result<(), OutputFault>
        ensures { Puts O.tells (O.state out.old) (O.state out.new) (first_line self) result }
    {
        match self {
            Ending::Proved => put_pieces(out, &[b"proved\n"]),
            Ending::Tried { lists, calls } => {
                let mut of_lists = Buffer::new();
                let mut of_calls = Buffer::new();
                let lists = of_lists.format(lists).as_bytes();
                let calls = of_calls.format(calls).as_bytes();
                put_pieces(out, &[b"tried ", lists, b" lists ", calls, b" calls\n"])
            }
            Ending::Broken { duty } => put_pieces(out, &[b"broken ", duty.word(), b"\n"]),
        }
    }
}

/// Puts pieces one after the other.
pub fn put_pieces<O: Sink>(out: &mut O, pieces: &[&[u8]]) -> Result<(), OutputFault>
    ensures { Puts O.tells (O.state out.old) (O.state out.new) (flat_map (λ piece. piece.now) pieces.now) result }
{
    put_all(out, pieces)
}
