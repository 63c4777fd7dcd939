//! What a damaged job still gives.
ghost use Rattle.std.specs.Prelude.{◌≡◌, ◌⊎◌};
ghost use Rattle.command_files.specs.Call.{sink_call};
ghost use Rattle.command_files.specs.Said.{TookAll, TookPart};
ghost use Rattle.command_files.specs.Shown.{answer_of};
ghost use Rattle.outside_io.specs.Puts.{Puts};
ghost use Rattle.flm_job.specs.Rescues.{Rescues, rescued_status, warning};

use bench_model::Bench;
use job_parts::{MendedBench, Part, give};
use outside_io::{OutputFault, Sink, put_all};
use report_text::Refusal;
use std::alloc::Global;

/// Gives a part of a damaged job: the job that its file would stand for if it kept the hash that was found. First a line on `err` says that no
/// hash vouches for it. Answers the status that the program ends with, which is never 0.
pub fn rescue<B: Bench + Drop, O: Sink, E: Sink>(
    alloc: Global,
    part: Part,
    hash: [u8; 32],
    bench: B,
    out: &mut O,
    err: &mut E,
) -> u8
    ensures { Rescues B.state B.tells part hash result bench (sink_call O.tells (O.state out.old) (O.state out.new))
        (sink_call E.tells (E.state err.old) (E.state err.new)) }
{
    warn(err);
    let mut mended = MendedBench::new(bench, hash);
    let given = give(alloc, part, &mut mended, out);
    status_of(&given)
}

/// Warns on `err` that no hash vouches for what is given.
fn warn<E: Sink>(err: &mut E)
    ensures { TookAll (sink_call E.tells (E.state err.old) (E.state err.new)) warning
        ⊎ TookPart (sink_call E.tells (E.state err.old) (E.state err.new)) warning }
{
    let _put = put_warning(err);
}

/// Puts the line of the warning.
fn put_warning<E: Sink>(err: &mut E) -> Result<(), OutputFault>
    ensures { Puts E.tells (E.state err.old) (E.state err.new) warning result }
{
    put_all(
        err,
        &[b"flmprog: job: its hash doesn't vouch for what is given\n"],
    )
}

/// The status after a part of a damaged job was given, or wasn't.
fn status_of(given: &Result<(), Refusal<'_>>) -> u8
    ensures { result ≡ rescued_status (answer_of given.now) }
{
    match given {
        Err(Refusal::OutOfMemory) => 1,
        Err(Refusal::StoreFault) => 8,
        Err(Refusal::OutputFault) => 10,
        _ => 7,
    }
}
