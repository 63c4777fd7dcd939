//! The call of the program.
ghost use Rattle.std.specs.Prelude.{◌≡◌, ◌≢◌, ◌⊎◌, [], IfSome, IfNone};
ghost use Rattle.std.specs.List.{flat_map};
ghost use Rattle.command_files.specs.Call.{bench_call, sink_call, refused};
ghost use Rattle.command_files.specs.Said.{TookAll, TookPart};
ghost use Rattle.command_files.specs.Shown.{answer_of};
ghost use Rattle.outside_io.specs.Puts.{Puts};
ghost use Rattle.report_text.specs.Refusal.{status_of};
ghost use Rattle.report_text.specs.Shown.{shown};
ghost use Rattle.job_parts.specs.declared.part.Part.{Part};
ghost use Rattle.flm_job.specs.Words.{AskFor};
ghost use Rattle.flm_job.specs.Answers.{Answers, Ends, IsDamagedOnly, IsFoundIn, refused_line};

use crate::rescue::rescue;
use crate::words::read_part;
use bench_model::Bench;
use job_parts::{Part, give};
use octets::Word;
use outside_io::{OutputFault, Sink, put_all};
use report_text::{Refusal, put_refusal};
use std::alloc::Global;

/// Puts the part of the job that the words ask for. The job file is only read. Answers the status that the program ends with. Each status
/// but 0 puts one line on `err`; faults of `err` don't change the status. A damaged job is refused with its line. Then its part is given
/// all the same, if the rest of the file is that of a job, and a second line says that no hash vouches for it.
pub fn show<B: Bench + Drop, O: Sink, E: Sink>(
    alloc: Global,
    words: &[Word],
    bench: B,
    out: &mut O,
    err: &mut E,
) -> u8
    ensures { Answers B.state B.tells words.now result bench (sink_call O.tells (O.state out.old) (O.state out.new))
        (sink_call E.tells (E.state err.old) (E.state err.new)) }
{
    let mut bench = bench;
    let refusal = match work(alloc, words, &mut bench, out) {
        Ok(()) => return 0,
        Err(refusal) => refusal,
    };
    let status = refuse(err, &refusal);
    let Some(part) = read_text_part(words) else {
        return status;
    };
    let Some(hash) = found_of(&refusal) else {
        return status;
    };
    rescue(alloc, part, hash, bench, out, err)
}

/// The part that words ask for, other than the listing.
fn read_text_part(words: &[Word]) -> Option<Part>
    ensures some { IfSome result (λ part. AskFor words.now part × (words.now ≢ [])) }
    ensures none { IfNone result (words.now ≢ [] → (part : Part) → AskFor words.now part → ⊥) }
{
    if words.is_empty() {
        return None;
    }
    read_part(words)
}

/// The hash that was found of a damaged job, which keeps another.
fn found_of(refusal: &Refusal<'_>) -> Option<[u8; 32]>
    ensures some { IfSome result (IsFoundIn (shown refusal.now)) }
    ensures none { IfNone result (IsDamagedOnly (refused (shown refusal.now)) ⊥) }
{
    match refusal {
        Refusal::Damaged { kept: _, found } => Some(*found),
        _ => None,
    }
}

/// What a call does, except for its status and its line on `err`.
fn work<'a, B: Bench, O: Sink>(
    alloc: Global,
    words: &[Word],
    bench: &mut B,
    out: &mut O,
) -> Result<(), Refusal<'a>>
    ensures { Ends words.now (bench_call B.tells (B.state bench.old) (B.state bench.new))
        (sink_call O.tells (O.state out.old) (O.state out.new)) (answer_of result) }
{
    match read_part(words) {
        Some(part) => give(alloc, part, bench, out),
        None => Err(Refusal::Usage),
    }
}

/// Puts the line of a refusal on `err`, and answers its status.
fn refuse<E: Sink>(err: &mut E, refusal: &Refusal<'_>) -> u8
    ensures status { result ≡ status_of (shown refusal.now) }
    ensures line { TookAll (sink_call E.tells (E.state err.old) (E.state err.new)) (refused_line (shown refusal.now))
        ⊎ TookPart (sink_call E.tells (E.state err.old) (E.state err.new)) (refused_line (shown refusal.now)) }
{
    let _put = put_reason(err, refusal);
    refusal.status()
}

/// Puts the line of a refusal. Words that fit nothing are answered with a usage line.
fn put_reason<E: Sink>(err: &mut E, refusal: &Refusal<'_>) -> Result<(), OutputFault>
    ensures { Puts E.tells (E.state err.old) (E.state err.new) (refused_line (shown refusal.now)) result }
{
    match refusal {
        Refusal::Usage => put_pieces(
            err,
            &[b"flmprog: usage: flm_job JOB [board | flm [1|2] | image hex|srec | snapshot raw]\n"],
        ),
        refusal => put_refusal(err, refusal),
    }
}

/// Puts pieces one after the other.
fn put_pieces<E: Sink>(err: &mut E, pieces: &[&[u8]]) -> Result<(), OutputFault>
    ensures { Puts E.tells (E.state err.old) (E.state err.new) (flat_map (λ piece. piece.now) pieces.now) result }
{
    put_all(err, pieces)
}
