//! The call of the program.
ghost use Rattle.std.specs.Prelude.{◌≡◌, ◌⊎◌, All};
ghost use Rattle.command_words.specs.Files.{names_in};
ghost use Rattle.command_files.specs.Inputs.{inputs_call};
ghost use Rattle.command_files.specs.Call.{sink_call};
ghost use Rattle.command_files.specs.Said.{TookAll, TookPart};
ghost use Rattle.outside_io.specs.Puts.{Puts};
ghost use Rattle.report_text.specs.Refusal.{status_of};
ghost use Rattle.report_text.specs.Shown.{shown};
ghost use Rattle.flm_check.specs.Words.{Asked, Asks};
ghost use Rattle.flm_check.specs.Answers.{Answers, Works, refused_line};

use crate::details::answer_of;
use crate::ending::{Ending, put_pieces};
use crate::take::take_board_algorithms;
use crate::words::read_words;
use duty_rounds::{Progress, judge};
use octets::Word;
use outside_io::{Inputs, OutputFault, Sink};
use report_text::{Refusal, put_refusal};
use std::alloc::Global;

/// Tries whether the algorithms of some files keep their duties on a board, as the words ask. Answers the status that the program ends
/// with. The result goes to `out`, and its first line sums it up. A refusal puts one line on `err`; faults of `err` don't change the
/// status.
pub fn check<I: Inputs, O: Sink, E: Sink, P: Progress>(
    alloc: Global,
    words: &[Word],
    inputs: &mut I,
    out: &mut O,
    err: &mut E,
    progress: &mut P,
) -> u8
    requires { (asked : Asked) → Asks words.now asked → All (I.may_take inputs.old) (names_in asked.files) }
    ensures { Answers words.now result (inputs_call I.tells (I.state inputs.old) (I.state inputs.new)) (sink_call O.tells (O.state out.old) (O.state out.new))
        (sink_call E.tells (E.state err.old) (E.state err.new)) }
{
    match work(alloc, words, inputs, out, progress) {
        Ok(ending) => ending.status(),
        Err(refusal) => refuse(err, &refusal),
    }
}

/// What a call does, except for its status and its line on `err`.
fn work<'a, I: Inputs, O: Sink, P: Progress>(
    alloc: Global,
    words: &'a [Word],
    inputs: &mut I,
    out: &mut O,
    progress: &mut P,
) -> Result<Ending, Refusal<'a>>
    requires { (asked : Asked) → Asks words.now asked → All (I.may_take inputs.old) (names_in asked.files) }
    ensures { Works words.now (inputs_call I.tells (I.state inputs.old) (I.state inputs.new)) (sink_call O.tells (O.state out.old) (O.state out.new)) result }
{
    let Some(request) = read_words(words) else {
        return Err(Refusal::Usage);
    };
    let checked = take_board_algorithms(alloc, &request.names, inputs)?;
    let report = judge(
        alloc,
        &checked.board,
        checked.algorithms.as_slice(),
        request.rounds,
        progress,
    )?;
    let answer = answer_of(alloc, &checked, &report)?;
    answer.ending.put(out, answer.details.as_bytes())?;
    Ok(answer.ending)
}

/// Puts the line of a refusal on `err`, and answers its status.
fn refuse<E: Sink>(err: &mut E, refusal: &Refusal<'_>) -> u8
    ensures status { result ≡ status_of (shown refusal.now) }
    ensures line { TookAll (sink_call E.tells (E.state err.old) (E.state err.new)) (refused_line (shown refusal.now))
        ⊎ TookPart (sink_call E.tells (E.state err.old) (E.state err.new)) (refused_line (shown refusal.now)) }
{
    let _put = put_reason(err, refusal);
    refusal.status()
}

/// Puts the line of a refusal. Words that fit no call are answered with a usage line.
fn put_reason<E: Sink>(err: &mut E, refusal: &Refusal<'_>) -> Result<(), OutputFault>
    ensures { Puts E.tells (E.state err.old) (E.state err.new) (refused_line (shown refusal.now)) result }
{
    match refusal {
        Refusal::Usage => put_pieces(
            err,
            &[b"flmprog: usage: flm_check BOARD FLM [FLM] [--seed N] [--rounds N]\n"],
        ),
        refusal => put_refusal(err, refusal),
    }
}
