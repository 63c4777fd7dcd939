//! What follows the first line.
ghost use Rattle.std.specs.Prelude.{◌<◌, vec_len, map, IfOk};
ghost use Rattle.board_file.specs.Shown.{shown as board_of};
ghost use Rattle.flm_descriptor.specs.Shown.{shown as algorithm_of};
ghost use Rattle.duty_rounds.specs.Verdicts.{AreFit};
ghost use Rattle.flm_check.specs.Verdicts.{IsTold, IsInside};

use crate::board_algorithms::BoardAlgorithms;
use crate::calls::{add_call, add_end};
use crate::ending::Ending;
use duty_rounds::{Broken, Contents, Difference, Report, Trials, Verdict, choose};
use duty_trials::{Breach, Count, PageBytes, Subject, Turn, Work};
use faults::OutOfMemory;
use std::alloc::{AllocError, Global};

/// What is reported: the ending, and the text after its line.
#[derive(Drop)]
pub struct Answer {
    pub ending: Ending,
    pub details: String,
}

/// What is reported of algorithms with this report of trials.
pub fn answer_of(
    alloc: Global,
    checked: &BoardAlgorithms,
    report: &Report,
) -> Result<Answer, OutOfMemory>
    requires fit { AreFit (board_of checked.now.board) (map algorithm_of checked.now.algorithms.items) }
    requires inside { IsInside (vec_len checked.now.algorithms) report.now.verdict }
    ensures { IfOk result (λ answer. IsTold report.now.verdict answer.ending) }
{
    let mut details = String::new(alloc);
    let mut is_inside = false;
    for trials in &report.trials {
        add_counts(&mut details, trials)?;
    }
    if let Verdict::Broken(broken) = &report.verdict {
        is_inside = add_broken(alloc, &mut details, checked, broken)?;
    }
    Ok(Answer {
        ending: Ending::of(report, is_inside),
        details,
    })
}

/// How much of what is allowed was used, in percent, rounded up.
fn percent(count: &Count) -> u64 {
    if count.allowed == 0 {
        return 0;
    }
    let allowed = u128::from(count.allowed);
    let part = (u128::from(count.most) * 100 + allowed - 1) / allowed;
    part.min(100) as u64
}

/// Adds the line of a function, if it was called.
fn add_count(text: &mut String, name: &str, count: &Count) -> Result<(), AllocError> {
    if count.calls == 0 {
        return Ok(());
    }
    let Count {
        calls,
        most,
        allowed,
    } = *count;
    let percent = percent(count);
    writeln!(
        text,
        "{name} calls {calls} steps {most} of {allowed} percent {percent}"
    )
}

/// Adds a line for each function of an algorithm that was called.
fn add_counts(text: &mut String, trials: &Trials) -> Result<(), AllocError> {
    let tally = &trials.tally;
    add_count(text, "Init", &tally.init)?;
    add_count(text, "UnInit", &tally.uninit)?;
    add_count(text, "EraseSector", &tally.erase_sector)?;
    add_count(text, "EraseChip", &tally.erase_chip)?;
    add_count(text, "ProgramPage", &tally.program_page)?;
    add_count(text, "Verify", &tally.verify)
}

/// The word for the contents of the device.
fn contents_word(contents: Contents) -> &'static str {
    match contents {
        Contents::Blank => "blank",
        Contents::Zero => "zero",
        Contents::Random => "random",
        Contents::Outside => "outside",
    }
}

/// The word for the bytes of the pages.
fn bytes_word(bytes: PageBytes) -> &'static str {
    match bytes {
        PageBytes::Random => "random",
        PageBytes::Zero => "zero",
        PageBytes::Empty => "empty",
        PageBytes::First => "first",
        PageBytes::Last => "last",
    }
}

/// Adds the line of a list: the region, its contents and bytes, and their seed.
fn add_list(text: &mut String, subject: &Subject<'_>, broken: &Broken) -> Result<(), AllocError> {
    let base = subject.algorithm.device.base;
    let contents = contents_word(broken.plan.contents);
    let bytes = bytes_word(broken.plan.bytes);
    let seed = broken.seed;
    writeln!(
        text,
        "list device {base:08X} contents {contents} bytes {bytes} seed {seed}"
    )
}

/// Adds the lines of the calls of a list that work on sectors or pages, up to a number.
fn add_works(
    alloc: Global,
    text: &mut String,
    subject: &Subject<'_>,
    broken: &Broken,
    last: u32,
) -> Result<(), OutOfMemory> {
    let work = broken.plan.work;
    let set = choose(alloc, subject, work, broken.seed)?;
    for number in 0..subject.count(work) {
        if set[number as usize] && number <= last {
            add_call(text, subject, work, Turn::Member(number))?;
        }
    }
    Ok(())
}

/// Adds the lines of the calls of a list, up to the one that broke its duty.
fn add_calls(
    alloc: Global,
    text: &mut String,
    subject: &Subject<'_>,
    broken: &Broken,
) -> Result<(), OutOfMemory> {
    let work = broken.plan.work;
    add_call(text, subject, work, Turn::Init)?;
    match broken.turn {
        Turn::Init => {}
        Turn::Member(last) => add_works(alloc, text, subject, broken, last)?,
        Turn::UnInit => {
            add_works(alloc, text, subject, broken, u32::MAX)?;
            add_call(text, subject, work, Turn::UnInit)?;
        }
    }
    Ok(())
}

/// Adds the line of a cell that differs.
fn add_difference(text: &mut String, difference: Option<Difference>) -> Result<(), AllocError> {
    let Some(
        Difference {
            place,
            wanted,
            found,
        },
    ) = difference
    else {
        return Ok(());
    };
    writeln!(text, "cell {place} wanted {wanted:02X} found {found:02X}")
}

/// Adds the line of how a call broke its duty.
fn add_breach(text: &mut String, broken: &Broken) -> Result<(), AllocError> {
    match broken.breach {
        Breach::NotDone { end } => add_end(text, end),
        Breach::Outside { at, len } => { writeln!(text, "operation at cell {at} of {len} cells") }
        Breach::LeftOpen => writeln!(text, "operation open"),
        Breach::Cell => add_difference(text, broken.difference),
    }
}

/// Adds the lines of a breach: whether the first cell that differs lies in the sector, the page or the device that the call works on.
fn add_broken(
    alloc: Global,
    text: &mut String,
    checked: &BoardAlgorithms,
    broken: &Broken,
) -> Result<bool, OutOfMemory>
    requires fit { AreFit (board_of checked.now.board) (map algorithm_of checked.now.algorithms.items) }
    requires inside { broken.now.region < vec_len checked.now.algorithms }
{
    let region = broken.region;
    let algorithms = checked.algorithms.as_slice();
    let subject = Subject::new(alloc, &checked.board, &algorithms[region], region)?;
    add_list(text, &subject, broken)?;
    add_calls(alloc, text, &subject, broken)?;
    add_breach(text, broken)?;
    Ok(is_inside(&subject, broken))
}

/// Whether the first cell that differs lies in the sector, the page or the device that the call works on.
fn is_inside(subject: &Subject<'_>, broken: &Broken) -> bool {
    match (broken.turn, broken.difference) {
        (Turn::Member(number), Some(difference)) => {
            has_place(subject, broken.plan.work, number, difference.place)
        }
        _ => false,
    }
}

/// Whether a place lies in the sector, the page or the device that a call works on. One that verifies has none.
fn has_place(subject: &Subject<'_>, work: Work, number: u32, place: usize) -> bool {
    if number >= subject.count(work) {
        return false;
    }
    let span = match work {
        Work::Sectors => subject.sector(number),
        Work::Chip => subject.whole(),
        Work::Pages => subject.page(number),
        Work::Checks => return false,
    };
    span.from as usize <= place && place < span.to as usize
}
