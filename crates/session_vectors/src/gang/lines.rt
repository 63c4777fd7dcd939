//! The lines of the gangs, with numbers in decimal digits, except for the address and the bytes of an image.
//!
//! - `gang NAME` begins a gang without targets.
//! - `job FLM AT IMAGE COUNT`: a target with the begun job of the small board that puts the bytes IMAGE, in pairs of hexadecimal digits, to
//!   the address AT. In its snapshot each of the first COUNT cells holds its place modulo 256, and the others hold FF. Its cells are the
//!   same.
//! - `torn VALUE FROM LEN`: LEN cells of the last target hold this byte, as a stop may leave them. `fail NUMBER`: the call of this number
//!   on its cells fails. `none`: its file is no job.
//! - `alone`: carries the job of each target alone, and prints how it ends, and whether the cells are then the image over the snapshot.
//! - `turns ORDER STEPS`: a gang that has turns of at most STEPS steps. The order is `forward`, `backward` or a number, which is the seed
//!   of a drawn order.
//! - `takes COUNT...`: how many turns the job of each target takes alone where a turn may have all steps of a call. A phase takes one turn
//!   for its reset with the load, and two for each of its calls: one prepares it, the other runs it. Then come the last reset, one
//!   comparison for 4,096 cells and the close, up to the turn that ends the job.
//! - `lists COUNT`: COUNT gangs, each with 64 drawn turns of drawn lengths, and then rounds to the end.
//! - `stops COUNT`: COUNT gangs, each stopped after drawn turns, with each pick. A second gang carries on what is left, and so does each
//!   target alone.
//! - `call WORDS [PUT]`: the call of a gang on the benches of the targets, with WORDS words. The put of number PUT on standard output
//!   fails. It prints what was put and the status. Each target ends as it does alone, or with status 2 stays as it was.
//! - `share`: the call of a gang on two benches with the job of the first target. Each target begins its first operation before either of
//!   them ends its last one.

use crate::gang::gangs::Turns;
use crate::gang::job::Job;
use crate::gang::orders::Order;
use crate::gang::share::share_turns;
use crate::gang::stops::stop_gangs;
use crate::gang::team::Team;
use crate::output::put_line;
use anyhow::{Context, Result, bail};
use std::alloc::Global;

/// Goes through the lines of a file.
pub fn go_through(rt: &HostRuntime, text: &str) -> Result<()> {
    let gangs = text.strip_prefix("gang ").context("no gang")?;
    for gang in gangs.split("\ngang ") {
        let mut team = Team::new(rt.alloc());
        go_through_one(rt, &mut team, gang)?;
    }
    Ok(())
}

/// Goes through the lines of a gang. The first line is its name.
fn go_through_one(rt: &HostRuntime, team: &mut Team, text: &str) -> Result<()> {
    let (name, lines) = text.split_once('\n').context("no target")?;
    put_line(rt, name)?;
    for line in lines.lines() {
        if !line.is_empty() {
            step(rt, team, line)?;
        }
    }
    Ok(())
}

/// Does what a line says.
fn step(rt: &HostRuntime, team: &mut Team, line: &str) -> Result<()> {
    let words = line.split_whitespace().collect::<Vec<&str>>(rt.alloc())?;
    follow(rt, team, line, &words)
}

/// The one number of some words.
fn number_of(words: &[&str]) -> Result<u32> {
    let [number] = words else {
        bail!("a number is wanted");
    };
    Ok(number.parse::<u32>()?)
}

/// Sets cells of a job to a byte, as some words say.
fn tear(job: &mut Job, words: &[&str]) -> Result<()> {
    let [value, from, len] = words else {
        bail!("VALUE FROM LEN is wanted");
    };
    let value = u8::from_str_radix(value, 16)?;
    let from = from.parse::<usize>()?;
    job.tear(value, from, len.parse::<usize>()?)
}

/// Changes a job as a word and the words after it say.
fn change(alloc: Global, job: &mut Job, word: &str, words: &[&str]) -> Result<()> {
    match word {
        "torn" => tear(job, words),
        "fail" => {
            job.fail = u64::from(number_of(words)?);
            Ok(())
        }
        "none" => job.spoil(alloc),
        _ => bail!("{word}: no such line"),
    }
}

/// Drives the jobs by turns, in the order and with the steps of these words, and prints the line once they end as alone.
fn take_turns(rt: &HostRuntime, team: &Team, line: &str, words: &[&str]) -> Result<()> {
    let [order, steps] = words else {
        bail!("ORDER STEPS is wanted");
    };
    let order = Order::read(order)?;
    let steps = steps.parse::<u64>()?;
    team.take(rt.alloc(), Turns::Ordered { order, steps })?;
    println!(rt; "{line}: as alone")?;
    Ok(())
}

/// Calls a gang with the number of words that the first word says. The second word, if there is one, says which put fails.
fn call(rt: &HostRuntime, team: &Team, words: &[&str]) -> Result<()> {
    let [count, put @ ..] = words else {
        bail!("WORDS [PUT] is wanted");
    };
    let put = if put.is_empty() { 0 } else { number_of(put)? };
    team.call(rt, count.parse::<usize>()?, u64::from(put))
}

/// Does what the words of a line say.
fn follow(rt: &HostRuntime, team: &mut Team, line: &str, words: &[&str]) -> Result<()> {
    let [word, words @ ..] = words else {
        bail!("a word is wanted");
    };
    match *word {
        "job" => team.add(Job::read(rt, words)?),
        "alone" => team.carry_alone(rt),
        "turns" => take_turns(rt, team, line, words),
        "takes" => team.take_counts(rt, words),
        "lists" => team.take_lists(rt, number_of(words)?),
        "stops" => stop_gangs(rt, team, number_of(words)?),
        "call" => call(rt, team, words),
        "share" => share_turns(rt, team.jobs.first().context("no job")?),
        _ => change(rt.alloc(), team.last().context("no job")?, word, words),
    }
}
