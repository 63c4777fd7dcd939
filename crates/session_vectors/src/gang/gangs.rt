//! Gangs, in several orders of turns.
ghost use Rattle.std.specs.Prelude.{◌≡◌, ◌≤◌, length, IfOk};
ghost use Rattle.gang_run.specs.Gangs.{IsGang, AreReady};

use crate::gang::orders::{Order, drawn, whose};
use anyhow::{Result, bail, ensure};
use bench_model::{Bench, MemoryBench};
use gang_run::{Gang, Turn};
use std::alloc::Global;

/// The most turns that a gang has here.
const TURNS: u32 = 100_000_000;

/// Which turns a gang is given.
#[derive(Clone, Copy)]
pub enum Turns {
    /// One turn after the other in an order, each of at most `steps` steps, until all targets have ended.
    Ordered { order: Order, steps: u64 },
    /// A list of 64 drawn turns, and then rounds to the end.
    Listed { seed: u32 },
    /// Drawn turns, four for each of `fours`.
    Stopped { seed: u32, fours: u32 },
}

/// Gives turns in an order until each target has ended. Answers how many turns there were, if they are at most `TURNS`.
fn play<B: Bench>(gang: &mut Gang, benches: &mut [B], order: Order, steps: u64) -> Option<u32>
    requires gang { IsGang gang.old }
    requires count { length benches.old ≡ length gang.old.slots.items }
    requires some { 1 ≤ length benches.old }
    requires ready { AreReady B.Bench gang.old benches.old }
    requires steps { 1 ≤ steps }
    ensures { length gang.new.slots.items ≡ length gang.old.slots.items }
{
    for number in 0..TURNS {
        let target = whose(order, number, benches.len());
        match gang.turn(benches, target, steps) {
            Turn::Ended => {
                if have_ended(gang, benches.len()) {
                    return Some(number + 1);
                }
            }
            Turn::More => {}
        }
    }
    None
}

/// Whether the first `count` targets have ended.
fn have_ended(gang: &Gang, count: usize) -> bool
    requires { count ≤ length gang.now.slots.items }
{
    for target in 0..count {
        if gang.end(target).is_none() {
            return false;
        }
    }
    true
}

/// Gives drawn turns of drawn lengths, four for each of `fours`.
fn play_drawn<B: Bench>(gang: &mut Gang, benches: &mut [B], seed: u32, fours: u32)
    requires gang { IsGang gang.old }
    requires count { length benches.old ≡ length gang.old.slots.items }
    requires some { 1 ≤ length benches.old }
    requires ready { AreReady B.Bench gang.old benches.old }
    ensures gang { IsGang gang.new }
    ensures places { length gang.new.slots.items ≡ length gang.old.slots.items }
    ensures count { length benches.new ≡ length benches.old }
    ensures ready { AreReady B.Bench gang.new benches.new }
{
    for number in 0..fours {
        let seed = seed ^ (number << 2);
        let count = benches.len();
        let asked = [
            drawn(seed, count),
            drawn(seed ^ 1, count),
            drawn(seed ^ 2, count),
            drawn(seed ^ 3, count),
        ];
        gang.turns(benches, &asked);
    }
}

/// Gives a gang its turns. Answers how many were given one by one, or none where a target still goes on after them.
fn give<B: Bench>(gang: &mut Gang, benches: &mut [B], turns: Turns) -> Option<u32>
    requires gang { IsGang gang.old }
    requires count { length benches.old ≡ length gang.old.slots.items }
    requires some { 1 ≤ length benches.old }
    requires ready { AreReady B.Bench gang.old benches.old }
    ensures { length gang.new.slots.items ≡ length gang.old.slots.items }
{
    match turns {
        Turns::Ordered { order, steps } => {
            if steps == 0 {
                None
            } else {
                play(gang, benches, order, steps)
            }
        }
        Turns::Listed { seed } => {
            play_drawn(gang, benches, seed, 16);
            gang.run(benches, 1000);
            Some(0)
        }
        Turns::Stopped { seed, fours } => {
            play_drawn(gang, benches, seed, fours);
            Some(0)
        }
    }
}

/// Opens a gang and gives it its turns. Answers the gang and how many turns were given one by one.
pub fn drive(alloc: Global, benches: &mut [MemoryBench], turns: Turns) -> Result<(Gang, u32)>
    ensures { IfOk result (λ driven. length driven.0.slots.items ≡ length benches.new) }
{
    ensure!(
        !benches.is_empty() && benches.len() <= 16,
        "1 to 16 targets"
    );
    let mut gang = Gang::open(alloc, benches)?;
    match give(&mut gang, benches, turns) {
        Some(given) => Ok((gang, given)),
        None => {
            gang.free();
            bail!("a target goes on")
        }
    }
}
