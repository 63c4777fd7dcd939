//! Orders of turns.
ghost use Rattle.std.specs.Prelude.{◌<◌, ◌≤◌};

use anyhow::Result;
use gang_run::Asked;

/// The order in which targets have their turns.
#[derive(Clone, Copy)]
pub enum Order {
    Forward,
    Backward,
    /// Drawn with this seed.
    Drawn(u32),
}

impl Order {
    /// The order of a word.
    pub fn read(word: &str) -> Result<Order> {
        Ok(match word {
            "forward" => Order::Forward,
            "backward" => Order::Backward,
            _ => Order::Drawn(word.parse::<u32>()?),
        })
    }
}

/// The number after `seed` in a sequence that looks drawn.
pub fn after(seed: u32) -> u32 {
    seed.wrapping_mul(1664525).wrapping_add(1013904223)
}

/// A number below another one.
pub fn below(seed: u32, count: usize) -> usize
    requires { 0 < count }
    ensures { result < count }
{
    (after(after(seed)) >> 8) as usize % count
}

/// Which of `count` targets has the turn of this number.
pub fn whose(order: Order, number: u32, count: usize) -> usize
    requires { 0 < count }
    ensures { result < count }
{
    let turn = number as usize % count;
    match order {
        Order::Forward => turn,
        Order::Backward => count - 1 - turn,
        Order::Drawn(seed) => below(seed ^ number, count),
    }
}

/// A turn that is drawn, of 1 to 4,096 steps.
pub fn drawn(seed: u32, count: usize) -> Asked
    requires { 0 < count }
    ensures target { result.target < count }
    ensures steps { 1 ≤ result.steps }
{
    Asked {
        target: below(seed, count),
        steps: 1 + u64::from(after(seed) >> 20),
    }
}
