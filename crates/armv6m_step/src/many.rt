//! Loads and stores of a list of registers.

ghost use Rattle.std.specs.Prelude.{◌≡◌, ◌≤◌, ◌<◌, ◌∷◌};
ghost use Rattle.armv6m_step.specs.Ends.{end_of};
ghost use Rattle.armv6m_step.specs.Meaning.{Runs};
ghost use Rattle.armv6m_step.specs.ListRows.{low_registers, list_bytes, StoresEach, LoadsEach, all_loaded, unless_stopped, many};

use crate::access::{word_at, word_to};
use crate::data::undefined;
use crate::{Bus, Core, Stop};
use armv6m_decode::Many;
use armv6m_decode::registers::{LR, SP};

/// How many bytes the registers of a list take.
#[tactic(auto, using(crate::proofs::ListLemmas::ones_listed))]
fn bytes_of(list: u8) -> u32
    ensures value { result ≡ list_bytes list }
    ensures bound { result ≤ 32 }
{
    4 * list.count_ones()
}

/// The first register of a list, and the list of the others.
#[inline(always)]
fn first_of(list: u8) -> (u8, u8)
    requires { 0 < list }
    ensures registers { low_registers list ≡ result.0 ∷ low_registers result.1 }
    ensures fewer { result.1 < list }
{
    (list.trailing_zeros() as u8, list & (list - 1))
}

#[inline(always)]
#[tactic(auto, using(crate::proofs::ListLemmas::stored_so_far, std::proofs::lemmas::Bool::Decides::nat_tests))]
fn store_list<B: Bus>(core: &Core, bus: &mut B, at: u32, list: u8) -> Result<(), Stop>
    ensures { StoresEach B.acts core.now at (low_registers list) bus.old result bus.new }
{
    let mut to = at;
    let mut left = list;
    while left != 0 {
        let (r, rest) = first_of(left);
        word_to(bus, to, core.read(r))?;
        to = to.wrapping_add(4);
        left = rest;
    }
    Ok(())
}

/// Restores the core of before an instruction, if the instruction stopped.
#[inline(always)]
fn restore(core: &mut Core, before: Core, made: Result<(), Stop>)
    ensures { core.new ≡ unless_stopped before core.old made }
{
    if made.is_err() {
        *core = before;
    }
}

/// Loads the registers. After a fault some are loaded.
#[inline(always)]
#[tactic(auto, using(crate::proofs::ListLemmas::loaded_so_far, std::proofs::lemmas::Bool::Decides::nat_tests))]
fn load_list<B: Bus>(core: &mut Core, bus: &mut B, at: u32, list: u8) -> Result<(), Stop>
    ensures { LoadsEach B.acts core.old at (low_registers list) bus.old (all_loaded core.new result) bus.new }
{
    let mut from = at;
    let mut left = list;
    while left != 0 {
        let (r, rest) = first_of(left);
        let value = word_at(bus, from)?;
        core.write(r, value);
        from = from.wrapping_add(4);
        left = rest;
    }
    Ok(())
}

/// Executes the instruction, if the one after it is at `next`.
#[inline(always)]
#[tactic(auto, using(crate::proofs::RunLemmas::asks))]
pub(crate) fn run<B: Bus>(core: &mut Core, bus: &mut B, next: u32, op: Many) -> Result<(), Stop>
    ensures { Runs B.acts (many core.old next op) core.old bus.old (end_of result) core.new bus.new }
{
    match op {
        Many::Push { lr, list } => push(core, bus, next, lr, list),
        Many::Pop { pc, list } => pop(core, bus, next, pc, list),
        Many::Stm { n, list } => store_many(core, bus, next, n, list),
        Many::Ldm { n, list } => load_many(core, bus, next, n, list),
    }
}

#[tactic(auto, using(crate::proofs::ListLemmas::each, crate::proofs::RunLemmas::asks, std::proofs::lemmas::Bool::Decides::nat_tests))]
fn store_many<B: Bus>(core: &mut Core, bus: &mut B, next: u32, n: u8, list: u8) -> Result<(), Stop>
    ensures { Runs B.acts (many core.old next (Many.Stm n list)) core.old bus.old (end_of result) core.new bus.new }
{
    let by = bytes_of(list);
    if by == 0 {
        return undefined(core);
    }
    let at = core.read(n);
    store_list(core, bus, at, list)?;
    core.write(n, at.wrapping_add(by));
    core.go_to(next);
    Ok(())
}

/// LDM, which after a fault leaves some registers loaded.
#[tactic(auto, using(crate::proofs::ListLemmas::each, crate::proofs::RunLemmas::asks, std::proofs::lemmas::Bool::Decides::nat_tests))]
fn load_many_into<B: Bus>(
    core: &mut Core,
    bus: &mut B,
    next: u32,
    n: u8,
    list: u8,
) -> Result<(), Stop>
    ensures { Runs B.acts (many core.old next (Many.Ldm n list)) core.old bus.old (end_of result) (unless_stopped core.old core.new result) bus.new }
{
    let by = bytes_of(list);
    if by == 0 {
        return undefined(core);
    }
    let at = core.read(n);
    load_list(core, bus, at, list)?;
    let is_listed = (u32::from(list) >> (n % 16)) % 2 == 1;
    if !is_listed {
        core.write(n, at.wrapping_add(by));
    }
    core.go_to(next);
    Ok(())
}

#[tactic(auto, using(crate::proofs::RunLemmas::asks))]
fn load_many<B: Bus>(core: &mut Core, bus: &mut B, next: u32, n: u8, list: u8) -> Result<(), Stop>
    ensures { Runs B.acts (many core.old next (Many.Ldm n list)) core.old bus.old (end_of result) core.new bus.new }
{
    let before = *core;
    let made = load_many_into(core, bus, next, n, list);
    restore(core, before, made);
    made
}

#[inline(always)]
#[tactic(auto, using(crate::proofs::ListLemmas::each, crate::proofs::RunLemmas::asks, std::proofs::lemmas::Bool::Decides::nat_tests))]
pub(crate) fn push<B: Bus>(
    core: &mut Core,
    bus: &mut B,
    next: u32,
    lr: bool,
    list: u8,
) -> Result<(), Stop>
    ensures { Runs B.acts (many core.old next (Many.Push lr list)) core.old bus.old (end_of result) core.new bus.new }
{
    let low = bytes_of(list);
    let by = low + if lr { 4 } else { 0 };
    if by == 0 {
        return undefined(core);
    }
    let start = core.read(SP).wrapping_sub(by);
    store_list(core, bus, start, list)?;
    if lr {
        word_to(bus, start.wrapping_add(low), core.read(LR))?;
    }
    core.write(SP, start);
    core.go_to(next);
    Ok(())
}

/// POP, which after a fault leaves some registers loaded.
#[inline(always)]
#[tactic(auto, using(crate::proofs::ListLemmas::each, crate::proofs::RunLemmas::asks, std::proofs::lemmas::Bool::Decides::nat_tests))]
fn pop_into<B: Bus>(core: &mut Core, bus: &mut B, next: u32, pc: bool, list: u8) -> Result<(), Stop>
    ensures { Runs B.acts (many core.old next (Many.Pop pc list)) core.old bus.old (end_of result) (unless_stopped core.old core.new result) bus.new }
{
    let low = bytes_of(list);
    let by = low + if pc { 4 } else { 0 };
    if by == 0 {
        return undefined(core);
    }
    let here = core.pc();
    let start = core.read(SP);
    load_list(core, bus, start, list)?;
    let mut to = next;
    if pc {
        let target = word_at(bus, start.wrapping_add(low))?;
        if target % 2 != 1 {
            return Err(Stop::BadState { pc: here });
        }
        to = target - 1;
    }
    core.write(SP, start.wrapping_add(by));
    core.go_to(to);
    Ok(())
}

#[inline(always)]
#[tactic(auto, using(crate::proofs::RunLemmas::asks))]
pub(crate) fn pop<B: Bus>(
    core: &mut Core,
    bus: &mut B,
    next: u32,
    pc: bool,
    list: u8,
) -> Result<(), Stop>
    ensures { Runs B.acts (many core.old next (Many.Pop pc list)) core.old bus.old (end_of result) core.new bus.new }
{
    let before = *core;
    let made = pop_into(core, bus, next, pc, list);
    restore(core, before, made);
    made
}
