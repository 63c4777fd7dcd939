//! Addresses, extensions, byte orders, hints, barriers and the special registers.
#![tactic(auto, using(std::proofs::lemmas::Bool::Decides::nat_tests))]

ghost use Rattle.std.specs.Prelude.{◌≡◌, ◌<◌, ◌*◌, ◌^◌, Result, Ok};
ghost use Rattle.armv6m_alu.specs.Sums.{number_of};
ghost use Rattle.armv6m_step.specs.Numbers.{sum, difference};
ghost use Rattle.armv6m_step.specs.Ends.{end_of};
ghost use Rattle.armv6m_step.specs.Meaning.{Leaves};
ghost use Rattle.armv6m_step.specs.Registers.{reg, moved};
ghost use Rattle.armv6m_step.specs.OtherRows.{other, put, swapped_half, swapped_halves, flags_number, with_flags_of, with_primask, read_special, write_special};

use crate::data::undefined;
use crate::memory::words;
use crate::{Core, Stop};
use armv6m_alu::sign_extend;
use armv6m_decode::Other;
use armv6m_decode::registers::{APSR, MSP, PC, PRIMASK, SP};
use armv6m_decode::targets::literal;

fn put_into(core: &mut Core, next: u32, d: u8, value: u32)
    ensures { put core.old next d value ≡ Ok core.new }
{
    core.write(d, value);
    core.go_to(next);
}

/// SP plus a number of words.
fn above_sp(core: &Core, count: u8) -> u32
    ensures { result ≡ sum (reg core.now SP) (4 * count) }
{
    core.read(SP).wrapping_add(words(count))
}

fn below_sp(core: &Core, count: u8) -> u32
    ensures { result ≡ difference (reg core.now SP) (4 * count) }
{
    core.read(SP).wrapping_sub(words(count))
}

fn swap_half(half: u32) -> u32
    requires { half < 2 ^ 16 }
    ensures value { result ≡ swapped_half half }
    ensures fits { result < 2 ^ 16 }
{
    half % 0x100 * 0x100 + half / 0x100 % 0x100
}

fn swap_halves(value: u32) -> u32
    ensures { result ≡ swapped_halves value }
{
    swap_half(value >> 16) * 0x1_0000 + swap_half(value % 0x1_0000)
}

fn number(flag: bool) -> u32
    ensures value { result ≡ number_of flag }
    ensures bound { result < 2 }
{
    if flag { 1 } else { 0 }
}

fn flags(core: &Core) -> u32
    ensures { result ≡ flags_number core.now }
{
    number(core.n) * 0x8000_0000
        + number(core.z) * 0x4000_0000
        + number(core.c) * 0x2000_0000
        + number(core.v) * 0x1000_0000
}

#[tactic(auto, unfolding(crate::specs::OtherRows::with_flags_of))]
fn set_flags(core: &mut Core, x: u32)
    ensures { core.new ≡ with_flags_of core.old x }
{
    core.n = (x >> 31) % 2 == 1;
    core.z = (x >> 30) % 2 == 1;
    core.c = (x >> 29) % 2 == 1;
    core.v = (x >> 28) % 2 == 1;
}

#[tactic(auto, unfolding(crate::specs::OtherRows::with_primask))]
fn set_primask(core: &mut Core, on: bool)
    ensures { core.new ≡ with_primask core.old on }
{
    core.primask = on;
}

fn read_from(core: &mut Core, next: u32, d: u8, special: u8) -> Result<(), Stop>
    ensures { Leaves (read_special core.old next d special) core.old (end_of result) core.new }
{
    if d == SP || d == PC {
        return undefined(core);
    }
    match special {
        APSR => put_into(core, next, d, flags(core)),
        MSP => put_into(core, next, d, core.read(SP)),
        PRIMASK => put_into(core, next, d, number(core.primask)),
        _ => return undefined(core),
    }
    Ok(())
}

fn write_to(core: &mut Core, next: u32, n: u8, special: u8) -> Result<(), Stop>
    ensures { Leaves (write_special core.old next n special) core.old (end_of result) core.new }
{
    if n == SP || n == PC {
        return undefined(core);
    }
    let value = core.read(n);
    match special {
        APSR => set_flags(core, value),
        MSP => core.write(SP, value),
        PRIMASK => set_primask(core, value % 2 == 1),
        _ => return undefined(core),
    }
    core.go_to(next);
    Ok(())
}

/// Executes the instruction, if the one after it is at `next`.
pub(crate) fn run(core: &mut Core, next: u32, op: Other) -> Result<(), Stop>
    ensures { Leaves (other core.old next op) core.old (end_of result) core.new }
{
    match op {
        Other::Adr { d, immediate: i } => put_into(core, next, d, literal(core.pc(), i)),
        Other::AddFromSp { d, immediate: i } => put_into(core, next, d, above_sp(core, i)),
        Other::AddToSp { immediate: i } => put_into(core, next, SP, above_sp(core, i)),
        Other::SubFromSp { immediate: i } => put_into(core, next, SP, below_sp(core, i)),
        Other::Sxth { d, m } => put_into(core, next, d, sign_extend(core.low_half(m), 16)),
        Other::Sxtb { d, m } => put_into(core, next, d, sign_extend(core.low_byte(m), 8)),
        Other::Uxth { d, m } => put_into(core, next, d, core.low_half(m)),
        Other::Uxtb { d, m } => put_into(core, next, d, core.low_byte(m)),
        Other::Cpsie => mask(core, next, false),
        Other::Cpsid => mask(core, next, true),
        Other::Rev { d, m } => put_into(core, next, d, core.read(m).swap_bytes()),
        Other::Rev16 { d, m } => put_into(core, next, d, swap_halves(core.read(m))),
        Other::Revsh { d, m } => put_into(
            core,
            next,
            d,
            sign_extend(swap_half(core.low_half(m)), 16),
        ),
        Other::Nop | Other::Yield | Other::Wfe | Other::Wfi | Other::Sev => core.go_to(next),
        Other::Dsb | Other::Dmb | Other::Isb => core.go_to(next),
        Other::Bkpt { immediate: _ } => return Err(Stop::Break { pc: core.pc() }),
        Other::Udf { immediate: _ } | Other::Svc { immediate: _ } => return undefined(core),
        Other::Mrs { d, special } => return read_from(core, next, d, special),
        Other::Msr { n, special } => return write_to(core, next, n, special),
    }
    Ok(())
}

fn mask(core: &mut Core, next: u32, on: bool)
    ensures { core.new ≡ moved (with_primask core.old on) next }
{
    set_primask(core, on);
    core.go_to(next);
}
