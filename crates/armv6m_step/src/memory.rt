//! Loads and stores of one register.
#![tactic(auto, using(crate::proofs::RunLemmas::asks))]

ghost use Rattle.std.specs.Prelude.{◌≡◌, ◌*◌};
ghost use Rattle.armv6m_step.specs.Numbers.{sum};
ghost use Rattle.armv6m_step.specs.Ends.{end_of};
ghost use Rattle.armv6m_step.specs.Registers.{reg};
ghost use Rattle.armv6m_step.specs.Meaning.{Runs};
ghost use Rattle.armv6m_step.specs.MemoryRows.{load_word, load_half, load_byte, load_signed_half, load_signed_byte, store_word, store_half, store_byte, memory};

use crate::access::{byte_at, byte_to, half_at, half_to, word_at, word_to};
use crate::{Bus, Core, Stop};
use armv6m_alu::sign_extend;
use armv6m_decode::Memory;
use armv6m_decode::registers::SP;
use armv6m_decode::targets::literal;

/// The offset in bytes of an immediate that counts words, halfwords or bytes.
pub(crate) fn words(count: u8) -> u32
    ensures { result ≡ 4 * count }
{
    4 * u32::from(count)
}

pub(crate) fn halves(count: u8) -> u32
    ensures { result ≡ 2 * count }
{
    2 * u32::from(count)
}

pub(crate) fn bytes(count: u8) -> u32
    ensures { result ≡ count }
{
    u32::from(count)
}

/// The sum of a register and an offset in bytes.
pub(crate) fn at_offset(core: &Core, n: u8, offset: u32) -> u32
    ensures { result ≡ sum (reg core.now n) offset }
{
    core.read(n).wrapping_add(offset)
}

/// LDR of a literal.
#[inline(always)]
#[tactic(auto, using(crate::proofs::RunLemmas::asks), unfolding(crate::specs::MemoryRows::load_word))]
fn literal_into<B: Bus>(core: &mut Core, bus: &mut B, next: u32, t: u8, i: u8) -> Result<(), Stop>
    ensures { Runs B.acts (memory core.old next (Memory.LdrLiteral t i)) core.old bus.old (end_of result) core.new bus.new }
{
    let value = word_at(bus, literal(core.pc(), i))?;
    core.write(t, value);
    core.go_to(next);
    Ok(())
}

/// LDR: loads the word at R[n] + offset to R[t].
#[inline(always)]
#[tactic(auto, using(crate::proofs::RunLemmas::asks), unfolding(crate::specs::MemoryRows::load_word))]
fn word_into<B: Bus>(
    core: &mut Core,
    bus: &mut B,
    next: u32,
    t: u8,
    n: u8,
    offset: u32,
) -> Result<(), Stop>
    ensures { Runs B.acts (load_word core.old next t (sum (reg core.old n) offset)) core.old bus.old (end_of result) core.new bus.new }
{
    let value = word_at(bus, at_offset(core, n, offset))?;
    core.write(t, value);
    core.go_to(next);
    Ok(())
}

/// LDRH: loads a halfword, with zeros as its upper bits.
#[inline(always)]
#[tactic(auto, using(crate::proofs::RunLemmas::asks), unfolding(crate::specs::MemoryRows::load_half))]
fn half_into<B: Bus>(
    core: &mut Core,
    bus: &mut B,
    next: u32,
    t: u8,
    n: u8,
    offset: u32,
) -> Result<(), Stop>
    ensures { Runs B.acts (load_half core.old next t (sum (reg core.old n) offset)) core.old bus.old (end_of result) core.new bus.new }
{
    let value = half_at(bus, at_offset(core, n, offset))?;
    core.write(t, value);
    core.go_to(next);
    Ok(())
}

/// LDRB: loads a byte, with zeros as its upper bits.
#[inline(always)]
#[tactic(auto, using(crate::proofs::RunLemmas::asks), unfolding(crate::specs::MemoryRows::load_byte))]
fn byte_into<B: Bus>(
    core: &mut Core,
    bus: &mut B,
    next: u32,
    t: u8,
    n: u8,
    offset: u32,
) -> Result<(), Stop>
    ensures { Runs B.acts (load_byte core.old next t (sum (reg core.old n) offset)) core.old bus.old (end_of result) core.new bus.new }
{
    let value = byte_at(bus, at_offset(core, n, offset))?;
    core.write(t, value);
    core.go_to(next);
    Ok(())
}

/// LDRSH: loads a halfword, with its sign as its upper bits.
#[inline(always)]
#[tactic(auto, using(crate::proofs::RunLemmas::asks), unfolding(crate::specs::MemoryRows::load_signed_half))]
fn signed_half_into<B: Bus>(
    core: &mut Core,
    bus: &mut B,
    next: u32,
    t: u8,
    n: u8,
    offset: u32,
) -> Result<(), Stop>
    ensures { Runs B.acts (load_signed_half core.old next t (sum (reg core.old n) offset)) core.old bus.old (end_of result) core.new bus.new }
{
    let value = half_at(bus, at_offset(core, n, offset))?;
    core.write(t, sign_extend(value, 16));
    core.go_to(next);
    Ok(())
}

/// LDRSB: loads a byte, with its sign as its upper bits.
#[inline(always)]
#[tactic(auto, using(crate::proofs::RunLemmas::asks), unfolding(crate::specs::MemoryRows::load_signed_byte))]
fn signed_byte_into<B: Bus>(
    core: &mut Core,
    bus: &mut B,
    next: u32,
    t: u8,
    n: u8,
    offset: u32,
) -> Result<(), Stop>
    ensures { Runs B.acts (load_signed_byte core.old next t (sum (reg core.old n) offset)) core.old bus.old (end_of result) core.new bus.new }
{
    let value = byte_at(bus, at_offset(core, n, offset))?;
    core.write(t, sign_extend(value, 8));
    core.go_to(next);
    Ok(())
}

/// STR: stores R[t] as the word at R[n] + offset.
#[inline(always)]
#[tactic(auto, using(crate::proofs::RunLemmas::asks), unfolding(crate::specs::MemoryRows::store_word))]
fn word_from<B: Bus>(
    core: &mut Core,
    bus: &mut B,
    next: u32,
    t: u8,
    n: u8,
    offset: u32,
) -> Result<(), Stop>
    ensures { Runs B.acts (store_word core.old next t (sum (reg core.old n) offset)) core.old bus.old (end_of result) core.new bus.new }
{
    word_to(bus, at_offset(core, n, offset), core.read(t))?;
    core.go_to(next);
    Ok(())
}

/// STRH: stores the low halfword of R[t].
#[inline(always)]
#[tactic(auto, using(crate::proofs::RunLemmas::asks), unfolding(crate::specs::MemoryRows::store_half))]
fn half_from<B: Bus>(
    core: &mut Core,
    bus: &mut B,
    next: u32,
    t: u8,
    n: u8,
    offset: u32,
) -> Result<(), Stop>
    ensures { Runs B.acts (store_half core.old next t (sum (reg core.old n) offset)) core.old bus.old (end_of result) core.new bus.new }
{
    half_to(bus, at_offset(core, n, offset), core.low_half(t))?;
    core.go_to(next);
    Ok(())
}

/// STRB: stores the low byte of R[t].
#[inline(always)]
#[tactic(auto, using(crate::proofs::RunLemmas::asks), unfolding(crate::specs::MemoryRows::store_byte))]
fn byte_from<B: Bus>(
    core: &mut Core,
    bus: &mut B,
    next: u32,
    t: u8,
    n: u8,
    offset: u32,
) -> Result<(), Stop>
    ensures { Runs B.acts (store_byte core.old next t (sum (reg core.old n) offset)) core.old bus.old (end_of result) core.new bus.new }
{
    byte_to(bus, at_offset(core, n, offset), core.low_byte(t))?;
    core.go_to(next);
    Ok(())
}

/// Executes the instruction, if the one after it is at `next`.
pub(crate) fn run<B: Bus>(core: &mut Core, bus: &mut B, next: u32, op: Memory) -> Result<(), Stop>
    ensures { Runs B.acts (memory core.old next op) core.old bus.old (end_of result) core.new bus.new }
{
    match op {
        Memory::LdrLiteral { t, immediate: i } => literal_into(core, bus, next, t, i),
        Memory::StrRegister { t, n, m } => word_from(core, bus, next, t, n, core.read(m)),
        Memory::StrhRegister { t, n, m } => half_from(core, bus, next, t, n, core.read(m)),
        Memory::StrbRegister { t, n, m } => byte_from(core, bus, next, t, n, core.read(m)),
        Memory::LdrsbRegister { t, n, m } => signed_byte_into(core, bus, next, t, n, core.read(m)),
        Memory::LdrRegister { t, n, m } => word_into(core, bus, next, t, n, core.read(m)),
        Memory::LdrhRegister { t, n, m } => half_into(core, bus, next, t, n, core.read(m)),
        Memory::LdrbRegister { t, n, m } => byte_into(core, bus, next, t, n, core.read(m)),
        Memory::LdrshRegister { t, n, m } => signed_half_into(core, bus, next, t, n, core.read(m)),
        Memory::StrImmediate { t, n, immediate: i } => word_from(core, bus, next, t, n, words(i)),
        Memory::LdrImmediate { t, n, immediate: i } => word_into(core, bus, next, t, n, words(i)),
        Memory::StrbImmediate { t, n, immediate: i } => byte_from(core, bus, next, t, n, bytes(i)),
        Memory::LdrbImmediate { t, n, immediate: i } => byte_into(core, bus, next, t, n, bytes(i)),
        Memory::StrhImmediate { t, n, immediate: i } => half_from(core, bus, next, t, n, halves(i)),
        Memory::LdrhImmediate { t, n, immediate: i } => half_into(core, bus, next, t, n, halves(i)),
        Memory::StrSp { t, immediate: i } => word_from(core, bus, next, t, SP, words(i)),
        Memory::LdrSp { t, immediate: i } => word_into(core, bus, next, t, SP, words(i)),
    }
}
