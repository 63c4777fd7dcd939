//! A step in line, for the most frequent instructions. One jump finds the arm of an instruction. All other instructions are left to `step`.
#![tactic(auto, using(crate::proofs::RunLemmas::asks, std::proofs::lemmas::Bool::Decides::nat_tests))]

ghost use Rattle.std.specs.Prelude.{◌≡◌, ◌*◌, ◌%◌, if◌then◌else◌};
ghost use Rattle.armv6m_alu.specs.Bits.{is_bit_set};
ghost use Rattle.armv6m_decode.specs.Rows.{bits};
ghost use Rattle.armv6m_decode.specs.Table.{decoded, high_register};
ghost use Rattle.armv6m_decode.specs.Targets.{branch_target};
ghost use Rattle.bench_model.specs.Counted.{IsCounted};
ghost use Rattle.armv6m_step.specs.BranchRows.{branch};
ghost use Rattle.armv6m_step.specs.DataRows.{alu};
ghost use Rattle.armv6m_step.specs.Ends.{is_device_end, stop_end};
ghost use Rattle.armv6m_step.specs.ListRows.{many};
ghost use Rattle.armv6m_step.specs.Meaning.{Runs};
ghost use Rattle.armv6m_step.specs.MemoryRows.{store_word, store_half, store_byte, memory};
ghost use Rattle.armv6m_step.specs.Numbers.{sum};
ghost use Rattle.armv6m_step.specs.OtherRows.{other};
ghost use Rattle.armv6m_step.specs.Quick.{Goes, Steps, Reads};
ghost use Rattle.armv6m_step.specs.Registers.{pc_of, reg, written, moved, with_nz, with_carry, with_nzcv};
ghost use Rattle.armv6m_step.specs.Step.{of_halfword, instruction};

use crate::access::{byte_to, fetch16, half_to, peek16, word_to};
use crate::arms::{Arm, arm_of};
use crate::data::{add, add_carry, amount, difference, right_by, subtract};
use crate::ends::step_end;
use crate::fields::{any_low, any_middle, byte, five, low, middle, three, top, upper};
use crate::loads::{byte_into, half_into, word_into};
use crate::many::{pop, push};
use crate::memory::{at_offset, bytes, halves, words};
use crate::{Bus, Core, StepEnd, Stop, step};
use armv6m_alu::{Shifted, Sum, rotate_right, shift_left, shift_right_signed};
use armv6m_decode::registers::{LR, PC, SP};
use armv6m_decode::targets::{far, literal, near, short};
use armv6m_decode::{Alu, Branch, Condition, Decoded, Instr, Many, Memory, Other, decode32};

/// What a quick step did.
#[derive(Clone, Copy)]
pub(crate) enum Quick {
    /// The instruction is done in all but the PC. The next instruction is at this address.
    Went { pc: u32 },
    /// The instruction is done, and ended this way.
    Done { end: StepEnd },
    /// Nothing was done.
    Left,
}

/// An instruction that stopped.
#[inline(always)]
pub(crate) fn stopped(stop: Stop) -> Quick
    ensures { result ≡ Quick.Done (stop_end stop) }
{
    Quick::Done {
        end: step_end(Err(stop)),
    }
}

/// The address of a register and an offset in bytes.
#[inline(always)]
fn at_register(core: &Core, n: usize, offset: u32) -> u32
    ensures { result ≡ sum (reg core.now n) offset }
{
    core.read_wide(n).wrapping_add(offset)
}

/// Writes a value to a register, and sets N and Z.
#[inline(always)]
fn put_value(core: &mut Core, d: usize, value: u32)
    ensures { core.new ≡ with_nz (written core.old d value) value }
{
    core.write_wide(d, value);
    core.set_nz(value);
}

/// Writes a shifted value to a register, and sets N, Z and C.
#[inline(always)]
fn put_shift(core: &mut Core, d: usize, shifted: Shifted)
    ensures { core.new ≡ with_carry (with_nz (written core.old d shifted.value) shifted.value) shifted.carry }
{
    core.write_wide(d, shifted.value);
    core.set_nz(shifted.value);
    core.set_carry(shifted.carry);
}

/// Writes a sum to a register, and sets N, Z, C and V.
#[inline(always)]
fn put_sum(core: &mut Core, d: usize, sum: Sum)
    ensures { core.new ≡ with_nzcv (written core.old d sum.value) sum }
{
    core.write_wide(d, sum.value);
    core.set_nzcv(sum);
}

/// LSL (immediate).
#[inline(always)]
fn lsls_immediate(core: &mut Core, pc: u32, half: u16) -> Quick
    ensures { Goes (alu core.old (sum pc 2) (Alu.LslsImmediate (bits 2 0 half) (bits 5 3 half) (bits 10 6 half))) core.new result }
{
    let shifted = shift_left(core.read_wide(middle(half)), u32::from(five(half)), core.c);
    put_shift(core, low(half), shifted);
    let next = pc.wrapping_add(2);
    Quick::Went { pc: next }
}

/// LSR (immediate).
#[inline(always)]
fn lsrs_immediate(core: &mut Core, pc: u32, half: u16) -> Quick
    ensures { Goes (alu core.old (sum pc 2) (Alu.LsrsImmediate (bits 2 0 half) (bits 5 3 half) (bits 10 6 half))) core.new result }
{
    let shifted = right_by(core.read_wide(middle(half)), five(half));
    put_shift(core, low(half), shifted);
    let next = pc.wrapping_add(2);
    Quick::Went { pc: next }
}

/// ASR (immediate).
#[inline(always)]
fn asrs_immediate(core: &mut Core, pc: u32, half: u16) -> Quick
    ensures { Goes (alu core.old (sum pc 2) (Alu.AsrsImmediate (bits 2 0 half) (bits 5 3 half) (bits 10 6 half))) core.new result }
{
    let shifted = shift_right_signed(core.read_wide(middle(half)), amount(five(half)), core.c);
    put_shift(core, low(half), shifted);
    let next = pc.wrapping_add(2);
    Quick::Went { pc: next }
}

/// ADD of two low registers.
#[inline(always)]
fn adds_register(core: &mut Core, pc: u32, half: u16) -> Quick
    ensures { Goes (alu core.old (sum pc 2) (Alu.AddsRegister (bits 2 0 half) (bits 5 3 half) (bits 8 6 half))) core.new result }
{
    let sum = add(core.read_wide(middle(half)), core.read_wide(upper(half)));
    put_sum(core, low(half), sum);
    let next = pc.wrapping_add(2);
    Quick::Went { pc: next }
}

/// SUB of two low registers.
#[inline(always)]
fn subs_register(core: &mut Core, pc: u32, half: u16) -> Quick
    ensures { Goes (alu core.old (sum pc 2) (Alu.SubsRegister (bits 2 0 half) (bits 5 3 half) (bits 8 6 half))) core.new result }
{
    let sum = difference(core.read_wide(middle(half)), core.read_wide(upper(half)));
    put_sum(core, low(half), sum);
    let next = pc.wrapping_add(2);
    Quick::Went { pc: next }
}

/// ADD of an immediate of three bits.
#[inline(always)]
fn adds_immediate3(core: &mut Core, pc: u32, half: u16) -> Quick
    ensures { Goes (alu core.old (sum pc 2) (Alu.AddsImmediate3 (bits 2 0 half) (bits 5 3 half) (bits 8 6 half))) core.new result }
{
    let sum = add(core.read_wide(middle(half)), u32::from(three(half)));
    put_sum(core, low(half), sum);
    let next = pc.wrapping_add(2);
    Quick::Went { pc: next }
}

/// SUB of an immediate of three bits.
#[inline(always)]
fn subs_immediate3(core: &mut Core, pc: u32, half: u16) -> Quick
    ensures { Goes (alu core.old (sum pc 2) (Alu.SubsImmediate3 (bits 2 0 half) (bits 5 3 half) (bits 8 6 half))) core.new result }
{
    let sum = subtract(core.read_wide(middle(half)), u32::from(three(half)));
    put_sum(core, low(half), sum);
    let next = pc.wrapping_add(2);
    Quick::Went { pc: next }
}

/// MOV of an immediate.
#[inline(always)]
fn movs_immediate(core: &mut Core, pc: u32, half: u16) -> Quick
    ensures { Goes (alu core.old (sum pc 2) (Alu.MovsImmediate (bits 10 8 half) (bits 7 0 half))) core.new result }
{
    put_value(core, top(half), u32::from(byte(half)));
    let next = pc.wrapping_add(2);
    Quick::Went { pc: next }
}

/// CMP with an immediate.
#[inline(always)]
fn cmp_immediate(core: &mut Core, pc: u32, half: u16) -> Quick
    ensures { Goes (alu core.old (sum pc 2) (Alu.CmpImmediate (bits 10 8 half) (bits 7 0 half))) core.new result }
{
    core.set_nzcv(subtract(core.read_wide(top(half)), u32::from(byte(half))));
    let next = pc.wrapping_add(2);
    Quick::Went { pc: next }
}

/// ADD of an immediate of eight bits.
#[inline(always)]
fn adds_immediate(core: &mut Core, pc: u32, half: u16) -> Quick
    ensures { Goes (alu core.old (sum pc 2) (Alu.AddsImmediate8 (bits 10 8 half) (bits 7 0 half))) core.new result }
{
    let d = top(half);
    let sum = add(core.read_wide(d), u32::from(byte(half)));
    put_sum(core, d, sum);
    let next = pc.wrapping_add(2);
    Quick::Went { pc: next }
}

/// SUB of an immediate of eight bits.
#[inline(always)]
fn subs_immediate(core: &mut Core, pc: u32, half: u16) -> Quick
    ensures { Goes (alu core.old (sum pc 2) (Alu.SubsImmediate8 (bits 10 8 half) (bits 7 0 half))) core.new result }
{
    let d = top(half);
    let sum = subtract(core.read_wide(d), u32::from(byte(half)));
    put_sum(core, d, sum);
    let next = pc.wrapping_add(2);
    Quick::Went { pc: next }
}

/// Bitwise AND.
#[inline(always)]
fn ands(core: &mut Core, pc: u32, half: u16) -> Quick
    ensures { Goes (alu core.old (sum pc 2) (Alu.Ands (bits 2 0 half) (bits 5 3 half))) core.new result }
{
    let d = low(half);
    put_value(core, d, core.read_wide(d) & core.read_wide(middle(half)));
    let next = pc.wrapping_add(2);
    Quick::Went { pc: next }
}

/// EOR.
#[inline(always)]
fn eors(core: &mut Core, pc: u32, half: u16) -> Quick
    ensures { Goes (alu core.old (sum pc 2) (Alu.Eors (bits 2 0 half) (bits 5 3 half))) core.new result }
{
    let d = low(half);
    put_value(core, d, core.read_wide(d) ^ core.read_wide(middle(half)));
    let next = pc.wrapping_add(2);
    Quick::Went { pc: next }
}

/// ADC.
#[inline(always)]
fn adcs(core: &mut Core, pc: u32, half: u16) -> Quick
    ensures { Goes (alu core.old (sum pc 2) (Alu.Adcs (bits 2 0 half) (bits 5 3 half))) core.new result }
{
    let d = low(half);
    let sum = add_carry(core.read_wide(d), core.read_wide(middle(half)), core.c);
    put_sum(core, d, sum);
    let next = pc.wrapping_add(2);
    Quick::Went { pc: next }
}

/// ROR.
#[inline(always)]
fn rors(core: &mut Core, pc: u32, half: u16) -> Quick
    ensures { Goes (alu core.old (sum pc 2) (Alu.Rors (bits 2 0 half) (bits 5 3 half))) core.new result }
{
    let d = low(half);
    let shifted = rotate_right(
        core.read_wide(d),
        core.read_wide(middle(half)) % 0x100,
        core.c,
    );
    put_shift(core, d, shifted);
    let next = pc.wrapping_add(2);
    Quick::Went { pc: next }
}

/// TST.
#[inline(always)]
fn tst(core: &mut Core, pc: u32, half: u16) -> Quick
    ensures { Goes (alu core.old (sum pc 2) (Alu.Tst (bits 2 0 half) (bits 5 3 half))) core.new result }
{
    core.set_nz(core.read_wide(low(half)) & core.read_wide(middle(half)));
    let next = pc.wrapping_add(2);
    Quick::Went { pc: next }
}

/// RSB.
#[inline(always)]
fn rsbs(core: &mut Core, pc: u32, half: u16) -> Quick
    ensures { Goes (alu core.old (sum pc 2) (Alu.Rsbs (bits 2 0 half) (bits 5 3 half))) core.new result }
{
    let sum = subtract(0, core.read_wide(middle(half)));
    put_sum(core, low(half), sum);
    let next = pc.wrapping_add(2);
    Quick::Went { pc: next }
}

/// CMP of two low registers.
#[inline(always)]
fn cmp_register(core: &mut Core, pc: u32, half: u16) -> Quick
    ensures { Goes (alu core.old (sum pc 2) (Alu.CmpRegister (bits 2 0 half) (bits 5 3 half))) core.new result }
{
    core.set_nzcv(difference(core.read_wide(low(half)), core.read_wide(middle(half))));
    let next = pc.wrapping_add(2);
    Quick::Went { pc: next }
}

/// ORR.
#[inline(always)]
fn orrs(core: &mut Core, pc: u32, half: u16) -> Quick
    ensures { Goes (alu core.old (sum pc 2) (Alu.Orrs (bits 2 0 half) (bits 5 3 half))) core.new result }
{
    let d = low(half);
    put_value(core, d, core.read_wide(d) | core.read_wide(middle(half)));
    let next = pc.wrapping_add(2);
    Quick::Went { pc: next }
}

/// MUL.
#[inline(always)]
fn muls(core: &mut Core, pc: u32, half: u16) -> Quick
    ensures { Goes (alu core.old (sum pc 2) (Alu.Muls (bits 2 0 half) (bits 5 3 half))) core.new result }
{
    let d = low(half);
    let value = core.read_wide(d).wrapping_mul(core.read_wide(middle(half)));
    put_value(core, d, value);
    let next = pc.wrapping_add(2);
    Quick::Went { pc: next }
}

/// MOV of any two registers. MOV to the PC is a branch.
#[inline(always)]
fn mov_high(core: &mut Core, pc: u32, half: u16) -> Quick
    ensures { Goes (alu core.old (sum pc 2) (Alu.MovHigh (high_register half) (bits 6 3 half))) core.new result }
{
    let value = core.read_wide(any_middle(half));
    let d = any_low(half);
    if d == PC as usize {
        let to = value / 2 * 2;
        return Quick::Went { pc: to };
    }
    core.write_wide(d, value);
    let next = pc.wrapping_add(2);
    Quick::Went { pc: next }
}

/// Stores a register as a word at an address.
#[inline(always)]
#[tactic(auto, using(crate::proofs::RunLemmas::asks), unfolding(crate::specs::MemoryRows::store_word))]
fn word_from<B: Bus>(core: &Core, bus: &mut B, pc: u32, t: usize, at: u32) -> Quick
    ensures { Steps B.acts (store_word core.now (sum pc 2) t at) core.now bus.old result core.now bus.new }
{
    match word_to(bus, at, core.read_wide(t)) {
        Ok(()) => {
            let next = pc.wrapping_add(2);
            Quick::Went { pc: next }
        }
        Err(stop) => stopped(stop),
    }
}

/// Stores the low halfword of a register at an address.
#[inline(always)]
#[tactic(auto, using(crate::proofs::RunLemmas::asks), unfolding(crate::specs::MemoryRows::store_half))]
fn half_from<B: Bus>(core: &Core, bus: &mut B, pc: u32, t: usize, at: u32) -> Quick
    ensures { Steps B.acts (store_half core.now (sum pc 2) t at) core.now bus.old result core.now bus.new }
{
    match half_to(bus, at, core.read_wide(t) % 0x1_0000) {
        Ok(()) => {
            let next = pc.wrapping_add(2);
            Quick::Went { pc: next }
        }
        Err(stop) => stopped(stop),
    }
}

/// Stores the low byte of a register at an address.
#[inline(always)]
#[tactic(auto, using(crate::proofs::RunLemmas::asks), unfolding(crate::specs::MemoryRows::store_byte))]
fn byte_from<B: Bus>(core: &Core, bus: &mut B, pc: u32, t: usize, at: u32) -> Quick
    ensures { Steps B.acts (store_byte core.now (sum pc 2) t at) core.now bus.old result core.now bus.new }
{
    match byte_to(bus, at, core.read_wide(t) % 0x100) {
        Ok(()) => {
            let next = pc.wrapping_add(2);
            Quick::Went { pc: next }
        }
        Err(stop) => stopped(stop),
    }
}

/// LDR of a literal.
#[inline(always)]
fn ldr_literal<B: Bus>(core: &mut Core, bus: &mut B, pc: u32, half: u16) -> Quick
    requires { pc ≡ pc_of core.old }
    ensures { Steps B.acts (memory core.old (sum pc 2) (Memory.LdrLiteral (bits 10 8 half) (bits 7 0 half))) core.old bus.old result core.new bus.new }
{
    let at = literal(pc, byte(half));
    word_into(core, bus, pc, top(half), at)
}

/// LDR at a register and an immediate.
#[inline(always)]
fn ldr_immediate<B: Bus>(core: &mut Core, bus: &mut B, pc: u32, half: u16) -> Quick
    ensures { Steps B.acts (memory core.old (sum pc 2) (Memory.LdrImmediate (bits 2 0 half) (bits 5 3 half) (bits 10 6 half))) core.old bus.old result core.new bus.new }
{
    let at = at_register(core, middle(half), words(five(half)));
    word_into(core, bus, pc, low(half), at)
}

/// LDRB at a register and an immediate.
#[inline(always)]
fn ldrb_immediate<B: Bus>(core: &mut Core, bus: &mut B, pc: u32, half: u16) -> Quick
    ensures { Steps B.acts (memory core.old (sum pc 2) (Memory.LdrbImmediate (bits 2 0 half) (bits 5 3 half) (bits 10 6 half))) core.old bus.old result core.new bus.new }
{
    let at = at_register(core, middle(half), bytes(five(half)));
    byte_into(core, bus, pc, low(half), at)
}

/// LDRH at a register and an immediate.
#[inline(always)]
fn ldrh_immediate<B: Bus>(core: &mut Core, bus: &mut B, pc: u32, half: u16) -> Quick
    ensures { Steps B.acts (memory core.old (sum pc 2) (Memory.LdrhImmediate (bits 2 0 half) (bits 5 3 half) (bits 10 6 half))) core.old bus.old result core.new bus.new }
{
    let at = at_register(core, middle(half), halves(five(half)));
    half_into(core, bus, pc, low(half), at)
}

/// The address that is the sum of two low registers.
#[inline(always)]
fn at_registers(core: &Core, half: u16) -> u32
    ensures { result ≡ sum (reg core.now (bits 5 3 half)) (reg core.now (bits 8 6 half)) }
{
    at_register(core, middle(half), core.read_wide(upper(half)))
}

/// STR at two registers.
#[inline(always)]
fn str_register<B: Bus>(core: &Core, bus: &mut B, pc: u32, half: u16) -> Quick
    ensures { Steps B.acts (memory core.now (sum pc 2) (Memory.StrRegister (bits 2 0 half) (bits 5 3 half) (bits 8 6 half))) core.now bus.old result core.now bus.new }
{
    let at = at_registers(core, half);
    word_from(core, bus, pc, low(half), at)
}

/// LDR at two registers.
#[inline(always)]
fn ldr_register<B: Bus>(core: &mut Core, bus: &mut B, pc: u32, half: u16) -> Quick
    ensures { Steps B.acts (memory core.old (sum pc 2) (Memory.LdrRegister (bits 2 0 half) (bits 5 3 half) (bits 8 6 half))) core.old bus.old result core.new bus.new }
{
    let at = at_registers(core, half);
    word_into(core, bus, pc, low(half), at)
}

/// STR at a register and an immediate.
#[inline(always)]
fn str_immediate<B: Bus>(core: &Core, bus: &mut B, pc: u32, half: u16) -> Quick
    ensures { Steps B.acts (memory core.now (sum pc 2) (Memory.StrImmediate (bits 2 0 half) (bits 5 3 half) (bits 10 6 half))) core.now bus.old result core.now bus.new }
{
    let at = at_register(core, middle(half), words(five(half)));
    word_from(core, bus, pc, low(half), at)
}

/// STRB at a register and an immediate.
#[inline(always)]
fn strb_immediate<B: Bus>(core: &Core, bus: &mut B, pc: u32, half: u16) -> Quick
    ensures { Steps B.acts (memory core.now (sum pc 2) (Memory.StrbImmediate (bits 2 0 half) (bits 5 3 half) (bits 10 6 half))) core.now bus.old result core.now bus.new }
{
    let at = at_register(core, middle(half), bytes(five(half)));
    byte_from(core, bus, pc, low(half), at)
}

/// STRH at a register and an immediate.
#[inline(always)]
fn strh_immediate<B: Bus>(core: &Core, bus: &mut B, pc: u32, half: u16) -> Quick
    ensures { Steps B.acts (memory core.now (sum pc 2) (Memory.StrhImmediate (bits 2 0 half) (bits 5 3 half) (bits 10 6 half))) core.now bus.old result core.now bus.new }
{
    let at = at_register(core, middle(half), halves(five(half)));
    half_from(core, bus, pc, low(half), at)
}

/// The address that is the sum of SP and an immediate.
#[inline(always)]
fn at_sp(core: &Core, half: u16) -> u32
    ensures { result ≡ sum (reg core.now SP) (4 * bits 7 0 half) }
{
    at_offset(core, SP, words(byte(half)))
}

/// STR at SP and an immediate.
#[inline(always)]
fn str_sp<B: Bus>(core: &Core, bus: &mut B, pc: u32, half: u16) -> Quick
    ensures { Steps B.acts (memory core.now (sum pc 2) (Memory.StrSp (bits 10 8 half) (bits 7 0 half))) core.now bus.old result core.now bus.new }
{
    let at = at_sp(core, half);
    word_from(core, bus, pc, top(half), at)
}

/// LDR at SP and an immediate.
#[inline(always)]
fn ldr_sp<B: Bus>(core: &mut Core, bus: &mut B, pc: u32, half: u16) -> Quick
    ensures { Steps B.acts (memory core.old (sum pc 2) (Memory.LdrSp (bits 10 8 half) (bits 7 0 half))) core.old bus.old result core.new bus.new }
{
    let at = at_sp(core, half);
    word_into(core, bus, pc, top(half), at)
}

/// ADD of SP and an immediate.
#[inline(always)]
fn add_from_sp(core: &mut Core, pc: u32, half: u16) -> Quick
    ensures { Goes (other core.old (sum pc 2) (Other.AddFromSp (bits 10 8 half) (bits 7 0 half))) core.new result }
{
    let at = at_sp(core, half);
    core.write_wide(top(half), at);
    let next = pc.wrapping_add(2);
    Quick::Went { pc: next }
}

/// REV.
#[inline(always)]
fn reverse(core: &mut Core, pc: u32, half: u16) -> Quick
    ensures { Goes (other core.old (sum pc 2) (Other.Rev (bits 2 0 half) (bits 5 3 half))) core.new result }
{
    let value = core.read_wide(middle(half)).swap_bytes();
    core.write_wide(low(half), value);
    let next = pc.wrapping_add(2);
    Quick::Went { pc: next }
}

/// PUSH.
#[inline(always)]
fn push_list<B: Bus>(core: &mut Core, bus: &mut B, pc: u32, half: u16) -> Quick
    ensures { Steps B.acts (many core.old (sum pc 2) (Many.Push (is_bit_set half 8) (bits 7 0 half))) core.old bus.old result core.new bus.new }
{
    let is_long = (half >> 8) % 2 == 1;
    let made = push(core, bus, pc.wrapping_add(2), is_long, byte(half));
    let end = step_end(made);
    Quick::Done { end }
}

/// POP.
#[inline(always)]
fn pop_list<B: Bus>(core: &mut Core, bus: &mut B, pc: u32, half: u16) -> Quick
    ensures { Steps B.acts (many core.old (sum pc 2) (Many.Pop (is_bit_set half 8) (bits 7 0 half))) core.old bus.old result core.new bus.new }
{
    let is_long = (half >> 8) % 2 == 1;
    let made = pop(core, bus, pc.wrapping_add(2), is_long, byte(half));
    let end = step_end(made);
    Quick::Done { end }
}

/// The target of a branch with a condition, or the next instruction if the condition doesn't hold.
#[inline(always)]
fn branch_where(taken: bool, pc: u32, half: u16) -> u32
    ensures { result ≡ (if taken then branch_target 8 pc (bits 7 0 half) else sum pc 2) }
{
    if taken {
        short(pc, byte(half))
    } else {
        pc.wrapping_add(2)
    }
}

/// B if Z is set.
#[inline(always)]
fn branch_equal(core: &Core, pc: u32, half: u16) -> Quick
    requires { pc ≡ pc_of core.now }
    ensures { Goes (branch core.now (sum pc 2) (Branch.Bcc Condition.Equal (bits 7 0 half))) core.now result }
{
    let to = branch_where(core.z, pc, half);
    Quick::Went { pc: to }
}

/// B if Z is clear.
#[inline(always)]
fn branch_not_equal(core: &Core, pc: u32, half: u16) -> Quick
    requires { pc ≡ pc_of core.now }
    ensures { Goes (branch core.now (sum pc 2) (Branch.Bcc Condition.NotEqual (bits 7 0 half))) core.now result }
{
    let to = branch_where(!core.z, pc, half);
    Quick::Went { pc: to }
}

/// B if C is set.
#[inline(always)]
fn branch_carry_set(core: &Core, pc: u32, half: u16) -> Quick
    requires { pc ≡ pc_of core.now }
    ensures { Goes (branch core.now (sum pc 2) (Branch.Bcc Condition.CarrySet (bits 7 0 half))) core.now result }
{
    let to = branch_where(core.c, pc, half);
    Quick::Went { pc: to }
}

/// B if C is clear.
#[inline(always)]
fn branch_carry_clear(core: &Core, pc: u32, half: u16) -> Quick
    requires { pc ≡ pc_of core.now }
    ensures { Goes (branch core.now (sum pc 2) (Branch.Bcc Condition.CarryClear (bits 7 0 half))) core.now result }
{
    let to = branch_where(!core.c, pc, half);
    Quick::Went { pc: to }
}

/// B if C is set and Z is clear.
#[inline(always)]
fn branch_higher(core: &Core, pc: u32, half: u16) -> Quick
    requires { pc ≡ pc_of core.now }
    ensures { Goes (branch core.now (sum pc 2) (Branch.Bcc Condition.Higher (bits 7 0 half))) core.now result }
{
    let to = branch_where(core.c && !core.z, pc, half);
    Quick::Went { pc: to }
}

/// B.
#[inline(always)]
fn branch_always(core: &Core, pc: u32, half: u16) -> Quick
    requires { pc ≡ pc_of core.now }
    ensures { Goes (branch core.now (sum pc 2) (Branch.B (bits 10 0 half))) core.now result }
{
    let to = near(pc, half % 2048);
    Quick::Went { pc: to }
}

/// BX to a Thumb address.
#[inline(always)]
fn exchange<B: Bus>(core: &Core, bus: &B, pc: u32, half: u16) -> Quick
    requires pc { pc ≡ pc_of core.now }
    requires row { half % 8 ≡ 0 → decoded half ≡ Decoded.Op (Instr.Branch (Branch.Bx (bits 6 3 half))) }
    ensures { Steps B.acts (of_halfword core.now half (decoded half)) core.now bus.now result core.now bus.now }
{
    let target = core.read_wide(any_middle(half));
    if half % 8 != 0 || target % 2 != 1 {
        return Quick::Left;
    }
    let to = target - 1;
    Quick::Went { pc: to }
}

/// BL, if the bus has its second halfword at hand.
#[inline(always)]
fn call<B: Bus>(core: &mut Core, bus: &B, pc: u32, half: u16) -> Quick
    requires pc { pc ≡ pc_of core.old }
    requires pair { decoded half ≡ Decoded.NeedsSecond }
    ensures { Steps B.acts (of_halfword core.old half (decoded half)) core.old bus.now result core.new bus.now }
{
    let Some(second) = peek16(bus, pc.wrapping_add(2)) else {
        return Quick::Left;
    };
    match decode32(half, second as u16) {
        Some(Instr::Branch(Branch::Bl { immediate })) => {
            core.write(LR, pc.wrapping_add(4).wrapping_add(1));
            let to = far(pc, immediate);
            Quick::Went { pc: to }
        }
        _ => Quick::Left,
    }
}

/// Executes the instruction that begins with a halfword at the PC, by its arm.
#[inline(always)]
fn arm<B: Bus>(core: &mut Core, bus: &mut B, pc: u32, half: u16) -> Quick
    requires { pc ≡ pc_of core.old }
    ensures { Steps B.acts (of_halfword core.old half (decoded half)) core.old bus.old result core.new bus.new }
{
    match arm_of(half) {
        Arm::LslsImmediate => lsls_immediate(core, pc, half),
        Arm::LsrsImmediate => lsrs_immediate(core, pc, half),
        Arm::AsrsImmediate => asrs_immediate(core, pc, half),
        Arm::AddsRegister => adds_register(core, pc, half),
        Arm::SubsRegister => subs_register(core, pc, half),
        Arm::AddsImmediate3 => adds_immediate3(core, pc, half),
        Arm::SubsImmediate3 => subs_immediate3(core, pc, half),
        Arm::MovsImmediate => movs_immediate(core, pc, half),
        Arm::CmpImmediate => cmp_immediate(core, pc, half),
        Arm::AddsImmediate => adds_immediate(core, pc, half),
        Arm::SubsImmediate => subs_immediate(core, pc, half),
        Arm::Ands => ands(core, pc, half),
        Arm::Eors => eors(core, pc, half),
        Arm::Adcs => adcs(core, pc, half),
        Arm::Rors => rors(core, pc, half),
        Arm::Tst => tst(core, pc, half),
        Arm::Rsbs => rsbs(core, pc, half),
        Arm::CmpRegister => cmp_register(core, pc, half),
        Arm::Orrs => orrs(core, pc, half),
        Arm::Muls => muls(core, pc, half),
        Arm::MovHigh => mov_high(core, pc, half),
        Arm::Exchange => exchange(core, bus, pc, half),
        Arm::LdrLiteral => ldr_literal(core, bus, pc, half),
        Arm::StrRegister => str_register(core, bus, pc, half),
        Arm::LdrRegister => ldr_register(core, bus, pc, half),
        Arm::StrImmediate => str_immediate(core, bus, pc, half),
        Arm::LdrImmediate => ldr_immediate(core, bus, pc, half),
        Arm::StrbImmediate => strb_immediate(core, bus, pc, half),
        Arm::LdrbImmediate => ldrb_immediate(core, bus, pc, half),
        Arm::StrhImmediate => strh_immediate(core, bus, pc, half),
        Arm::LdrhImmediate => ldrh_immediate(core, bus, pc, half),
        Arm::StrSp => str_sp(core, bus, pc, half),
        Arm::LdrSp => ldr_sp(core, bus, pc, half),
        Arm::AddFromSp => add_from_sp(core, pc, half),
        Arm::Push => push_list(core, bus, pc, half),
        Arm::Reverse => reverse(core, pc, half),
        Arm::Pop => pop_list(core, bus, pc, half),
        Arm::BranchEqual => branch_equal(core, pc, half),
        Arm::BranchNotEqual => branch_not_equal(core, pc, half),
        Arm::BranchCarrySet => branch_carry_set(core, pc, half),
        Arm::BranchCarryClear => branch_carry_clear(core, pc, half),
        Arm::BranchHigher => branch_higher(core, pc, half),
        Arm::Branch => branch_always(core, pc, half),
        Arm::Call => call(core, bus, pc, half),
        Arm::Other => Quick::Left,
    }
}

/// Executes the instruction at the PC, if it has an arm.
#[inline(always)]
#[tactic(auto, using(crate::proofs::RunLemmas::asks), unfolding(crate::specs::Step::instruction))]
fn quick_step<B: Bus>(core: &mut Core, bus: &mut B, pc: u32) -> Quick
    requires { pc ≡ pc_of core.old }
    ensures { Steps B.acts (instruction core.old) core.old bus.old result core.new bus.new }
{
    match fetch16(bus, pc) {
        Some(half) => arm(core, bus, pc, half as u16),
        None => Quick::Left,
    }
}

/// Makes one step by `step`, out of line.
#[inline(never)]
fn step_out<B: Bus>(core: &mut Core, bus: &mut B) -> StepEnd
    ensures runs { Runs B.acts (instruction core.old) core.old bus.old result core.new bus.new }
    ensures cause { IsCounted (B.faults bus.old) (B.faults bus.new) (is_device_end result) }
{
    step(core, bus)
}

/// An address, as the PC of a core that need not hold it. The read shows that the core has a PC register.
#[inline(always)]
#[tactic(auto, unfolding(crate::specs::Registers::moved))]
fn at_hand(core: &Core, pc: u32) -> u32
    ensures same { result ≡ pc }
    ensures reads { Reads core.now pc }
{
    let _last = core.regs[PC as usize];
    pc
}

/// Executes the instruction at an address as `step` executes the one at the PC. The caller keeps the PC: the core need not hold it before
/// or after.
#[inline(always)]
pub fn step_at<B: Bus>(core: &mut Core, bus: &mut B, pc: &mut u32) -> StepEnd
    requires { Reads core.old pc.old }
    ensures runs { Runs B.acts (instruction (moved core.old pc.old)) (moved core.old pc.old) bus.old result (moved core.new pc.new) bus.new }
    ensures pc { Reads core.new pc.new }
    ensures cause { IsCounted (B.faults bus.old) (B.faults bus.new) (is_device_end result) }
{
    core.go_to(*pc);
    match quick_step(core, bus, *pc) {
        Quick::Went { pc: to } => {
            *pc = at_hand(core, to);
            StepEnd::Went
        }
        Quick::Done { end } => {
            *pc = at_hand(core, core.pc());
            end
        }
        Quick::Left => {
            let end = step_out(core, bus);
            *pc = at_hand(core, core.pc());
            end
        }
    }
}
