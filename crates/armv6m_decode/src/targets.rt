//! The addresses that instructions give by their distance from the PC.

ghost use Rattle.std.specs.Prelude.{◌≡◌, ◌%◌, ◌^◌};
ghost use Rattle.armv6m_decode.specs.Targets.{pc_read, literal_target, signed_offset, branch_target};

use armv6m_alu::sign_extend;

/// The PC as the instruction at this address reads it.
#[inline(always)]
pub fn pc_at(at: u32) -> u32
    ensures { result ≡ pc_read at }
{
    at.wrapping_add(4)
}

/// The target of `LDR` of a literal and of `ADR`, from the aligned PC.
#[inline(always)]
pub fn literal(at: u32, immediate: u8) -> u32
    ensures { result ≡ literal_target at immediate }
{
    (pc_at(at) / 4 * 4).wrapping_add(4 * u32::from(immediate))
}

/// The distance of `B` with a condition from the PC: twice its immediate, read as signed.
#[inline(always)]
#[tactic(auto, using(std::proofs::lemmas::Bool::Decides::nat_tests, std::proofs::lemmas::Int::ints))]
fn short_way(immediate: u8) -> u32
    ensures { result ≡ signed_offset 8 immediate }
{
    let signed = i32::from(immediate.cast_signed()).cast_unsigned();
    signed.wrapping_mul(2)
}

/// The target of `B` with a condition.
#[inline(always)]
pub fn short(at: u32, immediate: u8) -> u32
    ensures { result ≡ branch_target 8 at immediate }
{
    pc_at(at).wrapping_add(short_way(immediate))
}

/// The distance of `B` from the PC.
#[inline(always)]
#[tactic(auto, using(std::proofs::lemmas::Bool::Decides::nat_tests))]
fn near_way(immediate: u16) -> u32
    ensures { result ≡ signed_offset 11 (immediate % 2 ^ 11) }
{
    let signed = ((u32::from(immediate) + 0x400) % 0x800).wrapping_sub(0x400);
    signed.wrapping_mul(2)
}

/// The target of `B`.
#[inline(always)]
pub fn near(at: u32, immediate: u16) -> u32
    ensures { result ≡ branch_target 11 at immediate }
{
    pc_at(at).wrapping_add(near_way(immediate))
}

/// The target of `BL`.
#[inline(always)]
pub fn far(at: u32, immediate: u32) -> u32
    ensures { result ≡ branch_target 24 at immediate }
{
    pc_at(at).wrapping_add(sign_extend(2 * (immediate % 0x100_0000), 25))
}
