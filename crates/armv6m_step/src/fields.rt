//! The fields of a halfword.
#![tactic(auto, using(std::proofs::lemmas::Bool::Decides::nat_tests))]

ghost use Rattle.std.specs.Prelude.{◌≡◌};
ghost use Rattle.armv6m_decode.specs.Rows.{bits};
ghost use Rattle.armv6m_decode.specs.Table.{high_register};

/// The register in bits 2 to 0.
#[inline(always)]
pub(crate) fn low(half: u16) -> usize
    ensures { result ≡ bits 2 0 half }
{
    usize::from(half % 8)
}

/// The register in bits 5 to 3.
#[inline(always)]
pub(crate) fn middle(half: u16) -> usize
    ensures { result ≡ bits 5 3 half }
{
    usize::from((half >> 3) % 8)
}

/// The register in bits 8 to 6.
#[inline(always)]
pub(crate) fn upper(half: u16) -> usize
    ensures { result ≡ bits 8 6 half }
{
    usize::from((half >> 6) % 8)
}

/// The register in bits 10 to 8.
#[inline(always)]
pub(crate) fn top(half: u16) -> usize
    ensures { result ≡ bits 10 8 half }
{
    usize::from((half >> 8) % 8)
}

/// The immediate in bits 7 to 0.
#[inline(always)]
pub(crate) fn byte(half: u16) -> u8
    ensures { result ≡ bits 7 0 half }
{
    (half % 256) as u8
}

/// The immediate in bits 8 to 6.
#[inline(always)]
pub(crate) fn three(half: u16) -> u8
    ensures { result ≡ bits 8 6 half }
{
    ((half >> 6) % 8) as u8
}

/// The register in bits 6 to 3.
#[inline(always)]
pub(crate) fn any_middle(half: u16) -> usize
    ensures { result ≡ bits 6 3 half }
{
    usize::from((half >> 3) % 16)
}

/// The register in bit 7 and bits 2 to 0.
#[inline(always)]
pub(crate) fn any_low(half: u16) -> usize
    ensures { result ≡ high_register half }
{
    usize::from((half >> 7) % 2 * 8 + half % 8)
}

/// The immediate in bits 10 to 6.
#[inline(always)]
pub(crate) fn five(half: u16) -> u8
    ensures { result ≡ bits 10 6 half }
{
    ((half >> 6) % 32) as u8
}
