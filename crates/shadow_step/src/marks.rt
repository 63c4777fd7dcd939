//! Marks of numbers, and of the registers and flags.
#![tactic(auto, using(std::proofs::lemmas::Bool::Decides::nat_tests))]

ghost use Rattle.std.specs.Prelude.{◌≡◌, ◌<◌};
ghost use Rattle.shadow_step.specs.Marks.{is_known, same_part, known_if, plain, mark_at, operand, put, gone, set_nz, set_carry, set_nzcv};
ghost use Rattle.shadow_step.specs.Rows.{known, both, comparable};
ghost use Rattle.shadow_step.specs.OtherRows.{low_byte, low_half, set_primask, all_flags};

use armv6m_decode::registers::{PC, SP};

/// What other runs have in common with the run at hand, in one of its numbers: a register, or a byte of memory.
#[derive(Clone, Copy, PartialEq, Eq, Debug)]
pub enum Mark {
    /// The number is the same in every run.
    Known,
    /// The number is, in each run, a little-endian number of `width` bytes of that run's page, from place `at` on.
    Page { width: u8, at: u32 },
    /// Nothing is known of the number in other runs.
    Any,
}

/// The marks of the registers, and which flags are the same in every run.
#[derive(Clone, Copy)]
pub struct CoreMarks {
    pub regs: [Mark; 16],
    pub n: bool,
    pub z: bool,
    pub c: bool,
    pub v: bool,
    pub primask: bool,
}

impl Mark {
    /// Whether the number is the same in every run.
    #[inline(always)]
    pub fn is_known(self) -> bool
        ensures { result ≡ is_known self }
    {
        matches!(self, Mark::Known)
    }

    /// The mark Known if `known` is true, or Any.
    #[inline(always)]
    pub fn known_if(known: bool) -> Mark
        ensures { result ≡ known_if known }
    {
        if known { Mark::Known } else { Mark::Any }
    }

    /// The mark of a function of the marked number.
    #[inline(always)]
    pub fn plain(self) -> Mark
        ensures { result ≡ plain self }
    {
        Mark::known_if(self.is_known())
    }

    /// Whether both are the same bytes of the page.
    pub fn is_same_part(self, other: Mark) -> bool
        ensures { result ≡ same_part self other }
    {
        match (self, other) {
            (
                Mark::Page { width, at },
                Mark::Page {
                    width: wide,
                    at: there,
                },
            ) => { width == wide && at == there }
            _ => false,
        }
    }

    /// The mark of the low byte of the number.
    pub fn low_byte(self) -> Mark
        ensures { result ≡ low_byte self }
    {
        match self {
            Mark::Page { width: _, at } => Mark::Page { width: 1, at },
            other => other,
        }
    }

    /// The mark of the low halfword of the number.
    pub fn low_half(self) -> Mark
        ensures { result ≡ low_half self }
    {
        match self {
            Mark::Page { width, at } => {
                if width == 1 {
                    Mark::Page { width: 1, at }
                } else {
                    Mark::Page { width: 2, at }
                }
            }
            other => other,
        }
    }
}

impl CoreMarks {
    /// The mark of a register as an operand.
    #[inline(always)]
    #[tactic(auto, using(std::proofs::lemmas::Bool::Decides::nat_tests), unfolding(crate::specs::Marks::operand))]
    pub fn operand(&self, n: u8) -> Mark
        ensures { result ≡ operand self.now n }
    {
        let mark = self.regs[(n % 16) as usize];
        if n % 16 == PC { mark.plain() } else { mark }
    }

    /// Whether a register is known.
    #[inline(always)]
    pub fn knows(&self, n: u8) -> bool
        ensures { result ≡ known self.now n }
    {
        self.operand(n).is_known()
    }

    /// Whether two registers are known.
    #[inline(always)]
    pub fn knows_both(&self, n: u8, m: u8) -> bool
        ensures { result ≡ both self.now n m }
    {
        self.knows(n) && self.knows(m)
    }

    /// Whether a comparison of two registers has a known result.
    pub fn compares(&self, n: u8, m: u8) -> bool
        ensures { result ≡ comparable self.now n m }
    {
        self.knows_both(n, m) || self.operand(n).is_same_part(self.operand(m))
    }

    /// Whether all flags are known.
    pub fn knows_flags(&self) -> bool
        ensures { result ≡ all_flags self.now }
    {
        self.n && self.z && self.c && self.v
    }

    /// Marks a register after a write.
    #[inline(always)]
    #[tactic(auto, using(std::proofs::lemmas::Bool::Decides::nat_tests), unfolding(crate::specs::Marks::put))]
    pub fn put(&mut self, n: u8, mark: Mark)
        ensures { self.new ≡ put self.old n mark }
    {
        self.regs[(n % 16) as usize] = if n % 16 == SP { mark.plain() } else { mark };
    }

    /// Marks the PC as known.
    #[inline(always)]
    #[tactic(auto, using(std::proofs::lemmas::Bool::Decides::nat_tests), unfolding(crate::specs::Marks::gone))]
    pub fn go(&mut self)
        ensures { self.new ≡ gone self.old }
    {
        self.regs[PC as usize] = Mark::Known;
    }

    /// Marks N and Z.
    #[inline(always)]
    #[tactic(auto, unfolding(crate::specs::Marks::set_nz))]
    pub fn set_nz(&mut self, known: bool)
        ensures { self.new ≡ set_nz self.old known }
    {
        self.n = known;
        self.z = known;
    }

    /// Marks C.
    #[inline(always)]
    #[tactic(auto, unfolding(crate::specs::Marks::set_carry))]
    pub fn set_carry(&mut self, known: bool)
        ensures { self.new ≡ set_carry self.old known }
    {
        self.c = known;
    }

    /// Marks N, Z, C and V.
    #[inline(always)]
    #[tactic(auto, unfolding(crate::specs::Marks::set_nzcv))]
    pub fn set_nzcv(&mut self, known: bool)
        ensures { self.new ≡ set_nzcv self.old known }
    {
        self.n = known;
        self.z = known;
        self.c = known;
        self.v = known;
    }

    /// Marks PRIMASK.
    #[tactic(auto, unfolding(crate::specs::OtherRows::set_primask))]
    pub fn set_primask(&mut self, known: bool)
        ensures { self.new ≡ set_primask self.old known }
    {
        self.primask = known;
    }
}
