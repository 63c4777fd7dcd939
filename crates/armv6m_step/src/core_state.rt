//! The registers and flags, and how instructions read and write them.
ghost use Rattle.std.specs.Prelude.{◌≡◌, ◌%◌, ◌^◌};
ghost use Rattle.armv6m_step.specs.Registers.{pc_of, reg, written, moved, with_nz, with_carry, with_nzcv};

use armv6m_alu::Sum;
use armv6m_decode::registers::{PC, SP};
use armv6m_decode::targets::pc_at;

/// The registers and flags of the core. Register `PC` is the address of the next instruction to run.
#[derive(Clone, Copy, PartialEq, Eq, Debug)]
pub struct Core {
    pub regs: [u32; 16],
    /// The last result was negative.
    pub n: bool,
    /// The last result was zero.
    pub z: bool,
    /// The carry flag.
    pub c: bool,
    /// The overflow flag.
    pub v: bool,
    /// No interrupts are taken. The emulated core has none, so this flag is only kept.
    pub primask: bool,
}

impl Core {
    /// The address of the next instruction to run.
    #[inline(always)]
    pub fn pc(&self) -> u32
        ensures { result ≡ pc_of self.now }
    {
        self.regs[PC as usize]
    }

    /// A register as an operand.
    #[inline(always)]
    #[tactic(auto, unfolding(crate::specs::Registers::reg))]
    pub(crate) fn read(&self, n: u8) -> u32
        ensures { result ≡ reg self.now n }
    {
        let value = self.regs[(n % 16) as usize];
        if n % 16 == PC { pc_at(value) } else { value }
    }

    /// A register as an operand. Its number has the width of a host's address, so no conversion is needed.
    #[inline(always)]
    #[tactic(auto, unfolding(crate::specs::Registers::reg))]
    pub(crate) fn read_wide(&self, n: usize) -> u32
        ensures { result ≡ reg self.now n }
    {
        let value = self.regs[n % 16];
        if n % 16 == PC as usize {
            pc_at(value)
        } else {
            value
        }
    }

    /// Bits 7 to 0 of a register.
    #[inline(always)]
    pub(crate) fn low_byte(&self, n: u8) -> u32
        ensures { result ≡ reg self.now n % 2 ^ 8 }
    {
        self.read(n) % 0x100
    }

    /// Bits 15 to 0 of a register.
    #[inline(always)]
    pub(crate) fn low_half(&self, n: u8) -> u32
        ensures { result ≡ reg self.now n % 2 ^ 16 }
    {
        self.read(n) % 0x1_0000
    }

    #[inline(always)]
    #[tactic(auto, unfolding(crate::specs::Registers::written))]
    pub(crate) fn write_wide(&mut self, n: usize, value: u32)
        ensures { self.new ≡ written self.old n value }
    {
        self.regs[n % 16] = if n % 16 == SP as usize {
            value / 4 * 4
        } else {
            value
        };
    }

    #[inline(always)]
    #[tactic(auto, unfolding(crate::specs::Registers::written))]
    pub(crate) fn write(&mut self, n: u8, value: u32)
        ensures { self.new ≡ written self.old n value }
    {
        self.regs[(n % 16) as usize] = if n % 16 == SP { value / 4 * 4 } else { value };
    }

    /// Sets the address of the next instruction.
    #[inline(always)]
    #[tactic(auto, unfolding(crate::specs::Registers::moved))]
    pub fn go_to(&mut self, pc: u32)
        ensures { self.new ≡ moved self.old pc }
    {
        self.regs[PC as usize] = pc;
    }

    /// Sets N and Z by a result.
    #[inline(always)]
    #[tactic(auto, unfolding(crate::specs::Registers::with_nz))]
    pub(crate) fn set_nz(&mut self, value: u32)
        ensures { self.new ≡ with_nz self.old value }
    {
        self.n = value >= 0x8000_0000;
        self.z = value == 0;
    }

    #[inline(always)]
    #[tactic(auto, unfolding(crate::specs::Registers::with_carry))]
    pub(crate) fn set_carry(&mut self, carry: bool)
        ensures { self.new ≡ with_carry self.old carry }
    {
        self.c = carry;
    }

    /// Sets N, Z, C and V by a sum.
    #[inline(always)]
    #[tactic(auto, unfolding(crate::specs::Registers::with_nzcv))]
    pub(crate) fn set_nzcv(&mut self, sum: Sum)
        ensures { self.new ≡ with_nzcv self.old sum }
    {
        self.set_nz(sum.value);
        self.c = sum.carry;
        self.v = sum.overflow;
    }
}
