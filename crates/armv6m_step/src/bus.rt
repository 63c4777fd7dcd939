//! The bus as the core sees it.
ghost use Rattle.std.specs.Prelude.{◌≡◌, ◌<◌, ◌^◌, ◌%◌, ℕ, false, Result, Ok, IfOk, IfSome, IsTrue};
ghost use Rattle.bench_model.specs.declared.bench_fault.BusEnd.{BusEnd};
ghost use Rattle.bench_model.specs.Device.{is_device};
ghost use Rattle.bench_model.specs.Counted.{IsCounted};
ghost use Rattle.armv6m_step.specs.Access.{Access, Load, Store, stored};

use bench_model::BusEnd;

/// What loads and stores go to. Addresses are in bytes, values little-endian.
pub trait Bus {
    /// What an access may do: the bus before it, the access, the answer, and the bus after it.
    ghost acts: { Self → Access → Result ℕ BusEnd → Self → Type 0 };

    /// How often the device on the bus has failed.
    ghost faults: { Self → ℕ };

    /// Loads a byte.
    fn load8(&mut self, at: u32) -> Result<u32, BusEnd>
        ensures acts { acts self.old (Load 1 at) result self.new }
        ensures fits { IfOk result (λ v. v < 2 ^ 8) };

    /// Loads a halfword at an even address.
    fn load16(&mut self, at: u32) -> Result<u32, BusEnd>
        requires { at % 2 ≡ 0 }
        ensures acts { acts self.old (Load 2 at) result self.new }
        ensures fits { IfOk result (λ v. v < 2 ^ 16) };

    /// Loads a word at a multiple of 4.
    fn load32(&mut self, at: u32) -> Result<u32, BusEnd>
        requires { at % 4 ≡ 0 }
        ensures { acts self.old (Load 4 at) result self.new };

    /// Stores a byte.
    fn store8(&mut self, at: u32, value: u32) -> Result<(), BusEnd>
        requires { value < 2 ^ 8 }
        ensures { acts self.old (Store 1 at value) (stored result) self.new };

    /// Stores a halfword at an even address.
    fn store16(&mut self, at: u32, value: u32) -> Result<(), BusEnd>
        requires even { at % 2 ≡ 0 }
        requires fits { value < 2 ^ 16 }
        ensures { acts self.old (Store 2 at value) (stored result) self.new };

    /// Stores a word at a multiple of 4.
    fn store32(&mut self, at: u32, value: u32) -> Result<(), BusEnd>
        requires { at % 4 ≡ 0 }
        ensures { acts self.old (Store 4 at value) (stored result) self.new };

    /// The first halfword of an instruction, if the bus has it at hand. The halfword is as `peek16` gives it.
    fn fetch16(&self, at: u32) -> Option<u32>
        ensures even { IfSome result (λ v. at % 2 ≡ 0) }
        ensures acts { IfSome result (λ v. acts self.now (Load 2 at) (Ok v) self.now) }
        ensures fits { IfSome result (λ v. v < 2 ^ 16) }
    {
        None
    }

    /// The byte at an address, if the bus has it at hand: a load would give it and leave the bus as it is.
    fn peek8(&self, at: u32) -> Option<u32>
        ensures acts { IfSome result (λ v. acts self.now (Load 1 at) (Ok v) self.now) }
        ensures fits { IfSome result (λ v. v < 2 ^ 8) }
    {
        None
    }

    /// The halfword at an even address, if the bus has it at hand.
    fn peek16(&self, at: u32) -> Option<u32>
        ensures even { IfSome result (λ v. at % 2 ≡ 0) }
        ensures acts { IfSome result (λ v. acts self.now (Load 2 at) (Ok v) self.now) }
        ensures fits { IfSome result (λ v. v < 2 ^ 16) }
    {
        None
    }

    /// The word at a multiple of 4, if the bus has it at hand.
    fn peek32(&self, at: u32) -> Option<u32>
        ensures even { IfSome result (λ v. at % 4 ≡ 0) }
        ensures acts { IfSome result (λ v. acts self.now (Load 4 at) (Ok v) self.now) }
    {
        None
    }

    /// Stores a byte if the bus has the address at hand, and answers whether it did. If not, the bus stays as it was.
    fn poke8(&mut self, at: u32, value: u32) -> bool
        requires { value < 2 ^ 8 }
        ensures acts { IsTrue result → acts self.old (Store 1 at value) (Ok 0) self.new }
        ensures kept { result ≡ false → self.new ≡ self.old }
    {
        false
    }

    /// Stores a halfword at an even address if the bus has it at hand, and answers whether it did.
    fn poke16(&mut self, at: u32, value: u32) -> bool
        requires { value < 2 ^ 16 }
        ensures even { IsTrue result → at % 2 ≡ 0 }
        ensures acts { IsTrue result → acts self.old (Store 2 at value) (Ok 0) self.new }
        ensures kept { result ≡ false → self.new ≡ self.old }
    {
        false
    }

    /// Stores a word at a multiple of 4 if the bus has it at hand, and answers whether it did.
    fn poke32(&mut self, at: u32, value: u32) -> bool
        ensures even { IsTrue result → at % 4 ≡ 0 }
        ensures acts { IsTrue result → acts self.old (Store 4 at value) (Ok 0) self.new }
        ensures kept { result ≡ false → self.new ≡ self.old }
    {
        false
    }

    /// The count of device faults rises if an access is answered `Device`, and stays otherwise.
    ghost counted: { (before : Self) (access : Access) (answer : Result ℕ BusEnd) (after : Self) → acts before access answer after
        → IsCounted (faults before) (faults after) (is_device answer) };
}
