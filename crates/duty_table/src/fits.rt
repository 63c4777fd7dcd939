//! Whether one state between calls says no more than another: whether it allows every target that the other allows.
ghost use Rattle.std.specs.Prelude.{◌≡◌, ◌<◌, true, length, IsTrue};
ghost use Rattle.duty_table.specs.Alike.{lock_number, AreAlike, FitsAt, SaysNoMore, SaysNoMoreOf, FitsOne, address_in};

use duty_runs::Between;
use flash_controller::State as Fc1State;
use flash_layout::Lock;
use fpec_controller::State as FpecState;
use target_core::AnyRegisters;

/// The number of a lock's state.
fn lock_number(lock: Lock) -> u32
    ensures { result ≡ lock_number lock }
{
    match lock {
        Lock::Locked => 0,
        Lock::FirstKey => 1,
        Lock::Unlocked => 2,
        Lock::Barred => 3,
    }
}

/// Whether two FPECs have equal registers, where the address registers may differ.
#[tactic(auto, using(crate::proofs::AlikeLemmas::fpec_same))]
fn fpec_alike(one: &FpecState, other: &FpecState) -> bool
    ensures { IsTrue result → other.now ≡ record one.now { address = other.now.address } }
{
    lock_number(one.lock) == lock_number(other.lock)
        && one.programs == other.programs
        && one.erases_sector == other.erases_sector
        && one.erases_all == other.erases_all
        && one.program_error == other.program_error
        && one.ended == other.ended
        && one.access_control == other.access_control
}

/// Whether two FC1s have equal registers, where the address registers may differ.
#[tactic(auto, using(crate::proofs::AlikeLemmas::fc1_same))]
fn fc1_alike(one: &Fc1State, other: &Fc1State) -> bool
    ensures { IsTrue result → other.now ≡ record one.now { address = other.now.address } }
{
    lock_number(one.lock) == lock_number(other.lock)
        && one.done == other.done
        && one.sequence == other.sequence
        && one.range == other.range
        && one.not_empty == other.not_empty
        && one.command == other.command
}

/// Whether two controllers are of one kind and have equal registers, where the address registers may differ.
pub(crate) fn are_alike(one: &AnyRegisters, other: &AnyRegisters) -> bool
    ensures { IsTrue result → AreAlike one.now other.now }
{
    match (one, other) {
        (AnyRegisters::Fpec(one), AnyRegisters::Fpec(other)) => fpec_alike(one, other),
        (AnyRegisters::Fc1(one), AnyRegisters::Fc1(other)) => fc1_alike(one, other),
        _ => false,
    }
}

/// The value of a controller's address register.
pub(crate) fn address_in(registers: &AnyRegisters) -> u32
    ensures { result ≡ address_in registers.now }
{
    match registers {
        AnyRegisters::Fpec(state) => state.address,
        AnyRegisters::Fc1(state) => state.address,
    }
}

/// Whether the address register of the first state is known, and equal to the address register of the second.
pub(crate) fn same_address(one: &Between, other: &Between) -> bool
    ensures { IsTrue result → (one.now.address ≡ true) × (address_in one.now.state.registers ≡ address_in other.now.state.registers) }
{
    one.address && address_in(&one.state.registers) == address_in(&other.state.registers)
}

/// Whether the second state allows all registers that the first allows.
#[tactic(auto, using(crate::proofs::AlikeLemmas::no_more_loose, crate::proofs::AlikeLemmas::no_more_exact))]
fn registers_fit(one: &Between, other: &Between) -> bool
    ensures { IsTrue result → SaysNoMoreOf one.now other.now }
{
    if !are_alike(&one.state.registers, &other.state.registers) {
        return false;
    }
    if !other.address {
        return true;
    }
    same_address(one, other)
}

/// Whether the second state doesn't know byte `k`, or both know it and the bytes are equal.
fn byte_fits(one: &Between, other: &Between, k: usize) -> bool
    requires one { k < length one.now.ram.items }
    requires other { k < length other.now.ram.items }
    ensures { IsTrue result → FitsAt one.now other.now k }
{
    !other.known[k] || (one.known[k] && one.ram[k] == other.ram[k])
}

/// Whether the second state allows every target that the first allows.
#[tactic(auto, using(crate::proofs::AlikeLemmas::no_more))]
pub(crate) fn fits(one: &Between, other: &Between) -> bool
    ensures { IsTrue result → SaysNoMore one.now other.now }
{
    if one.ram.len() != other.ram.len() || !registers_fit(one, other) {
        return false;
    }
    for k in 0..one.ram.len() {
        if !byte_fits(one, other, k) {
            return false;
        }
    }
    true
}

/// Whether one of the states allows every target that the state `left` allows.
pub(crate) fn fits_one(left: &Between, states: &[Between]) -> bool
    ensures { IsTrue result → FitsOne left.now states.now }
{
    for state in states {
        if fits(left, state) {
            return true;
        }
    }
    false
}
