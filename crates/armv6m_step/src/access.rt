//! Loads and stores at any address. If it isn't a multiple of the width, the instruction ends and the bus isn't asked.
#![tactic(auto, using(std::proofs::lemmas::Bool::Decides::nat_tests), unfolding(crate::specs::Meaning::LoadGives, crate::specs::Meaning::StoreGives))]

ghost use Rattle.std.specs.Prelude.{◌≡◌, ◌<◌, ◌%◌, ◌^◌, Ok, IfOk, IfSome};
ghost use Rattle.armv6m_step.specs.Ends.{stop_end, bus_end_at};
ghost use Rattle.armv6m_step.specs.Meaning.{LoadGives, StoreGives};

use crate::{Bus, Stop};
use bench_model::BusEnd;

#[inline(always)]
fn stop_at(at: u32, end: BusEnd) -> Stop
    ensures { stop_end result ≡ bus_end_at at end }
{
    match end {
        BusEnd::Fault => Stop::BusFault { at },
        BusEnd::Device => Stop::Device,
    }
}

/// Loads a byte, out of line.
#[inline(never)]
fn load8<B: Bus>(bus: &mut B, at: u32) -> Result<u32, Stop>
    ensures gives { LoadGives B.acts 1 at bus.old result bus.new }
    ensures fits { IfOk result (λ v. v < 2 ^ 8) }
{
    match bus.load8(at) {
        Ok(value) => Ok(value),
        Err(end) => Err(stop_at(at, end)),
    }
}

/// Loads a halfword, out of line.
#[inline(never)]
fn load16<B: Bus>(bus: &mut B, at: u32) -> Result<u32, Stop>
    ensures gives { LoadGives B.acts 2 at bus.old result bus.new }
    ensures fits { IfOk result (λ v. v < 2 ^ 16) }
{
    if at % 2 != 0 {
        return Err(Stop::Unaligned { at });
    }
    match bus.load16(at) {
        Ok(value) => Ok(value),
        Err(end) => Err(stop_at(at, end)),
    }
}

/// Loads a word, out of line.
#[inline(never)]
fn load32<B: Bus>(bus: &mut B, at: u32) -> Result<u32, Stop>
    ensures { LoadGives B.acts 4 at bus.old result bus.new }
{
    if at % 4 != 0 {
        return Err(Stop::Unaligned { at });
    }
    match bus.load32(at) {
        Ok(value) => Ok(value),
        Err(end) => Err(stop_at(at, end)),
    }
}

/// Stores a byte, out of line.
#[inline(never)]
fn store8<B: Bus>(bus: &mut B, at: u32, value: u32) -> Result<(), Stop>
    requires { value < 2 ^ 8 }
    ensures { StoreGives B.acts 1 at value bus.old result bus.new }
{
    match bus.store8(at, value) {
        Ok(()) => Ok(()),
        Err(end) => Err(stop_at(at, end)),
    }
}

/// Stores a halfword, out of line.
#[inline(never)]
fn store16<B: Bus>(bus: &mut B, at: u32, value: u32) -> Result<(), Stop>
    requires { value < 2 ^ 16 }
    ensures { StoreGives B.acts 2 at value bus.old result bus.new }
{
    if at % 2 != 0 {
        return Err(Stop::Unaligned { at });
    }
    match bus.store16(at, value) {
        Ok(()) => Ok(()),
        Err(end) => Err(stop_at(at, end)),
    }
}

/// Stores a word, out of line.
#[inline(never)]
fn store32<B: Bus>(bus: &mut B, at: u32, value: u32) -> Result<(), Stop>
    ensures { StoreGives B.acts 4 at value bus.old result bus.new }
{
    if at % 4 != 0 {
        return Err(Stop::Unaligned { at });
    }
    match bus.store32(at, value) {
        Ok(()) => Ok(()),
        Err(end) => Err(stop_at(at, end)),
    }
}

/// The byte at an address, if the bus has it at hand.
#[inline(always)]
pub(crate) fn peek8<B: Bus>(bus: &B, at: u32) -> Option<u32>
    ensures gives { IfSome result (λ v. LoadGives B.acts 1 at bus.now (Ok v) bus.now) }
    ensures fits { IfSome result (λ v. v < 2 ^ 8) }
{
    bus.peek8(at)
}

/// The word at an address, if the bus has it at hand.
#[inline(always)]
pub(crate) fn peek32<B: Bus>(bus: &B, at: u32) -> Option<u32>
    ensures { IfSome result (λ v. LoadGives B.acts 4 at bus.now (Ok v) bus.now) }
{
    bus.peek32(at)
}

/// The halfword at an address, if the bus has it at hand.
#[inline(always)]
pub(crate) fn peek16<B: Bus>(bus: &B, at: u32) -> Option<u32>
    ensures gives { IfSome result (λ v. LoadGives B.acts 2 at bus.now (Ok v) bus.now) }
    ensures fits { IfSome result (λ v. v < 2 ^ 16) }
{
    bus.peek16(at)
}

/// The first halfword of an instruction, if the bus has it at hand.
#[inline(always)]
pub(crate) fn fetch16<B: Bus>(bus: &B, at: u32) -> Option<u32>
    ensures gives { IfSome result (λ v. LoadGives B.acts 2 at bus.now (Ok v) bus.now) }
    ensures fits { IfSome result (λ v. v < 2 ^ 16) }
{
    bus.fetch16(at)
}

/// Loads a byte by `load8`. It matches the result here, so that the slot for it is cleared only where the call is made.
#[inline(always)]
pub(crate) fn far_load8<B: Bus>(bus: &mut B, at: u32) -> Result<u32, Stop>
    ensures gives { LoadGives B.acts 1 at bus.old result bus.new }
    ensures fits { IfOk result (λ v. v < 2 ^ 8) }
{
    match load8(bus, at) {
        Ok(value) => Ok(value),
        Err(stop) => Err(stop),
    }
}

/// Loads a byte, in line if the bus has it at hand.
#[inline(always)]
pub(crate) fn byte_at<B: Bus>(bus: &mut B, at: u32) -> Result<u32, Stop>
    ensures gives { LoadGives B.acts 1 at bus.old result bus.new }
    ensures fits { IfOk result (λ v. v < 2 ^ 8) }
{
    if let Some(value) = bus.peek8(at) {
        return Ok(value);
    }
    far_load8(bus, at)
}

/// Loads a halfword by `load16`. It matches the result here, so that the slot for it is cleared only where the call is made.
#[inline(always)]
pub(crate) fn far_load16<B: Bus>(bus: &mut B, at: u32) -> Result<u32, Stop>
    ensures gives { LoadGives B.acts 2 at bus.old result bus.new }
    ensures fits { IfOk result (λ v. v < 2 ^ 16) }
{
    match load16(bus, at) {
        Ok(value) => Ok(value),
        Err(stop) => Err(stop),
    }
}

/// Loads a halfword, in line if the bus has it at hand.
#[inline(always)]
pub(crate) fn half_at<B: Bus>(bus: &mut B, at: u32) -> Result<u32, Stop>
    ensures gives { LoadGives B.acts 2 at bus.old result bus.new }
    ensures fits { IfOk result (λ v. v < 2 ^ 16) }
{
    if let Some(value) = bus.peek16(at) {
        return Ok(value);
    }
    far_load16(bus, at)
}

/// Loads a word by `load32`. It matches the result here, so that the slot for it is cleared only where the call is made.
#[inline(always)]
pub(crate) fn far_load32<B: Bus>(bus: &mut B, at: u32) -> Result<u32, Stop>
    ensures { LoadGives B.acts 4 at bus.old result bus.new }
{
    match load32(bus, at) {
        Ok(value) => Ok(value),
        Err(stop) => Err(stop),
    }
}

/// Loads a word, in line if the bus has it at hand.
#[inline(always)]
pub(crate) fn word_at<B: Bus>(bus: &mut B, at: u32) -> Result<u32, Stop>
    ensures { LoadGives B.acts 4 at bus.old result bus.new }
{
    if let Some(value) = bus.peek32(at) {
        return Ok(value);
    }
    far_load32(bus, at)
}

/// Stores a byte by `store8`. It matches the result here, so that the slot for it is cleared only where the call is made.
#[inline(always)]
fn far_store8<B: Bus>(bus: &mut B, at: u32, value: u32) -> Result<(), Stop>
    requires { value < 2 ^ 8 }
    ensures { StoreGives B.acts 1 at value bus.old result bus.new }
{
    match store8(bus, at, value) {
        Ok(()) => Ok(()),
        Err(stop) => Err(stop),
    }
}

/// Stores a byte, in line if the bus has it at hand.
#[inline(always)]
pub(crate) fn byte_to<B: Bus>(bus: &mut B, at: u32, value: u32) -> Result<(), Stop>
    requires { value < 2 ^ 8 }
    ensures { StoreGives B.acts 1 at value bus.old result bus.new }
{
    if bus.poke8(at, value) {
        return Ok(());
    }
    far_store8(bus, at, value)
}

/// Stores a halfword by `store16`. It matches the result here, so that the slot for it is cleared only where the call is made.
#[inline(always)]
fn far_store16<B: Bus>(bus: &mut B, at: u32, value: u32) -> Result<(), Stop>
    requires { value < 2 ^ 16 }
    ensures { StoreGives B.acts 2 at value bus.old result bus.new }
{
    match store16(bus, at, value) {
        Ok(()) => Ok(()),
        Err(stop) => Err(stop),
    }
}

/// Stores a halfword, in line if the bus has it at hand.
#[inline(always)]
pub(crate) fn half_to<B: Bus>(bus: &mut B, at: u32, value: u32) -> Result<(), Stop>
    requires { value < 2 ^ 16 }
    ensures { StoreGives B.acts 2 at value bus.old result bus.new }
{
    if bus.poke16(at, value) {
        return Ok(());
    }
    far_store16(bus, at, value)
}

/// Stores a word by `store32`. It matches the result here, so that the slot for it is cleared only where the call is made.
#[inline(always)]
fn far_store32<B: Bus>(bus: &mut B, at: u32, value: u32) -> Result<(), Stop>
    ensures { StoreGives B.acts 4 at value bus.old result bus.new }
{
    match store32(bus, at, value) {
        Ok(()) => Ok(()),
        Err(stop) => Err(stop),
    }
}

/// Stores a word, in line if the bus has it at hand.
#[inline(always)]
pub(crate) fn word_to<B: Bus>(bus: &mut B, at: u32, value: u32) -> Result<(), Stop>
    ensures { StoreGives B.acts 4 at value bus.old result bus.new }
{
    if bus.poke32(at, value) {
        return Ok(());
    }
    far_store32(bus, at, value)
}
