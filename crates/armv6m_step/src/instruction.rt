//! One instruction.
ghost use Rattle.std.specs.Prelude.{◌≡◌, ◌⊎◌};
ghost use Rattle.bench_model.specs.Counted.{IsCounted};
ghost use Rattle.armv6m_step.specs.Ends.{end_of, is_device_end};
ghost use Rattle.armv6m_step.specs.Meaning.{Runs};
ghost use Rattle.armv6m_decode.specs.Table.{decoded, decoded_pair};
ghost use Rattle.armv6m_step.specs.Step.{meaning, of_halfword, of_pair, instruction};

use crate::access::half_at;
use crate::data::undefined;
use crate::ends::step_end;
use crate::{Bus, Core, StepEnd, Stop, branch, data, many, memory, other};
use armv6m_decode::{Decoded, Instr, decode16, decode32};

#[tactic(auto, using(crate::proofs::RunLemmas::asks))]
fn execute<B: Bus>(core: &mut Core, bus: &mut B, next: u32, instr: Instr) -> Result<(), Stop>
    ensures { Runs B.acts (meaning core.old next instr) core.old bus.old (end_of result) core.new bus.new }
{
    match instr {
        Instr::Alu(op) => data::run(core, next, op),
        Instr::Memory(op) => memory::run(core, bus, next, op),
        Instr::Many(op) => many::run(core, bus, next, op),
        Instr::Branch(op) => branch::run(core, next, op),
        Instr::Other(op) => other::run(core, next, op),
    }
}

/// Executes the instruction at the PC that consists of these two halfwords, most likely a branch.
#[inline(always)]
#[tactic(auto, using(crate::proofs::RunLemmas::asks))]
fn pair<B: Bus>(core: &mut Core, bus: &mut B, half: u16, second: u16) -> Result<(), Stop>
    ensures { Runs B.acts (of_pair core.old (decoded_pair half second)) core.old bus.old (end_of result) core.new bus.new }
{
    let next = core.pc().wrapping_add(4);
    match decode32(half, second) {
        Some(Instr::Branch(op)) => branch::run(core, next, op),
        Some(instr) => execute(core, bus, next, instr),
        None => undefined(core),
    }
}

/// Executes the instruction at the PC that this halfword is or begins.
#[tactic(auto, using(crate::proofs::RunLemmas::asks))]
fn go_on<B: Bus>(core: &mut Core, bus: &mut B, half: u16) -> Result<(), Stop>
    ensures { Runs B.acts (of_halfword core.old half (decoded half)) core.old bus.old (end_of result) core.new bus.new }
{
    let pc = core.pc();
    match decode16(half) {
        Decoded::Op(instr) => execute(core, bus, pc.wrapping_add(2), instr),
        Decoded::NeedsSecond => {
            let second = half_at(bus, pc.wrapping_add(2))? as u16;
            pair(core, bus, half, second)
        }
        Decoded::Undefined => undefined(core),
    }
}

/// Fetches the instruction at the PC and executes it.
#[tactic(auto, using(crate::proofs::RunLemmas::asks), unfolding(crate::specs::Step::instruction))]
fn fetch_and_execute<B: Bus>(core: &mut Core, bus: &mut B) -> Result<(), Stop>
    ensures { Runs B.acts (instruction core.old) core.old bus.old (end_of result) core.new bus.new }
{
    let half = half_at(bus, core.pc())? as u16;
    go_on(core, bus, half)
}

/// Executes the instruction at the PC: what its row of the table means, with its end. The bus gets its accesses in order, up to the first
/// that isn't answered. An instruction that ends other than by `Went` leaves every register and flag as it was, but its stores before a
/// fault remain. `Device` comes only if the bus's count of device faults rose.
#[inline(always)]
pub fn step<B: Bus>(core: &mut Core, bus: &mut B) -> StepEnd
    ensures runs { Runs B.acts (instruction core.old) core.old bus.old result core.new bus.new }
    ensures kept { (result ≡ StepEnd.Went) ⊎ (core.new ≡ core.old) }
    ensures cause { IsCounted (B.faults bus.old) (B.faults bus.new) (is_device_end result) }
{
    step_end(fetch_and_execute(core, bus))
}
