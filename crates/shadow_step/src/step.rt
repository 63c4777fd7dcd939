//! One instruction.
#![tactic(auto, using(std::proofs::lemmas::Bool::Decides::nat_tests))]

ghost use Rattle.std.specs.Prelude.{◌≡◌, Some, None, if◌then◌else◌};
ghost use Rattle.armv6m_decode.specs.Table.{decoded, decoded_pair};
ghost use Rattle.shadow_step.specs.MemoryRows.{marks};
ghost use Rattle.shadow_step.specs.Steps.{instr_marks, pair_marks, half_marks, step_marks};

use crate::bus::BusMarks;
use crate::marks::{CoreMarks, Mark};
use armv6m_decode::registers::PC;
use armv6m_decode::{Decoded, Instr, decode16, decode32};
use armv6m_step::Core;

impl CoreMarks {
    fn instr<S: BusMarks>(&mut self, bus: &mut S, core: &Core, op: Instr) -> bool
        ensures { instr_marks S.table self.old (S.view bus.old) core.now op ≡ (if result then Some (marks self.new (S.view bus.new)) else None) }
    {
        match op {
            Instr::Alu(op) => self.alu(op),
            Instr::Memory(op) => self.memory(bus, core, op),
            Instr::Many(op) => self.many(bus, core, op),
            Instr::Branch(op) => self.branch(op),
            Instr::Other(op) => self.other(op),
        }
    }

    fn pair<S: BusMarks>(&mut self, bus: &mut S, core: &Core, half: u16, second: u16) -> bool
        ensures { pair_marks S.table self.old (S.view bus.old) core.now (decoded_pair half second)
            ≡ (if result then Some (marks self.new (S.view bus.new)) else None) }
    {
        match decode32(half, second) {
            Some(op) => self.instr(bus, core, op),
            None => false,
        }
    }

    fn halfword<S: BusMarks>(&mut self, bus: &mut S, core: &Core, half: u16, second: u16) -> bool
        ensures { half_marks S.table self.old (S.view bus.old) core.now half second (decoded half)
            ≡ (if result then Some (marks self.new (S.view bus.new)) else None) }
    {
        match decode16(half) {
            Decoded::Op(op) => self.instr(bus, core, op),
            Decoded::NeedsSecond => match bus.load(2, core.pc().wrapping_add(2)) {
                Some(Mark::Known) => self.pair(bus, core, half, second),
                _ => false,
            },
            Decoded::Undefined => false,
        }
    }

    /// Computes the marks after the instruction at the PC, from its halfwords, and answers whether there are any. `second` is read only for
    /// an instruction of two halfwords.
    #[tactic(auto, using(std::proofs::lemmas::Bool::Decides::nat_tests), unfolding(crate::specs::Steps::step_marks))]
    pub fn step<S: BusMarks>(&mut self, bus: &mut S, core: &Core, half: u16, second: u16) -> bool
        ensures { step_marks S.table self.old (S.view bus.old) core.now half second ≡ (if result then Some (marks self.new (S.view bus.new)) else None) }
    {
        if !self.regs[PC as usize].is_known() {
            return false;
        }
        match bus.load(2, core.pc()) {
            Some(Mark::Known) => self.halfword(bus, core, half, second),
            _ => false,
        }
    }
}
