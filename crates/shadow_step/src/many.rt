//! Loads and stores of a list of registers.
#![tactic(auto, using(std::proofs::lemmas::Bool::Decides::nat_tests))]

ghost use Rattle.std.specs.Prelude.{◌≡◌, ◌≤◌, ◌<◌, ◌+◌, ◌∷◌, Bool, true, Some, None, if◌then◌else◌};
ghost use Rattle.armv6m_step.specs.ListRows.{low_registers, list_bytes};
ghost use Rattle.shadow_step.specs.MemoryRows.{marks, many_marks, store_each_marks, load_each_marks, link_marks, return_marks};

use crate::bus::BusMarks;
use crate::marks::{CoreMarks, Mark};
use crate::memory::operand_of;
use armv6m_decode::Many;
use armv6m_decode::registers::{LR, SP};
use armv6m_step::Core;

/// How many bytes the registers of the list take.
#[tactic(auto, using(armv6m_step::proofs::ListLemmas::ones_listed))]
fn bytes_of(list: u8) -> u32
    ensures value { result ≡ list_bytes list }
    ensures bound { result ≤ 32 }
{
    4 * list.count_ones()
}

/// The first register of a list, and the list of the others.
fn first_of(list: u8) -> (u8, u8)
    requires { 0 < list }
    ensures registers { low_registers list ≡ result.0 ∷ low_registers result.1 }
    ensures fewer { result.1 < list }
{
    (list.trailing_zeros() as u8, list & (list - 1))
}

impl CoreMarks {
    #[tactic(auto, using(crate::proofs::ManyLemmas::stored_so_far, std::proofs::lemmas::Bool::Decides::nat_tests))]
    fn store_list<S: BusMarks>(&self, bus: &mut S, core: &Core, at: u32, list: u8) -> bool
        ensures { store_each_marks S.table self.now (S.view bus.old) core.now at (low_registers list) ≡ (if result then Some (S.view bus.new) else None) }
    {
        let mut to = at;
        let mut left = list;
        while left != 0 {
            let (r, rest) = first_of(left);
            if !bus.store(4, to, operand_of(core, r), self.operand(r)) {
                return false;
            }
            to = to.wrapping_add(4);
            left = rest;
        }
        true
    }

    #[tactic(auto, using(crate::proofs::ManyLemmas::loaded_so_far, std::proofs::lemmas::Bool::Decides::nat_tests))]
    fn load_list<S: BusMarks>(&mut self, bus: &S, at: u32, list: u8) -> bool
        ensures { load_each_marks S.table self.old (S.view bus.now) at (low_registers list) ≡ (if result then Some self.new else None) }
    {
        let mut from = at;
        let mut left = list;
        while left != 0 {
            let (r, rest) = first_of(left);
            match bus.load(4, from) {
                Some(mark) => self.put(r, mark),
                None => return false,
            }
            from = from.wrapping_add(4);
            left = rest;
        }
        true
    }

    /// The marks after the last access of PUSH.
    fn link<S: BusMarks>(&mut self, bus: &mut S, core: &Core, lr: bool, at: u32) -> bool
        ensures { link_marks S.table self.old (S.view bus.old) core.now lr at ≡ (if result then Some (marks self.new (S.view bus.new)) else None) }
    {
        if lr && !bus.store(4, at, operand_of(core, LR), self.operand(LR)) {
            return false;
        }
        self.put(SP, Mark::Known);
        self.go();
        true
    }

    /// The marks after the last access of POP.
    fn comes_back<S: BusMarks>(&mut self, bus: &S, pc: bool, at: u32) -> bool
        ensures { return_marks S.table self.old (S.view bus.now) pc at ≡ (if result then Some (marks self.new (S.view bus.now)) else None) }
    {
        if pc {
            match bus.load(4, at) {
                Some(mark) => {
                    if !mark.is_known() {
                        return false;
                    }
                }
                None => return false,
            }
        }
        self.put(SP, Mark::Known);
        self.go();
        true
    }

    fn push<S: BusMarks>(&mut self, bus: &mut S, core: &Core, lr: bool, list: u8) -> bool
        ensures { many_marks S.table self.old (S.view bus.old) core.now (Many.Push lr list)
            ≡ (if result then Some (marks self.new (S.view bus.new)) else None) }
    {
        if !self.knows(SP) {
            return false;
        }
        let low = bytes_of(list);
        let by = low + if lr { 4 } else { 0 };
        let start = operand_of(core, SP).wrapping_sub(by);
        if !self.store_list(bus, core, start, list) {
            return false;
        }
        self.link(bus, core, lr, start.wrapping_add(low))
    }

    fn pop<S: BusMarks>(&mut self, bus: &S, core: &Core, pc: bool, list: u8) -> bool
        ensures { many_marks S.table self.old (S.view bus.now) core.now (Many.Pop pc list) ≡ (if result then Some (marks self.new (S.view bus.now)) else None) }
    {
        if !self.knows(SP) {
            return false;
        }
        let start = operand_of(core, SP);
        if !self.load_list(bus, start, list) {
            return false;
        }
        self.comes_back(bus, pc, start.wrapping_add(bytes_of(list)))
    }

    fn store_many<S: BusMarks>(&mut self, bus: &mut S, core: &Core, n: u8, list: u8) -> bool
        ensures { many_marks S.table self.old (S.view bus.old) core.now (Many.Stm n list) ≡ (if result then Some (marks self.new (S.view bus.new)) else None) }
    {
        if !self.knows(n) || !self.store_list(bus, core, operand_of(core, n), list) {
            return false;
        }
        self.put(n, Mark::Known);
        self.go();
        true
    }

    fn load_many<S: BusMarks>(&mut self, bus: &S, core: &Core, n: u8, list: u8) -> bool
        ensures { many_marks S.table self.old (S.view bus.now) core.now (Many.Ldm n list) ≡ (if result then Some (marks self.new (S.view bus.now)) else None) }
    {
        if !self.knows(n) || !self.load_list(bus, operand_of(core, n), list) {
            return false;
        }
        let is_listed = (u32::from(list) >> (n % 16)) % 2 == 1;
        if !is_listed {
            self.put(n, Mark::Known);
        }
        self.go();
        true
    }

    /// The marks after a load or a store of a list of registers, and whether there are any.
    pub fn many<S: BusMarks>(&mut self, bus: &mut S, core: &Core, op: Many) -> bool
        ensures { many_marks S.table self.old (S.view bus.old) core.now op ≡ (if result then Some (marks self.new (S.view bus.new)) else None) }
    {
        match op {
            Many::Push { lr, list } => self.push(bus, core, lr, list),
            Many::Pop { pc, list } => self.pop(bus, core, pc, list),
            Many::Stm { n, list } => self.store_many(bus, core, n, list),
            Many::Ldm { n, list } => self.load_many(bus, core, n, list),
        }
    }
}
