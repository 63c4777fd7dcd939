//! Data processing and branches.
#![tactic(auto, using(std::proofs::lemmas::Bool::Decides::nat_tests))]

ghost use Rattle.std.specs.Prelude.{◌≡◌, Some, None, if◌then◌else◌};
ghost use Rattle.shadow_step.specs.Rows.{alu_marks, branch_marks, decides, value_marks, shift_marks, move_marks, sum_marks, compare_marks, test_marks};
ghost use Rattle.shadow_step.specs.Rows.{plain_marks};

use crate::marks::{CoreMarks, Mark};
use armv6m_decode::registers::{LR, PC};
use armv6m_decode::{Alu, Branch, Condition};

impl CoreMarks {
    #[inline(always)]
    fn value(&mut self, d: u8, known: bool) -> bool
        ensures { value_marks self.old d known ≡ (if result then Some self.new else None) }
    {
        self.put(d, Mark::known_if(known));
        self.set_nz(known);
        self.go();
        true
    }

    #[inline(always)]
    fn shift(&mut self, d: u8, known: bool) -> bool
        ensures { shift_marks self.old d known ≡ (if result then Some self.new else None) }
    {
        self.put(d, Mark::known_if(known));
        self.set_nz(known);
        self.set_carry(known);
        self.go();
        true
    }

    #[inline(always)]
    fn moved(&mut self, d: u8, mark: Mark) -> bool
        ensures { move_marks self.old d mark ≡ (if result then Some self.new else None) }
    {
        let carry = self.c;
        self.put(d, mark);
        self.set_nz(mark.is_known());
        self.set_carry(carry);
        self.go();
        true
    }

    #[inline(always)]
    fn sum(&mut self, d: u8, known: bool) -> bool
        ensures { sum_marks self.old d known ≡ (if result then Some self.new else None) }
    {
        self.put(d, Mark::known_if(known));
        self.set_nzcv(known);
        self.go();
        true
    }

    #[inline(always)]
    fn compare(&mut self, known: bool) -> bool
        ensures { compare_marks self.old known ≡ (if result then Some self.new else None) }
    {
        self.set_nzcv(known);
        self.go();
        true
    }

    #[inline(always)]
    fn test(&mut self, known: bool) -> bool
        ensures { test_marks self.old known ≡ (if result then Some self.new else None) }
    {
        self.set_nz(known);
        self.go();
        true
    }

    fn plain_into(&mut self, d: u8, mark: Mark) -> bool
        ensures { plain_marks self.old d mark ≡ (if result then Some self.new else None) }
    {
        if d == PC {
            self.go();
            mark.is_known()
        } else {
            self.put(d, mark);
            self.go();
            true
        }
    }

    fn left(&mut self, d: u8, m: u8, immediate: u8) -> bool
        ensures { alu_marks self.old (Alu.LslsImmediate d m immediate) ≡ (if result then Some self.new else None) }
    {
        if immediate == 0 {
            self.moved(d, self.operand(m))
        } else {
            self.shift(d, self.knows(m))
        }
    }

    fn knows_with_carry(&self, d: u8, m: u8) -> bool
        ensures { result ≡ (both self.now d m && self.now.c) }
    {
        self.knows_both(d, m) && self.c
    }

    ghost use Rattle.std.specs.Prelude.{◌&&◌};
    ghost use Rattle.shadow_step.specs.Rows.{both};

    /// The marks after an instruction of data processing, and whether there are any.
    pub fn alu(&mut self, op: Alu) -> bool
        ensures { alu_marks self.old op ≡ (if result then Some self.new else None) }
    {
        match op {
            Alu::LslsImmediate { d, m, immediate } => self.left(d, m, immediate),
            Alu::LsrsImmediate { d, m, immediate: _ } => self.shift(d, self.knows(m)),
            Alu::AsrsImmediate { d, m, immediate: _ } => self.shift(d, self.knows(m)),
            Alu::AddsRegister { d, n, m } => self.sum(d, self.knows_both(n, m)),
            Alu::SubsRegister { d, n, m } => self.sum(d, self.compares(n, m)),
            Alu::AddsImmediate3 { d, n, immediate: _ } => self.sum(d, self.knows(n)),
            Alu::SubsImmediate3 { d, n, immediate: _ } => self.sum(d, self.knows(n)),
            Alu::MovsImmediate { d, immediate: _ } => self.value(d, true),
            Alu::CmpImmediate { n, immediate: _ } => self.compare(self.knows(n)),
            Alu::AddsImmediate8 { d, immediate: _ } => self.sum(d, self.knows(d)),
            Alu::SubsImmediate8 { d, immediate: _ } => self.sum(d, self.knows(d)),
            Alu::Ands { d, m } => self.value(d, self.knows_both(d, m)),
            Alu::Eors { d, m } => self.value(d, self.knows_both(d, m)),
            Alu::LslsRegister { d, m } => self.shift(d, self.knows_with_carry(d, m)),
            Alu::LsrsRegister { d, m } => self.shift(d, self.knows_with_carry(d, m)),
            Alu::AsrsRegister { d, m } => self.shift(d, self.knows_with_carry(d, m)),
            Alu::Adcs { d, m } => self.sum(d, self.knows_with_carry(d, m)),
            Alu::Sbcs { d, m } => self.sum(d, self.knows_with_carry(d, m)),
            Alu::Rors { d, m } => self.shift(d, self.knows_with_carry(d, m)),
            Alu::Tst { d, m } => self.test(self.knows_both(d, m)),
            Alu::Rsbs { d, n } => self.sum(d, self.knows(n)),
            Alu::CmpRegister { d, m } => self.compare(self.compares(d, m)),
            Alu::Cmn { d, m } => self.compare(self.knows_both(d, m)),
            Alu::Orrs { d, m } => self.value(d, self.knows_both(d, m)),
            Alu::Muls { d, m } => self.value(d, self.knows_both(d, m)),
            Alu::Bics { d, m } => self.value(d, self.knows_both(d, m)),
            Alu::Mvns { d, m } => self.value(d, self.knows(m)),
            Alu::AddHigh { d, m } => self.plain_into(d, Mark::known_if(self.knows_both(d, m))),
            Alu::CmpHigh { n, m } => self.compare(self.compares(n, m)),
            Alu::MovHigh { d, m } => self.plain_into(d, self.operand(m)),
        }
    }

    /// Whether the flags that a condition uses are known.
    pub fn decides(&self, condition: Condition) -> bool
        ensures { result ≡ decides self.now condition }
    {
        match condition {
            Condition::Equal => self.z,
            Condition::NotEqual => self.z,
            Condition::CarrySet => self.c,
            Condition::CarryClear => self.c,
            Condition::Minus => self.n,
            Condition::Plus => self.n,
            Condition::Overflow => self.v,
            Condition::NoOverflow => self.v,
            Condition::Higher => self.c && self.z,
            Condition::LowerOrSame => self.c && self.z,
            Condition::GreaterOrEqual => self.n && self.v,
            Condition::LessThan => self.n && self.v,
            Condition::GreaterThan => self.z && (self.n && self.v),
            Condition::LessOrEqual => self.z && (self.n && self.v),
        }
    }

    /// The marks after a branch, and whether there are any.
    pub fn branch(&mut self, op: Branch) -> bool
        ensures { branch_marks self.old op ≡ (if result then Some self.new else None) }
    {
        match op {
            Branch::Bx { m } => {
                let known = self.knows(m);
                self.go();
                known
            }
            Branch::Blx { m } => {
                let known = self.knows(m);
                self.put(LR, Mark::Known);
                self.go();
                known
            }
            Branch::Bcc {
                condition,
                immediate: _,
            } => {
                let known = self.decides(condition);
                self.go();
                known
            }
            Branch::B { immediate: _ } => {
                self.go();
                true
            }
            Branch::Bl { immediate: _ } => {
                self.put(LR, Mark::Known);
                self.go();
                true
            }
        }
    }
}
