//! Branches.
#![tactic(auto, using(std::proofs::lemmas::Bool::Decides::nat_tests))]

ghost use Rattle.std.specs.Prelude.{◌≡◌};
ghost use Rattle.armv6m_step.specs.Ends.{end_of};
ghost use Rattle.armv6m_step.specs.Meaning.{Leaves};
ghost use Rattle.armv6m_step.specs.BranchRows.{branch, holds, linked, same};

use crate::{Core, Stop};
use armv6m_decode::registers::LR;
use armv6m_decode::{Branch, Condition, targets};

#[inline(always)]
fn condition_holds(core: &Core, condition: Condition) -> bool
    ensures { result ≡ holds core.now condition }
{
    match condition {
        Condition::Equal => core.z,
        Condition::NotEqual => !core.z,
        Condition::CarrySet => core.c,
        Condition::CarryClear => !core.c,
        Condition::Minus => core.n,
        Condition::Plus => !core.n,
        Condition::Overflow => core.v,
        Condition::NoOverflow => !core.v,
        Condition::Higher => core.c && !core.z,
        Condition::LowerOrSame => !core.c || core.z,
        Condition::GreaterOrEqual => is_same(core),
        Condition::LessThan => !is_same(core),
        Condition::GreaterThan => !core.z && is_same(core),
        Condition::LessOrEqual => core.z || !is_same(core),
    }
}

/// Whether N equals V.
#[inline(always)]
fn is_same(core: &Core) -> bool
    ensures { result ≡ same core.now.n core.now.v }
{
    if core.n { core.v } else { !core.v }
}

fn link(core: &mut Core, next: u32)
    ensures { core.new ≡ linked core.old next }
{
    core.write(LR, next.wrapping_add(1));
}

fn exchange(core: &mut Core, m: u8) -> Result<(), Stop>
    ensures { Leaves (branch core.old 0 (Branch.Bx m)) core.old (end_of result) core.new }
{
    let to = core.read(m);
    if to % 2 != 1 {
        return Err(Stop::BadState { pc: core.pc() });
    }
    core.go_to(to - 1);
    Ok(())
}

fn link_and_exchange(core: &mut Core, next: u32, m: u8) -> Result<(), Stop>
    ensures { Leaves (branch core.old next (Branch.Blx m)) core.old (end_of result) core.new }
{
    let to = core.read(m);
    if to % 2 != 1 {
        return Err(Stop::BadState { pc: core.pc() });
    }
    link(core, next);
    core.go_to(to - 1);
    Ok(())
}

/// Executes the instruction, if the one after it is at `next`.
#[inline(always)]
pub(crate) fn run(core: &mut Core, next: u32, op: Branch) -> Result<(), Stop>
    ensures { Leaves (branch core.old next op) core.old (end_of result) core.new }
{
    match op {
        Branch::Bx { m } => return exchange(core, m),
        Branch::Blx { m } => return link_and_exchange(core, next, m),
        Branch::Bcc {
            condition,
            immediate,
        } => {
            if condition_holds(core, condition) {
                core.go_to(targets::short(core.pc(), immediate));
            } else {
                core.go_to(next);
            }
        }
        Branch::B { immediate } => core.go_to(targets::near(core.pc(), immediate)),
        Branch::Bl { immediate } => {
            let to = targets::far(core.pc(), immediate);
            link(core, next);
            core.go_to(to);
        }
    }
    Ok(())
}
