//! The words of statements, written and read: mnemonics, registers and special registers.
ghost use Rattle.std.specs.Prelude.{◌≡◌, ◌≢◌, ◌<◌, ◌≤◌, ◌++◌, ℕ, length, codes, IfSome, IfNone};
ghost use Rattle.armv6m_forms.specs.Text.{text_of, condition_text, aim_text, register_text, special_text, IsBranch, IsSpecial};
ghost use Rattle.armv6m_decode.specs.declared.condition.Condition.{Condition};
ghost use Rattle.armv6m_forms.specs.declared.mnemonic.Mnemonic.{Mnemonic};
ghost use Rattle.armv6m_forms.specs.declared.form.Aim.{Aim};

use crate::form::Aim;
use crate::mnemonic::Mnemonic;
use armv6m_decode::Condition;
use armv6m_decode::registers::{APSR, LR, MSP, PRIMASK, SP};

/// The texts of the mnemonics, in the order of their variants.
const TEXTS: [&[u8]; 58] = [
    b"LSLS", b"LSRS", b"ASRS", b"ADDS", b"SUBS", b"MOVS", b"CMP", b"ANDS", b"EORS", b"ADCS",
    b"SBCS", b"RORS", b"TST", b"RSBS", b"CMN", b"ORRS", b"MULS", b"BICS", b"MVNS", b"ADD", b"MOV",
    b"BX", b"BLX", b"STR", b"STRH", b"STRB", b"LDRSB", b"LDR", b"LDRH", b"LDRB", b"LDRSH", b"SUB",
    b"SXTH", b"SXTB", b"UXTH", b"UXTB", b"PUSH", b"POP", b"CPSIE", b"CPSID", b"REV", b"REV16",
    b"REVSH", b"BKPT", b"NOP", b"YIELD", b"WFE", b"WFI", b"SEV", b"STM", b"LDM", b"UDF", b"SVC",
    b"MRS", b"MSR", b"DSB", b"DMB", b"ISB",
];

/// All mnemonics.
const MNEMONICS: [Mnemonic; 58] = [
    Mnemonic::Lsls,
    Mnemonic::Lsrs,
    Mnemonic::Asrs,
    Mnemonic::Adds,
    Mnemonic::Subs,
    Mnemonic::Movs,
    Mnemonic::Cmp,
    Mnemonic::Ands,
    Mnemonic::Eors,
    Mnemonic::Adcs,
    Mnemonic::Sbcs,
    Mnemonic::Rors,
    Mnemonic::Tst,
    Mnemonic::Rsbs,
    Mnemonic::Cmn,
    Mnemonic::Orrs,
    Mnemonic::Muls,
    Mnemonic::Bics,
    Mnemonic::Mvns,
    Mnemonic::Add,
    Mnemonic::Mov,
    Mnemonic::Bx,
    Mnemonic::Blx,
    Mnemonic::Str,
    Mnemonic::Strh,
    Mnemonic::Strb,
    Mnemonic::Ldrsb,
    Mnemonic::Ldr,
    Mnemonic::Ldrh,
    Mnemonic::Ldrb,
    Mnemonic::Ldrsh,
    Mnemonic::Sub,
    Mnemonic::Sxth,
    Mnemonic::Sxtb,
    Mnemonic::Uxth,
    Mnemonic::Uxtb,
    Mnemonic::Push,
    Mnemonic::Pop,
    Mnemonic::Cpsie,
    Mnemonic::Cpsid,
    Mnemonic::Rev,
    Mnemonic::Rev16,
    Mnemonic::Revsh,
    Mnemonic::Bkpt,
    Mnemonic::Nop,
    Mnemonic::Yield,
    Mnemonic::Wfe,
    Mnemonic::Wfi,
    Mnemonic::Sev,
    Mnemonic::Stm,
    Mnemonic::Ldm,
    Mnemonic::Udf,
    Mnemonic::Svc,
    Mnemonic::Mrs,
    Mnemonic::Msr,
    Mnemonic::Dsb,
    Mnemonic::Dmb,
    Mnemonic::Isb,
];

impl Mnemonic {
    /// The text of a mnemonic.
    #[tactic(auto, unfolding(crate::specs::Text::text_of))]
    pub fn text(self) -> &'static [u8]
        ensures text { result.now ≡ text_of self }
        ensures short { length result.now ≤ 5 }
    {
        TEXTS[self as usize]
    }
}

/// Reads a word as a mnemonic.
pub fn read_mnemonic(word: &[u8]) -> Option<Mnemonic>
    ensures some { IfSome result (λ mnemonic. text_of mnemonic ≡ word.now) }
    ensures none { IfNone result ((mnemonic : Mnemonic) → text_of mnemonic ≢ word.now) }
{
    for mnemonic in MNEMONICS {
        if mnemonic.text() == word {
            return Some(mnemonic);
        }
    }
    None
}

/// Reads a word as a mnemonic that has only a target: `B`, `B` with a condition, or `BL`.
#[tactic(auto, unfolding(crate::specs::Text::aim_text))]
pub fn read_branch(word: &[u8]) -> Option<Aim>
    ensures some { IfSome result (λ aim. aim_text aim ≡ word.now) }
    ensures branch { IfSome result IsBranch }
    ensures none { IfNone result ((aim : Aim) → IsBranch aim → aim_text aim ≢ word.now) }
{
    if word == b"B".as_slice() {
        Some(Aim::Branch)
    } else if word == b"BL".as_slice() {
        Some(Aim::BranchLink)
    } else {
        let condition = read_conditional(word)?;
        Some(Aim::BranchIf { condition })
    }
}

/// Reads the condition of a conditional branch's mnemonic.
fn read_conditional(word: &[u8]) -> Option<Condition>
    ensures some { IfSome result (λ condition. codes "B" ++ condition_text condition ≡ word.now) }
    ensures none { IfNone result ((condition : Condition) → codes "B" ++ condition_text condition ≢ word.now) }
{
    match word {
        [b'B', suffix @ ..] => read_condition(suffix),
        _ => None,
    }
}

/// The suffix of a condition.
#[tactic(auto, unfolding(crate::specs::Text::condition_text))]
pub(crate) fn condition_text(condition: Condition) -> &'static [u8]
    ensures text { result.now ≡ condition_text condition }
    ensures short { length result.now ≡ 2 }
{
    match condition {
        Condition::Equal => b"EQ",
        Condition::NotEqual => b"NE",
        Condition::CarrySet => b"CS",
        Condition::CarryClear => b"CC",
        Condition::Minus => b"MI",
        Condition::Plus => b"PL",
        Condition::Overflow => b"VS",
        Condition::NoOverflow => b"VC",
        Condition::Higher => b"HI",
        Condition::LowerOrSame => b"LS",
        Condition::GreaterOrEqual => b"GE",
        Condition::LessThan => b"LT",
        Condition::GreaterThan => b"GT",
        Condition::LessOrEqual => b"LE",
    }
}

/// The condition with this suffix.
fn read_condition(word: &[u8]) -> Option<Condition>
    ensures some { IfSome result (λ condition. condition_text condition ≡ word.now) }
    ensures none { IfNone result ((condition : Condition) → condition_text condition ≢ word.now) }
{
    for condition in Condition::ALL {
        if condition_text(condition) == word {
            return Some(condition);
        }
    }
    None
}

/// The name of a register.
#[tactic(auto, unfolding(crate::specs::Text::register_text))]
pub(crate) fn register_name(register: u8) -> &'static [u8]
    requires { register < 16 }
    ensures text { result.now ≡ register_text register }
    ensures short { length result.now ≤ 3 }
{
    match register {
        0 => b"R0",
        1 => b"R1",
        2 => b"R2",
        3 => b"R3",
        4 => b"R4",
        5 => b"R5",
        6 => b"R6",
        7 => b"R7",
        8 => b"R8",
        9 => b"R9",
        10 => b"R10",
        11 => b"R11",
        12 => b"R12",
        SP => b"SP",
        LR => b"LR",
        _ => b"PC",
    }
}

/// Reads a word as the name of a register.
pub fn read_register(word: &[u8]) -> Option<u8>
    ensures some { IfSome result (λ register. register_text register ≡ word.now) }
    ensures below { IfSome result (λ register. register < 16) }
    ensures none { IfNone result ((register : ℕ) → register < 16 → register_text register ≢ word.now) }
{
    for register in 0..16 {
        if register_name(register) == word {
            return Some(register);
        }
    }
    None
}

/// Reads a word as the name of a special register.
#[tactic(auto, unfolding(crate::specs::Text::special_text))]
pub fn read_special(word: &[u8]) -> Option<u8>
    ensures some { IfSome result (λ special. special_text special ≡ word.now) }
    ensures known { IfSome result IsSpecial }
    ensures none { IfNone result ((special : ℕ) → IsSpecial special → special_text special ≢ word.now) }
{
    match word {
        b"APSR" => Some(APSR),
        b"MSP" => Some(MSP),
        b"PRIMASK" => Some(PRIMASK),
        _ => None,
    }
}
