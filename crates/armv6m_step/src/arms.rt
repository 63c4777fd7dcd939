//! Which halfwords have an arm of their own in a quick step, and which arm.
ghost use Rattle.armv6m_step.specs.Arms.{InArm};

/// An arm of a quick step. Since it is an enum, the jump to it needs no test.
#[derive(Clone, Copy)]
pub(crate) enum Arm {
    /// LSL (immediate).
    LslsImmediate,
    /// LSR (immediate).
    LsrsImmediate,
    /// ASR (immediate).
    AsrsImmediate,
    /// ADD (register), of low registers.
    AddsRegister,
    /// SUB (register).
    SubsRegister,
    /// ADD (immediate), of three bits.
    AddsImmediate3,
    /// SUB (immediate), of three bits.
    SubsImmediate3,
    /// MOV (immediate).
    MovsImmediate,
    /// CMP (immediate).
    CmpImmediate,
    /// ADD (immediate), of eight bits.
    AddsImmediate,
    /// SUB (immediate), of eight bits.
    SubsImmediate,
    /// Bitwise AND (register).
    Ands,
    /// EOR (register).
    Eors,
    /// ADC (register).
    Adcs,
    /// ROR (register).
    Rors,
    /// TST (register).
    Tst,
    /// RSB (immediate).
    Rsbs,
    /// CMP (register), of low registers.
    CmpRegister,
    /// ORR (register).
    Orrs,
    /// MUL.
    Muls,
    /// MOV (register).
    MovHigh,
    /// BX.
    Exchange,
    /// LDR (literal).
    LdrLiteral,
    /// STR (register).
    StrRegister,
    /// LDR (register).
    LdrRegister,
    /// STR (immediate).
    StrImmediate,
    /// LDR (immediate).
    LdrImmediate,
    /// STRB (immediate).
    StrbImmediate,
    /// LDRB (immediate).
    LdrbImmediate,
    /// STRH (immediate).
    StrhImmediate,
    /// LDRH (immediate).
    LdrhImmediate,
    /// STR (immediate), at SP.
    StrSp,
    /// LDR (immediate), at SP.
    LdrSp,
    /// ADD (SP plus immediate).
    AddFromSp,
    /// PUSH.
    Push,
    /// REV.
    Reverse,
    /// POP.
    Pop,
    /// B if Z is set.
    BranchEqual,
    /// B if Z is clear.
    BranchNotEqual,
    /// B if C is set.
    BranchCarrySet,
    /// B if C is clear.
    BranchCarryClear,
    /// B if C is set and Z is clear.
    BranchHigher,
    /// B.
    Branch,
    /// BL.
    Call,
    /// No arm: the full step executes the instruction.
    Other,
}

/// An array of arms, from rows of an arm and how many entries have it.
macro_rules! arms {
    ([$($entry:ident)*]) => { [$(Arm::$entry),*] };
    ([$($entry:ident)*] 1 $arm:ident, $($rest:tt)*) => { arms!([$($entry)* $arm] $($rest)*) };
    ([$($entry:ident)*] 4 $arm:ident, $($rest:tt)*) => { arms!([$($entry)* $arm $arm $arm $arm] $($rest)*) };
    ([$($entry:ident)*] 8 $arm:ident, $($rest:tt)*) => {
        arms!([$($entry)* $arm $arm $arm $arm $arm $arm $arm $arm] $($rest)*)
    };
    ([$($entry:ident)*] 32 $arm:ident, $($rest:tt)*) => {
        arms!([$($entry)*
            $arm $arm $arm $arm $arm $arm $arm $arm $arm $arm $arm $arm $arm $arm $arm $arm
            $arm $arm $arm $arm $arm $arm $arm $arm $arm $arm $arm $arm $arm $arm $arm $arm] $($rest)*)
    };
}

/// The arm of each halfword, by its upper ten bits.
static ARMS: [Arm; 1024] = arms! {
    []
    32 LslsImmediate,
    32 LsrsImmediate,
    32 AsrsImmediate,
    8 AddsRegister,
    8 SubsRegister,
    8 AddsImmediate3,
    8 SubsImmediate3,
    32 MovsImmediate,
    32 CmpImmediate,
    32 AddsImmediate,
    32 SubsImmediate,
    1 Ands,
    1 Eors,
    1 Other, 1 Other, 1 Other,
    1 Adcs,
    1 Other,
    1 Rors,
    1 Tst,
    1 Rsbs,
    1 CmpRegister,
    1 Other,
    1 Orrs,
    1 Muls,
    8 Other, 1 Other, 1 Other,
    4 MovHigh,
    1 Exchange, 1 Exchange,
    1 Other, 1 Other,
    32 LdrLiteral,
    8 StrRegister,
    8 Other, 8 Other, 8 Other,
    8 LdrRegister,
    8 Other, 8 Other, 8 Other,
    32 StrImmediate,
    32 LdrImmediate,
    32 StrbImmediate,
    32 LdrbImmediate,
    32 StrhImmediate,
    32 LdrhImmediate,
    32 StrSp,
    32 LdrSp,
    32 Other,
    32 AddFromSp,
    8 Other, 8 Other,
    8 Push,
    8 Other, 8 Other,
    1 Reverse,
    4 Other, 1 Other, 1 Other, 1 Other,
    8 Pop,
    32 Other, 32 Other, 8 Other,
    4 BranchEqual,
    4 BranchNotEqual,
    4 BranchCarrySet,
    4 BranchCarryClear,
    8 Other, 8 Other,
    4 BranchHigher,
    8 Other, 8 Other, 8 Other, 4 Other,
    32 Branch,
    32 Other,
    32 Call,
    32 Other,
};

/// The arm of a halfword.
#[inline(always)]
pub(crate) fn arm_of(half: u16) -> Arm
    ensures { InArm result half }
{
    ARMS[(half >> 6) as usize]
}
