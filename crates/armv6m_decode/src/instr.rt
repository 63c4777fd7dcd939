//! The instructions of Armv6-M, one variant for each row of the table of encodings.
//!
//! The fields are those of the encoding. `d`, `n`, `m` and `t` are registers, 0 to 15: the destination, the first and the second operand,
//! and the register that is loaded or stored. An `immediate` is the unsigned number in the halfword, neither scaled nor extended. Bit r of
//! a `list` stands for register r.

use crate::Condition;

/// Data processing: the rows 0000 to 4600.
#[derive(Clone, Copy)]
pub enum Alu {
    /// `LSLS d, m, #immediate`
    LslsImmediate { d: u8, m: u8, immediate: u8 },
    /// `LSRS d, m, #immediate`, where the immediate 0 means 32
    LsrsImmediate { d: u8, m: u8, immediate: u8 },
    /// `ASRS d, m, #immediate`, where the immediate 0 means 32
    AsrsImmediate { d: u8, m: u8, immediate: u8 },
    /// `ADDS d, n, m`
    AddsRegister { d: u8, n: u8, m: u8 },
    /// `SUBS d, n, m`
    SubsRegister { d: u8, n: u8, m: u8 },
    /// `ADDS d, n, #immediate`, of three bits
    AddsImmediate3 { d: u8, n: u8, immediate: u8 },
    /// `SUBS d, n, #immediate`, of three bits
    SubsImmediate3 { d: u8, n: u8, immediate: u8 },
    /// `MOVS d, #immediate`
    MovsImmediate { d: u8, immediate: u8 },
    /// `CMP n, #immediate`
    CmpImmediate { n: u8, immediate: u8 },
    /// `ADDS d, #immediate`, of eight bits
    AddsImmediate8 { d: u8, immediate: u8 },
    /// `SUBS d, #immediate`, of eight bits
    SubsImmediate8 { d: u8, immediate: u8 },
    /// `ANDS d, m`
    Ands { d: u8, m: u8 },
    /// `EORS d, m`
    Eors { d: u8, m: u8 },
    /// `LSLS d, m`
    LslsRegister { d: u8, m: u8 },
    /// `LSRS d, m`
    LsrsRegister { d: u8, m: u8 },
    /// `ASRS d, m`
    AsrsRegister { d: u8, m: u8 },
    /// `ADCS d, m`
    Adcs { d: u8, m: u8 },
    /// `SBCS d, m`
    Sbcs { d: u8, m: u8 },
    /// `RORS d, m`
    Rors { d: u8, m: u8 },
    /// `TST d, m`
    Tst { d: u8, m: u8 },
    /// `RSBS d, n, #0`
    Rsbs { d: u8, n: u8 },
    /// `CMP d, m` of two low registers
    CmpRegister { d: u8, m: u8 },
    /// `CMN d, m`
    Cmn { d: u8, m: u8 },
    /// `ORRS d, m`
    Orrs { d: u8, m: u8 },
    /// `MULS d, m`
    Muls { d: u8, m: u8 },
    /// `BICS d, m`
    Bics { d: u8, m: u8 },
    /// `MVNS d, m`
    Mvns { d: u8, m: u8 },
    /// `ADD d, m` of any registers
    AddHigh { d: u8, m: u8 },
    /// `CMP n, m` of any registers
    CmpHigh { n: u8, m: u8 },
    /// `MOV d, m` of any registers
    MovHigh { d: u8, m: u8 },
}

/// Loads and stores of one register: the rows 4800 to 9800.
#[derive(Clone, Copy)]
pub enum Memory {
    /// `LDR t, label`, at the aligned PC plus 4 times the immediate
    LdrLiteral { t: u8, immediate: u8 },
    /// `STR t, [n, m]`
    StrRegister { t: u8, n: u8, m: u8 },
    /// `STRH t, [n, m]`
    StrhRegister { t: u8, n: u8, m: u8 },
    /// `STRB t, [n, m]`
    StrbRegister { t: u8, n: u8, m: u8 },
    /// `LDRSB t, [n, m]`
    LdrsbRegister { t: u8, n: u8, m: u8 },
    /// `LDR t, [n, m]`
    LdrRegister { t: u8, n: u8, m: u8 },
    /// `LDRH t, [n, m]`
    LdrhRegister { t: u8, n: u8, m: u8 },
    /// `LDRB t, [n, m]`
    LdrbRegister { t: u8, n: u8, m: u8 },
    /// `LDRSH t, [n, m]`
    LdrshRegister { t: u8, n: u8, m: u8 },
    /// `STR t, [n, #4 * immediate]`
    StrImmediate { t: u8, n: u8, immediate: u8 },
    /// `LDR t, [n, #4 * immediate]`
    LdrImmediate { t: u8, n: u8, immediate: u8 },
    /// `STRB t, [n, #immediate]`
    StrbImmediate { t: u8, n: u8, immediate: u8 },
    /// `LDRB t, [n, #immediate]`
    LdrbImmediate { t: u8, n: u8, immediate: u8 },
    /// `STRH t, [n, #2 * immediate]`
    StrhImmediate { t: u8, n: u8, immediate: u8 },
    /// `LDRH t, [n, #2 * immediate]`
    LdrhImmediate { t: u8, n: u8, immediate: u8 },
    /// `STR t, [SP, #4 * immediate]`
    StrSp { t: u8, immediate: u8 },
    /// `LDR t, [SP, #4 * immediate]`
    LdrSp { t: u8, immediate: u8 },
}

/// Loads and stores of a list of registers.
#[derive(Clone, Copy)]
pub enum Many {
    /// `PUSH {list}`, with LR
    Push { lr: bool, list: u8 },
    /// `POP {list}`, with PC
    Pop { pc: bool, list: u8 },
    /// `STM n!, {list}`
    Stm { n: u8, list: u8 },
    /// `LDM n, {list}`
    Ldm { n: u8, list: u8 },
}

/// Branches. An `immediate` counts halfwords from the instruction's address plus 4, as a signed number of its width.
#[derive(Clone, Copy)]
pub enum Branch {
    /// `BX m`
    Bx { m: u8 },
    /// `BLX m`
    Blx { m: u8 },
    /// `B` with a condition, eight bits
    Bcc { condition: Condition, immediate: u8 },
    /// `B label`, eleven bits
    B { immediate: u16 },
    /// `BL label`, the 24 bits S:I1:I2:imm10:imm11
    Bl { immediate: u32 },
}

/// All other instructions: addresses, extensions, byte orders, hints, barriers and special registers.
#[derive(Clone, Copy)]
pub enum Other {
    /// `ADR d, label`, the aligned PC plus 4 times the immediate
    Adr { d: u8, immediate: u8 },
    /// `ADD d, SP, #4 * immediate`
    AddFromSp { d: u8, immediate: u8 },
    /// `ADD SP, #4 * immediate`
    AddToSp { immediate: u8 },
    /// `SUB SP, #4 * immediate`
    SubFromSp { immediate: u8 },
    /// `SXTH d, m`
    Sxth { d: u8, m: u8 },
    /// `SXTB d, m`
    Sxtb { d: u8, m: u8 },
    /// `UXTH d, m`
    Uxth { d: u8, m: u8 },
    /// `UXTB d, m`
    Uxtb { d: u8, m: u8 },
    /// `CPSIE i`
    Cpsie,
    /// `CPSID i`
    Cpsid,
    /// `REV d, m`
    Rev { d: u8, m: u8 },
    /// `REV16 d, m`
    Rev16 { d: u8, m: u8 },
    /// `REVSH d, m`
    Revsh { d: u8, m: u8 },
    /// `BKPT #immediate`
    Bkpt { immediate: u8 },
    /// `NOP`
    Nop,
    /// `YIELD`
    Yield,
    /// `WFE`
    Wfe,
    /// `WFI`
    Wfi,
    /// `SEV`
    Sev,
    /// `UDF`
    Udf { immediate: u8 },
    /// `SVC`
    Svc { immediate: u8 },
    /// `MRS d, special`, with the special register's number, the manual's SYSm
    Mrs { d: u8, special: u8 },
    /// `MSR special, n`
    Msr { n: u8, special: u8 },
    /// `DSB`
    Dsb,
    /// `DMB`
    Dmb,
    /// `ISB`
    Isb,
}

/// An instruction.
#[derive(Clone, Copy)]
pub enum Instr {
    Alu(Alu),
    Memory(Memory),
    Many(Many),
    Branch(Branch),
    Other(Other),
}

/// What a halfword means.
#[derive(Clone, Copy)]
pub enum Decoded {
    /// The instruction of the row that the halfword fits.
    Op(Instr),
    /// The first halfword of an instruction of two halfwords.
    NeedsSecond,
    /// No instruction.
    Undefined,
}
