//! The kinds of algorithms, and their texts.
ghost use Rattle.std.specs.Prelude.{◌≡◌, ◌++◌, ◌∷◌, [], OnOk};
ghost use Rattle.flm_forge.specs.Texts.{constant_lines, erase_chip_lines, erase_lines, erase_sector_lines, init_lines, lie_lines, lines, program_page_first};
ghost use Rattle.flm_forge.specs.Texts.{program_page_lines, text_of, un_init_first, un_init_lines};

use crate::write::put;
use faults::OutOfMemory;
use octets::hex_digits;

/// An algorithm that programs flash, for a board with unit 2: A1 to A7 by the controller FC1, and F1 by FPEC.
#[derive(Clone, Copy, Debug)]
pub enum Kind {
    /// The algorithm does what it has to do.
    A1,
    /// EraseChip, EraseSector and ProgramPage answer 0 and do nothing.
    A2,
    /// EraseSector never ends.
    A3,
    /// UnInit erases the chip after programming.
    A4,
    /// EraseSector erases at another address.
    A5,
    /// EraseSector answers 1 and does nothing.
    A6,
    /// EraseSector leaves the code.
    A7,
    /// The algorithm does what it has to do, by FPEC.
    F1,
}

/// The lines of Init: they open the registers with both keys.
const INIT: &[u8] = b"\
    Init: LDR R3, base\n\
    LDR R1, key1\n\
    STR R1, [R3, #0]\n\
    LDR R1, key2\n\
    STR R1, [R3, #0]\n\
    MOVS R0, #0\n\
    BX LR\n";

/// The lines of UnInit after its first: they lock the registers.
const UN_INIT: &[u8] = b"\
    MOVS R0, #0\n\
    STR R0, [R3, #0]\n\
    BX LR\n";

/// The lines of both erase functions: they start the operation, wait, read the error bits and clear them.
const ERASE: &[u8] = b"\
    STR R2, [R3, #8]\n\
    STR R0, [R3, #12]\n\
    MOVS R1, #1\n\
    STR R1, [R3, #16]\n\
    wait: LDR R2, [R3, #4]\n\
    TST R2, R1\n\
    BNE wait\n\
    MOVS R0, #0x1C\n\
    ANDS R0, R2\n\
    MOVS R2, #0x1E\n\
    STR R2, [R3, #4]\n\
    CMP R0, #0\n\
    BEQ out\n\
    MOVS R0, #1\n\
    out: BX LR\n";

/// The lines of ProgramPage after its first two: they store two bytes at a time.
const PROGRAM_PAGE: &[u8] = b"\
    MOVS R4, #1\n\
    STR R4, [R3, #8]\n\
    pnext: CMP R1, #0\n\
    BEQ pdone\n\
    LDRH R5, [R2, #0]\n\
    STRH R5, [R0, #0]\n\
    pwait: LDR R5, [R3, #4]\n\
    TST R5, R4\n\
    BNE pwait\n\
    LSRS R5, R5, #2\n\
    LSLS R5, R5, #29\n\
    BNE pfail\n\
    ADDS R0, #2\n\
    ADDS R2, #2\n\
    SUBS R1, #2\n\
    B pnext\n\
    pdone: MOVS R0, #0\n\
    B pout\n\
    pfail: MOVS R0, #1\n\
    pout: MOVS R5, #0x1E\n\
    STR R5, [R3, #4]\n\
    POP {R4, R5, PC}\n";

/// The lines of Verify: they compare byte by byte.
const VERIFY: &[u8] = b"\
    Verify: PUSH {R4, LR}\n\
    vnext: CMP R1, #0\n\
    BEQ vout\n\
    LDRB R3, [R0, #0]\n\
    LDRB R4, [R2, #0]\n\
    CMP R3, R4\n\
    BNE vout\n\
    ADDS R0, #1\n\
    ADDS R2, #1\n\
    SUBS R1, #1\n\
    B vnext\n\
    vout: POP {R4, PC}\n";

/// The lines of UnInit of A4: it erases the chip when it is called after programming.
const LIE: &[u8] = b"\
    lie: LDR R3, base\n\
    CMP R0, #2\n\
    BNE lied\n\
    MOVS R0, #3\n\
    STR R0, [R3, #8]\n\
    MOVS R0, #1\n\
    STR R0, [R3, #16]\n\
    lied: MOVS R0, #0\n\
    BX LR\n";

/// The lines of Init of F1.
const F1_INIT: &[u8] = b"\
    Init: LDR R3, base\n\
    LDR R1, key1\n\
    STR R1, [R3, #4]\n\
    LDR R1, key2\n\
    STR R1, [R3, #4]\n\
    MOVS R0, #0\n\
    BX LR\n";

/// The lines of UnInit of F1 after its first.
const F1_UN_INIT: &[u8] = b"\
    MOVS R0, #0x80\n\
    STR R0, [R3, #16]\n\
    MOVS R0, #0\n\
    BX LR\n";

/// The lines of both erase functions of F1.
const F1_ERASE: &[u8] = b"\
    STR R2, [R3, #16]\n\
    STR R0, [R3, #20]\n\
    MOVS R1, #0x40\n\
    ORRS R1, R2\n\
    STR R1, [R3, #16]\n\
    wait: LDR R2, [R3, #12]\n\
    MOVS R1, #1\n\
    TST R2, R1\n\
    BNE wait\n\
    MOVS R1, #0x34\n\
    ANDS R2, R1\n\
    STR R1, [R3, #12]\n\
    MOVS R0, #0\n\
    STR R0, [R3, #16]\n\
    CMP R2, #0x20\n\
    BEQ out\n\
    MOVS R0, #1\n\
    out: BX LR\n";

/// The lines of ProgramPage of F1 after its first two.
const F1_PROGRAM_PAGE: &[u8] = b"\
    MOVS R4, #1\n\
    STR R4, [R3, #16]\n\
    pnext: CMP R1, #0\n\
    BEQ pdone\n\
    LDRH R5, [R2, #0]\n\
    STRH R5, [R0, #0]\n\
    pwait: LDR R5, [R3, #12]\n\
    TST R5, R4\n\
    BNE pwait\n\
    LSRS R5, R5, #2\n\
    LSLS R5, R5, #29\n\
    BNE pfail\n\
    ADDS R0, #2\n\
    ADDS R2, #2\n\
    SUBS R1, #2\n\
    B pnext\n\
    pdone: MOVS R0, #0\n\
    B pout\n\
    pfail: MOVS R0, #1\n\
    pout: MOVS R5, #0x34\n\
    STR R5, [R3, #12]\n\
    MOVS R5, #0\n\
    STR R5, [R3, #16]\n\
    POP {R4, R5, PC}\n";

/// The lines of Init.
fn init(kind: Kind) -> &'static [u8]
    ensures { result.now ≡ text_of (init_lines kind) }
{
    match kind {
        Kind::F1 => F1_INIT,
        _ => INIT,
    }
}

/// The first line of UnInit.
fn un_init_first(kind: Kind) -> &'static [u8]
    ensures { result.now ≡ text_of (un_init_first kind ∷ []) }
{
    match kind {
        Kind::A4 => b"UnInit: B lie\n",
        _ => b"UnInit: LDR R3, base\n",
    }
}

/// The lines of UnInit after its first.
fn un_init(kind: Kind) -> &'static [u8]
    ensures { result.now ≡ text_of (un_init_lines kind) }
{
    match kind {
        Kind::F1 => F1_UN_INIT,
        _ => UN_INIT,
    }
}

/// The lines of EraseChip.
fn erase_chip(kind: Kind) -> &'static [u8]
    ensures { result.now ≡ text_of (erase_chip_lines kind) }
{
    match kind {
        Kind::A2 => b"EraseChip: MOVS R0, #0\nBX LR\n",
        Kind::F1 => b"EraseChip: MOVS R2, #4\nB erase\n",
        _ => b"EraseChip: MOVS R2, #3\nB erase\n",
    }
}

/// The lines of EraseSector.
fn erase_sector(kind: Kind) -> &'static [u8]
    ensures { result.now ≡ text_of (erase_sector_lines kind) }
{
    match kind {
        Kind::A2 => b"EraseSector: MOVS R0, #0\nerase: BX LR\n",
        Kind::A3 => b"EraseSector: B EraseSector\nerase: LDR R3, base\n",
        Kind::A5 =>
            b"EraseSector: MOVS R1, #1\nLSLS R1, R1, #8\nEORS R0, R1\nMOVS R2, #2\nerase: LDR R3, base\n",
        Kind::A6 => b"EraseSector: MOVS R0, #1\nerase: BX LR\n",
        Kind::A7 => b"EraseSector: MOVS R2, #0\nerase: BX R2\n",
        _ => b"EraseSector: MOVS R2, #2\nerase: LDR R3, base\n",
    }
}

/// The lines of both erase functions.
fn erase(kind: Kind) -> &'static [u8]
    ensures { result.now ≡ text_of (erase_lines kind) }
{
    match kind {
        Kind::F1 => F1_ERASE,
        _ => ERASE,
    }
}

/// The first lines of ProgramPage.
fn program_page_first(kind: Kind) -> &'static [u8]
    ensures { result.now ≡ text_of (program_page_first kind) }
{
    match kind {
        Kind::A2 => b"ProgramPage: MOVS R0, #0\nBX LR\n",
        _ => b"ProgramPage: PUSH {R4, R5, LR}\nLDR R3, base\n",
    }
}

/// The lines of ProgramPage after its first two.
fn program_page(kind: Kind) -> &'static [u8]
    ensures { result.now ≡ text_of (program_page_lines kind) }
{
    match kind {
        Kind::F1 => F1_PROGRAM_PAGE,
        _ => PROGRAM_PAGE,
    }
}

/// The lines of what A4 does in UnInit, or none.
fn lie(kind: Kind) -> &'static [u8]
    ensures { result.now ≡ text_of (lie_lines kind) }
{
    match kind {
        Kind::A4 => LIE,
        _ => b"",
    }
}

/// Adds the lines of the constants.
fn put_constants(out: &mut Vec<u8>, base: u32) -> Result<(), OutOfMemory>
    ensures { OnOk result (out.new.items ≡ out.old.items ++ text_of (constant_lines base)) }
{
    put(out, b".align\nbase: .word 0x")?;
    put(out, &hex_digits::<8>(base))?;
    put(out, b"\nkey1: .word 0x45670123\nkey2: .word 0xCDEF89AB\n")
}

/// Adds the text of a kind, for a controller with its registers from `base` on.
pub fn put_text(out: &mut Vec<u8>, kind: Kind, base: u32) -> Result<(), OutOfMemory>
    ensures { OnOk result (out.new.items ≡ out.old.items ++ text_of (lines kind base)) }
{
    put(out, init(kind))?;
    put(out, un_init_first(kind))?;
    put(out, un_init(kind))?;
    put(out, erase_chip(kind))?;
    put(out, erase_sector(kind))?;
    put(out, erase(kind))?;
    put(out, program_page_first(kind))?;
    put(out, program_page(kind))?;
    put(out, VERIFY)?;
    put(out, lie(kind))?;
    put_constants(out, base)
}
