//! A text with the code that GNU as 2.40 made of the same statements in its own syntax, under `.syntax unified` and
//! `.thumb`: `arm-none-eabi-as -mcpu=cortex-m0 -o t.o t.s; arm-none-eabi-objcopy -O binary -j .text t.o t.bin`.

/// A flash algorithm.
pub fn algorithm() -> &'static [u8] {
    b"\
    Init: LDR R3, base\nLDR R1, key1\nSTR R1, [R3, #0]\nLDR R1, key2\nSTR R1, [R3, #0]\nMOVS R0, #0\nBX LR\n\
    UnInit: LDR R3, base\nMOVS R0, #0\nSTR R0, [R3, #0]\nBX LR\nEraseChip: MOVS R2, #3\nB erase\n\
    EraseSector: MOVS R2, #2\nerase: LDR R3, base\nSTR R2, [R3, #8]\nSTR R0, [R3, #12]\nMOVS R1, #1\n\
    STR R1, [R3, #16]\nwait: LDR R2, [R3, #4]\nTST R2, R1\nBNE wait\nMOVS R0, #0x1C\nANDS R0, R2\nMOVS R2, #0x1E\n\
    STR R2, [R3, #4]\nCMP R0, #0\nBEQ out\nMOVS R0, #1\nout: BX LR\nProgramPage: PUSH {R4, R5, LR}\nLDR R3, base\n\
    MOVS R4, #1\nSTR R4, [R3, #8]\npnext: CMP R1, #0\nBEQ pdone\nLDRH R5, [R2, #0]\nSTRH R5, [R0, #0]\n\
    pwait: LDR R5, [R3, #4]\nTST R5, R4\nBNE pwait\nLSRS R5, R5, #2\nLSLS R5, R5, #29\nBNE pfail\nADDS R0, #2\n\
    ADDS R2, #2\nSUBS R1, #2\nB pnext\npdone: MOVS R0, #0\nB pout\npfail: MOVS R0, #1\npout: MOVS R5, #0x1E\n\
    STR R5, [R3, #4]\nPOP {R4, R5, PC}\nVerify: PUSH {R4, LR}\nvnext: CMP R1, #0\nBEQ vout\nLDRB R3, [R0, #0]\n\
    LDRB R4, [R2, #0]\nCMP R3, R4\nBNE vout\nADDS R0, #1\nADDS R2, #1\nSUBS R1, #1\nB vnext\nvout: POP {R4, PC}\n\
    .align\nbase: .word 0x40022000\nkey1: .word 0x45670123\nkey2: .word 0xCDEF89AB\n"
}

/// The code of the flash algorithm.
pub fn algorithm_code() -> &'static [u8] {
    b"\
    \x20\x4B\x21\x49\x19\x60\x21\x49\x19\x60\x00\x20\x70\x47\x1D\x4B\x00\x20\x18\x60\x70\x47\x03\x22\
    \x00\xE0\x02\x22\x19\x4B\x9A\x60\xD8\x60\x01\x21\x19\x61\x5A\x68\x0A\x42\xFC\xD1\x1C\x20\x10\x40\
    \x1E\x22\x5A\x60\x00\x28\x00\xD0\x01\x20\x70\x47\x30\xB5\x11\x4B\x01\x24\x9C\x60\x00\x29\x0B\xD0\
    \x15\x88\x05\x80\x5D\x68\x25\x42\xFC\xD1\xAD\x08\x6D\x07\x05\xD1\x02\x30\x02\x32\x02\x39\xF1\xE7\
    \x00\x20\x00\xE0\x01\x20\x1E\x25\x5D\x60\x30\xBD\x10\xB5\x00\x29\x07\xD0\x03\x78\x14\x78\xA3\x42\
    \x03\xD1\x01\x30\x01\x32\x01\x39\xF5\xE7\x10\xBD\x00\x20\x02\x40\x23\x01\x67\x45\xAB\x89\xEF\xCD"
}
