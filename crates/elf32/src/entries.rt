//! The entries of a file's tables.

/// A section header's fields (System V ABI, "Sections"); sizes and offsets are in bytes.
#[derive(Clone, Copy)]
pub struct Section {
    pub addr: u32,
    pub offset: u32,
    pub size: u32,
    pub kind: u32,
    pub link: u32,
}

/// A symbol's value and size in bytes (System V ABI, "Symbol Table").
#[derive(Clone, Copy, PartialEq, Eq)]
pub struct Symbol {
    pub value: u32,
    pub size: u32,
}

/// A program header (System V ABI, "Program Header"); sizes and offsets are in bytes.
#[derive(Clone, Copy)]
pub struct Segment {
    pub kind: u32,
    pub offset: u32,
    pub vaddr: u32,
    pub paddr: u32,
    pub filesz: u32,
    pub memsz: u32,
    pub flags: u32,
    pub align: u32,
}

impl Section {
    /// The type of a program's own code and data (System V ABI, "Section Types").
    pub const PROGBITS: u32 = 1;

    /// The type of a symbol table.
    pub const SYMTAB: u32 = 2;

    /// The type of zeroed data, which takes no bytes of the file.
    pub const NOBITS: u32 = 8;
}

impl Segment {
    /// The type of a segment that is loaded (System V ABI, "Segment Types").
    pub const LOAD: u32 = 1;
}
