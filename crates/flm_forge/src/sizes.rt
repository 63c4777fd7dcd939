//! Where the parts of a file are.
ghost use Rattle.std.specs.Prelude.{◌≡◌, ◌<◌, ◌^◌};
ghost use Rattle.flm_forge.specs.Places.{code_at, init_data_at, descriptor_at, headers_at, descriptor_addr, end_of};

/// Where the names of symbols begin, in bytes from the file's start.
pub const SYMBOL_NAMES_AT: u32 = 52;

/// Where the names of sections begin, in bytes from the file's start.
pub const SECTION_NAMES_AT: u32 = 120;

/// Where the symbols begin, in bytes from the file's start.
pub const SYMBOLS_AT: u32 = 172;

/// How many bytes the section headers have.
pub const HEADERS_LEN: u32 = 320;

/// How many bytes each part of a file has.
#[derive(Clone, Copy)]
pub struct Sizes {
    pub symbols: u32,
    pub code: u32,
    pub init_data: u32,
    /// How many bytes of zeroed data there are. The file has none of them.
    pub zero_len: u32,
    pub descriptor: u32,
}

impl Sizes {
    /// The offset of the code, in bytes from the file's start.
    pub fn code_at(&self) -> u32
        requires { end_of self.now < 2 ^ 32 }
        ensures { result ≡ code_at self.now }
    {
        SYMBOLS_AT + self.symbols
    }

    /// The offset of the data, in bytes from the file's start.
    pub fn init_data_at(&self) -> u32
        requires { end_of self.now < 2 ^ 32 }
        ensures { result ≡ init_data_at self.now }
    {
        self.code_at() + self.code
    }

    /// The offset of the description, in bytes from the file's start.
    pub fn descriptor_at(&self) -> u32
        requires { end_of self.now < 2 ^ 32 }
        ensures { result ≡ descriptor_at self.now }
    {
        self.init_data_at() + self.init_data
    }

    /// The offset of the section headers, in bytes from the file's start.
    pub fn headers_at(&self) -> u32
        requires { end_of self.now < 2 ^ 32 }
        ensures { result ≡ headers_at self.now }
    {
        self.descriptor_at() + self.descriptor
    }

    /// The address of the description.
    pub fn descriptor_addr(&self) -> u32
        requires { end_of self.now < 2 ^ 32 }
        ensures { result ≡ descriptor_addr self.now }
    {
        (self.code + self.init_data).wrapping_add(self.zero_len)
    }
}
