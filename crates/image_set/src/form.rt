//! The form of a file.
ghost use Rattle.std.specs.Prelude.{◌≡◌, find, not};
ghost use Rattle.image_set.specs.Form.{is_blank, form_of};

/// The four magic bytes of an ELF file: 0x7F, then `ELF`.
const MAGIC: [u8; 4] = [0x7F, b'E', b'L', b'F'];

/// How a file stands for an image.
#[derive(Clone, Copy)]
pub enum Form {
    /// The bytes of the file are those of the image, from this address on.
    Raw { at: u32 },
    /// An ELF file.
    Elf,
    /// Intel HEX.
    Hex,
    /// Motorola S-records.
    Srec,
}

/// The form of a file: raw if an address is given, or else by its first bytes.
pub fn form_of(raw_at: Option<u32>, bytes: &[u8]) -> Option<Form>
    ensures { result ≡ form_of raw_at bytes.now }
{
    if let Some(at) = raw_at {
        return Some(Form::Raw { at });
    }
    if bytes.starts_with(&MAGIC) {
        return Some(Form::Elf);
    }
    match first_mark(bytes) {
        Some(b':') => Some(Form::Hex),
        Some(b'S') => Some(Form::Srec),
        _ => None,
    }
}

/// The first byte that isn't blank.
fn first_mark(bytes: &[u8]) -> Option<u8>
    ensures { result ≡ find (λ byte. not (is_blank byte)) bytes.now }
{
    bytes.iter().copied().find(|byte| !is_blank(*byte))
}

/// Whether a byte is a space, a tab, a carriage return or a line feed.
fn is_blank(byte: u8) -> bool
    ensures { result ≡ is_blank byte }
{
    matches!(byte, b' ' | b'\t' | b'\r' | b'\n')
}
