//! The text of an inspection.
ghost use Rattle.std.specs.Prelude.{◌≡◌, [], ◌∷◌, length};
ghost use Rattle.std.specs.List.{flat_map};
ghost use Rattle.flm_descriptor.specs.Shape.{sectors, shape};
ghost use Rattle.flm_descriptor.specs.Shown.{shown};
ghost use Rattle.report_text.specs.Inspection.{printable, name_text, kind_text, values_text, device_text, count_text, item_text, parts_text, entry_text};
ghost use Rattle.report_text.specs.Inspection.{optional_entry_text, entries_text, inspection_text};
ghost use Rattle.outside_io.specs.Puts.{Puts};

use crate::pieces::put_pieces;
use flm_descriptor::{Algorithm, Device, Entries, Name, SectorItem};
use itoa::Buffer;
use octets::hex_digits;
use outside_io::{OutputFault, Sink};

/// Puts what a flash algorithm says of itself, line by line. A fault may leave a beginning of it.
pub fn put_inspection<O: Sink>(out: &mut O, algorithm: &Algorithm) -> Result<(), OutputFault>
    ensures { Puts O.tells (O.state out.old) (O.state out.new) (inspection_text (shown algorithm.now)) result }
{
    put_device(out, &algorithm.device)?;
    put_count(out, algorithm)?;
    put_items(out, algorithm.items.as_slice())?;
    put_parts(out, algorithm)?;
    put_entries(out, &algorithm.entries)
}

/// Puts the lines of the device.
fn put_device<O: Sink>(out: &mut O, device: &Device) -> Result<(), OutputFault>
    ensures { Puts O.tells (O.state out.old) (O.state out.new) (device_text device.now) result }
{
    put_name(out, device.name.bytes())?;
    put_kind(out, device)?;
    put_values(out, device)
}

/// Puts the line of a name.
fn put_name<O: Sink>(out: &mut O, name: &[u8]) -> Result<(), OutputFault>
    ensures { Puts O.tells (O.state out.old) (O.state out.new) (name_text name.now) result }
{
    put_pieces(out, &[b"name "])?;
    put_printable(out, name)?;
    put_pieces(out, &[b"\n"])
}

/// Puts bytes with a dot for each that isn't printable.
fn put_printable<O: Sink>(out: &mut O, name: &[u8]) -> Result<(), OutputFault>
    ensures { Puts O.tells (O.state out.old) (O.state out.new) (flat_map (λ byte. printable byte ∷ []) name.now) result }
{
    for byte in name {
        put_pieces(out, &[&[printable(*byte)]])?;
    }
    Ok(())
}

/// A byte of a name as it is printed.
fn printable(byte: u8) -> u8
    ensures { result ≡ printable byte }
{
    match byte {
        0x20..=0x7E => byte,
        _ => b'.',
    }
}

/// Puts the version, the type, and the base and size of the device.
#[tactic(auto, unfolding(crate::specs::Inspection::kind_text))]
fn put_kind<O: Sink>(out: &mut O, device: &Device) -> Result<(), OutputFault>
    ensures { Puts O.tells (O.state out.old) (O.state out.new) (kind_text device.now) result }
{
    let mut of_kind = Buffer::new();
    let mut of_size = Buffer::new();
    let version = hex_digits::<4>(u32::from(device.vers));
    let kind = of_kind.format(device.kind).as_bytes();
    let base = hex_digits::<8>(device.base);
    let size = of_size.format(device.size).as_bytes();
    put_pieces(
        out,
        &[
            b"version ",
            &version,
            b"\ntype ",
            kind,
            b"\ndevice ",
            &base,
            b" ",
            size,
            b"\n",
        ],
    )
}

/// Puts the page, the value of erased memory, the reserved field and the times.
#[tactic(auto, unfolding(crate::specs::Inspection::values_text))]
fn put_values<O: Sink>(out: &mut O, device: &Device) -> Result<(), OutputFault>
    ensures { Puts O.tells (O.state out.old) (O.state out.new) (values_text device.now) result }
{
    let mut of_page = Buffer::new();
    let mut of_prog = Buffer::new();
    let mut of_erase = Buffer::new();
    let page = of_page.format(device.page).as_bytes();
    let empty = hex_digits::<2>(u32::from(device.empty));
    let reserved = hex_digits::<8>(device.res);
    let prog = of_prog.format(device.to_prog).as_bytes();
    let erase = of_erase.format(device.to_erase).as_bytes();
    put_pieces(
        out,
        &[
            b"page ",
            page,
            b"\nempty ",
            &empty,
            b"\nreserved ",
            &reserved,
            b"\ntimes ",
            prog,
            b" ",
            erase,
            b"\n",
        ],
    )
}

/// Puts the number of sectors.
#[tactic(auto, unfolding(crate::specs::Inspection::count_text))]
fn put_count<O: Sink>(out: &mut O, algorithm: &Algorithm) -> Result<(), OutputFault>
    ensures { Puts O.tells (O.state out.old) (O.state out.new)
        (count_text (length (sectors (shape algorithm.now.device.size algorithm.now.device.page algorithm.now.items)))) result }
{
    let mut of_count = Buffer::new();
    let count = of_count.format(algorithm.sector_count()).as_bytes();
    put_pieces(out, &[b"sectors ", count, b"\n"])
}

/// Puts a line for each sector item.
fn put_items<O: Sink>(out: &mut O, items: &[SectorItem]) -> Result<(), OutputFault>
    ensures { Puts O.tells (O.state out.old) (O.state out.new) (flat_map item_text items.now) result }
{
    for item in items {
        put_item(out, *item)?;
    }
    Ok(())
}

/// Puts the line of a sector item.
#[tactic(auto, unfolding(crate::specs::Inspection::item_text))]
fn put_item<O: Sink>(out: &mut O, item: SectorItem) -> Result<(), OutputFault>
    ensures { Puts O.tells (O.state out.old) (O.state out.new) (item_text item) result }
{
    let mut of_size = Buffer::new();
    let offset = hex_digits::<8>(item.offset);
    let size = of_size.format(item.size).as_bytes();
    put_pieces(out, &[b"item ", &offset, b" ", size, b"\n"])
}

/// Puts the lengths of code, data and zeroed data.
#[tactic(auto, unfolding(crate::specs::Inspection::parts_text))]
fn put_parts<O: Sink>(out: &mut O, algorithm: &Algorithm) -> Result<(), OutputFault>
    ensures { Puts O.tells (O.state out.old) (O.state out.new)
        (parts_text (length algorithm.now.code) (length algorithm.now.init_data) algorithm.now.zero_len) result }
{
    let mut of_code = Buffer::new();
    let mut of_data = Buffer::new();
    let mut of_zero = Buffer::new();
    let code = of_code.format(algorithm.code.len()).as_bytes();
    let init_data = of_data.format(algorithm.init_data.len()).as_bytes();
    let zeroed = of_zero.format(algorithm.zero_len).as_bytes();
    put_pieces(
        out,
        &[
            b"code ", code, b" data ", init_data, b" zero ", zeroed, b"\n",
        ],
    )
}

/// Puts the lines of the functions.
fn put_entries<O: Sink>(out: &mut O, entries: &Entries) -> Result<(), OutputFault>
    ensures { Puts O.tells (O.state out.old) (O.state out.new) (entries_text entries.now) result }
{
    put_entry(out, Name::Init, entries.init)?;
    put_entry(out, Name::UnInit, entries.uninit)?;
    put_entry(out, Name::EraseSector, entries.erase_sector)?;
    put_entry(out, Name::ProgramPage, entries.program_page)?;
    put_optional_entry(out, Name::EraseChip, entries.erase_chip)?;
    put_optional_entry(out, Name::Verify, entries.verify)
}

/// Puts the line of a function.
#[tactic(auto, unfolding(crate::specs::Inspection::entry_text))]
fn put_entry<O: Sink>(out: &mut O, name: Name, place: u32) -> Result<(), OutputFault>
    ensures { Puts O.tells (O.state out.old) (O.state out.new) (entry_text name place) result }
{
    let place = hex_digits::<8>(place);
    put_pieces(out, &[b"entry ", name.text(), b" ", &place, b"\n"])
}

/// Puts the line of a function that may be absent.
fn put_optional_entry<O: Sink>(
    out: &mut O,
    name: Name,
    place: Option<u32>,
) -> Result<(), OutputFault>
    ensures { Puts O.tells (O.state out.old) (O.state out.new) (optional_entry_text name place) result }
{
    match place {
        None => Ok(()),
        Some(place) => put_entry(out, name, place),
    }
}
