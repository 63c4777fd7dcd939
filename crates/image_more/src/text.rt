//! Images as texts of records.
ghost use Rattle.std.specs.Prelude.{◌≡◌, ◌≤◌, ◌+◌, ◌^◌, length, OnOk};
ghost use Rattle.image_more.specs.Rows.{run_rows, rows_of};
ghost use Rattle.image_more.specs.Texts.{row_lines, rows_lines, upper_lines, text_of, hex_text, srec_text};
ghost use Rattle.image_more.specs.Behind.{form_behind};
ghost use Rattle.outside_io.specs.Gathers.{Gathers};
ghost use Rattle.outside_io.specs.Puts.{Puts};

use crate::form::RowForm;
use crate::line::{gather_hex_line, gather_srec_line};
use byte_map::ByteMap;
use outside_io::{Gathered, OutputFault, Sink};

/// How many addresses a row has at most.
const ROW: u32 = 16;

/// Puts an image as Intel HEX. Each run is cut at every address that is a multiple of 16, and has its data records in rising order.
/// A record of type 04 comes before a data record if the upper half of its address is the first or has changed. The end record is
/// last. Lines end with a line feed. A fault may leave a beginning of the text. It goes out in pieces of up to 4,096 bytes, and takes
/// no memory.
pub fn write_hex<O: Sink>(map: &ByteMap, out: &mut O) -> Result<(), OutputFault>
    ensures { Puts O.tells (O.state out.old) (O.state out.new) (hex_text map.now) result }
{
    let mut text = Gathered::new();
    gather_hex(out, &mut text, map)?;
    text.put(out)
}

/// Puts an image as S-records: an empty header, the S3 records, and the end record. Each run is cut at every address that is a multiple
/// of 16, and has its S3 records in rising order. Lines end with a line feed. A fault may leave a beginning of the text. It goes out in
/// pieces of up to 4,096 bytes, and takes no memory.
pub fn write_srec<O: Sink>(map: &ByteMap, out: &mut O) -> Result<(), OutputFault>
    ensures { Puts O.tells (O.state out.old) (O.state out.new) (srec_text map.now) result }
{
    let mut text = Gathered::new();
    gather_srec(out, &mut text, map)?;
    text.put(out)
}

/// Puts the records of one run of an image, in the rows in which the text of the whole image has them. `form` says which rows were put before,
/// and then which come after. A fault may leave a beginning of the records. It takes no memory.
pub fn write_run<O: Sink>(
    out: &mut O,
    form: &mut RowForm,
    at: u32,
    bytes: &[u8],
) -> Result<(), OutputFault>
    requires { at + length bytes.now ≤ 2 ^ 32 }
    ensures puts { Puts O.tells (O.state out.old) (O.state out.new) (text_of (rows_lines form.old (run_rows at bytes.now))) result }
    ensures known { OnOk result (form.new ≡ form_behind form.old (run_rows at bytes.now)) }
{
    let mut text = Gathered::new();
    gather_run(out, &mut text, form, at, bytes)?;
    text.put(out)
}

/// Gathers the whole text of an image as Intel HEX.
#[tactic(auto, unfolding(crate::specs::Texts::hex_lines))]
fn gather_hex<O: Sink>(out: &mut O, text: &mut Gathered, map: &ByteMap) -> Result<(), OutputFault>
    ensures { Gathers O.tells (O.state out.old) (O.state out.new) text.old text.new (hex_text map.now) result }
{
    gather_rows(out, text, RowForm::Hex { upper: None }, map)?;
    text.add(out, b":00000001FF\n")
}

/// Gathers the whole text of an image as S-records.
#[tactic(auto, unfolding(crate::specs::Texts::srec_lines))]
fn gather_srec<O: Sink>(out: &mut O, text: &mut Gathered, map: &ByteMap) -> Result<(), OutputFault>
    ensures { Gathers O.tells (O.state out.old) (O.state out.new) text.old text.new (srec_text map.now) result }
{
    text.add(out, b"S0030000FC\n")?;
    gather_rows(out, text, RowForm::Srec, map)?;
    text.add(out, b"S70500000000FA\n")
}

/// Gathers the lines of the rows of an image.
fn gather_rows<O: Sink>(
    out: &mut O,
    text: &mut Gathered,
    first: RowForm,
    map: &ByteMap,
) -> Result<(), OutputFault>
    ensures { Gathers O.tells (O.state out.old) (O.state out.new) text.old text.new (text_of (rows_lines first (rows_of map.now))) result }
{
    let mut form = first;
    for index in 0..map.runs() {
        let (at, bytes) = map.run(index);
        gather_run(out, text, &mut form, at, bytes)?;
    }
    Ok(())
}

/// Gathers the lines of the rows of one run.
fn gather_run<O: Sink>(
    out: &mut O,
    text: &mut Gathered,
    form: &mut RowForm,
    at: u32,
    bytes: &[u8],
) -> Result<(), OutputFault>
    requires { at + length bytes.now ≤ 2 ^ 32 }
    ensures text { Gathers O.tells (O.state out.old) (O.state out.new) text.old text.new (text_of (rows_lines form.old (run_rows at bytes.now))) result }
    ensures known { OnOk result (form.new ≡ form_behind form.old (run_rows at bytes.now)) }
{
    let mut from = 0;
    while from < bytes.len() {
        let place = at + from as u32;
        let count = ((ROW - place % ROW) as usize).min(bytes.len() - from);
        let row = &bytes[from..from + count];
        gather_row(out, text, *form, place, row)?;
        *form = form.behind(place, row);
        from += count;
    }
    Ok(())
}

/// Gathers the lines of a row.
fn gather_row<O: Sink>(
    out: &mut O,
    text: &mut Gathered,
    form: RowForm,
    at: u32,
    bytes: &[u8],
) -> Result<(), OutputFault>
    requires { length bytes.now ≤ 16 }
    ensures { Gathers O.tells (O.state out.old) (O.state out.new) text.old text.new (text_of (row_lines form (record { at = at; bytes = bytes.now }))) result }
{
    match form {
        RowForm::Hex { upper } => {
            gather_upper(out, text, upper, (at / 65_536) as u16)?;
            gather_hex_line(out, text, 0, (at % 65_536) as u16, bytes)
        }
        RowForm::Srec => gather_srec_line(out, text, at, bytes),
    }
}

/// Gathers the record of type 04 with an upper half, if it is the first or differs from the one before.
fn gather_upper<O: Sink>(
    out: &mut O,
    text: &mut Gathered,
    before: Option<u16>,
    upper: u16,
) -> Result<(), OutputFault>
    ensures { Gathers O.tells (O.state out.old) (O.state out.new) text.old text.new (text_of (upper_lines before upper)) result }
{
    match before {
        Some(before) if before == upper => Ok(()),
        _ => gather_hex_line(out, text, 4, 0, &[(upper / 256) as u8, (upper % 256) as u8]),
    }
}
