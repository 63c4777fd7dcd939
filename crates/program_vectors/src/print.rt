//! Lines that are printed piece by piece. No call reports a failed print, since the comparison of the output shows what is missing.

use std::fmt::Display;

/// A piece of a line: a text, or a text with a number after it. A number in hexadecimal digits has at least as many digits as the variant's
/// name says.
#[derive(Clone, Copy)]
pub enum Piece<'a> {
    Text(&'a str),
    Number(&'a str, u32),
    Count(&'a str, usize),
    Place(&'a str, Option<u32>),
    Hex2(&'a str, u8),
    Hex4(&'a str, u16),
    Hex5(&'a str, u32),
    Hex6(&'a str, u32),
    Hex8(&'a str, u32),
}

/// Prints a piece.
fn put_piece(rt: &HostRuntime, piece: &Piece) {
    let _ = match piece {
        Piece::Text(text) => print!(rt; "{text}"),
        Piece::Number(text, number) => print!(rt; "{text}{number}"),
        Piece::Count(text, number) => print!(rt; "{text}{number}"),
        Piece::Place(text, place) => print!(rt; "{text}{place:?}"),
        Piece::Hex2(text, number) => print!(rt; "{text}{number:02X}"),
        Piece::Hex4(text, number) => print!(rt; "{text}{number:04X}"),
        Piece::Hex5(text, number) => print!(rt; "{text}{number:05X}"),
        Piece::Hex6(text, number) => print!(rt; "{text}{number:06X}"),
        Piece::Hex8(text, number) => print!(rt; "{text}{number:08X}"),
    };
}

/// Prints pieces one after the other.
pub fn put(rt: &HostRuntime, pieces: &[Piece]) {
    for piece in pieces {
        put_piece(rt, piece);
    }
}

/// Prints a line.
pub fn put_line(rt: &HostRuntime, text: &str) {
    let _ = println!(rt; "{text}");
}

/// Prints why something is refused, and then the line's end.
pub fn put_fault<F: Display + Drop>(rt: &HostRuntime, fault: F) {
    let _ = println!(rt; "{fault}");
}
