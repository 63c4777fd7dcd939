//! Texts by hand, by the rules of the format.

use crate::expect::expect;
use crate::images::maps::expect_read;
use image_hex::{HexFault, HexKind, read_hex};

/// Addresses after a segment's end wrap within its 64 KiB.
#[test]
fn a_segment_wraps(rt: HostRuntime) {
    let text = b":020000021000EC\n:04FFFE0001020304F5\n:00000001FF\n";
    let bytes = [(0x1FFFE, 1), (0x1FFFF, 2), (0x10000, 3), (0x10001, 4)];
    expect_read(&rt, read_hex(rt.alloc(), text), 2, &bytes);
}

/// Bases replace one another. Addresses go on modulo 2^32. Lines may be blank or end in blanks and CR LF. Digits have either case. Equal
/// bytes may be given twice. Start addresses are ignored, and what follows the end record isn't read.
#[test]
fn bases_blanks_and_what_is_ignored(rt: HostRuntime) {
    let text =
        b"\r\n:0100000055AA \t\r\n:020000040800F2\r\n:0100000055aa\n\n:04000003000000c039\n:04000005080000C12E\n:020000021000EC\n:01FFFF00669B\n:02000004FFFFFC\n:02FFFF00775534\n:00000001FF\nhello";
    let bytes = [
        (0, 0x55),
        (0x0800_0000, 0x55),
        (0x1FFFF, 0x66),
        (0xFFFF_FFFF, 0x77),
    ];
    expect_read(&rt, read_hex(rt.alloc(), text), 4, &bytes);
}

/// Each refusal, at its line.
#[test]
fn each_fault_at_its_line(rt: HostRuntime) {
    let cases: [(&[u8], u32, HexKind); 7] = [
        (b"\n hello", 2, HexKind::NotRecord),
        (b":0G", 1, HexKind::BadDigit),
        (b":0100000055", 1, HexKind::BadLength),
        (
            b":0100000055AB",
            1,
            HexKind::BadSum {
                said: 0xAB,
                due: 0xAA,
            },
        ),
        (b":00000006FA", 1, HexKind::BadType { value: 6 }),
        (
            b":0100000055AA\n:010000006699\n",
            2,
            HexKind::Conflict {
                at: 0,
                old: 0x55,
                new: 0x66,
            },
        ),
        (b":0100000055AA\n\n", 2, HexKind::NoEnd),
    ];
    for (text, line, kind) in &cases {
        let (line, kind) = (*line, *kind);
        let fault = read_hex(rt.alloc(), text).err();
        expect(&rt, fault, Some(HexFault { line, kind }));
    }
}
