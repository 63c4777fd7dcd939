//! Texts by hand, by the rules of the format.

use crate::expect::expect;
use crate::images::maps::expect_read;
use image_srec::{SrecFault, SrecKind, read_srec};

/// Each width of address, digits of either case, blank lines, counts, a header, and what follows the end record.
#[test]
fn three_widths_of_addresses(rt: HostRuntime) {
    let text =
        b"S0030000FC\r\nS107000001020304EE\n\nS5030001FB \t\nS20501000055a4\nS306FFFFFFFF6697\r\nS604000003F8\nS107000001020304EE\nS9030000FC\nhello";
    let bytes = [(0, 1), (3, 4), (0x01_0000, 0x55), (0xFFFF_FFFF, 0x66)];
    expect_read(&rt, read_srec(rt.alloc(), text), 3, &bytes);
}

/// Each refusal, at its line.
#[test]
fn each_fault_at_its_line(rt: HostRuntime) {
    let cases: [(&[u8], u32, SrecKind); 9] = [
        (b"\nS", 2, SrecKind::NotRecord),
        (b"S10G", 1, SrecKind::BadDigit),
        (b"S4030000FC", 1, SrecKind::BadType { value: 4 }),
        (b"S1030000FC0", 1, SrecKind::BadLength),
        (
            b"S1030000FB",
            1,
            SrecKind::BadSum {
                said: 0xFB,
                due: 0xFC,
            },
        ),
        (
            b"S308FFFFFFFE010203F6",
            1,
            SrecKind::PastEnd { at: 0xFFFF_FFFE },
        ),
        (
            b"S107000001020304EE\nS5030002FA\nS9030000FC",
            2,
            SrecKind::CountDiffers { said: 2, seen: 1 },
        ),
        (
            b"S107000001020304EE\nS1040001FFFB",
            2,
            SrecKind::Conflict {
                at: 1,
                old: 2,
                new: 0xFF,
            },
        ),
        (b"S107000001020304EE\n\n", 2, SrecKind::NoEnd),
    ];
    for (text, line, kind) in &cases {
        let (line, kind) = (*line, *kind);
        let fault = read_srec(rt.alloc(), text).err();
        expect(&rt, fault, Some(SrecFault { line, kind }));
    }
}
