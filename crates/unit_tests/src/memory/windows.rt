//! Windows of an arena: each has its own bytes.

ghost use Rattle.std.specs.Prelude.{◌<◌, ◌≤◌, [], length, slice_index_or};

use crate::expect::expect_all;
use ram_arena::Arena;
use std::test::Fail;

// Whether the first bytes of a window are zero.
fn is_blank(arena: &Arena, window: usize, size: u32) -> bool
    requires window { window < length arena.now }
    requires size { size ≤ length (slice_index_or arena.now window []) }
{
    for offset in 0..size {
        if arena.load8(window, offset) != 0 {
            return false;
        }
    }
    true
}

#[test]
fn a_word_at_the_end_of_the_last_window(rt: HostRuntime) -> Result<(), Fail> {
    let mut arena = Arena::new(rt.alloc(), &[256, 0, 512])?;
    arena.store32(2, 508, 0x01020304);
    let seen = [
        is_blank(&arena, 0, 256),
        is_blank(&arena, 2, 508),
        arena.load8(2, 508) == 4,
        arena.load8(2, 509) == 3,
        arena.load8(2, 510) == 2,
        arena.load8(2, 511) == 1,
    ];
    expect_all(&rt, &seen);
    Ok(())
}

#[test]
fn filled_and_copied_bytes_stay_in_their_window(rt: HostRuntime) -> Result<(), Fail> {
    let mut arena = Arena::new(rt.alloc(), &[3, 8, 5])?;
    arena.fill(1, 0xA5);
    arena.copy_in(1, 6, &[1, 2]);
    let seen = [
        is_blank(&arena, 0, 3),
        is_blank(&arena, 2, 5),
        arena.load8(1, 0) == 0xA5,
        arena.load16(1, 5) == 0x01A5,
        arena.load32(1, 4) == 0x0201A5A5,
    ];
    expect_all(&rt, &seen);
    Ok(())
}
