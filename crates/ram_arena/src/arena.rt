//! Windows of bytes, in one allocation.
ghost use Rattle.std.specs.Prelude.{◌≡◌, ◌≤◌, ◌<◌, ◌+◌, ◌^◌, [], length, replicate, slice_index, slice_index_or, slice_set, IfOk};
ghost use Rattle.ram_arena.specs.Windows.{total, round_up, begin_of, blank, laid};
ghost use Rattle.ram_arena.specs.Words.{word16, word32, with16, with32};

use crate::bytes::Bytes;
use crate::window::Window;
use faults::OutOfMemory;
use std::alloc::Global;
use std::marker::Model;

/// Windows of bytes in one allocation, which is freed with the arena. A contract sees a list of windows, each a list of its bytes.
#[derive(Drop)]
pub struct Arena {
    bytes: Bytes,
    windows: Vec<Window>,
}

impl Model for Arena {
    ghost use Rattle.std.specs.Prelude.{◌≡◌, ◌≤◌, ◌^◌, ℕ, List, length};
    ghost use Rattle.ram_arena.specs.Windows.{cut, sizes_of, total, LieFrom};

    ghost Value = { List (List ℕ) };

    ghost view = { λ a. cut (sizes_of a.windows.items) a.bytes };

    ghost invariant = { λ a. (total (sizes_of a.windows.items) ≡ length a.bytes) × LieFrom 0 a.windows.items × (length a.bytes ≤ 2 ^ 30) };
}

/// The least multiple of 8 that is at least `size`.
fn round_up(size: u32) -> usize
    ensures { result ≡ round_up size }
{
    (size as usize + 7) / 8 * 8
}

impl Arena {
    /// Windows of these sizes, with zero bytes. There are at most 64, and their sizes, each rounded up to a multiple of 8, sum to at most
    /// 2^30.
    pub fn new(alloc: Global, sizes: &[u32]) -> Result<Arena, OutOfMemory>
        requires windows { length sizes.now ≤ 64 }
        requires bytes { total sizes.now ≤ 2 ^ 30 }
        ensures { IfOk result (λ arena. arena ≡ blank sizes.now) }
    {
        let mut windows = Vec::with_capacity(alloc, sizes.len())?;
        let mut from = 0;
        for index in 0..sizes.len() {
            let size = sizes[index];
            windows.push(Window {
                from,
                size: size as usize,
            })?;
            from += round_up(size);
        }
        let bytes = Bytes::zeroed(alloc, from)?;
        Ok(Arena { bytes, windows })
    }

    /// The byte at a place of a window.
    pub fn load8(&self, window: usize, offset: u32) -> u32
        requires window { window < length self.now }
        requires range { offset + 1 ≤ length (slice_index_or self.now window []) }
        ensures value { result ≡ slice_index (slice_index_or self.now window []) offset }
        ensures fits { result < 2 ^ 8 }
    {
        self.bytes
            .load8(self.windows[window].from + offset as usize)
    }

    /// The two bytes from a place of a window on, little-endian.
    pub fn load16(&self, window: usize, offset: u32) -> u32
        requires window { window < length self.now }
        requires range { offset + 2 ≤ length (slice_index_or self.now window []) }
        ensures value { result ≡ word16 (slice_index_or self.now window []) offset }
        ensures fits { result < 2 ^ 16 }
    {
        self.bytes
            .load16(self.windows[window].from + offset as usize)
    }

    /// The four bytes from a place of a window on, little-endian.
    pub fn load32(&self, window: usize, offset: u32) -> u32
        requires window { window < length self.now }
        requires range { offset + 4 ≤ length (slice_index_or self.now window []) }
        ensures value { result ≡ word32 (slice_index_or self.now window []) offset }
    {
        self.bytes
            .load32(self.windows[window].from + offset as usize)
    }

    /// Stores a byte at a place of a window.
    pub fn store8(&mut self, window: usize, offset: u32, value: u32)
        requires window { window < length self.old }
        requires range { offset + 1 ≤ length (slice_index_or self.old window []) }
        requires fits { value < 2 ^ 8 }
        ensures { self.new ≡ slice_set self.old window (slice_set (slice_index_or self.old window []) offset value) }
    {
        let at = self.windows[window].from + offset as usize;
        self.bytes.store8(at, value);
    }

    /// Stores two bytes from a place of a window on, little-endian.
    pub fn store16(&mut self, window: usize, offset: u32, value: u32)
        requires window { window < length self.old }
        requires range { offset + 2 ≤ length (slice_index_or self.old window []) }
        requires fits { value < 2 ^ 16 }
        ensures { self.new ≡ slice_set self.old window (with16 (slice_index_or self.old window []) offset value) }
    {
        let at = self.windows[window].from + offset as usize;
        self.bytes.store16(at, value);
    }

    /// Stores four bytes from a place of a window on, little-endian.
    pub fn store32(&mut self, window: usize, offset: u32, value: u32)
        requires window { window < length self.old }
        requires range { offset + 4 ≤ length (slice_index_or self.old window []) }
        ensures { self.new ≡ slice_set self.old window (with32 (slice_index_or self.old window []) offset value) }
    {
        let at = self.windows[window].from + offset as usize;
        self.bytes.store32(at, value);
    }

    /// Where a window begins.
    pub fn begin(&self, window: usize) -> usize
        requires { window < length self.now }
        ensures { result ≡ begin_of self.now window }
    {
        self.windows[window].from
    }

    /// The byte at a place of a window that begins at `from`.
    pub fn load8_from(&self, from: usize, window: usize, offset: usize) -> u32
        requires from { from ≡ begin_of self.now window }
        requires window { window < length self.now }
        requires range { offset + 1 ≤ length (slice_index_or self.now window []) }
        ensures value { result ≡ slice_index (slice_index_or self.now window []) offset }
        ensures fits { result < 2 ^ 8 }
    {
        self.bytes.load8(from + offset)
    }

    /// The two bytes from a place of a window on, little-endian. The window begins at `from`.
    pub fn load16_from(&self, from: usize, window: usize, offset: usize) -> u32
        requires from { from ≡ begin_of self.now window }
        requires window { window < length self.now }
        requires range { offset + 2 ≤ length (slice_index_or self.now window []) }
        ensures value { result ≡ word16 (slice_index_or self.now window []) offset }
        ensures fits { result < 2 ^ 16 }
    {
        self.bytes.load16(from + offset)
    }

    /// The four bytes from a place of a window on, little-endian. The window begins at `from`.
    pub fn load32_from(&self, from: usize, window: usize, offset: usize) -> u32
        requires from { from ≡ begin_of self.now window }
        requires window { window < length self.now }
        requires range { offset + 4 ≤ length (slice_index_or self.now window []) }
        ensures value { result ≡ word32 (slice_index_or self.now window []) offset }
    {
        self.bytes.load32(from + offset)
    }

    /// Stores a byte at a place of a window that begins at `from`.
    pub fn store8_from(&mut self, from: usize, window: usize, offset: usize, value: u32)
        requires from { from ≡ begin_of self.old window }
        requires window { window < length self.old }
        requires range { offset + 1 ≤ length (slice_index_or self.old window []) }
        requires fits { value < 2 ^ 8 }
        ensures set { self.new ≡ slice_set self.old window (slice_set (slice_index_or self.old window []) offset value) }
        ensures begin { begin_of self.new window ≡ begin_of self.old window }
    {
        self.bytes.store8(from + offset, value);
    }

    /// Stores two bytes from a place of a window on, little-endian. The window begins at `from`.
    pub fn store16_from(&mut self, from: usize, window: usize, offset: usize, value: u32)
        requires from { from ≡ begin_of self.old window }
        requires window { window < length self.old }
        requires range { offset + 2 ≤ length (slice_index_or self.old window []) }
        requires fits { value < 2 ^ 16 }
        ensures set { self.new ≡ slice_set self.old window (with16 (slice_index_or self.old window []) offset value) }
        ensures begin { begin_of self.new window ≡ begin_of self.old window }
    {
        self.bytes.store16(from + offset, value);
    }

    /// Stores four bytes from a place of a window on, little-endian. The window begins at `from`.
    pub fn store32_from(&mut self, from: usize, window: usize, offset: usize, value: u32)
        requires from { from ≡ begin_of self.old window }
        requires window { window < length self.old }
        requires range { offset + 4 ≤ length (slice_index_or self.old window []) }
        ensures set { self.new ≡ slice_set self.old window (with32 (slice_index_or self.old window []) offset value) }
        ensures begin { begin_of self.new window ≡ begin_of self.old window }
    {
        self.bytes.store32(from + offset, value);
    }

    /// Sets each byte of a window to this value.
    pub fn fill(&mut self, window: usize, value: u8)
        requires { window < length self.old }
        ensures { self.new ≡ slice_set self.old window (replicate (length (slice_index_or self.old window [])) value) }
    {
        let size = self.windows[window].size;
        for offset in 0..size {
            self.store8(window, offset as u32, u32::from(value));
        }
    }

    /// Copies bytes into a window, from a place on.
    pub fn copy_in(&mut self, window: usize, offset: u32, bytes: &[u8])
        requires window { window < length self.old }
        requires range { offset + length bytes.now ≤ length (slice_index_or self.old window []) }
        ensures { self.new ≡ slice_set self.old window (laid offset bytes.now (slice_index_or self.old window [])) }
    {
        // a window is short enough that its places are numbers of 32 bits
        let _size = self.windows[window].size;
        for i in 0..bytes.len() {
            self.store8(window, offset + i as u32, u32::from(bytes[i]));
        }
    }
}
