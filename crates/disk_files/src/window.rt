//! Cells that were read ahead.
ghost use Rattle.std.specs.Prelude.{◌≡◌, ◌≤◌, ◌+◌, ◌++◌, ℕ, List, length, take, drop, vec_len, IfSome, IsTrue, false};
ghost use Rattle.bench_model.specs.Calls.{Torn};
ghost use Rattle.disk_files.specs.Window.{IsCopy};

use crate::lay::settle;
use std::alloc::Global;

/// The most cells that a window has.
pub const WINDOW: usize = 4096;

/// A copy of consecutive cells: the first `len` bytes are those from the place `at` on.
#[derive(Drop)]
pub struct Window {
    pub at: u64,
    pub len: usize,
    pub bytes: Vec<u8>,
    ghost fits: { len ≤ vec_len bytes },
}

impl Window {
    /// A window with no cells. If memory runs out here, it never gets any.
    pub fn new(alloc: Global) -> Window
        ensures { result.len ≡ 0 }
    {
        Window {
            at: 0,
            len: 0,
            bytes: match vec![in alloc; 0; WINDOW] {
                Ok(bytes) => bytes,
                Err(_) => Vec::new(alloc),
            },
        }
    }

    /// Drops its cells.
    pub fn clear(&mut self)
        ensures len { self.new.len ≡ 0 }
        ensures bytes { self.new.bytes ≡ self.old.bytes }
    {
        self.len = 0;
    }

    /// The index in the window of its cells from the place `at` on, if it has `count` of them.
    #[inline(always)]
    fn index(&self, at: u64, count: usize) -> Option<usize>
        ensures within { IfSome result (λ index. index + count ≤ self.now.len) }
        ensures place { IfSome result (λ index. self.now.at + index ≡ at) }
    {
        let skip = at.checked_sub(self.at)?;
        if skip > self.len as u64 || count > self.len - skip as usize {
            return None;
        }
        Some(skip as usize)
    }

    /// Fills `out` with the cells from the place `at` on and answers true, if the window has them all. Otherwise `out` is unchanged.
    #[inline(always)]
    pub fn copy(&self, at: u64, out: &mut [u8]) -> bool
        ensures whole { (held : List ℕ) → IsCopy self.now.at self.now.len self.now.bytes.items held → IsTrue result
            → out.new ≡ take (length out.old) (drop at held) }
        ensures stays { result ≡ false → out.new ≡ out.old }
    {
        match self.index(at, out.len()) {
            Some(index) => {
                out.copy_from_slice(&self.bytes[index..index + out.len()]);
                true
            }
            None => false,
        }
    }

    /// Follows a write of these bytes from the place `at` on. If the window doesn't have all these cells, it drops its own.
    pub fn follow(&mut self, at: u64, bytes: &[u8])
        ensures { (n : ℕ) (old new : List ℕ) → n ≡ length bytes.now → IsCopy self.old.at self.old.len self.old.bytes.items old
            → take (at + n) new ≡ take at old ++ take n bytes.now → Torn at (length bytes.now) old new
            → IsCopy self.new.at self.new.len self.new.bytes.items new }
    {
        match self.index(at, bytes.len()) {
            Some(index) => settle(&mut self.bytes, index, bytes),
            None => self.clear(),
        }
    }
}
