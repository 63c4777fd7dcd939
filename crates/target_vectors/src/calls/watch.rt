//! A bench that counts the operations that are opened on it.

ghost use Rattle.std.specs.Prelude.{◌≡◌};

use bench_model::{Bench, DeviceFault, StoreFault};

/// A range of cells: the place of the first one, and how many there are.
#[derive(Clone, Copy)]
pub struct Area {
    pub at: u32,
    pub len: u32,
}

impl Area {
    /// No cells.
    pub const NONE: Area = Area { at: 0, len: 0 };

    /// Whether this range lies in another one.
    fn is_in(self, area: Area) -> bool {
        let end = u64::from(self.at) + u64::from(self.len);
        self.at >= area.at && end <= u64::from(area.at) + u64::from(area.len)
    }
}

/// A bench that counts what is opened on it.
#[derive(Drop)]
pub struct Watch<B> {
    pub inner: B,
    area: Area,
    /// The operation that is open.
    pub open: Option<Area>,
    /// How many operations were open at some moment since the area was given, and how many of these reach out of it.
    pub opened: u32,
    pub outside: u32,
}

impl<B> Watch<B> {
    /// Watches a bench on which nothing is open.
    pub fn new(inner: B) -> Watch<B>
        ensures { result.inner ≡ inner }
    {
        Watch {
            inner,
            area: Area::NONE,
            open: None,
            opened: 0,
            outside: 0,
        }
    }

    /// Starts new counts: of what is open and what is opened from now on, in or out of an area.
    pub fn watch(&mut self, area: Area)
        ensures { self.new.inner ≡ self.old.inner }
    {
        self.area = area;
        self.opened = 0;
        self.outside = 0;
        if let Some(open) = self.open {
            self.note(open);
        }
    }

    /// Counts an operation that is open.
    fn note(&mut self, open: Area)
        ensures { self.new.inner ≡ self.old.inner }
    {
        self.open = Some(open);
        self.opened = self.opened.saturating_add(1);
        if !open.is_in(self.area) {
            self.outside = self.outside.saturating_add(1);
        }
    }
}

impl<B: Bench> Bench for Watch<B> {
    ghost tells = { B.tells };

    ghost state = { λ w. B.state w.inner };

    ghost acts = { λ before act after. B.acts before.inner act after.inner };

    ghost as_read = { λ w told. B.as_read w.inner told };

    ghost as_told = { λ w cells told. B.as_told w.inner cells told };

    ghost all_told = { λ w told. B.all_told w.inner told };

    ghost bytes = { λ w told. B.bytes w.inner told };

    ghost few = { λ w. B.few w.inner };

    ghost inside = { λ w told. B.inside w.inner told };

    fn file_len(&mut self) -> Result<u64, StoreFault> {
        self.inner.file_len()
    }

    fn file_read(&mut self, at: u64, out: &mut [u8]) -> Result<(), StoreFault> {
        self.inner.file_read(at, out)
    }

    fn file_write(&mut self, at: u64, bytes: &[u8]) -> Result<(), StoreFault> {
        self.inner.file_write(at, bytes)
    }

    fn file_cut(&mut self, len: u64) -> Result<(), StoreFault> {
        self.inner.file_cut(len)
    }

    fn file_sync(&mut self) -> Result<(), StoreFault> {
        self.inner.file_sync()
    }

    fn cells_len(&self) -> u32 {
        self.inner.cells_len()
    }

    fn cells_read(&mut self, at: u32, out: &mut [u8]) -> Result<(), DeviceFault> {
        self.inner.cells_read(at, out)
    }

    fn cells_open(&mut self, at: u32, len: u32) -> Result<(), DeviceFault> {
        let result = self.inner.cells_open(at, len);
        if result.is_ok() {
            self.note(Area { at, len });
        }
        result
    }

    fn cells_settle(&mut self, bytes: &[u8]) -> Result<(), DeviceFault> {
        let result = self.inner.cells_settle(bytes);
        if result.is_ok() {
            self.open = None;
        }
        result
    }

    fn cells_settle_fill(&mut self, value: u8) -> Result<(), DeviceFault> {
        let result = self.inner.cells_settle_fill(value);
        if result.is_ok() {
            self.open = None;
        }
        result
    }

    fn cells_drop(&mut self) -> Result<(), DeviceFault> {
        let result = self.inner.cells_drop();
        if result.is_ok() {
            self.open = None;
        }
        result
    }
}
