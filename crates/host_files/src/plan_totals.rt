//! How many cells a plan erases and programs, read from its text.

/// What a line of a plan asks for.
#[derive(Clone, Copy)]
enum Action {
    Erase,
    Program,
    // it names one of several regions
    Region,
    Other,
}

impl Action {
    /// What a line that begins with this byte asks for.
    fn of(first: u8) -> Action {
        match first {
            b'e' => Action::Erase,
            b'p' => Action::Program,
            b'r' => Action::Region,
            _ => Action::Other,
        }
    }
}

/// The cells that a plan erases and programs, summed up while pieces of its text go by. A line that begins with `erase` or `program` has an
/// address and then a number of cells. Only `erase chip` has none: it counts for all cells of the device. On a board of two regions, which
/// are two chips, it counts for none.
#[derive(Clone, Copy)]
pub struct PlanTotals {
    pub erased: u64,
    pub programmed: u64,
    // the cells of the chip
    cells: u64,
    // the current line: what it asks for, once its first byte is known; its blanks so far; and the number after the second blank
    action: Option<Action>,
    blanks: u32,
    number: u64,
}

impl PlanTotals {
    /// The totals before any text.
    pub fn new() -> PlanTotals {
        PlanTotals {
            erased: 0,
            programmed: 0,
            cells: 0,
            action: None,
            blanks: 0,
            number: 0,
        }
    }

    /// Takes the device to have this number of cells.
    pub fn set_cells(&mut self, cells: u64) {
        self.cells = cells;
    }

    /// Follows a piece of the text.
    pub fn pass(&mut self, piece: &[u8]) {
        for byte in piece {
            match *byte {
                b'\n' => self.end_line(),
                byte => self.pass_byte(byte),
            }
        }
    }

    /// How much of the plan is done with these cells, in percent. It isn't known if more is done than the text said: if one chip of two is
    /// erased whole, or if there was no such text.
    pub fn percent(&self, erased: u64, programmed: u64) -> Option<u64> {
        let all = self.erased.saturating_add(self.programmed);
        if all == 0 || erased > self.erased || programmed > self.programmed {
            return None;
        }
        Some(erased.saturating_add(programmed).saturating_mul(100) / all)
    }

    /// Follows a byte within a line.
    fn pass_byte(&mut self, byte: u8) {
        if self.action.is_none() {
            self.action = Some(Action::of(byte));
        }
        match byte {
            b' ' => self.blanks = self.blanks.saturating_add(1),
            b'0'..=b'9' if self.blanks == 2 => {
                let digit = u64::from(byte - b'0');
                self.number = self.number.saturating_mul(10).saturating_add(digit);
            }
            _ => {}
        }
    }

    /// Adds the numbers of a line.
    fn end_line(&mut self) {
        match self.action {
            Some(Action::Erase) if self.blanks == 1 => {
                self.erased = self.erased.saturating_add(self.cells);
            }
            Some(Action::Erase) => self.erased = self.erased.saturating_add(self.number),
            Some(Action::Program) => self.programmed = self.programmed.saturating_add(self.number),
            Some(Action::Region) => self.cells = 0,
            Some(Action::Other) | None => {}
        }
        self.action = None;
        self.blanks = 0;
        self.number = 0;
    }
}
