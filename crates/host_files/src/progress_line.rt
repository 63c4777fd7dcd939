//! A line on the terminal that shows how far a call has come.

use crate::plan_totals::PlanTotals;
use std::cell::Cell;
use std::io::{IsTerminal, Print};
use std::rc::Rc;
use std::time::{Duration, Instant};

/// The least time between two texts of the line, in milliseconds.
const INTERVAL: u64 = 100;

/// Clears the line of the terminal that the cursor is on.
const CLEAR: &str = "\r\x1b[K";

/// Goes back to the line that is shown, and clears it.
const BACK: &str = "\x1b[A\r\x1b[K";

/// What all holders of one line share.
#[derive(Drop)]
struct Shared {
    rt: HostRuntime,
    erased: Cell<u64>,
    programmed: Cell<u64>,
    lists: Cell<u64>,
    calls: Cell<u64>,
    plan: Cell<PlanTotals>,
    is_shown: Cell<bool>,
    last: Cell<Option<Instant>>,
}

impl Shared {
    /// Whether the line may be rewritten now.
    fn is_due(&self) -> bool {
        let Ok(now) = Instant::now(&self.rt) else {
            return false;
        };
        if let Some(last) = self.last.get() {
            if now.saturating_duration_since(last) < Duration::from_millis(INTERVAL) {
                return false;
            }
        }
        self.last.set(Some(now));
        true
    }

    /// What comes before the text of the line.
    fn lead(&self) -> &'static str {
        if self.is_shown.get() { BACK } else { CLEAR }
    }

    /// Rewrites the line with this text and then goes to a new line, so that the cursor is there if the program ends at any time. An
    /// error of the terminal is ignored.
    fn put(&self, text: &str) {
        self.is_shown.set(true);
        let _shown = self.rt.stderr().write_all(text.as_bytes()).is_ok();
    }

    /// Shows how many cells are done, if the line is due.
    fn show_cells(&self) {
        if !self.is_due() {
            return;
        }
        let lead = self.lead();
        let erased = self.erased.get();
        let programmed = self.programmed.get();
        let plan = self.plan.get();
        let to_erase = plan.erased;
        let to_program = plan.programmed;
        let text = match plan.percent(erased, programmed) {
            Some(percent) => format!(in self.rt.alloc();
                "{lead}{erased} of {to_erase} cells erased, {programmed} of {to_program} programmed, {percent}%\n"
            ),
            None => format!(in self.rt.alloc();
                "{lead}{erased} cells erased, {programmed} programmed\n"
            ),
        };
        if let Ok(text) = text {
            self.put(&text);
        }
    }

    /// Shows how many lists were tried, if the line is due.
    fn show_trials(&self) {
        if !self.is_due() {
            return;
        }
        let lead = self.lead();
        let lists = self.lists.get();
        let calls = self.calls.get();
        if let Ok(text) = format!(in self.rt.alloc();
            "{lead}{lists} lists tried, {calls} calls\n"
        ) {
            self.put(&text);
        }
    }

    /// Clears the line, if it is shown.
    fn wipe(&self) {
        if self.is_shown.get() {
            self.is_shown.set(false);
            let _cleared = self.rt.stderr().write_all(BACK.as_bytes()).is_ok();
        }
    }
}

/// A line on standard error that counts the cells erased and programmed so far, and how many there are if a plan has gone by. For trials
/// it counts the lists of calls. It is rewritten at most ten times a second. There is one only if standard error is a terminal, so
/// that nothing else ever gets it. All holders share it.
#[derive(Drop)]
pub struct ProgressLine {
    shared: Option<Rc<Shared>>,
}

impl ProgressLine {
    /// No line: nothing is ever shown.
    pub fn none() -> ProgressLine {
        ProgressLine { shared: None }
    }

    /// A line on standard error, if that is a terminal and there is memory for it.
    pub fn on_terminal(rt: HostRuntime) -> ProgressLine {
        if !rt.stderr().is_terminal() {
            return ProgressLine::none();
        }
        let shared = Shared {
            rt,
            erased: Cell::new(0),
            programmed: Cell::new(0),
            lists: Cell::new(0),
            calls: Cell::new(0),
            plan: Cell::new(PlanTotals::new()),
            is_shown: Cell::new(false),
            last: Cell::new(None),
        };
        ProgressLine {
            shared: Rc::new(rt.alloc(), shared).ok(),
        }
    }

    /// A second handle on this line.
    pub fn share(&self) -> ProgressLine {
        match &self.shared {
            Some(shared) => ProgressLine {
                shared: shared.clone().ok(),
            },
            None => ProgressLine::none(),
        }
    }

    /// Counts cells that were erased.
    pub fn erased(&self, cells: u64) {
        if let Some(shared) = &self.shared {
            shared.erased.set(shared.erased.get().saturating_add(cells));
            shared.show_cells();
        }
    }

    /// Counts cells that were programmed.
    pub fn programmed(&self, cells: u64) {
        if let Some(shared) = &self.shared {
            shared
                .programmed
                .set(shared.programmed.get().saturating_add(cells));
            shared.show_cells();
        }
    }

    /// Takes the device to have this number of cells.
    pub fn set_cells(&self, cells: u32) {
        if let Some(shared) = &self.shared {
            let mut plan = shared.plan.get();
            plan.set_cells(u64::from(cells));
            shared.plan.set(plan);
        }
    }

    /// Follows a piece of text that goes to a stream: a plan in it says how many cells are to be erased and programmed.
    pub fn follow(&self, piece: &[u8]) {
        if let Some(shared) = &self.shared {
            let mut plan = shared.plan.get();
            plan.pass(piece);
            shared.plan.set(plan);
        }
    }

    /// Counts one more list that was tried, with the number of its calls.
    pub fn tried(&self, calls: u64) {
        if let Some(shared) = &self.shared {
            shared.lists.set(shared.lists.get().saturating_add(1));
            shared.calls.set(shared.calls.get().saturating_add(calls));
            shared.show_trials();
        }
    }

    /// Clears the line, if it is shown. This comes before anything else is put on a stream, and at the end.
    pub fn wipe(&self) {
        if let Some(shared) = &self.shared {
            shared.wipe();
        }
    }
}
