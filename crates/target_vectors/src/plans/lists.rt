//! Tries every list of up to four actions on a small device, and compares its cost with that of the plan.

use crate::plans::trial::{EMPTY, Trial, plan_cost};
use anyhow::{Result, bail};
use std::alloc::Global;

/// The most bytes of a small device, and the most actions in a list.
const MOST: usize = 4;

/// The contents of a small device. Bytes past its end are empty.
type Cells = [u8; MOST];

/// An action on a range of a small device, and its cost.
#[derive(Clone, Copy)]
struct Step {
    place: usize,
    len: usize,
    kind: Kind,
    cost: u32,
}

#[derive(Clone, Copy)]
enum Kind {
    Erase,
    Program(Cells),
}

impl Step {
    /// Does the action, and answers whether it can be done: a page that isn't empty can't be programmed.
    fn act(&self, cells: &mut Cells) -> bool {
        let bytes = match self.kind {
            Kind::Erase => [EMPTY; MOST],
            Kind::Program(bytes) => bytes,
        };
        let blank = cells
            .iter()
            .skip(self.place)
            .take(self.len)
            .all(|&cell| cell == EMPTY);
        if !blank && matches!(self.kind, Kind::Program(_)) {
            return false;
        }
        for (cell, byte) in cells.iter_mut().skip(self.place).take(self.len).zip(bytes) {
            *cell = byte;
        }
        true
    }
}

/// How many numbers with `digits` digits there are in a base.
fn power(base: usize, digits: usize) -> usize {
    let mut all: usize = 1;
    for _digit in 0..digits {
        all = all.saturating_mul(base);
    }
    all
}

/// Numbers for contents: the bytes are digits in the base of the values, from the first byte on. Digit 0 is the empty value.
#[derive(Clone, Copy)]
struct Numbering {
    values: usize,
    size: usize,
}

impl Numbering {
    /// How many different contents there are.
    fn count(self) -> usize {
        power(self.values, self.size)
    }

    /// The contents that have a number.
    fn cells(self, number: usize) -> Cells {
        let mut cells = [EMPTY; MOST];
        let mut rest = number;
        for cell in cells.iter_mut().take(self.size) {
            let digit = rest.checked_rem(self.values).unwrap_or(0);
            rest = rest.checked_div(self.values).unwrap_or(0);
            if digit != 0 {
                *cell = (digit % 256) as u8;
            }
        }
        cells
    }

    /// The number of contents.
    fn number(self, cells: &Cells) -> usize {
        let mut number: usize = 0;
        let mut weight: usize = 1;
        for &cell in cells.iter().take(self.size) {
            if cell != EMPTY {
                number = number.wrapping_add(weight.wrapping_mul(usize::from(cell)));
            }
            weight = weight.wrapping_mul(self.values);
        }
        number
    }
}

/// Appends the actions that erase: the chip's, and each sector's.
fn push_erasures(steps: &mut Vec<Step>, trial: &Trial) -> Result<()> {
    if trial.has_chip {
        steps.push(Step {
            place: 0,
            len: MOST,
            kind: Kind::Erase,
            cost: trial.weights.chip,
        })?;
    }
    for index in 0..trial.geometry.sectors() {
        let (place, len) = trial.geometry.sector(index);
        steps.push(Step {
            place: place as usize,
            len: len as usize,
            kind: Kind::Erase,
            cost: trial.weights.sector,
        })?;
    }
    Ok(())
}

/// Appends the actions that program a page from a place on, with all bytes of this numbering.
fn push_page(steps: &mut Vec<Step>, place: usize, pages: Numbering, cost: u32) -> Result<()> {
    for number in 0..pages.count() {
        steps.push(Step {
            place,
            len: pages.size,
            kind: Kind::Program(pages.cells(number)),
            cost,
        })?;
    }
    Ok(())
}

/// Appends the actions that program.
fn push_pages(steps: &mut Vec<Step>, trial: &Trial, values: usize) -> Result<()> {
    for index in 0..trial.geometry.pages() {
        let (place, len) = trial.geometry.page(index);
        let size = len as usize;
        let pages = Numbering { values, size };
        push_page(steps, place as usize, pages, trial.weights.page)?;
    }
    Ok(())
}

/// All actions: the erase of each sector and of the chip, and the programming of each page with all bytes of `values` values.
fn steps_of(alloc: Global, trial: &Trial, values: usize) -> Result<Vec<Step>> {
    let mut steps = Vec::new(alloc);
    push_erasures(&mut steps, trial)?;
    push_pages(&mut steps, trial, values)?;
    Ok(steps)
}

/// The number of the contents after list `number` of `len` actions, and what the list costs. It is none where one of the actions can't be
/// done.
fn after(
    start: &Cells,
    number: usize,
    len: usize,
    steps: &[Step],
    numbering: Numbering,
) -> Option<(usize, u64)> {
    let mut cells = *start;
    let mut cost: u64 = 0;
    let mut rest = number;
    for _step in 0..len {
        let step = steps.get(rest.checked_rem(steps.len())?)?;
        rest = rest.checked_div(steps.len())?;
        if !step.act(&mut cells) {
            return None;
        }
        cost = cost.saturating_add(u64::from(step.cost));
    }
    Some((numbering.number(&cells), cost))
}

/// Notes the least cost at which lists of `len` actions lead to each contents, where it is below the cost that is noted.
fn try_each(
    start: &Cells,
    len: usize,
    steps: &[Step],
    numbering: Numbering,
    least: &mut [Option<u64>],
) {
    for number in 0..power(steps.len(), len) {
        let Some((to, cost)) = after(start, number, len, steps, numbering) else {
            continue;
        };
        if let Some(found) = least.get_mut(to) {
            if found.is_none_or(|known| cost < known) {
                *found = Some(cost);
            }
        }
    }
}

/// Writes contents over those that are there.
fn set(cells: &mut [u8], contents: &Cells) {
    for (cell, &byte) in cells.iter_mut().zip(contents) {
        *cell = byte;
    }
}

/// How many contents the lists lead to, and to how many of them at the cost of the plan.
#[derive(Clone, Copy)]
struct Tally {
    reached: u32,
    equal: u32,
}

/// Compares what the lists cost from the trial's old contents with the costs of the plans.
fn compare(
    rt: &HostRuntime,
    trial: &mut Trial,
    numbering: Numbering,
    least: &[Option<u64>],
) -> Result<Tally> {
    let mut tally = Tally {
        reached: 0,
        equal: 0,
    };
    for (number, cost) in least.iter().enumerate() {
        let Some(cost) = cost else {
            continue;
        };
        set(&mut trial.want, &numbering.cells(number));
        let planned = plan_cost(rt, trial)?;
        if *cost < planned {
            bail!("a list to {number} costs {cost}, and the plan {planned}");
        }
        tally.reached = tally.reached.saturating_add(1);
        if *cost == planned {
            tally.equal = tally.equal.saturating_add(1);
        }
    }
    Ok(tally)
}

/// A place for the least cost of each contents.
fn no_costs(alloc: Global, count: usize) -> Result<Vec<Option<u64>>> {
    let mut least = Vec::new(alloc);
    least.resize(count, None)?;
    Ok(least)
}

/// Tries every list of up to four actions from one contents.
fn try_from(
    rt: &HostRuntime,
    trial: &mut Trial,
    steps: &[Step],
    numbering: Numbering,
    start: &Cells,
) -> Result<Tally> {
    let mut least = no_costs(rt.alloc(), numbering.count())?;
    for len in 0..=MOST {
        try_each(start, len, steps, numbering, &mut least);
    }
    set(&mut trial.old, start);
    compare(rt, trial, numbering, &least)
}

/// Tries every list of up to four actions from each contents.
fn try_all(
    rt: &HostRuntime,
    trial: &mut Trial,
    steps: &[Step],
    numbering: Numbering,
) -> Result<Tally> {
    let mut all = Tally {
        reached: 0,
        equal: 0,
    };
    for number in 0..numbering.count() {
        let tally = try_from(rt, trial, steps, numbering, &numbering.cells(number))?;
        all.reached = all.reached.saturating_add(tally.reached);
        all.equal = all.equal.saturating_add(tally.equal);
    }
    Ok(all)
}

/// Tries every list of up to four actions from each contents of `values` values. Compares the least cost that leads to each contents with
/// that of the plan.
pub fn try_lists(rt: &HostRuntime, trial: &mut Trial, values: usize) -> Result<()> {
    let steps = steps_of(rt.alloc(), trial, values)?;
    let size = trial.old.len();
    let Tally { reached, equal } = try_all(rt, trial, &steps, Numbering { values, size })?;
    println!(rt;
        "lists of {} actions on {size} bytes: {reached} pairs of contents, none below its plan, {equal} equal",
        steps.len()
    )?;
    Ok(())
}
