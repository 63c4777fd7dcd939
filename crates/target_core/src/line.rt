//! What the core sees: the RAM, and the controller with its flash.
ghost use Rattle.std.specs.Prelude.{◌≡◌, ◌≤◌, ◌-◌, ◌/◌, ◌%◌, ◌^◌, min, nat_eq, if◌then◌else◌, true};
ghost use Rattle.ram_arena.specs.Windows.{begin_of};
ghost use Rattle.target_core.specs.Windows.{IsRam, LiesApart};
ghost use Rattle.target_core.specs.Units.{UnitAgrees, unit_state, state_runs};

use crate::unit::Unit;
use armv6m_step::Bus;
use bench_model::{Bench, BusEnd};
use ram_arena::Arena;

/// The bus of the target during a slice. The RAM is a window of an arena. The bench has the controller's cells, and its open operation is
/// the controller's. Some numbers are kept to make a step cheap. The window begins at `from`; `reach` bytes of the RAM lie below the end of
/// all addresses. The controller's block begins at `block`; `apart` bytes of it lie apart from the RAM, or none if it meets the RAM. `runs`
/// says whether an operation runs. `code` and `code_halves` repeat the RAM's base and its number of halfwords for instruction fetches. So
/// the compiler reads them from memory there, and no register has to hold them for the access that may follow.
#[derive(Drop)]
pub(crate) struct Line<'a, B: Bench> {
    pub ram_base: u32,
    pub ram_size: u32,
    pub reach: usize,
    pub halves: usize,
    pub words: usize,
    pub code: u32,
    pub code_halves: usize,
    pub block: u32,
    pub apart: u32,
    pub from: usize,
    pub window: usize,
    pub arena: &'a mut Arena,
    pub unit: &'a mut Unit,
    pub bench: &'a mut B,
    pub runs: bool,

    ghost reaches: { reach ≡ min ram_size (2 ^ 32 - ram_base) },
    ghost by_halves: { halves ≡ (if nat_eq (ram_base % 2) 0 then reach / 2 else 0) },
    ghost by_words: { words ≡ (if nat_eq (ram_base % 4) 0 then reach / 4 else 0) },
    ghost is_code: { code ≡ ram_base },
    ghost by_code: { code_halves ≡ halves },
    ghost in_block: { apart ≤ unit.now.layout.block },
    ghost at_block: { block ≡ unit.now.layout.base },
    ghost is_apart: { LiesApart ram_base ram_size block apart },
    ghost begins: { from ≡ begin_of arena.now window },
    ghost ram: { IsRam arena.now window ram_size },
    ghost agrees: { UnitAgrees B.tells unit.now (B.state bench.now) },
    ghost running: { runs ≡ state_runs (unit_state unit.now) },
}

impl<'a, B: Bench> Line<'a, B> {
    ghost use Rattle.std.specs.Prelude.{Ok, IfSome};
    ghost use Rattle.armv6m_step.specs.Access.{Load};
    ghost use Rattle.target_core.specs.Line.{line_acts};

    /// The value of a register that programs read while they wait. It is answered without the bench.
    #[inline(always)]
    fn peek_register(&self, at: u32) -> Option<u32>
        ensures even { IfSome result (λ v. at % 4 ≡ 0) }
        ensures acts { IfSome result (λ v. line_acts self.now (Load 4 at) (Ok v) self.now) }
    {
        let offset = at.wrapping_sub(self.block);
        if offset >= self.apart {
            return None;
        }
        self.unit.peek(offset)
    }
}

#[tactic(auto, unfolding(crate::specs::World::world_answer, crate::specs::World::world_asks))]
impl<'a, B: Bench> Bus for Line<'a, B> {
    ghost use Rattle.target_core.specs.Line.{line_acts};

    ghost acts = { line_acts };

    ghost faults = { λ line. (B.state line.bench.now).device_faults };

    ghost counted = { λ before access answer after act. act.cause };

    #[inline(always)]
    fn load8(&mut self, at: u32) -> Result<u32, BusEnd> {
        match self.place(at, 1) {
            Some(offset) => Ok(self.arena.load8_from(self.from, self.window, offset)),
            None => self.unit.load_or_quiet(self.bench, at, 1),
        }
    }

    #[inline(always)]
    fn load16(&mut self, at: u32) -> Result<u32, BusEnd> {
        match self.place(at, 2) {
            Some(offset) => Ok(self.arena.load16_from(self.from, self.window, offset)),
            None => self.unit.load_or_quiet(self.bench, at, 2),
        }
    }

    #[inline(always)]
    fn load32(&mut self, at: u32) -> Result<u32, BusEnd> {
        match self.place(at, 4) {
            Some(offset) => Ok(self.arena.load32_from(self.from, self.window, offset)),
            None => self.unit.load_or_quiet(self.bench, at, 4),
        }
    }

    #[inline(always)]
    fn store8(&mut self, at: u32, value: u32) -> Result<(), BusEnd> {
        match self.place(at, 1) {
            Some(offset) => {
                self.arena
                    .store8_from(self.from, self.window, offset, value);
                Ok(())
            }
            None => {
                let end = self.unit.store_or_quiet(self.bench, at, 1, value);
                self.runs = self.unit.is_running();
                end
            }
        }
    }

    #[inline(always)]
    fn store16(&mut self, at: u32, value: u32) -> Result<(), BusEnd> {
        match self.place(at, 2) {
            Some(offset) => {
                self.arena
                    .store16_from(self.from, self.window, offset, value);
                Ok(())
            }
            None => {
                let end = self.unit.store_or_quiet(self.bench, at, 2, value);
                self.runs = self.unit.is_running();
                end
            }
        }
    }

    #[inline(always)]
    fn store32(&mut self, at: u32, value: u32) -> Result<(), BusEnd> {
        match self.place(at, 4) {
            Some(offset) => {
                self.arena
                    .store32_from(self.from, self.window, offset, value);
                Ok(())
            }
            None => {
                let end = self.unit.store_or_quiet(self.bench, at, 4, value);
                self.runs = self.unit.is_running();
                end
            }
        }
    }

    #[inline(always)]
    fn fetch16(&self, at: u32) -> Option<u32> {
        let offset = self.code_place(at)?;
        Some(self.arena.load16_from(self.from, self.window, offset))
    }

    #[inline(always)]
    fn peek8(&self, at: u32) -> Option<u32> {
        let offset = self.place(at, 1)?;
        Some(self.arena.load8_from(self.from, self.window, offset))
    }

    #[inline(always)]
    fn peek16(&self, at: u32) -> Option<u32> {
        let offset = self.half_place(at)?;
        Some(self.arena.load16_from(self.from, self.window, offset))
    }

    #[inline(always)]
    fn peek32(&self, at: u32) -> Option<u32> {
        match self.word_place(at) {
            Some(offset) => Some(self.arena.load32_from(self.from, self.window, offset)),
            None => self.peek_register(at),
        }
    }

    #[inline(always)]
    fn poke8(&mut self, at: u32, value: u32) -> bool {
        let Some(offset) = self.place(at, 1) else {
            return false;
        };
        self.arena
            .store8_from(self.from, self.window, offset, value);
        true
    }

    #[inline(always)]
    fn poke16(&mut self, at: u32, value: u32) -> bool {
        let Some(offset) = self.half_place(at) else {
            return false;
        };
        self.arena
            .store16_from(self.from, self.window, offset, value);
        true
    }

    #[inline(always)]
    fn poke32(&mut self, at: u32, value: u32) -> bool {
        let Some(offset) = self.word_place(at) else {
            return false;
        };
        self.arena
            .store32_from(self.from, self.window, offset, value);
        true
    }
}
