//! The registers of a controller.
ghost use Rattle.std.specs.Prelude.{◌≡◌, ◌≤◌, ◌+◌, ◌%◌, ◌⊎◌, None, Some, IfSome};

use crate::state::Effect;
use board_file::ControllerKind;
use flash_layout::{Area, FlashMap, Found, Operation};

/// The registers of a controller: what they answer, and what stores do to them. They call no bench.
pub trait Registers: Copy {
    ghost use Rattle.flash_layout.specs.Areas.{cells_in};
    ghost use Rattle.flash_layout.specs.Bench.{IsWidth};
    ghost use Rattle.flash_layout.specs.Maps.{map_of};
    ghost use Rattle.flash_driver.specs.Table.{Table, MayBegin};

    /// The controller's table.
    ghost table: { Table Self };

    /// The bytes of the register block, on a board of this kind.
    fn block(kind: ControllerKind) -> u32
        ensures { result ≡ table.block kind };

    /// The registers after a reset, on a board of this kind.
    fn fresh(kind: ControllerKind) -> Self
        ensures { result ≡ table.fresh kind };

    /// The answer of the register at an offset to a load, while this operation runs; none where there is no register.
    fn load(&self, operation: Option<Operation>, offset: u32) -> Option<u32>
        ensures { result ≡ table.load self.now operation offset };

    /// The answer of a register that programs read while they wait; none for every other register.
    fn peek(&self, operation: Option<Operation>, offset: u32) -> Option<u32>
        ensures even { IfSome result (λ value. offset % 4 ≡ 0) }
        ensures value { IfSome result (λ value. Some value ≡ table.load self.now operation offset) }
    {
        None
    }

    /// Makes a store to the register at an offset, while this operation runs.
    fn store(
        &mut self,
        layout: &FlashMap,
        operation: Option<Operation>,
        offset: u32,
        value: u32,
    ) -> Effect
        ensures row { (result, self.new) ≡ table.store (map_of layout.now) self.old operation offset value }
        ensures begins { MayBegin (cells_in layout.now.areas.items) operation result };

    /// Whether a store to a cell of the area looks at the cells there, where no operation runs.
    fn looks(&self, area: &Area, width: u32, value: u32) -> bool
        ensures { result ≡ table.looks self.now area.now width value };

    /// Makes a store to a cell, where no operation runs. It is given the cells there if it looks at them.
    fn program(
        &mut self,
        layout: &FlashMap,
        found: Found,
        width: u32,
        value: u32,
        seen: &[u8],
    ) -> Effect
        requires width { IsWidth width }
        requires range { found.place + width ≤ cells_in layout.now.areas.items }
        requires unit { (found.area.unit ≡ 2) ⊎ (found.area.unit ≡ 4) }
        ensures row { (result, self.new) ≡ table.program (map_of layout.now) self.old found width value seen.now }
        ensures begins { MayBegin (cells_in layout.now.areas.items) None result };

    /// Makes the end of an operation.
    fn end(&mut self)
        ensures { self.new ≡ table.ended self.old };
}
