//! A target between two calls.
ghost use Rattle.std.specs.Prelude.{◌≡◌, length, map, None, IfOk};
ghost use Rattle.shadow_step.specs.Marks.{known_if, is_known};

use duty_proofs::Marked;
use faults::OutOfMemory;
use flash_driver::State;
use flash_layout::FlashMap;
use shadow_step::Mark;
use std::alloc::Global;
use target_core::AnyRegisters;

/// A target between two calls of the run at hand, and what other runs have in common with it. No operation is open.
#[derive(Drop)]
pub struct Between {
    /// The bytes of the RAM.
    pub ram: Vec<u8>,
    /// Which bytes of the RAM are the same in every run.
    pub known: Vec<bool>,
    /// The state of the controller.
    pub state: State<AnyRegisters>,
    /// Whether the controller's address register is the same in every run.
    pub address: bool,

    pub ghost idle: { state.operation ≡ None },
    pub ghost long: { length known.items ≡ length ram.items },
}

/// Which marks are known.
pub(crate) fn known_of(alloc: Global, marks: &[Mark]) -> Result<Vec<bool>, OutOfMemory>
    ensures { IfOk result (λ known. known.items ≡ map is_known marks.now) }
{
    Ok(marks.iter().map(|mark| mark.is_known()).collect(alloc)?)
}

/// A mark for each place: Known if the place is known, or Any.
fn marks_of(alloc: Global, known: &[bool]) -> Result<Vec<Mark>, OutOfMemory>
    ensures { IfOk result (λ marks. marks.items ≡ map known_if known.now) }
{
    Ok(
        known
            .iter()
            .map(|known| Mark::known_if(*known))
            .collect(alloc)?,
    )
}

impl Between {
    ghost use Rattle.flash_layout.specs.Maps.{map_of};
    ghost use Rattle.duty_proofs.specs.Views.{marks_in};
    ghost use Rattle.duty_runs.specs.States.{state_marks};

    /// The marks of the target in this state, before those of a call are added.
    pub(crate) fn marks<'a>(
        &self,
        alloc: Global,
        base: u32,
        layout: &'a FlashMap,
    ) -> Result<Marked<'a>, OutOfMemory>
        ensures marks { IfOk result (λ marks. marks_in marks ≡ state_marks base (map_of layout.now) self.now) }
        ensures long { IfOk result (λ marks. length marks.ram.items ≡ length self.now.known.items) }
    {
        let ram = marks_of(alloc, &self.known)?;
        Ok(Marked {
            base,
            map: layout,
            ram,
            state: self.state,
            address: self.address,
            value: Mark::Known,
            from: 0,
            cells: Vec::new(alloc),
        })
    }
}
