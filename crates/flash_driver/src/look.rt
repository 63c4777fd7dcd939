//! Reading cells.
ghost use Rattle.std.specs.Prelude.{◌≡◌, ◌≤◌, ◌+◌, ◌⊎◌, length, IsTrue, Ok, Err, None};
ghost use Rattle.bench_model.specs.Device.{is_device};
ghost use Rattle.bench_model.specs.Counted.{IsCounted};
ghost use Rattle.bench_model.specs.declared.bench_fault.BusEnd.TheVariants as bus;
ghost use Rattle.flash_layout.specs.Bench.{Accesses};
ghost use Rattle.flash_layout.specs.Cells.{cells_at};

use bench_model::{Bench, BusEnd, DeviceFault};

/// Reads the cells from a place on.
#[inline(always)]
pub(crate) fn look<B: Bench>(bench: &mut B, place: u32, out: &mut [u8]) -> Result<(), BusEnd>
    requires range { place + length out.old ≤ (B.state bench.old).cell_count }
    requires idle { IsTrue B.tells → (B.state bench.old).operation ≡ None }
    ensures ok { IsTrue B.tells → (result ≡ Err bus.Device) ⊎ ((result ≡ Ok tt) × (out.new ≡ cells_at (B.state bench.old).cells place (length out.old))) }
    ensures bench { Accesses B.tells (B.state bench.old) (B.state bench.new) }
    ensures operation { IsTrue B.tells → (B.state bench.new).operation ≡ (B.state bench.old).operation }
    ensures cause { IsCounted (B.state bench.old).device_faults (B.state bench.new).device_faults (is_device result) }
{
    match bench.cells_read(place, out) {
        Ok(()) => Ok(()),
        Err(DeviceFault) => Err(BusEnd::Device),
    }
}
