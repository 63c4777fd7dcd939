//! Reading and settling cells for a controller.
ghost use Rattle.std.specs.Prelude.{◌≡◌, ◌≤◌, ◌<◌, ◌+◌, ◌^◌, ◌⊎◌, length, Ok, Err, IsTrue, OnOk, OnErr, IfOk, Some, None};
ghost use Rattle.faults.specs.Counts.{HasCause};
ghost use Rattle.bench_model.specs.Calls.{written};
ghost use Rattle.bench_model.specs.Device.{is_device};
ghost use Rattle.bench_model.specs.Counted.{IsCounted};
ghost use Rattle.bench_model.specs.Does.{StaysOpen};
ghost use Rattle.bench_model.specs.declared.bench_fault.BusEnd.TheVariants as bus;
ghost use Rattle.flash_layout.specs.Bench.{Accesses, Settles};
ghost use Rattle.flash_layout.specs.Cells.{value_of, cells_at};
ghost use Rattle.flash_layout.specs.Work.{work_bytes, range_of};

use crate::{Operation, Work};
use bench_model::{Bench, BusEnd, DeviceFault};

/// The most bytes of an access.
const WORD: usize = 4;

/// The number with these bytes, the lowest byte first. There are at most four.
#[inline(always)]
fn little_endian(bytes: &[u8]) -> u32
    requires { length bytes.now ≤ 4 }
    ensures value { result ≡ value_of bytes.now }
    ensures byte { length bytes.now ≡ 1 → result < 2 ^ 8 }
    ensures half { length bytes.now ≡ 2 → result < 2 ^ 16 }
{
    match bytes {
        [a] => u32::from(*a),
        [a, b] => u32::from(*a) + 0x100 * u32::from(*b),
        [a, b, c] => u32::from(*a) + 0x100 * (u32::from(*b) + 0x100 * u32::from(*c)),
        [a, b, c, d] => {
            u32::from(*a)
                + 0x100 * (u32::from(*b) + 0x100 * (u32::from(*c) + 0x100 * u32::from(*d)))
        }
        _ => 0,
    }
}

/// Reads some cells, at most four, as a number.
#[inline(always)]
pub fn read<B: Bench>(bench: &mut B, place: u32, width: u32) -> Result<u32, BusEnd>
    requires width { width ≤ 4 }
    requires range { place + width ≤ (B.state bench.old).cell_count }
    requires idle { IsTrue B.tells → (B.state bench.old).operation ≡ None }
    ensures ok { IsTrue B.tells → (result ≡ Err bus.Device) ⊎ (result ≡ Ok (value_of (cells_at (B.state bench.old).cells place width))) }
    ensures byte { width ≡ 1 → IfOk result (λ value. value < 2 ^ 8) }
    ensures half { width ≡ 2 → IfOk result (λ value. value < 2 ^ 16) }
    ensures bench { Accesses B.tells (B.state bench.old) (B.state bench.new) }
    ensures operation { IsTrue B.tells → (B.state bench.new).operation ≡ (B.state bench.old).operation }
    ensures cause { IsCounted (B.state bench.old).device_faults (B.state bench.new).device_faults (is_device result) }
{
    let mut bytes = [0; WORD];
    let out = &mut bytes[..width as usize];
    match bench.cells_read(place, out) {
        Ok(()) => Ok(little_endian(out)),
        Err(DeviceFault) => Err(BusEnd::Device),
    }
}

/// Ends an operation on the bench: its cells get its bytes.
pub fn settle<B: Bench>(bench: &mut B, operation: &Operation) -> Result<(), DeviceFault>
    requires { IsTrue B.tells → (B.state bench.old).operation ≡ range_of (Some operation.now) }
    ensures ok { IsTrue B.tells → OnOk result (((B.state bench.new).operation ≡ None)
        × ((B.state bench.new).cells ≡ written operation.now.place (work_bytes operation.now.work) (B.state bench.old).cells)) }
    ensures err { IsTrue B.tells → OnErr result (StaysOpen (B.state bench.old) (B.state bench.new)) }
    ensures bench { Settles B.tells (B.state bench.old) (B.state bench.new) }
    ensures cause { HasCause (B.state bench.old).device_faults (B.state bench.new).device_faults result }
{
    match operation.work {
        Work::Half { value } => {
            let bytes = [(value % 0x100) as u8, (value / 0x100 % 0x100) as u8];
            bench.cells_settle(&bytes)
        }
        Work::Word { value } => {
            let bytes = [
                (value % 0x100) as u8,
                (value / 0x100 % 0x100) as u8,
                (value / 0x1_0000 % 0x100) as u8,
                (value / 0x100_0000 % 0x100) as u8,
            ];
            bench.cells_settle(&bytes)
        }
        Work::Fill { len: _, value } => bench.cells_settle_fill(value),
    }
}
