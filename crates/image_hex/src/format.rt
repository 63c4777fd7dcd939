//! Intel HEX as a format of records.
ghost use Rattle.std.specs.Prelude.{◌≡◌};
ghost use Rattle.image_hex.specs.Clashes.{line_fault_of};

use crate::data::lay_data;
use crate::fault::HexKind;
use crate::record::{Base, HexRecord, parse};
use byte_map::ByteMap;
use record_lines::{ClashFault, LineFault, RecordFormat};

impl RecordFormat for Base {
    type Record = HexRecord;

    type Fault = HexKind;

    ghost use Rattle.std.specs.Prelude.{◌^◌};
    ghost use Rattle.image_hex.specs.Hex.{hex};

    ghost format = { hex };

    ghost room = { λ base. 2 ^ 64 };

    fn start() -> Base {
        Base::Upper(0)
    }

    fn take_line(&mut self, map: &mut ByteMap, line: &[u8]) -> Result<bool, LineFault<HexKind>> {
        match parse(line) {
            Err(kind) => Err(LineFault::Refused(kind)),
            Ok(None | Some(HexRecord::Ignored)) => Ok(false),
            Ok(Some(HexRecord::End)) => Ok(true),
            Ok(Some(HexRecord::Sets(base))) => {
                *self = base;
                Ok(false)
            }
            Ok(Some(HexRecord::Data { offset, bytes })) => {
                match lay_data(map, *self, offset, bytes.bytes()) {
                    Ok(()) => Ok(false),
                    Err(fault) => Err(fault_of_clash(fault)),
                }
            }
        }
    }
}

/// A fault of adding bytes as a fault of their line.
fn fault_of_clash(fault: ClashFault) -> LineFault<HexKind>
    ensures { result ≡ line_fault_of fault }
{
    match fault {
        ClashFault::Conflict { at, old, new } => {
            LineFault::Refused(HexKind::Conflict { at, old, new })
        }
        ClashFault::OutOfMemory => LineFault::OutOfMemory,
    }
}
