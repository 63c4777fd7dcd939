//! S-records as a format of records.
ghost use Rattle.std.specs.Prelude.{◌≡◌};
ghost use Rattle.image_srec.specs.Clashes.{line_fault_of};

use crate::fault::SrecKind;
use crate::record::{Seen, SrecRecord, parse};
use byte_map::ByteMap;
use record_lines::{ClashFault, LineFault, RecordFormat, lay_cells};

/// How many addresses there are.
const ADDRESSES: u64 = 1 << 32;

impl RecordFormat for Seen {
    type Record = SrecRecord;

    type Fault = SrecKind;

    ghost use Rattle.std.specs.Prelude.{◌-◌, ◌^◌};
    ghost use Rattle.image_srec.specs.Srec.{srec};

    ghost format = { srec };

    ghost room = { λ seen. 2 ^ 64 - 1 - seen.records };

    fn start() -> Seen {
        Seen { records: 0 }
    }

    fn take_line(&mut self, map: &mut ByteMap, line: &[u8]) -> Result<bool, LineFault<SrecKind>> {
        match parse(line) {
            Err(kind) => Err(LineFault::Refused(kind)),
            Ok(None | Some(SrecRecord::Header)) => Ok(false),
            Ok(Some(SrecRecord::End)) => Ok(true),
            Ok(Some(SrecRecord::Count { said })) => {
                let seen = self.records;
                if u64::from(said) != seen {
                    return Err(LineFault::Refused(SrecKind::CountDiffers { said, seen }));
                }
                Ok(false)
            }
            Ok(Some(SrecRecord::Data { at, bytes })) => {
                let bytes = bytes.bytes();
                if u64::from(at) + bytes.len() as u64 > ADDRESSES {
                    return Err(LineFault::Refused(SrecKind::PastEnd { at }));
                }
                self.records += 1;
                match lay_cells(map, at, bytes) {
                    Ok(()) => Ok(false),
                    Err(fault) => Err(fault_of_clash(fault)),
                }
            }
        }
    }
}

/// A fault of adding bytes as a fault of their line.
fn fault_of_clash(fault: ClashFault) -> LineFault<SrecKind>
    ensures { result ≡ line_fault_of fault }
{
    match fault {
        ClashFault::Conflict { at, old, new } => {
            LineFault::Refused(SrecKind::Conflict { at, old, new })
        }
        ClashFault::OutOfMemory => LineFault::OutOfMemory,
    }
}
