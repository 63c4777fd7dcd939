//! The refusals of the top call, and the line of each on standard error.
ghost use Rattle.std.specs.Prelude.{◌≡◌, [], ◌∷◌};
ghost use Rattle.std.specs.Char.{is_ascii_control};
ghost use Rattle.std.specs.List.{flat_map, list_any};
ghost use Rattle.outside_io.specs.Puts.{Puts};
ghost use Rattle.report_text.specs.Refusal.{status_of, input_fault, image_too_long, other_device, no_room, not_a_job, damaged, cells_differ};
ghost use Rattle.report_text.specs.Lines.{reason_of, line_of};
ghost use Rattle.report_text.specs.Lines.{difference_text, hash_text, visible};
ghost use Rattle.report_text.specs.Shown.{shown};

use crate::board_reason::put_board_fault;
use crate::call_reason::put_failed_call;
use crate::image_reason::{put_image_fault, put_image_file};
use crate::pieces::put_pieces;
use crate::reason::put_flm_fault;
use algo_calls::{Call, CallEnd};
use bench_model::DeviceFault;
use board_file::BoardFault;
use faults::OutOfMemory;
use flm_descriptor::FlmFault;
use image_more::AnyFault;
use image_set::ImageFault;
use itoa::Buffer;
use job_file::OpenFault;
use octets::{Word, hex_digits};
use outside_io::{OutputFault, Sink};

/// Why a call didn't end as done.
#[derive(Clone, Copy)]
pub enum Refusal<'a> {
    /// Out of memory.
    OutOfMemory,

    /// The words fit no command.
    Usage,

    /// The input file of this name could not be taken.
    InputFault {
        name: &'a Word,
    },

    /// A raw image has more bytes than there are cells.
    ImageTooLong {
        bytes: usize,
        cells: u32,
    },

    /// The image file of this name is refused.
    ImageRefused {
        name: &'a Word,
        fault: AnyFault,
    },

    /// The image has no byte, or one outside the device.
    ImageMisplaced {
        fault: ImageFault,
    },

    /// An FLM file was refused.
    FlmRefused {
        fault: FlmFault,
    },

    /// An FLM file is for a device with another base or size than the board's region. The base and the size, in bytes, are
    /// those of the file.
    OtherDevice {
        base: u32,
        size: u32,
    },

    /// The algorithm needs `need` bytes of RAM, more than the board has.
    NoRoom {
        need: u64,
        have: u64,
    },

    /// The text of a board was refused.
    BoardRefused {
        fault: BoardFault,
    },

    /// The job file stands for a job already.
    JobOpen,

    /// The job file is free.
    NoJob,

    /// The job file is neither free nor damaged nor stands for a job. The offset, in bytes, shows the first check that fails.
    NotAJob {
        at: u64,
    },

    /// The SHA-256 that the job file keeps differs from that of its bytes.
    Damaged {
        kept: [u8; 32],
        found: [u8; 32],
    },

    /// The bench has another number of cells than the regions.
    CellsDiffer {
        wanted: u32,
        found: u32,
    },

    /// The store of the job file failed.
    StoreFault,

    /// The device failed.
    DeviceFault,

    /// The standard output failed.
    OutputFault,

    /// A call of the algorithm didn't end as done. Its number in the session counts from 1.
    CallFailed {
        number: u32,
        call: Call,
        end: CallEnd,
    },

    /// All calls were done, but the cell at an address isn't the byte wanted there.
    Mismatch {
        at: u32,
        wanted: u8,
        found: u8,
    },

    /// The cell at a place isn't the byte wanted there.
    Differs {
        at: u32,
        wanted: u8,
        found: u8,
    },
}

impl<'a> From<OutOfMemory> for Refusal<'a> {
    ghost use Rattle.report_text.specs.declared.refusal.Refusal.TheVariants as refusal;

    ghost from_gives = { λ _ r. r ≡ refusal.OutOfMemory };

    fn from(_fault: OutOfMemory) -> Refusal<'a> {
        Refusal::OutOfMemory
    }
}

impl<'a> From<FlmFault> for Refusal<'a> {
    ghost use Rattle.report_text.specs.Refused.{of_flm};

    ghost from_gives = { λ fault r. shown r ≡ of_flm fault };

    fn from(fault: FlmFault) -> Refusal<'a> {
        match fault {
            FlmFault::OutOfMemory => Refusal::OutOfMemory,
            fault => Refusal::FlmRefused { fault },
        }
    }
}

impl<'a> From<OpenFault> for Refusal<'a> {
    ghost use Rattle.report_text.specs.Refused.{of_open};

    ghost from_gives = { λ fault r. shown r ≡ of_open fault };

    fn from(fault: OpenFault) -> Refusal<'a> {
        match fault {
            OpenFault::OutOfMemory => Refusal::OutOfMemory,
            OpenFault::NoJob => Refusal::NoJob,
            OpenFault::NotAJob { at } => Refusal::NotAJob { at },
            OpenFault::Damaged { kept, found } => Refusal::Damaged { kept, found },
            OpenFault::StoreFault => Refusal::StoreFault,
            OpenFault::CellsDiffer { said, found } => Refusal::CellsDiffer {
                wanted: said,
                found,
            },
        }
    }
}

impl<'a> From<DeviceFault> for Refusal<'a> {
    ghost use Rattle.report_text.specs.declared.refusal.Refusal.TheVariants as refusal;

    ghost from_gives = { λ _ r. r ≡ refusal.DeviceFault };

    fn from(_fault: DeviceFault) -> Refusal<'a> {
        Refusal::DeviceFault
    }
}

impl<'a> From<OutputFault> for Refusal<'a> {
    ghost use Rattle.report_text.specs.declared.refusal.Refusal.TheVariants as refusal;

    ghost from_gives = { λ _ r. r ≡ refusal.OutputFault };

    fn from(_fault: OutputFault) -> Refusal<'a> {
        Refusal::OutputFault
    }
}

impl Refusal<'_> {
    /// The status that the program ends with.
    pub fn status(&self) -> u8
        ensures { result ≡ status_of (shown self.now) }
    {
        match self {
            Refusal::OutOfMemory => 1,
            Refusal::Usage => 2,
            Refusal::InputFault { .. } => 3,
            Refusal::ImageTooLong { .. } => 4,
            Refusal::ImageRefused { .. } => 4,
            Refusal::ImageMisplaced { .. } => 4,
            Refusal::FlmRefused { .. } => 5,
            Refusal::OtherDevice { .. } => 5,
            Refusal::NoRoom { .. } => 5,
            Refusal::BoardRefused { .. } => 6,
            Refusal::JobOpen => 7,
            Refusal::NoJob => 7,
            Refusal::NotAJob { .. } => 7,
            Refusal::Damaged { .. } => 7,
            Refusal::CellsDiffer { .. } => 7,
            Refusal::StoreFault => 8,
            Refusal::DeviceFault => 9,
            Refusal::OutputFault => 10,
            Refusal::CallFailed { .. } => 11,
            Refusal::Mismatch { .. } => 12,
            Refusal::Differs { .. } => 13,
        }
    }
}

/// Puts the line of a refusal. A fault may leave a beginning of it.
pub fn put_refusal<E: Sink>(err: &mut E, refusal: &Refusal<'_>) -> Result<(), OutputFault>
    ensures { Puts E.tells (E.state err.old) (E.state err.new) (line_of (shown refusal.now)) result }
{
    put_pieces(err, &[b"flmprog: "])?;
    put_reason(err, refusal)?;
    put_pieces(err, &[b"\n"])
}

/// Puts what a refusal says.
#[tactic(auto, unfolding(crate::specs::Lines::reason_of))]
pub(crate) fn put_reason<E: Sink>(err: &mut E, refusal: &Refusal<'_>) -> Result<(), OutputFault>
    ensures { Puts E.tells (E.state err.old) (E.state err.new) (reason_of (shown refusal.now)) result }
{
    match refusal {
        Refusal::OutOfMemory => put_pieces(err, &[b"out of memory"]),
        Refusal::Usage => put_pieces(err, &[b"usage: flm_tool JOB CELLS COMMAND [WORDS]"]),
        Refusal::InputFault { name } => put_unread(err, name.bytes()),
        Refusal::ImageTooLong { bytes, cells } => put_lengths(err, *bytes, *cells),
        Refusal::ImageRefused { name, fault } => put_image_file(err, name.bytes(), *fault),
        Refusal::ImageMisplaced { fault } => {
            put_pieces(err, &[b"image: "])?;
            put_image_fault(err, *fault)
        }
        Refusal::FlmRefused { fault } => {
            put_pieces(err, &[b"flm: "])?;
            put_flm_fault(err, *fault)
        }
        Refusal::OtherDevice { base, size } => put_device(err, *base, *size),
        Refusal::NoRoom { need, have } => put_room(err, *need, *have),
        Refusal::BoardRefused { fault } => {
            put_pieces(err, &[b"board: "])?;
            put_board_fault(err, *fault)
        }
        Refusal::JobOpen => put_pieces(err, &[b"job: open"]),
        Refusal::NoJob => put_pieces(err, &[b"job: none"]),
        Refusal::NotAJob { at } => put_offset(err, *at),
        Refusal::Damaged { kept, found } => put_hashes(err, kept, found),
        Refusal::CellsDiffer { wanted, found } => put_cells(err, *wanted, *found),
        Refusal::StoreFault => put_pieces(err, &[b"store fault"]),
        Refusal::DeviceFault => put_pieces(err, &[b"device fault"]),
        Refusal::OutputFault => put_pieces(err, &[b"output fault"]),
        Refusal::CallFailed { number, call, end } => put_failed_call(err, *number, *call, *end),
        Refusal::Mismatch { at, wanted, found } => put_difference(
            err,
            b"mismatch",
            *at,
            *wanted,
            *found,
        ),
        Refusal::Differs { at, wanted, found } => put_difference(
            err, b"differs", *at, *wanted, *found,
        ),
    }
}

/// Puts that the file of this name could not be read.
fn put_unread<E: Sink>(err: &mut E, name: &[u8]) -> Result<(), OutputFault>
    ensures { Puts E.tells (E.state err.old) (E.state err.new) (reason_of (input_fault name.now)) result }
{
    if has_control(name) {
        put_pieces(err, &[b"cannot read "])?;
        put_visible(err, name)
    } else {
        put_pieces(err, &[b"cannot read ", name])
    }
}

/// Whether a name has a control character.
fn has_control(name: &[u8]) -> bool
    ensures { result ≡ list_any is_ascii_control name.now }
{
    name.iter().any(|byte| byte.is_ascii_control())
}

/// Puts the bytes of a name with a dot for each control character.
fn put_visible<E: Sink>(err: &mut E, name: &[u8]) -> Result<(), OutputFault>
    ensures { Puts E.tells (E.state err.old) (E.state err.new) (flat_map (λ byte. visible byte ∷ []) name.now) result }
{
    for byte in name {
        put_pieces(err, &[&[visible(*byte)]])?;
    }
    Ok(())
}

/// A byte of a name as it is printed.
fn visible(byte: u8) -> u8
    ensures { result ≡ visible byte }
{
    if byte.is_ascii_control() { b'.' } else { byte }
}

/// Puts how many bytes an image has, and for how many cells.
#[tactic(auto, unfolding(crate::specs::Lines::reason_of))]
fn put_lengths<E: Sink>(err: &mut E, bytes: usize, cells: u32) -> Result<(), OutputFault>
    ensures { Puts E.tells (E.state err.old) (E.state err.new) (reason_of (image_too_long bytes cells)) result }
{
    let mut of_bytes = Buffer::new();
    let mut of_cells = Buffer::new();
    let bytes = of_bytes.format(bytes).as_bytes();
    let cells = of_cells.format(cells).as_bytes();
    put_pieces(err, &[b"image: ", bytes, b" bytes for ", cells, b" cells"])
}

/// Puts the base and the size of an algorithm's device.
#[tactic(auto, unfolding(crate::specs::Lines::reason_of))]
fn put_device<E: Sink>(err: &mut E, base: u32, size: u32) -> Result<(), OutputFault>
    ensures { Puts E.tells (E.state err.old) (E.state err.new) (reason_of (other_device base size)) result }
{
    let mut of_size = Buffer::new();
    let base = hex_digits::<8>(base);
    let size = of_size.format(size).as_bytes();
    put_pieces(err, &[b"flm: other device ", &base, b" ", size])
}

/// Puts how many bytes of RAM an algorithm needs, and how many there are.
#[tactic(auto, unfolding(crate::specs::Lines::reason_of))]
fn put_room<E: Sink>(err: &mut E, need: u64, have: u64) -> Result<(), OutputFault>
    ensures { Puts E.tells (E.state err.old) (E.state err.new) (reason_of (no_room need have)) result }
{
    let mut of_need = Buffer::new();
    let mut of_have = Buffer::new();
    let need = of_need.format(need).as_bytes();
    let have = of_have.format(have).as_bytes();
    put_pieces(err, &[b"flm: NoRoom ", need, b" ", have])
}

/// Puts where the first check of a job file fails.
#[tactic(auto, unfolding(crate::specs::Lines::reason_of))]
fn put_offset<E: Sink>(err: &mut E, at: u64) -> Result<(), OutputFault>
    ensures { Puts E.tells (E.state err.old) (E.state err.new) (reason_of (not_a_job at)) result }
{
    let mut of_offset = Buffer::new();
    let offset = of_offset.format(at).as_bytes();
    put_pieces(err, &[b"job: not a job at ", offset])
}

/// Puts the hash that a job file keeps, and the one that was found.
#[tactic(auto, unfolding(crate::specs::Lines::reason_of))]
fn put_hashes<E: Sink>(err: &mut E, kept: &[u8], found: &[u8]) -> Result<(), OutputFault>
    ensures { Puts E.tells (E.state err.old) (E.state err.new) (reason_of (damaged kept.now found.now)) result }
{
    put_pieces(err, &[b"job: damaged "])?;
    put_hash(err, kept)?;
    put_pieces(err, &[b" "])?;
    put_hash(err, found)
}

/// Puts two digits for each byte of a hash.
fn put_hash<E: Sink>(err: &mut E, hash: &[u8]) -> Result<(), OutputFault>
    ensures { Puts E.tells (E.state err.old) (E.state err.new) (hash_text hash.now) result }
{
    for byte in hash {
        put_pieces(err, &[&hex_digits::<2>(u32::from(*byte))])?;
    }
    Ok(())
}

/// Puts how many cells are wanted, and how many there are.
#[tactic(auto, unfolding(crate::specs::Lines::reason_of))]
fn put_cells<E: Sink>(err: &mut E, wanted: u32, found: u32) -> Result<(), OutputFault>
    ensures { Puts E.tells (E.state err.old) (E.state err.new) (reason_of (cells_differ wanted found)) result }
{
    let mut of_wanted = Buffer::new();
    let mut of_found = Buffer::new();
    let wanted = of_wanted.format(wanted).as_bytes();
    let found = of_found.format(found).as_bytes();
    put_pieces(
        err,
        &[b"job: ", wanted, b" cells wanted, ", found, b" found"],
    )
}

/// Puts a place or an address, the byte wanted there, and the one found.
#[tactic(auto, unfolding(crate::specs::Lines::difference_text))]
fn put_difference<E: Sink>(
    err: &mut E,
    what: &[u8],
    at: u32,
    wanted: u8,
    found: u8,
) -> Result<(), OutputFault>
    ensures { Puts E.tells (E.state err.old) (E.state err.new) (difference_text what.now at wanted found) result }
{
    let at = hex_digits::<8>(at);
    let wanted = hex_digits::<2>(u32::from(wanted));
    let found = hex_digits::<2>(u32::from(found));
    put_pieces(
        err,
        &[what, b" at ", &at, b" wanted ", &wanted, b" found ", &found],
    )
}
