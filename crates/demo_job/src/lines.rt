//! The lines of a demonstration.
ghost use Rattle.std.specs.List.{flat_map};
ghost use Rattle.outside_io.specs.Puts.{Puts};
ghost use Rattle.demo_job.specs.Lines.{number_text, same_text, demo_text};

use itoa::Buffer;
use outside_io::{OutputFault, Sink, put_all};

/// What the lines of a demonstration say.
#[derive(Clone, Copy)]
pub struct DemoLines {
    /// The seed.
    pub seed: u32,
    /// How many sectors the first plan erases.
    pub sectors: u32,
    /// How many pages the first plan programs.
    pub pages: u32,
    /// What the first plan costs, in the unit of the board's weights.
    pub cost: u64,
    /// The number of calls on the bench after which the job was stopped.
    pub calls: u64,
    /// The status of the resume.
    pub status: u8,
    /// Whether the cells are the image laid over the first contents.
    pub same: bool,
}

/// Puts the lines of a demonstration. A fault may leave a beginning of them.
#[tactic(auto, unfolding(crate::specs::Lines::demo_text))]
pub fn put_demo<O: Sink>(out: &mut O, lines: &DemoLines) -> Result<(), OutputFault>
    ensures { Puts O.tells (O.state out.old) (O.state out.new) (demo_text lines.now) result }
{
    put_number(out, b"demo ", u64::from(lines.seed))?;
    put_number(out, b"sectors ", u64::from(lines.sectors))?;
    put_number(out, b"pages ", u64::from(lines.pages))?;
    put_number(out, b"cost ", lines.cost)?;
    put_number(out, b"stopped ", lines.calls)?;
    put_number(out, b"resumed ", u64::from(lines.status))?;
    put_same(out, lines.same)
}

/// Puts the line of a number.
#[tactic(auto, unfolding(crate::specs::Lines::number_text))]
fn put_number<O: Sink>(out: &mut O, name: &[u8], number: u64) -> Result<(), OutputFault>
    ensures { Puts O.tells (O.state out.old) (O.state out.new) (number_text name.now number) result }
{
    let mut digits = Buffer::new();
    put_pieces(out, &[name, digits.format(number).as_bytes(), b"\n"])
}

/// Puts the last line if the cells are as wanted.
#[tactic(auto, unfolding(crate::specs::Lines::same_text))]
fn put_same<O: Sink>(out: &mut O, same: bool) -> Result<(), OutputFault>
    ensures { Puts O.tells (O.state out.old) (O.state out.new) (same_text same) result }
{
    if same {
        return put_pieces(out, &[b"same\n"]);
    }
    Ok(())
}

/// Puts pieces one after the other.
fn put_pieces<O: Sink>(out: &mut O, pieces: &[&[u8]]) -> Result<(), OutputFault>
    ensures { Puts O.tells (O.state out.old) (O.state out.new) (flat_map (λ piece. piece.now) pieces.now) result }
{
    put_all(out, pieces)
}
