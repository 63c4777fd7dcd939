//! The text of a plan.
ghost use Rattle.std.specs.Prelude.{◌≤◌, ◌<◌, ◌+◌, ◌-◌, ◌^◌, codes, length};
ghost use Rattle.page_geometry.specs.Geometry.{IsGeometry};
ghost use Rattle.report_text.specs.Plan.{kind_text, action_text, member_text, set_text, erase_text, cost_text, plan_text};
ghost use Rattle.outside_io.specs.Gathers.{Gathers};
ghost use Rattle.outside_io.specs.Puts.{Puts};

use erase_planner::Plan;
use itoa::Buffer;
use octets::hex_digits;
use outside_io::{Gathered, OutputFault, Sink};
use page_geometry::Geometry;

/// Puts what a plan erases, what it programs and what it costs, line by line, for a device of this geometry with its first byte at the
/// address `base`. A fault may leave a beginning of it. It goes out in pieces of up to 4,096 bytes.
pub fn put_plan<O: Sink>(
    out: &mut O,
    geometry: &Geometry,
    base: u32,
    plan: &Plan,
) -> Result<(), OutputFault>
    requires { base + geometry.now.size ≤ 2 ^ 32 }
    ensures { Puts O.tells (O.state out.old) (O.state out.new) (plan_text geometry.now base plan.now.made) result }
{
    let mut text = Gathered::new();
    gather_plan(out, &mut text, geometry, base, plan)?;
    text.put(out)
}

/// Gathers the whole text of a plan.
fn gather_plan<O: Sink>(
    out: &mut O,
    text: &mut Gathered,
    geometry: &Geometry,
    base: u32,
    plan: &Plan,
) -> Result<(), OutputFault>
    requires { base + geometry.now.size ≤ 2 ^ 32 }
    ensures { Gathers O.tells (O.state out.old) (O.state out.new) text.old text.new (plan_text geometry.now base plan.now.made) result }
{
    gather_kind(out, text, plan)?;
    gather_erasures(out, text, geometry, base, plan)?;
    gather_pages(out, text, geometry, base, plan)?;
    gather_cost(out, text, plan.cost())
}

/// Gathers the line that says what kind of plan it is.
fn gather_kind<O: Sink>(out: &mut O, text: &mut Gathered, plan: &Plan) -> Result<(), OutputFault>
    ensures { Gathers O.tells (O.state out.old) (O.state out.new) text.old text.new (kind_text plan.now.made) result }
{
    if plan.is_empty() {
        return text.add_all(out, &[b"plan none\n"]);
    }
    if plan.is_chip() {
        return text.add_all(out, &[b"plan chip\n"]);
    }
    text.add_all(out, &[b"plan sectors\n"])
}

/// Gathers a line for the chip if it is erased, or else one for each erased sector.
fn gather_erasures<O: Sink>(
    out: &mut O,
    text: &mut Gathered,
    geometry: &Geometry,
    base: u32,
    plan: &Plan,
) -> Result<(), OutputFault>
    requires { base + geometry.now.size ≤ 2 ^ 32 }
    ensures { Gathers O.tells (O.state out.old) (O.state out.new) text.old text.new (erase_text geometry.now base plan.now.made) result }
{
    if plan.is_chip() {
        return text.add_all(out, &[b"erase chip\n"]);
    }
    gather_sectors(out, text, geometry, base, plan)
}

/// Gathers a line for each sector that is erased.
fn gather_sectors<O: Sink>(
    out: &mut O,
    text: &mut Gathered,
    geometry: &Geometry,
    base: u32,
    plan: &Plan,
) -> Result<(), OutputFault>
    requires { base + geometry.now.size ≤ 2 ^ 32 }
    ensures { Gathers O.tells (O.state out.old) (O.state out.new) text.old text.new
        (set_text (codes "erase") base geometry.now.sectors plan.now.made.sectors) result }
{
    for index in 0..geometry.sectors() {
        gather_sector(out, text, geometry, base, plan, index)?;
    }
    Ok(())
}

/// Gathers the line of a sector if it is erased.
fn gather_sector<O: Sink>(
    out: &mut O,
    text: &mut Gathered,
    geometry: &Geometry,
    base: u32,
    plan: &Plan,
    index: u32,
) -> Result<(), OutputFault>
    requires lawful { IsGeometry geometry.now }
    requires fits { base + geometry.now.size ≤ 2 ^ 32 }
    requires number { index < length geometry.now.sectors }
    ensures { Gathers O.tells (O.state out.old) (O.state out.new) text.old text.new
        (member_text (codes "erase") base geometry.now.sectors plan.now.made.sectors index) result }
{
    if !plan.sector_in(index) {
        return Ok(());
    }
    let (place, len) = geometry.sector(index);
    gather_action(out, text, b"erase", base + place, len)
}

/// Gathers a line for each page that is programmed.
fn gather_pages<O: Sink>(
    out: &mut O,
    text: &mut Gathered,
    geometry: &Geometry,
    base: u32,
    plan: &Plan,
) -> Result<(), OutputFault>
    requires { base + geometry.now.size ≤ 2 ^ 32 }
    ensures { Gathers O.tells (O.state out.old) (O.state out.new) text.old text.new
        (set_text (codes "program") base geometry.now.pages plan.now.made.pages) result }
{
    for index in 0..geometry.pages() {
        gather_page(out, text, geometry, base, plan, index)?;
    }
    Ok(())
}

/// Gathers the line of a page if it is programmed.
fn gather_page<O: Sink>(
    out: &mut O,
    text: &mut Gathered,
    geometry: &Geometry,
    base: u32,
    plan: &Plan,
    index: u32,
) -> Result<(), OutputFault>
    requires lawful { IsGeometry geometry.now }
    requires fits { base + geometry.now.size ≤ 2 ^ 32 }
    requires number { index < length geometry.now.pages }
    ensures { Gathers O.tells (O.state out.old) (O.state out.new) text.old text.new
        (member_text (codes "program") base geometry.now.pages plan.now.made.pages index) result }
{
    if !plan.page_in(index) {
        return Ok(());
    }
    let (place, len) = geometry.page(index);
    gather_action(out, text, b"program", base + place, len)
}

/// Gathers the line of an action.
#[tactic(auto, unfolding(crate::specs::Plan::action_text))]
fn gather_action<O: Sink>(
    out: &mut O,
    text: &mut Gathered,
    name: &[u8],
    at: u32,
    len: u32,
) -> Result<(), OutputFault>
    ensures { Gathers O.tells (O.state out.old) (O.state out.new) text.old text.new (action_text name.now at len) result }
{
    let mut of_len = Buffer::new();
    let at = hex_digits::<8>(at);
    let len = of_len.format(len).as_bytes();
    text.add_all(out, &[name, b" ", &at, b" ", len, b"\n"])
}

/// Gathers the line of a cost.
#[tactic(auto, unfolding(crate::specs::Plan::cost_text))]
fn gather_cost<O: Sink>(out: &mut O, text: &mut Gathered, cost: u64) -> Result<(), OutputFault>
    ensures { Gathers O.tells (O.state out.old) (O.state out.new) text.old text.new (cost_text cost) result }
{
    let mut of_cost = Buffer::new();
    text.add_all(out, &[b"cost ", of_cost.format(cost).as_bytes(), b"\n"])
}
