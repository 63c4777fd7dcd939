//! Prints the plans of a session.
ghost use Rattle.std.specs.Prelude.{◌<◌, ◌++◌, length, get_or, IfSome, IsSomeAnd};
ghost use Rattle.job_text.specs.Said.{algorithms_shown};
ghost use Rattle.outside_io.specs.Puts.{Puts};
ghost use Rattle.flash_session.specs.Script.{Planned};
ghost use Rattle.flash_session.specs.Sessions.{job_in, surveyed};
ghost use Rattle.report_text.specs.Region.{region_text};
ghost use Rattle.job_commands.specs.Work.{shown_region, plans_shown};
ghost use Rattle.job_commands.specs.Printed.{ArePlansFor};

use flash_session::Session;
use outside_io::{OutputFault, Sink};
use report_text::{put_plan, put_region};

/// Puts the plans of the last survey. If the board has one region, that is the text of its plan; otherwise it is for each region in turn
/// its line and the text. A fault may leave a beginning of it.
pub(crate) fn put_plans<O: Sink>(out: &mut O, session: &Session) -> Result<(), OutputFault>
    requires { IsSomeAnd (surveyed session.now) (λ w. ArePlansFor (algorithms_shown (job_in session.now).algorithms) w.regions) }
    ensures { IfSome (surveyed session.now) (λ w. Puts O.tells (O.state out.old) (O.state out.new) (plans_shown w.regions) result) }
{
    let count = session.job().algorithms.as_slice().len();
    if count == 1 {
        return put_plan_of(out, session, 0);
    }
    put_region_plan(out, session, 0)?;
    put_region_plan(out, session, 1)
}

/// Puts the line of a region, and the text of its plan.
fn put_region_plan<O: Sink>(
    out: &mut O,
    session: &Session,
    region: usize,
) -> Result<(), OutputFault>
    requires plans { IsSomeAnd (surveyed session.now) (λ w. ArePlansFor (algorithms_shown (job_in session.now).algorithms) w.regions) }
    requires region { region < length (job_in session.now).algorithms }
    ensures { IfSome (surveyed session.now) (λ w. (other : Planned) → Puts O.tells (O.state out.old) (O.state out.new)
        (region_text (get_or w.regions region other).base ++ (shown_region (get_or w.regions region other)).1) result) }
{
    let algorithms = session.job().algorithms.as_slice();
    let algorithm = &algorithms[region];
    put_region(out, algorithm.device.base)?;
    put_plan_of(out, session, region)
}

/// Puts the text of the plan of a region.
fn put_plan_of<O: Sink>(out: &mut O, session: &Session, region: usize) -> Result<(), OutputFault>
    requires plans { IsSomeAnd (surveyed session.now) (λ w. ArePlansFor (algorithms_shown (job_in session.now).algorithms) w.regions) }
    requires region { region < length (job_in session.now).algorithms }
    ensures { IfSome (surveyed session.now) (λ w. (other : Planned) → Puts O.tells (O.state out.old) (O.state out.new)
        (shown_region (get_or w.regions region other)).1 result) }
{
    let algorithms = session.job().algorithms.as_slice();
    let algorithm = &algorithms[region];
    let geometry = session.geometry_of(region);
    let plan = session.plan_of(region);
    put_plan(out, geometry, algorithm.device.base, plan)
}
