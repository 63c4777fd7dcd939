//! What to erase and program so that a flash device gets its wanted contents at the least cost. A plan is made from the old and the wanted
//! contents piece by piece, and keeps no copy of either.
#![tactic(auto)]

mod choose;
mod marks;
mod plan;

pub use plan::{Plan, plan_feed, plan_finish, plan_into, plan_start};
