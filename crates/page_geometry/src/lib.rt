//! The sectors and pages of a flash device, in tables that look each up by its number or by a place. Definitions in `specs/Ideal` say what
//! a flash algorithm is to do to the device's cells.
#![tactic(auto)]

mod geometry;
mod lookup;
mod pieces;

pub use geometry::Geometry;
