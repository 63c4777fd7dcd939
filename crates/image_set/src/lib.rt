//! Firmware images from files of any form, their union, and whether an image is within given ranges of addresses.
#![tactic(auto)]

mod fault;
mod form;
mod law;
mod ranges;
mod read;
mod segments;
mod union;

pub use fault::ImageFault;
pub use law::{files_have_one_fault, files_have_one_image, images_have_no_fault};
pub use ranges::{check, check_ranges};
pub use read::read_image;
pub use union::merge;
