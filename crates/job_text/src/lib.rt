//! The text of a job file: the one body of a job, and the class of a file: free, standing for a job, damaged, or none of these.
//!
//! A job file is a gate, byte 0, followed by a body. A body of the second format has these parts: the mark `FLMJOB2`, the SHA-256 of
//! everything after the hash, and six lengths. Then come the text of a board, an FLM file for each of its regions, the runs of an image,
//! and a snapshot of the device. The first format, which is read but not written, has the mark `FLMJOB1`, no hash, four lengths and one
//! FLM file. A field is a number of 32 bits, the low byte first.
#![tactic(auto)]

mod algorithms;
mod class;
mod damage;
mod fault;
mod fields;
mod fit;
mod format;
mod head;
mod job;
mod law;
mod parts;
mod runs;
mod texts;

pub use algorithms::Algorithms;
pub use class::class_of_file;
pub use damage::Damage;
pub use fault::JobFault;
pub use fit::{covers, fits_in, suits};
pub use format::{Format, format_of};
pub use head::{Head, Places, places_in, take_head};
pub use job::{Class, Job, cells_in};
pub use law::{
    bodies_have_one_job, damaged_files_have_no_job, fields_tell_one_job, files_have_one_class,
    jobs_have_fields, parts_make_a_job,
};
pub use parts::{JobParts, head_text, run_head};
pub use runs::add_piece;
pub use texts::{algorithm_in, are_files, board_in};
