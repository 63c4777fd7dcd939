//! The command `status`: prints the job in the file, as `job_file` opens it.
#![tactic(auto)]

mod status_command;

pub use status_command::status;
