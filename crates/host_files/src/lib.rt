//! The device, the job, the inputs and the standard streams as files of the host, and the arguments of the program.
#![tactic(auto)]

mod arguments;
mod cells_file;
mod file_bench;
mod file_id;
mod file_inputs;
mod file_lock;
mod host_disk;
mod host_source;
mod job_file;
mod plan_totals;
mod progress_line;
mod purpose;
mod std_sink;
mod streams;

pub use arguments::read_arguments;
pub use cells_file::CellsFile;
pub use file_bench::{FileBench, ShownBench};
pub use file_id::FileId;
pub use file_inputs::FileInputs;
pub use host_disk::HostDisk;
pub use job_file::JobFile;
pub use progress_line::ProgressLine;
pub use purpose::Purpose;
pub use std_sink::StdSink;
pub use streams::{HeldStreams, hold_streams};
