//! The text of the job in a file.
ghost use Rattle.std.specs.Prelude.{◌≡◌, option_map};
ghost use Rattle.std.specs.List.{flat_map};
ghost use Rattle.report_text.specs.Job.{bytes_in, device_line, devices_of, image_line, job_text, status_text};
ghost use Rattle.outside_io.specs.Puts.{Puts};

use crate::pieces::put_pieces;
use byte_map::ByteMap;
use flm_descriptor::{Algorithm, Device};
use itoa::Buffer;
use job_text::Job;
use octets::hex_digits;
use outside_io::{OutputFault, Sink};

/// Puts the job of a job file, or that there is none. A fault may leave a beginning of it.
pub fn put_job<O: Sink>(out: &mut O, job: Option<&Job>) -> Result<(), OutputFault>
    ensures { Puts O.tells (O.state out.old) (O.state out.new) (status_text (option_map (λ j. j.now) job.entry)) result }
{
    match job {
        Some(job) => put_open_job(out, job),
        None => put_pieces(out, &[b"job none\n"]),
    }
}

/// Puts the lines of a job: the device of each region, and how many bytes its image has in how many runs.
fn put_open_job<O: Sink>(out: &mut O, job: &Job) -> Result<(), OutputFault>
    ensures { Puts O.tells (O.state out.old) (O.state out.new) (job_text (devices_of job.now) job.now.image) result }
{
    put_pieces(out, &[b"job open\n"])?;
    put_devices(out, job.algorithms.as_slice())?;
    put_image(out, &job.image)
}

/// Puts a line for the device of each algorithm.
fn put_devices<O: Sink>(out: &mut O, algorithms: &[Algorithm]) -> Result<(), OutputFault>
    ensures { Puts O.tells (O.state out.old) (O.state out.new) (flat_map (λ a. device_line a.device) algorithms.now) result }
{
    for algorithm in algorithms {
        put_device(out, &algorithm.device)?;
    }
    Ok(())
}

/// Puts the line of a device.
#[tactic(auto, unfolding(crate::specs::Job::device_line))]
fn put_device<O: Sink>(out: &mut O, device: &Device) -> Result<(), OutputFault>
    ensures { Puts O.tells (O.state out.old) (O.state out.new) (device_line device.now) result }
{
    let mut of_size = Buffer::new();
    let base = hex_digits::<8>(device.base);
    let size = of_size.format(device.size).as_bytes();
    put_pieces(out, &[b"device ", &base, b" ", size, b"\n"])
}

/// Puts the line of an image.
#[tactic(auto, unfolding(crate::specs::Job::image_line))]
fn put_image<O: Sink>(out: &mut O, image: &ByteMap) -> Result<(), OutputFault>
    ensures { Puts O.tells (O.state out.old) (O.state out.new) (image_line image.now) result }
{
    let mut of_bytes = Buffer::new();
    let mut of_runs = Buffer::new();
    let bytes = of_bytes.format(bytes_in(image)).as_bytes();
    let runs = of_runs.format(image.runs()).as_bytes();
    put_pieces(out, &[b"image ", bytes, b" bytes in ", runs, b" runs\n"])
}

/// How many bytes an image has.
fn bytes_in(image: &ByteMap) -> u64
    ensures { result ≡ bytes_in image.now }
{
    let mut count = 0;
    for index in 0..image.runs() {
        let (_, bytes) = image.run(index);
        count += bytes.len() as u64;
    }
    count
}
