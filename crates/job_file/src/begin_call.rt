//! The call that begins a job.
ghost use Rattle.std.specs.Prelude.{◌≡◌, ◌++◌, ◌∷◌, ℕ, List, length, true, false, IsTrue, IsOk, OnOk, IfOk, IfErr, None};
ghost use Rattle.bench_model.specs.History.{LeftOnly, Leaves, AddsNothing};
ghost use Rattle.bench_model.specs.State.{file_half, cells_half, SameOutside};
ghost use Rattle.bench_model.specs.Calls.{OnlyReads};
ghost use Rattle.job_text.specs.Body.{body_of};
ghost use Rattle.job_text.specs.Files.{IsFree, open_gate};
ghost use Rattle.job_text.specs.Parts.{job_of, AreParts, head_of_parts, front_of, with_hash};
ghost use Rattle.job_text.specs.Stands.{IsClassOf};
ghost use Rattle.job_file.specs.Counted.{IsFault, ReadsUnlessFault, begin_fault};
ghost use Rattle.bench_model.specs.Counted.{is_store_fault, is_device_fault, fault_in, IsCounted};
ghost use Rattle.job_file.specs.Faults.{IsBeginFault, IsSoundBegin, IsSoundClass};
ghost use Rattle.job_file.specs.Stops.{IsFreeOrWhole, IsOfBegin};
ghost use Rattle.job_file.specs.First.{SyncsFirst};
ghost use Rattle.job_file.specs.Unopened.{UnopenedAtDeviceFault};

use crate::class::look;
use crate::fault::BeginFault;
use crate::gate::put_job;
use crate::pieces::PIECE;
use bench_model::Bench;
use job_text::{Class, JobParts, head_text};
use std::alloc::Global;

/// Whether a job for `said` cells may be begun over a file of this class, on a bench of `found` cells.
fn admit(class: Class, said: u32, found: u32) -> Result<(), BeginFault>
    requires { IsSoundClass class }
    ensures free { (file : List ℕ) → IsClassOf class file → OnOk result (IsFree file) }
    ensures sized { OnOk result (said ≡ found) }
    ensures refused { (file : List ℕ) → IsClassOf class file → IfErr result (IsBeginFault file said found) }
    ensures sound { IfErr result (IsSoundBegin said found) }
    ensures no_store { is_store_fault (fault_in begin_fault result) ≡ false }
    ensures no_device { is_device_fault (fault_in begin_fault result) ≡ false }
{
    match class {
        Class::Stands(_) => Err(BeginFault::JobOpen),
        Class::Damaged(damage) => {
            let kept = damage.kept;
            let found = damage.found;
            Err(BeginFault::Damaged { kept, found })
        }
        Class::NotAJob { at } => Err(BeginFault::NotAJob { at }),
        Class::Free if said != found => Err(BeginFault::CellsDiffer { said, found }),
        Class::Free => Ok(()),
    }
}

/// Does all of `begin` that comes before the device is touched, and takes all its memory. Answers the head of the body to be written.
fn prepare<B: Bench>(alloc: Global, bench: &mut B, parts: &JobParts) -> Result<Vec<u8>, BeginFault>
    requires { AreParts parts.now }
    ensures head { IfOk result (λ v. v.items ≡ head_of_parts parts.now) }
    ensures sized { IsOk result → parts.now.size ≡ (B.state bench.old).cell_count }
    ensures free { IsTrue B.tells → OnOk result (IsFree (B.state bench.old).file
        × LeftOnly (B.state bench.old).file (file_half (B.state bench.new))) }
    ensures refused { IsTrue B.tells → IfErr result (IsBeginFault (B.state bench.old).file parts.now.size (B.state bench.old).cell_count) }
    ensures sound { IfErr result (IsSoundBegin parts.now.size (B.state bench.old).cell_count) }
    ensures reads { OnlyReads B.tells (B.state bench.old) (B.state bench.new) }
    ensures counted { IsCounted (B.state bench.old).store_faults (B.state bench.new).store_faults (is_store_fault (fault_in begin_fault result)) }
    ensures no_device { is_device_fault (fault_in begin_fault result) ≡ false }
    ensures first { SyncsFirst B.tells B.state B.acts bench.old bench.new (is_store_fault (fault_in begin_fault result) ≡ true) }
{
    let class = look(alloc, bench)?;
    admit(class, parts.size, bench.cells_len())?;
    Ok(head_text(alloc, parts)?)
}

/// Breaks off an open operation and writes the job. The snapshot is read while it is written.
fn drop_and_put<B: Bench>(
    bench: &mut B,
    head: &[u8],
    parts: &JobParts,
    window: &mut [u8],
) -> Result<(), BeginFault>
    requires parts { AreParts parts.now }
    requires head { head.now ≡ head_of_parts parts.now }
    requires room { length window.old ≡ PIECE }
    requires free { IsTrue B.tells → IsFree (B.state bench.old).file }
    requires only { IsTrue B.tells → LeftOnly (B.state bench.old).file (file_half (B.state bench.old)) }
    ensures same { IsTrue B.tells → SameOutside (B.state bench.old).operation (B.state bench.old).cells (B.state bench.new).cells }
    ensures ok { IsTrue B.tells → OnOk result (((B.state bench.new).file ≡ open_gate ∷ with_hash (front_of parts.now ++ (B.state bench.new).cells))
        × LeftOnly (open_gate ∷ with_hash (front_of parts.now ++ (B.state bench.new).cells)) (file_half (B.state bench.new))
        × ((B.state bench.new).operation ≡ None)) }
    ensures stops { IsTrue B.tells → Leaves (file_half (B.state bench.old)) (file_half (B.state bench.new))
        (IsOfBegin (file_half (B.state bench.old)) (with_hash (front_of parts.now ++ (B.state bench.new).cells))) }
    ensures unopened { IsTrue B.tells → UnopenedAtDeviceFault (file_half (B.state bench.old)) (file_half (B.state bench.new)) result }
    ensures cells { AddsNothing (cells_half (B.state bench.old)) (cells_half (B.state bench.new)) }
    ensures count { (B.state bench.new).cell_count ≡ (B.state bench.old).cell_count }
    ensures fault { IfErr result IsFault }
    ensures store { IsCounted (B.state bench.old).store_faults (B.state bench.new).store_faults (is_store_fault (fault_in begin_fault result)) }
    ensures device { IsCounted (B.state bench.old).device_faults (B.state bench.new).device_faults (is_device_fault (fault_in begin_fault result)) }
{
    bench.cells_drop()?;
    put_job(bench, head, parts, window)
}

/// Begins a job over a free file. The snapshot is read once no operation is open on the device, and is written as it is read, some
/// thousand cells at a time. Then the hash is written, and the gate is opened last. All memory is taken before an operation is broken
/// off.
///
/// # Errors
///
/// `JobOpen`, `NotAJob` and `Damaged` exactly by what the file is; `CellsDiffer` exactly where the file is free and the numbers differ;
/// `StoreFault` and `DeviceFault` only where they were counted. With any other refusal, file and cells are only read.
pub fn begin<B: Bench>(alloc: Global, bench: &mut B, parts: &JobParts) -> Result<(), BeginFault>
    requires { AreParts parts.now }

    // With every answer, the cells at the end are the snapshot: those of the entry, except in the range of an operation open then.
    ensures same { IsTrue B.tells → SameOutside (B.state bench.old).operation (B.state bench.old).cells (B.state bench.new).cells }
    ensures ok { IsTrue B.tells → OnOk result (((B.state bench.new).file ≡ open_gate ∷ body_of (job_of parts.now (B.state bench.new).cells))
        × LeftOnly (open_gate ∷ body_of (job_of parts.now (B.state bench.new).cells)) (file_half (B.state bench.new))
        × ((B.state bench.new).operation ≡ None)) }
    ensures free { IsTrue B.tells → OnOk result (IsFree (B.state bench.old).file) }
    ensures sized { IsOk result → parts.now.size ≡ (B.state bench.old).cell_count }
    ensures count { (B.state bench.new).cell_count ≡ (B.state bench.old).cell_count }

    // A stop leaves the file as one at the entry may leave it, or a free file, or the whole job. It leaves the cells as one at the entry.
    ensures stops { IsTrue B.tells → Leaves (file_half (B.state bench.old)) (file_half (B.state bench.new))
        (IsOfBegin (file_half (B.state bench.old)) (body_of (job_of parts.now (B.state bench.new).cells))) }
    ensures cells { AddsNothing (cells_half (B.state bench.old)) (cells_half (B.state bench.new)) }

    // A device fault comes before the gate is opened.
    ensures unopened { IsTrue B.tells → UnopenedAtDeviceFault (file_half (B.state bench.old)) (file_half (B.state bench.new)) result }

    // With every answer, a file that was free is free or stands for this job.
    ensures after { IsTrue B.tells → IsFree (B.state bench.old).file
        → IsFreeOrWhole (body_of (job_of parts.now (B.state bench.new).cells)) (B.state bench.new).file }

    // Where the file isn't free, or the numbers of cells differ, the file is only read, with every answer.
    ensures looked { IsTrue B.tells → (IsFree (B.state bench.old).file × (parts.now.size ≡ (B.state bench.old).cell_count) → ⊥)
        → OnlyReads B.tells (B.state bench.old) (B.state bench.new) }

    // The file is synced before any other call on the bench, and what is refused is what a stop after that sync leaves. If the sync
    // fails, no other call is made.
    ensures first { SyncsFirst B.tells B.state B.acts bench.old bench.new (is_store_fault (fault_in begin_fault result) ≡ true) }

    // Together with `ok`, `free` and `sized`: each refusal comes exactly where it says.
    ensures refused { IsTrue B.tells → IfErr result (IsBeginFault (B.state bench.old).file parts.now.size (B.state bench.old).cell_count) }
    ensures sound { IfErr result (IsSoundBegin parts.now.size (B.state bench.old).cell_count) }
    ensures reads { ReadsUnlessFault B.tells (B.state bench.old) (B.state bench.new) result }
    ensures store { IsCounted (B.state bench.old).store_faults (B.state bench.new).store_faults (is_store_fault (fault_in begin_fault result)) }
    ensures device { IsCounted (B.state bench.old).device_faults (B.state bench.new).device_faults (is_device_fault (fault_in begin_fault result)) }
{
    let head = prepare(alloc, bench, parts)?;
    drop_and_put(bench, &head, parts, &mut [0; PIECE])
}
