//! The call that opens a job.
ghost use Rattle.std.specs.Prelude.{◌≡◌, ℕ, List, true, false, IsTrue, OnOk, IfOk, IfErr};
ghost use Rattle.bench_model.specs.History.{LeftOnly};
ghost use Rattle.bench_model.specs.State.{file_half};
ghost use Rattle.bench_model.specs.Calls.{OnlyReads};
ghost use Rattle.board_file.specs.Limits.{size_of};
ghost use Rattle.job_text.specs.Stands.{StandsFor, IsClassOf};
ghost use Rattle.job_file.specs.Counted.{open_fault};
ghost use Rattle.bench_model.specs.Counted.{is_store_fault, fault_in, IsCounted};
ghost use Rattle.job_file.specs.Faults.{IsOpenFault, IsSoundOpen, IsSoundClass};
ghost use Rattle.job_file.specs.First.{SyncsFirst};

use crate::class::look;
use crate::fault::OpenFault;
use bench_model::Bench;
use job_text::{Class, Job};
use std::alloc::Global;

/// The job of a file of this class, on a bench of `found` cells.
fn judge(class: Class, found: u32) -> Result<Job, OpenFault>
    requires { IsSoundClass class }
    ensures ok { (file : List ℕ) → IsClassOf class file → IfOk result (λ job. StandsFor job file) }
    ensures sized { IfOk result (λ job. size_of job.board.regions ≡ found) }
    ensures refused { (file : List ℕ) → IsClassOf class file → IfErr result (IsOpenFault file found) }
    ensures sound { IfErr result (IsSoundOpen found) }
    ensures no_fault { is_store_fault (fault_in open_fault result) ≡ false }
{
    match class {
        Class::Free => Err(OpenFault::NoJob),
        Class::NotAJob { at } => Err(OpenFault::NotAJob { at }),
        Class::Damaged(damage) => {
            let kept = damage.kept;
            let found = damage.found;
            Err(OpenFault::Damaged { kept, found })
        }
        Class::Stands(job) => {
            let said = job.cells();
            if said != found {
                return Err(OpenFault::CellsDiffer { said, found });
            }
            Ok(job)
        }
    }
}

/// Opens the job for which the file stands. It syncs the file first, so that it reads what a stop leaves, and it changes nothing. After
/// Ok, a stop leaves this file and nothing else.
///
/// # Errors
///
/// `NoJob`, `NotAJob` and `Damaged` exactly by what the file is; `CellsDiffer` exactly where it stands for a job with another number of
/// cells; `StoreFault` only where it was counted.
pub fn open<B: Bench>(alloc: Global, bench: &mut B) -> Result<Job, OpenFault>
    ensures ok { IsTrue B.tells → IfOk result (λ job. StandsFor job (B.state bench.old).file) }
    ensures sized { IfOk result (λ job. size_of job.board.regions ≡ (B.state bench.old).cell_count) }
    ensures only { IsTrue B.tells → OnOk result (LeftOnly (B.state bench.old).file (file_half (B.state bench.new))) }

    // The file is synced before any other call on the bench, and what is read, or refused, is what a stop after that sync leaves. If the
    // sync fails, no other call is made.
    ensures first { SyncsFirst B.tells B.state B.acts bench.old bench.new (is_store_fault (fault_in open_fault result) ≡ true) }

    // Together with `ok` and `sized`: each refusal comes exactly where it says.
    ensures refused { IsTrue B.tells → IfErr result (IsOpenFault (B.state bench.old).file (B.state bench.old).cell_count) }
    ensures sound { IfErr result (IsSoundOpen (B.state bench.old).cell_count) }

    ensures reads { OnlyReads B.tells (B.state bench.old) (B.state bench.new) }
    ensures counted { IsCounted (B.state bench.old).store_faults (B.state bench.new).store_faults (is_store_fault (fault_in open_fault result)) }
{
    let class = look(alloc, bench)?;
    judge(class, bench.cells_len())
}
