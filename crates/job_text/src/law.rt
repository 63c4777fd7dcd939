//! The laws on jobs.
ghost use Rattle.std.specs.Prelude.{◌≡◌, ◌<◌, ℕ, List, get_or, length};
ghost use Rattle.board_file.specs.Shown as board;
ghost use Rattle.flm_descriptor.specs.Shown as flm;
ghost use Rattle.job_text.specs.Body.{Job, HasFields, body_of};
ghost use Rattle.job_text.specs.Jobs.{IsJob};
ghost use Rattle.job_text.specs.Classes.{HasOneClass};
ghost use Rattle.job_text.specs.Stands.{IsSomeJob, IsDamaged};
ghost use Rattle.job_text.specs.declared.parts.JobParts.{JobParts};
ghost use Rattle.job_text.specs.Parts.{job_of, AreParts};

/// A body belongs to one job only. Each job has one body, since a body is a function of its job.
pub fn bodies_have_one_job()
    ensures { (j k : Job) (b c : board.Shown) (a e : List flm.Shown) → IsJob j b a → IsJob k c e
        → body_of j ≡ body_of k → j ≡ k }
{}

/// A body belongs to one job only, wherever the numbers of both jobs fit their fields, whatever their texts say.
pub fn fields_tell_one_job()
    ensures { (j k : Job) → HasFields j → HasFields k → body_of j ≡ body_of k → j ≡ k }
{}

/// The numbers of a job fit their fields.
pub fn jobs_have_fields()
    ensures { (j : Job) (b : board.Shown) (a : List flm.Shown) → IsJob j b a → HasFields j }
{}

/// Parts make a job with any snapshot of their size.
pub fn parts_make_a_job()
    ensures { (parts : JobParts) (are : AreParts parts) (snapshot : List ℕ) → length snapshot ≡ parts.size
        → IsJob (job_of parts snapshot) are.board are.algorithms }
{}

/// Every file of bytes is free, stands for a job, is damaged, or is no job, and only one of these.
pub fn files_have_one_class()
    ensures { (file : List ℕ) → ((i : ℕ) → get_or file i 0 < 256) → HasOneClass file }
{}

/// A file that stands for a job isn't damaged.
pub fn damaged_files_have_no_job()
    ensures { (file kept found : List ℕ) → IsDamaged kept found file → IsSomeJob file → ⊥ }
{}
