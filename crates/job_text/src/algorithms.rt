//! The algorithms of a job.
ghost use Rattle.std.specs.Prelude.{◌≡◌, Option, Some, IfOk};

use faults::OutOfMemory;
use flm_descriptor::Algorithm;
use std::alloc::Global;
use std::marker::Model;

/// The algorithms of a board, one for each region. A contract sees their list.
#[derive(Drop)]
pub struct Algorithms {
    algorithms: Vec<Algorithm>,
}

impl Model for Algorithms {
    ghost use Rattle.std.specs.Prelude.{List};
    ghost use Rattle.flm_descriptor.specs.declared.algorithm.Algorithm.{Algorithm};

    ghost Value = { List Algorithm };

    ghost view = { λ a. a.algorithms.items };
}

impl Algorithms {
    ghost use Rattle.job_text.specs.Said.{one_or_two};

    /// One algorithm, or two.
    pub fn new(
        alloc: Global,
        first: Algorithm,
        second: Option<Algorithm>,
    ) -> Result<Algorithms, OutOfMemory>
        ensures { IfOk result (λ all. all ≡ one_or_two first second) }
    {
        let mut algorithms = Vec::new(alloc);
        algorithms.push(first)?;
        if let Some(second) = second {
            algorithms.push(second)?;
        }
        Ok(Algorithms { algorithms })
    }

    /// The algorithms.
    pub fn as_slice(&self) -> &[Algorithm]
        ensures { result.now ≡ self.now }
    {
        self.algorithms.as_slice()
    }
}
