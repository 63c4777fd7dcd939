//! What a breach says.
ghost use Rattle.std.specs.Prelude.{ℕ, List};
ghost use Rattle.board_file.specs.Shown.{Shown as BoardShown};
ghost use Rattle.flm_descriptor.specs.Shown.{Shown as AlgorithmShown};
ghost use Rattle.algo_calls.specs.Duties.{Duty, Phase, Serves};
ghost use Rattle.duty_trials.specs.Trials.{BreaksIn};

/// An algorithm doesn't keep its duties if one of its calls breaks in a list that may be asked for.
pub fn a_breach_refutes()
    ensures { (b : BoardShown) (a : AlgorithmShown) (region : ℕ) (cells : List ℕ) (phase : Phase) (before : List Duty) (d : Duty)
        → BreaksIn b a region cells phase before d → Serves b a region → ⊥ }
{}
