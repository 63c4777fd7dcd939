//! The law on searches: what is found by a name is the first that has it.
ghost use Rattle.std.specs.Prelude.{◌≡◌, ◌<◌, ℕ, Bool, false, Some, None};
ghost use Rattle.elf32.specs.Search.{first_below, IsLeast};

/// The number that a search below `n` finds is below `n`, passes the test, and is the least that does; where it finds none, none passes.
pub fn first_is_least()
    ensures found { (test : ℕ → Bool) (n i : ℕ) → first_below test n ≡ Some i → IsLeast test n i }
    ensures none { (test : ℕ → Bool) (n k : ℕ) → first_below test n ≡ None → k < n → test k ≡ false }
{}
