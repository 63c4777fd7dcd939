//! The law on texts of S-records: each has one image or one fault.
ghost use Rattle.std.specs.Prelude.{◌≡◌, ◌≢◌, ℕ, List};
ghost use Rattle.byte_map.specs.Image.{Run};
ghost use Rattle.record_lines.specs.Format.{IsImageOfText};
ghost use Rattle.image_srec.specs.declared.fault.SrecKind.{SrecKind};
ghost use Rattle.image_srec.specs.Srec.{srec, IsSrecFault};

/// A text of S-records has at most one image and at most one fault. A text with an image has no fault, but reading it can run
/// out of memory.
pub fn srec_has_one_reading()
    ensures image { (lines : List (List ℕ)) (a b : List Run) → IsImageOfText srec lines a → IsImageOfText srec lines b → a ≡ b }
    ensures apart { (lines : List (List ℕ)) (image : List Run) (line : ℕ) (kind : SrecKind) → IsImageOfText srec lines image → IsSrecFault lines line kind
        → kind ≡ SrecKind.OutOfMemory }
    ensures fault { (lines : List (List ℕ)) (line other : ℕ) (a b : SrecKind) → IsSrecFault lines line a → IsSrecFault lines other b
        → a ≢ SrecKind.OutOfMemory → b ≢ SrecKind.OutOfMemory → (line ≡ other) × (a ≡ b) }
{}
