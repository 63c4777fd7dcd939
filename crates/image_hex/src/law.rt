//! The law on texts of Intel HEX: each has one image or one fault.
ghost use Rattle.std.specs.Prelude.{◌≡◌, ◌≢◌, ℕ, List};
ghost use Rattle.byte_map.specs.Image.{Run};
ghost use Rattle.record_lines.specs.Format.{IsImageOfText};
ghost use Rattle.image_hex.specs.declared.fault.HexKind.{HexKind};
ghost use Rattle.image_hex.specs.Hex.{hex, IsHexFault};

/// A text of Intel HEX has at most one image and at most one fault. A text with an image has no fault, but reading it can run
/// out of memory.
pub fn hex_has_one_reading()
    ensures image { (lines : List (List ℕ)) (a b : List Run) → IsImageOfText hex lines a → IsImageOfText hex lines b → a ≡ b }
    ensures apart { (lines : List (List ℕ)) (image : List Run) (line : ℕ) (kind : HexKind) → IsImageOfText hex lines image → IsHexFault lines line kind
        → kind ≡ HexKind.OutOfMemory }
    ensures fault { (lines : List (List ℕ)) (line other : ℕ) (a b : HexKind) → IsHexFault lines line a → IsHexFault lines other b
        → a ≢ HexKind.OutOfMemory → b ≢ HexKind.OutOfMemory → (line ≡ other) × (a ≡ b) }
{}
