//! The law on texts of records: each has one image or one fault.
ghost use Rattle.std.specs.Prelude.{◌≡◌, List, ℕ};
ghost use Rattle.byte_map.specs.Image.{Run};
ghost use Rattle.record_lines.specs.Format.{IsImageOfText, IsTextFault, IsMemoryFault};
ghost use Rattle.record_lines.specs.declared.fault.TextFault.{TextFault};

use crate::reader::RecordFormat;

/// A text of records has at most one image and at most one fault, and a text with an image has no fault. Out of memory is no
/// fault of a text.
pub fn texts_have_one_reading<S: RecordFormat>()
    ensures image { (lines : List (List ℕ)) (a b : List Run) → IsImageOfText S.format lines a → IsImageOfText S.format lines b → a ≡ b }
    ensures apart { (lines : List (List ℕ)) (image : List Run) (fault : TextFault S.Fault) → IsImageOfText S.format lines image
        → IsTextFault S.format lines fault → IsMemoryFault fault }
    ensures fault { (lines : List (List ℕ)) (a b : TextFault S.Fault) → IsTextFault S.format lines a → IsTextFault S.format lines b → (IsMemoryFault a → ⊥)
        → (IsMemoryFault b → ⊥) → a ≡ b }
{}
