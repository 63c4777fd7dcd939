//! Laws of files and texts. They need no body.
ghost use Rattle.std.specs.Prelude.{◌≡◌, ◌≢◌, ℕ, List, Option, None, Some};
ghost use Rattle.octets.specs.Lines.{lines_of};
ghost use Rattle.byte_map.specs.Image.{Run, byte_at};
ghost use Rattle.record_lines.specs.Format.{IsImageOfText};
ghost use Rattle.image_hex.specs.Hex.{hex};
ghost use Rattle.image_srec.specs.Srec.{srec};
ghost use Rattle.image_more.specs.Maps.{IsByteMap};
ghost use Rattle.image_more.specs.Texts.{hex_text, srec_text};
ghost use Rattle.image_more.specs.Any.{IsAnyImage, IsAnyFault};
ghost use Rattle.image_more.specs.Files.{IsUnionBefore, HasByte};
ghost use Rattle.image_more.specs.Uf2.{IsUf2Image, IsUf2Fault};
ghost use Rattle.image_more.specs.declared.fault.AnyFault.{AnyFault};
ghost use Rattle.image_more.specs.declared.fault.Uf2Fault.{Uf2Fault};

/// The text of a map is read as that map and as no other, by the relation that the readers' contracts state.
pub fn texts_are_read_back()
    ensures hex { (map : List Run) → IsByteMap map → IsImageOfText hex (lines_of (hex_text map)) map }
    ensures hex_alone { (map other : List Run) → IsByteMap map → IsImageOfText hex (lines_of (hex_text map)) other → other ≡ map }
    ensures srec { (map : List Run) → IsByteMap map → IsImageOfText srec (lines_of (srec_text map)) map }
    ensures srec_alone { (map other : List Run) → IsByteMap map → IsImageOfText srec (lines_of (srec_text map)) other → other ≡ map }
{}

/// A file that is the text of a map stands for that map and for no other, if no address is given for raw bytes. Its first byte
/// shows its form.
pub fn files_of_texts_are_their_maps()
    ensures hex { (map : List Run) → IsByteMap map → IsAnyImage None (hex_text map) map }
    ensures hex_alone { (map other : List Run) → IsByteMap map → IsAnyImage None (hex_text map) other → other ≡ map }
    ensures srec { (map : List Run) → IsByteMap map → IsAnyImage None (srec_text map) map }
    ensures srec_alone { (map other : List Run) → IsByteMap map → IsAnyImage None (srec_text map) other → other ≡ map }
{}

/// A UF2 file stands for at most one image. One that stands for an image has no fault but out of memory.
pub fn uf2_files_have_one_image()
    ensures image { (bytes : List ℕ) (one two : List Run) → IsUf2Image bytes one → IsUf2Image bytes two → one ≡ two }
    ensures alone { (bytes : List ℕ) (image : List Run) (fault : Uf2Fault) → IsUf2Image bytes image → IsUf2Fault bytes fault → fault ≡ Uf2Fault.OutOfMemory }
{}

/// A file of any form stands for at most one image. One that stands for an image has no fault but out of memory, and each file has
/// at most one fault besides that.
pub fn files_of_any_form_have_one_image()
    ensures image { (raw_at : Option ℕ) (bytes : List ℕ) (one two : List Run) → IsAnyImage raw_at bytes one → IsAnyImage raw_at bytes two → one ≡ two }
    ensures alone { (raw_at : Option ℕ) (bytes : List ℕ) (image : List Run) (fault : AnyFault) → IsAnyImage raw_at bytes image → IsAnyFault raw_at bytes fault
        → fault ≡ AnyFault.OutOfMemory }
    ensures fault { (raw_at : Option ℕ) (bytes : List ℕ) (one two : AnyFault) → IsAnyFault raw_at bytes one → IsAnyFault raw_at bytes two
        → one ≢ AnyFault.OutOfMemory → two ≢ AnyFault.OutOfMemory → one ≡ two }
{}

/// The union of the images of files has a byte at an address exactly where an image of one of them has it there,
/// whatever the order of the files.
pub fn unions_have_the_bytes_of_files()
    ensures from { (raw_at : Option ℕ) (files : List (List ℕ)) (n : ℕ) (union : List Run) (a byte : ℕ) → IsUnionBefore raw_at files n union
        → byte_at union a ≡ Some byte → HasByte raw_at files n a byte }
    ensures to { (raw_at : Option ℕ) (files : List (List ℕ)) (n : ℕ) (union : List Run) (a byte : ℕ) → IsUnionBefore raw_at files n union
        → HasByte raw_at files n a byte → byte_at union a ≡ Some byte }
{}
