//! The law on dumps, which needs no body.
ghost use Rattle.std.specs.Prelude.{◌≡◌, ◌<◌, ℕ, List, None};
ghost use Rattle.std.specs.List.{All};
ghost use Rattle.board_file.specs.declared.region.Region.{Region};
ghost use Rattle.byte_map.specs.Image.{Run};
ghost use Rattle.command_words.specs.declared.command.TextForm.{TextForm};
ghost use Rattle.image_more.specs.Any.{IsAnyImage};
ghost use Rattle.device_dump.specs.CellMaps.{IsMapOfCells};
ghost use Rattle.device_dump.specs.Dump.{text_in};

/// Cells have one map. Its text in either form is read, as any image file is, as that map and as no other.
pub fn dumps_are_read_as_their_cells()
    ensures one { (regions : List Region) (cells : List ℕ) (map other : List Run) → IsMapOfCells regions cells map
        → IsMapOfCells regions cells other → map ≡ other }
    ensures read { (form : TextForm) (regions : List Region) (cells : List ℕ) (map : List Run) → All (λ byte. byte < 256) cells → IsMapOfCells regions cells map
        → IsAnyImage None (text_in form map) map }
    ensures alone { (form : TextForm) (regions : List Region) (cells : List ℕ) (map other : List Run) → All (λ byte. byte < 256) cells
        → IsMapOfCells regions cells map
        → IsAnyImage None (text_in form map) other → other ≡ map }
{}
