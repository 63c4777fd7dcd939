//! The law on a command's files.
ghost use Rattle.std.specs.Prelude.{◌≡◌};
ghost use Rattle.report_text.specs.Refusal.{Refusal};
ghost use Rattle.command_words.specs.Files.{FilesAsked};
ghost use Rattle.command_files.specs.Inputs.{FilesGiven};
ghost use Rattle.command_files.specs.Files.{Aim, IsAim};
ghost use Rattle.command_files.specs.Refused.{IsRefused};

/// Files say one thing: either they want one image for one board, or they are refused for one reason, and never both.
pub fn files_say_one_thing()
    ensures aim { (asked : FilesAsked) (files : FilesGiven) (one other : Aim) → IsAim asked.raw_at files one → IsAim asked.raw_at files other → one ≡ other }
    ensures refusal { (asked : FilesAsked) (files : FilesGiven) (one other : Refusal) → IsRefused asked files one → IsRefused asked files other → one ≡ other }
    ensures never_both { (asked : FilesAsked) (files : FilesGiven) (aim : Aim) (refusal : Refusal) → IsAim asked.raw_at files aim
        → IsRefused asked files refusal → ⊥ }
{}
