//! The commands, with their files or their number.
ghost use Rattle.std.specs.Prelude.{◌≡◌, ◌≢◌, IfSome, IfNone};
ghost use Rattle.command_words.specs.Words.{text_of, form_text};
ghost use Rattle.command_words.specs.declared.command.CommandName.{CommandName};
ghost use Rattle.command_words.specs.declared.command.TextForm.{TextForm};

use crate::names::Names;
use octets::Word;

/// A command, named by its first word.
#[derive(Clone, Copy)]
pub enum CommandName {
    Program,
    Begin,
    Resume,
    Revert,
    Plan,
    Verify,
    Compare,
    Status,
    Inspect,
    Dump,
    Demo,
}

impl CommandName {
    /// The command that a first word names.
    pub fn read(word: &Word) -> Option<CommandName>
        ensures some { IfSome result (λ name. word.now ≡ text_of name) }
        ensures none { IfNone result ((name : CommandName) → word.now ≢ text_of name) }
    {
        match word.text() {
            "program" => Some(CommandName::Program),
            "begin" => Some(CommandName::Begin),
            "resume" => Some(CommandName::Resume),
            "revert" => Some(CommandName::Revert),
            "plan" => Some(CommandName::Plan),
            "verify" => Some(CommandName::Verify),
            "compare" => Some(CommandName::Compare),
            "status" => Some(CommandName::Status),
            "inspect" => Some(CommandName::Inspect),
            "dump" => Some(CommandName::Dump),
            "demo" => Some(CommandName::Demo),
            _ => None,
        }
    }
}

/// The text formats for cells.
#[derive(Clone, Copy)]
pub enum TextForm {
    /// Intel HEX.
    Hex,

    /// Motorola S-records.
    Srec,
}

impl TextForm {
    /// The text format that a word names.
    pub fn read(word: &Word) -> Option<TextForm>
        ensures some { IfSome result (λ form. word.now ≡ form_text form) }
        ensures none { IfNone result ((form : TextForm) → word.now ≢ form_text form) }
    {
        match word.text() {
            "hex" => Some(TextForm::Hex),
            "srec" => Some(TextForm::Srec),
            _ => None,
        }
    }
}

/// The files of a command by name: a board, an FLM file if the command has one, and images. With an address there is one image, and its
/// file is raw bytes from that address on.
#[derive(Clone, Copy)]
pub struct FileNames<'a> {
    pub raw_at: Option<u32>,
    pub board: &'a Word,
    pub flm: Option<&'a Word>,
    pub images: Names<'a>,
}

/// A command with the names of its files, or with its number.
#[derive(Clone, Copy)]
pub enum Request<'a> {
    /// Begins a job with the union of images, on a board by an algorithm, and carries it out.
    Program(FileNames<'a>),

    /// Begins a job with the union of images, on a board by an algorithm, and does no more.
    Begin(FileNames<'a>),

    /// Carries out the job in the job file: the cells get its image.
    Resume,

    /// Undoes the job in the job file: the cells become what they were when it began.
    Revert,

    /// Prints what must be done to get the union of images into the cells, on a board by an algorithm.
    Plan(FileNames<'a>),

    /// Compares the cells with the union of images, on a board.
    Verify(FileNames<'a>),

    /// Compares the cells with the raw bytes of this file.
    Compare { image: &'a Word },

    /// Prints the job in the job file.
    Status,

    /// Prints what this FLM file says.
    Inspect { flm: &'a Word },

    /// Prints the cells as a text in this format, on a board.
    Dump { form: TextForm, board: &'a Word },

    /// Runs a job in memory that is made from this number.
    Demo { seed: u32 },
}
