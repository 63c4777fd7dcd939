//! The words of a command line.
ghost use Rattle.std.specs.Prelude.{ℕ, List, IfOk, option_map};
ghost use Rattle.command_words.specs.Lines.{IsReadAs, IsLineOf};
ghost use Rattle.command_words.specs.Requested.{command_of};
ghost use Rattle.command_words.specs.Words.{Asked};

use crate::command::{CommandName, Request};
use crate::fit::read_command;
use command_line::{Line, LineFault, read_line};
use faults::OutOfMemory;
use octets::Word;
use std::alloc::Global;

/// The words of a command line, as they were read.
#[derive(Drop)]
pub enum CommandLine {
    /// The words fit no command.
    Faulty,

    /// The words have this form, but may still fit no command.
    Line(Line),
}

impl CommandLine {
    /// Reads words. Words that fit no command are no error here: `request` then returns none.
    pub fn read(alloc: Global, words: &[Word]) -> Result<CommandLine, OutOfMemory>
        ensures { IfOk result (IsReadAs words.now) }
    {
        match read_line(alloc, words) {
            Ok(line) => Ok(CommandLine::Line(line)),
            Err(LineFault::Usage) => Ok(CommandLine::Faulty),
            Err(LineFault::OutOfMemory) => Err(OutOfMemory),
        }
    }

    /// The command that the words ask for, or none if they fit no command.
    pub fn request(&self) -> Option<Request<'_>>
        ensures { (words : List (List ℕ)) → IsReadAs words self.now → Asked words (option_map command_of result) }
    {
        match self {
            CommandLine::Faulty => None,
            CommandLine::Line(line) => request_of(line),
        }
    }
}

/// The command that a line asks for.
fn request_of(line: &Line) -> Option<Request<'_>>
    ensures { (words : List (List ℕ)) → IsLineOf words line.now → Asked words (option_map command_of result) }
{
    let name = CommandName::read(&line.command)?;
    read_command(name, line)
}
