//! Reading the words of a command line.
ghost use Rattle.std.specs.Prelude.{◌≡◌, Some, None, IfOk, IfErr, option_map};
ghost use Rattle.clap.specs.Walk.{rows_of};
ghost use Rattle.clap.specs.Simple.{subcommand_rows_of};
ghost use Rattle.clap.specs.Matches.{found_of};
ghost use Rattle.command_line.specs.Rows.{told, asked};
ghost use Rattle.command_line.specs.Scan.{says, AreTexts};
ghost use Rattle.command_line.specs.Shown.{shown};
ghost use Rattle.command_line.specs.Texts.{texts_of};

use crate::parse::{LineFault, matches_for};
use clap::ArgMatches;
use faults::OutOfMemory;
use octets::Word;
use std::alloc::Global;

/// A command by name, with the addresses that its options give and its positional words, each in their order.
#[derive(Drop)]
pub struct Line {
    pub command: Word,
    pub addresses: Vec<Word>,
    pub names: Vec<Word>,
}

/// Has no effect. Its contract says that every word is text.
fn know_texts(words: &[Word])
    ensures { AreTexts words.now }
{
    'words: for word in words {
        // a word that is lent as a `str` is text
        let _text = word.text();
    }
}

/// Copies of these texts.
fn copies(alloc: Global, texts: &[&str]) -> Result<Vec<Word>, OutOfMemory>
    ensures { IfOk result (λ v. v.items ≡ texts_of texts.now) }
{
    let mut found = Vec::new(alloc);
    'texts: for text in texts {
        let one = Word::copy(alloc, text)?;
        found.push(one)?;
    }
    Ok(found)
}

/// The values that an argument has.
fn values(alloc: Global, matches: &ArgMatches, id: &str) -> Result<Vec<Word>, OutOfMemory>
    ensures { IfOk result (λ v. v.items ≡ told id.now (rows_of (found_of matches.now))) }
{
    match matches.get_raw(id) {
        Some(texts) => copies(alloc, texts),
        None => Ok(Vec::new(alloc)),
    }
}

/// The line that `clap` found, or none if it found no command.
fn line_of(alloc: Global, matches: &ArgMatches) -> Result<Option<Line>, OutOfMemory>
    ensures { IfOk result (λ o. option_map shown o ≡ asked (subcommand_rows_of matches.now)) }
{
    let Some((name, inner)) = matches.subcommand() else {
        return Ok(None);
    };
    let command = Word::copy(alloc, name)?;
    let addresses = values(alloc, inner, "raw-at")?;
    let names = values(alloc, inner, "names")?;
    Ok(Some(Line {
        command,
        addresses,
        names,
    }))
}

/// Reads a line.
///
/// # Errors
///
/// `Usage` if the words name no command, have an option other than `--raw-at` before the first `--`, or have a `--raw-at` without an
/// address. `OutOfMemory` with any words.
pub fn read_line(alloc: Global, words: &[Word]) -> Result<Line, LineFault>
    ensures ok { IfOk result (λ line. says words.now ≡ Some (shown line)) }
    ensures usage { IfErr result (λ f. f ≡ LineFault.Usage → says words.now ≡ None) }
{
    know_texts(words);
    let matches = match matches_for(alloc, words) {
        Ok(matches) => matches,
        Err(fault) => return Err(fault),
    };
    match line_of(alloc, &matches) {
        Ok(Some(line)) => Ok(line),
        Ok(None) => Err(LineFault::Usage),
        Err(_) => Err(LineFault::OutOfMemory),
    }
}
