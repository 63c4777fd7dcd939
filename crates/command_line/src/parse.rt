//! Parsing the words with `clap`.
ghost use Rattle.std.specs.Prelude.{◌≡◌, ◌≢◌, IfOk, IfErr, false, []};
ghost use Rattle.clap.specs.Walk.{rule_of};
ghost use Rattle.clap.specs.Simple.{app_of, subcommand_of, subcommand_rows_of};
ghost use Rattle.clap.specs.Faults.{fault_of};
ghost use Rattle.clap.specs.declared.builder.command.Command.TheViews.{out-Command as fields_of};
ghost use Rattle.command_line.specs.Made.{names_rule, raw_rule, leaf, bare, with_leaf, tool};

use clap::error::ErrorKind;
use clap::{Arg, ArgAction, ArgMatches, Command};
use octets::Word;
use std::alloc::{AllocError, Global};

/// The argument for the positional words: at least one where it occurs.
fn names<'a>(alloc: Global) -> Arg<'a>
    ensures rule { rule_of result ≡ names_rule }
    ensures local { result.global ≡ false }
{
    Arg::new(alloc, "names")
        .action(ArgAction::Append)
        .num_args(1..)
}

/// The argument `--raw-at ADDR`.
fn address<'a>(alloc: Global) -> Arg<'a>
    ensures rule { rule_of result ≡ raw_rule }
    ensures local { result.global ≡ false }
{
    Arg::new(alloc, "raw-at")
        .long("raw-at")
        .action(ArgAction::Append)
}

/// A command, with positional words and addresses.
fn leaf_of<'a>(alloc: Global, name: &'a str) -> Result<Command<'a>, AllocError>
    ensures app { IfOk result (λ c. app_of c ≡ leaf name.entry.now) }
    ensures local { IfOk result (λ c. (fields_of c).has_globals ≡ false) }
{
    let command = Command::new(alloc, name).arg(address(alloc))?;
    command.arg(names(alloc))
}

/// The program, without its commands.
fn bare_tool<'a>(alloc: Global) -> Command<'a>
    ensures { app_of result ≡ bare }
{
    Command::new(alloc, "flm_tool")
        .no_binary_name(true)
        .disable_help_flag(true)
        .disable_help_subcommand(true)
        .disable_version_flag(true)
        .subcommand_required(true)
}

/// The program with one more command.
fn with_command<'a>(
    alloc: Global,
    tool: Command<'a>,
    name: &'a str,
) -> Result<Command<'a>, AllocError>
    ensures { IfOk result (λ c. app_of c ≡ with_leaf (app_of tool.entry) name.entry.now) }
{
    tool.subcommand(leaf_of(alloc, name)?)
}

/// The whole program, with all its commands.
fn made<'a>(alloc: Global) -> Result<Command<'a>, AllocError>
    ensures { IfOk result (λ c. app_of c ≡ tool) }
{
    let tool = with_command(alloc, bare_tool(alloc), "program")?;
    let tool = with_command(alloc, tool, "begin")?;
    let tool = with_command(alloc, tool, "resume")?;
    let tool = with_command(alloc, tool, "revert")?;
    let tool = with_command(alloc, tool, "plan")?;
    let tool = with_command(alloc, tool, "verify")?;
    let tool = with_command(alloc, tool, "compare")?;
    let tool = with_command(alloc, tool, "status")?;
    let tool = with_command(alloc, tool, "inspect")?;
    let tool = with_command(alloc, tool, "dump")?;
    with_command(alloc, tool, "demo")
}

/// Why a line is not read.
#[derive(Clone, Copy)]
pub enum LineFault {
    OutOfMemory,

    /// The words fit no command.
    Usage,
}

/// What `clap` finds in the words.
pub fn matches_for<'a>(alloc: Global, words: &'a [Word]) -> Result<ArgMatches<'a>, LineFault>
    ensures taken { IfOk result (λ m. (fault_of tool words.entry.now ≡ []) × (subcommand_rows_of m ≡ subcommand_of tool words.entry.now)) }
    ensures usage { IfErr result (λ f. f ≡ LineFault.Usage → fault_of tool words.entry.now ≢ []) }
{
    let Ok(tool) = made(alloc) else {
        return Err(LineFault::OutOfMemory);
    };
    match tool.try_get_matches_from(words) {
        Ok(matches) => Ok(matches),
        Err(fault) if fault.kind() == ErrorKind::OutOfMemory => Err(LineFault::OutOfMemory),
        Err(_) => Err(LineFault::Usage),
    }
}
