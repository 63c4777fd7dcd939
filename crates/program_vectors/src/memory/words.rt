//! What the words of lines ask for, in text.

use crate::memory::call::words_of;
use crate::print::Piece::{Hex8, Number, Text};
use crate::print::{put, put_line};
use anyhow::Result;
use command_words::{CommandLine, FileNames, Request, TextForm};
use octets::Word;
use std::fs;

/// Prints each line of a file, and below it what its words ask for.
pub fn ask_all(rt: &HostRuntime, path: &str) -> Result<()> {
    let text = fs::read_to_string(rt, path)?;
    for line in text.lines() {
        put_line(rt, line);
        ask(rt, line)?;
    }
    Ok(())
}

/// Prints what the words of a line ask for.
fn ask(rt: &HostRuntime, line: &str) -> Result<()> {
    let words = words_of(rt.alloc(), line)?;
    let line = CommandLine::read(rt.alloc(), &words)?;
    match line.request() {
        None => put_line(rt, "  usage"),
        Some(request) => show(rt, &request),
    }
    Ok(())
}

/// Prints a request.
fn show(rt: &HostRuntime, request: &Request<'_>) {
    put(rt, &[Text("  "), Text(command_of(request))]);
    match request {
        Request::Program(files)
        | Request::Begin(files)
        | Request::Plan(files)
        | Request::Verify(files) => show_files(rt, files),
        Request::Compare { image } => show_name(rt, " ", image),
        Request::Inspect { flm } => show_name(rt, " ", flm),
        Request::Dump { form: _, board } => show_name(rt, " board ", board),
        Request::Demo { seed } => put(rt, &[Number(" ", *seed)]),
        Request::Resume | Request::Revert | Request::Status => {}
    }
    put_line(rt, "");
}

/// The command of a request, and the form of a dump.
fn command_of(request: &Request<'_>) -> &'static str {
    match request {
        Request::Program(_) => "program",
        Request::Begin(_) => "begin",
        Request::Resume => "resume",
        Request::Revert => "revert",
        Request::Plan(_) => "plan",
        Request::Verify(_) => "verify",
        Request::Compare { image: _ } => "compare",
        Request::Status => "status",
        Request::Inspect { flm: _ } => "inspect",
        Request::Dump { form, board: _ } => match form {
            TextForm::Hex => "dump hex",
            TextForm::Srec => "dump srec",
        },
        Request::Demo { seed: _ } => "demo",
    }
}

/// Prints what a file is, and its name.
fn show_name<'a>(rt: &HostRuntime, what: &'a str, name: &'a Word) {
    put(rt, &[Text(what), Text("["), Text(name.text()), Text("]")]);
}

/// Prints the files of a command.
fn show_files(rt: &HostRuntime, files: &FileNames<'_>) {
    if let Some(at) = files.raw_at {
        put(rt, &[Hex8(" raw at ", at)]);
    }
    show_name(rt, " board ", files.board);
    if let Some(flm) = files.flm {
        show_name(rt, " flm ", flm);
    }
    put(rt, &[Text(" images")]);
    for index in 0..files.images.len() {
        show_name(rt, " ", files.images.name(index));
    }
}
