//! What is hard on the readers of ELF files and of images.

mod map;
mod names;
mod sections;
mod symbols;

use anyhow::{Result, bail};

/// Reads what the words ask for: `elf WORD..` (`sections`), `map WORD..` (`map`) or `symbols COUNT` (`symbols`).
pub fn read(rt: &HostRuntime, words: &[&str]) -> Result<()> {
    match words {
        ["elf", words @ ..] => sections::run(rt, words),
        ["map", words @ ..] => map::run(rt, words),
        ["symbols", words @ ..] => symbols::run(rt, words),
        _ => bail!("elf, map or symbols is wanted"),
    }
}

/// Reads some files of each kind.
pub fn read_some(rt: &HostRuntime) -> Result<()> {
    map::run(rt, &["hostile"])?;
    sections::run(rt, &["colliding", "40", "colliding.bin"])?;
    symbols::run(rt, &["4194304"])
}
