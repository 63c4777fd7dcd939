//! The files of a row, by their names.

use crate::memory::lines::{first_of, number};
use anyhow::{Context, Result, bail, ensure};
use board_file::{Board, read_board};
use flm_forge::{Kind, forge, listing_at};
use octets::Word;
use outside_io::MemoryInputs;
use std::alloc::Global;
use std::fs;

/// A file with its name.
#[derive(Drop)]
struct Given {
    name: Word,
    bytes: Vec<u8>,
}

/// The files. Under each name the file counts that was given last.
#[derive(Drop)]
pub struct Files {
    files: Vec<Given>,
}

impl Files {
    pub fn new(alloc: Global) -> Files {
        Files {
            files: Vec::new(alloc),
        }
    }

    /// Gives a file a name.
    pub fn give(&mut self, alloc: Global, name: &str, bytes: Vec<u8>) -> Result<()> {
        let name = Word::copy(alloc, name)?;
        self.files.insert(0, Given { name, bytes })?;
        Ok(())
    }

    /// Writes bytes over those of the file with a name, from a place on.
    pub fn patch(&mut self, name: &str, at: usize, bytes: &[u8]) {
        for file in self.files.iter_mut() {
            if file.name.text() == name {
                lay(&mut file.bytes, at, bytes);
            }
        }
    }

    /// Fills the file with a name up to `len` bytes with a byte.
    pub fn pad(&mut self, name: &str, len: usize, value: u8) -> Result<()> {
        for file in self.files.iter_mut() {
            if file.name.text() == name {
                file.bytes.resize(len, value)?;
            }
        }
        Ok(())
    }

    /// The bytes of the file with a name.
    pub fn bytes(&self, name: &str) -> Result<&[u8]> {
        for file in self.files.iter() {
            if file.name.text() == name {
                return Ok(&file.bytes);
            }
        }
        bail!("no such file");
    }

    /// Puts the files into a folder.
    pub fn put(&self, rt: &HostRuntime, folder: &str) -> Result<()> {
        for file in self.files.iter() {
            put_file(rt, folder, file.name.text(), &file.bytes)?;
        }
        Ok(())
    }

    /// The inputs that have these files. The take of number `take` fails.
    pub fn inputs(&self, alloc: Global, take: u64) -> Result<MemoryInputs> {
        let mut inputs = MemoryInputs::new(alloc, &[take])?;
        for file in self.files.iter() {
            inputs.add(alloc, &file.name, &file.bytes)?;
        }
        Ok(inputs)
    }

    /// The FLM file that a text asks for: `KIND BOARD PAGE TIME [REGION]`.
    pub fn forged(&self, alloc: Global, text: &str) -> Result<Vec<u8>> {
        let (kind, rest) = first_of(text);
        let (board, form) = first_of(rest);
        let board = read_board(alloc, self.bytes(board)?)?;
        forged_for(alloc, kind, &board, form)
    }
}

/// The FLM file of an algorithm for a region of a board: `PAGE TIME [REGION]`.
fn forged_for(alloc: Global, kind: &str, board: &Board, form: &str) -> Result<Vec<u8>> {
    let Form { page, time, region } = Form::read(form)?;
    let kind = kind_of(kind).context("no such algorithm")?;
    ensure!(region < board.regions.as_slice().len(), "no such region");
    let mut listing = listing_at(alloc, kind, board, region, page)?;
    listing.to_erase = time;
    Ok(forge(alloc, &listing)?.into_vec())
}

/// The bytes of a page, the milliseconds that the erase of a sector takes, and the region, from 0 on.
#[derive(Clone, Copy)]
struct Form {
    page: u32,
    time: u32,
    region: usize,
}

impl Form {
    /// Reads `PAGE TIME [REGION]`. With no region it is the first.
    fn read(text: &str) -> Result<Form> {
        let (page, rest) = first_of(text);
        let (time, region) = first_of(rest);
        let region = if region.is_empty() { "0" } else { region };
        Ok(Form {
            page: page.parse::<u32>()?,
            time: time.parse::<u32>()?,
            region: number(region)?,
        })
    }
}

/// Writes bytes over others, from a place on, as far as there are others.
pub fn lay(into: &mut [u8], at: usize, bytes: &[u8]) {
    if at < into.len() {
        let into = &mut into[at..];
        let len = into.len().min(bytes.len());
        into[..len].copy_from_slice(&bytes[..len]);
    }
}

/// Puts a file into a folder.
pub fn put_file(rt: &HostRuntime, folder: &str, name: &str, bytes: &[u8]) -> Result<()> {
    let path = format!(in rt.alloc(); "{folder}/{name}")?;
    fs::write(rt, path.as_str(), bytes)?;
    Ok(())
}

/// The algorithm of a name.
fn kind_of(name: &str) -> Option<Kind> {
    match name {
        "A1" => Some(Kind::A1),
        "A2" => Some(Kind::A2),
        "A3" => Some(Kind::A3),
        "A4" => Some(Kind::A4),
        "A5" => Some(Kind::A5),
        "A6" => Some(Kind::A6),
        "A7" => Some(Kind::A7),
        "F1" => Some(Kind::F1),
        _ => None,
    }
}
