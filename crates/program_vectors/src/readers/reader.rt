//! What a reader answers, on one line.

use crate::readers::digest::Digest;
use anyhow::Result;
use byte_map::ByteMap;
use elf32::{Elf, ElfFault};
use flm_descriptor::{Algorithm, read_flm};
use image_hex::read_hex;
use image_srec::read_srec;
use job_text::{Class, Job, class_of_file};
use std::alloc::Global;
use std::fmt::Display;

/// A reader of files.
#[derive(Clone, Copy)]
pub enum Reader {
    /// The reader of Intel HEX.
    Hex,
    /// The reader of S-records.
    Srec,
    /// The reader of an ELF file and of the bytes of its segments.
    Elf,
    /// The reader of FLM files.
    Flm,
    /// The reader of job files.
    Job,
}

impl Reader {
    /// The reader of that name.
    pub fn named(word: &str) -> Option<Reader> {
        match word {
            "hex" => Some(Reader::Hex),
            "srec" => Some(Reader::Srec),
            "elf" => Some(Reader::Elf),
            "flm" => Some(Reader::Flm),
            "job" => Some(Reader::Job),
            _ => None,
        }
    }

    /// The reader's answer to a file: why it is refused, or what kind of thing it is, with the digest of all that it says.
    pub fn answer(self, alloc: Global, file: &[u8]) -> Result<String> {
        match self {
            Reader::Hex => of_hex(alloc, file),
            Reader::Srec => of_srec(alloc, file),
            Reader::Elf => of_elf(alloc, file),
            Reader::Flm => of_flm(alloc, file),
            Reader::Job => of_job(alloc, file),
        }
    }
}

/// The text for a thing that was read, with the digest of all that it says.
fn said(alloc: Global, thing: &str, digest: &Digest) -> Result<String> {
    Ok(format!(in alloc; "{thing} {:08X}", digest.value())?)
}

/// The text of a fault or of a word.
fn told<D: Display + Drop>(alloc: Global, what: D) -> Result<String> {
    Ok(format!(in alloc; "{what}")?)
}

/// The text for an image that was read.
fn said_by_image(alloc: Global, image: &ByteMap) -> Result<String> {
    let mut digest = Digest::new();
    digest.image(image);
    said(alloc, "Image", &digest)
}

fn of_hex(alloc: Global, text: &[u8]) -> Result<String> {
    match read_hex(alloc, text) {
        Ok(image) => said_by_image(alloc, &image),
        Err(fault) => told(alloc, fault),
    }
}

fn of_srec(alloc: Global, text: &[u8]) -> Result<String> {
    match read_srec(alloc, text) {
        Ok(image) => said_by_image(alloc, &image),
        Err(fault) => told(alloc, fault),
    }
}

/// The digest of the addresses and the bytes of all segments.
fn segments_of(elf: &Elf) -> Result<Digest, ElfFault> {
    let mut digest = Digest::new();
    for index in 0..elf.segments() {
        digest.numbers(&[elf.segment(index).paddr]);
        digest.bytes(elf.segment_bytes(index)?);
    }
    Ok(digest)
}

fn of_elf(alloc: Global, file: &[u8]) -> Result<String> {
    let digest = match Elf::read(alloc, file) {
        Ok(elf) => segments_of(&elf),
        Err(fault) => Err(fault),
    };
    match digest {
        Ok(digest) => said(alloc, "Segments", &digest),
        Err(fault) => told(alloc, fault),
    }
}

/// The text for an algorithm that was read.
fn said_by_algorithm(alloc: Global, algorithm: &Algorithm) -> Result<String> {
    let mut digest = Digest::new();
    digest.algorithm(algorithm);
    said(alloc, "Algorithm", &digest)
}

fn of_flm(alloc: Global, file: &[u8]) -> Result<String> {
    match read_flm(alloc, file) {
        Ok(algorithm) => said_by_algorithm(alloc, &algorithm),
        Err(fault) => told(alloc, fault),
    }
}

fn of_job(alloc: Global, file: &[u8]) -> Result<String> {
    let class = class_of_file(alloc, file)?;
    of_class(alloc, &class, file.len())
}

/// The text for a job that was read.
fn said_by_job(alloc: Global, job: &Job) -> Result<String> {
    let mut digest = Digest::new();
    digest.job(job);
    said(alloc, "Job", &digest)
}

/// The text for the class of a job file of `len` bytes.
fn of_class(alloc: Global, class: &Class, len: usize) -> Result<String> {
    match class {
        Class::Free => told(alloc, "Free"),
        Class::Stands(job) => said_by_job(alloc, job),
        Class::Damaged(_) => told(alloc, "Damaged"),
        Class::NotAJob { at } if *at == len as u64 => told(alloc, "NotAJob Length"),
        Class::NotAJob { at } => Ok(format!(in alloc; "NotAJob At{at}")?),
    }
}
