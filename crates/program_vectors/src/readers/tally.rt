//! Answers that are counted.

use crate::print::Piece::{Count, Hex8, Text};
use crate::print::put;
use crate::readers::digest::Digest;
use anyhow::Result;
use std::alloc::Global;

/// A kind of answer, and how often it came.
#[derive(Drop)]
struct Kind {
    name: String,
    count: usize,
}

/// How often each kind of answer came, in the order of their first answers, and the digest of all answers in order.
#[derive(Drop)]
pub struct Tally {
    kinds: Vec<Kind>,
    digest: Digest,
}

/// Whether a word names a refusal, a part of a file or a thing that was read. Numbers have no small letters.
fn is_name(word: &str) -> bool {
    match word.as_bytes() {
        [first, rest @ ..] => {
            first.is_ascii_uppercase() && rest.iter().any(|byte| byte.is_ascii_lowercase())
        }
        [] => false,
    }
}

/// The kind of an answer: its names, without its numbers.
fn kind_of(alloc: Global, answer: &str) -> Result<String> {
    let mut kind = String::new(alloc);
    for word in answer.split_ascii_whitespace() {
        if is_name(word) {
            kind.push_str(" ")?;
            kind.push_str(word)?;
        }
    }
    Ok(kind)
}

impl Tally {
    pub fn new(alloc: Global) -> Tally {
        Tally {
            kinds: Vec::new(alloc),
            digest: Digest::new(),
        }
    }

    /// Counts an answer.
    pub fn note(&mut self, alloc: Global, answer: &str) -> Result<()> {
        self.digest.bytes(answer.as_bytes());
        self.digest.bytes(b"\n");
        let name = kind_of(alloc, answer)?;
        for kind in self.kinds.iter_mut() {
            if kind.name.as_str() == name.as_str() {
                kind.count = kind.count.saturating_add(1);
                return Ok(());
            }
        }
        self.kinds.push(Kind { name, count: 1 })?;
        Ok(())
    }

    /// Prints the counts, and the digest.
    pub fn put(&self, rt: &HostRuntime) {
        for kind in self.kinds.iter() {
            let name = Text(kind.name.as_str());
            put(rt, &[name, Count(" ", kind.count), Text("\n")]);
        }
        put(rt, &[Hex8("digest ", self.digest.value()), Text("\n")]);
    }
}
