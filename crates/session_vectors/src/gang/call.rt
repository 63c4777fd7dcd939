//! The call of a gang.

use anyhow::Result;
use bench_model::Bench;
use octets::Word;
use outside_io::MemorySink;
use promise::flash_gang;
use std::alloc::Global;
use std::str;

/// The streams of a call.
#[derive(Drop)]
struct Streams {
    out: MemorySink,
    err: MemorySink,
}

/// `count` words that could name files.
fn words_of(alloc: Global, count: usize) -> Result<Vec<Word>> {
    let mut words = Vec::new(alloc);
    for _word in 0..count {
        words.push(Word::copy(alloc, "name")?)?;
    }
    Ok(words)
}

impl Streams {
    /// Streams on which nothing was put. The put of number `fail` on standard output fails, or none at 0.
    fn new(alloc: Global, fail: u64) -> Result<Streams> {
        let out = MemorySink::new(alloc, 4096, &[fail])?;
        let err = MemorySink::new(alloc, 256, &[])?;
        Ok(Streams { out, err })
    }

    /// Calls a gang with `count` words, and answers the status.
    fn answer<B: Bench>(&mut self, alloc: Global, count: usize, benches: &mut [B]) -> Result<u8> {
        let words = words_of(alloc, count)?;
        Ok(flash_gang(alloc, &words, benches, &mut self.out, &mut self.err))
    }

    /// Prints what a call with `count` words put on standard output and on standard error, and its status.
    fn print(&self, rt: &HostRuntime, count: usize, status: u8) -> Result<()> {
        let out = str::from_utf8(self.out.bytes())?;
        let err = str::from_utf8(self.err.bytes())?;
        println!(rt; "{out}{err}{count} words, status {status}")?;
        Ok(())
    }
}

/// Calls a gang with `count` words. The put of number `fail` on standard output fails, or none at 0. Prints what was put, and prints and
/// answers the status.
pub fn call<B: Bench>(rt: &HostRuntime, count: usize, fail: u64, benches: &mut [B]) -> Result<u8> {
    let mut streams = Streams::new(rt.alloc(), fail)?;
    let status = streams.answer(rt.alloc(), count, benches)?;
    streams.print(rt, count, status)?;
    Ok(status)
}
