//! The arguments of the program.
ghost use Rattle.std.specs.Prelude.{◌≡◌, [], IsErr, IfOk, IfErr};
ghost use Rattle.std.specs.IoError.{error_kind};
ghost use Rattle.std.specs.declared.io.ErrorKind.TheVariants.{InvalidData};
ghost use Rattle.host_files.specs.Given.{texts_of};

use faults::OutOfMemory;
use octets::Word;
use std::alloc::Global;
use std::env::{self, Args};
use std::io::{self, ErrorKind};

/// Reads the arguments of the program. The first one is its own name. If one of them isn't UTF-8, the list is empty.
pub fn read_arguments(rt: HostRuntime) -> Result<Vec<Word>, OutOfMemory> {
    arguments_of(rt.alloc(), env::args(&rt))
}

/// The arguments of a command line that the system gave, if it could. If a word isn't UTF-8, the list is empty.
fn arguments_of(alloc: Global, line: io::Result<Args>) -> Result<Vec<Word>, OutOfMemory>
    ensures taken { IfOk line (λ given. IfOk result (λ words. words.items ≡ texts_of given)) }
    ensures faulty { IfErr line (λ fault. error_kind fault ≡ InvalidData → IfOk result (λ words. words.items ≡ [])) }
    ensures failed { IfErr line (λ fault. (error_kind fault ≡ InvalidData → ⊥) → IsErr result) }
{
    match line {
        Ok(given) => copies_of(alloc, given),
        Err(fault) if fault.kind() == ErrorKind::InvalidData => Ok(Vec::new(alloc)),
        Err(_) => Err(OutOfMemory),
    }
}

/// Copies of all arguments, in their order.
fn copies_of(alloc: Global, given: Args) -> Result<Vec<Word>, OutOfMemory>
    ensures { IfOk result (λ words. words.items ≡ texts_of given) }
{
    let mut words = Vec::new(alloc);
    for argument in given {
        words.push(Word::copy(alloc, argument.as_str())?)?;
    }
    Ok(words)
}
