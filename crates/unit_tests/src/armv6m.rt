//! The Armv6-M crates: the decoder, the encoder, statements, the assembler and single steps.

mod assembly;
mod decoding;
mod encoding;
mod statements;
mod steps;
