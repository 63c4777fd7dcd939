//! What reads files, words and lines, and what makes them: fields, ELF files, FLM files, boards, job files, the words of a command line, and the
//! files of a command.

mod boards;
mod classes;
mod elf;
mod fields;
mod flm;
mod jobs;
mod lines;
mod listings;
mod named_files;
mod words;
