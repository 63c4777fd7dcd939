//! Images: the map, the lines of records, the formats, and their union.

mod hex;
mod lines;
mod map;
mod maps;
mod set;
mod srec;
mod texts;
mod uf2;
