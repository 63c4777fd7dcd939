//! Images from UF2 files beside those of any other form, and images as texts of records.
#![tactic(auto)]

mod any;
mod block;
mod fault;
mod form;
mod law;
mod line;
mod text;
mod uf2;

pub use any::read_any;
pub use fault::{AnyFault, Uf2Fault};
pub use form::RowForm;
pub use law::{
    files_of_any_form_have_one_image, files_of_texts_are_their_maps, texts_are_read_back,
    uf2_files_have_one_image, unions_have_the_bytes_of_files,
};
pub use text::{write_hex, write_run, write_srec};
pub use uf2::read_uf2;
