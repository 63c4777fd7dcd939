//! Images as finite maps from address to byte, kept as sorted runs that are each as long as possible, in a balanced tree.
#![tactic(auto)]

mod chunk;
mod conflict;
mod fault;
mod join;
mod law;
mod map;
mod overlay;
mod run_buffer;
mod run_list;
mod search;
mod tree;

pub use fault::LayFault;
pub use law::images_have_one_list;
pub use map::ByteMap;
