//! The map of a board's flash for the controller that changes it: the areas in order, with their cells numbered through, the sectors of all
//! areas, and the controller's registers.
//!
//! Every kind of flash controller shares this map. It says which cell an address names, and which sector contains it. It also has the lock
//! with its two keys, and the operation that runs, with its ticks. It says how a load, a store, a tick or a reset may change the bench.
#![tactic(auto)]

mod area;
mod cells;
mod flash_map;
mod law;
mod lock;
mod of_board;
mod quiet;
mod work;

pub use area::{Area, Found, SectorCells};
pub use cells::{read, settle};
pub use flash_map::FlashMap;
pub use law::address_has_sector;
pub use lock::{Lock, flag_value};
pub use work::{Operation, Work, unit_work};
