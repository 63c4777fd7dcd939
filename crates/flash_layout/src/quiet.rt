//! The quiet ranges of a board.
ghost use Rattle.std.specs.Prelude.{◌≡◌};
ghost use Rattle.flash_layout.specs.Maps.{in_quiet};

use crate::FlashMap;

impl FlashMap {
    /// Whether the address lies in a quiet range.
    pub fn is_quiet(&self, at: u32) -> bool
        ensures { result ≡ in_quiet self.now.quiet.items at }
    {
        self.quiet
            .iter()
            .any(|range| at >= range.base && at - range.base < range.size)
    }
}
