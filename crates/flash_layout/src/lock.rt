//! The lock of a controller, and the bits of its registers.
ghost use Rattle.std.specs.Prelude.{◌≡◌};
ghost use Rattle.flash_layout.specs.Lock.{is_unlocked, next_lock, flag_value};

/// How far the two keys have unlocked the controller.
#[derive(Clone, Copy)]
pub enum Lock {
    /// No key was seen.
    Locked,
    /// The first key was seen.
    FirstKey,
    /// Both keys were seen, in their order.
    Unlocked,
    /// A wrong key was seen; only a reset makes the keys work again.
    Barred,
}

/// The keys, in their order.
const KEYS: (u32, u32) = (0x4567_0123, 0xCDEF_89AB);

impl Lock {
    /// Whether both keys were seen.
    pub fn is_unlocked(self) -> bool
        ensures { result ≡ is_unlocked self }
    {
        matches!(self, Lock::Unlocked)
    }

    /// The lock after a store to the key register.
    pub fn after_key(self, value: u32) -> Lock
        ensures { result ≡ next_lock self value }
    {
        match self {
            Lock::Locked if value == KEYS.0 => Lock::FirstKey,
            Lock::FirstKey if value == KEYS.1 => Lock::Unlocked,
            _ => Lock::Barred,
        }
    }
}

/// What a flag adds to a register: its bit if the flag is set, else 0.
pub fn flag_value(set: bool, bit: u32) -> u32
    ensures { result ≡ flag_value set bit }
{
    if set { bit } else { 0 }
}
