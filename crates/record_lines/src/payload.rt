//! The data of one record.
ghost use Rattle.std.specs.Prelude.{◌≡◌, ◌≤◌, length};

use std::marker::Model;

/// The data of one record, at most 255 bytes.
#[derive(Drop)]
pub struct Payload {
    bytes: [u8; 255],
    len: usize,
}

impl Model for Payload {
    ghost use Rattle.std.specs.Prelude.{ℕ, List, ◌≤◌, take};

    ghost Value = { List ℕ };

    ghost view = { λ p. take p.len p.bytes };

    ghost invariant = { λ p. p.len ≤ 255 };
}

impl Payload {
    /// The data that `bytes` are.
    pub fn copy(bytes: &[u8]) -> Payload
        requires { length bytes.now ≤ 255 }
        ensures { result ≡ bytes.now }
    {
        let mut data = [0; 255];
        data[..bytes.len()].copy_from_slice(bytes);
        Payload {
            bytes: data,
            len: bytes.len(),
        }
    }

    /// The bytes.
    pub fn bytes(&self) -> &[u8]
        ensures value { result.now ≡ self.now }
        ensures limit { length result.now ≤ 255 }
    {
        &self.bytes[..self.len]
    }
}
