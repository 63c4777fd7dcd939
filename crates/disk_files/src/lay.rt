//! Bytes copied over others.
ghost use Rattle.std.specs.Prelude.{◌≡◌, ◌≤◌, ◌+◌, length, vec_len};
ghost use Rattle.bench_model.specs.Calls.{written};

/// Copies bytes over others.
fn overlay(old: &mut [u8], at: usize, bytes: &[u8])
    requires { at + length bytes.now ≤ length old.old }
    ensures { old.new ≡ written at bytes.now old.old }
{
    old[at..at + bytes.len()].copy_from_slice(bytes);
}

/// Copies bytes over cells.
pub fn settle(cells: &mut Vec<u8>, at: usize, bytes: &[u8])
    requires { at + length bytes.now ≤ vec_len cells.old }
    ensures items { cells.new.items ≡ written at bytes.now cells.old.items }
{
    overlay(cells, at, bytes);
}
