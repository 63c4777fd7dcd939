//! Writing bytes over others.
ghost use Rattle.std.specs.Prelude.{◌≡◌, ◌≤◌, ◌<◌, ◌+◌, length, replicate, vec_len, vec_capacity, All};
ghost use Rattle.bench_model.specs.Calls.{written};
ghost use Rattle.bench_model.specs.Record.{marked};

/// Writes bytes over others.
pub(crate) fn overlay(old: &mut [u8], at: usize, bytes: &[u8])
    requires { at + length bytes.now ≤ length old.old }
    ensures { old.new ≡ written at bytes.now old.old }
{
    old[at..at + bytes.len()].copy_from_slice(bytes);
}

/// Fills a range.
pub(crate) fn overfill(old: &mut [u8], at: usize, len: usize, value: u8)
    requires { at + len ≤ length old.old }
    ensures { old.new ≡ written at (replicate len value) old.old }
{
    old[at..at + len].fill(value);
}

/// Writes bytes over others, and past their end.
pub(crate) fn overwrite(file: &mut Vec<u8>, at: usize, bytes: &[u8])
    requires inside { at ≤ vec_len file.old }
    requires room { at + length bytes.now ≤ vec_capacity file.old }
    ensures items { file.new.items ≡ written at bytes.now file.old.items }
    ensures bytes { All (λ byte. byte < 256) file.new.items }
    ensures capacity { vec_capacity file.old ≤ vec_capacity file.new }
{
    if bytes.len() <= file.len() - at {
        overlay(file, at, bytes);
    } else {
        file.truncate(at);
        let _ = file.extend_from_slice(bytes);
    }
}

/// Writes bytes over cells.
pub(crate) fn settle(cells: &mut Vec<u8>, at: usize, bytes: &[u8])
    requires { at + length bytes.now ≤ vec_len cells.old }
    ensures items { cells.new.items ≡ written at bytes.now cells.old.items }
    ensures bytes { All (λ byte. byte < 256) cells.new.items }
{
    overlay(cells, at, bytes);
}

/// Fills a range of cells.
pub(crate) fn settle_fill(cells: &mut Vec<u8>, at: usize, len: usize, value: u8)
    requires { at + len ≤ vec_len cells.old }
    ensures items { cells.new.items ≡ written at (replicate len value) cells.old.items }
    ensures bytes { All (λ byte. byte < 256) cells.new.items }
{
    overfill(cells, at, len, value);
}

/// Makes one list a copy of another.
pub(crate) fn replace(old: &mut Vec<u8>, bytes: &[u8])
    requires { length bytes.now ≤ vec_capacity old.old }
    ensures items { old.new.items ≡ bytes.now }
    ensures bytes { All (λ byte. byte < 256) old.new.items }
    ensures capacity { vec_capacity old.old ≤ vec_capacity old.new }
{
    old.clear();
    let _ = old.extend_from_slice(bytes);
}

/// Marks a range, which may go past the end.
pub(crate) fn mark(marks: &mut Vec<bool>, from: usize, to: usize)
    requires order { from ≤ to }
    requires inside { from ≤ vec_len marks.old }
    requires room { to ≤ vec_capacity marks.old }
    ensures items { marks.new.items ≡ marked from to marks.old.items }
    ensures capacity { vec_capacity marks.old ≤ vec_capacity marks.new }
{
    if to <= marks.len() {
        set(marks, from, to);
    } else {
        marks.truncate(from);
        let _ = marks.resize(to, true);
    }
}

fn set(marks: &mut [bool], from: usize, to: usize)
    requires order { from ≤ to }
    requires inside { to ≤ length marks.old }
    ensures { marks.new ≡ marked from to marks.old }
{
    marks[from..to].fill(true);
}
