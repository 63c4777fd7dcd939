//! Files on several file systems.

use host_files::FileId;
use std::fs;
use std::os::unix::fs::MetadataExt;
use std::test::Fail;

/// Roots of file systems. Each root has a number on its file system, mostly 1.
const ROOTS: [&str; 4] = ["/sys", "/dev/shm", "/dev/pts", "/dev"];

/// The number of a file on its file system.
fn number_of(rt: HostRuntime, name: &str) -> Option<u64> {
    match fs::metadata(&rt, name) {
        Ok(data) => Some(data.ino()),
        Err(_) => None,
    }
}

#[test]
fn files_of_one_number_on_two_systems_are_two(rt: HostRuntime) -> Result<(), Fail> {
    let mut pairs = 0;
    assert!(rt; FileId::named(rt, "/proc").is_some() && is_first(rt, "/proc"));
    for root in ROOTS {
        if has_its_number(rt, root) {
            assert!(rt; !is_first(rt, root), "{root}");
            pairs = 1;
        }
    }
    assert!(rt; pairs == 1);
    Ok(())
}

/// Whether this root is the one of the first file system.
fn is_first(rt: HostRuntime, root: &str) -> bool {
    FileId::named(rt, root) == FileId::named(rt, "/proc")
}

/// Whether a file has the number of that root.
fn has_its_number(rt: HostRuntime, root: &str) -> bool {
    number_of(rt, root) == number_of(rt, "/proc")
}
