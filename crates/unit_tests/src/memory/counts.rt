//! Counts of faults, and calls that are to fail by their numbers.
use crate::expect::expect_all;
use faults::{FailingCalls, FaultCount};
use std::test::Fail;

#[test]
fn counts_faults(rt: HostRuntime) {
    let mut faults = FaultCount::new();
    let before = faults.get();
    faults.raise();
    faults.raise();
    assert_eq!(rt; [before, faults.get()], [0, 2]);
}

#[test]
fn calls_go_and_fail_by_their_numbers(rt: HostRuntime) -> Result<(), Fail> {
    let mut numbers = FailingCalls::new(rt.alloc(), &[2])?;
    let went = [
        numbers.next_goes(true),
        !numbers.next_goes(true),
        !numbers.next_goes(false),
        numbers.next_goes(true),
    ];
    expect_all(&rt, &went);
    Ok(())
}
