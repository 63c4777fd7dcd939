//! Advisory locks on whole files, so that two programs at one file don't mix.
ghost use Rattle.std.specs.Prelude.{◌≡◌, ◌≢◌, IsOk, IsErr, OnOk, OnErr};
ghost use Rattle.std.specs.declared.io.Error.{Error};

use std::fs::{File, TryLockError};
use std::io::ErrorKind;
use std::time::{Duration, Instant};
use std::{io, thread};

/// How long a program asks again for a lock that another one holds, in milliseconds.
const PATIENCE: u64 = 1_000;

/// The time between two tries for a lock, in milliseconds.
const PAUSE: u64 = 10;

/// The most tries for a lock, in case the clock stops.
const MOST_AGAIN: u32 = 100;

/// What a program holds of a file.
#[derive(Clone, Copy)]
enum Hold {
    Nothing,
    // no other program writes the file
    Shared,
    // no other program reads or writes it
    Exclusive,
    // the shared lock was given up for an exclusive one, which another program's lock prevented
    Lost,
}

/// The advisory lock on an open file. It is kept until the file is closed. On a file system without locks the program runs without one.
///
/// If another program holds the lock, it is asked for again for up to a second. That is done only the first time: a program that only reads
/// the file is done by then. While a shared lock is held, an exclusive one is asked for only once. If that is refused, the system has
/// released the shared one, and another program may have changed the file.
#[derive(Drop)]
pub struct FileLock {
    rt: HostRuntime,
    hold: Hold,
    // whether the first lock that is asked for is the exclusive one
    claims: bool,
    // whether a lock that another program holds is still waited for
    waits: bool,
}

impl FileLock {
    /// A lock that isn't held yet.
    pub fn new(rt: HostRuntime) -> FileLock
        ensures { result.hold ≡ Hold.Nothing }
    {
        FileLock {
            rt,
            hold: Hold::Nothing,
            claims: false,
            waits: true,
        }
    }

    /// Gives the lock up for good: nothing is held from now on.
    pub fn lose(&mut self)
        ensures { self.new.hold ≡ Hold.Lost }
    {
        self.hold = Hold::Lost;
    }

    /// Sets whether other programs are kept from reading the file from the first call on, unless one is reading it then.
    pub fn claim(&mut self, claims: bool)
        ensures { self.new.hold ≡ self.old.hold }
    {
        self.claims = claims;
    }

    /// Keeps other programs from writing the file. It is an error if one does now, or has since this lock was lost.
    pub fn share(&mut self, file: &File) -> io::Result<()>
        ensures lost { self.old.hold ≡ Hold.Lost → IsErr result }
        ensures kept { self.old.hold ≡ Hold.Exclusive → self.new.hold ≡ Hold.Exclusive }
    {
        match self.hold {
            Hold::Nothing => {
                if self.claims && self.own(file).is_ok() {
                    return Ok(());
                }
                let answer = self.ask(file, Hold::Shared);
                self.take(answer, Hold::Shared)
            }
            Hold::Lost => Err(io::Error::from(ErrorKind::WouldBlock)),
            Hold::Shared | Hold::Exclusive => Ok(()),
        }
    }

    /// Keeps other programs from reading and writing the file. If one does, it is an error, and a shared lock that was held is lost.
    pub fn own(&mut self, file: &File) -> io::Result<()>
        ensures lost { self.old.hold ≡ Hold.Lost → IsErr result }
        ensures owned { OnOk result (self.new.hold ≡ Hold.Exclusive) }
        ensures refused { OnErr result (self.old.hold ≢ Hold.Nothing → self.new.hold ≡ Hold.Lost) }
    {
        match self.hold {
            Hold::Nothing | Hold::Shared => {
                let answer = self.ask(file, Hold::Exclusive);
                self.take(answer, Hold::Exclusive)
            }
            Hold::Lost => Err(io::Error::from(ErrorKind::WouldBlock)),
            Hold::Exclusive => Ok(()),
        }
    }

    /// Asks the system for this lock. If none is held yet, it waits for another program that has it.
    fn ask(&mut self, file: &File, wanted: Hold) -> Result<(), TryLockError>
        ensures { self.new.hold ≡ self.old.hold }
    {
        let answer = try_for(file, wanted);
        if self.hold != Hold::Nothing || !self.waits || !is_busy(&answer) {
            return answer;
        }
        self.waits = false;
        wait_for(self.rt, file, wanted)
    }

    /// Follows the system's answer. If the lock is refused, the one held before is lost. On a file system without locks, this goes through.
    fn take(&mut self, answer: Result<(), TryLockError>, wanted: Hold) -> io::Result<()>
        ensures took { OnOk result (self.new.hold ≡ wanted) }
        ensures without { (fault : Error) → answer ≡ Err (TryLockError.Error fault) → IsOk result }
        ensures kept_off { answer ≡ Err TryLockError.WouldBlock → IsErr result }
        ensures free { OnErr result (self.old.hold ≡ Hold.Nothing → self.new.hold ≡ Hold.Nothing) }
        ensures lost { OnErr result (self.old.hold ≢ Hold.Nothing → self.new.hold ≡ Hold.Lost) }
    {
        match answer {
            Ok(()) | Err(TryLockError::Error(_)) => {
                self.hold = wanted;
                Ok(())
            }
            Err(TryLockError::WouldBlock) => {
                if self.hold != Hold::Nothing {
                    self.hold = Hold::Lost;
                }
                Err(io::Error::from(ErrorKind::WouldBlock))
            }
        }
    }
}

/// Asks the system once for a lock.
fn try_for(file: &File, wanted: Hold) -> Result<(), TryLockError> {
    match wanted {
        Hold::Exclusive => file.try_lock(),
        _ => file.try_lock_shared(),
    }
}

/// Whether another program holds a lock that was asked for.
fn is_busy(answer: &Result<(), TryLockError>) -> bool {
    matches!(answer, Err(TryLockError::WouldBlock))
}

/// Asks for a lock that another program holds, repeatedly for a second. The processor is free between the tries.
fn wait_for(rt: HostRuntime, file: &File, wanted: Hold) -> Result<(), TryLockError> {
    let start = Instant::now(&rt).ok();
    for _ in 0..MOST_AGAIN {
        thread::sleep(&rt, Duration::from_millis(PAUSE));
        let answer = try_for(file, wanted);
        if !is_busy(&answer) || has_passed(rt, start) {
            return answer;
        }
    }
    try_for(file, wanted)
}

/// Whether the second since this moment has passed. A clock that can't be read says no.
fn has_passed(rt: HostRuntime, start: Option<Instant>) -> bool {
    match (start, Instant::now(&rt)) {
        (Some(start), Ok(now)) => now.saturating_duration_since(start)
            >= Duration::from_millis(PATIENCE),
        _ => false,
    }
}
