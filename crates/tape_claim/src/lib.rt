//! On what terms a process takes the file of a tape: no other process holds it, and it is a new
//! one, or one that was kept.
#![tactic(auto)]

use std::fs::{File, TryLockError};

/// A file that one process at a time may hold.
pub trait LockFile {
    /// Locks the file without waiting, until it is closed.
    fn try_lock(&self) -> Result<(), TryLockError>;
}

impl LockFile for File {
    fn try_lock(&self) -> Result<(), TryLockError> {
        File::try_lock(self)
    }
}

/// Which tapes an agent takes.
#[derive(Clone, Copy, Debug, PartialEq, Eq)]
pub enum TapeClaim {
    /// Any, and it makes the file where there is none.
    Any,
    /// One without a whole record, and it makes the file where there is none.
    New,
    /// One whose file is there.
    Kept,
}
