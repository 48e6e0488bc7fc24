//! A tape in a file, behind an image of it in memory.
ghost use Rattle.std.specs.Prelude.{◌≡◌, ◌+◌, ◌<◌, ◌≤◌, true, length};
ghost use Rattle.std.specs.Prelude.{Some, IfOk, IfErr, IfSome, IsErrOf, OnOk};
ghost use Rattle.text_io.specs.FaultWords.{words_of, words_text};
ghost use Rattle.robot.specs.FaultWords.{file_tape_fault_words};
ghost use Rattle.robot.specs.declared.file_tape.FileTapeFault.TheVariants.{TapeFailed as tape_failed};
ghost use Rattle.robot.specs.declared.file_tape.FileTapeFault.TheVariants.{OutOfMemory as out_of_memory};
ghost use Rattle.robot.specs.FileTape.{file_fault_of};

use crate::disk::{Disk, read_up_to};
use crate::sync_file::SyncFile;
use agent::{MemTape, RECORD_LENGTH, RECORD_SIZE, Tape, TapeError, TapeMakeFault};
use std::alloc::{AllocError, Global};
use std::fs::TryLockError;
use std::io::{Read, Seek, Write};
use std::{fmt, io};
use tape_claim::LockFile;
use text_io::{Failure, FaultName, FaultWords, Origin};
use thiserror::Error;

/// How many bytes at the most stand behind the whole records of a file.
const TAIL: usize = RECORD_SIZE - 1;

/// Why a file was not opened as a tape.
#[derive(Clone, Copy, Debug, PartialEq, Eq, Error)]
pub enum FileTapeFault {
    /// Behind the room there are ten bytes or more.
    TooLong,
    /// Another process holds the file.
    InUse,
    /// The file could not be locked, read or synced.
    TapeFailed,
    OutOfMemory,
}

impl FileTapeFault {
    /// The words in which it is told.
    pub fn words(self) -> FaultWords
        ensures { words_of result ≡ file_tape_fault_words self }
    {
        match self {
            FileTapeFault::TooLong => FaultWords::new(FaultName::TooLong, &[]).of(Origin::Tape),
            FileTapeFault::InUse => Failure::TapeInUse.words(),
            FileTapeFault::TapeFailed => Failure::TapeFailed.words(),
            FileTapeFault::OutOfMemory => Failure::OutOfMemory.words(),
        }
    }
}

impl fmt::Display for FileTapeFault {
    ghost output = { λ fault. Some (words_text (file_tape_fault_words fault)) };

    fn fmt<W: fmt::Write>(&self, f: &mut fmt::Formatter<W>) -> fmt::Result {
        self.words().fmt(f)
    }
}

impl From<io::Error> for FileTapeFault {
    ghost from_gives = { λ _ e. e ≡ tape_failed };

    fn from(_: io::Error) -> FileTapeFault {
        FileTapeFault::TapeFailed
    }
}

impl From<AllocError> for FileTapeFault {
    ghost from_gives = { λ _ e. e ≡ out_of_memory };

    fn from(_: AllocError) -> FileTapeFault {
        FileTapeFault::OutOfMemory
    }
}

impl From<TapeMakeFault> for FileTapeFault {
    ghost from_gives = { λ fault e. e ≡ file_fault_of fault };

    fn from(fault: TapeMakeFault) -> FileTapeFault {
        match fault {
            TapeMakeFault::TooLong => FileTapeFault::TooLong,
            TapeMakeFault::OutOfMemory => FileTapeFault::OutOfMemory,
        }
    }
}

/// A tape in a file. Reads come from an image in memory, which takes a record once the file has it
/// and is synced. A write that fails leaves the image as it was; what the file has at that place is
/// then not known, until a write there succeeds or the file is opened again.
///
/// What is proved is proved of the image. That the file has what was written to it, that a sync
/// brings it to the disk with its length and its name, and that nothing else writes to it, are
/// premises.
#[derive(Drop)]
pub struct FileTape<F> {
    disk: Disk<F>,
    image: MemTape,
    failures: u64,
}

impl<F: Read + SyncFile + LockFile + Drop> FileTape<F> {
    ghost use Rattle.robot.specs.FileTape.{IsImage};

    /// Opens a file as a tape with room for so many bytes. The file was just opened by the caller,
    /// to be read and written, and made where there was none. It is locked before anything of it is
    /// read, and stays so until it is closed. Fewer than ten bytes behind the room count as
    /// nothing. Nothing is written to it here: a tail of fewer than ten bytes stays until a record
    /// is written over it.
    pub fn open(alloc: Global, mut file: F, room: u32) -> Result<FileTape<F>, FileTapeFault>
        ensures image { IfOk result (IsImage F.remaining file room) }
        ensures too_long { IsErrOf result FileTapeFault.TooLong
            → IfSome (F.remaining file) (λ bytes. room + 10 ≤ length bytes) }
    {
        lock(&file)?;
        let room_len = room as usize;
        let mut bytes = vec![in alloc; 0u8; room_len + TAIL + 1]?;
        let len = read_up_to(&mut file, &mut bytes)?;
        if len > room_len + TAIL {
            return Err(FileTapeFault::TooLong);
        }
        let image = MemTape::from_bytes(alloc, &bytes[..room_len.min(len)], room)?;
        let mut disk = Disk::new(file);
        // Whole records are relied on from here on, and a program that was stopped may have left
        // them unsynced.
        let has_record = image.len() >= RECORD_LENGTH;
        if has_record {
            disk.sync()?;
        }
        Ok(FileTape {
            disk,
            image,
            failures: 0,
        })
    }
}

impl<F: SyncFile> FileTape<F> {
    ghost use Rattle.robot.specs.FileTape.{file_state};

    /// Syncs the file as it is.
    pub fn sync(&mut self) -> Result<(), FileTapeFault>
        ensures state { file_state self.new ≡ file_state self.old }
        ensures syncs { OnOk result (F.is_synced self.old.disk.file self.new.disk.file) }
        ensures synced { OnOk result (self.new.disk.synced ≡ true) }
        ensures err { IfErr result (λ fault. fault ≡ FileTapeFault.TapeFailed) }
    {
        self.disk.sync()?;
        Ok(())
    }
}

/// Locks a file that no other process holds.
fn lock<F: LockFile>(file: &F) -> Result<(), FileTapeFault>
    ensures { IsErrOf result FileTapeFault.TooLong → ⊥ }
{
    match file.try_lock() {
        Ok(()) => Ok(()),
        Err(TryLockError::WouldBlock) => Err(FileTapeFault::InUse),
        Err(TryLockError::Error(_)) => Err(FileTapeFault::TapeFailed),
    }
}

impl<F> FileTape<F> {
    ghost use Rattle.agent.specs.Tape.{HasFailed, IsKept};
    ghost use Rattle.robot.specs.FileTape.{file_state};

    /// Counts a write that failed before any call on the file.
    pub(crate) fn count_failure(&mut self)
        ensures disk { self.new.disk ≡ self.old.disk }
        ensures kept { IsKept (file_state self.old) (file_state self.new) }
        ensures fails { HasFailed (file_state self.old).failures (file_state self.new).failures }
    {
        self.failures = self.failures.saturating_add(1);
    }
}

impl<F: Write + Seek + SyncFile> Tape for FileTape<F> {
    ghost use Rattle.robot.specs.FileTape.{file_state, IsFileRead, IsFileWrite};
    ghost use Rattle.robot.specs.FileTape.{file_within, file_is_read, file_is_write};

    ghost state = { file_state };

    ghost may_read = { IsFileRead };

    ghost may_write = { IsFileWrite F.stream_position F.stream_bytes F.contents F.is_synced };

    fn room(&self) -> u32 {
        self.image.room()
    }

    fn len(&self) -> u32 {
        self.image.len()
    }

    fn read_at(&mut self, at: u32, out: &mut [u8; RECORD_SIZE]) -> Result<(), TapeError> {
        self.image.read_at(at, out)
    }

    fn write_at(&mut self, at: u32, bytes: &[u8; RECORD_SIZE]) -> Result<(), TapeError> {
        if self.disk.store(at, bytes).is_err() {
            self.count_failure();
            return Err(TapeError);
        }
        self.image.write_at(at, bytes)
    }

    fn failures(&self) -> u64 {
        self.failures
    }

    ghost within = { file_within };

    ghost reads = { file_is_read };

    ghost writes = { file_is_write F.stream_position F.stream_bytes F.contents F.is_synced };
}
