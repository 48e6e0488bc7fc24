//! The file under a tape.
ghost use Rattle.std.specs.Prelude.{◌≡◌, ◌<◌, ◌≤◌, false, true, is_ok};
ghost use Rattle.std.specs.Prelude.{length, take, OnErr, OnOk, IfOk};
ghost use Rattle.std.specs.Io.KnownBytes.{Consumes, IsAtEnd};
ghost use Rattle.robot.specs.Stored.{StoresAt, TakesAt};

use crate::sync_file::SyncFile;
use agent::RECORD_SIZE;
use std::io;
use std::io::{Read, Seek, SeekFrom, Write};

/// A file, and whether it is known to be on the disk as it is.
#[derive(Drop)]
pub(crate) struct Disk<F> {
    file: F,
    synced: bool,
}

impl<F> Disk<F> {
    /// What an earlier program wrote may not be synced yet.
    pub(crate) fn new(file: F) -> Disk<F>
        ensures file { result.file ≡ file }
        ensures synced { result.synced ≡ false }
    {
        Disk {
            file,
            synced: false,
        }
    }
}

impl<F: Write + Seek + SyncFile> Disk<F> {
    /// Writes a record at a place, and syncs it.
    pub(crate) fn store(&mut self, at: u32, bytes: &[u8; RECORD_SIZE]) -> io::Result<()>
        ensures stores { OnOk result
            (StoresAt F.stream_position F.stream_bytes F.contents F.is_synced self.old.file at
            bytes.now self.new.file) }
        ensures synced { self.new.synced ≡ is_ok result }
    {
        self.synced = false;
        write_at(&mut self.file, at, bytes)?;
        self.sync()
    }
}

impl<F: SyncFile> Disk<F> {
    /// Syncs the bytes and the length of the file.
    pub(crate) fn sync(&mut self) -> io::Result<()>
        ensures syncs { OnOk result (F.is_synced self.old.file self.new.file) }
        ensures ok { OnOk result (self.new.synced ≡ true) }
        ensures err { OnErr result (self.new.synced ≡ self.old.synced) }
    {
        self.file.sync()?;
        self.synced = true;
        Ok(())
    }
}

/// Writes a record at a place, all of it.
fn write_at<F: Write + Seek>(file: &mut F, at: u32, bytes: &[u8; RECORD_SIZE]) -> io::Result<()>
    ensures { OnOk result
        (TakesAt F.stream_position F.stream_bytes F.contents file.old at bytes.now file.new) }
{
    file.seek(SeekFrom::Start(u64::from(at)))?;
    file.write_all(bytes)
}

/// Reads up to the end, or until the bytes are full, and answers how many were read.
pub(crate) fn read_up_to<R: Read>(reader: &mut R, bytes: &mut [u8]) -> io::Result<usize>
    ensures within { IfOk result (λ n. n ≤ length bytes.new) }
    ensures bytes { IfOk result (λ n. Consumes (R.remaining reader.old) (R.remaining reader.new)
        (take n bytes.new)) }
    ensures end { IfOk result (λ n. n < length bytes.new → IsAtEnd (R.remaining reader.new)) }
{
    let mut len = 0;
    'pieces: while len < bytes.len() {
        let count = reader.read(&mut bytes[len..])?;
        if count == 0 {
            return Ok(len);
        }
        len += count;
    }
    Ok(len)
}
