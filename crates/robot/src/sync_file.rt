//! What a tape may do to its file beside reading, writing and seeking.
ghost use Rattle.std.specs.Prelude.{OnOk};

use std::fs::OpenFile;
use std::io;
use std::io::Write;

/// A file that can be brought to the disk. A tape has no other call on its file than this, and
/// those to read, to write, to seek and to lock it: none shortens the file.
pub trait SyncFile {
    /// The second is the first, synced.
    ghost is_synced: { Self → Self → Type 0 };

    /// Brings the bytes and the length of the file to the disk.
    fn sync(&mut self) -> io::Result<()>
        ensures { OnOk result (is_synced self.old self.new) };
}

impl<F: Write + OpenFile> SyncFile for F {
    ghost use Rattle.std.specs.Io.KnownBytes.{Keeps};

    ghost is_synced = { λ old new. Keeps (F.contents old) (F.contents new) };

    fn sync(&mut self) -> io::Result<()> {
        self.flush()?;
        self.sync_all()
    }
}
