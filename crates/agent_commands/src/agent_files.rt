//! What an agent may do to files: to its tape's, the one beside that, and their folder.
ghost use Rattle.std.specs.Prelude.{IfErr, IfOk, IsTrue, MatchResult, OnOk, codes};
ghost use Rattle.text_io.specs.Counted.{counted_inner};
ghost use Rattle.robot.specs.Stored.{TakesAt};
ghost use Rattle.agent_commands.specs.FileDeeds.{IsUnopened, IsUntaken};
ghost use Rattle.agent_commands.specs.FileDeeds.FileDeed.{opens_file, finds_none, makes_draft};
ghost use Rattle.agent_commands.specs.FileDeeds.FileDeed.{puts_draft, sets_mark, syncs_beside};
ghost use Rattle.agent_commands.specs.FileDeeds.FileDeed.{keeps_name, names_tape};

use crate::agent_fault::AgentFault;
use crate::beside_name::{BesideName, DraftName};
use crate::read_files::{ReadFiles, not_opened};
use robot::SyncFile;
use std::fs::{self, File, Metadata, OpenFile, OpenOptions};
use std::io;
use std::io::{ErrorKind, Read, Seek, SeekFrom, Write};
use std::os::unix::fs::MetadataExt;
use std::rt::{Files, HostRuntime};
use tape_claim::{LockFile, TapeClaim};
use text_io::Counted;

/// Where the byte of the mark is.
const MARK_PLACE: u64 = 12;

/// Which file it is: the number of its device, and its own number there.
#[derive(Clone, Copy, PartialEq, Eq)]
pub struct FileId {
    device: u64,
    node: u64,
}

impl FileId {
    fn of(metadata: &Metadata) -> FileId {
        FileId {
            device: metadata.dev(),
            node: metadata.ino(),
        }
    }
}

/// An open file, and which file it is.
#[derive(Drop)]
pub struct HeldFile<F> {
    pub(crate) file: F,
    pub(crate) id: FileId,
}

/// What an agent may do to files: no call shortens, deletes or renames a tape.
pub trait AgentFiles: ReadFiles {
    /// The file of a tape.
    type Tape: Read + Write + Seek + SyncFile + LockFile + Drop;

    /// A file that is written to stand beside a tape.
    type Draft: Write + Drop;

    /// Opens a tape's file, which is made where there is none, unless it was to be kept.
    fn open_tape(&self, path: &str, claim: TapeClaim) -> Result<HeldFile<Self::Tape>, AgentFault>
        ensures { MatchResult result
            (λ held. Self.was_done (opens_file (Self.Tape.remaining held.file)))
            (IsUntaken Self.was_done claim) };

    /// Opens the file beside a tape, which may be written later, to be read.
    fn open_beside(&self, name: &BesideName) -> Result<Self::Reader, AgentFault>
        ensures { MatchResult result
            (λ file. Self.was_done (opens_file (Self.Reader.remaining file)))
            (IsUnopened Self.was_done) };

    /// Whether there is no file with this name.
    fn is_absent(&self, path: &str) -> bool
        ensures { IsTrue result → Self.was_done finds_none };

    /// Whether a path names the file of a tape, also by links.
    fn names_tape(&self, path: &str, id: FileId) -> bool
        ensures { IsTrue result → Self.was_done names_tape };

    /// Syncs the folder of a file, which has the file's name.
    fn keep_name(&self, path: &str) -> io::Result<()>
        ensures { OnOk result (Self.was_done keeps_name) };

    /// Makes a new file. What an earlier program left under its name is gone then.
    fn make_draft(&self, draft: &DraftName) -> io::Result<Self::Draft>
        ensures { IfOk result (λ file. Self.was_done (makes_draft (Self.Draft.contents file))) };

    /// Syncs the new file, and gives it the name that is beside the tape.
    fn put_draft(
        &self,
        file: Counted<Self::Draft>,
        draft: &DraftName,
        name: &BesideName,
    ) -> io::Result<()>
        ensures { OnOk result
            (Self.was_done (puts_draft (Self.Draft.contents (counted_inner file)))) };

    /// Marks the file beside a tape, and syncs it.
    fn set_mark(&self, name: &BesideName) -> io::Result<()>
        ensures { OnOk result (Self.was_done sets_mark) };

    /// Syncs the file beside a tape.
    fn sync_beside(&self, name: &BesideName) -> io::Result<()>
        ensures { OnOk result (Self.was_done syncs_beside) };
}

/// The files of the system.
impl AgentFiles for HostRuntime {
    type Tape = File;

    type Draft = File;

    fn open_tape(&self, path: &str, claim: TapeClaim) -> Result<HeldFile<File>, AgentFault> {
        open_regular(self, path, claim)
    }

    fn open_beside(&self, name: &BesideName) -> Result<File, AgentFault> {
        let HeldFile { file, .. } = open_regular(self, name.as_str(), TapeClaim::Kept)?;
        Ok(file)
    }

    fn is_absent(&self, path: &str) -> bool {
        match fs::metadata(self, path) {
            Ok(_) => false,
            Err(error) => error.kind() == ErrorKind::NotFound,
        }
    }

    fn names_tape(&self, path: &str, id: FileId) -> bool {
        match fs::metadata(self, path) {
            Ok(metadata) => FileId::of(&metadata) == id,
            Err(_) => false,
        }
    }

    fn keep_name(&self, path: &str) -> io::Result<()> {
        let folder = fs::open(self, folder_of(path))?;
        folder.sync_all()
    }

    fn make_draft(&self, draft: &DraftName) -> io::Result<File> {
        let _ = fs::remove_file(self, draft.as_str());
        OpenOptions::new()
            .write(true)
            .create_new(true)
            .open(self, draft.as_str())
    }

    fn put_draft(&self, file: Counted<File>, draft: &DraftName, name: &BesideName) -> io::Result<()>
        ensures { OnOk result (Unit {0}) }
    {
        let mut file = file;
        file.flush()?;
        file.inner().sync_all()?;
        fs::rename(self, draft.as_str(), name.as_str())
    }

    fn set_mark(&self, name: &BesideName) -> io::Result<()> {
        let mut file = open_again(self, name)?;
        put_mark(&mut file)?;
        file.sync()
    }

    fn sync_beside(&self, name: &BesideName) -> io::Result<()> {
        open_again(self, name)?.sync_all()
    }
}

/// Opens a file to be read and written, if it is one like others. Reading a device or a pipe might
/// wait for ever, and what was written there could not be read back.
fn open_regular<R: Files>(
    rt: &R,
    path: &str,
    claim: TapeClaim,
) -> Result<HeldFile<R::File>, AgentFault>
    ensures { IfErr result (IsUntaken (λ _. Unit {0}) claim) }
{
    let makes = !matches!(claim, TapeClaim::Kept);
    let opened = OpenOptions::new()
        .read(true)
        .write(true)
        .create(makes)
        .open(rt, path);
    match opened {
        Ok(file) => match regular_id(&file) {
            Some(id) => Ok(HeldFile { file, id }),
            None => Err(AgentFault::OpenFailed),
        },
        Err(error) if !makes => Err(not_opened(error.kind())),
        Err(_) => Err(AgentFault::OpenFailed),
    }
}

/// Which file it is, if it is one like others.
fn regular_id<F: OpenFile>(file: &F) -> Option<FileId> {
    match file.metadata() {
        Ok(metadata) if metadata.is_file() => Some(FileId::of(&metadata)),
        _ => None,
    }
}

/// Opens the file beside a tape to be written.
fn open_again<R: Files>(rt: &R, name: &BesideName) -> io::Result<R::File> {
    OpenOptions::new()
        .read(true)
        .write(true)
        .open(rt, name.as_str())
}

/// Writes the mark of a stored record.
fn put_mark<F: Write + Seek>(file: &mut F) -> io::Result<()>
    ensures { OnOk result (TakesAt F.stream_position F.stream_bytes F.contents file.old 12
        (codes "+") file.new) }
{
    file.seek(SeekFrom::Start(MARK_PLACE))?;
    file.write_all(b"+")
}

/// The folder of the file that a path names.
fn folder_of(path: &str) -> &str {
    match path.rsplit_once('/') {
        Some((folder, _)) if folder.is_empty() => "/",
        Some((folder, _)) => folder,
        None => ".",
    }
}
