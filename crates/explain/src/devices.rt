//! Files that can't be opened, and devices that fail.
use crate::files::{NamedFile, file_of, format_name, is_written, shown_path};
use crate::page::Page;
use crate::table::put_sentence;
use crate::told::Told;
use std::fs::{self, OpenOptions};
use std::io::{Error, ErrorKind};
use std::rt::Files;
use text_io::{FaultName, Origin};

/// Why a file can't be opened.
#[derive(Drop)]
struct Reason {
    words: &'static str,
    /// What the system answered, where it was asked once more.
    error: Option<Error>,
}

/// Explains a fault of the system.
pub(crate) fn explain_device<R: Files>(
    rt: &R,
    files: &[NamedFile<'_>],
    told: &Told<'_>,
    page: &mut Page,
) {
    let is_told = match told.fault {
        FaultName::OpenFailed => put_unopened(rt, files, told.origin, page),
        FaultName::ReadFailed => put_folder(rt, files, told.origin, page),
        _ => false,
    };
    if !is_told {
        put_sentence(told, page);
    }
}

/// Says that the file can't be opened, and why, if that can be found.
fn put_unopened<R: Files>(
    rt: &R,
    files: &[NamedFile<'_>],
    origin: Origin,
    page: &mut Page,
) -> bool {
    for file in files
        .iter()
        .filter(|file| is_opened_with(file.origin, origin))
    {
        if let Some(reason) = reason_of(rt, *file) {
            page.say(shown_path(*file));
            page.fill(
                ", to be read as {}: {}.\n",
                &[format_name(file.origin), reason.words],
            );
            put_error(&reason, page);
            return true;
        }
    }
    false
}

/// Whether a file is opened where the one of that origin is: a tape and the plan beside it are
/// opened together.
fn is_opened_with(file: Origin, origin: Origin) -> bool {
    file == origin || (file == Origin::KeptPlan && origin == Origin::Tape)
}

/// Puts the system's own words.
fn put_error(reason: &Reason, page: &mut Page) {
    if let Some(error) = &reason.error {
        page.say("The system says: ");
        page.show(error);
        page.say(".\n");
    }
}

/// Why the file can't be opened. What is no file of bytes is not opened once more, since it may
/// wait for ever.
fn reason_of<R: Files>(rt: &R, file: NamedFile<'_>) -> Option<Reason> {
    match fs::metadata(rt, file.path) {
        Err(error) if error.kind() == ErrorKind::NotFound && is_written(file.origin) => {
            missing_reason(rt, file)
        }
        Err(error) => Some(reason_by(error, file.origin)),
        Ok(metadata) if metadata.is_file() => opening_reason(rt, file),
        Ok(metadata) => shape_reason(metadata.is_dir(), file.origin),
    }
}

/// Why a file isn't there that could be made. That of a kept plan isn't opened then.
fn missing_reason<R: Files>(rt: &R, file: NamedFile<'_>) -> Option<Reason> {
    if file.origin == Origin::KeptPlan {
        return None;
    }
    Some(Reason {
        words: unmade_reason(rt, file.path),
        error: None,
    })
}

/// Why there is no file of a tape, and none could be made.
fn unmade_reason<R: Files>(rt: &R, path: &str) -> &'static str {
    let folder = match path.rsplit_once('/') {
        Some(("", _)) => "/",
        Some((folder, _)) => folder,
        None => ".",
    };
    match fs::metadata(rt, folder) {
        Ok(metadata) if metadata.is_dir() =>
            "there is no such file, and it can't be made: its folder may not be written, or its disk has no room",
        Ok(_) => "what should be its folder is none",
        Err(_) => "there is no such file, and it can't be made: its folder is missing",
    }
}

/// Why a file of bytes can't be opened.
fn opening_reason<R: Files>(rt: &R, file: NamedFile<'_>) -> Option<Reason> {
    let opened = OpenOptions::new()
        .read(true)
        .write(is_written(file.origin))
        .open(rt, file.path);
    match opened {
        Ok(_) => None,
        Err(error) => Some(reason_by(error, file.origin)),
    }
}

/// Why what is no file of bytes can't be opened, if it can't.
fn shape_reason(is_folder: bool, kind: Origin) -> Option<Reason> {
    if !is_written(kind) {
        return None;
    }
    let words = if is_folder {
        "it is a folder"
    } else {
        "it is a pipe or a device, and no file of bytes"
    };
    Some(Reason { words, error: None })
}

/// Says that the file is a folder, which can be opened and not read, if it is one.
fn put_folder<R: Files>(rt: &R, files: &[NamedFile<'_>], origin: Origin, page: &mut Page) -> bool {
    let Some(file) = file_of(files, origin) else {
        return false;
    };
    let is_folder = fs::metadata(rt, file.path).is_ok_and(|metadata| metadata.is_dir());
    if is_folder {
        page.fill("{} is a folder, and no file.\n", &[shown_path(file)]);
    }
    is_folder
}

/// What the system answered, and what it means.
fn reason_by(error: Error, kind: Origin) -> Reason {
    Reason {
        words: kind_name(error.kind(), kind),
        error: Some(error),
    }
}

/// The system's reason in words.
fn kind_name(reason: ErrorKind, kind: Origin) -> &'static str {
    match reason {
        ErrorKind::NotFound => "there is no such file",
        ErrorKind::PermissionDenied if is_written(kind) =>
            "it may not be read, or not be written, by this user",
        ErrorKind::PermissionDenied => "it may not be read by this user",
        ErrorKind::ReadOnlyFilesystem => "its disk may not be written",
        ErrorKind::StorageFull | ErrorKind::QuotaExceeded => "its disk has no room",
        ErrorKind::NotADirectory => "a part of its path is a file, and no folder",
        ErrorKind::IsADirectory => "it is a folder",
        ErrorKind::FilesystemLoop => "its links lead in a circle",
        ErrorKind::InvalidFilename | ErrorKind::InvalidInput => "this is no name of a file",
        ErrorKind::ResourceBusy => "the system has it in use",
        _ => "the system can't open it",
    }
}
