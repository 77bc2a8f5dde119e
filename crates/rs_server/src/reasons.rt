//! Why a file was not opened or made, or an address not bound, as the second line of the failure says it.
//!
//! What is at a path is asked of the system after the call that failed, so a change between the two shows.

ghost use Rattle.std.specs.Prelude.{◌≡◌};
ghost use Rattle.std.specs.IoError.{error_kind};
ghost use Rattle.rs_server.specs.Saying.{reason_text};

use rs_disk::OpenError;
use std::fs::{File, OpenOptions, metadata};
use std::io;
use std::io::ErrorKind;
use std::path::Path;
use std::rt::Files;

/// Why the system did not give what was asked for.
#[derive(Clone, Copy, Debug, PartialEq, Eq)]
pub enum Reason {
    /// Nothing is at the path.
    NoFile,
    /// There is no folder in which the file could be made.
    NoFolder,
    /// It is no address, or none of this machine.
    NoAddress,
    /// Another program has it.
    InUse,
    /// The system gives no permission.
    NoPermission,
    /// A folder is at the path.
    Folder,
    /// A device, a pipe or a socket is at the path.
    Device,
    /// A file that is not empty is at the path, which would be lost.
    NotEmpty,
    /// Any other reason.
    Refused,
}

impl Reason {
    /// The reason in words.
    pub fn words(self) -> &'static str
        ensures { result.now ≡ reason_text self }
    {
        match self {
            Reason::NoFile => "no such file",
            Reason::NoFolder => "no such folder",
            Reason::NoAddress => "no address of this machine",
            Reason::InUse => "in use by another program",
            Reason::NoPermission => "no permission",
            Reason::Folder => "a folder",
            Reason::Device => "a device, a pipe or a socket",
            Reason::NotEmpty => "there already, and not empty",
            Reason::Refused => "no permission, or refused by the system",
        }
    }
}

/// Why a file was not opened.
pub(crate) fn why_not_opened<R: Files<File = File>>(
    rt: &R,
    file: &str,
    error: OpenError,
) -> Reason {
    match error {
        OpenError::Missing => Reason::NoFile,
        OpenError::InUse => Reason::InUse,
        _ => match metadata(rt, file) {
            Ok(found) if found.is_dir() => Reason::Folder,
            Ok(found) if found.is_file() => why_not_written(rt, file),
            Ok(_) => Reason::Device,
            Err(error) => reason_of(&error),
        },
    }
}

/// Why a file that is there is not opened to be read and written.
fn why_not_written<R: Files<File = File>>(rt: &R, file: &str) -> Reason {
    match OpenOptions::new().read(true).write(true).open(rt, file) {
        Ok(_) => Reason::Refused,
        Err(error) => reason_of(&error),
    }
}

/// Why a file for text was not made, nor emptied.
pub(crate) fn why_text_not_made<R: Files<File = File>>(rt: &R, file: &str) -> Reason {
    match metadata(rt, file) {
        Ok(found) if found.is_dir() => Reason::Folder,
        Ok(_) => Reason::Refused,
        Err(_) => why_not_made(rt, file),
    }
}

/// Whether a file is there that is not empty.
pub(crate) fn is_not_empty<R: Files<File = File>>(rt: &R, file: &str) -> bool {
    match metadata(rt, file) {
        Ok(found) => found.is_file() && found.len() > 0,
        Err(_) => false,
    }
}

/// Why a file was not made.
pub(crate) fn why_not_made<R: Files<File = File>>(rt: &R, file: &str) -> Reason {
    let folder = match Path::new(file).parent() {
        Some(parent) if !parent.as_str().is_empty() => parent.as_str(),
        _ => ".",
    };
    match metadata(rt, folder) {
        Ok(found) if found.is_dir() => Reason::Refused,
        Ok(_) => Reason::NoFolder,
        Err(error) => match reason_of(&error) {
            Reason::NoFile => Reason::NoFolder,
            reason => reason,
        },
    }
}

/// What a failed call on a path says of it.
fn reason_of(error: &io::Error) -> Reason
    ensures missing { error_kind error.now ≡ ErrorKind.NotFound → result ≡ Reason.NoFile }
    ensures permission { error_kind error.now ≡ ErrorKind.PermissionDenied → result ≡ Reason.NoPermission }
{
    match error.kind() {
        ErrorKind::NotFound | ErrorKind::NotADirectory => Reason::NoFile,
        ErrorKind::PermissionDenied => Reason::NoPermission,
        _ => Reason::Refused,
    }
}

/// Why an address was not bound. One that is not understood or found is no failure of the system's.
pub(crate) fn why_not_bound(error: &io::Error) -> Reason
    ensures in_use { error_kind error.now ≡ ErrorKind.AddrInUse → result ≡ Reason.InUse }
    ensures permission { error_kind error.now ≡ ErrorKind.PermissionDenied → result ≡ Reason.NoPermission }
    ensures address { error_kind error.now ≡ ErrorKind.AddrNotAvailable → result ≡ Reason.NoAddress }
{
    match error.kind() {
        ErrorKind::AddrInUse => Reason::InUse,
        ErrorKind::PermissionDenied => Reason::NoPermission,
        ErrorKind::AddrNotAvailable => Reason::NoAddress,
        _ if error.raw_os_error().is_none() => Reason::NoAddress,
        _ => Reason::Refused,
    }
}
