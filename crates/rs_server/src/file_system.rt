//! What makes and opens files: each is a disk, or the failure that is told of it.
//!
//! The program opens files by this trait alone. So what is proved of it over any file system is proved of the text that runs on the
//! system's files.

ghost use Rattle.std.specs.Prelude.{List, ℕ, Result};
ghost use Rattle.rs_server.specs.declared.file_system.Opening.{Opening};
ghost use Rattle.rs_server.specs.declared.report.Failure.{Failure};

use crate::reasons::{Reason, is_not_empty, why_text_not_made};
use crate::report::{Failure, failure_to_make, failure_to_open};
use rs_disk::{Disk, FileDisk};
use std::fs::File;
use std::io::Write;
use std::rt::Files;

/// How a file is opened.
#[derive(Clone, Copy, Debug, PartialEq, Eq)]
pub enum Opening {
    /// It is made, where nothing is, and its folder is synced, so that it is there after a power cut.
    New,
    /// It is there, and is read and written.
    Writing,
    /// It is there, and is read alone, beside others that do so.
    Reading,
}

/// Files by their names, each as a disk.
pub trait FileSystem {
    /// A file that is open.
    type Held: Disk + Drop;

    /// What opening the file of a name so may give.
    ghost gives: { Self → Opening → List ℕ → Result Self.Held Failure → Type 0 };

    /// A file of text that is being written.
    type Text: Write + Drop;

    /// Makes the file of this name for text, or takes an empty one that is there; or says why it is not open. A file that holds something
    /// is refused, so that nothing is lost.
    fn make_text<'a>(&self, file: &'a str) -> Result<Self::Text, Failure<'a>>;

    /// Opens the file of this name, or says why it is not open.
    fn open_file<'a>(&self, file: &'a str, opening: Opening) -> Result<Self::Held, Failure<'a>>
        ensures { gives self.now opening file.now result };
}

/// The files of the system. Of what is in one nothing is known.
impl<P: Files<File = File>> FileSystem for P {
    ghost use Rattle.rs_server.specs.Files.{GivesFile};

    type Held = FileDisk;

    type Text = File;

    ghost gives = { λ _. GivesFile };

    fn make_text<'a>(&self, file: &'a str) -> Result<File, Failure<'a>> {
        if is_not_empty(self, file) {
            return Err(Failure::CannotOpen {
                file,
                why: Reason::NotEmpty,
            });
        }
        match File::create(self, file) {
            Ok(made) => Ok(made),
            Err(_) => {
                let why = why_text_not_made(self, file);
                Err(Failure::CannotOpen { file, why })
            }
        }
    }

    fn open_file<'a>(&self, file: &'a str, opening: Opening) -> Result<FileDisk, Failure<'a>> {
        match opening {
            Opening::New => FileDisk::create_synced(self, file).map_err(|error| failure_to_make(
                self, file, error,
            )),
            Opening::Writing => {
                FileDisk::open(self, file).map_err(|error| failure_to_open(self, file, error))
            }
            Opening::Reading => FileDisk::open_for_reading(self, file).map_err(
                |error| failure_to_open(self, file, error),
            ),
        }
    }
}
