//! Why a file cannot be opened, created or written.

ghost use Rattle.std.specs.Prelude.{◌≡◌};
ghost use Rattle.mix_run.specs.Reason.{reason_of, reason_text};

use std::io::ErrorKind;

/// Why a file cannot be opened, created or written, as the system has it.
#[derive(Clone, Copy)]
pub enum Reason {
    /// There is none of this name.
    Missing,
    /// It may not be read.
    Denied,
    /// It is a folder.
    Folder,
    /// What should be a folder on the way to it is none.
    NoFolder,
    /// Links lead round and round.
    Loop,
    /// Its name is too long.
    LongName,
    /// No room is left for it.
    Full,
    /// Its folder can only be read.
    ReadOnly,
    /// Something else.
    Other,
}

impl Reason {
    /// The reason of an error of this kind.
    pub fn of(kind: ErrorKind) -> Reason
        ensures { result ≡ reason_of kind }
    {
        match kind {
            ErrorKind::NotFound => Reason::Missing,
            ErrorKind::PermissionDenied => Reason::Denied,
            ErrorKind::IsADirectory => Reason::Folder,
            ErrorKind::NotADirectory => Reason::NoFolder,
            ErrorKind::FilesystemLoop => Reason::Loop,
            ErrorKind::InvalidFilename => Reason::LongName,
            ErrorKind::StorageFull => Reason::Full,
            ErrorKind::ReadOnlyFilesystem => Reason::ReadOnly,
            _ => Reason::Other,
        }
    }

    /// What is told after the name of the file: for another reason nothing.
    pub fn text(self) -> &'static str
        ensures { result.now ≡ reason_text self }
    {
        match self {
            Reason::Missing => ": No such file or directory",
            Reason::Denied => ": Permission denied",
            Reason::Folder => ": Is a directory",
            Reason::NoFolder => ": Not a directory",
            Reason::Loop => ": Too many levels of symbolic links",
            Reason::LongName => ": File name too long",
            Reason::Full => ": No space left on device",
            Reason::ReadOnly => ": Read-only file system",
            Reason::Other => "",
        }
    }
}
