//! A text is saved in a file: what the file held is lost only when the whole text is there.

use mix_files::MAX_BUNDLE_BYTES;
use mix_refused::{Memory, Refused};
use mix_run::{Reason, Replaces, Unsaved, may_go};
use mix_stream::{Counted, read_up_to};
use std::alloc::Global;
use std::fs::{self, File, OpenFile, OpenOptions};
use std::io::{self, ErrorKind, Print, Write};
use std::rt::Files;

/// Saves a text in a file of this name, unless that is a file which holds what may not be replaced. It is written to a new file in the same folder, which then takes the name; so a file that was there holds either
/// what it held, or the whole text. Of a link the file is saved that it leads to. A device, and all that is under /dev and /proc, is written to as it is;
/// on standard output, which is `-` too, the text comes after what was written.
pub(crate) fn save_file<F: Files + Print>(
    files: &F,
    alloc: Global,
    name: &str,
    text: &[u8],
    over: Replaces,
) -> Result<(), Refused<Unsaved>> {
    if is_output(name) {
        return write_on(io::writer(files), text);
    }
    if is_device(name) {
        return write_over(files, name, text);
    }
    if !may_replace(files, alloc, name, over)? {
        return Err(Refused::Fault(Unsaved::Taken));
    }
    match fs::symlink_metadata(files, name) {
        Ok(about) => {
            if about.is_symlink() {
                save_linked(files, alloc, name, text)
            } else if about.is_file() {
                replace(files, alloc, name, text)
            } else {
                write_over(files, name, text)
            }
        }
        Err(_) => write_new(files, alloc, name, text),
    }
}

fn is_output(name: &str) -> bool {
    name == "-" || name == "/dev/stdout"
}

fn is_device(name: &str) -> bool {
    name.starts_with("/dev/") || name.starts_with("/proc/")
}

/// Whether what a name leads to may be replaced: no file, an empty one, a device, or a file that holds what may go.
pub(crate) fn may_replace<F: Files>(
    files: &F,
    alloc: Global,
    name: &str,
    over: Replaces,
) -> Result<bool, Refused<Unsaved>> {
    if is_output(name) || is_device(name) {
        return Ok(true);
    }
    match (fs::metadata(files, name), over) {
        (Ok(about), Replaces::Nothing) if about.is_file() => Ok(about.len() == 0),
        (Ok(about), Replaces::Bundle | Replaces::Deck | Replaces::Picture) if about.is_file() => {
            let text = text_of(files, alloc, name)?;
            Ok(may_go(alloc, over, &text)?)
        }
        _ => Ok(true),
    }
}

// What a file holds, up to more than a bundle or a deck may have.
fn text_of<F: Files>(files: &F, alloc: Global, name: &str) -> Result<Vec<u8>, Refused<Unsaved>> {
    match fs::open(files, name) {
        Ok(file) => match read_up_to(alloc, &mut Counted::of(file), MAX_BUNDLE_BYTES + 1) {
            Ok(text) => Ok(text),
            Err(Refused::Memory) => Err(Refused::Memory),
            Err(Refused::Fault(_)) => Err(Refused::Fault(Unsaved::Taken)),
        },
        Err(error) => Err(not_opened(&error)),
    }
}

// A text is written to what is open.
fn write_on<W: Write + Drop>(to: W, text: &[u8]) -> Result<(), Refused<Unsaved>> {
    let mut to = to;
    match to.write_all(text) {
        Ok(()) => Ok(()),
        Err(error) => Err(not_written(&error)),
    }
}

// The file that a link leads to; if it leads nowhere, a new one.
fn save_linked<F: Files>(
    files: &F,
    alloc: Global,
    name: &str,
    text: &[u8],
) -> Result<(), Refused<Unsaved>> {
    match files.canonicalize(alloc, name) {
        Ok(path) => match fs::metadata(files, path.as_str()) {
            Ok(about) if about.is_file() => replace(files, alloc, path.as_str(), text),
            Ok(_) | Err(_) => write_over(files, name, text),
        },
        Err(error) => match error.kind() {
            ErrorKind::NotFound => write_over(files, name, text),
            _ => Err(not_opened(&error)),
        },
    }
}

fn not_opened(error: &io::Error) -> Refused<Unsaved> {
    match error.kind() {
        ErrorKind::OutOfMemory => Refused::Memory,
        kind => Refused::Fault(Unsaved::NotOpened(Reason::of(kind))),
    }
}

fn not_written(error: &io::Error) -> Refused<Unsaved> {
    Refused::Fault(Unsaved::NotWritten(Reason::of(error.kind())))
}

// A text is written to what has this name.
fn write_over<F: Files>(files: &F, name: &str, text: &[u8]) -> Result<(), Refused<Unsaved>> {
    match fs::create(files, name) {
        Ok(file) => write_on(file, text),
        Err(error) => Err(not_opened(&error)),
    }
}

// A file that is not there yet; until the whole text is written, it isn't there either.
fn write_new<F: Files>(
    files: &F,
    alloc: Global,
    name: &str,
    text: &[u8],
) -> Result<(), Refused<Unsaved>> {
    let (file, new) = create_beside(files, alloc, name)?;
    put(files, file, new.as_str(), name, text)
}

// All of a text is written to a new file; if that fails, the file is taken away.
fn written<F: Files>(
    files: &F,
    file: F::File,
    name: &str,
    text: &[u8],
) -> Result<(), Refused<Unsaved>> {
    match write_whole(file, text) {
        Ok(()) => Ok(()),
        Err(error) => {
            let _ = fs::remove_file(files, name);
            Err(not_written(&error))
        }
    }
}

// The text has reached the disk when this ends well.
fn write_whole<W: Write + OpenFile + Drop>(file: W, text: &[u8]) -> io::Result<()> {
    let mut file = file;
    file.write_all(text)?;
    file.sync_all()
}

// The text is written beside the file, which may be written to, and then takes its name.
fn replace<F: Files>(
    files: &F,
    alloc: Global,
    name: &str,
    text: &[u8],
) -> Result<(), Refused<Unsaved>> {
    let about = match OpenOptions::new().write(true).open(files, name) {
        Ok(file) => file.metadata(),
        Err(error) => return Err(not_opened(&error)),
    };
    let (file, new) = create_beside(files, alloc, name)?;
    if let Ok(about) = about {
        let _ = file.set_permissions(about.permissions());
    }
    put(files, file, new.as_str(), name, text)
}

// A text is written to a new file, which then takes a name.
fn put<F: Files>(
    files: &F,
    file: F::File,
    new: &str,
    name: &str,
    text: &[u8],
) -> Result<(), Refused<Unsaved>> {
    written(files, file, new, text)?;
    match fs::rename(files, new, name) {
        Ok(()) => Ok(()),
        Err(error) => {
            let _ = fs::remove_file(files, new);
            Err(not_written(&error))
        }
    }
}

// A new file in the folder of a file, and its name: the first that no file has, also where many saves were broken off before.
fn create_beside<F: Files>(
    files: &F,
    alloc: Global,
    name: &str,
) -> Result<(F::File, String), Refused<Unsaved>> {
    let folder = match name.rfind('/') {
        Some(at) => &name[..at + 1],
        None => "",
    };
    for n in 0..u32::MAX {
        let new = format!(in alloc; "{folder}.mixrev-{n}")?;
        match File::create_new(files, new.as_str()) {
            Ok(file) => return Ok((file, new)),
            Err(error) => {
                if error.kind() != ErrorKind::AlreadyExists {
                    return Err(not_opened(&error));
                }
            }
        }
    }
    Err(Refused::Fault(Unsaved::NotOpened(Reason::Other)))
}
