//! Replaces a file with a new file next to it, which is then renamed.

use crate::folder::Cause;
use std::alloc::{AllocError, Global};
use std::fs::{self, Metadata, OpenFile, OpenOptions};
use std::io::{self, ErrorKind, Write};
use std::os::unix::fs::{MetadataExt, OpenOptionsExt};
use std::path::PathBuf;
use std::random::RandomSource;
use std::rt::Files;

/// The new content of a file, as it is written. It goes to a new file next to the old one, which
/// is created with the first byte. Anything but a regular file, such as a device or a pipe, is
/// written in place.
///
/// A symbolic link stays: its target is replaced or created.
#[derive(Drop)]
pub struct Replacement<'a, R: Files + RandomSource + AllocGlobal> {
    rt: &'a R,
    path: String,
    taker: Option<Taker<R::File>>,
    // Why a write failed.
    cause: Option<Cause>,
}

impl<'a, R: Files + RandomSource + AllocGlobal> Replacement<'a, R> {
    /// New content without any bytes yet.
    pub fn new(rt: &'a R, path: &str) -> Result<Replacement<'a, R>, AllocError> {
        Ok(Replacement {
            rt,
            path: String::from_str(rt.alloc(), path)?,
            taker: None,
            cause: None,
        })
    }

    fn take(&mut self, bytes: &[u8]) -> Result<(), Cause> {
        let mut taker = match self.taker.take() {
            Some(taker) => taker,
            None => taker_at(self.rt, self.path.as_str())?,
        };
        let done = taker.file.write_all(bytes);
        self.taker = Some(taker);
        done?;
        Ok(())
    }

    /// Replaces the content of the file with all bytes, or leaves it unchanged, also if a write
    /// failed.
    pub fn finish(mut self) -> Result<(), Cause> {
        // Without any bytes, an empty file is created.
        let _ = self.write(b"");
        if let Some(cause) = self.cause {
            let _ = self.abandon();
            return Err(cause);
        }
        let Replacement {
            rt,
            path: _,
            taker,
            cause: _,
        } = self;
        match taker {
            Some(taker) => taker.finish(rt),
            None => Ok(()),
        }
    }

    /// Leaves the file unchanged, removes the new one, and returns why a write failed, if one did.
    pub fn abandon(self) -> Option<Cause> {
        let Replacement {
            rt,
            path: _,
            taker,
            cause,
        } = self;
        if let Some(taker) = taker {
            taker.remove(rt);
        }
        cause
    }
}

impl<'a, R: Files + RandomSource + AllocGlobal> Write for Replacement<'a, R> {
    fn write(&mut self, bytes: &[u8]) -> io::Result<usize> {
        match self.take(bytes) {
            Ok(()) => Ok(bytes.len()),
            Err(cause) => {
                self.cause = Some(cause);
                Err(io::Error::from(cause.kind))
            }
        }
    }

    fn flush(&mut self) -> io::Result<()> {
        Ok(())
    }
}

// The file that is written.
#[derive(Drop)]
struct Taker<W> {
    file: W,
    // Its final path, if it is a new file.
    place: Option<Place>,
}

// The paths of a new file: its final one, and the one until then.
#[derive(Drop)]
struct Place {
    // The path until then.
    beside: String,
    path: PathBuf,
}

impl<W: OpenFile + Drop> Taker<W> {
    // Replaces the old file with the new one, once all of it is on the disk. After a failure there
    // is no new file.
    fn finish<R: Files>(self, rt: &R) -> Result<(), Cause> {
        let Taker { file, place } = self;
        let Some(place) = place else {
            return Ok(());
        };
        let Place { beside, path } = place;
        let done = match file.sync_all() {
            Ok(()) => fs::rename(rt, beside.as_str(), path.as_str()),
            Err(error) => Err(error),
        };
        if done.is_err() {
            let _ = fs::remove_file(rt, beside.as_str());
        }
        done?;
        Ok(())
    }

    // Removes the new file.
    fn remove<R: Files>(self, rt: &R) {
        let Taker { file: _, place } = self;
        if let Some(place) = place {
            let _ = fs::remove_file(rt, place.beside.as_str());
        }
    }
}

// Opens the file to write for this path.
fn taker_at<R: Files + RandomSource + AllocGlobal>(
    rt: &R,
    path: &str,
) -> Result<Taker<R::File>, Cause> {
    match OpenOptions::new().write(true).open(rt, path) {
        Ok(file) => {
            let metadata = file.metadata()?;
            if !metadata.is_file() {
                return Ok(Taker { file, place: None });
            }
            let path = fs::canonicalize(rt, path)?;
            new_taker(rt, path, Some(&metadata))
        }
        Err(error) if error.kind() == ErrorKind::NotFound => {
            let path = end_of_links(rt, path)?;
            new_taker(rt, path, None)
        }
        Err(error) => Err(Cause::from(error)),
    }
}

// A new file next to the file at this path, which it is to replace. It has the permissions of that
// file before its first byte is written.
fn new_taker<R: Files + RandomSource + AllocGlobal>(
    rt: &R,
    path: PathBuf,
    replaced: Option<&Metadata>,
) -> Result<Taker<R::File>, Cause> {
    let (file, beside) = create_beside(rt, path.as_str(), replaced).map_err(cause_beside)?;
    let permitted = match replaced {
        Some(metadata) => file.set_permissions(metadata.permissions()),
        None => Ok(()),
    };
    let taker = Taker {
        file,
        place: Some(Place { beside, path }),
    };
    match permitted {
        Ok(()) => Ok(taker),
        Err(error) => {
            taker.remove(rt);
            Err(cause_beside(error))
        }
    }
}

fn cause_beside(error: io::Error) -> Cause {
    Cause {
        kind: error.kind(),
        code: error.raw_os_error(),
        beside: true,
    }
}

// The maximum number of symbolic links that are followed.
const LINKS: u8 = 40;

// The target of the symbolic links at a path without a file: the path itself, if it is not a link.
fn end_of_links<R: Files + AllocGlobal>(rt: &R, path: &str) -> io::Result<PathBuf> {
    let mut end = PathBuf::from_str(rt.alloc(), path)?;
    for _ in 0..LINKS {
        match fs::symlink_metadata(rt, end.as_str()) {
            Ok(metadata) => {
                if !metadata.is_symlink() {
                    return Ok(end);
                }
            }
            Err(error) if error.kind() == ErrorKind::NotFound => return Ok(end),
            Err(error) => return Err(error),
        }
        let next = fs::read_link(rt, end.as_str())?;
        end.pop();
        end.push(next.as_str())?;
    }
    Err(io::Error::from(ErrorKind::FilesystemLoop))
}

// The maximum number of names that are tried for a new file. A second one is hardly ever needed.
const NAMES: u8 = 16;

// Creates a file with a new name, in the folder of the path. Only those who may read the file that it
// is to replace may read it.
fn create_beside<R: Files + RandomSource + AllocGlobal>(
    rt: &R,
    path: &str,
    replaced: Option<&Metadata>,
) -> io::Result<(R::File, String)> {
    let mode = match replaced {
        Some(metadata) => metadata.mode() & 0o600,
        None => 0o666,
    };
    for _ in 0..NAMES {
        let mut random = [0; 8];
        rt.fill_bytes(&mut random)?;
        let name = name_beside(rt.alloc(), path, u64::from_be_bytes(random))?;
        let created = OpenOptions::new()
            .write(true)
            .create_new(true)
            .mode(mode)
            .open(rt, name.as_str());
        match created {
            Ok(file) => return Ok((file, name)),
            Err(error) if error.kind() == ErrorKind::AlreadyExists => {}
            Err(error) => return Err(error),
        }
    }
    Err(io::Error::from(ErrorKind::AlreadyExists))
}

// The maximum number of bytes of a file's name in the name of the new file: with the suffix, it is the
// maximum of a name.
const STEM: usize = 255 - ".0123456789abcdef.tmp".len();

// The path with a suffix that has this number. A long name is cut off.
fn name_beside(alloc: Global, path: &str, number: u64) -> Result<String, AllocError> {
    let mut name = String::from_str(alloc, path)?;
    let folder = path.rfind('/').map_or(0, |at| at + 1);
    name.truncate(path.floor_char_boundary(folder.saturating_add(STEM)));
    name.push_str(format!(in alloc; ".{number:016x}.tmp")?.as_str())?;
    Ok(name)
}
