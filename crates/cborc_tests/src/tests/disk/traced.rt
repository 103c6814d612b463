//! How a file is replaced, call by call: over the machine's files, which log each call.

use super::error_of;
use cborc_files::{Disk, Folder};
use std::alloc::{Allocator, Global};
use std::cell::RefCell;
use std::fs::{Metadata, OpenFile, OpenOptions, Permissions};
use std::io::{Input, Lines, Read, Seek, SeekFrom, Write};
use std::os::unix::fs::{MetadataExt, PermissionsExt};
use std::path::PathBuf;
use std::random::RandomSource;
use std::rt::Files;
use std::{env, fs, io, process};

// The machine's files. Each call on a file that is written, and each call that renames it, is a word
// of the log.
#[derive(Drop)]
struct Traced<'a, R> {
    rt: &'a R,
    log: &'a RefCell<String>,
    // Whether the disk is full.
    is_full: bool,
}

impl<'a, R> Traced<'a, R> {
    fn note(&self, word: &str) -> io::Result<()> {
        note(self.log, word)
    }
}

fn note(log: &RefCell<String>, word: &str) -> io::Result<()> {
    match log.try_borrow_mut() {
        Ok(mut log) => {
            log.push_str(word)?;
            log.push_str(" ")?;
            Ok(())
        }
        Err(_) => Err(io::Error::from(io::ErrorKind::ResourceBusy)),
    }
}

#[derive(Drop)]
struct TracedFile<'a, W> {
    file: W,
    log: &'a RefCell<String>,
    is_full: bool,
}

impl<'a, W: Read> Read for TracedFile<'a, W> {
    fn read(&mut self, bytes: &mut [u8]) -> io::Result<usize> {
        self.file.read(bytes)
    }
}

impl<'a, W: Write> Write for TracedFile<'a, W> {
    fn write(&mut self, bytes: &[u8]) -> io::Result<usize> {
        note(self.log, "write")?;
        if self.is_full {
            return Err(io::Error::from(io::ErrorKind::StorageFull));
        }
        self.file.write(bytes)
    }

    fn flush(&mut self) -> io::Result<()> {
        self.file.flush()
    }
}

impl<'a, W: Seek> Seek for TracedFile<'a, W> {
    fn seek(&mut self, to: SeekFrom) -> io::Result<u64> {
        self.file.seek(to)
    }
}

impl<'a, W: OpenFile> OpenFile for TracedFile<'a, W> {
    fn metadata(&self) -> io::Result<Metadata> {
        self.file.metadata()
    }

    fn set_len(&self, size: u64) -> io::Result<()> {
        self.file.set_len(size)
    }

    fn sync_all(&self) -> io::Result<()> {
        note(self.log, "sync")?;
        self.file.sync_all()
    }

    fn sync_data(&self) -> io::Result<()> {
        self.file.sync_data()
    }

    fn set_permissions(&self, permissions: Permissions) -> io::Result<()> {
        note(self.log, "mode")?;
        note_mode(self.log, permissions.mode())?;
        self.file.set_permissions(permissions)
    }
}

// The permissions of a mode, in octal digits.
fn note_mode(log: &RefCell<String>, mode: u32) -> io::Result<()> {
    note(log, mode_name(mode & 0o777))
}

fn mode_name(mode: u32) -> &'static str {
    match mode {
        0o600 => "600",
        0o640 => "640",
        0o644 => "644",
        _ => "another",
    }
}

impl<'a, R: Files> Files for Traced<'a, R> {
    type File = TracedFile<'a, R::File>;

    type Dir = R::Dir;

    fn open_file(&self, how: &OpenOptions, path: &str) -> io::Result<TracedFile<'a, R::File>> {
        let file = self.rt.open_file(how, path)?;
        if path.ends_with(".tmp") {
            self.note("create")?;
            note_mode(self.log, file.metadata()?.mode())?;
        }
        Ok(TracedFile {
            file,
            log: self.log,
            is_full: self.is_full,
        })
    }

    fn open_dir(&self, path: &str) -> io::Result<R::Dir> {
        self.rt.open_dir(path)
    }

    fn metadata(&self, path: &str) -> io::Result<Metadata> {
        self.rt.metadata(path)
    }

    fn symlink_metadata(&self, path: &str) -> io::Result<Metadata> {
        self.rt.symlink_metadata(path)
    }

    fn copy(&self, from: &str, to: &str) -> io::Result<u64> {
        self.rt.copy(from, to)
    }

    fn rename(&self, from: &str, to: &str) -> io::Result<()> {
        self.note("rename")?;
        self.rt.rename(from, to)
    }

    fn remove_file(&self, path: &str) -> io::Result<()> {
        self.note("remove")?;
        self.rt.remove_file(path)
    }

    fn create_dir(&self, path: &str) -> io::Result<()> {
        self.rt.create_dir(path)
    }

    fn remove_dir(&self, path: &str) -> io::Result<()> {
        self.rt.remove_dir(path)
    }

    fn remove_dir_all<B: Allocator>(&self, alloc: B, path: &str) -> io::Result<()> {
        self.rt.remove_dir_all(alloc, path)
    }

    fn canonicalize<B: Allocator>(&self, alloc: B, path: &str) -> io::Result<PathBuf<B>> {
        self.rt.canonicalize(alloc, path)
    }

    fn read_link<B: Allocator>(&self, alloc: B, path: &str) -> io::Result<PathBuf<B>> {
        self.rt.read_link(alloc, path)
    }
}

impl<'a, R: Input> Input for Traced<'a, R> {
    type Reader = R::Reader;

    fn read_line<A: Allocator + Clone>(&self, line: &mut String<A>) -> io::Result<usize> {
        self.rt.read_line(line)
    }

    fn lines<A: Allocator>(&self, alloc: A) -> Lines<R::Reader, A> {
        self.rt.lines(alloc)
    }

    fn reader(&self) -> R::Reader {
        self.rt.reader()
    }
}

impl<'a, R: RandomSource> RandomSource for Traced<'a, R> {
    fn fill_bytes(&self, bytes: &mut [u8]) -> io::Result<()> {
        self.rt.fill_bytes(bytes)
    }
}

impl<'a, R: AllocGlobal> Alloc for Traced<'a, R> {
    type A = Global;

    fn alloc(&self) -> Global {
        self.rt.alloc()
    }
}

// The log of a run that replaces a file with this mode, or leaves it unchanged.
static REPLACED: [(u32, bool, &str); 4] = [
    (0o600, false, "create 600 mode 600 write sync rename "),
    (0o640, false, "create 600 mode 640 write sync rename "),
    (0o644, false, "create 600 mode 644 write sync rename "),
    (0o640, true, "create 600 mode 640 write remove "),
];

// A new file has the mode of the file that it replaces before its first byte is written, and is on the
// disk before it is renamed.
#[test]
fn replaces_a_file_by_one_of_its_mode(rt: HostRuntime) -> io::Result<()> {
    let alloc = rt.alloc();
    let folder = env::temp_dir(&rt)?;
    let folder = folder.as_str();
    let id = process::id(rt.process());
    let path = format!(in alloc; "{folder}/cborc-traced-{id}")?;
    let path = path.as_str();
    for &(mode, is_full, wanted) in &REPLACED {
        fs::write(&rt, path, b"\x00")?;
        fs::set_permissions(&rt, path, Permissions::from_mode(mode))?;
        let log = RefCell::new(String::new(alloc));
        let traced = Traced {
            rt: &rt,
            log: &log,
            is_full,
        };
        let done = Disk::new(&traced).write(path, b"\x01\x02");
        assert!(rt; done.is_err() == is_full, "{wanted}");
        assert!(rt;
            log.try_borrow().is_ok_and(|log| log.as_str() == wanted),
            "{wanted}"
        );
        let left = fs::read(&rt, path)?;
        let held = if is_full {
            b"\x00".as_slice()
        } else {
            b"\x01\x02"
        };
        assert!(rt; left.as_slice() == held, "{wanted}");
        assert!(rt; fs::metadata(&rt, path)?.mode() & 0o777 == mode, "{mode}");
    }
    fs::remove_file(&rt, path)
}
