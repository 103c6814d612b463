//! The files of this machine.

mod traced;

use cborc_files::{Disk, FileFault, Folder};
use std::alloc::Global;
use std::io::Write;
use std::{env, fs, io, process};

#[test]
fn keeps_whole_files(rt: HostRuntime) -> io::Result<()> {
    let alloc = rt.alloc();
    let folder = env::temp_dir(&rt)?;
    let folder = folder.as_str();
    let id = process::id(rt.process());
    let path = format!(in alloc; "{folder}/cborc-{id}")?;
    let inside = format!(in alloc; "{folder}/cborc-{id}/file")?;
    let mut disk = Disk::new(&rt);
    assert!(rt; read_whole(&mut disk, alloc, path.as_str()) == Err(FileFault::Failed));
    assert!(rt; disk.write(inside.as_str(), b"\x00") == Err(FileFault::Failed));
    for bytes in [b"\x19\x03\xe8".as_slice(), b"\x00", b""] {
        disk.write(path.as_str(), bytes).map_err(error_of)?;
        let read = read_whole(&mut disk, alloc, path.as_str()).map_err(error_of)?;
        assert!(rt; read.as_slice() == bytes, "{bytes:?}");
    }
    fs::remove_file(&rt, path.as_str())
}

// A file that was begun replaces another, or is dropped.
#[test]
fn replaces_a_file_or_leaves_it(rt: HostRuntime) -> io::Result<()> {
    let alloc = rt.alloc();
    let folder = env::temp_dir(&rt)?;
    let folder = folder.as_str();
    let id = process::id(rt.process());
    let path = format!(in alloc; "{folder}/cborc-draft-{id}")?;
    let path = path.as_str();
    let text = "0".repeat(alloc, 20_000)?;
    let mut disk = Disk::new(&rt);
    disk.write(path, b"\x00").map_err(error_of)?;
    for (is_kept, wanted) in [(false, 1), (true, 20_000)] {
        let mut draft = disk.begin(path)?;
        draft.write_all(text.as_bytes())?;
        if is_kept {
            disk.replace(path, draft).map_err(error_of)?;
        } else {
            let _ = disk.abandon(draft);
        }
        let read = read_whole(&mut disk, alloc, path).map_err(error_of)?;
        assert!(rt; read.len() == wanted, "{wanted}");
    }
    fs::remove_file(&rt, path)
}

#[test]
fn reads_on_where_it_ended(rt: HostRuntime) -> io::Result<()> {
    let alloc = rt.alloc();
    let folder = env::temp_dir(&rt)?;
    let folder = folder.as_str();
    let id = process::id(rt.process());
    let path = format!(in alloc; "{folder}/cborc-parts-{id}")?;
    let mut disk = Disk::new(&rt);
    let text = "1 8\n64 ".repeat(alloc, 3000)?;
    disk.write(path.as_str(), text.as_bytes())
        .map_err(error_of)?;
    let mut bytes = Vec::new(alloc);
    for wanted in [8000, 16_000, 21_000, 21_000] {
        let from = bytes.len() as u64;
        disk.read_on(alloc, path.as_str(), from, 8000, &mut bytes)
            .map_err(error_of)?;
        assert!(rt; bytes.len() == wanted);
    }
    assert!(rt; bytes.as_slice() == text.as_bytes());
    fs::remove_file(&rt, path.as_str())
}

// All bytes of a file.
fn read_whole<F: Folder>(files: &mut F, alloc: Global, path: &str) -> Result<Vec<u8>, FileFault> {
    let mut bytes = Vec::new(alloc);
    files.read_on(alloc, path, 0, u64::MAX, &mut bytes)?;
    Ok(bytes)
}

fn error_of(fault: FileFault) -> io::Error {
    io::Error::from(match fault {
        FileFault::Failed => io::ErrorKind::Other,
        FileFault::Memory => io::ErrorKind::OutOfMemory,
    })
}
