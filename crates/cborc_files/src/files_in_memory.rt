//! Files in memory: a folder whose contracts say everything.

ghost use Rattle.std.specs.Prelude.{◌≡◌, ℕ, List, None, Some, option_map, OnOk, OnErr};
ghost use Rattle.cborc_files.specs.Folder.{KeepsFiles, ReplacesFile};
ghost use Rattle.cborc_files.specs.InMemory.{files_of};

use crate::folder::{FileFault, Folder, append_part};
use std::alloc::{AllocError, Global};
use std::collections::BTreeMap;

/// Files in memory. Standard input is the file `-`.
#[derive(Drop)]
pub struct FilesInMemory {
    alloc: Global,
    by_path: BTreeMap<String, Vec<u8>>,
}

impl FilesInMemory {
    /// A folder with no file.
    pub fn new(alloc: Global) -> FilesInMemory
        ensures { (path : List ℕ) → files_of result path ≡ None }
    {
        FilesInMemory {
            alloc,
            by_path: BTreeMap::new(alloc),
        }
    }

    /// What the file at this path holds.
    pub fn get(&self, path: &str) -> Option<&[u8]>
        ensures { option_map (λ bytes. bytes.now) result ≡ files_of self.now path.now }
    {
        let bytes = self.by_path.get(path)?;
        Some(bytes.as_slice())
    }

    /// Creates the file at this path, or replaces its content.
    pub fn put(&mut self, path: &str, bytes: &[u8]) -> Result<(), AllocError>
        ensures put { OnOk result (ReplacesFile (Some (files_of self.old)) (Some (files_of self.new)) path.now bytes.now) }
        ensures untouched { OnErr result (KeepsFiles (Some (files_of self.old)) (Some (files_of self.new))) }
    {
        let bytes = Vec::from_slice(self.alloc, bytes)?;
        self.keep(path, bytes)
    }

    // Stores a file with these bytes.
    fn keep(&mut self, path: &str, bytes: Vec<u8>) -> Result<(), AllocError>
        ensures put { OnOk result (ReplacesFile (Some (files_of self.old)) (Some (files_of self.new)) path.now bytes.items) }
        ensures untouched { OnErr result (KeepsFiles (Some (files_of self.old)) (Some (files_of self.new))) }
    {
        let path = String::from_str(self.alloc, path)?;
        self.by_path.insert(path, bytes)?;
        Ok(())
    }
}

impl Folder for FilesInMemory {
    type Draft = Vec<u8>;

    ghost held = { λ files. Some (files_of files) };

    fn read_on(
        &mut self,
        _alloc: Global,
        path: &str,
        from: u64,
        most: u64,
        bytes: &mut Vec<u8>,
    ) -> Result<(), FileFault> {
        match self.get(path) {
            Some(whole) => append_part(whole, from, most, bytes),
            None => Err(FileFault::Failed),
        }
    }

    fn begin(&mut self, _path: &str) -> Result<Vec<u8>, AllocError> {
        Ok(Vec::new(self.alloc))
    }

    fn replace(&mut self, path: &str, draft: Vec<u8>) -> Result<(), FileFault> {
        match self.keep(path, draft) {
            Ok(()) => Ok(()),
            Err(_) => Err(FileFault::Memory),
        }
    }

    // A vector fails only without memory.
    fn abandon(&mut self, _draft: Vec<u8>) -> FileFault {
        FileFault::Memory
    }
}
