//! Reads the files of schemas and catalogs.
use std::alloc::{AllocError, Global};
use std::fs;
use std::time::SystemTime;
use toml_span_check::folder::{is_folder, is_special};
use toml_span_check::input::{Host, Inputs};

/// When a file was last modified, and its length in bytes.
#[derive(Clone, Copy, PartialEq, Eq)]
pub struct Stamp {
    pub modified: SystemTime,
    pub length: u64,
}

/// The files from which schemas and catalogs are read.
pub trait Disk {
    /// Returns the bytes of a file, or a message that says why the file can't be read. Directories, pipes, devices and
    /// sockets can't be read, and are not opened. Fails if an allocation fails.
    fn read_file(
        &mut self,
        alloc: Global,
        path: &str,
    ) -> Result<Result<Vec<u8>, String>, AllocError>;

    /// Returns the stamp of a file, or `None` if the stamp is not known, for example because the file does not exist.
    fn stamp(&mut self, path: &str) -> Option<Stamp>;
}

impl Disk for Host {
    fn read_file(
        &mut self,
        alloc: Global,
        path: &str,
    ) -> Result<Result<Vec<u8>, String>, AllocError> {
        if path != "-" && is_folder(&self.rt, path) {
            return Ok(Err(String::from_str(alloc, "it is a directory")?));
        }
        if path != "-" && is_special(&self.rt, path) {
            return Ok(Err(String::from_str(alloc, "it is not a regular file")?));
        }
        self.read(alloc, path)
    }

    fn stamp(&mut self, path: &str) -> Option<Stamp> {
        let found = fs::metadata(&self.rt, path).ok()?;
        Some(Stamp {
            modified: found.modified().ok()?,
            length: found.len(),
        })
    }
}
