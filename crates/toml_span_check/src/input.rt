//! Finds and reads files.
ghost use Rattle.std.specs.Prelude.{◌≡◌, ◌∷◌, [], IfOk, Option, None, false, map, string_bytes};
ghost use Rattle.std.specs.IoError.{error_kind};
ghost use Rattle.toml_span_check.specs.Run.{Asked, LogsSearch, HasReadOrNot, IsReason, Logs, read_of};

use crate::folder::{files_below, is_folder, is_ignore_file, is_special};
use crate::words::is_bytes;
use std::alloc::{AllocError, Global};
use std::fs::File;
use std::io;
use std::io::ErrorKind;
use toml_span_lines::run::{Cut, read_bytes};
use toml_span_lines::source::Source;
use toml_span_lines::tracked::Tracked;

/// A source of files: the file system, or a substitute in tests.
pub trait Inputs {
    /// The searches and reads so far, if known.
    ghost log: { Self → Option Asked };

    /// Returns the names of the files to read for the argument `name`. For a directory, these are the TOML files below
    /// it, except for those that the search leaves out, for example because of the patterns `excludes`, and the paths
    /// below it that can't be searched, so that reading them reports why. If no file is found, or `name` is not a
    /// directory, returns `name` itself. Fails if an allocation fails.
    fn find(
        &mut self,
        alloc: Global,
        excludes: &[&str],
        name: &str,
    ) -> Result<Vec<String>, AllocError>
        ensures { IfOk result (λ found. LogsSearch (log self.old) (log self.new)
            (map (λ pattern. pattern.now) excludes.now, name.now, map (λ file. string_bytes file) found.items)) };

    /// Returns the bytes of a file, or a message that says why the file can't be read. If the file is longer than 16
    /// MiB (`BOUND`), its first `BOUND + 1` bytes are enough. Fails if an allocation fails.
    fn read(&mut self, alloc: Global, name: &str) -> Result<Result<Vec<u8>, String>, AllocError>
        ensures { IfOk result (λ r. Logs (log self.old) (log self.new) ((name.now, read_of r) ∷ [])) };
}

/// Returns a message that says why a file can't be read: a short one for common reasons, otherwise the system's
/// message.
fn reason(alloc: Global, error: &io::Error) -> Result<String, AllocError>
    ensures { IfOk result (λ message. IsReason (error_kind error.now) (string_bytes message)) }
{
    match error.kind() {
        ErrorKind::NotFound => String::from_str(alloc, "no such file"),
        ErrorKind::PermissionDenied => String::from_str(alloc, "permission denied"),
        ErrorKind::IsADirectory => {
            String::from_str(
                alloc,
                "no `*.toml` file in this directory, or only ignored ones",
            )
        }
        _ => error.to_string(alloc),
    }
}

/// Reads an open file. Returns its bytes, at most the first `BOUND + 1`, or a message that says why it can't be read.
fn read_all<R: Source>(alloc: Global, reader: &mut R) -> Result<Result<Vec<u8>, String>, AllocError>
    requires { R.failed reader.old ≡ false }
    ensures { IfOk result (λ r. HasReadOrNot (R.remaining reader.old) (R.remaining reader.new) (read_of r)) }
{
    match read_bytes(alloc, reader) {
        Ok(bytes) => Ok(Ok(bytes)),
        Err(Cut::Memory) => Err(AllocError),
        Err(Cut::Failed(error)) => Ok(Err(reason(alloc, &error)?)),
    }
}

/// The file system of the computer, and standard input as the file `-`.
#[derive(Drop)]
pub struct Host {
    pub rt: HostRuntime,
}

impl Inputs for Host {
    ghost log = { λ _. None };

    fn find(
        &mut self,
        alloc: Global,
        excludes: &[&str],
        name: &str,
    ) -> Result<Vec<String>, AllocError> {
        let mut found = Vec::new(alloc);
        if name != "-" && is_folder(&self.rt, name) {
            found = files_below(&self.rt, alloc, name, excludes)?;
        }
        if found.is_empty() {
            found.push(String::from_str(alloc, name)?)?;
        }
        Ok(found)
    }

    fn read(&mut self, alloc: Global, name: &str) -> Result<Result<Vec<u8>, String>, AllocError> {
        if name == "-" {
            return read_all(alloc, &mut Tracked::new(self.rt.stdin()));
        }
        if is_bytes(name) {
            return Ok(Err(String::from_str(alloc, "its name is not valid UTF-8")?));
        }
        if is_ignore_file(name) && is_special(&self.rt, name) {
            return Ok(Err(String::from_str(alloc, "it is not a regular file")?));
        }
        match File::open(&self.rt, name) {
            Ok(file) => read_all(alloc, &mut Tracked::new(file)),
            Err(error) => Ok(Err(reason(alloc, &error)?)),
        }
    }
}
