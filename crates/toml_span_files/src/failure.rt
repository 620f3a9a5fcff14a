//! Why a file could not be edited.
use std::alloc::{AllocError, AllocFailed};
use std::fmt::{Display, Formatter, Write};
use std::io::ErrorKind;
use std::{fmt, io};

/// Why a file could not be edited. The file is as before, except after `Damaged`.
#[derive(Debug, Drop)]
pub enum Failure {
    /// An allocation failed.
    Memory,
    /// The file can't be found, opened or read.
    Unread(io::Error),
    /// The path leads to a directory.
    Directory,
    /// The path leads to a pipe, a device or a socket.
    NotRegular,
    /// The file is larger than 16 MiB.
    TooLong,
    /// The new text is larger than 16 MiB.
    ResultTooLong,
    /// The file is read-only.
    ReadOnly,
    /// The file has other hard links, which would keep the old text.
    Linked,
    /// The new file can't be given the owner or group of the old one.
    Owner(io::Error),
    /// After the time to wait, another run still has a lock on the file with this path.
    Busy(String),
    /// The new file should be created at this path, but another run has created a file there. It is not clear whether
    /// that run has ended.
    Left(String),
    /// The new file should be created at this path, but there is a file that no run has left.
    Taken(String),
    /// Another program has changed the file in the meantime.
    Changed,
    /// The new file can't be created, written or renamed, or the file can't be opened or extended to be written in
    /// place.
    Unwritten(io::Error),
    /// An error occurred while the file was written in place. The file may have a part of the new text and a part of
    /// the old text.
    Damaged(io::Error),
}

/// Why an edit was not made.
#[derive(Drop)]
pub enum Failed<X> {
    /// The file could not be read or replaced.
    File(Failure),
    /// The function that makes the new text failed.
    Edit(X),
}

impl<X> From<Failure> for Failed<X> {
    fn from(failure: Failure) -> Failed<X> {
        Failed::File(failure)
    }
}

impl From<AllocError> for Failure {
    fn from(_error: AllocError) -> Failure {
        Failure::Memory
    }
}

impl<T: Drop> From<AllocFailed<T>> for Failure {
    fn from(_error: AllocFailed<T>) -> Failure {
        Failure::Memory
    }
}

/// Returns the failure for an error of a read: `Memory` if an allocation failed, otherwise `Unread`.
pub(crate) fn unread(error: io::Error) -> Failure {
    match error.kind() {
        ErrorKind::OutOfMemory => Failure::Memory,
        _ => Failure::Unread(error),
    }
}

/// Returns the failure for an error of a write: `Memory` if an allocation failed, otherwise `Unwritten`.
pub(crate) fn unwritten(error: io::Error) -> Failure {
    match error.kind() {
        ErrorKind::OutOfMemory => Failure::Memory,
        _ => Failure::Unwritten(error),
    }
}

/// Writes the reason without a full stop. System errors have the system's message. Paths are not escaped, so they may
/// have control characters.
impl Display for Failure {
    fn fmt<W: Write>(&self, f: &mut Formatter<W>) -> fmt::Result {
        match self {
            Failure::Memory => f.write_str("out of memory"),
            Failure::Unread(error) => write!(f, "{error}"),
            Failure::Directory => f.write_str("it is a directory"),
            Failure::NotRegular => f.write_str("it is not a regular file"),
            Failure::TooLong => f.write_str("it is larger than 16 MiB"),
            Failure::ResultTooLong => f.write_str("the result would be larger than 16 MiB"),
            Failure::ReadOnly => f.write_str("it is read-only"),
            Failure::Linked => f.write_str("it has more than one name (hard links)"),
            Failure::Owner(error) => write!(f, "its owner and group can't be kept: {error}"),
            Failure::Busy(name) => write!(f, "another run is editing it and holds `{name}`"),
            Failure::Left(name) => {
                write!(
                    f,
                    "`{name}` was left by another run: remove it if none is running"
                )
            }
            Failure::Taken(name) => {
                write!(f, "`{name}` already exists, and was not left by toml-span")
            }
            Failure::Changed => f.write_str("another program changed it in the meantime"),
            Failure::Unwritten(error) => write!(f, "{error}"),
            Failure::Damaged(error) => write!(f, "only a part was written in place: {error}"),
        }
    }
}

impl std::error::Error for Failure {}
