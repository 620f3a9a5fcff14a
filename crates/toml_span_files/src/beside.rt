//! The new file beside the file that is edited. The new file is also the lock against other runs of this program.
//!
//! A run creates the new file under a name that is made from the name of the edited file, with the mode `OWN_MODE`,
//! which files of other programs don't have. The run then locks it with an advisory lock, which the system releases
//! when the run ends. Only the run that has the lock writes, renames and removes the file. So if a file of this name
//! and mode is not locked, it was left by a run that was interrupted or killed, and the next run removes it. No other
//! file of this name is ever removed or changed. The new file gets its final mode last, just before it is renamed.
use crate::failure::{Failure, unwritten};
use std::fs::{File, Metadata, OpenOptions, TryLockError};
use std::io::ErrorKind;
use std::os::unix::fs::{MetadataExt, OpenOptionsExt};
use std::time::Duration;
use std::{fs, io, thread};

/// How many times per second to try to get a lock.
const TRIES: u64 = 100;

/// The mode of the new file, until it gets the mode of the file that it replaces. The sticky bit, which has no effect
/// on files, marks the file as one that a run of this program has created.
const OWN_MODE: u32 = 0o1600;

/// The new file, which this run has created and locked.
#[derive(Drop)]
pub(crate) struct Beside {
    pub(crate) name: String,
    pub(crate) file: File,
}

/// The result of an attempt to create and lock the new file.
#[derive(Drop)]
enum Try {
    /// The new file was created and locked.
    Locked(File),
    /// Another run has locked or removed the new file, or a file that a killed run had left was removed. Try again.
    Busy,
    /// A run has created the file with this name, and it is not clear whether that run has ended.
    Left,
    /// There is a file with this name that no run has left.
    Taken,
}

/// Returns whether `one` and `other` are the metadata of the same file.
pub(crate) fn is_same(one: &Metadata, other: &Metadata) -> bool {
    one.dev() == other.dev() && one.ino() == other.ino()
}

/// Returns whether the path `name` names the open file itself, not a link to it. Returns `false` if the path or the
/// file can't be examined.
fn is_at(rt: &HostRuntime, name: &str, file: &File) -> bool {
    match (fs::symlink_metadata(rt, name), file.metadata()) {
        (Ok(named), Ok(open)) => is_same(&named, &open),
        _ => false,
    }
}

/// Creates the new file, with the path `name`. Fails if a file with this path exists or can't be created.
fn create(rt: &HostRuntime, name: &str) -> io::Result<File> {
    let mut options = OpenOptions::new();
    options.read(true).write(true).create_new(true);
    options.mode(OWN_MODE).open(rt, name)
}

/// Locks the file that was just created with the path `name`. Returns `Busy` if another run has locked or removed it,
/// or if it can't be examined. Otherwise returns `Locked`, even if the system has no locks.
fn claim(rt: &HostRuntime, name: &str, file: File) -> Try {
    if let Err(TryLockError::WouldBlock) = file.try_lock() {
        return Try::Busy;
    }
    if is_at(rt, name, &file) {
        Try::Locked(file)
    } else {
        Try::Busy
    }
}

/// Returns whether a file is one that a run has created: a regular file of the mode `OWN_MODE`, without other hard
/// links.
fn is_own(found: &Metadata) -> bool {
    found.is_file() && found.mode() & 0o7777 == OWN_MODE && found.nlink() == 1
}

/// Returns whether the regular file with the path `name` is locked. Returns `false` if it can't be opened or tested for
/// a lock.
fn is_locked(rt: &HostRuntime, name: &str) -> bool {
    match File::open(rt, name) {
        Ok(file) => matches!(file.try_lock_shared(), Err(TryLockError::WouldBlock)),
        Err(_) => false,
    }
}

/// Returns what a file with the path `name` and the metadata `found` means, if it is not a file that a run has left:
/// `Busy` if it is locked, since it may be the file of a run that is about to rename it, otherwise `Taken`.
fn other(rt: &HostRuntime, name: &str, found: &Metadata) -> Try {
    if found.is_file() && is_locked(rt, name) {
        Try::Busy
    } else {
        Try::Taken
    }
}

/// Removes the file with the path `name` if a killed run has left it: if a run has created it (`is_own`), and it is not
/// locked. Leaves any other file as it is (`other`). Returns `Left` if the file can't be opened or tested for a lock.
/// Returns `Busy` if the file was removed, is locked, has been replaced in the meantime, or can't be examined. Fails if
/// it can't be removed.
fn clear(rt: &HostRuntime, name: &str) -> io::Result<Try> {
    let Ok(found) = fs::symlink_metadata(rt, name) else {
        return Ok(Try::Busy);
    };
    if !is_own(&found) {
        return Ok(other(rt, name, &found));
    }
    let Ok(file) = OpenOptions::new().read(true).write(true).open(rt, name) else {
        return Ok(Try::Left);
    };
    match file.try_lock() {
        Ok(()) => {
            if is_at(rt, name, &file) {
                fs::remove_file(rt, name)?;
            }
            Ok(Try::Busy)
        }
        Err(TryLockError::WouldBlock) => Ok(Try::Busy),
        Err(TryLockError::Error(_)) => Ok(Try::Left),
    }
}

/// Tries to create and lock the new file with the path `name`. If a file with this path exists, removes it if a killed
/// run has left it (`clear`). Fails if the new file can't be created, or a file that a killed run has left can't be
/// removed.
fn try_lock(rt: &HostRuntime, name: &str) -> io::Result<Try> {
    match create(rt, name) {
        Ok(file) => Ok(claim(rt, name, file)),
        Err(error) if error.kind() == ErrorKind::AlreadyExists => clear(rt, name),
        Err(error) => Err(error),
    }
}

/// Waits before the next attempt to get a lock.
fn pause(rt: &HostRuntime) {
    thread::sleep(rt, Duration::from_millis(1000 / TRIES));
}

/// Locks an open file, and waits up to `wait` seconds if another run has locked it. Returns `false` if the other run
/// still holds the lock then, otherwise `true`. So `true` does not mean that the file is locked: the system may have no
/// locks.
pub(crate) fn waited(rt: &HostRuntime, file: &File, wait: u64) -> bool {
    for _ in 0..wait.saturating_mul(TRIES).saturating_add(1) {
        match file.try_lock() {
            Err(TryLockError::WouldBlock) => pause(rt),
            _ => return true,
        }
    }
    false
}

/// Creates the new file with the path `name`, and locks it if the system has locks. Waits up to `wait` seconds if that
/// is not possible yet, and then fails with `Busy` or `Left`. Fails at once with `Taken` if there is a file with this
/// path that no run has left, and with `Unwritten` if the file can't be created, or if a file that a killed run has
/// left can't be removed.
pub(crate) fn lock(rt: &HostRuntime, name: String, wait: u64) -> Result<Beside, Failure> {
    let mut is_left = false;
    for _ in 0..wait.saturating_mul(TRIES).saturating_add(1) {
        match try_lock(rt, name.as_str()).map_err(unwritten)? {
            Try::Locked(file) => return Ok(Beside { name, file }),
            Try::Taken => return Err(Failure::Taken(name)),
            Try::Busy => is_left = false,
            Try::Left => is_left = true,
        }
        pause(rt);
    }
    if is_left {
        Err(Failure::Left(name))
    } else {
        Err(Failure::Busy(name))
    }
}
