//! Reads and replaces a file of the file system.
ghost use Rattle.std.specs.Prelude.{IfErr, None, OnOk};
ghost use Rattle.std.specs.Fs.{IsFile, file_type};
ghost use Rattle.toml_span_files.specs.Past.{Past};
ghost use Rattle.toml_span_files.specs.Place.{IsEditable, IsNotRegular, IsRefused};

use crate::LIMIT;
use crate::beside::{Beside, is_same, lock, waited};
use crate::failure::{Failure, unread, unwritten};
use crate::place::{beside, folder, place_of};
use crate::steps::Steps;
use std::alloc::Global;
use std::fs::{File, Metadata, OpenOptions, Permissions};
use std::io::{ErrorKind, Read, Seek, SeekFrom, Write};
use std::os::unix::fs::{MetadataExt, PermissionsExt, fchown};
use std::{fs, io};

/// How to edit a file.
#[derive(Clone, Copy)]
pub struct Options {
    /// How many seconds to wait for another run that edits the same file.
    pub wait: u64,
    /// Whether to edit a read-only file.
    pub is_forced: bool,
    /// Whether to replace a file whose owner or group can't be kept. The new file then belongs to the user and the group
    /// of this program.
    pub may_change_owner: bool,
    /// Whether to write into the file itself. The file then keeps its owner, its hard links, its access control list
    /// and its extended attributes, and its directory need not be writable. But a run that is killed while it writes
    /// may leave a part of the old text and a part of the new text.
    pub is_in_place: bool,
}

impl Options {
    /// Waits up to 5 seconds. The other options are not set.
    pub const USUAL: Options = Options {
        wait: 5,
        is_forced: false,
        may_change_owner: false,
        is_in_place: false,
    };
}

/// A file of the file system, for an edit.
///
/// Unless `is_in_place` is set, the new text is written to a new file in the same directory, which then replaces the
/// file. The new file has no access control list and no extended attributes, since this program can't read those of the
/// old file. A file that is written in place keeps its own.
#[derive(Drop)]
pub struct Disk<'r> {
    rt: &'r HostRuntime,
    /// The path of the file, after all links have been followed.
    place: String,
    options: Options,
    /// The metadata of the file when it was last read. `None` if it has not been read.
    found: Option<Metadata>,
    beside: Option<Beside>,
    /// The file itself, if it is to be written in place.
    open: Option<File>,
    /// The new text, if the file is to be written in place.
    ready: Vec<u8>,
    /// The mode that the new file gets before it replaces the file.
    mode: u32,
    /// Whether the file is locked against other runs.
    is_locked: bool,
    /// Whether the file has been read since the new text was prepared.
    is_fresh: bool,
}

/// Checks that `found` is the metadata of a regular file. Fails with `Directory` or `NotRegular` if not.
fn check_kind(found: &Metadata) -> Result<(), Failure>
    ensures regular { OnOk result (IsFile (file_type found.now)) }
    ensures other { IfErr result (IsNotRegular found.now) }
{
    if found.is_dir() {
        Err(Failure::Directory)
    } else if found.is_file() {
        Ok(())
    } else {
        Err(Failure::NotRegular)
    }
}

/// Checks that a file with the metadata `found` may be edited. Fails if it is not a regular file (`check_kind`). Fails
/// with `ReadOnly` if it is read-only, unless `is_forced` is set, and with `Linked` if it has other hard links, unless
/// `is_in_place` is set.
fn check(found: &Metadata, options: Options) -> Result<(), Failure>
    ensures editable { OnOk result (IsEditable found.now options) }
    ensures refused { IfErr result (IsRefused found.now options) }
{
    check_kind(found)?;
    if found.permissions().readonly() && !options.is_forced {
        return Err(Failure::ReadOnly);
    }
    if found.nlink() > 1 && !options.is_in_place {
        return Err(Failure::Linked);
    }
    Ok(())
}

/// Returns whether a failure means that no file can be created in the directory.
fn is_closed(failure: &Failure) -> bool {
    match failure {
        Failure::Unwritten(error) => matches!(
            error.kind(),
            ErrorKind::PermissionDenied | ErrorKind::ReadOnlyFilesystem
        ),
        _ => false,
    }
}

/// Returns the new file from `locked`, the result of `lock`. Returns `None` if the directory allows no new file, but
/// the file is to be written in place. Fails with any other failure in `locked`.
fn beside_or_none(
    locked: Result<Beside, Failure>,
    options: Options,
) -> Result<Option<Beside>, Failure> {
    match locked {
        Ok(beside) => Ok(Some(beside)),
        Err(failure) => {
            if options.is_in_place && is_closed(&failure) {
                Ok(None)
            } else {
                Err(failure)
            }
        }
    }
}

/// Gives the new file `file` the owner and group of the old file, whose metadata is `found`. Returns the mode for the
/// new file. If the owner or group can't be kept, fails with `Owner` or, if `may_change_owner` is set, returns only
/// the permission bits of the mode, without set-id bits. Fails with `Unwritten` if the metadata of `file` can't be read.
fn keep_owner(file: &File, found: &Metadata, may_change_owner: bool) -> Result<u32, Failure> {
    let new = file.metadata().map_err(unwritten)?;
    let mode = found.permissions().mode();
    if new.uid() == found.uid() && new.gid() == found.gid() {
        return Ok(mode);
    }
    match fchown(file, Some(found.uid()), Some(found.gid())) {
        Ok(()) => Ok(mode),
        Err(_) if may_change_owner => Ok(mode & 0o777),
        Err(error) => Err(Failure::Owner(error)),
    }
}

/// Writes the text to a new file, and gives it the owner and group of the old file, whose metadata is `found`. Returns
/// the mode that the file should get. Fails with `Unwritten` if the file can't be written, and with `Owner` as
/// `keep_owner` does. The file may then have a part of the text.
fn fill(
    file: &mut File,
    found: &Metadata,
    text: &[u8],
    may_change_owner: bool,
) -> Result<u32, Failure> {
    file.write_all(text).map_err(unwritten)?;
    file.sync_all().map_err(unwritten)?;
    keep_owner(file, found, may_change_owner)
}

/// Reads a file, up to its end or until more than `LIMIT` bytes have been read. Fails with `Unread` if a read fails.
fn front_of(alloc: Global, file: &mut File) -> Result<Vec<u8>, Failure> {
    let mut bytes = Vec::new(alloc);
    let mut buf = [0u8; 8192];
    for _ in 0..u64::MAX {
        let count = match file.read(&mut buf) {
            Ok(count) => count,
            Err(error) if error.kind() == ErrorKind::Interrupted => continue,
            Err(error) => return Err(unread(error)),
        };
        if count == 0 || bytes.len() > LIMIT {
            break;
        }
        bytes.extend_from_slice(buf.get(..count).unwrap_or(&[]))?;
    }
    Ok(bytes)
}

/// Appends the bytes of `text` beyond the file's length to the file. A full disk is then noticed while the old bytes
/// are still there. Fails with `Unwritten` if the file can't be examined or extended; the file then has its old length.
/// Fails with `Damaged` if the file can neither be extended nor be cut back to its old length.
fn extend(file: &mut File, text: &[u8]) -> Result<(), Failure> {
    let length = file.metadata().map_err(unwritten)?.len();
    let tail = text
        .get(usize::try_from(length).unwrap_or(usize::MAX)..)
        .unwrap_or(&[]);
    file.seek(SeekFrom::Start(length)).map_err(unwritten)?;
    match file.write_all(tail) {
        Ok(()) => Ok(()),
        Err(error) => match file.set_len(length) {
            Ok(()) => Err(unwritten(error)),
            Err(error) => Err(Failure::Damaged(error)),
        },
    }
}

/// Overwrites a file with a text that is not longer than the file. Fails if the file can't be written. The file may
/// then have a part of the new text and a part of the old text.
fn overwrite(file: &mut File, text: &[u8]) -> io::Result<()> {
    file.seek(SeekFrom::Start(0))?;
    file.write_all(text)?;
    file.set_len(text.len() as u64)?;
    file.sync_all()
}

impl<'r> Disk<'r> {
    /// Returns the file with the path `name` or, if that is a link, the file to which the link finally leads. Fails
    /// with `Unread` if a path can't be examined, or if `name` leads through more than 40 links. Fails with `Memory` if
    /// an allocation fails.
    pub fn new(rt: &'r HostRuntime, name: &str, options: Options) -> Result<Disk<'r>, Failure> {
        Ok(Disk {
            rt,
            place: place_of(rt, name)?,
            options,
            found: None,
            beside: None,
            open: None,
            ready: Vec::new(rt.alloc()),
            mode: 0o600,
            is_locked: false,
            is_fresh: false,
        })
    }

    /// Opens the file to write it in place, and locks it, since the new file, which is otherwise the lock, may not have
    /// been created. Returns the open file. Fails with `Unwritten` if the file can't be opened, and with `Busy` if
    /// another run keeps it locked.
    fn open_in_place(&self) -> Result<File, Failure> {
        let mut options = OpenOptions::new();
        let open = options
            .read(true)
            .write(true)
            .open(self.rt, self.place.as_str());
        let file = open.map_err(unwritten)?;
        if !waited(self.rt, &file, self.options.wait) {
            return Err(Failure::Busy(String::from_str(self.rt.alloc(), self.place.as_str())?));
        }
        Ok(file)
    }

    /// Opens the file for reading. Returns it with its metadata. Fails if it is not a regular file, or with `Changed`
    /// if another file was opened before.
    fn open_to_read(&self) -> Result<(File, Metadata), Failure> {
        let place = self.place.as_str();
        // (to open a pipe would be to wait for a writer)
        check_kind(&fs::metadata(self.rt, place).map_err(unread)?)?;
        let file = File::open(self.rt, place).map_err(unread)?;
        let found = file.metadata().map_err(unread)?;
        check_kind(&found)?;
        if let Some(first) = &self.found
            && !is_same(first, &found)
        {
            return Err(Failure::Changed);
        }
        Ok((file, found))
    }
}

impl Steps for Disk<'_> {
    ghost past = { λ disk. record { locked = disk.is_locked; fresh = disk.is_fresh; texts = None } };

    fn begin(&mut self) -> Result<(), Failure> {
        let found = fs::metadata(self.rt, self.place.as_str()).map_err(unread)?;
        check(&found, self.options)?;
        let name = beside(self.rt.alloc(), self.place.as_str())?;
        self.beside = beside_or_none(lock(self.rt, name, self.options.wait), self.options)?;
        if self.options.is_in_place {
            self.open = Some(self.open_in_place()?);
        }
        self.is_locked = true;
        Ok(())
    }

    fn read(&mut self) -> Result<Vec<u8>, Failure> {
        let (mut file, found) = self.open_to_read()?;
        self.found = Some(found);
        let bytes = front_of(self.rt.alloc(), &mut file)?;
        self.is_fresh = true;
        Ok(bytes)
    }

    fn prepare(&mut self, text: &[u8]) -> Result<(), Failure> {
        if self.options.is_in_place {
            self.ready = Vec::from_slice(self.rt.alloc(), text)?;
        } else {
            match (&mut self.beside, &self.found) {
                (Some(beside), Some(found)) => {
                    self.mode = fill(&mut beside.file, found, text, self.options.may_change_owner)?;
                }
                _ => return Err(Failure::Changed),
            }
        }
        self.is_fresh = false;
        Ok(())
    }

    fn replace(&mut self) -> Result<(), Failure> {
        if let Some(file) = &mut self.open {
            extend(file, self.ready.as_slice())?;
            overwrite(file, self.ready.as_slice()).map_err(Failure::Damaged)?;
            self.is_fresh = false;
            return Ok(());
        }
        let Some(beside) = &self.beside else {
            return Err(Failure::Changed);
        };
        // (last, since a run that is killed must leave a file with the mode by which the next run knows it)
        beside
            .file
            .set_permissions(Permissions::from_mode(self.mode))
            .map_err(unwritten)?;
        fs::rename(self.rt, beside.name.as_str(), self.place.as_str()).map_err(unwritten)?;
        self.beside = None;
        self.is_fresh = false;
        // (the file has been replaced at this point, whether or not its directory can be synced)
        if let Ok(open) = File::open(self.rt, folder(self.place.as_str())) {
            let _synced = open.sync_all();
        }
        Ok(())
    }

    fn discard(&mut self) {
        if let Some(beside) = self.beside.take() {
            // (a failure here would add nothing to the error that is reported)
            let _removed = fs::remove_file(self.rt, beside.name.as_str());
        }
        self.open = None;
        self.is_locked = false;
    }
}
