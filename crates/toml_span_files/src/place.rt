//! The path of the file to edit, after its links have been followed, and the path of the new file.
ghost use Rattle.std.specs.Prelude.{◌≡◌, IfOk, string_bytes};
ghost use Rattle.toml_span_files.specs.Place as spec;

use crate::failure::{Failure, unread};
use std::alloc::{AllocError, Global};
use std::io::ErrorKind;
use std::{fs, io};

/// The maximum number of paths to look at: the paths of 40 links, as on Linux, and the path of the file.
const PATHS: usize = 41;

/// The suffix of the name of a new file.
const ENDING: &str = ".toml-span";

/// The maximum number of bytes of a file's name that are kept in the name of the new file.
const KEPT: usize = 128;

/// Splits a path after its last slash, and returns the directory, with the slash, and the name. Without a slash, the
/// directory is empty.
fn split(name: &str) -> (&str, &str)
    ensures { (result.0.now ≡ spec.folder_of name.now) × (result.1.now ≡ spec.name_of name.now) }
{
    match name.rsplit_once('/') {
        Some((_, rest)) => name.split_at(name.len() - rest.len()),
        None => ("", name),
    }
}

/// Returns the directory of a file, or `.` if the path of the file has no slash.
pub(crate) fn folder(place: &str) -> &str {
    match split(place).0 {
        "" => ".",
        folder => folder,
    }
}

/// Returns the path to which a link leads. `link` is the path of the link, and `target` the path that the link
/// contains. A relative `target` starts from the directory of `link`.
fn led_to(alloc: Global, link: &str, target: &str) -> Result<String, AllocError>
    ensures { IfOk result (λ place. string_bytes place ≡ spec.led_to link.now target.now) }
{
    if target.starts_with('/') {
        return String::from_str(alloc, target);
    }
    let mut place = String::from_str(alloc, split(link).0)?;
    place.push_str(target)?;
    Ok(place)
}

/// Follows the links of a path, and returns the path of the file or directory to which they finally lead. Fails with
/// `Unread` if a path can't be examined, or if `name` leads through more than 40 links.
pub(crate) fn place_of(rt: &HostRuntime, name: &str) -> Result<String, Failure> {
    let mut place = String::from_str(rt.alloc(), name)?;
    for _ in 0..PATHS {
        let found = fs::symlink_metadata(rt, place.as_str()).map_err(unread)?;
        if !found.is_symlink() {
            return Ok(place);
        }
        let target = fs::read_link(rt, place.as_str()).map_err(unread)?;
        place = led_to(rt.alloc(), place.as_str(), target.as_str())?;
    }
    Err(Failure::Unread(io::Error::from(ErrorKind::FilesystemLoop)))
}

/// Returns the path of the new file, which is in the directory of the file `place`. Its name is the name of that file,
/// cut to `KEPT` bytes if it is longer, with `.toml-span` at the end. If the result would be `place` itself, `~` is
/// added.
pub(crate) fn beside(alloc: Global, place: &str) -> Result<String, AllocError> {
    let (folder, name) = split(place);
    let mut new = String::from_str(alloc, folder)?;
    let most = folder.len().saturating_add(KEPT);
    for c in name.chars() {
        if new.len().saturating_add(c.len_utf8()) > most {
            break;
        }
        new.push(c)?;
    }
    new.push_str(ENDING)?;
    if new.as_str() == place {
        new.push('~')?;
    }
    Ok(new)
}
