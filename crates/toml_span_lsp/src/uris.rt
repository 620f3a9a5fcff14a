//! Converts between the URIs and the paths of files.
use percent_encoding::{
    AsciiSet, DecodeError, NON_ALPHANUMERIC, ascii_set, percent_decode, utf8_percent_encode,
};
use std::alloc::{AllocError, Global};

/// The characters of a path that are escaped in a URI.
const ESCAPED: AsciiSet = ascii_set!(
    NON_ALPHANUMERIC
        .remove(b'/')
        .remove(b'-')
        .remove(b'_')
        .remove(b'.')
        .remove(b'~')
);

/// Returns the absolute path in a URI `file:///PATH`, with its percent escapes decoded. Returns `None` if the URI has
/// another form, or if the path is not UTF-8.
pub(crate) fn path_of_uri(alloc: Global, uri: &str) -> Result<Option<String>, AllocError> {
    let Some(path) = uri.strip_prefix("file://") else {
        return Ok(None);
    };
    if !path.starts_with('/') {
        return Ok(None);
    }
    match percent_decode(path.as_bytes()).decode_utf8(alloc) {
        Ok(decoded) => Ok(Some(String::from_str(alloc, decoded.as_ref())?)),
        Err(DecodeError::OutOfMemory) => Err(AllocError),
        Err(_) => Ok(None),
    }
}

/// Returns the URI of an absolute path: `file://` and the path, with the characters in `ESCAPED` escaped.
pub(crate) fn uri_of_path(alloc: Global, path: &str) -> Result<String, AllocError> {
    let mut out = String::from_str(alloc, "file://")?;
    utf8_percent_encode(path, ESCAPED).append_to(&mut out)?;
    Ok(out)
}

/// Returns `path` as a path in the folder `root`: without `./` at its start, after `root` or, if `root` is empty, after
/// `./`. Returns an absolute path unchanged. `root` must end with a slash or be empty.
pub(crate) fn rooted(alloc: Global, root: &str, path: &str) -> Result<String, AllocError> {
    let mut out = String::new(alloc);
    if !path.starts_with('/') {
        out.push_str(if root.is_empty() { "./" } else { root })?;
    }
    out.push_str(path.strip_prefix("./").unwrap_or(path))?;
    Ok(out)
}

/// Returns the path of the document at `uri`. If `path_of_uri` returns `None`, it is the part of `uri` after its last
/// slash, as a path in the folder `root` (see `rooted`).
pub(crate) fn name_of(alloc: Global, root: &str, uri: &str) -> Result<String, AllocError> {
    match path_of_uri(alloc, uri)? {
        Some(path) => Ok(path),
        None => rooted(alloc, root, uri.rsplit('/').next().unwrap_or(uri)),
    }
}
