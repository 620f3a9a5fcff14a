//! Converts between the addresses of schemas and the paths of their files.
ghost use Rattle.std.specs.Prelude.{◌≡◌, ◌++◌, ◌≤◌, ◌-◌, ◌<◌, IfOk, OnOk, length, option_map, slice_index};
ghost use Rattle.std.specs.Prelude.{string_bytes};
ghost use Rattle.toml_span_lookup.specs.Addresses as spec;

use percent_encoding::{DecodeError, percent_decode};
use std::alloc::{AllocError, Global};

/// The address that replaces the folder of a schema when the schema is compiled. Each `../` in a reference removes one
/// `_/`.
const HERE: &str = "file:///_/_/_/_/_/_/_/_/";

/// `HERE`, and the folders above it except the root, from the inside out.
const FOLDERS: [&str; 8] = [
    HERE,
    "file:///_/_/_/_/_/_/_/",
    "file:///_/_/_/_/_/_/",
    "file:///_/_/_/_/_/",
    "file:///_/_/_/_/",
    "file:///_/_/_/",
    "file:///_/_/",
    "file:///_/",
];

/// Returns the rest of a text that begins with `front`, or `None` if it begins otherwise.
pub(crate) fn after<'t>(front: &str, text: &'t str) -> Option<&'t str>
    ensures { option_map (λ rest. rest.now) result ≡ spec.after front.now text.now }
{
    match text.strip_prefix(front) {
        Some(rest) => Some(rest),
        None => None,
    }
}

/// Returns a text without `front` at its start.
pub(crate) fn without<'t>(front: &str, text: &'t str) -> &'t str
    ensures { result.now ≡ spec.without front.now text.now }
{
    match after(front, text) {
        Some(rest) => rest,
        None => text,
    }
}

/// Returns the number of bytes of a path up to its last slash, 0 if it has none.
fn folder_length(path: &[u8]) -> usize
    ensures value { result ≡ spec.folder_length path.now }
    ensures within { result ≤ length path.now }
    ensures slash { 0 < result → slice_index path.now (result - 1) ≡ 47 }
{
    let mut end = 0usize;
    for (at, byte) in path.iter().enumerate() {
        if *byte == b'/' {
            end = at + 1;
        }
    }
    end
}

/// Returns the folder of a path, with the slash after it. Returns an empty text if the path has no slash.
pub(crate) fn folder_of(path: &str) -> &str
    ensures { result.now ≡ spec.folder_of path.now }
{
    match path.get(..folder_length(path.as_bytes())) {
        Some(folder) => folder,
        None => "",
    }
}

/// Returns whether a text ends with a slash.
pub(crate) fn ends_with_slash(text: &str) -> bool
    ensures { result ≡ spec.ends_with_slash text.now }
{
    text.as_bytes().ends_with(b"/")
}

/// Returns `folder` and `path` as one path, or only `path` if `path` is absolute. Removes `./` at the start of `path`.
/// `folder` must be empty or end with a slash.
pub(crate) fn joined(alloc: Global, folder: &str, path: &str) -> Result<String, AllocError>
    ensures { IfOk result (λ out. string_bytes out ≡ spec.joined folder.now path.now) }
{
    let path = without("./", path);
    if path.as_bytes().starts_with(b"/") {
        return String::from_str(alloc, path);
    }
    let mut out = String::from_str(alloc, folder)?;
    out.push_str(path)?;
    Ok(out)
}

/// Returns whether an address begins with `http://` or `https://`.
pub(crate) fn is_remote(address: &str) -> bool
    ensures { result ≡ spec.is_remote address.now }
{
    let address = address.as_bytes();
    address.starts_with(b"https://") || address.starts_with(b"http://")
}

/// Returns an address without its fragment.
pub(crate) fn without_fragment(address: &str) -> &str
    ensures { result.now ≡ spec.without_fragment address.now }
{
    match address.split_once('#') {
        Some((front, _)) => front,
        None => address,
    }
}

/// Appends `part` to `out` with its percent escapes decoded, or unchanged if the result is not UTF-8.
#[tactic(auto, using(crate::proofs::Texts::utf8_is, crate::proofs::Texts::not_utf8))]
pub(crate) fn push_decoded(alloc: Global, out: &mut String, part: &str) -> Result<(), AllocError>
    ensures { OnOk result (string_bytes out.new ≡ string_bytes out.old ++ spec.decoded part.now) }
{
    match percent_decode(part.as_bytes()).decode_utf8(alloc) {
        Ok(decoded) => out.push_str(decoded.as_ref()),
        Err(DecodeError::OutOfMemory) => Err(AllocError),
        Err(_) => out.push_str(part),
    }
}

/// Returns `folder`, `../` repeated `above` times, and `rest` with its percent escapes decoded, as one path.
fn path_from(alloc: Global, folder: &str, above: usize, rest: &str) -> Result<String, AllocError> {
    let mut out = String::from_str(alloc, folder)?;
    for _ in 0..above {
        out.push_str("../")?;
    }
    push_decoded(alloc, &mut out, rest)?;
    Ok(out)
}

/// Returns the path of the file at `address`, or `None` if `address` does not begin with `file:///`. An address in one
/// of `FOLDERS` is relative to `folder`.
pub(crate) fn path_of_address(
    alloc: Global,
    folder: &str,
    address: &str,
) -> Result<Option<String>, AllocError> {
    for (above, front) in FOLDERS.iter().enumerate() {
        if let Some(rest) = address.strip_prefix(*front) {
            return Ok(Some(path_from(alloc, folder, above, rest)?));
        }
    }
    match address.strip_prefix("file:///") {
        Some(rest) => Ok(Some(path_from(alloc, "/", 0, rest)?)),
        None => Ok(None),
    }
}

/// Returns the address of the schema at a path: `HERE` and the name of the file. In the name, `~` replaces each
/// character other than ASCII letters, digits, `.`, `-` and `_`.
pub(crate) fn address_of(alloc: Global, path: &str) -> Result<String, AllocError> {
    let name = match path.rsplit_once('/') {
        Some((_, name)) => name,
        None => path,
    };
    let mut out = String::from_str(alloc, HERE)?;
    for c in name.chars() {
        let is_plain = c.is_ascii_alphanumeric() || c == '.' || c == '-' || c == '_';
        out.push(if is_plain { c } else { '~' })?;
    }
    Ok(out)
}
