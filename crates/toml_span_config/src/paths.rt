//! Paths of files and directories.
ghost use Rattle.std.specs.Prelude.{◌≡◌, option_map};
ghost use Rattle.toml_span_config.specs.Sources as spec;

use std::alloc::{AllocError, Global};

/// Returns the absolute path of the file or directory at `path`, which is relative to the directory `base` unless it is
/// absolute. The result has no parts `.` and `..`, and no slash at its end: the root is an empty text.
pub(crate) fn absolute(alloc: Global, base: &str, path: &str) -> Result<String, AllocError> {
    let base = if path.starts_with('/') { "" } else { base };
    let whole = format!(in alloc; "{base}/{path}")?;
    let mut parts = Vec::new(alloc);
    for part in whole.as_str().split('/') {
        match part {
            "" | "." => {}
            ".." => {
                parts.pop();
            }
            _ => parts.push(part)?,
        }
    }
    let mut out = String::new(alloc);
    for part in &parts {
        out.push('/')?;
        out.push_str(*part)?;
    }
    Ok(out)
}

/// Returns the directory above a path that `absolute` returned, or `None` above the root.
pub(crate) fn above(path: &str) -> Option<&str> {
    let (folder, _) = path.rsplit_once('/')?;
    Some(folder)
}

/// Returns the part of `path` below the directory `folder`, or `None` if it is not below. Both are as `absolute`
/// returns them.
pub(crate) fn below<'t>(folder: &str, path: &'t str) -> Option<&'t str>
    ensures { option_map (λ rest. rest.now) result ≡ spec.below folder.now path.now }
{
    match path.strip_prefix(folder) {
        Some(rest) => rest.strip_prefix('/'),
        None => None,
    }
}

/// Returns the part of `path` below the directory `folder`, or the whole path if it is not below. Both are as
/// `absolute` returns them.
pub(crate) fn inside<'t>(folder: &str, path: &'t str) -> &'t str
    ensures { result.now ≡ spec.inside folder.now path.now }
{
    match below(folder, path) {
        Some(inside) => inside,
        None => path,
    }
}

/// Returns what to write before a path that is relative to the directory `folder`, so that it is relative to the
/// directory `base`: nothing, `../` some times, or `folder` and a slash. Both are as `absolute` returns them.
pub(crate) fn front(alloc: Global, base: &str, folder: &str) -> Result<String, AllocError> {
    let mut out = String::new(alloc);
    if base == folder {
        return Ok(out);
    }
    if let Some(inside) = below(folder, base) {
        for _ in inside.split('/') {
            out.push_str("../")?;
        }
        return Ok(out);
    }
    out.push_str(below(base, folder).unwrap_or(folder))?;
    out.push('/')?;
    Ok(out)
}
