//! The options about schemas, from the command line or an editor.
ghost use Rattle.std.specs.Prelude.{◌≡◌, IfOk, option_map, string_bytes};
ghost use Rattle.toml_span_lookup.specs.Addresses as spec;

use crate::addresses::{after, ends_with_slash, without_fragment};
use std::alloc::{AllocError, Global};

/// Where people can name a local copy of a schema.
#[derive(Clone, Copy, PartialEq, Eq)]
pub enum Place {
    /// In arguments, with `--schema-map`.
    Arguments,
    /// In the settings of an editor, with `schemaMap`.
    Settings,
}

/// A local copy of a schema.
#[derive(Clone, Drop)]
pub struct LocalCopy {
    /// The URL of the schema or, if it ends with a slash, the beginning of the URLs of several schemas.
    pub address: String,
    /// The path of the local copy, or of the folder with the local copies.
    pub path: String,
}

/// The options about schemas, from the command line or an editor.
#[derive(Clone, Drop)]
pub struct Options {
    /// The path or the URL of the schema of all files. Empty if no schema is named.
    pub schema: String,
    /// The path of a catalog. Empty if no catalog is named.
    pub catalog: String,
    /// The local copies of schemas.
    pub copies: Vec<LocalCopy>,
    /// Whether the keyword `format` is checked.
    pub has_formats: bool,
    /// Where messages tell people to name a local copy.
    pub place: Place,
}

/// Returns whether one of the parts of a path is `..`.
fn leads_out(path: &str) -> bool
    ensures { result ≡ spec.leads_out path.now }
{
    let mut leads = false;
    for part in path.split('/') {
        leads = leads || part == "..";
    }
    leads
}

impl LocalCopy {
    /// Returns the path of the file that this local copy is, or has in its folder, for an address without a fragment.
    fn file_for(&self, alloc: Global, address: &str) -> Result<Option<String>, AllocError>
        ensures { IfOk result (λ found. option_map string_bytes found ≡ spec.file_in
            (spec.without_fragment (string_bytes self.now.address)) (string_bytes self.now.path) address.now) }
    {
        let known = without_fragment(self.address.as_str());
        if known == address {
            return Ok(Some(String::from_str(alloc, self.path.as_str())?));
        }
        let Some(rest) = after(known, address) else {
            return Ok(None);
        };
        if !ends_with_slash(known) || leads_out(rest) {
            return Ok(None);
        }
        let mut path = String::from_str(alloc, self.path.as_str())?;
        if !ends_with_slash(self.path.as_str()) {
            path.push_str("/")?;
        }
        path.push_str(rest)?;
        Ok(Some(path))
    }
}

impl Options {
    /// Returns options that name neither a schema nor a catalog nor local copies, and check the keyword `format`.
    pub fn new(alloc: Global, place: Place) -> Options {
        Options {
            schema: String::new(alloc),
            catalog: String::new(alloc),
            copies: Vec::new(alloc),
            has_formats: true,
            place,
        }
    }

    /// Returns the path of the local copy of the schema at `address`, or `None` if the schema has no local copy.
    /// Ignores fragments. If the address of a copy ends with a slash, its path is a folder with the files of all
    /// addresses that begin with it, by the rest of the address, in which percent escapes stay. The rest can't lead out
    /// of the folder.
    pub(crate) fn copy_of(&self, alloc: Global, address: &str) -> Result<Option<String>, AllocError>
        ensures { IfOk result (λ found. option_map string_bytes found ≡ spec.copy_of self.now address.now) }
    {
        let plain = without_fragment(address);
        for copy in self.copies.as_slice() {
            if let Some(path) = copy.file_for(alloc, plain)? {
                return Ok(Some(path));
            }
        }
        Ok(None)
    }
}
