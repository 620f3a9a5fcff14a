//! The folders that are open in the editor, with the schemas of the documents in each.
use crate::incoming::text_in;
use crate::projects::Project;
use crate::settings::rooted_options;
use crate::uris::path_of_uri;
use json::Value;
use std::alloc::{AllocError, Global};
use std::collections::BTreeMap;
use toml_span_lookup::lookup::Lookup;
use toml_span_lookup::options::Options;

/// A folder, and the schemas of the documents in it.
#[derive(Drop)]
pub(crate) struct Folder {
    /// The path of the folder, with a slash at the end. Empty if no folder is open.
    pub path: String,
    pub lookup: Lookup,
    /// Why schemas that documents name can't be used, by the paths of the schemas.
    pub faults: BTreeMap<String, String>,
}

impl Folder {
    /// Returns a folder of which no schemas have been read.
    fn new(alloc: Global, path: String, options: Options) -> Folder {
        Folder {
            path,
            lookup: Lookup::new(alloc, options),
            faults: BTreeMap::new(alloc),
        }
    }
}

/// The folders that are open, at least one.
#[derive(Drop)]
pub(crate) struct Folders {
    first: Folder,
    others: Vec<Folder>,
    /// The schemas that configuration files name, by the keys that `configure` returns.
    configured: BTreeMap<String, Folder>,
}

impl Folders {
    /// Returns the folders for an editor that has none, with `options` for schemas.
    pub(crate) fn none(alloc: Global, options: Options) -> Folders {
        Folders {
            first: Folder::new(alloc, String::new(alloc), options),
            others: Vec::new(alloc),
            configured: BTreeMap::new(alloc),
        }
    }

    /// Returns the folders at these paths, of which no schemas have been read, or one with an empty path if there are
    /// none. Paths in `options` are relative to each folder.
    pub(crate) fn at_paths(
        alloc: Global,
        paths: &[String],
        options: &Options,
    ) -> Result<Folders, AllocError> {
        let mut others = Vec::new(alloc);
        for path in paths.get(1..).unwrap_or(&[]) {
            let options = rooted_options(alloc, path.as_str(), options)?;
            others.push(Folder::new(alloc, path.clone()?, options))?;
        }
        let first = paths.first().map_or("", |path| path.as_str());
        let options = rooted_options(alloc, first, options)?;
        Ok(Folders {
            first: Folder::new(alloc, String::from_str(alloc, first)?, options),
            others,
            configured: BTreeMap::new(alloc),
        })
    }

    /// Returns the position in `others` of the folder that contains the file `name`, the longest one of several.
    /// Returns `None` if none of them does, or if the first folder does, with a longer path.
    fn position_of(&self, name: &str) -> Option<usize> {
        let mut best = None;
        let mut length = 0;
        if name.starts_with(self.first.path.as_str()) {
            length = self.first.path.len();
        }
        for (at, folder) in self.others.as_slice().iter().enumerate() {
            let path = folder.path.as_str();
            if path.len() > length && name.starts_with(path) {
                best = Some(at);
                length = path.len();
            }
        }
        best
    }

    /// Returns the key of the schemas for files in the folder of the file `name` for which the configuration file of
    /// `project` names `schema`, a path or URL, or an empty text. Adds them if they are not there. `options` are those
    /// of the client. Returns an empty text if neither a schema nor a local copy is named.
    pub(crate) fn configure(
        &mut self,
        alloc: Global,
        name: &str,
        options: &Options,
        project: &Project,
        schema: &str,
    ) -> Result<String, AllocError> {
        if schema.is_empty() && project.config.copies.is_empty() {
            return Ok(String::new(alloc));
        }
        let path = String::from_str(alloc, self.folder_of(name, "").path.as_str())?;
        let (number, root) = (project.number, path.as_str());
        let key = format!(in alloc; "{number} {schema} {root}")?;
        if self.configured.get(key.as_str()).is_none() {
            let mut options = rooted_options(alloc, root, options)?;
            project.add_options(alloc, schema, &mut options)?;
            let folder = Folder::new(alloc, path, options);
            self.configured.insert(key.clone()?, folder)?;
        }
        Ok(key)
    }

    /// Returns the schemas with the key `key` or, without them, the folder that contains the file `name`, or the first
    /// one if none does.
    pub(crate) fn folder_of(&self, name: &str, key: &str) -> &Folder {
        if let Some(folder) = self.configured.get(key) {
            return folder;
        }
        match self.position_of(name) {
            Some(at) => self.others.get(at).unwrap_or(&self.first),
            None => &self.first,
        }
    }

    /// Returns what `folder_of` returns, to be changed.
    pub(crate) fn folder_of_mut(&mut self, name: &str, key: &str) -> &mut Folder {
        if self.configured.get(key).is_some() {
            if let Some(folder) = self.configured.get_mut(key) {
                return folder;
            }
        }
        let Some(at) = self.position_of(name) else {
            return &mut self.first;
        };
        match self.others.get_mut(at) {
            Some(folder) => folder,
            None => &mut self.first,
        }
    }
}

/// Returns the path of a folder, with a slash at the end. Returns `None` if `path_of_uri` does for its URI.
pub(crate) fn folder_path(alloc: Global, uri: &str) -> Result<Option<String>, AllocError> {
    let Some(mut path) = path_of_uri(alloc, uri)? else {
        return Ok(None);
    };
    if !path.ends_with('/') {
        path.push('/')?;
    }
    Ok(Some(path))
}

/// Appends the paths of folders in a list of the client, except for those that are in `paths` already. Ignores folders
/// for which `folder_path` returns `None`.
pub(crate) fn push_paths(
    alloc: Global,
    folders: Option<&Value<'_>>,
    paths: &mut Vec<String>,
) -> Result<(), AllocError> {
    let Some(Value::Array(folders)) = folders else {
        return Ok(());
    };
    for folder in folders.as_slice() {
        if let Some(path) = folder_path(alloc, text_in(folder, &["uri"]).unwrap_or(""))? {
            if !paths.iter().any(|known| *known == path) {
                paths.push(path)?;
            }
        }
    }
    Ok(())
}
