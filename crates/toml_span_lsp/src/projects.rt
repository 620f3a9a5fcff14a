//! The configuration files of projects, `toml-span.toml`, that documents follow.
use crate::settings::rooted_address;
use crate::uris::rooted;
use std::alloc::{AllocError, Global};
use toml_span_config::config::Config;
use toml_span_config::layers::{Layer, Settings};
use toml_span_config::sources::NAMES;
use toml_span_lex::stop::Stop;
use toml_span_lookup::compiling::text_of;
use toml_span_lookup::disk::{Disk, Stamp};
use toml_span_lookup::options::{LocalCopy, Options};
use toml_span_report::render_line;

/// A configuration file that has been read.
#[derive(Drop)]
pub(crate) struct Project {
    path: String,
    /// The stamp of the file before it was read.
    stamp: Option<Stamp>,
    /// A number that no other project has had.
    pub number: u64,
    /// The configuration, an empty one if the file is wrong.
    pub config: Config,
    /// Whether the file can't be read or is wrong.
    pub is_wrong: bool,
}

/// The configuration files that have been read.
#[derive(Drop)]
pub(crate) struct Projects {
    list: Vec<Project>,
    /// The number of files that have been read so far.
    count: u64,
}

/// Returns whether a URI names a configuration file.
pub(crate) fn is_configuration(uri: &str) -> bool {
    let name = uri.rsplit('/').next().unwrap_or(uri);
    NAMES.iter().any(|known| *known == name)
}

/// Returns the directory of a path, with a slash at its end.
fn folder_of(path: &str) -> &str {
    let name = path.rsplit('/').next().unwrap_or(path);
    path.strip_suffix(name).unwrap_or("")
}

/// Returns the path of the nearest configuration file of the file `name`, in its directory or above. The search ends at
/// a directory that has an entry `.git`, and at the root. Returns `None` if `name` is not an absolute path.
fn nearest_config<D: Disk>(
    alloc: Global,
    disk: &mut D,
    name: &str,
) -> Result<Option<String>, AllocError> {
    if !name.starts_with('/') {
        return Ok(None);
    }
    let mut next = name.rsplit_once('/');
    for _ in 0..=name.len() {
        let Some((folder, _)) = next else {
            break;
        };
        for file in &NAMES {
            let path = format!(in alloc; "{folder}/{file}")?;
            if disk.stamp(path.as_str()).is_some() {
                return Ok(Some(path));
            }
        }
        let git = format!(in alloc; "{folder}/.git")?;
        if disk.stamp(git.as_str()).is_some() {
            break;
        }
        next = folder.rsplit_once('/');
    }
    Ok(None)
}

/// Reads the configuration file at `path`. If it can't be read or is wrong, returns `None`, and adds error lines to
/// `notices`.
fn read_config<D: Disk>(
    alloc: Global,
    disk: &mut D,
    path: &str,
    notices: &mut String,
) -> Result<Option<Config>, AllocError> {
    let Some(text) = text_of(alloc, disk, notices, "read the configuration", path)? else {
        return Ok(None);
    };
    match Config::read(alloc, text.as_str()) {
        Ok(config) => Ok(Some(config)),
        Err(Stop::Memory(error)) => Err(error),
        Err(Stop::Fault(reports)) => {
            if let Some(report) = reports.first() {
                notices.push_str(render_line(alloc, report, path, text.as_str())?.as_str())?;
            }
            Ok(None)
        }
    }
}

impl Project {
    /// Returns the settings for the file `name`, and whether the configuration excludes it.
    pub(crate) fn settings_for(
        &self,
        alloc: Global,
        name: &str,
    ) -> Result<(Settings, bool), AllocError> {
        let inside = name
            .strip_prefix(folder_of(self.path.as_str()))
            .unwrap_or(name);
        let settings = self.config.settings_for(alloc, Layer::empty(), inside)?;
        Ok((settings, self.config.excludes(alloc, inside)?))
    }

    /// Returns the path or URL of the schema for a file with these settings, as it is written, or an empty text.
    /// Returns an empty text if another schema is named already.
    pub(crate) fn schema_of(&self, settings: &Settings, is_named: bool) -> &str {
        if is_named {
            return "";
        }
        let entry = match settings.schema {
            Some(schema) => self.config.files.get(schema.value),
            None => None,
        };
        match entry {
            Some(entry) => entry.schema.as_str(),
            None => "",
        }
    }

    /// Adds `schema`, unless it is empty, and the local copies of the configuration to the options about schemas.
    pub(crate) fn add_options(
        &self,
        alloc: Global,
        schema: &str,
        options: &mut Options,
    ) -> Result<(), AllocError> {
        let folder = folder_of(self.path.as_str());
        if !schema.is_empty() {
            options.schema = rooted_address(alloc, folder, schema)?;
        }
        for copy in self.config.copies.as_slice() {
            options.copies.push(LocalCopy {
                address: copy.address.clone()?,
                path: rooted(alloc, folder, copy.path.as_str())?,
            })?;
        }
        Ok(())
    }
}

impl Projects {
    /// Returns a list without configuration files.
    pub(crate) fn new(alloc: Global) -> Projects {
        Projects {
            list: Vec::new(alloc),
            count: 0,
        }
    }

    /// Returns the position of the configuration file at `path`, or `None` if it has not been read.
    fn position_of(&self, path: &str) -> Option<usize> {
        for (at, project) in self.list.as_slice().iter().enumerate() {
            if project.path.as_str() == path {
                return Some(at);
            }
        }
        None
    }

    /// Reads the configuration file at `path`, unless it has been read and has not changed since. Adds error lines to
    /// `notices` if it is wrong.
    fn refresh<D: Disk>(
        &mut self,
        alloc: Global,
        disk: &mut D,
        path: &str,
        notices: &mut String,
    ) -> Result<(), AllocError> {
        let stamp = disk.stamp(path);
        if let Some(at) = self.position_of(path) {
            if self.list.get(at).is_some_and(|known| known.stamp == stamp) {
                return Ok(());
            }
            if at < self.list.len() {
                drop(self.list.remove(at));
            }
        }
        let config = read_config(alloc, disk, path, notices)?;
        let is_wrong = config.is_none();
        self.count = self.count.wrapping_add(1);
        self.list.push(Project {
            path: String::from_str(alloc, path)?,
            stamp,
            number: self.count,
            config: config.unwrap_or(Config::empty(alloc)),
            is_wrong,
        })?;
        Ok(())
    }

    /// Returns the nearest configuration file of the file `name`, or `None` if there is none. Reads it, unless it has
    /// been read and has not changed since. Adds error lines to `notices` if it is wrong.
    pub(crate) fn project_of<D: Disk>(
        &mut self,
        alloc: Global,
        disk: &mut D,
        name: &str,
        notices: &mut String,
    ) -> Result<Option<&Project>, AllocError> {
        let Some(path) = nearest_config(alloc, disk, name)? else {
            return Ok(None);
        };
        self.refresh(alloc, disk, path.as_str(), notices)?;
        match self.position_of(path.as_str()) {
            Some(at) => Ok(self.list.get(at)),
            None => Ok(None),
        }
    }
}
