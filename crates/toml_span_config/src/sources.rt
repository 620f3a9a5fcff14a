//! Finds and reads the configuration files of files.
ghost use Rattle.std.specs.Prelude.{◌≡◌, IfOk, IfSome, map, option_map};
ghost use Rattle.toml_span_config.specs.Sources as spec;

use crate::config::Config;
use crate::layers::{Layer, Settings};
use crate::paths::{above, absolute, front, inside};
use std::alloc::{AllocError, Global};
use std::collections::BTreeMap;
use std::{env, fs, io};
use toml_span::Stop;
use toml_span_check::input::{Host, Inputs};
use toml_span_check::run::push_complaint;
use toml_span_lines::run::BOUND;
use toml_span_report::{Style, render_all};

/// The names of configuration files. The first one that a directory has is used.
pub const NAMES: [&str; 2] = ["toml-span.toml", ".toml-span.toml"];

/// Which configuration file to use.
#[derive(Clone, Copy)]
pub enum Search<'w> {
    /// For each file the nearest one, in its directory or above. The search ends at a directory that has an entry
    /// `.git`.
    Nearest,
    /// The one at this path, for all files.
    Given(&'w str),
    /// None.
    No,
}

/// A configuration file that has been read.
#[derive(Drop)]
pub struct Source {
    /// The path of the file, relative to the current directory if one contains the other.
    pub name: String,
    pub text: String,
    pub config: Config,
    /// What to write before the paths in the file, so that they are relative to the current directory: nothing, or text
    /// with a slash at its end.
    pub front: String,
    /// The absolute path of the directory of the file, without a slash at its end.
    folder: String,
}

/// The settings for a file, and the configuration file that has them.
#[derive(Clone, Copy)]
pub struct Found {
    pub settings: Settings,
    /// The position in `Sources::list`, if there is a configuration file.
    pub source: Option<usize>,
    /// Whether the configuration excludes the file.
    pub is_excluded: bool,
}

/// The configuration files that have been read.
#[derive(Drop)]
pub struct Sources {
    /// Where messages are printed: with or without colors.
    style: Style,
    /// The absolute path of the current directory, without a slash at its end.
    base: String,
    /// The settings of the command line.
    arguments: Layer,
    /// What is used for files in directories that are not in `folders`: `None` if that has to be found.
    fixed: Option<Option<usize>>,
    /// The configuration files that have been read.
    pub list: Vec<Source>,
    /// The positions in `list` of the configuration files of directories, by absolute path. `None` for a directory
    /// without one.
    folders: BTreeMap<String, Option<usize>>,
}

/// Returns the path of the nearest configuration file, in the directory `folder` or above. The search ends at a
/// directory that has an entry `.git`, and at the root. `folder` is as `absolute` returns it.
fn nearest_config(
    alloc: Global,
    rt: &HostRuntime,
    folder: &str,
) -> Result<Option<String>, AllocError> {
    let mut next = Some(folder);
    for _ in 0..=folder.len() {
        let Some(folder) = next else {
            break;
        };
        for name in &NAMES {
            let path = format!(in alloc; "{folder}/{name}")?;
            if matches!(fs::metadata(rt, path.as_str()), Ok(found) if found.is_file()) {
                return Ok(Some(path));
            }
        }
        let end = format!(in alloc; "{folder}/.git")?;
        if fs::symlink_metadata(rt, end.as_str()).is_ok() {
            break;
        }
        next = above(folder);
    }
    Ok(None)
}

/// Returns the message that the configuration file `name` can't be read.
fn unreadable(alloc: Global, name: &str, reason: &str) -> Result<Stop<String>, AllocError> {
    let mut message = String::new(alloc);
    push_complaint(&mut message, name, reason)?;
    Ok(Stop::Fault(message))
}

impl Sources {
    /// Returns a list without configuration files, for settings of the command line. If `search` names a configuration
    /// file, reads it. Fails with a message, for standard error, if the file can't be read or is wrong.
    pub fn new(
        alloc: Global,
        host: &mut Host,
        search: Search<'_>,
        arguments: Layer,
        style: Style,
    ) -> Result<Sources, Stop<String>>
        ensures arguments { IfOk result (λ sources. sources.arguments ≡ arguments) }
        ensures search { IfOk result (λ sources. spec.IsSearched search.entry sources.fixed) }
    {
        // If the system does not say which directory is the current one, paths are relative to the root.
        let base = match env::current_dir(&host.rt) {
            Ok(folder) => absolute(alloc, "", folder.as_str())?,
            Err(error) if error.kind() == io::ErrorKind::OutOfMemory => return Err(
                AllocError.into(),
            ),
            Err(_) => String::new(alloc),
        };
        let mut sources = Sources {
            style,
            base,
            arguments,
            fixed: None,
            list: Vec::new(alloc),
            folders: BTreeMap::new(alloc),
        };
        match search {
            Search::Nearest => {}
            Search::No => sources.fixed = Some(None),
            Search::Given(path) => {
                let path = absolute(alloc, sources.base.as_str(), path)?;
                sources.fixed = Some(Some(sources.read(alloc, host, path.as_str())?));
            }
        }
        Ok(sources)
    }

    /// Reads the configuration file at an absolute path, and appends it to the list. Returns its position. Fails with a
    /// message, such as the reports of all errors, if the file can't be read or is wrong.
    fn read(&mut self, alloc: Global, host: &mut Host, path: &str) -> Result<usize, Stop<String>>
        ensures { self.new ≡ record self.old { list = self.new.list } }
    {
        let folder = above(path).unwrap_or("");
        let front = front(alloc, self.base.as_str(), folder)?;
        let file = path.rsplit_once('/').map_or(path, |pair| pair.1);
        let name = format!(in alloc; "{}{file}", front.as_str())?;
        let text = text_of(alloc, host, name.as_str(), path)?;
        let config = match Config::read(alloc, text.as_str()) {
            Ok(config) => config,
            Err(stop) => {
                let reports = stop.fault()?;
                let (name, text) = (name.as_str(), text.as_str());
                let message = render_all(alloc, self.style, reports.as_slice(), name, text)?;
                return Err(Stop::Fault(message));
            }
        };
        let at = self.list.len();
        self.list.push(Source {
            name,
            text,
            config,
            front,
            folder: String::from_str(alloc, folder)?,
        })?;
        Ok(at)
    }

    /// Returns the position of the configuration file at an absolute path. Reads the file if it has not been read.
    fn position_of(
        &mut self,
        alloc: Global,
        host: &mut Host,
        path: &str,
    ) -> Result<usize, Stop<String>>
        ensures { self.new ≡ record self.old { list = self.new.list } }
    {
        let folder = above(path).unwrap_or("");
        for (at, source) in self.list.as_slice().iter().enumerate() {
            if source.folder.as_str() == folder {
                return Ok(at);
            }
        }
        self.read(alloc, host, path)
    }

    /// Returns the position of the configuration file for the files in a directory, or `None` if there is no such file.
    /// `folder` is as `absolute` returns it.
    fn source_of(
        &mut self,
        alloc: Global,
        host: &mut Host,
        folder: &str,
    ) -> Result<Option<usize>, Stop<String>>
        ensures keeps { self.new ≡ record self.old { list = self.new.list; folders = self.new.folders } }
        ensures fixed { IfOk result (λ at. IfSome self.old.fixed (λ fixed. at ≡ fixed)) }
    {
        if let Some(fixed) = self.fixed {
            return Ok(fixed);
        }
        if let Some(known) = self.folders.get(folder) {
            return Ok(*known);
        }
        let found = match nearest_config(alloc, &host.rt, folder)? {
            Some(path) => Some(self.position_of(alloc, host, path.as_str())?),
            None => None,
        };
        self.folders
            .insert(String::from_str(alloc, folder)?, found)?;
        Ok(found)
    }

    /// Returns the settings for the file at `path`, and where they are from. Fails with a message, for standard error,
    /// if the configuration file can't be read or is wrong.
    pub fn settings_for(
        &mut self,
        alloc: Global,
        host: &mut Host,
        path: &str,
    ) -> Result<Found, Stop<String>>
        ensures keeps { self.new ≡ record self.old { list = self.new.list; folders = self.new.folders } }
        ensures settles { IfOk result (spec.Settles self.old self.new) }
    {
        let path = absolute(alloc, self.base.as_str(), path)?;
        let path = path.as_str();
        let at = self.source_of(alloc, host, above(path).unwrap_or(""))?;
        Ok(self.found(alloc, at, path)?)
    }

    /// Returns the configuration file at the position `at`, if there is one.
    pub fn source_at(&self, at: Option<usize>) -> Option<&Source>
        ensures { option_map (λ s. spec.source s.now) result
            ≡ spec.source_at (map spec.source self.now.list.items) at }
    {
        match at {
            Some(at) => self.list.get(at),
            None => None,
        }
    }

    /// Returns the settings for the file at `path`, an absolute path, by the configuration file at the position `at`,
    /// if there is one.
    fn found(&self, alloc: Global, at: Option<usize>, path: &str) -> Result<Found, AllocError>
        ensures { IfOk result (λ found. found
            ≡ spec.found (map spec.source self.now.list.items) self.now.arguments at path.now) }
    {
        let Some(source) = self.source_at(at) else {
            return Ok(Found {
                settings: self.arguments.settled(),
                source: None,
                is_excluded: false,
            });
        };
        let inside = inside(source.folder.as_str(), path);
        Ok(Found {
            settings: source.config.settings_for(alloc, self.arguments, inside)?,
            source: at,
            is_excluded: source.config.excludes(alloc, inside)?,
        })
    }

    /// Returns the settings for the files in the current directory that no entry of `files` selects, and where they are
    /// from. Fails as `settings_for` does.
    pub fn general_settings(
        &mut self,
        alloc: Global,
        host: &mut Host,
    ) -> Result<Found, Stop<String>> {
        let base = String::from_str(alloc, self.base.as_str())?;
        let at = self.source_of(alloc, host, base.as_str())?;
        let settings = match self.source_at(at) {
            Some(source) => source.config.general_settings(self.arguments),
            None => self.arguments.settled(),
        };
        Ok(Found {
            settings,
            source: at,
            is_excluded: false,
        })
    }

    /// Returns the path or URL of the schema for a file with these settings, or `None` without one. A path is relative
    /// to the current directory.
    pub fn schema_of(&self, alloc: Global, found: &Found) -> Result<Option<String>, AllocError> {
        let (Some(source), Some(schema)) = (self.source_at(found.source), found.settings.schema)
        else {
            return Ok(None);
        };
        let Some(entry) = source.config.files.get(schema.value) else {
            return Ok(None);
        };
        if entry.schema.is_empty() {
            return Ok(None);
        }
        Ok(Some(source.shown_path(alloc, entry.schema.as_str())?))
    }
}

impl Source {
    /// Returns a path of the configuration, relative to the current directory. A URL or an absolute path stays as it
    /// is.
    pub fn shown_path(&self, alloc: Global, path: &str) -> Result<String, AllocError> {
        if path.starts_with('/') || path.contains("://") {
            return String::from_str(alloc, path);
        }
        let path = path.strip_prefix("./").unwrap_or(path);
        format!(in alloc; "{}{path}", self.front.as_str())
    }
}

/// Returns the text of the configuration file at an absolute path. Fails with a message, which calls the file `name`,
/// if it can't be read, is not valid UTF-8, or is too long.
fn text_of(alloc: Global, host: &mut Host, name: &str, path: &str) -> Result<String, Stop<String>> {
    let bytes = match host.read(alloc, path)? {
        Ok(bytes) => bytes,
        Err(reason) => return Err(unreadable(alloc, name, reason.as_str())?),
    };
    if bytes.len() > BOUND {
        return Err(unreadable(alloc, name, "it is larger than 16 MiB")?);
    }
    match str::from_utf8(bytes.as_slice()) {
        Ok(text) => Ok(String::from_str(alloc, text)?),
        Err(_) => Err(unreadable(alloc, name, "it is not valid UTF-8")?),
    }
}
