//! Reads the settings of a client.
ghost use Rattle.std.specs.Prelude.{◌≡◌};
ghost use Rattle.toml_span_lsp.specs.Settings as spec;

use crate::uris::rooted;
use json::Value;
use std::alloc::{AllocError, Global};
use toml_span_check::newer::Version;
use toml_span_config::layers::{Origin, Settings as ProjectSettings};
use toml_span_lookup::options::{LocalCopy, Options, Place};

/// Returns whether a configuration file sets a setting that comes from `origin`.
pub(crate) fn is_set(origin: Origin) -> bool
    ensures { result ≡ spec.is_set origin }
{
    !matches!(origin, Origin::Default)
}

/// The settings of a client, or those for a document, except for those about schemas.
#[derive(Clone, Copy)]
pub(crate) struct Settings {
    /// The width of a line for the formatter, in characters, or `None` if the client has not set one.
    pub width: Option<usize>,
    /// The version of TOML against which documents are checked.
    pub version: Version,
    /// Whether there is a setting `schema`, so that the schemas that documents name are not used.
    pub has_schema: bool,
    /// The settings of the configuration file of a document, or `None` without one.
    pub project: Option<ProjectSettings>,
    /// Whether the configuration file excludes the document.
    pub is_excluded: bool,
    /// Whether the document may be formatted: it is not excluded, and its configuration file is not wrong.
    pub can_format: bool,
}

impl Settings {
    /// The settings of a client that has set none.
    pub(crate) const USUAL: Settings = Settings {
        width: None,
        version: Version::Auto,
        has_schema: false,
        project: None,
        is_excluded: false,
        can_format: true,
    };

    /// Returns these settings with those of a configuration file, which come first.
    pub(crate) fn in_project(self, project: ProjectSettings, is_excluded: bool) -> Settings
        ensures { result ≡ spec.in_project self project is_excluded }
    {
        Settings {
            version: self.version_in(project),
            width: self.width_in(project),
            project: Some(project),
            is_excluded,
            can_format: !is_excluded,
            ..self
        }
    }

    /// Returns the version of TOML: that of the configuration file if it sets one.
    fn version_in(self, project: ProjectSettings) -> Version
        ensures { result ≡ spec.version_in self project }
    {
        if is_set(project.toml.origin) {
            project.toml.value
        } else {
            self.version
        }
    }

    /// Returns the width of a line: that of the configuration file if it sets one.
    fn width_in(self, project: ProjectSettings) -> Option<usize>
        ensures { result ≡ spec.width_in self project }
    {
        if is_set(project.width.origin) {
            Some(usize::from(project.width.value))
        } else {
            self.width
        }
    }
}

/// All settings of a client.
#[derive(Clone, Drop)]
pub(crate) struct AllSettings {
    pub settings: Settings,
    /// The settings about schemas.
    pub options: Options,
}

impl AllSettings {
    /// Returns the settings of a client that has set none.
    pub(crate) fn usual(alloc: Global) -> AllSettings {
        AllSettings {
            settings: Settings::USUAL,
            options: Options::new(alloc, Place::Settings),
        }
    }
}

/// The settings of a client, and what is wrong with them.
#[derive(Drop)]
pub(crate) struct ReadSettings {
    pub all: AllSettings,
    /// A line about the settings that have a wrong value, or an empty text. These settings are not used, except for
    /// the copies that `AllSettings::set` keeps.
    pub faults: String,
}

/// Appends `fault`, which says what value a setting must have, to the line about invalid settings.
fn push_fault(faults: &mut String, fault: &str) -> Result<(), AllocError> {
    let front = if faults.is_empty() {
        "ignoring invalid settings: "
    } else {
        "; "
    };
    faults.push_str(front)?;
    faults.push_str(fault)
}

/// The names of the settings, each with what is wrong with another value.
const SETTINGS: [(&str, &str); 6] = [
    ("width", "`width` must be an integer from 0 to 65535"),
    ("toml", "`toml` must be \"1.0\", \"1.1\" or \"auto\""),
    ("formats", "`formats` must be true or false"),
    ("schema", "`schema` must be a path or a URL"),
    ("catalog", "`catalog` must be a path"),
    (
        "schemaMap",
        "`schemaMap` must be an object that maps URLs to paths",
    ),
];

/// Returns `address` unchanged if it is empty or a URL. Otherwise, it is a path, and the result is that of `rooted`.
pub(crate) fn rooted_address(
    alloc: Global,
    root: &str,
    address: &str,
) -> Result<String, AllocError> {
    if address.is_empty() || address.contains("://") {
        String::from_str(alloc, address)
    } else {
        rooted(alloc, root, address)
    }
}

/// Returns `options` with paths that are relative to `root`, a folder, as `rooted` returns them.
pub(crate) fn rooted_options(
    alloc: Global,
    root: &str,
    options: &Options,
) -> Result<Options, AllocError> {
    let mut made = Options::new(alloc, options.place);
    made.has_formats = options.has_formats;
    made.schema = rooted_address(alloc, root, options.schema.as_str())?;
    if !options.catalog.is_empty() {
        made.catalog = rooted(alloc, root, options.catalog.as_str())?;
    }
    for copy in options.copies.as_slice() {
        made.copies.push(LocalCopy {
            address: String::from_str(alloc, copy.address.as_str())?,
            path: rooted(alloc, root, copy.path.as_str())?,
        })?;
    }
    Ok(made)
}

impl AllSettings {
    /// Stores the setting `name` with this value. Returns whether the value is right. Uses the local copies of
    /// `schemaMap` before the first path that is not a string.
    fn set(&mut self, alloc: Global, name: &str, value: &Value<'_>) -> Result<bool, AllocError> {
        match (name, value) {
            ("width", _) => match value.as_u64() {
                Some(width) if width <= 65_535 => self.settings.width = Some(width as usize),
                _ => return Ok(false),
            },
            ("toml", Value::String("auto")) => self.settings.version = Version::Auto,
            ("toml", Value::String("1.0")) => self.settings.version = Version::Toml10,
            ("toml", Value::String("1.1")) => self.settings.version = Version::Toml11,
            ("formats", Value::Bool(has_formats)) => self.options.has_formats = *has_formats,
            ("schema", Value::String(schema)) => {
                self.options.schema = String::from_str(alloc, *schema)?;
                self.settings.has_schema = !schema.is_empty();
            }
            ("catalog", Value::String(catalog)) => {
                self.options.catalog = String::from_str(alloc, *catalog)?;
            }
            ("schemaMap", Value::Object(members)) => {
                for member in members.as_slice() {
                    let Some(path) = member.1.as_str() else {
                        return Ok(false);
                    };
                    self.options.copies.push(LocalCopy {
                        address: String::from_str(alloc, member.0)?,
                        path: String::from_str(alloc, path)?,
                    })?;
                }
            }
            _ => return Ok(false),
        }
        Ok(true)
    }
}

/// Reads the settings in `value`. A setting that is missing, null or wrong has its default value, but a wrong
/// `schemaMap` may be used in part (see `set`). Ignores unknown settings. Paths stay as they are written.
pub(crate) fn read_settings(alloc: Global, value: &Value<'_>) -> Result<ReadSettings, AllocError> {
    let mut read = ReadSettings {
        all: AllSettings::usual(alloc),
        faults: String::new(alloc),
    };
    match value {
        Value::Null => {}
        Value::Object(_) => {
            for (name, fault) in &SETTINGS {
                let is_right = match value.get(*name) {
                    None | Some(Value::Null) => true,
                    Some(found) => read.all.set(alloc, *name, found)?,
                };
                if !is_right {
                    push_fault(&mut read.faults, *fault)?;
                }
            }
        }
        _ => push_fault(&mut read.faults, "the settings must be an object")?,
    }
    Ok(read)
}
