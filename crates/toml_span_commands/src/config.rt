//! The command `config`.
use crate::answers::{Answer, helped, misused, printed, stopped};
use crate::commands::Command;
use crate::options::search_of;
use crate::say::unexpected;
use crate::words::{Argument, arguments_in, has_help};
use std::alloc::{AllocError, Global};
use toml_span::Stop;
use toml_span_check::input::Host;
use toml_span_check::newer::Version;
use toml_span_check::words::shown_word;
use toml_span_config::layers::{Chosen, Crlf, ExpandArrays, Layer, Origin};
use toml_span_config::sources::{Found, Sources};
use toml_span_edit::string_text;
use toml_span_report::visible::visible;
use toml_span_report::{Style, line_column};

/// The options.
const OPTIONS: [&str; 3] = ["--help", "--config", "--no-config"];

/// The parsed arguments.
#[derive(Clone, Copy)]
struct Asked<'w> {
    /// The path of the configuration file, or an empty text.
    config: &'w str,
    /// Whether to use no configuration file.
    has_no_config: bool,
    file: Option<&'w str>,
}

/// Parses all arguments. Fails with a message if an argument is wrong, or if the value of `--config` is missing.
fn asked_of<'w>(alloc: Global, arguments: &'w [String]) -> Result<Asked<'w>, Stop<String>> {
    let mut asked = Asked {
        config: "",
        has_no_config: false,
        file: None,
    };
    let given = arguments_in(alloc, arguments, &["--config"])?;
    for argument in &given.list {
        match *argument {
            Argument::Valued(_, word) => asked.config = word,
            Argument::Flag("--no-config") => asked.has_no_config = true,
            Argument::Other(word) if asked.file.is_none() => asked.file = Some(word),
            Argument::Flag(word) | Argument::Other(word) => {
                return Err(Stop::Fault(unexpected(alloc, word, false, &OPTIONS)?));
            }
        }
    }
    given.complete(alloc)?;
    Ok(asked)
}

/// The output so far, and where the settings come from.
#[derive(Drop)]
struct Table<'s> {
    alloc: Global,
    sources: &'s Sources,
    found: Found,
    out: String,
}

impl Table<'_> {
    /// Adds a line with a setting, and a comment on where it comes from.
    fn add(&mut self, name: &str, value: &str, origin: Origin) -> Result<(), AllocError> {
        self.out.push_str(name)?;
        self.out.push_str(" = ")?;
        self.out.push_str(value)?;
        self.out.push_str(" # ")?;
        match (origin, self.sources.source_at(self.found.source)) {
            (Origin::File(span), Some(source)) => {
                let (line, column) = line_column(source.text.as_str(), span.start);
                let name = shown_word(self.alloc, source.name.as_str())?;
                let name = visible(self.alloc, name.as_str())?;
                let place = format!(in self.alloc; "{}:{line}:{column}", name.as_str())?;
                self.out.push_str(place.as_str())?;
            }
            _ => self.out.push_str("default")?,
        }
        self.out.push('\n')
    }

    /// Adds a line with a number.
    fn add_number(&mut self, name: &str, number: u16, origin: Origin) -> Result<(), AllocError> {
        let value = format!(in self.alloc; "{number}")?;
        self.add(name, value.as_str(), origin)
    }

    /// Adds a line with a boolean.
    fn add_flag(&mut self, name: &str, flag: Chosen<bool>) -> Result<(), AllocError> {
        let value = if flag.value { "true" } else { "false" };
        self.add(name, value, flag.origin)
    }

    /// Adds a line for each setting.
    fn add_settings(&mut self) -> Result<(), AllocError> {
        let settings = self.found.settings;
        let toml = match settings.toml.value {
            Version::Auto => "\"auto\"",
            Version::Toml10 => "\"1.0\"",
            Version::Toml11 => "\"1.1\"",
        };
        self.add("check.toml", toml, settings.toml.origin)?;
        self.add_flag("check.deny-warnings", settings.deny_warnings)?;
        self.add_number("fmt.width", settings.width.value, settings.width.origin)?;
        let indent = u16::from(settings.indent.value);
        self.add_number("fmt.indent", indent, settings.indent.origin)?;
        self.add_flag("fmt.sort-keys", settings.sort_keys)?;
        self.add_flag("fmt.trailing-comma", settings.trailing_comma)?;
        let expansion = match settings.expand_arrays.value {
            ExpandArrays::Auto => "\"auto\"",
            ExpandArrays::Keep => "\"keep\"",
        };
        let origin = settings.expand_arrays.origin;
        self.add("fmt.expand-arrays", expansion, origin)?;
        self.add_flag("fmt.align-comments", settings.align_comments)?;
        let blank_lines = u16::from(settings.blank_lines.value);
        self.add_number("fmt.blank-lines", blank_lines, settings.blank_lines.origin)?;
        let crlf = match settings.crlf.value {
            Crlf::Auto => "\"auto\"",
            Crlf::Always => "\"always\"",
            Crlf::Never => "\"never\"",
        };
        self.add("fmt.crlf", crlf, settings.crlf.origin)
    }

    /// Adds a line with the schema, if the configuration names one. A path is relative to the current directory.
    fn add_schema(&mut self) -> Result<(), AllocError> {
        let path = self.sources.schema_of(self.alloc, &self.found)?;
        match (path, self.found.settings.schema) {
            (Some(path), Some(schema)) => {
                let value = string_text(self.alloc, path.as_str())?;
                self.add("schema", value.as_str(), schema.origin)
            }
            _ => Ok(()),
        }
    }

    /// Adds a comment that names the configuration file, and one that says if it excludes the file.
    fn add_head(&mut self) -> Result<(), AllocError> {
        match self.sources.source_at(self.found.source) {
            Some(source) => {
                let name = shown_word(self.alloc, source.name.as_str())?;
                let name = visible(self.alloc, name.as_str())?;
                let line = format!(in self.alloc; "# settings of {}\n", name.as_str())?;
                self.out.push_str(line.as_str())?;
            }
            None => self.out.push_str("# no configuration file\n")?,
        }
        if self.found.is_excluded {
            self.out.push_str("# this file is excluded\n")?;
        }
        Ok(())
    }
}

/// Returns the settings for the file that the arguments name as TOML, with comments on where they come from. Fails with
/// a message, for standard error, if the configuration file can't be read or is wrong.
fn shown(alloc: Global, asked: Asked<'_>, host: &mut Host) -> Result<String, Stop<String>> {
    let search = search_of(asked.config, asked.has_no_config);
    let mut sources = Sources::new(alloc, host, search, Layer::empty(), Style::Plain)?;
    let found = match asked.file {
        Some(file) => sources.settings_for(alloc, host, file)?,
        None => sources.general_settings(alloc, host)?,
    };
    let mut table = Table {
        alloc,
        sources: &sources,
        found,
        out: String::new(alloc),
    };
    table.add_head()?;
    table.add_schema()?;
    table.add_settings()?;
    Ok(table.out)
}

/// Carries out `config`: returns the answer with the settings for a file, the help, or that the arguments or a
/// configuration file are wrong.
pub(crate) fn config(
    alloc: Global,
    arguments: &[String],
    host: &mut Host,
) -> Result<Answer, AllocError> {
    if has_help(arguments) {
        return helped(alloc, Command::Config);
    }
    let asked = match asked_of(alloc, arguments) {
        Ok(asked) => asked,
        Err(stop) => return misused(alloc, Command::Config, stop),
    };
    match shown(alloc, asked, host) {
        Ok(text) => Ok(printed(alloc, text)),
        Err(stop) => stopped(alloc, stop),
    }
}
