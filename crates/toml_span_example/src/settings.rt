//! Reads the settings of a server, and reports what is wrong with them.
use std::alloc::{AllocError, Global};
use toml_span::{
    DeserError, Deserialize, DeserializeWithWarnings, Error, Spanned, Stop, Value, read_name,
    read_table, read_tagged,
};
use toml_span_load::{LoadError, Loaded, TextFile};

/// The settings of a server. Other keys are errors.
#[derive(Debug, Drop)]
struct Settings {
    max_body: u32,
    port: u16,
    level: Level,
    workers: Option<u8>,
    log: Log,
    mirrors: Vec<Mirror>,
}

/// How much to log.
#[derive(Debug, Drop)]
enum Level {
    Errors,
    Warnings,
    All,
}

/// Where to log.
#[derive(Debug, Drop)]
enum Log {
    Terminal,
    File { path: String, append: bool },
}

/// Another server with the same files. No two mirrors have the same name.
#[derive(Debug, Drop)]
struct Mirror {
    name: Spanned<String>,
    url: String,
}

impl<'de> DeserializeWithWarnings<'de> for Settings {
    fn deserialize_with_warnings(
        alloc: Global,
        value: &mut Value<'de>,
        warnings: &mut Vec<Error<'de>>,
    ) -> Result<Self, Stop<DeserError<'de>>> {
        read_table!(alloc, value, warnings, Settings {
            max_body: u32 = "max-body", deprecated("max_body"), or(65536);
            port: u16, range(1..=65535), or(80);
            level: Level, or(Level::Errors);
            workers: Option<u8>, range(1..=64);
            log: Log, or(Log::Terminal);
            mirrors: Vec<Mirror>, unique(name);
        })
    }
}

impl<'de> Deserialize<'de> for Level {
    fn deserialize(alloc: Global, value: &mut Value<'de>) -> Result<Self, Stop<DeserError<'de>>> {
        read_name!(alloc, value, {
            "errors" => Level::Errors,
            "warnings" => Level::Warnings,
            "all" => Level::All,
        })
    }
}

impl<'de> Deserialize<'de> for Log {
    fn deserialize(alloc: Global, value: &mut Value<'de>) -> Result<Self, Stop<DeserError<'de>>> {
        read_tagged!(alloc, value, "to", {
            "terminal" => Log::Terminal,
            "file" => Log::File { path: String; append: bool, or(false); },
        })
    }
}

impl<'de> Deserialize<'de> for Mirror {
    fn deserialize(alloc: Global, value: &mut Value<'de>) -> Result<Self, Stop<DeserError<'de>>> {
        read_table!(alloc, value, Mirror { name: Spanned<String>; url: String; })
    }
}

/// Returns the text to print for a file: the warnings and the settings or, if the settings can't be read, the errors.
/// Also returns whether they can be read.
pub fn shown(alloc: Global, file: &TextFile) -> Result<(String, bool), AllocError> {
    match file.read_with_warnings::<Settings>(alloc) {
        Ok(Loaded { value, warnings }) => {
            let mut shown = warnings.text;
            writeln!(shown, "{value:#?}")?;
            Ok((shown, true))
        }
        Err(LoadError::Memory(error)) => Err(error),
        Err(error) => Ok((error.to_string(alloc)?, false)),
    }
}
