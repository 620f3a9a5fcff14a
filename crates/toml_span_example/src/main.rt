//! Reads the settings of a server, or the manifest of a package, and prints what is wrong with them.
//!
//! The document is in the file that the first argument names, or on standard input. It counts as a manifest if it
//! begins with `[package]` or `[dependencies]`. Settings are printed if they can be read. For a manifest, the second
//! argument may be a format: `github` or `sarif`. The status is 1 if there is an error or, for a manifest, any finding.
//!
//! If the second argument is `port` or `at`, the program prints what the functions in `uses` find: the port, or the
//! span of the value that the third argument, a JSON pointer, names.
#![tactic(auto)]

mod lint;
mod settings;
mod uses;

use std::alloc::{AllocError, Global};
use std::process::ExitCode;
use std::{env, io};
use toml_span_load::{LoadError, TextFile};

/// Returns what to print for a file, and whether nothing is wrong with it. `words` are the arguments after its name.
fn shown(alloc: Global, file: &TextFile, words: &[String]) -> Result<(String, bool), AllocError> {
    let text = file.text.as_str();
    let format = words.first().map_or("", |word| word.as_str());
    if format == "port" || format == "at" {
        let pointer = words.get(1).map(|word| word.as_str());
        return Ok((uses::shown(alloc, text, pointer)?, true));
    }
    if !text.starts_with("[package]") && !text.starts_with("[dependencies]") {
        return settings::shown(alloc, file);
    }
    lint::shown(alloc, text, format)
}

/// Returns what to print for a file or, if it could not be read, the error. Also returns whether nothing is wrong.
/// `words` are as in `shown`.
fn opened(
    alloc: Global,
    file: Result<TextFile, LoadError>,
    words: &[String],
) -> Result<(String, bool), AllocError> {
    match file {
        Ok(file) => shown(alloc, &file, words),
        Err(LoadError::Memory(error)) => Err(error),
        Err(error) => Ok((error.to_string(alloc)?, false)),
    }
}

/// Prints the result for the file that the first argument names or, without arguments, for standard input. Ends with
/// status 1 if something is wrong.
fn main(rt: HostRuntime) -> io::Result<ExitCode> {
    let words: Vec<String> = env::args(&rt)?.skip(1).collect(rt.alloc())?;
    let file = match words.as_slice() {
        [name, ..] => TextFile::open(&rt, name.as_str()),
        [] => Ok(TextFile {
            name: String::from_str(rt.alloc(), "settings.toml")?,
            text: io::read_to_string(rt.alloc(), rt.stdin())?,
        }),
    };
    let (shown, is_right) = opened(rt.alloc(), file, words.get(1..).unwrap_or(&[]))?;
    print!(rt; "{shown}")?;
    Ok(ExitCode::from(u8::from(!is_right)))
}
