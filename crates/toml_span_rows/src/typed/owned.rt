//! Types that own their text, and errors that outlive the text.
//!
//! - `load_file NAME`: reads a listener from this file in `data`, and drops the file's text. Prints the listener, or
//!   the text of the errors and the number of reports.
use crate::output::Out;
use std::alloc::Global;
use toml_span::de_helpers::parse_with;
use toml_span::{DeserError, Deserialize, Stop, Value, read_table};
use toml_span_load::{LoadError, TextFile};

/// A string that is not empty.
#[derive(Debug, Drop)]
pub struct Name(String);

/// Returns a name with this text. Fails with a message if the text is empty.
fn name_of(alloc: Global, text: &str) -> Result<Name, Stop<&'static str>> {
    if text.is_empty() {
        return Err(Stop::Fault("a name must not be empty"));
    }
    Ok(Name(String::from_str(alloc, text)?))
}

impl<'de> Deserialize<'de> for Name {
    fn deserialize(alloc: Global, value: &mut Value<'de>) -> Result<Name, Stop<DeserError<'de>>> {
        parse_with(alloc, value, |text| name_of(alloc, text))
    }
}

/// A listener with its host, port, load and weight.
#[derive(Debug, Drop)]
pub struct Listener {
    pub host: Name,
    pub port: u16,
    pub load: Option<f32>,
    pub weight: Option<f64>,
}

impl<'de> Deserialize<'de> for Listener {
    fn deserialize(
        alloc: Global,
        value: &mut Value<'de>,
    ) -> Result<Listener, Stop<DeserError<'de>>> {
        read_table!(alloc, value, Listener {
            host: Name;
            port: u16, or(80);
            load: Option<f32>;
            weight: Option<f64>;
        })
    }
}

/// Reads a listener from a file. Fails if the file can't be read, or if its content does not fit.
fn load(rt: &HostRuntime, name: &str) -> Result<Listener, LoadError> {
    let file = TextFile::open(rt, name)?;
    file.read::<Listener>(rt.alloc())
}

/// Prints the answer to `load_file`.
pub fn push_file(rt: &HostRuntime, name: &str, out: &mut Out) {
    match load(rt, name) {
        Ok(listener) => out.debug(listener),
        Err(LoadError::Reported(reported)) => {
            let count = reported.reports.len();
            out.display(reported);
            out.debug_line(count);
        }
        Err(other) => out.display(other),
    }
}
