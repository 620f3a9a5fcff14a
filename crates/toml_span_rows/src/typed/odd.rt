//! A type whose read does unusual things, and a type for which parsing a string always fails.
use std::alloc::Global;
use std::borrow::CowStr;
use std::str::FromStr;
use toml_span::de_helpers::TableHelper;
use toml_span::{DeserError, Deserialize, Error, ErrorKind, Span, Stop, Value};

/// Returns a `DeserError` with one error that has this message and span.
fn custom<'de>(message: &'de str, span: Span) -> DeserError<'de> {
    let kind = ErrorKind::Custom(CowStr::Borrowed(message));
    Error::from((kind, span)).into()
}

/// A type whose read succeeds only for a boolean, and does not take the boolean. For a table, the read takes all
/// entries, and fails with one error; if the entry `a` is a `u8`, the read first puts the other entries back. For any
/// other value, the read takes the content, and fails with two errors.
#[derive(Debug, Drop)]
pub struct Odd;

impl<'de> Deserialize<'de> for Odd {
    fn deserialize(alloc: Global, value: &mut Value<'de>) -> Result<Odd, Stop<DeserError<'de>>> {
        let span = value.span;
        if value.as_bool().is_some() {
            return Ok(Odd);
        }
        if value.as_table().is_some() {
            let mut helper = TableHelper::new(alloc, value)?;
            let _entry: u8 = helper.require("a")?;
            helper.finish_into(value)?;
            return Err(custom("half", span).into());
        }
        drop(value.take());
        let mut errors = custom("one", span);
        match errors.merge(alloc, custom("two", span)) {
            Ok(()) => Err(errors.into()),
            Err(unmerged) => Err(unmerged.error.into()),
        }
    }
}

/// A type for which parsing a string always fails.
#[derive(Debug, Drop)]
pub struct Never;

impl FromStr for Never {
    type Err = &'static str;

    fn from_str(_s: &str) -> Result<Never, &'static str> {
        Err("no")
    }
}
