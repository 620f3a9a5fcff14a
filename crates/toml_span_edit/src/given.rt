//! Checks TOML values that callers pass, and writes names and strings as TOML.
ghost use Rattle.std.specs.Prelude.{◌≡◌, ◌++◌, IfOk, codes, string_bytes};

use crate::reason::{Edited, Reason};
use std::alloc::{AllocError, Global};
use toml_span::Stop;
pub(crate) use toml_span_places::quote_key as key_text;
pub use toml_span_places::quote_string as string_text;
use toml_span_read::{Section, read_sections};

/// The text that `probe_text` writes before a value to make a document.
const FRONT: &str = "v = ";

/// Returns `v = ` followed by `value`: a document with a single entry, if `value` is a TOML value.
pub(crate) fn probe_text(alloc: Global, value: &str) -> Result<String, AllocError>
    ensures { IfOk result (λ text. string_bytes text ≡ codes "v = " ++ value.now) }
{
    let mut text = String::from_str(alloc, FRONT)?;
    text.push_str(value)?;
    Ok(text)
}

/// Returns the sections of `probe`, the text that `probe_text` returned for `value`. Fails with `NoValue` unless
/// `value` is one TOML value with nothing after it.
pub(crate) fn probed<'p>(alloc: Global, probe: &'p str, value: &str) -> Edited<Vec<Section<'p>>> {
    let sections = match read_sections(alloc, probe, 128) {
        Ok(sections) => sections,
        Err(stop) => {
            drop(stop.fault()?);
            return Err(Stop::Fault(no_value(alloc, value)?));
        }
    };
    let is_one_value = match sections.as_slice() {
        [section] => match section.assignments.as_slice() {
            [only] => only.extent.end == probe.len() && section.header.as_slice().is_empty(),
            _ => false,
        },
        _ => false,
    };
    if is_one_value {
        Ok(sections)
    } else {
        Err(Stop::Fault(no_value(alloc, value)?))
    }
}

/// Checks that `value` is one TOML value with nothing after it, and only spaces and tabs before it. Fails with
/// `NoValue` if not.
pub(crate) fn check_value(alloc: Global, value: &str) -> Edited<()> {
    let probe = probe_text(alloc, value)?;
    drop(probed(alloc, probe.as_str(), value)?);
    Ok(())
}

/// Returns `NoValue`, the reason to refuse `value`, which is not a TOML value. If `value` is a word that was probably
/// meant as a string, the reason suggests it as a string, quoted for a shell. White space, control characters, quotes,
/// brackets, braces, backslashes, backticks, `#`, `,` and `=` are not part of a word.
pub(crate) fn no_value(alloc: Global, value: &str) -> Result<Reason, AllocError> {
    let mut is_word = !value.is_empty();
    for c in value.chars() {
        is_word &= !c.is_whitespace() && !c.is_control() && !"\"'[]{}#,=\\`".contains(c);
    }
    if !is_word {
        return Ok(Reason::NoValue(None));
    }
    let string = string_text(alloc, value)?;
    Ok(Reason::NoValue(Some(format!(in alloc; "'{string}'?")?)))
}
