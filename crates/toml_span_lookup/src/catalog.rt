//! Catalogs of schemas in SchemaStore's format.
ghost use Rattle.std.specs.Prelude.{◌≡◌, IfOk, option_map, string_bytes};
ghost use Rattle.toml_span_lookup.specs.Catalog as spec;

use crate::addresses::without;
use json::{Reader, Scratch, Value as Json};
use std::alloc::{AllocError, Global};
use std::slice;
use toml_span_check::patterns::{Pattern, last_match, pattern_of};
use toml_span_report::line_column;

/// The maximum number of brackets in a pattern of `fileMatch` that are expanded, and about the maximum number of
/// patterns for which it may stand.
const MOST_BRACKETS: usize = 4;

const MOST_PATTERNS: usize = 1_000;

/// The maximum number of levels to which arrays and objects nest in a JSON text.
const MOST_LEVELS: usize = 128;

/// A schema of a catalog.
#[derive(Drop)]
struct Listed {
    /// The patterns of the files to which the schema applies. The last pattern that matches a path decides whether the
    /// schema applies to the file.
    patterns: Vec<Pattern>,
    /// The path or the URL of the schema.
    address: String,
}

/// A catalog of schemas.
#[derive(Drop)]
pub(crate) struct Catalog {
    schemas: Vec<Listed>,
}

/// Returns the alternatives of `{a,b}` or, if `is_class`, the characters of `[ab]` and `[a-z]`, from the text between
/// the brackets.
fn words_of(alloc: Global, inside: &str, is_class: bool) -> Result<Vec<String>, AllocError> {
    let mut words = Vec::new(alloc);
    if !is_class {
        for word in inside.split(',') {
            words.push(String::from_str(alloc, word)?)?;
        }
        return Ok(words);
    }
    let mut first = '\0';
    let mut is_range = false;
    for c in inside.chars() {
        if c == '-' && !is_range && first != '\0' {
            is_range = true;
            continue;
        }
        for code in 0..128u8 {
            let other = char::from(code);
            if other == c || is_range && first < other && other < c {
                words.push(format!(in alloc; "{other}")?)?;
            }
        }
        first = c;
        is_range = false;
    }
    Ok(words)
}

/// Returns patterns in which the first brackets of each of `texts` are replaced by each of their alternatives. Returns
/// at most about `MOST_PATTERNS`.
fn expanded(
    alloc: Global,
    texts: &[String],
    open: &str,
    close: &str,
) -> Result<Vec<String>, AllocError> {
    let mut out = Vec::new(alloc);
    for text in texts {
        let text = text.as_str();
        let Some((before, rest)) = text.split_once(open) else {
            out.push(String::from_str(alloc, text)?)?;
            continue;
        };
        let (inside, after) = rest.split_once(close).unwrap_or((rest, ""));
        for word in words_of(alloc, inside, open == "[")?.as_slice() {
            let word = word.as_str();
            if out.len() < MOST_PATTERNS {
                out.push(format!(in alloc; "{before}{word}{after}")?)?;
            }
        }
    }
    Ok(out)
}

/// Parses a pattern of `fileMatch`, and appends the patterns for which it stands to `patterns`. They match in all
/// folders. Leaves out patterns that `pattern_of` does not support.
fn push_globs(alloc: Global, text: &str, patterns: &mut Vec<Pattern>) -> Result<(), AllocError> {
    let (mark, rest) = match text.strip_prefix('!') {
        Some(rest) => ("!", rest),
        None => ("", text),
    };
    let rest = rest.strip_prefix("./").unwrap_or(rest);
    let rest = rest.strip_prefix('/').unwrap_or(rest);
    let mut texts = vec![in alloc; format!(in alloc; "{mark}**/{rest}")?]?;
    for _ in 0..MOST_BRACKETS {
        texts = expanded(alloc, texts.as_slice(), "{", "}")?;
        texts = expanded(alloc, texts.as_slice(), "[", "]")?;
    }
    for text in texts.as_slice() {
        if let Some(pattern) = pattern_of(alloc, text.as_str())? {
            patterns.push(pattern)?;
        }
    }
    Ok(())
}

/// Parses an entry of a catalog, and leaves out patterns that are not strings or not supported. Returns `None` if `url`
/// is not a string or `fileMatch` is missing.
fn entry_of(alloc: Global, entry: &Json<'_>) -> Result<Option<Listed>, AllocError> {
    let members = (entry.get("url"), entry.get("fileMatch"));
    let (Some(Json::String(address)), Some(globs)) = members else {
        return Ok(None);
    };
    let globs = match globs {
        Json::Array(globs) => globs.as_slice(),
        _ => slice::from_ref(globs),
    };
    let mut patterns = Vec::new(alloc);
    for glob in globs {
        if let Some(text) = glob.as_str() {
            push_globs(alloc, text, &mut patterns)?;
        }
    }
    Ok(Some(Listed {
        patterns,
        address: String::from_str(alloc, *address)?,
    }))
}

/// Parses a catalog, and leaves out the entries that `entry_of` can't parse. Returns `None` if the text is not valid
/// JSON, is nested too deeply, or has no array `schemas`.
pub(crate) fn catalog_of(alloc: Global, text: &str) -> Result<Option<Catalog>, AllocError> {
    let mut scratch = Scratch::new(alloc);
    let value = match Json::parse(alloc, text, &mut scratch) {
        Ok(value) => value,
        Err(json::Error::OutOfMemory) => return Err(AllocError),
        Err(_) => return Ok(None),
    };
    let Some(Json::Array(entries)) = value.get("schemas") else {
        return Ok(None);
    };
    let mut schemas = Vec::new(alloc);
    for entry in entries.as_slice() {
        if let Some(schema) = entry_of(alloc, entry)? {
            schemas.push(schema)?;
        }
    }
    Ok(Some(Catalog { schemas }))
}

impl Listed {
    /// Returns whether the schema applies to the file at `path`.
    fn applies(&self, alloc: Global, path: &str) -> Result<bool, AllocError>
        ensures { IfOk result (λ is. is ≡ spec.applies self.now path.now) }
    {
        let found = last_match(alloc, self.patterns.as_slice(), path, false)?;
        Ok(matches!(found, Some(true)))
    }
}

impl Catalog {
    /// Returns the path or the URL of the first schema that applies to the file at `path`, or `None` if no schema
    /// applies.
    pub(crate) fn address_for(
        &self,
        alloc: Global,
        path: &str,
    ) -> Result<Option<String>, AllocError>
        ensures { IfOk result (λ found. option_map string_bytes found ≡ spec.address_for self.now path.now) }
    {
        let file = without("./", path);
        for schema in self.schemas.as_slice() {
            if schema.applies(alloc, file)? {
                return Ok(Some(String::from_str(alloc, schema.address.as_str())?));
            }
        }
        Ok(None)
    }
}

/// Reads a JSON text in which arrays and objects may nest `depth` levels deep. Returns the byte offset of the first
/// error, or `None` if there is none.
fn error_at(alloc: Global, text: &str, depth: usize) -> Result<Option<usize>, AllocError> {
    let mut scratch = Scratch::new(alloc);
    let mut reader = Reader::new(text, &mut scratch)?;
    let is_value = reader.skip_value(depth).is_ok();
    if is_value && reader.next().is_none() {
        return Ok(None);
    }
    Ok(Some(reader.offset()))
}

/// Returns the message that says why a JSON text can't be read, with the line and the column of the first error, or
/// `otherwise` if the text has no error. Both are counted from 1, the column in characters. Nesting more than 128
/// levels deep is an error.
pub(crate) fn json_reason(
    alloc: Global,
    text: &str,
    otherwise: &str,
) -> Result<String, AllocError> {
    let Some(at) = error_at(alloc, text, MOST_LEVELS)? else {
        return String::from_str(alloc, otherwise);
    };
    let is_deep = error_at(alloc, text, MOST_LEVELS + 1)? != Some(at);
    let what = if is_deep {
        "it is nested more than 128 levels deep"
    } else {
        "it is not valid JSON"
    };
    let (line, column) = line_column(text, at);
    format!(in alloc; "{what} (line {line}, column {column})")
}
