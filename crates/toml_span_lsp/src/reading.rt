//! Documents that are read once for all requests about the same text.
ghost use Rattle.std.specs.Prelude.{◌≡◌, IfOk, length, nat_lt, string_bytes};

use crate::state::{Open, State};
use std::alloc::{AllocError, Global};
use toml_span_editor::document::{Document, read, readable};
use toml_span_editor::positions::Encoding;
use toml_span_editor::syntax::Syntax;
use toml_span_editor::table::PositionTable;
use toml_span_lines::run::BOUND;

/// The length of a text in bytes up to which it has an outline and semantic tokens, and its statements are kept. A
/// longer one has the tokens of ranges.
pub(crate) const LARGE: usize = 4_194_304;

/// A text of an open document.
#[derive(Drop)]
pub(crate) struct TextName {
    /// The URI of the document.
    pub uri: String,
    /// The number of the text.
    pub revision: u64,
}

impl TextName {
    pub(crate) fn new(alloc: Global, uri: &str, revision: u64) -> Result<TextName, AllocError> {
        Ok(TextName {
            uri: String::from_str(alloc, uri)?,
            revision,
        })
    }
}

/// The text of a document, as far as it can be read.
#[derive(Drop)]
pub(crate) struct Reading<'t> {
    pub name: TextName,
    /// The text, with its positions.
    pub table: PositionTable<'t>,
    /// The pieces and statements of the text, unless it is longer than `LARGE`.
    pub syntax: Option<Syntax<'t>>,
    /// The whole document, or `None` if the text has errors.
    pub document: Option<Document<'t>>,
    /// If the text has errors, what can be read of it, as `readable` returns it.
    pub partial: Option<Document<'t>>,
}

/// The messages that came after the one that is answered, and the document that has been read.
#[derive(Clone, Copy)]
pub(crate) struct Around<'w, 'r, 't> {
    /// The bytes that have been read after the message.
    pub waiting: &'w [u8],
    pub reading: Option<&'r Reading<'t>>,
}

/// Returns a copy of a text. Returns `None` if its document is not open or has another text now.
pub(crate) fn text_of(state: &State, name: &TextName) -> Result<Option<String>, AllocError> {
    match state.documents.get(name.uri.as_str()) {
        Some(open) if open.revision == name.revision => Ok(Some(open.text.clone()?)),
        _ => Ok(None),
    }
}

/// Returns what can be read of a text with errors. For a text without errors, which has a `document`, returns an empty
/// text.
pub(crate) fn kept_of(
    alloc: Global,
    document: Option<&Document<'_>>,
    text: &str,
) -> Result<String, AllocError> {
    match document {
        Some(_) => Ok(String::new(alloc)),
        None => readable(alloc, text),
    }
}

/// Returns a reading of `text`, which has this name. `document` is the result of `read` for `text`, and `kept` that of
/// `kept_of`.
pub(crate) fn reading_of<'t>(
    alloc: Global,
    encoding: Encoding,
    name: TextName,
    text: &'t str,
    document: Option<Document<'t>>,
    kept: &'t str,
) -> Result<Reading<'t>, AllocError>
    ensures text { IfOk result (λ reading. reading.table.text ≡ text.entry) }
    ensures encoding { IfOk result (λ reading. reading.table.encoding ≡ encoding) }
    ensures document { IfOk result (λ reading. reading.document ≡ document.entry) }
    ensures name { IfOk result (λ reading. reading.name ≡ name) }
{
    let partial = match &document {
        Some(_) => None,
        None => read(alloc, kept)?,
    };
    let syntax = if text.len() > LARGE {
        None
    } else {
        Some(Syntax::new(alloc, text)?)
    };
    Ok(Reading {
        name,
        table: PositionTable::new(alloc, encoding, text)?,
        syntax,
        document,
        partial,
    })
}

/// Returns whether the text of a document is longer than 16 MiB. Such a text is kept, but not read.
pub(crate) fn is_too_long(document: &Open) -> bool
    ensures { result ≡ nat_lt 16777216 (length (string_bytes document.now.text)) }
{
    document.text.len() > BOUND
}
