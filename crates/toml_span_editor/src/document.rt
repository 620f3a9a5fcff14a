//! Reads a text, or as much of it as can be read.
ghost use Rattle.std.specs.Prelude.{◌≡◌, ◌∷◌, ◌++◌, [], IfNone, IfOk, IfSome, OnOk, map, string_bytes};
ghost use Rattle.std.specs.List.{All};
ghost use Rattle.toml_span_editor.specs.Documents as spec;

use crate::spans::{begins_section, span_of, text_in};
use std::alloc::{AllocError, Global};
use toml_span::de::parse;
use toml_span::{Stop, Value};
use toml_span_lex::span::Span;
use toml_span_read::{Section, read_sections};
use toml_span_syntax::pieces::{Piece, pieces};
use toml_span_syntax::statements::{Statement, statements};

/// The maximum number of bytes to parse, all in all, to find statements that clash.
const WORK: usize = 8_388_608;

/// A valid TOML text with its tree and its sections.
#[derive(Drop)]
pub struct Document<'t> {
    pub text: &'t str,
    pub root: Value<'t>,
    pub sections: Vec<Section<'t>>,
}

/// A statement of a text.
#[derive(Clone, Copy)]
pub(crate) struct Part {
    pub(crate) span: Span,
    /// Whether it begins with `[`, as a header does.
    pub(crate) is_header: bool,
    /// Whether it can be read, and does not clash with others.
    pub(crate) is_kept: bool,
}

/// What can be read of a text.
#[derive(Drop)]
pub(crate) struct Excerpt {
    /// The statements of the text.
    pub(crate) parts: Vec<Part>,
    /// The text, with spaces in place of the statements that are not kept.
    pub(crate) text: String,
}

/// Parses a text. Returns the start of the error's span, or `None` if the text is valid TOML.
fn error_place(alloc: Global, text: &str) -> Result<Option<usize>, AllocError>
    ensures { IfOk result (spec.HasErrorAt text.now) }
{
    match parse(alloc, text) {
        Ok(_) => Ok(None),
        Err(stop) => {
            let error = stop.fault()?;
            Ok(Some(error.span.start))
        }
    }
}

/// Returns a statement of a text as a part, which is kept if it can be read by itself. `pieces` are those of the text.
fn part_of(
    alloc: Global,
    text: &str,
    pieces: &[Piece],
    statement: Statement,
) -> Result<Part, AllocError>
    requires { spec.AreCut text.now pieces.now }
    ensures { IfOk result (spec.IsPart text.now pieces.now statement) }
{
    let span = span_of(text, pieces, statement);
    let place = error_place(alloc, text_in(text, span))?;
    Ok(Part {
        span,
        is_header: begins_section(pieces, statement),
        is_kept: place.is_none(),
    })
}

/// Returns the statements of a text. Each that can be read by itself is kept. Takes time linear in the length of the
/// text.
fn parts(alloc: Global, text: &str) -> Result<Vec<Part>, AllocError>
    ensures parts { IfOk result (λ parts. spec.AreParts text.now parts.items) }
    ensures cuts { IfOk result (λ parts. All (spec.IsCut text.now) parts.items) }
{
    let pieces = pieces(alloc, text)?;
    let mut parts = Vec::new(alloc);
    let statements = statements(alloc, pieces.as_slice())?;
    for statement in &statements {
        let part = part_of(alloc, text, pieces.as_slice(), *statement)?;
        parts.push(part)?;
    }
    Ok(parts)
}

/// Returns what replaces a byte that is left out: a line feed for a line feed, otherwise a space.
fn blank(byte: u8) -> &'static str
    ensures { result.now ≡ spec.blank byte ∷ [] }
{
    if byte == b'\n' { "\n" } else { " " }
}

/// Appends what replaces the bytes of a text that is left out.
fn push_blanks(out: &mut String, left_out: &str) -> Result<(), AllocError>
    ensures { OnOk result (string_bytes out.new ≡ string_bytes out.old ++ map spec.blank left_out.now) }
{
    for byte in left_out.as_bytes() {
        out.push_str(blank(*byte))?;
    }
    Ok(())
}

/// Returns the text without the parts that are not kept. Offsets stay the same.
fn joined(alloc: Global, text: &str, parts: &[Part]) -> Result<String, AllocError>
    requires { All (spec.IsCut text.now) parts.now }
    ensures { IfOk result (λ out. string_bytes out ≡ spec.joined text.now parts.now) }
{
    let mut out = String::new(alloc);
    for part in parts {
        let own = text_in(text, part.span);
        if part.is_kept {
            out.push_str(own)?;
        } else {
            push_blanks(&mut out, own)?;
        }
    }
    Ok(out)
}

/// Returns the part as not kept if it contains the offset `at` or, if `is_rest` is set, ends after it.
fn left_out(part: Part, at: usize, is_rest: bool) -> Part
    ensures { result ≡ spec.left_out at is_rest part }
{
    let is_met = at < part.span.end && (is_rest || part.span.start <= at);
    Part {
        is_kept: part.is_kept && !is_met,
        ..part
    }
}

/// Marks the part that contains the offset `at`, and all after it if `is_rest` is set, as not kept.
fn leave_out(parts: &mut Vec<Part>, at: usize, is_rest: bool)
    ensures { parts.new.items ≡ map (spec.left_out at is_rest) parts.old.items }
{
    for index in 0..parts.len() {
        parts[index] = left_out(parts[index], at, is_rest);
    }
}

/// Returns how often statements of a text of `len` bytes may be left out because of a clash.
fn most(len: usize) -> usize
    ensures { result ≡ spec.most len }
{
    WORK / len.max(1)
}

/// Returns the text without the statements that can't be read by themselves, and without those that clash with earlier
/// ones, so that the rest is valid TOML, together with the statements. After many clashes in a long text (see `WORK`),
/// all that follows is left out. Fails if an allocation fails.
pub(crate) fn read_parts(alloc: Global, text: &str) -> Result<Excerpt, AllocError>
    ensures { IfOk result (λ made. spec.IsReadable text.now made.parts.items (string_bytes made.text)) }
{
    let mut parts = parts(alloc, text)?;
    let mut kept = joined(alloc, text, parts.as_slice())?;
    let most = most(text.len());
    for round in 0..most {
        let Some(at) = error_place(alloc, kept.as_str())? else {
            return Ok(Excerpt { parts, text: kept });
        };
        leave_out(&mut parts, at, round + 1 == most);
        kept = joined(alloc, text, parts.as_slice())?;
    }
    Ok(Excerpt { parts, text: kept })
}

/// Returns the text without the statements that can't be read by themselves, and without those that clash with earlier
/// ones, so that the rest is valid TOML. Spaces replace them, so that offsets stay the same. After many clashes in a
/// long text, all that follows is left out. Fails if an allocation fails.
pub fn readable(alloc: Global, text: &str) -> Result<String, AllocError>
    ensures { IfOk result (λ kept. spec.IsReadableText text.now (string_bytes kept)) }
{
    Ok(read_parts(alloc, text)?.text)
}

/// Reads a text. Returns `None` if the text is not valid TOML. Fails if an allocation fails.
pub fn read<'t>(alloc: Global, text: &'t str) -> Result<Option<Document<'t>>, AllocError>
    ensures text { IfOk result (λ found. IfSome found (λ document. document.text ≡ text.entry)) }
    ensures document { IfOk result (λ found. IfSome found (spec.IsRead text.now)) }
    ensures none { IfOk result (λ found. IfNone found (spec.IsNoDocument text.now)) }
{
    let root = match parse(alloc, text) {
        Ok(root) => root,
        Err(Stop::Memory(error)) => return Err(error),
        Err(Stop::Fault(_error)) => return Ok(None),
    };
    let sections = match read_sections(alloc, text, 128) {
        Ok(sections) => sections,
        Err(Stop::Memory(error)) => return Err(error),
        Err(Stop::Fault(_error)) => return Ok(None),
    };
    Ok(Some(Document {
        text,
        root,
        sections,
    }))
}
