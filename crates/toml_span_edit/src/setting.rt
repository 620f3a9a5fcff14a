//! Replaces values that are written as literals, and renames keys.
ghost use Rattle.std.specs.Prelude.{◌≡◌, IfOk, Ok, Some, map, string_bytes};
ghost use Rattle.toml_span_read.specs.Data.{depth_limit, parsed_section};
ghost use Rattle.toml_span_read.specs.Read.{document as read};
ghost use Rattle.toml_span_tree.specs.Value.{view};
ghost use Rattle.toml_span_places.specs.Keys.{document_keys, key_mention};
ghost use Rattle.toml_span_places.specs.Replace as places;
ghost use Rattle.toml_span_edit.specs.Kept as spec;

use crate::document::{Document, Old, sections_of, written};
use crate::given::{check_value, key_text};
use crate::made::value_at;
use crate::mentions::PathMention;
use crate::paths::names_steps;
use crate::reason::{Edited, Reason};
use std::alloc::{AllocError, Global};
use toml_span::{Span, Stop};
use toml_span_places::{KeyPlace, key_places, literal_span, replaced};

/// How the value at a path is written.
#[derive(Clone, Copy)]
pub(crate) enum Written {
    /// As a literal, such as `1` or `[1, 2]`.
    Literal,
    /// By headers or dotted keys.
    Otherwise,
    /// Not at all: nothing in the text names it.
    Nowhere,
}

/// Returns how the value at `path` is written in `old`, if `value` is a TOML value. Scalars are always written as
/// literals. Fails with `NoValue` if `value` is not a TOML value, and with `WouldDiffer` if the text can't be split
/// into sections.
pub(crate) fn how_written(old: Old<'_, '_>, path: &[&str], value: &str) -> Edited<Written> {
    let Old { alloc, text, tree } = old;
    check_value(alloc, value)?;
    let Some(there) = value_at(path, tree) else {
        return Ok(Written::Nowhere);
    };
    if there.as_table().is_none() && there.as_array().is_none() {
        return Ok(Written::Literal);
    }
    let sections = sections_of(alloc, text)?;
    let document = Document {
        alloc,
        text,
        sections: sections.as_slice(),
    };
    Ok(match written(document.mentions(path)?.as_slice()) {
        Some(_) => Written::Literal,
        None => Written::Otherwise,
    })
}

/// Returns `text` with `new` in place of each of `spans`. Fails with `WouldDiffer` if a span is not valid in `text`, or
/// if the spans overlap or are not in the order of the text.
fn with_spans(alloc: Global, text: &str, spans: &[Span], new: &str) -> Edited<String>
    ensures { IfOk result (λ out. places.replaced text.now (map (λ span. (span, new.now)) spans.now)
        ≡ Some (string_bytes out)) }
{
    match replaced(alloc, text, spans, new)? {
        Some(out) => Ok(out),
        None => Err(Stop::Fault(Reason::WouldDiffer)),
    }
}

/// Returns `old` with `value` in place of the literal at `path`. Fails with `Nothing` if `path` names nothing, and with
/// `WouldDiffer` if the literal's span is not valid in the text.
pub(crate) fn write_over(old: Old<'_, '_>, path: &[&str], value: &str) -> Edited<String>
    ensures { IfOk result (λ new. spec.IsWrittenOver value.now (map (λ s. s.now) path.now) (view old.entry.tree.now)
        old.entry.text.now (string_bytes new)) }
{
    let Old { alloc, text, tree } = old;
    match value_at(path, tree) {
        Some(there) => with_spans(alloc, text, &[literal_span(text, there)], value),
        None => Err(Stop::Fault(Reason::Nothing)),
    }
}

/// Returns `old` with the TOML value `value` written over the value at `path`. Fails with
/// `NoValue` if `value` is not a TOML value, with `Root` for the root, with `Nothing` if `path` names nothing, and with
/// `NotLiteral` if headers or dotted keys define the value at `path`.
pub(crate) fn set_text(old: Old<'_, '_>, path: &[&str], value: &str) -> Edited<String>
    ensures { IfOk result (λ new. spec.IsWrittenOver value.now (map (λ s. s.now) path.now) (view old.entry.tree.now)
        old.entry.text.now (string_bytes new)) }
{
    match how_written(old, path, value)? {
        Written::Literal => write_over(old, path, value),
        _ if path.is_empty() => Err(Stop::Fault(Reason::Root)),
        Written::Nowhere => Err(Stop::Fault(Reason::Nothing)),
        Written::Otherwise => Err(Stop::Fault(Reason::NotLiteral)),
    }
}

// ---- keys

/// Returns the spans of the keys in `places` that name the value at `path`, quotes included.
fn keys_at(alloc: Global, path: &[&str], places: &[KeyPlace<'_>]) -> Result<Vec<Span>, AllocError>
    ensures { IfOk result (λ spans. spans.items
        ≡ spec.keys_at (map (λ s. s.now) path.now) (map key_mention places.now)) }
{
    let mut spans = Vec::new(alloc);
    for place in places {
        if names_steps(path, place.path.as_slice()) {
            spans.push(place.whole)?;
        }
    }
    Ok(spans)
}

/// Returns the spans of all keys in `document` that name the value at `path`, quotes included.
fn key_spans(document: Document<'_, '_>, path: &[&str]) -> Result<Vec<Span>, AllocError>
    ensures { IfOk result (λ spans. spans.items ≡ spec.keys_at (map (λ s. s.now) path.now)
        (document_keys document.entry.text.now (map parsed_section document.entry.sections.now))) }
{
    let places = key_places(document.alloc, document.text, document.sections)?;
    keys_at(document.alloc, path, places.as_slice())
}

/// Returns the text of `document` with `key` in place of all keys that name the value at `path`. Fails with
/// `WouldDiffer` if the spans of the keys can't be replaced.
fn with_key(document: Document<'_, '_>, path: &[&str], key: &str) -> Edited<String>
    ensures { IfOk result (λ new. places.replaced document.entry.text.now (map (λ span. (span, key.now))
        (spec.keys_at (map (λ s. s.now) path.now) (document_keys document.entry.text.now
        (map parsed_section document.entry.sections.now)))) ≡ Some (string_bytes new)) }
{
    let spans = key_spans(document, path)?;
    with_spans(document.alloc, document.text, spans.as_slice(), key)
}

/// Checks that keys name the value at `path`. Fails with `NoKey` for the root and for an element of an array, and with
/// `Nothing` if `path` names nothing.
fn check_keys(document: Document<'_, '_>, path: &[&str]) -> Edited<()> {
    if path.is_empty() {
        return Err(Stop::Fault(Reason::NoKey));
    }
    let mentions = document.mentions(path)?;
    if mentions.is_empty() {
        return Err(Stop::Fault(Reason::Nothing));
    }
    for mention in &mentions {
        match mention {
            PathMention::Own(section) if section.array => return Err(Stop::Fault(Reason::NoKey)),
            PathMention::Element(_, _) => return Err(Stop::Fault(Reason::NoKey)),
            _ => {}
        }
    }
    Ok(())
}

/// Returns the text of `document` with the key `name` in place of all keys that name the value at `path`. Fails with
/// `NoKey` for the root and for an element of an array, with `Nothing` if `path` names nothing, and with `WouldDiffer`
/// if the keys can't be replaced.
fn rename_keys(document: Document<'_, '_>, path: &[&str], name: &str) -> Edited<String>
    requires { read document.text.now depth_limit (Ok (map parsed_section document.sections.now)) }
    ensures { IfOk result (λ new. spec.AreKeysReplaced name.now (map (λ s. s.now) path.now) document.entry.text.now
        (string_bytes new)) }
{
    check_keys(document, path)?;
    let key = key_text(document.alloc, name)?;
    with_key(document, path, key.as_str())
}

/// Returns `text` with the key `name` in place of all keys that name the value at `path`. Fails with `NoKey` for the
/// root and for an element of an array, with `Nothing` if `path` names nothing, and with `WouldDiffer` if `text` can't
/// be split into sections or the keys can't be replaced.
pub(crate) fn renamed_text(alloc: Global, text: &str, path: &[&str], name: &str) -> Edited<String>
    ensures { IfOk result (λ new. spec.AreKeysReplaced name.now (map (λ s. s.now) path.now) text.now
        (string_bytes new)) }
{
    let sections = sections_of(alloc, text)?;
    let document = Document {
        alloc,
        text,
        sections: sections.as_slice(),
    };
    rename_keys(document, path, name)
}
