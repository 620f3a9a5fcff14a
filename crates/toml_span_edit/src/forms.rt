//! Checks whether a new text writes the table or array at an offset in the form that a conversion requires.
ghost use Rattle.std.specs.Prelude.{◌≡◌, IfOk, IfSome, IsTrue, Ok, map, string_bytes};
ghost use Rattle.std.specs.List.{list_any};
ghost use Rattle.toml_span_read.specs.Data.{depth_limit, parsed_section};
ghost use Rattle.toml_span_read.specs.Read.{document};
ghost use Rattle.toml_span_edit.specs.Converted as spec;

use crate::conversions::Conversion;
use crate::kept::{bytes_of, has_byte};
use std::alloc::{AllocError, Global};
use toml_span_lex::span::Span;
use toml_span_lex::stop::Stop;
use toml_span_places::{TableForm, replaced, table_forms, table_places};
use toml_span_read::gaps::byte_at;
use toml_span_read::{Section, read_sections};

/// Returns whether the offset `at` is in a span, at its end, or before it on the same line.
fn is_at(text: &str, at: usize, span: Span) -> bool
    ensures { result ≡ spec.is_at text.now at span }
{
    at <= span.end && !has_byte(bytes_of(text, at, span.start), b'\n')
}

// ---- tables

/// Returns the sections of a text, or `None` if the text can't be read.
fn sections_of<'t>(alloc: Global, text: &'t str) -> Result<Option<Vec<Section<'t>>>, AllocError>
    ensures { IfOk result (λ read. IfSome read (λ sections.
        document text.now depth_limit (Ok (map parsed_section sections.items)))) }
{
    match read_sections(alloc, text, 128) {
        Ok(sections) => Ok(Some(sections)),
        Err(Stop::Memory(error)) => Err(error),
        Err(Stop::Fault(_)) => Ok(None),
    }
}

/// Returns whether `form` is `other`, and is a header in single brackets, a dotted key, or the braces of an inline
/// table.
fn is_form(other: TableForm, form: TableForm) -> bool
    ensures { result ≡ spec.is_form other form }
{
    match other {
        TableForm::Header => matches!(form, TableForm::Header),
        TableForm::Dotted => matches!(form, TableForm::Dotted),
        TableForm::Inline => matches!(form, TableForm::Inline),
        TableForm::Element | TableForm::Passed => false,
    }
}

/// Returns whether one of `forms` is `other` (see `is_form`).
fn has_form(other: TableForm, forms: &[TableForm]) -> bool
    ensures { result ≡ list_any (spec.is_form other) forms.now }
{
    for form in forms {
        if is_form(other, *form) {
            return true;
        }
    }
    false
}

/// Returns whether the form `from` is among the forms `old` of a table but not among the new ones, and `to` is among
/// the new ones.
fn is_replaced(from: TableForm, to: TableForm, old: &[TableForm], new: &[TableForm]) -> bool
    ensures { result ≡ spec.is_replaced from to old.now new.now }
{
    has_form(from, old) && !has_form(from, new) && has_form(to, new)
}

/// Returns whether the forms `old` and `new` of a table differ as `conversion` requires. Returns false for conversions
/// of arrays.
fn changes(conversion: Conversion, old: &[TableForm], new: &[TableForm]) -> bool
    ensures { result ≡ spec.changes conversion old.now new.now }
{
    let (braces, header, dotted) = (TableForm::Inline, TableForm::Header, TableForm::Dotted);
    match conversion {
        Conversion::InlineToSection => is_replaced(braces, header, old, new),
        Conversion::SectionToInline => is_replaced(header, braces, old, new),
        Conversion::DottedToSection => is_replaced(dotted, header, old, new),
        Conversion::ArrayToLines | Conversion::ArrayToLine => false,
    }
}

/// Returns whether `old` names a table at the offset `at` that has other forms in `new`, as `conversion` requires. Both
/// are sections, and `text` is the text of `old`.
fn has_converted(
    alloc: Global,
    text: &str,
    conversion: Conversion,
    at: usize,
    old: &[Section<'_>],
    new: &[Section<'_>],
) -> Result<bool, AllocError>
    ensures { IfOk result (λ has. has ≡ spec.has_converted conversion at text.now (map parsed_section old.now)
        (map parsed_section new.now)) }
{
    let places = table_places(alloc, old)?;
    for place in &places {
        if is_at(text, at, place.span) {
            let old_forms = table_forms(alloc, old, place.path.as_slice())?;
            let new_forms = table_forms(alloc, new, place.path.as_slice())?;
            if changes(conversion, old_forms.as_slice(), new_forms.as_slice()) {
                return Ok(true);
            }
        }
    }
    Ok(false)
}

/// Returns whether a table that `text` names at the offset `at` has other forms in `new`, as `conversion` requires.
/// `sections` are the sections of `text`. Returns false if one of the texts can't be read.
#[tactic(auto, using(crate::proofs::FormLemmas::table_converted))]
pub(crate) fn is_converted(
    alloc: Global,
    text: &str,
    sections: &[Section<'_>],
    conversion: Conversion,
    at: usize,
    new: &str,
) -> Result<bool, AllocError>
    ensures { IfOk result (λ is. IsTrue is → spec.IsTableConverted conversion at text.now
        (map parsed_section sections.now) new.now) }
{
    let Some(old) = sections_of(alloc, text)? else {
        return Ok(false);
    };
    let Some(made) = sections_of(alloc, new)? else {
        return Ok(false);
    };
    if has_converted(alloc, text, conversion, at, old.as_slice(), made.as_slice())? {
        return has_converted(alloc, text, conversion, at, sections, made.as_slice());
    }
    Ok(false)
}

// ---- arrays

/// Returns whether the old text `old` and the new text `new` of an array have line feeds as `conversion` requires.
/// Returns false for conversions of tables.
fn is_laid_out(conversion: Conversion, old: &[u8], new: &[u8]) -> bool
    ensures { IsTrue result → spec.IsLaidOut conversion old.now new.now }
{
    match conversion {
        Conversion::ArrayToLines => !has_byte(old, b'\n') && has_byte(new, b'\n'),
        Conversion::ArrayToLine => has_byte(old, b'\n') && !has_byte(new, b'\n'),
        _ => false,
    }
}

/// Returns `text` with the array at `span` replaced by `array`. Returns `None` if the offset `at` is not at the array
/// (see `is_at`), if one of the two arrays does not begin with a bracket, if their line feeds are not as `is_laid_out`
/// requires, or if `span` is not valid in `text`.
#[tactic(auto, using(crate::proofs::FormLemmas::array_converted))]
pub(crate) fn with_array(
    alloc: Global,
    conversion: Conversion,
    text: &str,
    at: usize,
    span: Span,
    array: &str,
) -> Result<Option<String>, AllocError>
    ensures { IfOk result (λ made. IfSome made (λ new.
        spec.IsArrayConverted conversion at text.now (string_bytes new))) }
{
    if !is_at(text, at, span) || byte_at(text, span.start) != b'[' || byte_at(array, 0) != b'[' {
        return Ok(None);
    }
    if !is_laid_out(
        conversion,
        bytes_of(text, span.start, span.end),
        array.as_bytes(),
    ) {
        return Ok(None);
    }
    replaced(alloc, text, &[span], array)
}
