//! Reports that a path of `get` names no value: what is missing, and which key may be meant.
ghost use Rattle.std.specs.Prelude.{◌≡◌, IfOk, OnOk, map, option_map, string_bytes};
ghost use Rattle.std.specs.Cow.{cow_str_bytes};
ghost use Rattle.toml_span_report.specs.Report.{report_content};
ghost use Rattle.toml_span_tree.specs.Value.{inner_of, members_view, view};
ghost use Rattle.toml_span_check.specs.Missing as spec;

use crate::numbers::push_number;
use std::alloc::{AllocError, Global};
use std::borrow::CowStr;
use toml_span::value::Table;
use toml_span::{Span, Value};
use toml_span_places::quote_key;
use toml_span_report::{Report, nearest};
use toml_span_tree::lookup::child_of;

/// Returns the span of the key with this name, if the table has it.
fn key_span(table: &Table<'_>, name: &str) -> Option<Span>
    ensures { result ≡ spec.key_span name.now (members_view table.now.entries) }
{
    for (key, _value) in table.iter() {
        if name == key.name.as_str() {
            return Some(key.span);
        }
    }
    None
}

/// Returns the span to mark for `child`, to which `segment` leads from `value`: that of its key or, without a key, its
/// own.
fn mark_of(value: &Value<'_>, segment: &str, child: &Value<'_>) -> Span
    ensures { result ≡ spec.mark_of (inner_of (view value.now)) segment.now (view child.now) }
{
    match value.as_table() {
        Some(table) => key_span(table, segment).unwrap_or(child.span),
        None => child.span,
    }
}

/// Appends to the path of `value` the segment that leads from there to another value: `[0]` for a position in an array,
/// otherwise a key with a dot before it.
fn push_step(
    alloc: Global,
    path: &mut String,
    value: &Value<'_>,
    segment: &str,
) -> Result<(), AllocError>
    ensures { OnOk result (string_bytes path.new
        ≡ spec.with_step (inner_of (view value.now)) (string_bytes path.old) segment.now) }
{
    if value.as_array().is_some() {
        path.push_str("[")?;
        path.push_str(segment)?;
        return path.push_str("]");
    }
    if !path.is_empty() {
        path.push_str(".")?;
    }
    let key = quote_key(alloc, segment)?;
    path.push_str(key.as_str())
}

/// Returns the names of the keys of a table.
fn names_of<'v>(alloc: Global, table: &'v Table<'_>) -> Result<Vec<&'v str>, AllocError>
    ensures { IfOk result (λ names. map (λ name. name.now) names.items
        ≡ spec.names_of (members_view table.now.entries)) }
{
    let mut names = Vec::with_capacity(alloc, table.len())?;
    for (key, _value) in table.iter() {
        names.push(key.name.as_str())?;
    }
    Ok(names)
}

/// Returns that `value`, which is not an array, has no key with this name.
fn lacks_key(alloc: Global, value: &Value<'_>, name: &str) -> Result<String, AllocError>
    ensures { IfOk result (λ out. string_bytes out ≡ spec.lacks_key (inner_of (view value.now)) name.now) }
{
    let mut out = String::from_str(alloc, "this ")?;
    out.push_str(value.type_str())?;
    out.push_str(" has no key `")?;
    out.push_str(name)?;
    out.push_str("`")?;
    Ok(out)
}

/// Returns what `value` lacks, to which `segment` should apply. `is_root` says whether it is the whole document.
fn lacks(
    alloc: Global,
    is_root: bool,
    value: &Value<'_>,
    segment: &str,
) -> Result<String, AllocError>
    ensures { IfOk result (λ out. string_bytes out ≡ spec.lacks is_root (inner_of (view value.now)) segment.now) }
{
    if is_root {
        return format!(in alloc; "the document has no key `{segment}`");
    }
    match value.as_array() {
        Some(elements) => {
            let elements = elements.as_slice();
            let mut out = String::from_str(alloc, "this array has ")?;
            push_number(&mut out, elements.len(), " element")?;
            Ok(out)
        }
        None => lacks_key(alloc, value, segment),
    }
}

/// Adds a line of help to the report, if a key of the table `value`, which is at `path`, has a name similar to `name`.
fn suggested(
    alloc: Global,
    report: Report,
    mut path: String,
    value: &Value<'_>,
    name: &str,
) -> Result<Report, AllocError>
    ensures { IfOk result (λ made. report_content made
        ≡ spec.suggested (report_content report) (string_bytes path) (inner_of (view value.now)) name.now) }
{
    let Some(table) = value.as_table() else {
        return Ok(report);
    };
    let names = names_of(alloc, table)?;
    let Some(meant) = nearest(alloc, name, names.as_slice())? else {
        return Ok(report);
    };
    push_step(alloc, &mut path, value, meant)?;
    let mut help = String::from_str(alloc, "did you mean `")?;
    help.push_str(path.as_str())?;
    help.push_str("`?")?;
    report.help(help.as_str())
}

/// Adds to the report what `value`, which is at `path`, lacks: at its mark or, for the whole document, as a note. No
/// value is there to which `segment` leads from `value`.
fn stopped(
    alloc: Global,
    report: Report,
    path: String,
    mark: Option<Span>,
    value: &Value<'_>,
    segment: &str,
) -> Result<Report, AllocError>
    ensures { IfOk result (λ made. report_content made
        ≡ spec.stopped (report_content report) (string_bytes path) mark (inner_of (view value.now)) segment.now) }
{
    match mark {
        Some(span) => {
            let text = lacks(alloc, false, value, segment)?;
            let report = report.primary(span, text.as_str())?;
            suggested(alloc, report, path, value, segment)
        }
        None => {
            let text = lacks(alloc, true, value, segment)?;
            let report = report.note(text.as_str())?;
            suggested(alloc, report, path, value, segment)
        }
    }
}

/// Adds to the report where the segments of a path stop leading from `value`, which is at `path`, to other values.
fn explained(
    alloc: Global,
    report: Report,
    mut path: String,
    mark: Option<Span>,
    value: &Value<'_>,
    segments: &[CowStr<'_>],
) -> Result<Report, AllocError>
    ensures { IfOk result (λ made. report_content made ≡ spec.explained (report_content report) (string_bytes path) mark
        (map cow_str_bytes segments.now) (view value.now)) }
{
    let [segment, rest @ ..] = segments else {
        return Ok(report);
    };
    let segment = segment.as_ref();
    match child_of(value, segment) {
        Some(child) => {
            push_step(alloc, &mut path, value, segment)?;
            let mark = Some(mark_of(value, segment, child));
            explained(alloc, report, path, mark, child, rest)
        }
        None => stopped(alloc, report, path, mark, value, segment),
    }
}

/// Returns the report that the path `pointer` names no value in the document `root`. `segments` are those of the path,
/// or `None` if it is malformed.
pub(crate) fn missing(
    alloc: Global,
    pointer: &str,
    segments: Option<&[CowStr<'_>]>,
    root: &Value<'_>,
) -> Result<Report, AllocError>
    ensures { IfOk result (λ made. report_content made ≡ spec.missing pointer.now
        (option_map (λ names. map cow_str_bytes names.now) segments.entry) (view root.now)) }
{
    let message = format!(in alloc; "no value at `{pointer}`")?;
    let report = Report::error(alloc, "nothing-there", message.as_str())?;
    match segments {
        Some(segments) => explained(alloc, report, String::new(alloc), None, root, segments),
        None => Ok(report),
    }
}
