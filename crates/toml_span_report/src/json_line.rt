//! Formats a report as one line of JSON. If an allocation fails, the output so far is dropped.
ghost use Rattle.std.specs.Prelude.{◌≡◌, ◌++◌, codes, IfOk, OnOk, map, string_bytes};
ghost use Rattle.std.specs.Fmt.{decimal};
ghost use Rattle.std.specs.List.{flat_map, join_by};
ghost use Rattle.toml_span_tree.specs.Diagnostic.{label_content};
ghost use Rattle.toml_span_report.specs.JsonLine as spec;
ghost use Rattle.toml_span_report.specs.Report.{repair_of, report_content};

use crate::places::{clipped_span, line_column};
use crate::rendering::{clipped_text, severity_word};
use crate::report::{Replacement, Report};
use crate::visible::push_quoted;
use std::alloc::{AllocError, Global};
use std::fmt::Write;
use toml_span_lex::span::Span;
use toml_span_tree::Label;

/// Appends a member whose value is a number to `out`. `title` is the text before the number, such as `,"start":`.
fn push_number(out: &mut String, title: &str, number: usize) -> Result<(), AllocError>
    ensures { OnOk result (string_bytes out.new ≡ string_bytes out.old ++ title.now ++ decimal number) }
{
    out.push_str(title)?;
    write!(out, "{number}")
}

/// Appends a member whose value is the string `text` to `out`. `title` is the text before the string, such as
/// `,"code":`.
fn push_member(alloc: Global, out: &mut String, title: &str, text: &str) -> Result<(), AllocError>
    ensures { OnOk result (string_bytes out.new ≡ string_bytes out.old ++ spec.member_json title.now text.now) }
{
    out.push_str(title)?;
    push_quoted(alloc, out, text)
}

/// Appends a text for people to `out` as a JSON string (`visible::push_quoted`), cut as `clipped_text` cuts it. Fails if an
/// allocation fails. `out` may then have a part of the string.
pub fn push_clipped(alloc: Global, out: &mut String, text: &str) -> Result<(), AllocError>
    ensures { OnOk result (string_bytes out.new ≡ string_bytes out.old ++ spec.clipped_json text.now) }
{
    let text = clipped_text(alloc, text)?;
    push_quoted(alloc, out, text.as_str())
}

/// Appends a member whose value is a text for people, cut as `clipped_text` cuts it, to `out`. `title` is the text
/// before the string, such as `,"message":`.
fn push_clipped_member(
    alloc: Global,
    out: &mut String,
    title: &str,
    text: &str,
) -> Result<(), AllocError>
    ensures { OnOk result (string_bytes out.new ≡ string_bytes out.old ++ title.now ++ spec.clipped_json text.now) }
{
    out.push_str(title)?;
    push_clipped(alloc, out, text)
}

/// Appends the beginning of a label's object to `out`, with the member `primary`.
fn push_role(out: &mut String, is_primary: bool) -> Result<(), AllocError>
    ensures { OnOk result (string_bytes out.new ≡ string_bytes out.old ++ spec.role_json is_primary) }
{
    if is_primary {
        out.push_str("{\"primary\":true")
    } else {
        out.push_str("{\"primary\":false")
    }
}

/// Appends the members `start` and `end` of a span to `out`.
#[tactic(auto, unfolding(crate::specs::JsonLine::span_json))]
fn push_span(out: &mut String, span: Span) -> Result<(), AllocError>
    ensures { OnOk result (string_bytes out.new ≡ string_bytes out.old ++ spec.span_json span) }
{
    push_number(out, ",\"start\":", span.start)?;
    push_number(out, ",\"end\":", span.end)
}

/// Appends two members to `out`, with the line and the column of the offset `at` in the source `text`. The titles are the
/// texts before them, such as `,"line":`.
#[tactic(auto, unfolding(crate::specs::JsonLine::place_json))]
fn push_place(
    out: &mut String,
    line_title: &str,
    column_title: &str,
    text: &str,
    at: usize,
) -> Result<(), AllocError>
    ensures { OnOk result (string_bytes out.new
        ≡ string_bytes out.old ++ spec.place_json line_title.now column_title.now text.now at) }
{
    let (line, column) = line_column(text, at);
    push_number(out, line_title, line)?;
    push_number(out, column_title, column)
}

/// Appends the members `start`, `end`, `line`, `column`, `end_line` and `end_column` of a label at `span` to `out`. `text`
/// is the source.
#[tactic(auto, unfolding(crate::specs::JsonLine::spot_json))]
fn push_spot(out: &mut String, text: &str, span: Span) -> Result<(), AllocError>
    ensures { OnOk result (string_bytes out.new ≡ string_bytes out.old ++ spec.spot_json text.now span) }
{
    let shown = clipped_span(text, span);
    push_span(out, shown)?;
    push_place(out, ",\"line\":", ",\"column\":", text, span.start)?;
    push_place(out, ",\"end_line\":", ",\"end_column\":", text, shown.end)
}

/// Appends the label with these parts to `out`, as a JSON object. `text` is the source.
#[tactic(auto, unfolding(crate::specs::JsonLine::parts_json))]
fn push_parts(
    alloc: Global,
    out: &mut String,
    text: &str,
    is_primary: bool,
    span: Span,
    message: &str,
) -> Result<(), AllocError>
    ensures { OnOk result (string_bytes out.new ≡ string_bytes out.old
        ++ spec.parts_json text.now is_primary span message.now) }
{
    push_role(out, is_primary)?;
    push_spot(out, text, span)?;
    push_clipped_member(alloc, out, ",\"message\":", message)?;
    out.push_str("}")
}

/// Appends a label to `out`, as a JSON object. `text` is the source.
#[tactic(auto, unfolding(crate::specs::JsonLine::label_json))]
fn push_label(
    alloc: Global,
    out: &mut String,
    text: &str,
    label: &Label<()>,
) -> Result<(), AllocError>
    ensures { OnOk result (string_bytes out.new ≡ string_bytes out.old
        ++ spec.label_json text.now (label_content label.now)) }
{
    let (is_primary, span) = (label.primary, label.span);
    push_parts(alloc, out, text, is_primary, span, label.message.as_str())
}

/// Appends each label to `out`, as a JSON object after a comma. `text` is the source.
fn push_more_labels(
    alloc: Global,
    out: &mut String,
    text: &str,
    labels: &[Label<()>],
) -> Result<(), AllocError>
    ensures { OnOk result (string_bytes out.new ≡ string_bytes out.old
        ++ flat_map (λ mark. codes "," ++ spec.label_json text.now mark) (map label_content labels.now)) }
{
    for label in labels {
        out.push_str(",")?;
        push_label(alloc, out, text, label)?;
    }
    Ok(())
}

/// Appends the labels to `out`, as JSON objects, separated by commas. `text` is the source.
fn push_labels(
    alloc: Global,
    out: &mut String,
    text: &str,
    labels: &[Label<()>],
) -> Result<(), AllocError>
    ensures { OnOk result (string_bytes out.new ≡ string_bytes out.old
        ++ join_by (spec.label_json text.now) (codes ",") (map label_content labels.now)) }
{
    match labels.split_first() {
        Some((first, more)) => {
            push_label(alloc, out, text, first)?;
            push_more_labels(alloc, out, text, more)
        }
        None => Ok(()),
    }
}

/// Appends each text to `out`, as a JSON string after a comma.
fn push_more_texts(alloc: Global, out: &mut String, texts: &[String]) -> Result<(), AllocError>
    ensures { OnOk result (string_bytes out.new ≡ string_bytes out.old
        ++ flat_map (λ text. codes "," ++ spec.clipped_json text) (map string_bytes texts.now)) }
{
    for text in texts {
        out.push_str(",")?;
        push_clipped(alloc, out, text.as_str())?;
    }
    Ok(())
}

/// Appends the texts to `out`, as JSON strings, separated by commas.
fn push_texts(alloc: Global, out: &mut String, texts: &[String]) -> Result<(), AllocError>
    ensures { OnOk result (string_bytes out.new ≡ string_bytes out.old
        ++ join_by spec.clipped_json (codes ",") (map string_bytes texts.now)) }
{
    match texts.split_first() {
        Some((first, more)) => {
            push_clipped(alloc, out, first.as_str())?;
            push_more_texts(alloc, out, more)
        }
        None => Ok(()),
    }
}

/// Appends a member whose value is an array of strings to `out`. `title` is the text before the array, such as
/// `,"notes":`.
fn push_array(
    alloc: Global,
    out: &mut String,
    title: &str,
    texts: &[String],
) -> Result<(), AllocError>
    ensures { OnOk result (string_bytes out.new ≡ string_bytes out.old
        ++ title.now ++ spec.texts_json (map string_bytes texts.now)) }
{
    out.push_str(title)?;
    out.push_str("[")?;
    push_texts(alloc, out, texts)?;
    out.push_str("]")
}

/// Appends the beginning of a replacement's object to `out`, with the member `safe`.
fn push_safety(out: &mut String, is_safe: bool) -> Result<(), AllocError>
    ensures { OnOk result (string_bytes out.new ≡ string_bytes out.old ++ spec.safety_json is_safe) }
{
    if is_safe {
        out.push_str("{\"safe\":true")
    } else {
        out.push_str("{\"safe\":false")
    }
}

/// Appends the replacement with these parts to `out`, as a JSON object.
#[tactic(auto, unfolding(crate::specs::JsonLine::fix_parts_json))]
fn push_fix_parts(
    alloc: Global,
    out: &mut String,
    is_safe: bool,
    span: Span,
    text: &str,
) -> Result<(), AllocError>
    ensures { OnOk result (string_bytes out.new ≡ string_bytes out.old
        ++ spec.fix_parts_json is_safe span text.now) }
{
    push_safety(out, is_safe)?;
    push_span(out, span)?;
    push_member(alloc, out, ",\"text\":", text)?;
    out.push_str("}")
}

/// Appends a replacement to `out`, as a JSON object.
#[tactic(auto, unfolding(crate::specs::JsonLine::fix_json))]
fn push_fix(alloc: Global, out: &mut String, fix: &Replacement) -> Result<(), AllocError>
    ensures { OnOk result (string_bytes out.new ≡ string_bytes out.old
        ++ spec.fix_json (repair_of fix.now)) }
{
    let (is_safe, span) = (fix.is_safe, fix.span);
    push_fix_parts(alloc, out, is_safe, span, fix.text.as_str())
}

/// Appends each replacement to `out`, as a JSON object after a comma.
fn push_more_fixes(alloc: Global, out: &mut String, fixes: &[Replacement]) -> Result<(), AllocError>
    ensures { OnOk result (string_bytes out.new ≡ string_bytes out.old
        ++ flat_map (λ fix. codes "," ++ spec.fix_json fix) (map repair_of fixes.now)) }
{
    for fix in fixes {
        out.push_str(",")?;
        push_fix(alloc, out, fix)?;
    }
    Ok(())
}

/// Appends the replacements to `out`, as JSON objects, separated by commas.
fn push_fixes(alloc: Global, out: &mut String, fixes: &[Replacement]) -> Result<(), AllocError>
    ensures { OnOk result (string_bytes out.new ≡ string_bytes out.old
        ++ join_by spec.fix_json (codes ",") (map repair_of fixes.now)) }
{
    match fixes.split_first() {
        Some((first, more)) => {
            push_fix(alloc, out, first)?;
            push_more_fixes(alloc, out, more)
        }
        None => Ok(()),
    }
}

/// Appends the beginning of a report's object to `out`, with the members `file`, `code` and `message`.
fn push_head(alloc: Global, out: &mut String, report: &Report, name: &str) -> Result<(), AllocError>
    ensures { OnOk result (string_bytes out.new ≡ string_bytes out.old
        ++ spec.head_json (report_content report.now) name.now) }
{
    push_member(alloc, out, "{\"file\":", name)?;
    push_member(alloc, out, ",\"code\":", report.code.as_str())?;
    push_clipped_member(alloc, out, ",\"message\":", report.message.as_str())
}

/// Appends the members `severity`, `notes` and `help` of a report to `out`.
fn push_remarks(alloc: Global, out: &mut String, report: &Report) -> Result<(), AllocError>
    ensures { OnOk result (string_bytes out.new ≡ string_bytes out.old
        ++ spec.remarks_json (report_content report.now)) }
{
    push_member(alloc, out, ",\"severity\":", severity_word(report.severity))?;
    push_array(alloc, out, ",\"notes\":", report.notes.as_slice())?;
    push_array(alloc, out, ",\"help\":", report.help.as_slice())
}

/// Returns a report as one line of JSON, with a line feed at the end. `name` is the name of the file, `text` the
/// source. The line is an object with the members `file`, `code`, `message`, `labels`, `severity` (`error`, `warning`
/// or `note`), `notes`, `help` and `fixes`, in this order.
///
/// A label is an object with the members `primary`, `start`, `end`, `line`, `column` and `message`, in this order. Its
/// span is from `start` to `end` (byte offsets from 0, end exclusive), in the text and at character boundaries
/// (`clipped_span`). `line` and `column` are those of the start, as `line_column` counts them. Labels are in the order
/// of the report.
///
/// A fix is an object with the members `safe`, `start`, `end` and `text`. `text` replaces the bytes from `start` to
/// `end`.
///
/// Messages, notes and help are cut after 1,000 bytes (`clipped_text`), and nothing else is. Strings are escaped as in
/// `visible::push_quoted`. Fails if an allocation fails.
pub fn render_json(
    alloc: Global,
    report: &Report,
    name: &str,
    text: &str,
) -> Result<String, AllocError>
    ensures { IfOk result (λ out. string_bytes out
        ≡ spec.report_json (report_content report.now) name.now text.now) }
{
    let mut out = String::new(alloc);
    push_head(alloc, &mut out, report, name)?;
    out.push_str(",\"labels\":[")?;
    push_labels(alloc, &mut out, text, report.labels.as_slice())?;
    out.push_str("]")?;
    push_remarks(alloc, &mut out, report)?;
    out.push_str(",\"fixes\":[")?;
    push_fixes(alloc, &mut out, report.replacements.as_slice())?;
    out.push_str("]}\n")?;
    Ok(out)
}
