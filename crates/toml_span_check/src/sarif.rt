//! Prints the reports of a run as one document of the Static Analysis Results Interchange Format (SARIF), version
//! 2.1.0.
ghost use Rattle.std.specs.Prelude.{◌≡◌, ◌<◌, ◌≤◌, ◌++◌, OnOk, IfOk, codes, map, string_bytes};
ghost use Rattle.std.specs.List.{flat_map};
ghost use Rattle.toml_span_tree.specs.Diagnostic.{label_content};
ghost use Rattle.toml_span_report.specs.Report.{repair_of, report_content};
ghost use Rattle.toml_span_lines.specs.Lines as lines_spec;
ghost use Rattle.toml_span_check.specs.Sarif as spec;

use crate::github::push_number;
use std::alloc::{AllocError, Global};
use toml_span::{Label, Span};
use toml_span_report::visible::push_quoted;
use toml_span_report::{Replacement, Report, Severity, clipped_span, line_column, push_clipped};

/// The start of the document, before the results, with a rule for each code that `check` reports.
const HEAD: &str = r#"{
"$schema":"https://docs.oasis-open.org/sarif/sarif/v2.1.0/errata01/os/schemas/sarif-schema-2.1.0.json",
"version":"2.1.0",
"runs":[{"tool":{"driver":{"name":"toml-span","version":"0.7.2","rules":[
{"id":"unexpected","shortDescription":{"text":"A character that is not part of TOML here."}},
{"id":"unterminated-string","shortDescription":{"text":"A string that is not closed before the end of the file."}},
{"id":"invalid-char-in-string","shortDescription":{"text":"A character that a string cannot contain."}},
{"id":"invalid-escape","shortDescription":{"text":"A backslash that does not begin an escape."}},
{"id":"invalid-hex-escape","shortDescription":{"text":"An escape with too few hexadecimal digits."}},
{"id":"invalid-escape-value","shortDescription":{"text":"An escape that does not name a character."}},
{"id":"multiline-string-key","shortDescription":{"text":"A string of several lines as a key."}},
{"id":"unquoted-string","shortDescription":{"text":"A value without quotes."}},
{"id":"invalid-number","shortDescription":{"text":"A number that is not valid in TOML."}},
{"id":"invalid-datetime","shortDescription":{"text":"A date or a time that does not exist, or is not written as in TOML."}},
{"id":"unexpected-eof","shortDescription":{"text":"A value is missing at the end of the file."}},
{"id":"wanted","shortDescription":{"text":"Something else was expected here."}},
{"id":"exceeded-depth-limit","shortDescription":{"text":"Keys or values that are too deeply nested."}},
{"id":"dotted-key-invalid-type","shortDescription":{"text":"A dotted key that goes through a value."}},
{"id":"duplicate-key","shortDescription":{"text":"A key that is defined twice."}},
{"id":"duplicate-table","shortDescription":{"text":"A table that is defined twice."}},
{"id":"redefine-as-array","shortDescription":{"text":"An array of tables with the name of a table."}},
{"id":"too-many-errors","shortDescription":{"text":"More errors than are reported."}},
{"id":"newer-toml","shortDescription":{"text":"Something that TOML 1.0 lacks."}},
{"id":"not-utf-8","shortDescription":{"text":"A file that is not valid UTF-8."}},
{"id":"too-long","shortDescription":{"text":"A file that is larger than 16 MiB."}},
{"id":"schema","shortDescription":{"text":"A value that does not match its schema."}},
{"id":"schema-false","shortDescription":{"text":"A value where the schema allows none."}},
{"id":"schema-type","shortDescription":{"text":"A value of another type than the schema allows."}},
{"id":"schema-enum","shortDescription":{"text":"A value that is not among those that the schema lists."}},
{"id":"schema-const","shortDescription":{"text":"Another value than the only one that the schema allows."}},
{"id":"schema-minimum","shortDescription":{"text":"A number that is too small."}},
{"id":"schema-exclusive-minimum","shortDescription":{"text":"A number that is too small."}},
{"id":"schema-maximum","shortDescription":{"text":"A number that is too large."}},
{"id":"schema-exclusive-maximum","shortDescription":{"text":"A number that is too large."}},
{"id":"schema-multiple-of","shortDescription":{"text":"A number that is not a multiple of the one in the schema."}},
{"id":"schema-min-length","shortDescription":{"text":"A string that is too short."}},
{"id":"schema-max-length","shortDescription":{"text":"A string that is too long."}},
{"id":"schema-pattern","shortDescription":{"text":"A string that the schema's regular expression does not match."}},
{"id":"schema-format","shortDescription":{"text":"A string that does not have the format that the schema names."}},
{"id":"schema-min-items","shortDescription":{"text":"An array with too few elements."}},
{"id":"schema-max-items","shortDescription":{"text":"An array with too many elements."}},
{"id":"schema-unique-items","shortDescription":{"text":"An array with two equal elements."}},
{"id":"schema-contains","shortDescription":{"text":"An array without an element that the schema asks for."}},
{"id":"schema-unevaluated-items","shortDescription":{"text":"An array element that the schema does not know."}},
{"id":"schema-min-properties","shortDescription":{"text":"A table with too few keys."}},
{"id":"schema-max-properties","shortDescription":{"text":"A table with too many keys."}},
{"id":"schema-required","shortDescription":{"text":"A key is missing."}},
{"id":"schema-additional-properties","shortDescription":{"text":"A key that the schema does not know."}},
{"id":"schema-unevaluated-properties","shortDescription":{"text":"A key that the schema does not know."}},
{"id":"schema-dependent-required","shortDescription":{"text":"A key is missing that another key requires."}},
{"id":"schema-dependencies","shortDescription":{"text":"A key is missing that another key requires."}},
{"id":"schema-any-of","shortDescription":{"text":"A value that matches none of the schema's alternatives."}},
{"id":"schema-one-of","shortDescription":{"text":"A value that does not match exactly one alternative."}},
{"id":"schema-not","shortDescription":{"text":"A value that the schema rules out."}},
{"id":"schema-deprecated","shortDescription":{"text":"A value that the schema calls deprecated."}},
{"id":"schema-not-checked","shortDescription":{"text":"A part of a schema that is not checked."}},
{"id":"schema-not-fetched","shortDescription":{"text":"A schema on a server, for which no local copy is named."}}
]}},"columnKind":"unicodeCodePoints","results":["#;

/// The end of the document, after the results.
const TAIL: &str = "\n]}]}\n";

/// Returns the SARIF level for a severity.
fn level_of(severity: Severity) -> &'static str
    ensures { result.now ≡ spec.level_of severity }
{
    match severity {
        Severity::Error => "error",
        Severity::Warning => "warning",
        Severity::Note => "note",
    }
}

/// Returns whether this byte needs no escape in the path of a URI: an unreserved character, or a slash.
fn is_plain(byte: u8) -> bool
    ensures { result ≡ spec.is_plain byte }
{
    matches!(byte, b'A'..=b'Z' | b'a'..=b'z' | b'0'..=b'9' | b'-' | b'.' | b'_' | b'~' | b'/')
}

/// Returns the upper-case hexadecimal digit of a number below 16.
pub(crate) fn hex_digit(number: u8) -> u8
    requires { number < 16 }
    ensures { result ≡ lines_spec.hex_digit number }
{
    if number < 10 {
        b'0' + number
    } else {
        b'A' - 10 + number
    }
}

/// Appends a byte of a path, percent-encoded if necessary.
fn push_uri_byte(out: &mut String, byte: u8) -> Result<(), AllocError>
    ensures { OnOk result (string_bytes out.new ≡ string_bytes out.old ++ spec.uri_byte byte) }
{
    if is_plain(byte) {
        return out.push(byte as char);
    }
    out.push_str("%")?;
    out.push(hex_digit(byte / 16) as char)?;
    out.push(hex_digit(byte % 16) as char)
}

/// Returns the start of the URI of a file: `file://` if `name` is an absolute path, otherwise an empty text.
fn scheme_of(name: &str) -> &'static str
    ensures { result.now ≡ spec.scheme_of name.now }
{
    match name.as_bytes().first() {
        Some(b'/') => "file://",
        _ => "",
    }
}

/// Appends the bytes of a path, percent-encoded if necessary.
fn push_path(out: &mut String, path: &[u8]) -> Result<(), AllocError>
    ensures { OnOk result (string_bytes out.new ≡ string_bytes out.old ++ flat_map spec.uri_byte path.now) }
{
    for byte in path {
        push_uri_byte(out, *byte)?;
    }
    Ok(())
}

/// Appends the URI of a file.
#[tactic(auto, unfolding(crate::specs::Sarif::uri))]
fn push_uri(out: &mut String, name: &str) -> Result<(), AllocError>
    ensures { OnOk result (string_bytes out.new ≡ string_bytes out.old ++ spec.uri name.now) }
{
    out.push_str(scheme_of(name))?;
    push_path(out, name.as_bytes())
}

/// Appends the start of a JSON object with the location of a file, without the closing brace.
fn push_artifact(out: &mut String, name: &str) -> Result<(), AllocError>
    ensures { OnOk result (string_bytes out.new ≡ string_bytes out.old ++ spec.artifact name.now) }
{
    out.push_str("{\"artifactLocation\":{\"uri\":\"")?;
    push_uri(out, name)?;
    out.push_str("\"}")?;
    Ok(())
}

/// Appends the opening brace, the line numbers and the columns of a region. `start` and `end` are pairs of a line and a
/// column, counted from 1. The region ends before `end`.
fn push_lines(
    out: &mut String,
    start: (usize, usize),
    end: (usize, usize),
) -> Result<(), AllocError>
    ensures { OnOk result (string_bytes out.new ≡ string_bytes out.old ++ spec.lines start end) }
{
    push_number(out, "{\"startLine\":", start.0)?;
    push_number(out, ",\"startColumn\":", start.1)?;
    push_number(out, ",\"endLine\":", end.0)?;
    push_number(out, ",\"endColumn\":", end.1)?;
    Ok(())
}

/// Appends the byte range of a region and the closing brace.
#[tactic(auto, unfolding(crate::specs::Sarif::bytes))]
fn push_bytes(out: &mut String, start: usize, end: usize) -> Result<(), AllocError>
    requires { start ≤ end }
    ensures { OnOk result (string_bytes out.new ≡ string_bytes out.old ++ spec.bytes start end) }
{
    push_number(out, ",\"byteOffset\":", start)?;
    push_number(out, ",\"byteLength\":", end - start)?;
    out.push_str("}")
}

/// Appends the region of a span in the source `text` (`clipped_span`).
fn push_region(out: &mut String, text: &str, span: Span) -> Result<(), AllocError>
    ensures { OnOk result (string_bytes out.new ≡ string_bytes out.old ++ spec.region text.now span) }
{
    let Span { start, end } = clipped_span(text, span);
    push_lines(out, line_column(text, start), line_column(text, end))?;
    push_bytes(out, start, end)
}

/// Appends the member `message` of a location.
fn push_message(alloc: Global, out: &mut String, message: &str) -> Result<(), AllocError>
    ensures { OnOk result (string_bytes out.new ≡ string_bytes out.old ++ spec.message message.now) }
{
    out.push_str(",\"message\":{\"text\":")?;
    push_clipped(alloc, out, message)?;
    out.push_str("}")?;
    Ok(())
}

/// Appends the message of a label, or nothing if it is empty.
fn push_label_message(alloc: Global, out: &mut String, message: &str) -> Result<(), AllocError>
    ensures { OnOk result (string_bytes out.new ≡ string_bytes out.old ++ spec.label_message message.now) }
{
    if message.is_empty() {
        return Ok(());
    }
    push_message(alloc, out, message)
}

/// Appends the location and the message of a label. `text` is the source of the file `name`.
fn push_location(
    alloc: Global,
    out: &mut String,
    name: &str,
    text: &str,
    label: &Label<()>,
) -> Result<(), AllocError>
    ensures { OnOk result (string_bytes out.new ≡ string_bytes out.old
        ++ spec.location name.now text.now (label_content label.now)) }
{
    out.push_str("{\"physicalLocation\":")?;
    push_artifact(out, name)?;
    out.push_str(",\"region\":")?;
    push_region(out, text, label.span)?;
    out.push_str("}")?;
    push_label_message(alloc, out, label.message.as_str())?;
    out.push_str("}")?;
    Ok(())
}

/// Appends the location of a file, without a region.
fn push_file(out: &mut String, name: &str) -> Result<(), AllocError>
    ensures { OnOk result (string_bytes out.new ≡ string_bytes out.old ++ spec.file_alone name.now) }
{
    out.push_str("{\"physicalLocation\":")?;
    push_artifact(out, name)?;
    out.push_str("}}")?;
    Ok(())
}

/// Appends the location of the first primary label, or of the file `name` if no label is primary.
fn push_place(
    alloc: Global,
    out: &mut String,
    name: &str,
    text: &str,
    labels: &[Label<()>],
) -> Result<(), AllocError>
    ensures { OnOk result (string_bytes out.new ≡ string_bytes out.old
        ++ spec.primary_location name.now text.now (map label_content labels.now)) }
{
    for label in labels {
        if label.primary {
            return push_location(alloc, out, name, text, label);
        }
    }
    push_file(out, name)
}

/// Appends a comma and the location of a label, or nothing if the label is primary.
fn push_other(
    alloc: Global,
    out: &mut String,
    name: &str,
    text: &str,
    label: &Label<()>,
) -> Result<(), AllocError>
    ensures { OnOk result (string_bytes out.new ≡ string_bytes out.old
        ++ spec.other name.now text.now (label_content label.now)) }
{
    if label.primary {
        return Ok(());
    }
    out.push_str(",")?;
    push_location(alloc, out, name, text, label)
}

/// Returns the locations of the secondary labels, each after a comma.
fn others(alloc: Global, name: &str, text: &str, labels: &[Label<()>]) -> Result<String, AllocError>
    ensures { IfOk result (λ out. string_bytes out
        ≡ flat_map (spec.other name.now text.now) (map label_content labels.now)) }
{
    let mut out = String::new(alloc);
    for label in labels {
        push_other(alloc, &mut out, name, text, label)?;
    }
    Ok(out)
}

/// Returns `text` without the comma at its start, if there is one.
pub(crate) fn without_comma(text: &str) -> &str
    ensures { result.now ≡ spec.without_comma text.now }
{
    match text.strip_prefix(',') {
        Some(rest) => rest,
        None => text,
    }
}

/// Appends a comma, a line feed and the start of a `result` object: the code, the level and the message of a report.
fn push_front(alloc: Global, out: &mut String, report: &Report) -> Result<(), AllocError>
    ensures { OnOk result (string_bytes out.new ≡ string_bytes out.old ++ spec.front (report_content report.now)) }
{
    out.push_str(",\n{\"ruleId\":")?;
    push_quoted(alloc, out, report.code.as_str())?;
    out.push_str(",\"level\":\"")?;
    out.push_str(level_of(report.severity))?;
    out.push_str("\",\"message\":{\"text\":")?;
    push_clipped(alloc, out, report.message.as_str())?;
    out.push_str("}")?;
    Ok(())
}

/// Appends the locations of the secondary labels, separated by commas.
#[tactic(auto, unfolding(crate::specs::Sarif::related))]
fn push_related(
    alloc: Global,
    out: &mut String,
    name: &str,
    text: &str,
    labels: &[Label<()>],
) -> Result<(), AllocError>
    ensures { OnOk result (string_bytes out.new ≡ string_bytes out.old
        ++ spec.related name.now text.now (map label_content labels.now)) }
{
    let others = others(alloc, name, text, labels)?;
    out.push_str(without_comma(others.as_str()))
}

/// Appends the members `locations`, with the location that `push_place` appends, and `relatedLocations`, with the
/// locations of the secondary labels.
fn push_places(
    alloc: Global,
    out: &mut String,
    name: &str,
    text: &str,
    labels: &[Label<()>],
) -> Result<(), AllocError>
    ensures { OnOk result (string_bytes out.new ≡ string_bytes out.old
        ++ spec.places name.now text.now (map label_content labels.now)) }
{
    out.push_str(",\"locations\":[")?;
    push_place(alloc, out, name, text, labels)?;
    out.push_str("],\"relatedLocations\":[")?;
    push_related(alloc, out, name, text, labels)?;
    out.push_str("]")?;
    Ok(())
}

/// Appends a replacement: the region to delete, and the text to insert there.
fn push_replacement(
    alloc: Global,
    out: &mut String,
    text: &str,
    replacement: &Replacement,
) -> Result<(), AllocError>
    ensures { OnOk result (string_bytes out.new ≡ string_bytes out.old
        ++ spec.replacement text.now (repair_of replacement.now)) }
{
    out.push_str("{\"deletedRegion\":")?;
    push_region(out, text, replacement.span)?;
    out.push_str(",\"insertedContent\":{\"text\":")?;
    push_quoted(alloc, out, replacement.text.as_str())?;
    out.push_str("}}")?;
    Ok(())
}

/// Appends each replacement after a comma.
fn push_replacements(
    alloc: Global,
    out: &mut String,
    text: &str,
    replacements: &[Replacement],
) -> Result<(), AllocError>
    ensures { OnOk result (string_bytes out.new ≡ string_bytes out.old
        ++ flat_map (λ fix. codes "," ++ spec.replacement text.now fix) (map repair_of replacements.now)) }
{
    for replacement in replacements {
        out.push_str(",")?;
        push_replacement(alloc, out, text, replacement)?;
    }
    Ok(())
}

/// Appends the member `fixes` of an object: one fix with the replacements `first` and `more`.
fn push_change(
    alloc: Global,
    out: &mut String,
    name: &str,
    text: &str,
    first: &Replacement,
    more: &[Replacement],
) -> Result<(), AllocError>
    ensures { OnOk result (string_bytes out.new ≡ string_bytes out.old
        ++ spec.change name.now text.now (repair_of first.now) (map repair_of more.now)) }
{
    out.push_str(",\"fixes\":[{\"artifactChanges\":[")?;
    push_artifact(out, name)?;
    out.push_str(",\"replacements\":[")?;
    push_replacement(alloc, out, text, first)?;
    push_replacements(alloc, out, text, more)?;
    out.push_str("]}]}]")?;
    Ok(())
}

/// Appends a fix with all the replacements, or nothing for an empty list.
fn push_fixes(
    alloc: Global,
    out: &mut String,
    name: &str,
    text: &str,
    replacements: &[Replacement],
) -> Result<(), AllocError>
    ensures { OnOk result (string_bytes out.new ≡ string_bytes out.old
        ++ spec.fixes name.now text.now (map repair_of replacements.now)) }
{
    match replacements {
        [first, more @ ..] => push_change(alloc, out, name, text, first, more),
        [] => Ok(()),
    }
}

/// Returns a comma, a line feed and the `result` object of a report. `text` is the source of the file `name`.
pub(crate) fn sarif(
    alloc: Global,
    report: &Report,
    name: &str,
    text: &str,
) -> Result<String, AllocError>
    ensures { IfOk result (λ out. string_bytes out ≡ spec.sarif (report_content report.now) name.now text.now) }
{
    let mut out = String::new(alloc);
    push_front(alloc, &mut out, report)?;
    push_places(alloc, &mut out, name, text, report.labels.as_slice())?;
    push_fixes(alloc, &mut out, name, text, report.replacements.as_slice())?;
    out.push_str("}")?;
    Ok(out)
}

/// Returns the concatenation of `head`, `elements` without a comma at the start, and `tail`.
fn between(alloc: Global, head: &str, elements: &[u8], tail: &str) -> Result<Vec<u8>, AllocError>
    ensures { IfOk result (λ out. out.items ≡ head.now ++ spec.without_comma elements.now ++ tail.now) }
{
    let mut out = Vec::from_slice(alloc, head.as_bytes())?;
    match elements {
        [b',', rest @ ..] => out.extend_from_slice(rest)?,
        _ => out.extend_from_slice(elements)?,
    }
    out.extend_from_slice(tail.as_bytes())?;
    Ok(out)
}

/// Returns the document with these results. `results` is the concatenation of the texts that `sarif` returned.
#[tactic(auto, unfolding(crate::specs::Sarif::document))]
pub(crate) fn document(alloc: Global, results: &[u8]) -> Result<Vec<u8>, AllocError>
    ensures { IfOk result (λ out. out.items ≡ spec.document results.now) }
{
    between(alloc, HEAD, results, TAIL)
}
