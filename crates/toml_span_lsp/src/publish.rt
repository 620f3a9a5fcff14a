//! Writes diagnostics: as notifications by the server, and as answers to requests of the client.
ghost use Rattle.std.specs.Prelude.{◌≡◌, ◌≤◌, IfOk, OnOk, false, length, map, string_bytes};
ghost use Rattle.toml_span_lsp.specs.Diagnosed.{AreChecked, AreShown, denies_in};
ghost use Rattle.toml_span_lsp.specs.Shown as spec;

use crate::outgoing::{Json, Outbox, ServerCall, write_location};
use crate::reading::is_too_long;
use crate::settings::Settings;
use crate::state::{Client, Findings, Open, State};
use std::alloc::{AllocError, Global};
use toml_span_editor::diagnostics::{
    Diagnosed, Diagnostic, Related, diagnostics, diagnostics_without_schema,
};
use toml_span_editor::positions::{Encoding, FIRST, Position, Range, position_at};
use toml_span_lookup::directive::directive_of;
use toml_span_lookup::lookup::Lookup;
use toml_span_report::Severity;

/// The code of a warning that a value is deprecated.
const DEPRECATED: &str = "schema-deprecated";

/// Returns the number for a severity (LSP 3.17, DiagnosticSeverity).
fn severity_of(severity: Severity) -> usize
    ensures { result ≡ spec.severity_of severity }
{
    match severity {
        Severity::Error => 1,
        Severity::Warning => 2,
        Severity::Note => 3,
    }
}

/// Writes the locations that are related to a diagnostic, with their messages.
fn write_related(out: &mut Json, uri: &str, related: &[Related]) {
    out.array("relatedInformation");
    for place in related {
        out.begin_object();
        out.key("location");
        write_location(out, uri, place.range);
        out.text("message", place.message.as_str());
        out.end_object();
    }
    out.end_array();
}

/// Returns whether a schema caused the diagnostic with this range and code, and the range has several lines.
fn is_about_lines(range: Range, code: &str) -> bool
    ensures { result ≡ spec.is_about_lines code.now range }
{
    range.start.line < range.end.line && code.starts_with("schema")
}

/// Returns the range to mark for a diagnostic. If a schema caused the diagnostic and its range has several lines, as
/// for a missing key, returns only the first line of the range.
fn shown_range(diagnostic: &Diagnostic) -> Range
    ensures { result ≡ spec.shown_range (string_bytes diagnostic.now.code) diagnostic.now.range }
{
    let range = diagnostic.range;
    if !is_about_lines(range, diagnostic.code.as_str()) {
        return range;
    }
    Range {
        start: range.start,
        end: Position {
            line: range.start.line.saturating_add(1),
            character: 0,
        },
    }
}

/// Writes a diagnostic of the document `uri`, without what the client does not support.
pub(crate) fn write_diagnostic(out: &mut Json, client: Client, uri: &str, diagnostic: &Diagnostic) {
    out.begin_object();
    out.range("range", shown_range(diagnostic));
    out.number("severity", severity_of(diagnostic.severity));
    if !diagnostic.code.is_empty() {
        out.text("code", diagnostic.code.as_str());
    }
    out.text("source", "toml-span");
    out.text("message", diagnostic.message.as_str());
    if diagnostic.code.as_str() == DEPRECATED {
        // the tag for deprecated code (LSP 3.17, DiagnosticTag)
        out.array("tags");
        out.count(2);
        out.end_array();
    }
    if client.has_related && !diagnostic.related.is_empty() {
        write_related(out, uri, diagnostic.related.as_slice());
    }
    out.end_object();
}

/// Writes a member whose value is a list of diagnostics.
fn write_list(out: &mut Json, name: &str, client: Client, uri: &str, diagnostics: &[Diagnostic]) {
    out.array(name);
    for diagnostic in diagnostics {
        write_diagnostic(out, client, uri, diagnostic);
    }
    out.end_array();
}

/// Returns the diagnostics of an open document and, if it can't be checked against its schema, error lines that say
/// why. Reads no files.
fn diagnosed(
    alloc: Global,
    encoding: Encoding,
    settings: Settings,
    document: &Open,
    lookup: &mut Lookup,
) -> Result<Diagnosed, AllocError>
    ensures { IfOk result (AreChecked lookup.old settings.version (string_bytes document.now.name) encoding
        (string_bytes document.now.text)) }
{
    let (name, text) = (document.name.as_str(), document.text.as_str());
    let (version, chooser) = (settings.version, lookup.chooser());
    if lookup.has_no_schema(alloc, name, text)? {
        let made = diagnostics_without_schema(alloc, encoding, version, name, text)?;
        return Ok(made);
    }
    let made = diagnostics(alloc, encoding, version, chooser, name, text, lookup)?;
    Ok(made)
}

/// Adds `complaint`, error lines about `document` and its schema, to `notices`. Does nothing if `complaint` is empty,
/// or if it equals the last complaint that was shown for this document.
fn show_complaint(
    document: &mut Open,
    notices: &mut String,
    complaint: String,
) -> Result<(), AllocError> {
    if complaint.is_empty() || complaint == document.complaint {
        return Ok(());
    }
    notices.push_str(complaint.as_str())?;
    document.complaint = complaint;
    Ok(())
}

/// Returns a diagnostic without related locations.
fn plain_diagnostic(
    alloc: Global,
    range: Range,
    severity: Severity,
    code: &str,
    message: &str,
) -> Result<Diagnostic, AllocError> {
    Ok(Diagnostic {
        range,
        severity,
        code: String::from_str(alloc, code)?,
        message: String::from_str(alloc, message)?,
        related: Vec::new(alloc),
    })
}

/// Appends a diagnostic at the schema that a document names, if the schema can't be used.
fn push_schema_fault(
    alloc: Global,
    encoding: Encoding,
    document: &Open,
    found: &mut Vec<Diagnostic>,
) -> Result<(), AllocError>
    ensures { OnOk result (spec.Adds found.old.items found.new.items) }
{
    let text = document.text.as_str();
    let Some(directive) = directive_of(text) else {
        return Ok(());
    };
    if document.schema_fault.is_empty() {
        return Ok(());
    }
    let range = Range {
        start: position_at(encoding, text, directive.span.start),
        end: position_at(encoding, text, directive.span.end),
    };
    let message = document.schema_fault.as_str();
    found.push(plain_diagnostic(alloc, range, Severity::Error, "", message)?)?;
    Ok(())
}

/// Returns a severity as it is if warnings are errors.
fn deny(severity: Severity) -> Severity
    ensures { result ≡ spec.deny severity }
{
    match severity {
        Severity::Error | Severity::Warning => Severity::Error,
        Severity::Note => Severity::Note,
    }
}

/// Turns warnings into errors.
#[tactic(auto, using(crate::proofs::ListLemmas::set_one))]
fn deny_warnings(diagnostics: &mut Vec<Diagnostic>)
    ensures { diagnostics.new.items ≡ map spec.denied diagnostics.old.items }
{
    for index in 0..diagnostics.len() {
        let severity = diagnostics[index].severity;
        diagnostics[index].severity = deny(severity);
    }
}

/// Turns warnings into errors if `denies` is set.
fn deny_if(denies: bool, diagnostics: &mut Vec<Diagnostic>)
    ensures { diagnostics.new.items ≡ spec.denied_if denies diagnostics.old.items }
{
    if denies {
        deny_warnings(diagnostics);
    }
}

/// Returns whether warnings are errors.
fn denies_warnings(settings: Settings) -> bool
    ensures { result ≡ denies_in settings.project }
{
    match settings.project {
        Some(project) => project.deny_warnings.value,
        None => false,
    }
}

/// Returns what is shown of an open document: the diagnostics of `diagnosed`, and that of `push_schema_fault`. Warnings
/// are errors if the configuration file of the document says so. Also returns the complaint of `diagnosed`.
fn shown(
    alloc: Global,
    encoding: Encoding,
    document: &Open,
    lookup: &mut Lookup,
) -> Result<(Findings, String), AllocError>
    ensures { IfOk result (λ found. AreShown lookup.old document.now encoding found.0) }
{
    let Diagnosed {
        mut diagnostics,
        reports,
        complaint,
    } = diagnosed(alloc, encoding, document.settings, document, lookup)?;
    push_schema_fault(alloc, encoding, document, &mut diagnostics)?;
    deny_if(denies_warnings(document.settings), &mut diagnostics);
    let found = Findings {
        diagnostics,
        reports,
    };
    Ok((found, complaint))
}

/// Checks an open document against the schemas in `lookup`. If it can't be checked against its schema, adds error lines
/// to `notices`, as `show_complaint` does. Finds nothing if the configuration file of the document excludes it. Reads
/// no files.
fn checked(
    alloc: Global,
    encoding: Encoding,
    document: &mut Open,
    lookup: &mut Lookup,
    notices: &mut String,
) -> Result<Findings, AllocError>
    ensures { length (string_bytes document.old.text) ≤ 16777216 → document.old.settings.is_excluded ≡ false
        → IfOk result (AreShown lookup.old document.old encoding) }
{
    if is_too_long(document) {
        let range = Range {
            start: FIRST,
            end: FIRST,
        };
        let message = "the file is larger than 16 MiB";
        let made = plain_diagnostic(alloc, range, Severity::Error, "too-long", message)?;
        return Ok(Findings {
            diagnostics: vec![in alloc; made]?,
            reports: Vec::new(alloc),
        });
    }
    if document.settings.is_excluded {
        return Ok(Findings {
            diagnostics: Vec::new(alloc),
            reports: Vec::new(alloc),
        });
    }
    let (found, complaint) = shown(alloc, encoding, document, lookup)?;
    show_complaint(document, notices, complaint)?;
    Ok(found)
}

/// Checks the open document `uri`, as `checked` does, unless its text has not changed and no schema has been read since
/// it was checked. Reads no files.
pub(crate) fn check_once(alloc: Global, state: &mut State, uri: &str) -> Result<(), AllocError> {
    let Some(open) = state.documents.get_mut(uri) else {
        return Ok(());
    };
    if open.checked_with == Some(state.schemas_read) {
        return Ok(());
    }
    let folder = state
        .folders
        .folder_of_mut(open.name.as_str(), open.schemas.as_str());
    let (encoding, lookup) = (state.encoding, &mut folder.lookup);
    open.found = checked(alloc, encoding, open, lookup, &mut state.notices)?;
    open.checked_with = Some(state.schemas_read);
    Ok(())
}

/// Writes the diagnostics of the open document `uri` as the answer to a request, as `check_once` finds them. Returns
/// whether the document is open. If it is not, writes nothing.
pub(crate) fn write_report(
    alloc: Global,
    state: &mut State,
    uri: &str,
    out: &mut Json,
) -> Result<bool, AllocError> {
    check_once(alloc, state, uri)?;
    let Some(open) = state.documents.get(uri) else {
        return Ok(false);
    };
    out.begin_object();
    out.text("kind", "full");
    write_list(
        out,
        "items",
        state.client,
        uri,
        open.found.diagnostics.as_slice(),
    );
    out.end_object();
    Ok(true)
}

/// Returns the notification with the diagnostics of a document.
pub(crate) fn published(
    alloc: Global,
    client: Client,
    uri: &str,
    version: Option<i64>,
    diagnostics: &[Diagnostic],
) -> ServerCall {
    let mut out = Json::new(alloc);
    out.begin_object();
    out.text("uri", uri);
    if let Some(version) = version {
        out.key("version");
        out.integer(version);
    }
    write_list(&mut out, "diagnostics", client, uri, diagnostics);
    out.end_object();
    ServerCall::new(None, "textDocument/publishDiagnostics", out)
}

/// Appends the notification with the diagnostics of the open document `uri`, as `check_once` finds them. Does nothing
/// if the document is not open, or if the client requests diagnostics itself.
pub(crate) fn publish(
    alloc: Global,
    state: &mut State,
    uri: &str,
    out: &mut Outbox,
) -> Result<(), AllocError> {
    if state.client.asks_diagnostics {
        return Ok(());
    }
    check_once(alloc, state, uri)?;
    if let Some(open) = state.documents.get(uri) {
        let found = open.found.diagnostics.as_slice();
        out.add(published(alloc, state.client, uri, open.version, found));
    }
    Ok(())
}
