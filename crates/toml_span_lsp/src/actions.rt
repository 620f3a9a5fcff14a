//! Code actions: repairs of diagnostics, and conversions of tables and arrays.
ghost use Rattle.std.specs.Prelude.{IfSome};
ghost use Rattle.json.specs.Value.{value_view};
ghost use Rattle.toml_span_lsp.specs.Params.{IsAskedRange};

use crate::incoming::{member, range_of};
use crate::methods::Request;
use crate::outgoing::{Json, write_workspace_edit};
use crate::publish::{check_once, write_diagnostic};
use crate::state::{Open, State};
use json::Value;
use std::alloc::AllocError;
use toml_span_editor::conversions::{OFFERS, converting};
use toml_span_editor::diagnostics::{Diagnostic, all_repairs, missing_key, repairs};
use toml_span_editor::document::Document;
use toml_span_editor::edits::Edit;
use toml_span_editor::missing::insertions;
use toml_span_editor::positions::offset_at;
use toml_span_lex::span::Span;
use toml_span_lookup::lookup::Lookup;
use toml_span_report::Report;
use toml_span_schema::Guide;

/// The kind of an action that repairs one diagnostic.
const QUICK_FIX: &str = "quickfix";

/// The kind of an action that makes the edits of `all_repairs`.
const FIX_ALL: &str = "source.fixAll";

/// The kind of an action that converts a table or an array to another form.
const REWRITE: &str = "refactor.rewrite";

/// The number for a request for actions that the user did not make (LSP 3.17, CodeActionTriggerKind).
const AUTOMATIC: u64 = 2;

/// Returns whether the kind of action `kind` is `wanted` or a sub-kind of `wanted`, as `source.fixAll` is a sub-kind of
/// `source`. Every kind is a sub-kind of the empty kind.
fn is_kind(kind: &str, wanted: &str) -> bool {
    match kind.strip_prefix(wanted) {
        Some(rest) => rest.is_empty() || wanted.is_empty() || rest.starts_with('.'),
        None => false,
    }
}

/// Returns whether a client wants actions of a kind: the request lists the kind or a kind that contains it, or has no
/// list of kinds.
fn is_wanted(params: &Value<'_>, kind: &str) -> bool {
    match member(params, &["context", "only"]) {
        Some(Value::Array(kinds)) => kinds.iter().any(|wanted| wanted
            .as_str()
            .map_or(false, |wanted| is_kind(kind, wanted))),
        _ => true,
    }
}

/// Returns whether to list actions of a kind that is not about a diagnostic at the cursor: the client wants the kind
/// (see `is_wanted`), and the user made the request or the client lists kinds.
fn is_asked_for(params: &Value<'_>, kind: &str) -> bool {
    let trigger = member(params, &["context", "triggerKind"]);
    let is_automatic = trigger.and_then(|number| number.as_u64()) == Some(AUTOMATIC);
    let only = member(params, &["context", "only"]);
    is_wanted(params, kind) && (!is_automatic || matches!(only, Some(Value::Array(_))))
}

/// Writes an action of this kind that makes these edits. If the edits repair a diagnostic, names the diagnostic.
fn write_action(
    request: &Request<'_, '_, '_>,
    title: &str,
    kind: &str,
    repaired: Option<&Diagnostic>,
    is_preferred: bool,
    edits: &[Edit],
    out: &mut Json,
) {
    out.begin_object();
    out.text("title", title);
    out.text("kind", kind);
    if let Some(diagnostic) = repaired {
        out.array("diagnostics");
        write_diagnostic(out, request.client, request.uri, diagnostic);
        out.end_array();
    }
    out.flag("isPreferred", is_preferred);
    out.key("edit");
    write_workspace_edit(request, edits, out);
    out.end_object();
}

/// Writes an action for each possible conversion of the table or array at the offset `at`.
fn write_conversions(
    request: &Request<'_, '_, '_>,
    document: &Document<'_>,
    at: usize,
    out: &mut Json,
) -> Result<(), AllocError> {
    for offer in &OFFERS {
        if let Some(made) = converting(request.alloc, document, offer.conversion, at)? {
            let edits = made.edits.as_slice();
            write_action(request, offer.title, REWRITE, None, false, edits, out);
        }
    }
    Ok(())
}

/// Writes an action for each repair of one of `reports`, those on the document, that touches `span`, and one for each
/// missing key of a table there that `guide`, the document's schema, requires.
fn write_quick_fixes(
    request: &Request<'_, '_, '_>,
    document: Option<&Document<'_>>,
    guide: Option<&Guide>,
    reports: &[Report],
    span: Span,
    out: &mut Json,
) -> Result<(), AllocError> {
    let (alloc, table) = (request.alloc, request.table);
    for repair in &repairs(alloc, table, reports, span)? {
        let (title, found) = (repair.title.as_str(), Some(&repair.diagnostic));
        let (is_safe, edits) = (repair.is_safe, repair.edits.as_slice());
        write_action(request, title, QUICK_FIX, found, is_safe, edits, out);
    }
    let (Some(document), Some(guide)) = (document, guide) else {
        return Ok(());
    };
    if !reports.iter().any(|report| is_of_schema(report)) {
        return Ok(());
    }
    for made in &insertions(alloc, guide, document, span)? {
        let found = missing_key(alloc, table, reports, made.name.as_str(), made.place)?;
        let (title, edits) = (made.title.as_str(), made.edits.as_slice());
        write_action(request, title, QUICK_FIX, found.as_ref(), false, edits, out);
    }
    Ok(())
}

/// Returns whether a report comes from a schema.
fn is_of_schema(report: &Report) -> bool {
    report.code.as_str().starts_with("schema")
}

/// Writes an action for each repair of a diagnostic of the open document that touches `span`, one for each missing key
/// of a table there, and if the client asks for it (see `is_asked_for`), one with the edits of `all_repairs`, if there
/// are any. Leaves out kinds that the client does not want.
fn write_fixes(
    request: &Request<'_, '_, '_>,
    document: Option<&Document<'_>>,
    open: &Open,
    lookup: &Lookup,
    span: Span,
    out: &mut Json,
) -> Result<(), AllocError> {
    let reports = open.found.reports.as_slice();
    let (alloc, name, text) = (request.alloc, open.name.as_str(), open.text.as_str());
    if is_wanted(request.params, QUICK_FIX) {
        let guide = lookup.guide_of(alloc, name, text)?;
        write_quick_fixes(request, document, guide, reports, span, out)?;
    }
    if is_asked_for(request.params, FIX_ALL) && reports.iter().any(|report| !is_of_schema(report)) {
        let edits = all_repairs(alloc, request.table.text, request.settings.version, name)?;
        if !edits.is_empty() {
            let title = "Apply all safe fixes";
            write_action(request, title, FIX_ALL, None, false, edits.as_slice(), out);
        }
    }
    Ok(())
}

/// Writes a list of actions: the fixes of `write_fixes`, and if the client asks for them (see `is_asked_for`), one
/// for each possible conversion of the table or array at the start of `span`. `document` is `None` if the text has
/// errors. Writes none for a client that only supports commands. Checks the document unless it has been checked. Reads
/// no files.
pub(crate) fn write_actions(
    request: &Request<'_, '_, '_>,
    document: Option<&Document<'_>>,
    state: &mut State,
    span: Span,
    out: &mut Json,
) -> Result<(), AllocError> {
    out.begin_array();
    if request.client.has_literals {
        check_once(request.alloc, state, request.uri)?;
        if let Some(open) = state.documents.get(request.uri) {
            let (name, key) = (open.name.as_str(), open.schemas.as_str());
            let lookup = &state.folders.folder_of(name, key).lookup;
            write_fixes(request, document, open, lookup, span, out)?;
        }
        if let Some(document) = document {
            if is_asked_for(request.params, REWRITE) {
                write_conversions(request, document, span.start, out)?;
            }
        }
    }
    out.end_array();
    Ok(())
}

/// Returns the range of a request as a span, or `None` if the request has no valid range.
pub(crate) fn span_of(request: &Request<'_, '_, '_>) -> Option<Span>
    ensures { IfSome result (IsAskedRange (value_view request.now.params.now) request.now.table.now.encoding
        request.now.table.now.text.now) }
{
    let range = range_of(request.params.get("range")?)?;
    let table = request.table;
    let start = offset_at(table.encoding, table.text, range.start);
    let end = offset_at(table.encoding, table.text, range.end);
    Some(Span {
        start: start.min(end),
        end: start.max(end),
    })
}
