//! Keeps the open documents as they are in the editor.
ghost use Rattle.std.specs.Prelude.{◌≡◌, IfOk, fold, string_bytes};
ghost use Rattle.toml_span_lsp.specs.Sync as spec;

use crate::configuration::check_all;
use crate::incoming::{member, range_of, text_in};
use crate::outgoing::{Outbox, warning};
use crate::projects::is_configuration;
use crate::publish::{publish, published};
use crate::schemas::read_schema;
use crate::state::{Findings, Open, State};
use crate::uris::name_of;
use json::Value;
use std::alloc::{AllocError, Global};
use toml_span_editor::changes::changed;
use toml_span_editor::positions::{Encoding, Range};
use toml_span_lookup::disk::Disk;

/// The notification that adds a message to the client's log.
const LOG: &str = "window/logMessage";

/// A change of a text.
#[derive(Clone, Copy)]
struct TextChange<'v> {
    /// The range to replace, or `None` to replace the whole text.
    range: Option<Range>,
    text: &'v str,
}

/// Returns the version of the document in a notification, or `None` if the notification has none.
fn version_of(params: &Value<'_>) -> Option<i64> {
    member(params, &["textDocument", "version"])?.as_i64()
}

/// Returns the path of the folder that is open in the editor, or of the first of several folders. Returns an empty text
/// if there is none.
fn root_of(state: &State) -> &str {
    match state.roots.first() {
        Some(path) => path.as_str(),
        None => "",
    }
}

/// Stores the text and the version of an open document under its URI in `state.documents`.
fn store(
    alloc: Global,
    state: &mut State,
    uri: &str,
    text: String,
    version: Option<i64>,
) -> Result<(), AllocError> {
    let name = name_of(alloc, root_of(state), uri)?;
    let uri = String::from_str(alloc, uri)?;
    let revision = state.next_number();
    let open = Open {
        text,
        version,
        settings: state.settings,
        schemas: String::new(alloc),
        revision,
        name,
        complaint: String::new(alloc),
        schema_fault: String::new(alloc),
        address: String::new(alloc),
        is_pending: false,
        found: Findings {
            diagnostics: Vec::new(alloc),
            reports: Vec::new(alloc),
        },
        checked_with: None,
        tokens: None,
    };
    state.documents.insert(uri, open)?;
    Ok(())
}

/// Opens a document, reads its schema, and appends the notification with its diagnostics, as `publish` does. If the
/// parameters are wrong, only appends a warning.
pub(crate) fn open<D: Disk>(
    alloc: Global,
    state: &mut State,
    disk: &mut D,
    params: &Value<'_>,
    out: &mut Outbox,
) -> Result<(), AllocError> {
    let uri = text_in(params, &["textDocument", "uri"]);
    let text = text_in(params, &["textDocument", "text"]);
    let (Some(uri), Some(text)) = (uri, text) else {
        let message = "didOpen: `textDocument` must have a `uri` and a `text`";
        out.add(warning(alloc, LOG, message));
        return Ok(());
    };
    store(
        alloc,
        state,
        uri,
        String::from_str(alloc, text)?,
        version_of(params),
    )?;
    read_schema(alloc, state, disk, uri)?;
    publish(alloc, state, uri, out)
}

/// Reads changes. Returns `None` if one is not valid.
fn changes_in<'v>(
    alloc: Global,
    changes: &'v [Value<'_>],
) -> Result<Option<Vec<TextChange<'v>>>, AllocError> {
    let mut read = Vec::new(alloc);
    for change in changes {
        let Some(text) = text_in(change, &["text"]) else {
            return Ok(None);
        };
        let range = match change.get("range") {
            None | Some(Value::Null) => None,
            Some(range) => match range_of(range) {
                Some(range) => Some(range),
                None => return Ok(None),
            },
        };
        read.push(TextChange { range, text })?;
    }
    Ok(Some(read))
}

/// Returns `text` after all the changes, each of which is made in the text that those before it left.
fn applied(
    alloc: Global,
    encoding: Encoding,
    text: &str,
    changes: &[TextChange<'_>],
) -> Result<String, AllocError>
    ensures { IfOk result (λ made. string_bytes made ≡ fold (spec.after encoding) text.now changes.now) }
{
    let mut made = String::from_str(alloc, text)?;
    for change in changes {
        made = changed(alloc, encoding, made.as_str(), change.range, change.text)?;
    }
    Ok(made)
}

/// Returns the text of the open document `uri` after the changes in a notification. Returns `None` if the document is
/// not open, or if the changes are missing or not valid.
fn new_text(
    alloc: Global,
    state: &State,
    uri: &str,
    params: &Value<'_>,
) -> Result<Option<String>, AllocError> {
    let changes = params.get("contentChanges");
    let (Some(open), Some(Value::Array(changes))) = (state.documents.get(uri), changes) else {
        return Ok(None);
    };
    let text = open.text.as_str();
    match changes_in(alloc, changes.as_slice())? {
        Some(read) => Ok(Some(applied(alloc, state.encoding, text, read.as_slice())?)),
        None => Ok(None),
    }
}

/// Changes a document, whose diagnostics are then pending (see `settle`). If the document is not open or a change is
/// not valid, changes nothing and appends a warning.
pub(crate) fn change(
    alloc: Global,
    state: &mut State,
    params: &Value<'_>,
    out: &mut Outbox,
) -> Result<(), AllocError> {
    let Some(uri) = text_in(params, &["textDocument", "uri"]) else {
        out.add(warning(alloc, LOG, "didChange: `textDocument` must have a `uri`"));
        return Ok(());
    };
    let new = new_text(alloc, state, uri, params)?;
    let revision = state.next_number();
    let (Some(open), Some(text)) = (state.documents.get_mut(uri), new) else {
        let message = "didChange: the document is not open, or a change is not valid";
        out.add(warning(alloc, LOG, message));
        return Ok(());
    };
    open.text = text;
    open.version = version_of(params);
    open.revision = revision;
    open.checked_with = None;
    open.is_pending = true;
    state.has_pending = true;
    Ok(())
}

/// Carries out the notification that a document was saved: reads its schema again if the schema has changed, and
/// appends the notification with the document's diagnostics, as `publish` does. If the document is a configuration
/// file, does so for all documents.
pub(crate) fn save<D: Disk>(
    alloc: Global,
    state: &mut State,
    disk: &mut D,
    params: &Value<'_>,
    out: &mut Outbox,
) -> Result<(), AllocError> {
    match text_in(params, &["textDocument", "uri"]) {
        Some(uri) if is_configuration(uri) => check_all(alloc, state, disk, out),
        Some(uri) => {
            read_schema(alloc, state, disk, uri)?;
            publish(alloc, state, uri, out)
        }
        None => Ok(()),
    }
}

/// Closes a document. If the document was open and the client does not request diagnostics itself, appends the
/// notification that there are no diagnostics.
pub(crate) fn close(alloc: Global, state: &mut State, params: &Value<'_>, out: &mut Outbox) {
    let Some(uri) = text_in(params, &["textDocument", "uri"]) else {
        return;
    };
    if state.documents.remove(uri).is_some() && !state.client.asks_diagnostics {
        out.add(published(alloc, state.client, uri, None, &[]));
    }
}
