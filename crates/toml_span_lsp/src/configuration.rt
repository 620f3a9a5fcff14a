//! Requests the settings of the client, and uses them.
use crate::folders::{Folders, push_paths};
use crate::incoming::{Id, member};
use crate::outgoing::{Json, Outbox, ServerCall};
use crate::publish::publish;
use crate::schemas::read_schema;
use crate::settings::{AllSettings, read_settings};
use crate::state::{Client, State};
use json::Value;
use std::alloc::{AllocError, Global};
use toml_span_lookup::disk::Disk;
use toml_span_lookup::options::Options;

/// The section of the server in the settings of a client.
const SECTION: &str = "toml-span";

/// The id of the request for the settings, and of the registration for their changes.
const SETTINGS: &str = "settings";

/// The registration for changes of the settings.
const SETTINGS_CHANGES: &str = r#"{"id":"settings","method":"workspace/didChangeConfiguration",
    "registerOptions":{"section":"toml-span"}}"#;

/// The registration for changes of files that may be schemas, and of configuration files.
const FILE_CHANGES: &str = r#"{"id":"files","method":"workspace/didChangeWatchedFiles",
    "registerOptions":{"watchers":[
        {"globPattern":"**/*.json"},{"globPattern":"**/{toml-span,.toml-span}.toml"}]}}"#;

/// Returns the request for the settings.
fn settings_request(alloc: Global) -> ServerCall {
    let mut out = Json::new(alloc);
    out.json(alloc, r#"{"items":[{"section":"toml-span"}]}"#);
    ServerCall::new(Some(SETTINGS), "workspace/configuration", out)
}

/// Returns the settings in `value`. Adds a line to `state.notices` if settings are wrong.
pub(crate) fn settings_in(
    alloc: Global,
    state: &mut State,
    value: &Value<'_>,
) -> Result<AllSettings, AllocError> {
    let read = read_settings(alloc, value)?;
    if !read.faults.is_empty() {
        state.notices.push_str(read.faults.as_str())?;
        state.notices.push_str("\n")?;
    }
    Ok(read.all)
}

/// Stores the settings about schemas in `state`, and forgets the schemas that have been read.
pub(crate) fn use_options(
    alloc: Global,
    state: &mut State,
    options: Options,
) -> Result<(), AllocError> {
    state.folders = Folders::at_paths(alloc, state.roots.as_slice(), &options)?;
    state.options = options;
    Ok(())
}

/// Returns `value`, or `None` if it is missing, null or an empty object.
fn not_empty<'v, 'j>(value: Option<&'v Value<'j>>) -> Option<&'v Value<'j>> {
    match value? {
        Value::Null => None,
        Value::Object(members) if members.is_empty() => None,
        _ => value,
    }
}

/// Uses the settings in `value`, or those of `initializationOptions` if `value` has none. Then checks the open
/// documents, as `check_all` does. Does nothing if `value` has no settings and those of `initializationOptions` are in
/// use.
fn change_settings<D: Disk>(
    alloc: Global,
    state: &mut State,
    disk: &mut D,
    value: Option<&Value<'_>>,
    out: &mut Outbox,
) -> Result<(), AllocError> {
    let value = not_empty(value);
    let settings = match value {
        Some(value) => settings_in(alloc, state, value)?,
        None if state.has_later_settings => state.initial.clone()?,
        None => return Ok(()),
    };
    state.has_later_settings = value.is_some();
    state.settings = settings.settings;
    use_options(alloc, state, settings.options)?;
    check_all(alloc, state, disk, out)
}

/// Carries out the notification that folders have been opened or closed in the editor. Then checks the open documents,
/// as `check_all` does.
pub(crate) fn folders_changed<D: Disk>(
    alloc: Global,
    state: &mut State,
    disk: &mut D,
    params: &Value<'_>,
    out: &mut Outbox,
) -> Result<(), AllocError> {
    let mut closed = Vec::new(alloc);
    push_paths(alloc, member(params, &["event", "removed"]), &mut closed)?;
    let mut roots = Vec::new(alloc);
    for path in state.roots.as_slice() {
        if !closed.iter().any(|one| *one == *path) {
            roots.push(path.clone()?)?;
        }
    }
    push_paths(alloc, member(params, &["event", "added"]), &mut roots)?;
    state.roots = roots;
    let options = state.options.clone()?;
    use_options(alloc, state, options)?;
    check_all(alloc, state, disk, out)
}

/// Reads the schemas of the open documents, and appends for each document a notification with its diagnostics, as
/// `publish` does. If the client requests diagnostics itself, appends the request to request them again, if the client
/// supports it.
pub(crate) fn check_all<D: Disk>(
    alloc: Global,
    state: &mut State,
    disk: &mut D,
    out: &mut Outbox,
) -> Result<(), AllocError> {
    let mut uris = Vec::new(alloc);
    for (uri, _) in state.documents.iter() {
        uris.push(String::from_str(alloc, uri.as_str())?)?;
    }
    for uri in &uris {
        read_schema(alloc, state, disk, uri.as_str())?;
    }
    for uri in &uris {
        publish(alloc, state, uri.as_str(), out)?;
    }
    if state.client.asks_diagnostics && state.client.refreshes_diagnostics {
        let mut params = Json::new(alloc);
        params.json(alloc, "{}");
        out.add(ServerCall::new(Some("refresh"), "workspace/diagnostic/refresh", params));
    }
    Ok(())
}

/// Appends the request to report changes of the settings, of files that may be schemas, and of configuration files, and
/// the request for the settings. Leaves out what the client does not support.
pub(crate) fn initialized(alloc: Global, client: Client, out: &mut Outbox) {
    if client.registers_settings || client.registers_files {
        let mut params = Json::new(alloc);
        params.begin_object();
        params.array("registrations");
        if client.registers_settings {
            params.json(alloc, SETTINGS_CHANGES);
        }
        if client.registers_files {
            params.json(alloc, FILE_CHANGES);
        }
        params.end_array();
        params.end_object();
        let (id, method) = (Some("registration"), "client/registerCapability");
        out.add(ServerCall::new(id, method, params));
    }
    if client.has_settings {
        out.add(settings_request(alloc));
    }
}

/// Carries out the notification that the settings have changed. Appends the request for the settings if the client
/// supports it. Otherwise, uses the settings in the notification, as `change_settings` does.
pub(crate) fn settings_changed<D: Disk>(
    alloc: Global,
    state: &mut State,
    disk: &mut D,
    params: &Value<'_>,
    out: &mut Outbox,
) -> Result<(), AllocError> {
    if state.client.has_settings {
        out.add(settings_request(alloc));
        return Ok(());
    }
    match params.get("settings") {
        Some(settings @ (Value::Object(_) | Value::Null)) => {
            change_settings(alloc, state, disk, settings.get(SECTION), out)
        }
        _ => Ok(()),
    }
}

/// Uses the settings in a response to the request for the settings, as `change_settings` does. Ignores other responses,
/// and a result that is not a list or is empty.
pub(crate) fn settings_came<D: Disk>(
    alloc: Global,
    state: &mut State,
    disk: &mut D,
    id: Id<'_>,
    answer: Option<&Value<'_>>,
    out: &mut Outbox,
) -> Result<(), AllocError> {
    let Id::Text(SETTINGS) = id else {
        return Ok(());
    };
    match answer.and_then(|answer| answer.at(0)) {
        Some(settings) => change_settings(alloc, state, disk, Some(settings), out),
        None => Ok(()),
    }
}
