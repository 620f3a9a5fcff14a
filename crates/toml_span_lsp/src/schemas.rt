//! Reads the schemas of open documents, again where documents name others or files have changed.
use crate::outgoing::Outbox;
use crate::publish::publish;
use crate::state::{Open, State};
use std::alloc::{AllocError, Global};
use std::collections::BTreeMap;
use toml_span_lookup::directive::directive_of;
use toml_span_lookup::disk::Disk;
use toml_span_lookup::lookup::Lookup;

/// Returns the address of the schema that a text names, or an empty text if it names none.
fn address_in(text: &str) -> &str {
    match directive_of(text) {
        Some(directive) => directive.address,
        None => "",
    }
}

/// Returns error lines without `error: ` and the last line end.
fn plain_lines(alloc: Global, complaint: &str) -> Result<String, AllocError> {
    let mut out = String::new(alloc);
    for line in complaint.split('\n') {
        if !line.is_empty() {
            if !out.is_empty() {
                out.push_str("\n")?;
            }
            out.push_str(line.strip_prefix("error: ").unwrap_or(line))?;
        }
    }
    Ok(out)
}

/// Returns lines that say why the schema at `path`, which a document names, can't be used, or an empty text.
/// `complaint` are error lines about the schema if it has just been read. Keeps the lines in `faults` for other
/// documents with this schema.
fn fault_of(
    alloc: Global,
    faults: &mut BTreeMap<String, String>,
    path: String,
    complaint: &str,
) -> Result<String, AllocError> {
    if !complaint.is_empty() {
        let lines = plain_lines(alloc, complaint)?;
        let kept = lines.clone()?;
        faults.insert(path, kept)?;
        return Ok(lines);
    }
    match faults.get(path.as_str()) {
        Some(lines) => lines.clone(),
        None => Ok(String::new(alloc)),
    }
}

/// Returns the path of the schema that an open document names. Returns `None` if it names none, if the schema is on a
/// server and has no local copy, or if `has_schema` says that the settings name a schema for all documents.
fn named_path(
    alloc: Global,
    lookup: &Lookup,
    has_schema: bool,
    open: &Open,
) -> Result<Option<String>, AllocError> {
    let address = address_in(open.text.as_str());
    if address.is_empty() || has_schema {
        return Ok(None);
    }
    lookup.path_for(alloc, open.name.as_str(), address)
}

/// Stores the settings for an open document, and the key of its schemas, as its configuration file and the settings of
/// the client say. Reads the configuration file, unless it has been read and has not changed since.
fn configure<D: Disk>(
    alloc: Global,
    state: &mut State,
    disk: &mut D,
    uri: &str,
) -> Result<(), AllocError> {
    let Some(open) = state.documents.get_mut(uri) else {
        return Ok(());
    };
    open.settings = state.settings;
    open.schemas = String::new(alloc);
    let name = open.name.as_str();
    let Some(project) = state
        .projects
        .project_of(alloc, disk, name, &mut state.notices)?
    else {
        return Ok(());
    };
    let (found, is_excluded) = project.settings_for(alloc, name)?;
    open.settings = state.settings.in_project(found, is_excluded);
    if project.is_wrong {
        open.settings.can_format = false;
    }
    let is_named = state.settings.has_schema || directive_of(open.text.as_str()).is_some();
    let schema = project.schema_of(&found, is_named);
    open.schemas = state
        .folders
        .configure(alloc, name, &state.options, project, schema)?;
    Ok(())
}

/// Reads the configuration file of the open document `uri`, and reads and compiles its schema, unless they have been
/// read and have not changed since. If the document names the schema, and it can't be used, stores the reason for a
/// diagnostic. Otherwise, appends errors to `state.notices`. All documents must be checked again.
pub(crate) fn read_schema<D: Disk>(
    alloc: Global,
    state: &mut State,
    disk: &mut D,
    uri: &str,
) -> Result<(), AllocError> {
    configure(alloc, state, disk, uri)?;
    state.schemas_read = state.schemas_read.wrapping_add(1);
    let has_schema = state.settings.has_schema;
    let Some(open) = state.documents.get_mut(uri) else {
        return Ok(());
    };
    let folder = state
        .folders
        .folder_of_mut(open.name.as_str(), open.schemas.as_str());
    let lookup = &mut folder.lookup;
    lookup.refresh(alloc, disk, open.name.as_str(), open.text.as_str())?;
    let complaint = lookup.take_complaint(alloc);
    let found = lookup.guide_of(alloc, open.name.as_str(), open.text.as_str())?;
    let is_usable = found.is_some();
    let path = if is_usable {
        None
    } else {
        named_path(alloc, lookup, has_schema, open)?
    };
    open.schema_fault = match path {
        Some(path) => fault_of(alloc, &mut folder.faults, path, complaint.as_str())?,
        None => {
            state.notices.push_str(complaint.as_str())?;
            String::new(alloc)
        }
    };
    open.address = String::from_str(alloc, address_in(open.text.as_str()))?;
    Ok(())
}

/// Returns the URIs of the documents whose diagnostics are pending.
fn pending(alloc: Global, state: &State) -> Result<Vec<String>, AllocError> {
    let mut uris = Vec::new(alloc);
    for (uri, open) in state.documents.iter() {
        if open.is_pending {
            uris.push(String::from_str(alloc, uri.as_str())?)?;
        }
    }
    Ok(uris)
}

/// Reads the schema of the open document `uri` if the document names another one than when its schema was last read.
fn follow_one<D: Disk>(
    alloc: Global,
    state: &mut State,
    disk: &mut D,
    uri: &str,
) -> Result<(), AllocError> {
    let is_other = match state.documents.get(uri) {
        Some(open) => open.address.as_str() != address_in(open.text.as_str()),
        None => false,
    };
    if is_other {
        read_schema(alloc, state, disk, uri)?;
    }
    Ok(())
}

/// Reads the schemas of the changed documents that name another schema than before.
pub(crate) fn follow<D: Disk>(
    alloc: Global,
    state: &mut State,
    disk: &mut D,
) -> Result<(), AllocError> {
    if !state.has_pending {
        return Ok(());
    }
    for uri in &pending(alloc, state)? {
        follow_one(alloc, state, disk, uri.as_str())?;
    }
    Ok(())
}

/// Does what changes have left to do, once for all changes: reads the schemas of the changed documents that name
/// another schema than before, and appends the notifications with the documents' diagnostics, as `publish` does.
pub(crate) fn settle<D: Disk>(
    alloc: Global,
    state: &mut State,
    disk: &mut D,
    out: &mut Outbox,
) -> Result<(), AllocError> {
    if !state.has_pending {
        return Ok(());
    }
    state.has_pending = false;
    for uri in &pending(alloc, state)? {
        follow_one(alloc, state, disk, uri.as_str())?;
        publish(alloc, state, uri.as_str(), out)?;
        if let Some(open) = state.documents.get_mut(uri.as_str()) {
            open.is_pending = false;
        }
    }
    Ok(())
}
