//! Answers `initialize`: stores the capabilities of the client, and writes those of the server.
use crate::configuration::{settings_in, use_options};
use crate::folders::{folder_path, push_paths};
use crate::incoming::text_in;
use crate::outgoing::Json;
use crate::settings::AllSettings;
use crate::state::{Client, State};
use json::Value;
use std::alloc::{AllocError, Global};
use toml_span_editor::positions::Encoding;

/// The capabilities of the server, each with its value as JSON, except for the code units in which positions are
/// counted. Each document that is opened, changed, saved or closed is to be reported, and changes as ranges with new
/// text. The types of semantic tokens are in the order of their numbers.
const CAPABILITIES: [(&str, &str); 17] = [
    (
        "textDocumentSync",
        r#"{"openClose":true,"change":2,"save":true}"#,
    ),
    ("hoverProvider", "true"),
    ("definitionProvider", "true"),
    ("referencesProvider", "true"),
    ("documentHighlightProvider", "true"),
    ("documentSymbolProvider", "true"),
    ("documentFormattingProvider", "true"),
    ("documentRangeFormattingProvider", "true"),
    ("foldingRangeProvider", "true"),
    ("selectionRangeProvider", "true"),
    (
        "completionProvider",
        r#"{"triggerCharacters":["=",".","[","\"","{",","]}"#,
    ),
    ("documentLinkProvider", "{}"),
    ("renameProvider", r#"{"prepareProvider":true}"#),
    (
        "codeActionProvider",
        r#"{"codeActionKinds":["quickfix","refactor.rewrite","source.fixAll"]}"#,
    ),
    (
        "diagnosticProvider",
        r#"{"interFileDependencies":false,"workspaceDiagnostics":false}"#,
    ),
    (
        "semanticTokensProvider",
        r#"{"legend":{"tokenTypes":["comment","type","property","string","number","keyword"],
            "tokenModifiers":[]},"range":true,"full":{"delta":true}}"#,
    ),
    (
        "workspace",
        r#"{"workspaceFolders":{"supported":true,"changeNotifications":true}}"#,
    ),
];

/// The version of the server.
const VERSION: &str = "0.7.2";

/// Returns the capability of the client at `path`, as `textDocument/hover`, or `None` if the client does not announce
/// it. `params` are the parameters of `initialize`.
fn capability<'v, 'j>(params: &'v Value<'j>, path: &str) -> Option<&'v Value<'j>> {
    let mut found = params.get("capabilities")?;
    for name in path.split('/') {
        found = found.get(name)?;
    }
    Some(found)
}

/// Returns whether the capability at `path` is `true`. `params` are the parameters of `initialize`.
fn can(params: &Value<'_>, path: &str) -> bool {
    capability(params, path).and_then(|said| said.as_bool()) == Some(true)
}

/// Returns whether the capability at `path` is a list with the element `wanted`. `params` are the parameters of
/// `initialize`.
fn offers(params: &Value<'_>, path: &str, wanted: &str) -> bool {
    match capability(params, path) {
        Some(Value::Array(items)) => items.iter().any(|item| item.as_str() == Some(wanted)),
        _ => false,
    }
}

/// Returns the capabilities of the client, from the parameters of `initialize`. There are none in `Value::Null`.
pub(crate) fn client_of(params: &Value<'_>) -> Client {
    Client {
        asks_diagnostics: capability(params, "textDocument/diagnostic").is_some(),
        refreshes_diagnostics: can(params, "workspace/diagnostics/refreshSupport"),
        has_settings: can(params, "workspace/configuration"),
        registers_settings: can(
            params,
            "workspace/didChangeConfiguration/dynamicRegistration",
        ),
        has_snippets: can(
            params,
            "textDocument/completion/completionItem/snippetSupport",
        ),
        has_literals: capability(
            params,
            "textDocument/codeAction/codeActionLiteralSupport",
        ).is_some(),
        has_markdown_hovers: offers(params, "textDocument/hover/contentFormat", "markdown"),
        has_markdown_items: offers(
            params,
            "textDocument/completion/completionItem/documentationFormat",
            "markdown",
        ),
        has_nested_symbols: can(
            params,
            "textDocument/documentSymbol/hierarchicalDocumentSymbolSupport",
        ),
        has_related: can(params, "textDocument/publishDiagnostics/relatedInformation")
            || can(params, "textDocument/diagnostic/relatedInformation"),
        has_versioned_edits: can(params, "workspace/workspaceEdit/documentChanges"),
        registers_files: can(
            params,
            "workspace/didChangeWatchedFiles/dynamicRegistration",
        ),
    }
}

/// Returns the code units in which positions are counted: those of UTF-8 if the client offers them, those of UTF-32 if
/// it offers them and not those of UTF-16, otherwise those of UTF-16. `params` are the parameters of `initialize`.
fn encoding_of(params: &Value<'_>) -> Encoding {
    let offered = "general/positionEncodings";
    if offers(params, offered, "utf-8") {
        Encoding::Utf8
    } else if offers(params, offered, "utf-32") && !offers(params, offered, "utf-16") {
        Encoding::Utf32
    } else {
        Encoding::Utf16
    }
}

/// Stores in `state` the capabilities, the folders and the settings of the client, from the parameters of `initialize`.
pub(crate) fn store_client(
    alloc: Global,
    state: &mut State,
    params: &Value<'_>,
) -> Result<(), AllocError> {
    state.encoding = encoding_of(params);
    state.client = client_of(params);
    let mut roots = Vec::new(alloc);
    push_paths(alloc, params.get("workspaceFolders"), &mut roots)?;
    if roots.is_empty() {
        let uri = text_in(params, &["rootUri"]).unwrap_or("");
        if let Some(path) = folder_path(alloc, uri)? {
            roots.push(path)?;
        }
    }
    state.roots = roots;
    let settings = match params.get("initializationOptions") {
        Some(options) => settings_in(alloc, state, options)?,
        None => AllSettings::usual(alloc),
    };
    state.initial = settings.clone()?;
    state.settings = settings.settings;
    use_options(alloc, state, settings.options)
}

/// Writes the answer to `initialize`.
pub(crate) fn write_capabilities(alloc: Global, encoding: Encoding, out: &mut Json) {
    let units = match encoding {
        Encoding::Utf8 => "utf-8",
        Encoding::Utf16 => "utf-16",
        Encoding::Utf32 => "utf-32",
    };
    out.begin_object();
    out.object("capabilities");
    out.text("positionEncoding", units);
    for (name, value) in &CAPABILITIES {
        out.key(*name);
        out.json(alloc, *value);
    }
    out.end_object();
    out.object("serverInfo");
    out.text("name", "toml-span");
    out.text("version", VERSION);
    out.end_object();
    out.end_object();
}
