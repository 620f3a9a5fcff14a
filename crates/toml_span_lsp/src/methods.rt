//! The requests about documents that the server answers.
ghost use Rattle.std.specs.Prelude.{◌≡◌, IfSome};
ghost use Rattle.toml_span_lsp.specs.Methods.{method_name};

use crate::settings::Settings;
use crate::state::Client;
use json::Value;
use std::alloc::Global;
use toml_span_editor::syntax::Syntax;
use toml_span_editor::table::PositionTable;

/// A request about a document.
#[derive(Clone, Copy, PartialEq, Eq)]
pub(crate) enum Method {
    Symbols,
    Folds,
    Selections,
    Highlights,
    References,
    Definition,
    Hover,
    Rename,
    PrepareRename,
    Format,
    FormatRange,
    Actions,
    Complete,
    Tokens,
    TokensInRange,
    TokenChanges,
    Links,
    Diagnose,
}

/// Returns the request about a document that has this name, or `None` if there is no such request.
pub(crate) fn method_named(name: &str) -> Option<Method>
    ensures { IfSome result (λ method. method_name method ≡ name.now) }
{
    match name {
        "textDocument/documentSymbol" => Some(Method::Symbols),
        "textDocument/foldingRange" => Some(Method::Folds),
        "textDocument/selectionRange" => Some(Method::Selections),
        "textDocument/documentHighlight" => Some(Method::Highlights),
        "textDocument/references" => Some(Method::References),
        "textDocument/definition" => Some(Method::Definition),
        "textDocument/hover" => Some(Method::Hover),
        "textDocument/rename" => Some(Method::Rename),
        "textDocument/prepareRename" => Some(Method::PrepareRename),
        "textDocument/formatting" => Some(Method::Format),
        "textDocument/rangeFormatting" => Some(Method::FormatRange),
        "textDocument/codeAction" => Some(Method::Actions),
        "textDocument/completion" => Some(Method::Complete),
        "textDocument/semanticTokens/full" => Some(Method::Tokens),
        "textDocument/semanticTokens/range" => Some(Method::TokensInRange),
        "textDocument/semanticTokens/full/delta" => Some(Method::TokenChanges),
        "textDocument/documentLink" => Some(Method::Links),
        "textDocument/diagnostic" => Some(Method::Diagnose),
        _ => None,
    }
}

/// A request about an open document.
#[derive(Clone, Copy)]
pub(crate) struct Request<'r, 't, 'j> {
    pub alloc: Global,
    pub method: Method,
    /// The URI of the document.
    pub uri: &'r str,
    /// The text of the document, with its positions.
    pub table: &'r PositionTable<'t>,
    /// The pieces and statements of the text, if they are kept.
    pub syntax: Option<&'r Syntax<'t>>,
    pub params: &'r Value<'j>,
    pub settings: Settings,
    pub client: Client,
    /// The version of the document.
    pub version: Option<i64>,
}
