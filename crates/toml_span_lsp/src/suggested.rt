//! Writes completion items.
use crate::methods::Request;
use crate::outgoing::{Json, write_markup};
use std::alloc::AllocError;
use toml_span_editor::completion::{Completion, Suggestion, SuggestionKind};

/// Returns the number for the kind of a suggestion (LSP 3.17, CompletionItemKind).
fn kind_of(kind: SuggestionKind) -> usize {
    match kind {
        SuggestionKind::Key => 10,
        SuggestionKind::Table => 22,
        SuggestionKind::Value => 20,
    }
}

/// Returns the first character of the text by which a suggestion is sorted. Required keys come first, deprecated keys
/// last.
fn rank_of(suggestion: &Suggestion) -> &'static str {
    if suggestion.is_required {
        "0"
    } else if suggestion.is_deprecated {
        "2"
    } else {
        "1"
    }
}

/// Writes the range that a suggestion replaces, and the new text: the snippet if there is one and the client supports
/// snippets, otherwise `suggestion.text`.
fn write_edit(request: &Request<'_, '_, '_>, suggestion: &Suggestion, out: &mut Json) {
    let new = match &suggestion.snippet {
        Some(snippet) if request.client.has_snippets => {
            out.number("insertTextFormat", 2);
            snippet.as_str()
        }
        _ => suggestion.text.as_str(),
    };
    out.object("textEdit");
    out.range("range", request.table.range(suggestion.span));
    out.text("newText", new);
    out.end_object();
}

/// Writes a suggestion, which is at `position` in the list.
fn write_suggestion(
    request: &Request<'_, '_, '_>,
    suggestion: &Suggestion,
    position: usize,
    out: &mut Json,
) -> Result<(), AllocError> {
    let rank = rank_of(suggestion);
    let sort = format!(in request.alloc; "{rank}{position:04}")?;
    out.begin_object();
    out.text("label", suggestion.label.as_str());
    out.number("kind", kind_of(suggestion.kind));
    if !suggestion.detail.is_empty() {
        out.text("detail", suggestion.detail.as_str());
    }
    if !suggestion.documentation.is_empty() {
        let is_markdown = request.client.has_markdown_items;
        out.key("documentation");
        write_markup(
            request.alloc,
            suggestion.documentation.as_str(),
            is_markdown,
            out,
        )?;
    }
    if suggestion.is_deprecated {
        out.flag("deprecated", true);
    }
    out.text("sortText", sort.as_str());
    write_edit(request, suggestion, out);
    out.end_object();
    Ok(())
}

/// Writes a list of completion items.
pub(crate) fn write_items(
    request: &Request<'_, '_, '_>,
    made: &Completion,
    out: &mut Json,
) -> Result<(), AllocError> {
    out.begin_object();
    out.flag("isIncomplete", made.is_incomplete);
    out.array("items");
    for (position, suggestion) in made.suggestions.iter().enumerate() {
        write_suggestion(request, suggestion, position, out)?;
    }
    out.end_array();
    out.end_object();
    Ok(())
}
