//! Writes semantic tokens: of a document, of a range, and as changes of an earlier answer.
use crate::incoming::text_in;
use crate::methods::{Method, Request};
use crate::outgoing::Json;
use crate::state::{SentTokens, State};
use std::alloc::AllocError;
use toml_span_editor::positions::{Encoding, Position, position_at};
use toml_span_editor::syntax::Syntax;
use toml_span_editor::tokens::{Meaning, tokens};
use toml_span_lex::span::Span;

/// Returns the number of a token's type: the position of the type in `TOKEN_TYPES`.
fn token_type(meaning: Meaning) -> u32 {
    match meaning {
        Meaning::Comment => 0,
        Meaning::Table => 1,
        Meaning::Key => 2,
        Meaning::String => 3,
        Meaning::Number => 4,
        Meaning::Boolean => 5,
    }
}

/// Returns `number`, or the largest `u32` if it is larger.
fn cut(number: usize) -> u32 {
    u32::try_from(number).unwrap_or(u32::MAX)
}

/// Returns the position of the end of a part of a text, relative to its start.
fn moved(encoding: Encoding, text: &str, from: usize, to: usize) -> Position {
    let part = text.get(from..to.max(from)).unwrap_or("");
    position_at(encoding, part, part.len())
}

/// Returns the tokens of a text that touch `span`, each as five numbers (LSP 3.17, SemanticTokens). The numbers are the
/// line relative to the previous token, the start (relative to the previous token if that is on the same line), the
/// length, the type, and 0 for no modifiers. Takes time linear in the length of the text.
fn token_numbers(request: &Request<'_, '_, '_>, span: Span) -> Result<Vec<u32>, AllocError> {
    let (encoding, text) = (request.table.encoding, request.table.text);
    let alloc = request.alloc;
    let tokens = match request.syntax {
        Some(syntax) => tokens(alloc, syntax)?,
        None => tokens(alloc, &Syntax::new(alloc, text)?)?,
    };
    let mut numbers = Vec::new(alloc);
    let mut last = 0;
    for token in &tokens {
        let Span { start, end } = token.span;
        if end < span.start || start > span.end {
            continue;
        }
        let before = moved(encoding, text, last, start);
        numbers.push(cut(before.line))?;
        numbers.push(cut(before.character))?;
        numbers.push(cut(moved(encoding, text, start, end).character))?;
        numbers.push(token_type(token.meaning))?;
        numbers.push(0)?;
        last = start;
    }
    Ok(numbers)
}

/// Writes a member whose value is a list of numbers.
fn write_numbers(out: &mut Json, name: &str, numbers: &[u32]) {
    out.array(name);
    for number in numbers {
        out.count(*number as usize);
    }
    out.end_array();
}

/// Writes the semantic tokens of a document that touch `span`.
pub(crate) fn write_tokens_in(
    request: &Request<'_, '_, '_>,
    span: Span,
    out: &mut Json,
) -> Result<(), AllocError> {
    let numbers = token_numbers(request, span)?;
    out.begin_object();
    write_numbers(out, "data", numbers.as_slice());
    out.end_object();
    Ok(())
}

/// Returns how many numbers at the start of both lists are the same.
fn same_front(old: &[u32], new: &[u32]) -> usize {
    let most = old.len().min(new.len());
    for at in 0..most {
        if old.get(at) != new.get(at) {
            return at;
        }
    }
    most
}

/// Returns how many numbers at the end of both lists are the same.
fn same_back(old: &[u32], new: &[u32]) -> usize {
    let most = old.len().min(new.len());
    for at in 0..most {
        let from_end = at.saturating_add(1);
        let (one, other) = (
            old.len().saturating_sub(from_end),
            new.len().saturating_sub(from_end),
        );
        if old.get(one) != new.get(other) {
            return at;
        }
    }
    most
}

/// Writes the edits that make `new` of `old`: none, or one from the first to the last difference.
fn write_changes(out: &mut Json, old: &[u32], new: &[u32]) {
    let front = same_front(old, new);
    let (old_rest, new_rest) = (
        old.get(front..).unwrap_or(&[]),
        new.get(front..).unwrap_or(&[]),
    );
    let back = same_back(old_rest, new_rest);
    let gone = old_rest.len().saturating_sub(back);
    let added = new_rest
        .get(..new_rest.len().saturating_sub(back))
        .unwrap_or(&[]);
    out.array("edits");
    if gone > 0 || !added.is_empty() {
        out.begin_object();
        out.number("start", front);
        out.number("deleteCount", gone);
        write_numbers(out, "data", added);
        out.end_object();
    }
    out.end_array();
}

/// Returns the tokens in `sent` if a request for changes refers to them.
fn referred<'s>(
    request: &Request<'_, '_, '_>,
    sent: Option<&'s SentTokens>,
) -> Option<&'s SentTokens> {
    if request.method != Method::TokenChanges {
        return None;
    }
    let asked = text_in(request.params, &["previousResultId"])?;
    let sent = sent?;
    if asked.parse::<u64>().ok() == Some(sent.number) {
        Some(sent)
    } else {
        None
    }
}

/// Writes the semantic tokens of a document. If a request for changes refers to the tokens that were sent last, writes
/// how the tokens differ from those, otherwise all tokens. Stores the tokens for the next such request.
pub(crate) fn write_tokens(
    request: &Request<'_, '_, '_>,
    state: &mut State,
    out: &mut Json,
) -> Result<(), AllocError> {
    let number = state.next_number();
    let Some(open) = state.documents.get_mut(request.uri) else {
        out.null();
        return Ok(());
    };
    let revision = open.revision;
    let data = match &open.tokens {
        Some(sent) if sent.revision == revision => sent.data.clone()?,
        _ => {
            let end = request.table.text.len();
            token_numbers(request, Span { start: 0, end })?
        }
    };
    let shown = format!(in request.alloc; "{number}")?;
    out.begin_object();
    out.text("resultId", shown.as_str());
    match referred(request, open.tokens.as_ref()) {
        Some(sent) => write_changes(out, sent.data.as_slice(), data.as_slice()),
        None => write_numbers(out, "data", data.as_slice()),
    }
    out.end_object();
    open.tokens = Some(SentTokens {
        number,
        data,
        revision,
    });
    Ok(())
}
