//! The calls `span` and `copies`: spans, and clones of keys and of spanned texts.
use crate::Row;
use crate::output::Out;
use std::alloc::Global;
use std::borrow::CowStr;
use std::ops::Range;
use toml_span::tokens::Tokenizer;
use toml_span::value::Key;
use toml_span::{Span, Spanned};

/// Prints two clones of a key with the name `text`, and two clones of `text`, all with this span.
fn push_copies(alloc: Global, span: Span, text: &str, out: &mut Out) {
    let Some(name) = out.ok(String::from_str(alloc, text)) else {
        return;
    };
    let name = CowStr::Owned(name);
    let key = Key { name, span };
    let Some(text) = out.ok(String::from_str(alloc, text)) else {
        return;
    };
    let placed = Spanned::with_span(text, span);
    for _ in 0..2 {
        out.debug_line(key.clone(alloc));
        out.debug_line(placed.clone(alloc));
    }
}

/// Prints the answer to a row. Returns `false` if this module has no such call, or if a word of the row is wrong.
pub fn answer(alloc: Global, row: Row<'_>, out: &mut Out) -> bool {
    let words = (row.word(0).parse::<usize>(), row.word(1).parse::<usize>());
    let (Ok(start), Ok(end)) = words else {
        return false;
    };
    let span = Span::from(start..end);
    match row.call {
        "span" => {
            let pair: (usize, usize) = span.into();
            let range: Range<usize> = span.into();
            out.debug((span.is_empty(), pair, range.start, range.end));
            if span.start <= span.end && span.end <= row.text.len() {
                out.push_str(" at ");
                out.debug(Tokenizer::new(row.text).substr_offset(span));
            }
        }
        "copies" => push_copies(alloc, span, row.text, out),
        _ => return false,
    }
    true
}
