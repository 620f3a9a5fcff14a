//! `each`: parses the text with each ASCII character in place of its `@`.
//!
//! The answer has a letter for each character, 32 in a line: the first letter of the kind of the document's first
//! value, `.` if the document has no key, and `-` if it is refused. Lines follow for the strings that are not the
//! character itself.
//!
//! `refused`: says whether `parse` refuses the text.
use crate::output::Out;
use std::alloc::Global;
use toml_span::parse;
use toml_span::value::{Value, ValueInner, nodes};

/// Parses a text. Returns the tree, or whether the text is refused; `None` if an allocation failed.
fn parsed<'t>(alloc: Global, text: &'t str, out: &mut Out) -> Option<Result<Value<'t>, ()>> {
    match parse(alloc, text) {
        Ok(root) => Some(Ok(root)),
        Err(stop) => out.ok(stop.fault()).map(|_| Err(())),
    }
}

/// Prints whether a text is refused.
pub fn push_refused(alloc: Global, text: &str, out: &mut Out) {
    match parsed(alloc, text, out) {
        Some(Ok(_)) => out.push_str("accepted"),
        Some(Err(())) => out.push_str("refused"),
        None => {}
    }
}

/// Prints the letter for a text, and the string in it to `strings` if it is not `c`.
fn push_letter(alloc: Global, text: &str, c: char, out: &mut Out, strings: &mut Out) {
    let root = match parsed(alloc, text, out) {
        Some(Ok(root)) => root,
        Some(Err(())) => return out.push_str("-"),
        None => return,
    };
    let Some(list) = out.ok(nodes(alloc, &root)) else {
        return;
    };
    let Some(first) = list.as_slice().get(1) else {
        return out.push_str(".");
    };
    let inner = first.value.as_ref();
    out.push_str(inner.type_str().get(..1).unwrap_or("?"));
    if let ValueInner::String(string) = inner {
        if string.len() != 1 || string.chars().next() != Some(c) {
            strings.debug(c);
            strings.push_str(" ");
            strings.debug_line(string);
        }
    }
}

/// Prints the letters for all ASCII characters, and the strings that are not the character itself.
pub fn push_each(alloc: Global, text: &str, out: &mut Out) {
    let (before, after) = text.split_once('@').unwrap_or((text, ""));
    let mut strings = Out::new(alloc);
    for byte in 0u8..128 {
        let c = char::from(byte);
        let Some(made) = out.ok(format!(in alloc; "{before}{c}{after}")) else {
            return;
        };
        push_letter(alloc, made.as_str(), c, out, &mut strings);
        if byte % 32 == 31 {
            out.push_str("\n");
        }
    }
    out.push_str(strings.text.as_str());
    out.out_of_memory = out.out_of_memory || strings.out_of_memory;
}
