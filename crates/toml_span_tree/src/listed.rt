//! Prints names and keys as lists.
ghost use Rattle.std.specs.Prelude.{◌++◌, codes, List, map, ℕ, Some, string_bytes};
ghost use Rattle.std.specs.Fmt.{WritesOnOk};
ghost use Rattle.std.specs.List.{flat_map, join_by};
ghost use Rattle.std.specs.Str.{chars};
ghost use Rattle.toml_span_tree.specs.Error.{marked_keys};
ghost use Rattle.toml_span_tree.specs.Listed.{escaped_char, quoted_char, quoted, quoted_key, listed, span_text};

use std::fmt;
use std::fmt::{Display, Formatter, Write};
use toml_span_lex::span::Span;

/// Writes `c` as an escape, or as itself if it is a space. `c` must be white space or a control character.
pub(crate) fn write_escaped<W: Write>(f: &mut Formatter<W>, c: char) -> fmt::Result
    ensures { WritesOnOk W.write_str_gives f.old result (escaped_char c) f.new }
{
    match c {
        '\t' => f.write_str("\\t"),
        '\n' => f.write_str("\\n"),
        '\r' => f.write_str("\\r"),
        ' ' => f.write_str(" "),
        _ => {
            let code = c as u32;
            write!(f, "\\u{{{code:x}}}")
        }
    }
}

/// Writes a character of a quoted name. Escapes quotation marks, backslashes, control characters, and white space other
/// than spaces.
fn write_quoted_char<W: Write>(f: &mut Formatter<W>, c: char) -> fmt::Result
    ensures { WritesOnOk W.write_str_gives f.old result (quoted_char c) f.new }
{
    if c == '"' {
        f.write_str("\\\"")
    } else if c == '\\' {
        f.write_str("\\\\")
    } else if c.is_whitespace() || c.is_control() {
        write_escaped(f, c)
    } else {
        f.write_char(c)
    }
}

/// Writes the characters of a quoted name, without the quotes.
fn write_quoted_chars<W: Write>(f: &mut Formatter<W>, name: &str) -> fmt::Result
    ensures { WritesOnOk W.write_str_gives f.old result
        (flat_map quoted_char (chars name.now)) f.new }
{
    for c in name.chars() {
        write_quoted_char(f, c)?;
    }
    Ok(())
}

/// A type whose values can be printed as items of a list.
// Toolchain: for text that is not ASCII, the contract of std's `Debug` leaves the output open (`debug_output` is
// `None`). So this file prints lists itself.
pub(crate) trait Item {
    ghost shown: { Self → List ℕ };

    /// Writes the value as an item of a list.
    fn write<W: Write>(&self, f: &mut Formatter<W>) -> fmt::Result
        ensures { WritesOnOk W.write_str_gives f.old result (shown self.now) f.new };
}

impl Item for &str {
    ghost shown = { λ name. quoted name.now };

    fn write<W: Write>(&self, f: &mut Formatter<W>) -> fmt::Result {
        f.write_str("\"")?;
        write_quoted_chars(f, *self)?;
        f.write_str("\"")
    }
}

impl Item for String {
    ghost shown = { λ name. quoted (string_bytes name) };

    fn write<W: Write>(&self, f: &mut Formatter<W>) -> fmt::Result {
        self.as_str().write(f)
    }
}

/// Writes `span` as its `Debug` does: `Span { start: 16, end: 17 }`.
fn write_span<W: Write>(f: &mut Formatter<W>, span: Span) -> fmt::Result
    ensures { WritesOnOk W.write_str_gives f.old result (span_text span) f.new }
{
    let (start, end) = (span.start, span.end);
    write!(f, "Span {{ start: {start}, ")?;
    write!(f, "end: {end} }}")
}

impl Item for (String, Span) {
    ghost shown = { λ key. quoted_key (string_bytes key.0, key.1) };

    fn write<W: Write>(&self, f: &mut Formatter<W>) -> fmt::Result {
        f.write_str("(")?;
        self.0.write(f)?;
        f.write_str(", ")?;
        write_span(f, self.1)?;
        f.write_str(")")
    }
}

/// Writes the items, each preceded by a comma and a space.
fn write_more<T: Item, W: Write>(f: &mut Formatter<W>, items: &[T]) -> fmt::Result
    ensures { WritesOnOk W.write_str_gives f.old result
        (flat_map (λ item. codes ", " ++ T.shown item) items.now) f.new }
{
    for item in items {
        f.write_str(", ")?;
        item.write(f)?;
    }
    Ok(())
}

/// Writes items, separated by commas and spaces, without brackets.
fn write_items<T: Item, W: Write>(f: &mut Formatter<W>, items: &[T]) -> fmt::Result
    ensures { WritesOnOk W.write_str_gives f.old result
        (join_by T.shown (codes ", ") items.now) f.new }
{
    match items.split_first() {
        Some((first, more)) => {
            first.write(f)?;
            write_more(f, more)
        }
        None => Ok(()),
    }
}

/// Writes items in brackets, separated by commas and spaces.
fn write_listed<T: Item, W: Write>(f: &mut Formatter<W>, items: &[T]) -> fmt::Result
    ensures { WritesOnOk W.write_str_gives f.old result (listed T.shown items.now) f.new }
{
    f.write_str("[")?;
    write_items(f, items)?;
    f.write_str("]")
}

/// A list of names, displayed as `["a", "b"]`.
#[derive(Clone, Copy)]
pub(crate) struct Names<'a>(pub(crate) &'a [String]);

impl Display for Names<'_> {
    ghost output = { λ names. Some (listed quoted (map string_bytes names.0.now)) };

    fn fmt<W: Write>(&self, f: &mut Formatter<W>) -> fmt::Result {
        write_listed(f, self.0)
    }
}

/// A list of borrowed names, displayed as `["a", "b"]`.
#[derive(Clone, Copy)]
pub(crate) struct LentNames<'a>(pub(crate) &'a [&'a str]);

impl Display for LentNames<'_> {
    ghost output = { λ names. Some (listed quoted (map (λ name. name.now) names.0.now)) };

    fn fmt<W: Write>(&self, f: &mut Formatter<W>) -> fmt::Result {
        write_listed(f, self.0)
    }
}

/// A list of keys with their spans, displayed as `[("a", Span { start: 16, end: 17 })]`.
#[derive(Clone, Copy)]
pub(crate) struct Keys<'a>(pub(crate) &'a [(String, Span)]);

impl Display for Keys<'_> {
    ghost output = { λ keys. Some (listed quoted_key (marked_keys keys.0.now)) };

    fn fmt<W: Write>(&self, f: &mut Formatter<W>) -> fmt::Result {
        write_listed(f, self.0)
    }
}
