//! Formats trees and errors as lines. Writes the lines of a tree through a buffer.
ghost use Rattle.std.specs.Prelude.{◌≡◌, ◌<◌, ◌++◌, OnOk, IfOk, false};
ghost use Rattle.std.specs.Fmt.{decimal};
ghost use Rattle.toml_span_tree.specs.Value.{view, items_view, members_view};
ghost use Rattle.toml_span_tree.specs.Error.{content_of};
ghost use Rattle.toml_span_lines.specs.Held.{Streams};
ghost use Rattle.toml_span_lines.specs.Lines as spec;

use crate::held::{Unwritten, write_held};
use crate::sink::Sink;
use crate::tracked::Tracked;
use std::alloc::{AllocError, Global};
use toml_span::value::{Table, Value, ValueInner};
use toml_span::{Error, Span};

/// Appends a number in decimal to `out`. If an allocation fails, `out` may have a part of the number.
fn push_number(out: &mut Vec<u8>, number: usize) -> Result<(), AllocError>
    ensures { OnOk result (out.new.items ≡ out.old.items ++ decimal number) }
{
    if number >= 10 {
        push_number(out, number / 10)?;
    }
    out.push(b'0' + (number % 10) as u8)?;
    Ok(())
}

/// Appends a span to `out` as `start..end`. If an allocation fails, `out` may have a part of the span.
fn push_span(out: &mut Vec<u8>, span: Span) -> Result<(), AllocError>
    ensures { OnOk result (out.new.items ≡ out.old.items ++ spec.shown_span span.start span.end) }
{
    push_number(out, span.start)?;
    out.extend_from_slice(b"..")?;
    push_number(out, span.end)
}

/// Appends a line and a column to `out` as `line:column`. If an allocation fails, `out` may have a part of them.
fn push_place(out: &mut Vec<u8>, place: (usize, usize)) -> Result<(), AllocError>
    ensures { OnOk result (out.new.items ≡ out.old.items ++ spec.shown_place place) }
{
    push_number(out, place.0)?;
    out.extend_from_slice(b":")?;
    push_number(out, place.1)
}

/// Returns whether a byte of a key is written unescaped in a path: a printable ASCII character other than a space, `/`
/// and `%`.
fn is_plain(byte: u8) -> bool
    ensures { result ≡ spec.stands_for_itself byte }
{
    0x21 <= byte && byte <= 0x7e && byte != b'/' && byte != b'%'
}

/// Returns the upper-case hexadecimal digit of a number below 16.
fn hex_digit(number: u8) -> u8
    requires { number < 16 }
    ensures { result ≡ spec.hex_digit number }
{
    if number < 10 {
        b'0' + number
    } else {
        b'A' - 10 + number
    }
}

/// Appends a byte of a key to `out`: unescaped if `is_plain`, otherwise as `%` and two hexadecimal digits.
fn push_byte(out: &mut Vec<u8>, byte: u8) -> Result<(), AllocError>
    ensures { OnOk result (out.new.items ≡ out.old.items ++ spec.shown_byte byte) }
{
    if is_plain(byte) {
        out.push(byte)?;
        return Ok(());
    }
    out.extend_from_slice(&[b'%', hex_digit(byte / 16), hex_digit(byte % 16)])
}

/// Appends `/` and the key `name` to `path`. If an allocation fails, `path` may have a part of them.
fn push_key(path: &mut Vec<u8>, name: &str) -> Result<(), AllocError>
    ensures { OnOk result (path.new.items ≡ path.old.items ++ spec.key_segment name.now) }
{
    path.push(b'/')?;
    for byte in name.as_bytes() {
        push_byte(path, *byte)?;
    }
    Ok(())
}

/// Appends `/` and a position to `path`. If an allocation fails, `path` may have a part of them.
fn push_position(path: &mut Vec<u8>, position: usize) -> Result<(), AllocError>
    ensures { OnOk result (path.new.items ≡ path.old.items ++ spec.position_segment position) }
{
    path.push(b'/')?;
    push_number(path, position)
}

/// Appends the line of a value to `out`: its path (`root` if the path is empty), its kind and its span. If an
/// allocation fails, `out` may have a part of the line.
fn push_line(out: &mut Vec<u8>, path: &[u8], kind: &str, span: Span) -> Result<(), AllocError>
    ensures { OnOk result (out.new.items ≡ out.old.items ++ spec.line path.now kind.now span.start span.end) }
{
    if path.is_empty() {
        out.extend_from_slice(b"root")?;
    } else {
        out.extend_from_slice(path)?;
    }
    out.push(b' ')?;
    out.extend_from_slice(kind.as_bytes())?;
    out.push(b' ')?;
    push_span(out, span)?;
    out.push(b'\n')?;
    Ok(())
}

/// Appends the line of a value to the buffer `held`. If the buffer then has at least 64 KiB, writes and empties it.
/// Fails if a write fails. If an allocation fails, `held` may have a part of the line.
fn write_line<W: Sink>(
    writer: &mut W,
    held: &mut Vec<u8>,
    path: &[u8],
    kind: &str,
    span: Span,
) -> Result<(), Unwritten>
    requires { W.failed writer.old ≡ false }
    ensures { Streams result (W.contents writer.old) (W.contents writer.new) (W.failed writer.new)
        (held.old.items ++ spec.line path.now kind.now span.start span.end) held.new.items }
{
    push_line(held, path, kind, span)?;
    write_held(writer, held)
}

/// Writes, through the buffer `held`, the line of `value`, which is at `path`, and the lines of the values inside it. A
/// taken value has no lines. Fails if a write fails. After a failure, `path` is unspecified.
#[cycle(write_value)]
fn write_value<W: Sink>(
    writer: &mut W,
    held: &mut Vec<u8>,
    path: &mut Vec<u8>,
    value: &Value<'_>,
) -> Result<(), Unwritten>
    requires { W.failed writer.old ≡ false }
    ensures out { Streams result (W.contents writer.old) (W.contents writer.new) (W.failed writer.new)
        (held.old.items ++ spec.node_lines path.old.items (view value.now)) held.new.items }
    ensures path { OnOk result (path.new.items ≡ path.old.items) }
{
    if value.is_taken() {
        return Ok(());
    }
    let inner = value.as_ref();
    write_line(writer, held, path.as_slice(), inner.type_str(), value.span)?;
    match inner {
        ValueInner::Array(elements) => write_elements(writer, held, path, elements.as_slice()),
        ValueInner::Table(table) => write_entries(writer, held, path, table),
        _ => Ok(()),
    }
}

/// Writes, through the buffer `held`, the lines of the elements of the array at `path`, and of the values inside them.
/// Fails if a write fails. After a failure, `path` is unspecified.
#[cycle(write_value)]
fn write_elements<W: Sink>(
    writer: &mut W,
    held: &mut Vec<u8>,
    path: &mut Vec<u8>,
    elements: &[Value<'_>],
) -> Result<(), Unwritten>
    requires { W.failed writer.old ≡ false }
    ensures out { Streams result (W.contents writer.old) (W.contents writer.new) (W.failed writer.new)
        (held.old.items ++ spec.items_lines path.old.items 0 (items_view elements.now)) held.new.items }
    ensures path { OnOk result (path.new.items ≡ path.old.items) }
{
    let length = path.len();
    for (position, element) in elements.iter().enumerate() {
        push_position(path, position)?;
        write_value(writer, held, path, element)?;
        path.truncate(length);
    }
    Ok(())
}

/// Writes, through the buffer `held`, the lines of the entries of the table at `path`, and of the values inside them.
/// Fails if a write fails. After a failure, `path` is unspecified.
#[cycle(write_value)]
fn write_entries<W: Sink>(
    writer: &mut W,
    held: &mut Vec<u8>,
    path: &mut Vec<u8>,
    table: &Table<'_>,
) -> Result<(), Unwritten>
    requires { W.failed writer.old ≡ false }
    ensures out { Streams result (W.contents writer.old) (W.contents writer.new) (W.failed writer.new)
        (held.old.items ++ spec.members_lines path.old.items (members_view table.now.entries)) held.new.items }
    ensures path { OnOk result (path.new.items ≡ path.old.items) }
{
    let length = path.len();
    for (key, value) in table.iter() {
        push_key(path, key.name.as_ref())?;
        write_value(writer, held, path, value)?;
        path.truncate(length);
    }
    Ok(())
}

/// Appends a line for each value of the tree `root`, except for taken values, to the buffer `held`. Writes and empties
/// the buffer whenever it has at least 64 KiB; the last lines may stay in the buffer. The line of a value comes before
/// the lines of the values inside it. The entries of a table are in the order of their names. Fails if a write or an
/// allocation fails; a prefix of the output has then been written. No earlier write may have failed.
pub fn write_lines<W: Sink>(
    alloc: Global,
    writer: &mut W,
    held: &mut Vec<u8>,
    root: &Value<'_>,
) -> Result<(), Unwritten>
    requires { W.failed writer.old ≡ false }
    ensures { Streams result (W.contents writer.old) (W.contents writer.new) (W.failed writer.new)
        (held.old.items ++ spec.tree_lines (view root.now)) held.new.items }
{
    write_value(writer, held, &mut Vec::new(alloc), root)
}

/// Returns a line for each value of the tree `root`, except for taken values. The line of a value comes before the
/// lines of the values inside it. The entries of a table are in the order of their names. Fails if an allocation fails.
pub fn tree_lines(alloc: Global, root: &Value<'_>) -> Result<Vec<u8>, AllocError>
    ensures { IfOk result (λ out. out.items ≡ spec.tree_lines (view root.now)) }
{
    let mut writer = Tracked::new(Vec::new(alloc));
    let mut held = Vec::new(alloc);
    if write_lines(alloc, &mut writer, &mut held, root).is_err() {
        return Err(AllocError);
    }
    let mut out = writer.into_inner();
    out.append(&mut held)?;
    Ok(out)
}

/// Returns the line of an error: the word `error`, the error's code, its span, and its line and column, counted from 0
/// (`0:0` if they are not known).
pub(crate) fn error_line(alloc: Global, error: &Error<'_>) -> Result<Vec<u8>, AllocError>
    ensures { IfOk result (λ out. out.items ≡ spec.error_line (content_of error.now)) }
{
    let mut out = Vec::from_slice(alloc, b"error ")?;
    let code = error.kind.to_string(alloc)?;
    out.extend_from_slice(code.as_bytes())?;
    out.push(b' ')?;
    push_span(&mut out, error.span)?;
    out.push(b' ')?;
    push_place(&mut out, error.line_info.unwrap_or((0, 0)))?;
    out.push(b'\n')?;
    Ok(out)
}
