//! Prints a document, or a value in it.
ghost use Rattle.std.specs.Prelude.{◌≡◌, ◌++◌, OnOk, IfOk, codes, false, map, option_map, string_bytes};
ghost use Rattle.std.specs.Cow.{cow_str_bytes};
ghost use Rattle.toml_span_lines.specs.Held.{Streams};
ghost use Rattle.toml_span_tree.specs.Value.{view};
ghost use Rattle.toml_span_check.specs.Answer.{IsNames, formed, found, place, prefix};
ghost use Rattle.toml_span_check.specs.code.Judged.{names_of, told};

use crate::answer::{Document, Form, Printing, Verdict};
use crate::fixable::Count;
use crate::formats::formatted_report;
use crate::missing::missing;
use crate::request::Question;
use crate::shown::{Shape, raw, to_json};
use crate::words::shown_word;
use std::alloc::{AllocError, Global};
use std::borrow::CowStr;
use toml_span::{Stop, Value};
use toml_span_lines::held::{Unwritten, write_held};
use toml_span_lines::lines::write_lines;
use toml_span_lines::sink::Sink;
use toml_span_places::{path_segments, to_toml, value_at};
use toml_span_report::visible::push_visible;

/// Appends `text` and a line feed to `held`.
fn push_line(mut text: String, held: &mut Vec<u8>) -> Result<(), AllocError>
    ensures { OnOk result (held.new.items ≡ held.old.items ++ (string_bytes text ++ codes "\n")) }
{
    text.push_str("\n")?;
    held.extend_from_slice(text.as_bytes())?;
    Ok(())
}

/// Appends the name of the file to `held`, if it is to be printed before the value: in front of it or, for lines, on a
/// line of its own.
fn push_prefix(
    alloc: Global,
    printing: Printing,
    name: &str,
    held: &mut Vec<u8>,
) -> Result<(), AllocError>
    ensures { OnOk result (held.new.items ≡ held.old.items ++ prefix printing name.now) }
{
    if !printing.is_named {
        return Ok(());
    }
    let name = shown_word(alloc, name)?;
    let mut out = String::new(alloc);
    push_visible(&mut out, name.as_str())?;
    out.push_str(if printing.form == Form::Items {
        ":\n"
    } else {
        ": "
    })?;
    held.extend_from_slice(out.as_bytes())?;
    Ok(())
}

/// Appends a value to the buffer `held`, and writes and empties the buffer each time it is large (see `write_held`).
/// Fails if a write fails.
fn write_value<W: Sink>(
    alloc: Global,
    printing: Printing,
    value: &Value<'_>,
    held: &mut Vec<u8>,
    writer: &mut W,
) -> Result<(), Unwritten>
    requires { W.failed writer.old ≡ false }
    ensures { Streams result (W.contents writer.old) (W.contents writer.new) (W.failed writer.new)
        (held.old.items ++ formed printing (view value.now)) held.new.items }
{
    let is_sorted = printing.is_sorted;
    let shape = Shape {
        alloc,
        is_tagged: printing.form == Form::Tagged,
        is_sorted,
    };
    match printing.form {
        Form::Plain | Form::Tagged => push_line(to_json(shape, value)?, held)?,
        Form::Raw => push_line(raw(alloc, value, is_sorted)?, held)?,
        Form::Toml => push_line(to_toml(alloc, value)?, held)?,
        Form::Items => return write_lines(alloc, writer, held, value),
    }
    write_held(writer, held)
}

/// Returns the segments of `path`, or `None` if it is malformed.
pub(crate) fn segments_of<'p>(
    alloc: Global,
    path: &'p str,
) -> Result<Option<Vec<CowStr<'p>>>, AllocError>
    ensures { IfOk result (λ names. IsNames path.now (option_map (λ names. map cow_str_bytes names.items) names)) }
{
    match path_segments(alloc, path) {
        Ok(segments) => Ok(Some(segments)),
        Err(Stop::Memory(error)) => Err(error),
        Err(Stop::Fault(_)) => Ok(None),
    }
}

/// Returns the value that the segments of a path name, or `None` if they name none, or if there are no segments.
fn place_of<'v, 'de>(
    root: &'v Value<'de>,
    segments: Option<&[CowStr<'_>]>,
) -> Option<&'v Value<'de>>
    ensures { option_map (λ v. view v.now) result ≡ place (names_of segments.entry) (view root.now) }
{
    value_at(root, segments?)
}

/// Prints the value that `segments` name in the document, as `write_value` does. `segments` are those of the path in
/// `question`, or `None` if it is malformed. If they name no value, prints nothing, and returns the report. Fails if a
/// write fails.
pub(crate) fn show<W: Sink>(
    alloc: Global,
    question: Question<'_>,
    name: &str,
    document: &Document<'_>,
    segments: Option<&[CowStr<'_>]>,
    held: &mut Vec<u8>,
    writer: &mut W,
) -> Result<Verdict, Unwritten>
    requires { W.failed writer.old ≡ false }
    ensures verdict { IfOk result (λ verdict. told verdict
        ≡ (let answer = found question.entry.format document.now.printing question.entry.pointer.now name.now
        document.now.text.now (names_of segments.entry) (view document.now.root) in (answer.0, answer.2))) }
    ensures out { Streams result (W.contents writer.old) (W.contents writer.new) (W.failed writer.new)
        (held.old.items ++ (found question.entry.format document.now.printing question.entry.pointer.now name.now
        document.now.text.now (names_of segments.entry) (view document.now.root)).1) held.new.items }
{
    let Document {
        printing,
        text,
        root,
    } = document;
    match place_of(root, segments) {
        Some(value) => {
            push_prefix(alloc, *printing, name, held)?;
            write_value(alloc, *printing, value, held, writer)?;
            Ok(Verdict {
                count: Count::none(),
                stderr: String::new(alloc),
            })
        }
        None => {
            let report = missing(alloc, question.pointer, segments, root)?;
            Ok(Verdict {
                count: Count::one(),
                stderr: formatted_report(alloc, question.format, &report, name, *text)?,
            })
        }
    }
}
