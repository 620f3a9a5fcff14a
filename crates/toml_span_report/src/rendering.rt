//! Formats one report. If an allocation fails, the output so far is dropped.
ghost use Rattle.std.specs.Prelude.{◌≡◌, ◌++◌, IfOk, OnOk, map, None, option_map, string_bytes};
ghost use Rattle.std.specs.List.{flat_map};
ghost use Rattle.toml_span_report.specs.Rendering as spec;
ghost use Rattle.toml_span_report.specs.Report.{report_content};
ghost use Rattle.toml_span_report.specs.Strips.{strip_content};

use crate::characters::{columns, push_shown, push_times, shown};
use crate::colours::{Ink, Style, push_painted};
use crate::places::floor_boundary;
use crate::report::{Report, Severity};
use crate::strips::{Strip, Window, all_strips, is_near, seen_in, window_of};
use std::alloc::{AllocError, Global};
use std::fmt::Write;

/// Appends `sign` and then `text` to `out`, or nothing if `text` is empty.
fn push_after(out: &mut String, sign: &str, text: &str) -> Result<(), AllocError>
    ensures { OnOk result (string_bytes out.new ≡ string_bytes out.old ++ spec.after sign.now text.now) }
{
    if text.is_empty() {
        return Ok(());
    }
    out.push_str(sign)?;
    out.push_str(text)
}

/// Appends `...` to `out` if `is_cut` is set.
fn push_dots(out: &mut String, is_cut: bool) -> Result<(), AllocError>
    ensures { OnOk result (string_bytes out.new ≡ string_bytes out.old ++ spec.dots is_cut) }
{
    if is_cut {
        out.push_str("...")?;
    }
    Ok(())
}

/// Appends at most the first 1,000 bytes of `text` to `out`, as `push_shown` prints them. A longer text is cut at a
/// character boundary, and `...` is appended.
#[tactic(auto, unfolding(crate::specs::Rendering::shortened))]
fn push_shortened(out: &mut String, text: &str) -> Result<(), AllocError>
    ensures { OnOk result (string_bytes out.new ≡ string_bytes out.old ++ spec.shortened text.now) }
{
    let end = floor_boundary(text, 1000);
    push_shown(out, &text[..end])?;
    push_dots(out, end < text.len())
}

/// Returns `text` or, if it is longer than 1,000 bytes, its first 1,000 bytes, cut at a character boundary, and `...`.
/// Fails if an allocation fails.
#[tactic(auto, unfolding(crate::specs::Rendering::clipped_text))]
pub fn clipped_text(alloc: Global, text: &str) -> Result<String, AllocError>
    ensures { IfOk result (λ out. string_bytes out ≡ spec.clipped_text text.now) }
{
    let end = floor_boundary(text, 1000);
    let mut out = String::from_str(alloc, &text[..end])?;
    push_dots(&mut out, end < text.len())?;
    Ok(out)
}

/// Returns `text` as `push_shortened` prints it.
fn shortened(alloc: Global, text: &str) -> Result<String, AllocError>
    ensures { IfOk result (λ out. string_bytes out ≡ spec.shortened text.now) }
{
    let mut out = String::new(alloc);
    push_shortened(&mut out, text)?;
    Ok(out)
}

/// Returns the word with which a report of this severity begins: `error`, `warning` or `note`.
pub(crate) fn severity_word(severity: Severity) -> &'static str
    ensures { result.now ≡ spec.severity_word severity }
{
    match severity {
        Severity::Error => "error",
        Severity::Warning => "warning",
        Severity::Note => "note",
    }
}

/// Returns the color of the word `error`, `warning` or `note`, and of the marks of primary labels.
fn ink_of(severity: Severity) -> Ink
    ensures { result ≡ spec.ink_of severity }
{
    match severity {
        Severity::Error => Ink::Red,
        Severity::Warning => Ink::Yellow,
        Severity::Note => Ink::Green,
    }
}

/// Appends `text` in brackets to `out`, or nothing if `text` is empty.
fn push_in_brackets(out: &mut String, text: &str) -> Result<(), AllocError>
    ensures { OnOk result (string_bytes out.new ≡ string_bytes out.old ++ spec.in_brackets text.now) }
{
    if text.is_empty() {
        return Ok(());
    }
    out.push_str("[")?;
    out.push_str(text)?;
    out.push_str("]")
}

/// Appends the first line of a report to `out`: the severity, the code in brackets, and the message. An empty code or
/// message is left out.
fn push_headline(
    alloc: Global,
    style: Style,
    out: &mut String,
    report: &Report,
) -> Result<(), AllocError>
    ensures { OnOk result (string_bytes out.new ≡ string_bytes out.old
        ++ spec.first_line style (report_content report.now)) }
{
    let code = shortened(alloc, report.code.as_str())?;
    let mut front = String::from_str(alloc, severity_word(report.severity))?;
    push_in_brackets(&mut front, code.as_str())?;
    push_painted(out, style, ink_of(report.severity), front.as_str())?;
    let message = shortened(alloc, report.message.as_str())?;
    let mut back = String::new(alloc);
    push_after(&mut back, ": ", message.as_str())?;
    push_painted(out, style, Ink::Bold, back.as_str())?;
    out.push_str("\n")
}

/// Returns the first strip of a primary label or, if no label is primary, the first strip. Returns `None` if there are
/// no strips.
pub(crate) fn main_strip<'a>(strips: &[Strip<'a>]) -> Option<Strip<'a>>
    ensures { option_map strip_content result ≡ spec.main_strip (map strip_content strips.now) }
{
    for strip in strips {
        if strip.is_primary {
            return Some(*strip);
        }
    }
    strips.first().copied()
}

/// Appends the line and column of `strip` to `out`, as `:line:column`. Appends nothing for `None`.
fn push_line_and_column(out: &mut String, strip: Option<Strip<'_>>) -> Result<(), AllocError>
    ensures { OnOk result (string_bytes out.new ≡ string_bytes out.old
        ++ spec.line_and_column (option_map strip_content strip.entry)) }
{
    let Some(strip) = strip else {
        return Ok(());
    };
    let (number, column) = (strip.number, strip.column);
    write!(out, ":{number}:{column}")
}

/// Returns the number of digits of the highest line number of the strips, or 1 without strips.
fn width_of(alloc: Global, strips: &[Strip<'_>]) -> Result<usize, AllocError>
    ensures { IfOk result (λ width. width ≡ spec.width_of (map strip_content strips.now)) }
{
    let mut greatest = 0;
    for strip in strips {
        greatest = strip.number.max(greatest);
    }
    let digits = greatest.to_string(alloc)?;
    Ok(digits.len())
}

/// The layout of a report.
#[derive(Clone, Copy)]
struct Frame {
    alloc: Global,
    style: Style,
    severity: Severity,
    /// The number of columns that line numbers take.
    width: usize,
}

/// Appends the left margin to `out`: `number`, aligned to the right, and a bar. `number` is empty for a line that is
/// not a source line.
fn push_gutter(frame: Frame, out: &mut String, number: &str) -> Result<(), AllocError>
    ensures { OnOk result (string_bytes out.new ≡ string_bytes out.old
        ++ spec.gutter frame.style frame.width number.now) }
{
    let mut left = String::new(frame.alloc);
    push_times(&mut left, frame.width.saturating_sub(number.len()), ' ')?;
    left.push_str(number)?;
    left.push_str(" |")?;
    push_painted(out, frame.style, Ink::Blue, left.as_str())
}

/// Appends the source line of `strip` to `out`, with its number, and with `...` where the line is cut.
fn push_source_line(frame: Frame, out: &mut String, strip: &Strip<'_>) -> Result<(), AllocError>
    ensures { OnOk result (string_bytes out.new ≡ string_bytes out.old
        ++ spec.source_line frame.style frame.width (strip_content strip.now)) }
{
    let number = strip.number.to_string(frame.alloc)?;
    push_gutter(frame, out, number.as_str())?;
    let mut source = String::new(frame.alloc);
    push_dots(&mut source, strip.is_cut_before)?;
    push_shown(&mut source, strip.before)?;
    push_shown(&mut source, strip.marked)?;
    push_shown(&mut source, strip.after)?;
    push_dots(&mut source, strip.is_cut_after)?;
    push_after(out, " ", source.as_str())?;
    out.push_str("\n")
}

/// Appends blanks to `out`, up to the column of the marked part, and then marks: `^` for a primary label, `-` for a
/// secondary one. A strip has at least one mark.
fn push_marks(alloc: Global, out: &mut String, strip: &Strip<'_>) -> Result<(), AllocError>
    ensures { OnOk result (string_bytes out.new ≡ string_bytes out.old ++ spec.marks (strip_content strip.now)) }
{
    let mut before = String::new(alloc);
    push_dots(&mut before, strip.is_cut_before)?;
    push_shown(&mut before, strip.before)?;
    push_times(out, columns(before.as_str()), ' ')?;
    let marked = shown(alloc, strip.marked)?;
    let sign = if strip.is_primary { '^' } else { '-' };
    push_times(out, columns(marked.as_str()).max(1), sign)
}

/// Returns the color of the marks of a label in a report of this severity.
fn ink(severity: Severity, is_primary: bool) -> Ink
    ensures { result ≡ spec.ink severity is_primary }
{
    if is_primary {
        ink_of(severity)
    } else {
        Ink::Blue
    }
}

/// Appends the line under the source line of `strip` to `out`: the marks, and the message of the label.
fn push_marks_line(frame: Frame, out: &mut String, strip: &Strip<'_>) -> Result<(), AllocError>
    ensures { OnOk result (string_bytes out.new ≡ string_bytes out.old
        ++ spec.marks_line frame.style frame.severity frame.width (strip_content strip.now)) }
{
    push_gutter(frame, out, "")?;
    out.push_str(" ")?;
    let mut marks = String::new(frame.alloc);
    push_marks(frame.alloc, &mut marks, strip)?;
    let message = shortened(frame.alloc, strip.message)?;
    push_after(&mut marks, " ", message.as_str())?;
    push_painted(
        out,
        frame.style,
        ink(frame.severity, strip.is_primary),
        marks.as_str(),
    )?;
    out.push_str("\n")
}

/// Appends the source line of `strip` to `out`, or nothing if `above`, the window of the previous strip, shows the
/// strip. Before the source line, appends a line with only a bar if `above` is `None`, or a line with `...` if lines
/// between the window and the strip are left out.
fn push_opening(
    frame: Frame,
    out: &mut String,
    above: Option<Window>,
    strip: &Strip<'_>,
) -> Result<(), AllocError>
    ensures { OnOk result (string_bytes out.new ≡ string_bytes out.old
        ++ spec.opening frame.style frame.width above (strip_content strip.now)) }
{
    match above {
        None => {
            push_gutter(frame, out, "")?;
            out.push_str("\n")?;
        }
        Some(above) => {
            if is_near(above, strip) {
                return Ok(());
            }
            if strip.number.saturating_sub(above.number) > 1 {
                out.push_str("...\n")?;
            }
        }
    }
    push_source_line(frame, out, strip)
}

/// Appends the source lines and the marks of all strips to `out`.
fn push_strips(frame: Frame, out: &mut String, strips: &[Strip<'_>]) -> Result<(), AllocError>
    ensures { OnOk result (string_bytes out.new ≡ string_bytes out.old
        ++ spec.source_lines frame.style frame.severity frame.width None (map strip_content strips.now)) }
{
    let mut above = None;
    for (i, strip) in strips.iter().enumerate() {
        let window = window_of(above, strip, &strips[i + 1..]);
        let seen = seen_in(window, strip);
        push_opening(frame, out, above, &seen)?;
        push_marks_line(frame, out, &seen)?;
        above = Some(window);
    }
    Ok(())
}

/// Returns the first two lines of a report: the headline, and the name of the file with the line and column
/// (`push_line_and_column`). `name` is the name of the file.
fn front(
    frame: Frame,
    report: &Report,
    name: &str,
    strips: &[Strip<'_>],
) -> Result<String, AllocError>
    requires { frame.width ≡ spec.width_of (map strip_content strips.now) }
    ensures { IfOk result (λ out. string_bytes out
        ≡ spec.front frame.style (report_content report.now) name.now (map strip_content strips.now)) }
{
    let mut out = String::new(frame.alloc);
    push_headline(frame.alloc, frame.style, &mut out, report)?;
    let mut arrow = String::new(frame.alloc);
    push_times(&mut arrow, frame.width, ' ')?;
    arrow.push_str("--> ")?;
    push_painted(&mut out, frame.style, Ink::Blue, arrow.as_str())?;
    push_shortened(&mut out, name)?;
    push_line_and_column(&mut out, main_strip(strips))?;
    out.push_str("\n")?;
    Ok(out)
}

/// Appends a line with the note or help `text` to `out`. `title` is `note: ` or `help: `.
fn push_remark(frame: Frame, out: &mut String, title: &str, text: &str) -> Result<(), AllocError>
    ensures { OnOk result (string_bytes out.new ≡ string_bytes out.old
        ++ spec.remark frame.style frame.width title.now text.now) }
{
    let mut left = String::new(frame.alloc);
    push_times(&mut left, frame.width, ' ')?;
    left.push_str(" = ")?;
    push_painted(out, frame.style, Ink::Blue, left.as_str())?;
    push_painted(out, frame.style, Ink::Bold, title)?;
    push_shortened(out, text)?;
    out.push_str("\n")
}

/// Appends a line to `out` for each note or help in `texts`. `title` is `note: ` or `help: `.
fn push_each(
    frame: Frame,
    out: &mut String,
    title: &str,
    texts: &[String],
) -> Result<(), AllocError>
    ensures { OnOk result (string_bytes out.new ≡ string_bytes out.old
        ++ flat_map (spec.remark frame.style frame.width title.now) (map string_bytes texts.now)) }
{
    for text in texts {
        push_remark(frame, out, title, text.as_str())?;
    }
    Ok(())
}

/// Appends a line to `out` with only a bar in its margin.
fn push_bar(frame: Frame, out: &mut String) -> Result<(), AllocError>
    ensures { OnOk result (string_bytes out.new ≡ string_bytes out.old ++ spec.bar frame.style frame.width) }
{
    push_gutter(frame, out, "")?;
    out.push_str("\n")
}

/// Appends a line to `out` with only a bar in its margin, if there is help.
fn push_bar_above_help(frame: Frame, out: &mut String, help: &[String]) -> Result<(), AllocError>
    ensures { OnOk result (string_bytes out.new ≡ string_bytes out.old
        ++ spec.bar_above frame.style frame.width (map string_bytes help.now)) }
{
    match help.split_first() {
        Some(_) => push_bar(frame, out),
        None => Ok(()),
    }
}

/// Appends a line to `out` with only a bar in its margin, if there are notes or help.
fn push_bar_above(
    frame: Frame,
    out: &mut String,
    notes: &[String],
    help: &[String],
) -> Result<(), AllocError>
    ensures { OnOk result (string_bytes out.new ≡ string_bytes out.old
        ++ spec.bar_above frame.style frame.width (map string_bytes notes.now ++ map string_bytes help.now)) }
{
    match notes.split_first() {
        Some(_) => push_bar(frame, out),
        None => push_bar_above_help(frame, out, help),
    }
}

/// Appends the notes and the help of a report to `out`, if there are any, below a line with only a bar.
fn push_remarks(frame: Frame, out: &mut String, report: &Report) -> Result<(), AllocError>
    ensures { OnOk result (string_bytes out.new ≡ string_bytes out.old
        ++ spec.remarks frame.style frame.width (report_content report.now)) }
{
    let (notes, help) = (report.notes.as_slice(), report.help.as_slice());
    push_bar_above(frame, out, notes, help)?;
    push_each(frame, out, "note: ", notes)?;
    push_each(frame, out, "help: ", help)
}

/// Returns a report as text, as `render` does. `name` is the name of the file, and `strips` are the strips of the
/// report's labels.
pub(crate) fn drawn_report(
    alloc: Global,
    style: Style,
    report: &Report,
    name: &str,
    strips: &[Strip<'_>],
) -> Result<String, AllocError>
    ensures { IfOk result (λ out. string_bytes out
        ≡ spec.drawn_report style (report_content report.now) name.now (map strip_content strips.now)) }
{
    let width = width_of(alloc, strips)?;
    let frame = Frame {
        alloc,
        style,
        severity: report.severity,
        width,
    };
    let mut out = front(frame, report, name, strips)?;
    push_strips(frame, &mut out, strips)?;
    push_remarks(frame, &mut out, report)?;
    Ok(out)
}

/// Returns a report as text. `name` is the name of the file, `text` the source.
///
/// The text has:
///
/// - a first line with the severity, the code and the message;
/// - a line with `name:line:column`, the start of the first primary label in the source or, if no label is primary, of
///   the first label. Line and column are counted from 1, the column in characters. Without labels, the line has only
///   `name`;
/// - the source lines on which labels begin and end, in the order of the source. Below each are marks: `^` for a
///   primary label, `-` for a secondary label. The message of a label follows its last marks;
/// - the notes and the help.
///
/// Labels may have any spans. An offset inside a character, or beyond the source, is moved back to the nearest
/// character boundary. A reversed span counts as empty, and an empty span has one mark.
///
/// A tab is printed as four spaces, any other control character below U+0080 as its control picture (U+2400 to U+2421).
/// The control characters U+0080 to U+009F, the line ends U+2028 and U+2029, the characters that change the direction
/// of the text, and three characters without width (U+200B, U+200D, U+FEFF) are printed as U+FFFD. Marks count a wide
/// character as two columns (`unicode_width`). A byte order mark at the start of the source is not printed.
///
/// Only a part of a long line is printed. The part begins 80 bytes before the first label, and ends 160 bytes after the
/// start of the last label that begins within 240 bytes of the first label. For labels further on, the line is printed
/// again. Codes, messages, notes, help and names are cut after 1,000 bytes. Each cut is moved back to a character
/// boundary. Colors only add escape sequences to the text. Fails if an allocation fails.
pub fn render(
    alloc: Global,
    style: Style,
    report: &Report,
    name: &str,
    text: &str,
) -> Result<String, AllocError>
    ensures { IfOk result (λ out. string_bytes out
        ≡ spec.report_text style (report_content report.now) name.now text.now) }
{
    let strips = all_strips(alloc, text, report.labels.as_slice())?;
    drawn_report(alloc, style, report, name, strips.as_slice())
}

/// Appends `text` and then `sign` to `out`, or nothing if `text` is empty.
pub(crate) fn push_before(out: &mut String, sign: &str, text: &str) -> Result<(), AllocError>
    ensures { OnOk result (string_bytes out.new ≡ string_bytes out.old ++ spec.before sign.now text.now) }
{
    if text.is_empty() {
        return Ok(());
    }
    out.push_str(text)?;
    out.push_str(sign)
}

/// Returns the word before the code in a one-line report: `warning: `, `note: `, or an empty string for an error.
fn grade(severity: Severity) -> &'static str
    ensures { result.now ≡ spec.grade severity }
{
    match severity {
        Severity::Error => "",
        Severity::Warning => "warning: ",
        Severity::Note => "note: ",
    }
}

/// Returns `./` if `name` begins with `::`, or with white space and `::`, otherwise an empty string. GitHub takes an
/// output line that begins with `::` for a workflow command.
fn path_prefix(name: &str) -> &'static str
    ensures { result.now ≡ spec.path_prefix name.now }
{
    if name.trim_start().as_bytes().starts_with(b"::") {
        "./"
    } else {
        ""
    }
}

/// Returns a report as one line, as `render_line` does. `name` is the name of the file, and `strips` are the strips of
/// the report's labels.
fn brief(
    alloc: Global,
    report: &Report,
    name: &str,
    strips: &[Strip<'_>],
) -> Result<String, AllocError>
    ensures { IfOk result (λ out. string_bytes out
        ≡ spec.brief (report_content report.now) name.now (map strip_content strips.now)) }
{
    let mut out = String::from_str(alloc, path_prefix(name))?;
    push_shortened(&mut out, name)?;
    push_line_and_column(&mut out, main_strip(strips))?;
    out.push_str(": ")?;
    out.push_str(grade(report.severity))?;
    let code = shortened(alloc, report.code.as_str())?;
    push_before(&mut out, ": ", code.as_str())?;
    push_shortened(&mut out, report.message.as_str())?;
    out.push_str("\n")?;
    Ok(out)
}

/// Returns a report as one line, `name:line:column: code: message`, with a line feed at the end. Editors can read lines
/// of this form. `name` is the name of the file, `text` the source.
///
/// A warning or note has `warning: ` or `note: ` before the code. An empty code is left out. Line and column are those
/// that `render` prints. Without labels, they are left out. A name that begins with `::`, as workflow commands of
/// GitHub do, or with white space and `::`, gets the prefix `./`. The name, the code and the message are cut, and their
/// control characters replaced, as in `render`. Fails if an allocation fails.
pub fn render_line(
    alloc: Global,
    report: &Report,
    name: &str,
    text: &str,
) -> Result<String, AllocError>
    ensures { IfOk result (λ out. string_bytes out
        ≡ spec.report_line (report_content report.now) name.now text.now) }
{
    let strips = all_strips(alloc, text, report.labels.as_slice())?;
    brief(alloc, report, name, strips.as_slice())
}
