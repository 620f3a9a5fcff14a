//! The colors of a report.
ghost use Rattle.std.specs.Prelude.{◌≡◌, ◌++◌, OnOk, string_bytes};
ghost use Rattle.toml_span_report.specs.Colours as spec;

use std::alloc::AllocError;

/// Whether the text of a report has colors.
#[derive(Clone, Copy, PartialEq, Eq)]
pub enum Style {
    /// Plain text.
    Plain,
    /// Text with the escape sequences that set colors in terminals (ECMA-48, SGR).
    Coloured,
}

/// A color, or bold type. Each variant lists the parts of a report that are printed in it.
#[derive(Clone, Copy, PartialEq, Eq)]
pub(crate) enum Ink {
    /// The word `error` with its code, and the marks and messages of primary labels in an error.
    Red,
    /// The word `warning` with its code, and the marks and messages of primary labels in a warning.
    Yellow,
    /// The word `note` with its code, and the marks and messages of primary labels in a note.
    Green,
    /// The left margin with `|`, `=` and `-->`, and the marks and messages of secondary labels.
    Blue,
    /// The message of the report, and the words `note:` and `help:`.
    Bold,
}

/// Returns the escape sequence that switches to `ink`.
fn beginning(ink: Ink) -> &'static str
    ensures { result.now ≡ spec.beginning ink }
{
    match ink {
        Ink::Red => "\u{1b}[1;31m",
        Ink::Yellow => "\u{1b}[1;33m",
        Ink::Green => "\u{1b}[1;32m",
        Ink::Blue => "\u{1b}[1;34m",
        Ink::Bold => "\u{1b}[1m",
    }
}

/// Appends `text` to `out`, in the color `ink` if the style has colors. If an allocation fails, `out` may have a part
/// of the text.
pub(crate) fn push_painted(
    out: &mut String,
    style: Style,
    ink: Ink,
    text: &str,
) -> Result<(), AllocError>
    ensures { OnOk result (string_bytes out.new ≡ string_bytes out.old ++ spec.painted style ink text.now) }
{
    if style == Style::Plain {
        return out.push_str(text);
    }
    out.push_str(beginning(ink))?;
    out.push_str(text)?;
    out.push_str("\u{1b}[0m")
}
