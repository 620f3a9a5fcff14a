//! How characters are printed, and how many columns they take.
ghost use Rattle.std.specs.Prelude.{◌≡◌, ◌++◌, ◌<◌, IfOk, OnOk, string_bytes, replicate};
ghost use Rattle.toml_span_report.specs.Characters as spec;

use std::alloc::{AllocError, Global};
use unicode_width::UnicodeWidthStr;

/// Returns whether a character is printed as U+FFFD. These are the control characters U+0080 to U+009F, the line ends
/// U+2028 and U+2029, the characters that change the direction of the text, and three characters without width (U+200B,
/// U+200D, U+FEFF).
fn is_hidden(c: char) -> bool
    ensures { result ≡ spec.is_hidden c }
{
    matches!(
        c as u32,
        0x80..=0x9F
            | 0x061C
            | 0x200B
            | 0x200D..=0x200F
            | 0x2028..=0x202E
            | 0x2066..=0x2069
            | 0xFEFF
    )
}

/// Appends `c` to `out` as a report prints it. A tab becomes four spaces, any other control character below U+0080 its
/// control picture (U+2400 to U+2421), and a hidden character (`is_hidden`) U+FFFD.
fn push_char(out: &mut String, c: char) -> Result<(), AllocError>
    ensures { OnOk result (string_bytes out.new ≡ string_bytes out.old ++ spec.shown_char c) }
{
    if c == '\t' {
        return out.push_str("    ");
    }
    let code = c as u32;
    if code < 32 {
        return out.push(char::from_u32(code + 0x2400).unwrap_or(c));
    }
    if code == 127 {
        out.push('\u{2421}')
    } else if is_hidden(c) {
        out.push('\u{FFFD}')
    } else {
        out.push(c)
    }
}

/// Appends `text` to `out` as a report prints it, with control characters and hidden characters replaced (`push_char`).
/// If an allocation fails, `out` may have a part of the text.
pub(crate) fn push_shown(out: &mut String, text: &str) -> Result<(), AllocError>
    ensures { OnOk result (string_bytes out.new ≡ string_bytes out.old ++ spec.shown text.now) }
{
    for c in text.chars() {
        push_char(out, c)?;
    }
    Ok(())
}

/// Returns `text` as a report prints it, with control characters and hidden characters replaced (`push_char`).
pub(crate) fn shown(alloc: Global, text: &str) -> Result<String, AllocError>
    ensures { IfOk result (λ out. string_bytes out ≡ spec.shown text.now) }
{
    let mut out = String::new(alloc);
    push_shown(&mut out, text)?;
    Ok(out)
}

/// Returns the number of columns of `text` in a terminal (`unicode_width`). Control and hidden characters must have
/// been replaced (`push_shown`).
#[tactic(auto, unfolding(crate::specs::Characters::columns))]
pub(crate) fn columns(text: &str) -> usize
    ensures { result ≡ spec.columns text.now }
{
    text.width()
}

/// Appends `times` copies of the ASCII character `c` to `out`. If an allocation fails, `out` may have some of the
/// copies.
pub(crate) fn push_times(out: &mut String, times: usize, c: char) -> Result<(), AllocError>
    requires { c < 128 }
    ensures { OnOk result (string_bytes out.new ≡ string_bytes out.old ++ replicate times c) }
{
    for _count in 0..times {
        out.push(c)?;
    }
    Ok(())
}
