//! Numbers with nouns.
ghost use Rattle.std.specs.Prelude.{◌≡◌, ◌++◌, OnOk, string_bytes};
ghost use Rattle.toml_span_check.specs.Numbers as spec;

use std::alloc::AllocError;
use std::fmt::Write;

/// Appends a number and a noun, as in `1 file` or `2 files`. `word` is a space and the singular of the noun.
pub(crate) fn push_number(out: &mut String, number: usize, word: &str) -> Result<(), AllocError>
    ensures { OnOk result (string_bytes out.new ≡ string_bytes out.old ++ spec.number_of number word.now) }
{
    write!(out, "{number}")?;
    out.push_str(word)?;
    if number != 1 {
        out.push_str("s")?;
    }
    Ok(())
}
