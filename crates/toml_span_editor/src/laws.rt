//! Laws of positions, stated as functions that do nothing.
ghost use Rattle.toml_span_editor.specs.Laws as law;

/// In a text of less than 512 MiB, converting a character boundary to a position and back returns the same boundary. A
/// boundary between CR and LF is an exception.
pub fn positions_return()
    ensures { law.PositionsReturn }
{}

/// The results of `units` for the bytes of a character add up to the number of the character's code units.
pub fn counts_characters()
    ensures { law.CountsCharacters }
{}
