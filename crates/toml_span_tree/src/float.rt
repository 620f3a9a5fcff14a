//! Floats, kept as text.

/// A float, kept as text. Two floats are equal if and only if their texts are: `1.0` and `1.00` differ.
#[derive(PartialEq, Eq, Debug, Drop)]
pub enum FloatText {
    /// The literal, without plus signs and underscores, and with `E` before the exponent.
    Finite(String),
    /// `inf`, or `-inf` if `negative`.
    Infinite { negative: bool },
    /// `nan`, or `-nan` if `negative`.
    NotANumber { negative: bool },
}

impl FloatText {
    ghost use Rattle.std.specs.Prelude.{◌≡◌};
    ghost use Rattle.toml_span_tree.specs.Float.{float_text};
    ghost use Rattle.toml_span_tree.specs.Value.{float_value};

    /// Returns the text: the literal of a finite float, otherwise `inf`, `-inf`, `nan` or `-nan`.
    pub fn text(&self) -> &str
        ensures { result.now ≡ float_text (float_value self.now) }
    {
        match self {
            FloatText::Finite(text) => text.as_str(),
            FloatText::Infinite { negative: false } => "inf",
            FloatText::Infinite { negative: true } => "-inf",
            FloatText::NotANumber { negative: false } => "nan",
            FloatText::NotANumber { negative: true } => "-nan",
        }
    }
}
