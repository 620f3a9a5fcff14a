//! Why a document could not be formatted.
use thiserror::Error;
use toml_span_tree::Error as TomlError;

/// Why a document could not be formatted.
#[derive(Debug, Drop, Error)]
pub enum FormatError<'t> {
    /// The text can't be read as TOML. Clashes, such as a key that is defined twice, are not errors here.
    #[error("{0}")]
    Invalid(TomlError<'t>),
    /// The result would differ from the text in more than its layout or, for `format_sorted`, the order of its lines.
    /// This is a bug in the formatter.
    #[error("the formatted text would not have the same values and comments; please report this bug")]
    WouldDiffer,
}
