//! Tokens, and the errors of the tokenizer.
ghost use Rattle.std.specs.Prelude.{◌≡◌};
ghost use Rattle.toml_span_lex.specs.Tokens.{lexeme, words};

use std::borrow::CowStr;

/// A token of a TOML document. Two tokens are equal if they are of the same kind and have equal contents.
#[derive(PartialEq, Eq, Debug, Drop)]
pub enum Token<'a> {
    /// A maximal run of spaces and tabs.
    Whitespace(&'a str),
    /// A line end: a line feed, or a carriage return and a line feed.
    Newline,
    /// A comment, from its `#` to the end of the line, without the line end. An ASCII control character other than a
    /// tab ends it earlier.
    Comment(&'a str),
    Equals,
    Period,
    Comma,
    Colon,
    Plus,
    LeftBrace,
    RightBrace,
    LeftBracket,
    RightBracket,
    /// A maximal run of ASCII letters, digits, `-` and `_`.
    Keylike(&'a str),
    String {
        /// The string as it is written, with its quotes.
        src: &'a str,
        /// The value. It is borrowed if and only if it equals the text between the quotes, not counting a line end
        /// directly after three opening quotes.
        val: CowStr<'a>,
        /// Whether the string is multi-line.
        multiline: bool,
    },
}

/// Why the next token could not be read, or is not the expected token. A `usize` is a byte offset, except where stated
/// otherwise.
#[derive(PartialEq, Eq, Debug, Drop)]
pub enum Error {
    /// A character that may not occur in a string.
    InvalidCharInString(usize, char),
    /// A character that may not follow a backslash. In a multi-line basic string, spaces and tabs may follow one only
    /// at the end of a line.
    InvalidEscape(usize, char),
    /// A character where a hexadecimal digit is expected.
    InvalidHexEscape(usize, char),
    /// The offset of the letter of an escape, the number of its digits, and the number that they spell, which is not a
    /// Unicode scalar value.
    InvalidEscapeValue(usize, usize, u32),
    /// A line end in a single-line string.
    NewlineInString(usize),
    /// A character that no token begins with.
    Unexpected(usize, char),
    /// The opening quote of a string that is not closed.
    UnterminatedString(usize),
    /// The offset of the opening quote of a multi-line string where a key is expected, and that offset plus the length
    /// of the string's value in bytes.
    MultilineStringKey(usize, usize),
    /// A token other than the expected one, or the end of the text where a token is expected. `found` is the name of
    /// the token, as `Token::describe` returns it, or `eof` at the end of the text. `expected` is the name of the
    /// expected token, also as `Token::describe` returns it, or `a table key` or `newline`.
    Wanted {
        /// The offset of the token, or the length of the text.
        at: usize,
        expected: &'static str,
        found: &'static str,
    },
}

impl Token<'_> {
    /// Returns the name of this kind of token, as errors use it, such as `a comma`.
    pub fn describe(&self) -> &'static str
        ensures { result.now ≡ words (lexeme self.now) }
    {
        match self {
            Token::Keylike(_) => "an identifier",
            Token::Equals => "an equals",
            Token::Period => "a period",
            Token::Comment(_) => "a comment",
            Token::Newline => "a newline",
            Token::Whitespace(_) => "whitespace",
            Token::Comma => "a comma",
            Token::RightBrace => "a right brace",
            Token::LeftBrace => "a left brace",
            Token::RightBracket => "a right bracket",
            Token::LeftBracket => "a left bracket",
            Token::String {
                multiline: true,
                ..
            } => "a multiline string",
            Token::String {
                multiline: false,
                ..
            } => "a string",
            Token::Colon => "a colon",
            Token::Plus => "a plus",
        }
    }
}
