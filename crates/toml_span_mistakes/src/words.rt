//! The typical mistakes, one constant each: the code of its report, what the report says, and whether its replacement
//! is safe. A replacement is safe only if the mistake has just one reading, so a guess never is. Some are safe only in
//! some places (`safe_if`).
ghost use Rattle.std.specs.Prelude.{◌≡◌};
ghost use Rattle.toml_span_mistakes.specs.Errors.{IsExplained};

/// The code of a mistake: the one, of those that `explain` knows, whose explanation fits it best. The error may have
/// another code, since it depends on where `parse` stops.
#[derive(Clone, Copy)]
pub(crate) enum ErrorCode {
    Unexpected,
    UnterminatedString,
    InvalidCharInString,
    InvalidEscape,
    InvalidHexEscape,
    InvalidEscapeValue,
    MultilineStringKey,
    UnquotedString,
    InvalidNumber,
    InvalidDatetime,
    Wanted,
    DottedKeyInvalidType,
    DuplicateKey,
    DuplicateTable,
    RedefineAsArray,
}

/// Returns the text of a code.
#[tactic(auto, unfolding(toml_span_report::specs::Explanations::explained, toml_span_report::specs::Tables::text_in))]
pub(crate) fn code_name(code: ErrorCode) -> &'static str
    ensures { IsExplained result.now }
{
    match code {
        ErrorCode::Unexpected => "unexpected",
        ErrorCode::UnterminatedString => "unterminated-string",
        ErrorCode::InvalidCharInString => "invalid-char-in-string",
        ErrorCode::InvalidEscape => "invalid-escape",
        ErrorCode::InvalidHexEscape => "invalid-hex-escape",
        ErrorCode::InvalidEscapeValue => "invalid-escape-value",
        ErrorCode::MultilineStringKey => "multiline-string-key",
        ErrorCode::UnquotedString => "unquoted-string",
        ErrorCode::InvalidNumber => "invalid-number",
        ErrorCode::InvalidDatetime => "invalid-datetime",
        ErrorCode::Wanted => "wanted",
        ErrorCode::DottedKeyInvalidType => "dotted-key-invalid-type",
        ErrorCode::DuplicateKey => "duplicate-key",
        ErrorCode::DuplicateTable => "duplicate-table",
        ErrorCode::RedefineAsArray => "redefine-as-array",
    }
}

/// The values of the fields of `Words`, in their order.
pub(crate) type Mistake = (
    ErrorCode,
    &'static str,
    &'static str,
    &'static str,
    &'static str,
    &'static str,
    bool,
);

/// The code and the messages for a typical mistake. Each message may be empty.
#[derive(Clone, Copy)]
pub(crate) struct Words {
    pub(crate) code: ErrorCode,
    /// The headline. If it is empty, the report keeps the message of the error.
    pub(crate) headline: &'static str,
    /// The message of the primary label, unless `Finding::label` has one.
    pub(crate) label: &'static str,
    /// The message of the secondary label, which marks `Finding::also`. If it is empty, the report has no such label.
    pub(crate) also: &'static str,
    /// The help, up to the code to write.
    pub(crate) help: &'static str,
    /// The text between the help and the code. Empty if the help has no code.
    pub(crate) joint: &'static str,
    /// Whether the mistake has just one reading, so that a program may apply the replacement without asking.
    pub(crate) is_safe: bool,
}

/// Returns the code and the messages for a mistake.
pub(crate) fn words_of(mistake: Mistake) -> Words
    ensures { result ≡ record {
      code = mistake.entry.0;
      headline = mistake.entry.1;
      label = mistake.entry.2;
      also = mistake.entry.3;
      help = mistake.entry.4;
      joint = mistake.entry.5;
      is_safe = mistake.entry.6;
    } }
{
    Words {
        code: mistake.0,
        headline: mistake.1,
        label: mistake.2,
        also: mistake.3,
        help: mistake.4,
        joint: mistake.5,
        is_safe: mistake.6,
    }
}

/// Expands to the given text, or to an empty string.
macro_rules! text {
    () => { "" };
    ($text:literal) => { $text };
}

/// Expands to the given boolean, or to `false`.
macro_rules! flag {
    () => { false };
    ($flag:literal) => { $flag };
}

/// Expands to a `Mistake`. The arguments are the code, the headline and, in their order, the other fields of `Words`
/// that are neither empty nor `false`.
macro_rules! words {
    ($code:ident, $headline:literal $(, label: $label:literal)? $(, also: $also:literal)? $(, help: $help:literal)?
        $(, joint: $joint:literal)? $(, is_safe: $safe:literal)?) => {
        (
            ErrorCode::$code, $headline, text!($($label)?), text!($($also)?), text!($($help)?), text!($($joint)?),
            flag!($($safe)?)
        )
    };
}

// ---- values

pub(crate) const UNQUOTED: Mistake = words!(
    UnquotedString, "this value needs quotes", help: "put it in quotes", joint: ": ", is_safe: true
);

pub(crate) const UNQUOTED_TEXT: Mistake =
    words!(UnquotedString, "this value needs quotes", help: "put all of it in quotes");

pub(crate) const UPPER_BOOLEAN: Mistake =
    words!(UnquotedString, "booleans are lowercase", help: "write", joint: " ", is_safe: true);

pub(crate) const OTHER_BOOLEAN: Mistake = words!(
    UnquotedString, "this is not a boolean", label: "booleans are `true` and `false`", help: "write", joint: " "
);

pub(crate) const NEAR_TRUE: Mistake = words!(
    UnquotedString, "this is not a boolean", label: "strings need quotes", help: "did you mean `true`?"
);

pub(crate) const NEAR_FALSE: Mistake = words!(
    UnquotedString, "this is not a boolean", label: "strings need quotes", help: "did you mean `false`?"
);

pub(crate) const NULL: Mistake =
    words!(UnquotedString, "TOML has no null", help: "leave the key out");

pub(crate) const NULL_ELEMENT: Mistake =
    words!(UnquotedString, "TOML has no null", help: "leave the element out");

pub(crate) const OTHER_FLOAT: Mistake = words!(
    UnquotedString, "this is not a float", label: "special floats are `inf` and `nan`", help: "write", joint: " ",
    is_safe: true
);

pub(crate) const INFINITY: Mistake = words!(
    UnquotedString, "this is not a float", label: "special floats are `inf` and `nan`", help: "write", joint: " "
);

pub(crate) const YAML_TEXT: Mistake = words!(
    Unexpected, "this looks like YAML, not TOML", help: "write a text of several lines in `\"\"\"`"
);

pub(crate) const PREFIXED: Mistake =
    words!(UnquotedString, "strings have no prefix", help: "remove the prefix", joint: ": ");

pub(crate) const RAW_STRING: Mistake = words!(
    UnquotedString, "strings have no prefix", help: "use single quotes for a raw string", joint: ": "
);

pub(crate) const VALUE_BELOW: Mistake = words!(
    Wanted, "a value must be on the same line as `=`", label: "expected a value here", help: "write", joint: " "
);

pub(crate) const HASH_VALUE: Mistake =
    words!(UnquotedString, "`#` begins a comment", help: "put the value in quotes", joint: ": ");

pub(crate) const NO_VALUE_AFTER_EQUALS: Mistake = words!(
    Wanted, "this key has no value", label: "expected a value on this line",
    help: "write a value, or remove the line"
);

pub(crate) const FLOAT_EXPECTED: Mistake =
    words!(Wanted, "", help: "write", joint: " ", is_safe: true);

pub(crate) const STRING_EXPECTED: Mistake =
    words!(Wanted, "", help: "put it in quotes", joint: ": ");

// ---- signs, quotes and comments of other languages

pub(crate) const BACKTICKS: Mistake = words!(
    Unexpected, "backticks do not quote strings", help: "use double quotes", joint: ": ", is_safe: true
);

pub(crate) const CURLY_QUOTES: Mistake = words!(
    Unexpected, "strings need straight quotes", help: "use double quotes", joint: ": ", is_safe: true
);

pub(crate) const OTHER_SPACE: Mistake = words!(
    Unexpected, "this is not an ordinary space", help: "use an ordinary space", is_safe: true
);

pub(crate) const INVISIBLE: Mistake =
    words!(Unexpected, "this character is invisible", help: "remove it", is_safe: true);

pub(crate) const OTHER_SIGN: Mistake =
    words!(Unexpected, "this only looks like an ASCII character", help: "write", joint: " ");

pub(crate) const PARENTHESES: Mistake =
    words!(Unexpected, "arrays use brackets, not parentheses", help: "write an array", joint: ": ");

pub(crate) const CONFLICT: Mistake = words!(
    Unexpected, "this is a merge conflict marker", help: "choose one side and delete the markers"
);

pub(crate) const MARKUP: Mistake = words!(Unexpected, "this looks like XML or HTML, not TOML");

pub(crate) const SLASHES: Mistake =
    words!(Unexpected, "comments begin with `#`", help: "replace `//` with `#`", is_safe: true);

pub(crate) const SEMICOLONS: Mistake =
    words!(Unexpected, "comments begin with `#`", help: "replace `;` with `#`", is_safe: true);

pub(crate) const SEMICOLON_COMMENT: Mistake =
    words!(Unexpected, "comments begin with `#`", help: "replace `;` with `#`");

pub(crate) const DASHES: Mistake =
    words!(Unexpected, "comments begin with `#`", help: "replace `--` with `#`");

pub(crate) const BLOCK_COMMENT: Mistake = words!(
    Unexpected, "TOML has no block comments", help: "begin each line of the comment with `#`"
);

pub(crate) const INNER_COMMENT: Mistake = words!(
    Unexpected, "TOML has no block comments", help: "remove it, or write it after `#` at the end of the line"
);

pub(crate) const COMMENT_LINE: Mistake =
    words!(Unexpected, "TOML has no block comments", help: "write", joint: " ");

pub(crate) const SEMICOLON: Mistake =
    words!(Unexpected, "lines do not end with a semicolon", help: "remove it", is_safe: true);

pub(crate) const SEMICOLON_BETWEEN: Mistake = words!(
    Unexpected, "each key begins on a new line", help: "replace the semicolon with a new line"
);

pub(crate) const SEMICOLON_IN_ARRAY: Mistake =
    words!(Wanted, "array elements are separated by commas", help: "replace `;` with `,`");

pub(crate) const SEMICOLON_IN_TABLE: Mistake = words!(
    Wanted, "the pairs of an inline table are separated by commas", help: "replace `;` with `,`"
);

pub(crate) const LONE_RETURN: Mistake = words!(
    Unexpected, "a carriage return alone does not end a line", help: "end lines with a line feed"
);

// ---- keys

pub(crate) const BARE_KEY: Mistake = words!(
    Unexpected, "this key needs quotes", label: "bare keys contain only A-Z, a-z, 0-9, `_` and `-`",
    help: "put it in quotes", joint: ": "
);

pub(crate) const OPERATOR: Mistake =
    words!(Unexpected, "TOML has no operator except `=`", help: "write the whole value after `=`");

pub(crate) const INDEX: Mistake = words!(
    Wanted, "an array element can't be set by its position", help: "write the whole array", joint: ": "
);

pub(crate) const EQUALS: Mistake = words!(
    Wanted, "a key and its value are separated by one `=`", help: "write", joint: " ", is_safe: true
);

pub(crate) const COLON_EQUALS: Mistake = words!(
    Wanted, "TOML writes `key = value`, not `key := value`", help: "write", joint: " ", is_safe: true
);

pub(crate) const ARROW: Mistake =
    words!(Wanted, "TOML writes `key = value`, not `key => value`", help: "write", joint: " ");

pub(crate) const COLON: Mistake = words!(
    Wanted, "TOML writes `key = value`, not `key: value`", help: "write", joint: " ", is_safe: true
);

pub(crate) const COLON_AND_EQUALS: Mistake = words!(
    Wanted, "this line has both `:` and `=`", label: "this is not part of the key",
    help: "remove it, or write `#` before it if the line is a comment"
);

pub(crate) const NO_EQUALS: Mistake =
    words!(Wanted, "`=` is missing between this key and its value", help: "write", joint: " ");

pub(crate) const LATE_HEADER: Mistake =
    words!(Wanted, "a header must be first on its line", help: "remove what is before it");

pub(crate) const NO_VALUE: Mistake =
    words!(Wanted, "this key has no value", help: "write `=` and a value after it");

pub(crate) const KEYWORD: Mistake =
    words!(Wanted, "TOML has no keywords such as `export` or `let`", help: "remove this word");

pub(crate) const EXTRA_DOT: Mistake = words!(
    Wanted, "this key has an empty part", help: "remove this dot, or write an empty part as `\"\"`"
);

pub(crate) const NO_KEY: Mistake = words!(
    Wanted, "this value has no key", label: "expected a key", help: "write a key before `=`"
);

pub(crate) const NO_NAME: Mistake =
    words!(Wanted, "this header has no name", help: "write the name of the table: `[name]`");

pub(crate) const LONG_KEY: Mistake = words!(
    MultilineStringKey, "keys can't be multiline strings", help: "use one quote on each side of the key"
);

pub(crate) const OPEN_KEY: Mistake = words!(
    InvalidCharInString, "this key is not closed", help: "close it after the key", joint: ": "
);

// ---- other formats

pub(crate) const YAML_TABLE: Mistake = words!(
    Unexpected, "this looks like YAML, not TOML", help: "begin a table with a header", joint: ": "
);

pub(crate) const YAML_LIST: Mistake =
    words!(Unexpected, "this looks like YAML, not TOML", help: "write an array", joint: ": ");

pub(crate) const YAML_ITEM: Mistake = words!(
    Unexpected, "this looks like YAML, not TOML", help: "begin each table in an array with `[[name]]`, then write",
    joint: " "
);

pub(crate) const YAML_ITEMS: Mistake = words!(
    Unexpected, "this looks like YAML, not TOML", help: "begin each table in an array with", joint: " "
);

pub(crate) const DOCUMENT_MARKER: Mistake =
    words!(Unexpected, "this looks like YAML, not TOML", help: "remove this line");

pub(crate) const JSON: Mistake =
    words!(Unexpected, "this looks like JSON, not TOML", help: "write", joint: " ");

pub(crate) const JSON_DOCUMENT: Mistake = words!(
    Unexpected, "this looks like JSON, not TOML",
    help: "remove the braces and commas, and write `key = value` on each line"
);

pub(crate) const BRACE_HEADER: Mistake =
    words!(Wanted, "table headers use brackets, not braces", help: "write", joint: " ");

pub(crate) const TEMPLATE: Mistake = words!(
    Unexpected, "this is a template placeholder", help: "fill it in, or put it in quotes", joint: ": "
);

pub(crate) const TEMPLATE_LINE: Mistake = words!(
    Unexpected, "this looks like a template, not TOML", help: "render the template before reading it as TOML"
);

// ---- arrays, inline tables and headers

pub(crate) const EXTRA_COMMA: Mistake =
    words!(Wanted, "there is no value before this comma", help: "remove the comma");

pub(crate) const BRACED_ARRAY: Mistake =
    words!(Wanted, "arrays use brackets, not braces", help: "write an array", joint: ": ");

pub(crate) const BARE_ARRAY: Mistake = words!(
    Wanted, "an array needs brackets", help: "put brackets around the elements", joint: ": "
);

pub(crate) const NO_COMMA: Mistake = words!(
    Wanted, "a comma is missing between two elements", help: "separate the elements with `,`", is_safe: true
);

pub(crate) const NO_COMMA_IN_TABLE: Mistake = words!(
    Wanted, "a comma is missing between two pairs", help: "separate the pairs with `,`", is_safe: true
);

pub(crate) const OPEN_ARRAY: Mistake = words!(
    Wanted, "this array is not closed", label: "expected `,` or `]`", also: "the array begins here",
    help: "add `]` after the last element"
);

pub(crate) const OPEN_TABLE: Mistake = words!(
    Wanted, "this inline table is not closed", label: "expected `,` or `}`", also: "the table begins here",
    help: "add `}` after the last pair"
);

pub(crate) const CLOSED_BY_BRACE: Mistake = words!(
    Wanted, "this array is closed with a brace", also: "the array begins here", help: "write", joint: " "
);

pub(crate) const CLOSED_BY_BRACKET: Mistake = words!(
    Wanted, "this inline table is closed with a bracket", also: "the table begins here", help: "write", joint: " "
);

pub(crate) const EXTRA_CLOSING: Mistake =
    words!(Wanted, "there is nothing for this bracket to close", help: "remove it");

pub(crate) const ARRAY_ALONE: Mistake =
    words!(Wanted, "an array needs a key", help: "write `key = [\"a\", \"b\"]`");

pub(crate) const OPEN_HEADER: Mistake = words!(
    Wanted, "this header is not closed", help: "close it with `]` on the same line", joint: ": ", is_safe: true
);

pub(crate) const HEADER_BRACKET: Mistake = words!(
    Wanted, "this header has an extra bracket", help: "remove it, or begin the header with `[[`"
);

// ---- lines

pub(crate) const LAST_COMMA: Mistake =
    words!(Wanted, "lines do not end with a comma", help: "remove it", is_safe: true);

pub(crate) const SECOND_KEY: Mistake = words!(
    Wanted, "this line has two keys", help: "begin a new line before the second key", is_safe: true
);

pub(crate) const COMMA_AFTER_VALUE: Mistake = words!(
    Wanted, "this line has two keys", help: "replace the comma with a new line", is_safe: true
);

pub(crate) const KEY_AFTER_HEADER: Mistake = words!(
    Wanted, "this line has a header and a key", help: "begin a new line before the key", is_safe: true
);

pub(crate) const VALUE_OF_HEADER: Mistake = words!(
    Wanted, "a header can't have a value", help: "write a key without brackets", joint: ": "
);

pub(crate) const QUOTE_IN_STRING: Mistake = words!(
    Wanted, "the string ends at an inner quote", help: "use the other kind of quotes", joint: ": "
);

pub(crate) const TWO_STRINGS: Mistake = words!(
    Wanted, "a key can have only one value", help: "write one string, or an array such as `[\"a\", \"b\"]`"
);

pub(crate) const JOINED: Mistake =
    words!(Wanted, "strings can't be joined", help: "write one string");

pub(crate) const HALF_DAY: Mistake =
    words!(InvalidDatetime, "times have no AM or PM", help: "use a 24-hour time", joint: ": ");

pub(crate) const ZONE_NAME: Mistake =
    words!(InvalidDatetime, "offsets are written as `Z` or `+01:00`", help: "write", joint: " ");

pub(crate) const OFFSET_SPACE: Mistake = words!(
    InvalidDatetime, "an offset follows the time without a space", help: "write", joint: " ", is_safe: true
);

pub(crate) const AFTER_VALUE: Mistake =
    words!(Wanted, "expected the end of the line", label: "only a comment can follow here");

// ---- numbers

pub(crate) const LEADING_POINT: Mistake = words!(
    InvalidNumber, "a float needs a digit before the point", help: "write", joint: " ", is_safe: true
);

pub(crate) const TRAILING_POINT: Mistake = words!(
    InvalidNumber, "a float needs a digit after the point", help: "write", joint: " ", is_safe: true
);

pub(crate) const THOUSANDS: Mistake =
    words!(InvalidNumber, "digits can't be grouped with commas", help: "write", joint: " ");

pub(crate) const DECIMAL_COMMA: Mistake =
    words!(InvalidNumber, "a float has a point, not a comma", help: "write", joint: " ");

pub(crate) const LEADING_ZERO: Mistake =
    words!(InvalidNumber, "numbers can't have leading zeros", help: "write", joint: " ");

pub(crate) const OCTAL: Mistake =
    words!(InvalidNumber, "octal numbers begin with `0o`", help: "write", joint: " ");

pub(crate) const UPPER_PREFIX: Mistake = words!(
    InvalidNumber, "number prefixes are lowercase", help: "write", joint: " ", is_safe: true
);

pub(crate) const OTHER_DIGIT: Mistake = words!(InvalidNumber, "this number has an invalid digit");

pub(crate) const SIGNS: Mistake =
    words!(InvalidNumber, "a number can have only one sign", help: "write", joint: " ");

pub(crate) const UNDERSCORE: Mistake = words!(
    InvalidNumber, "each `_` in a number needs a digit on both sides", help: "write", joint: " ", is_safe: true
);

pub(crate) const MISPLACED: Mistake = words!(
    InvalidNumber,
    "each `_` in a number needs a digit on both sides"
);

pub(crate) const NO_DIGITS: Mistake = words!(
    InvalidNumber, "this number has no digits", help: "write digits after the prefix, as in `0x1F`"
);

pub(crate) const NO_SIGNED_DIGITS: Mistake = words!(
    InvalidNumber, "this number has no digits", help: "write digits after the prefix, and no sign, as in `0x1F`"
);

pub(crate) const NO_EXPONENT: Mistake = words!(
    InvalidNumber, "this exponent has no digits", help: "write a number after `e`, as in `1e6`"
);

pub(crate) const SIGNED_PREFIX: Mistake = words!(
    InvalidNumber, "only decimal numbers can have a sign", help: "remove the sign, or write a decimal number"
);

pub(crate) const PLUS_PREFIX: Mistake = words!(
    InvalidNumber, "only decimal numbers can have a sign", help: "remove the sign", joint: ": ", is_safe: true
);

pub(crate) const SIGNED_DECIMAL: Mistake =
    words!(InvalidNumber, "only decimal numbers can have a sign", help: "write", joint: " ");

pub(crate) const TOO_LARGE: Mistake = words!(
    InvalidNumber, "this number does not fit into a 64-bit signed integer",
    label: "its range is -9223372036854775808 to 9223372036854775807",
    help: "write larger numbers as floats or strings"
);

// ---- dates and times

pub(crate) const SLASH_DATE: Mistake = words!(
    InvalidDatetime, "dates are written as year-month-day", help: "if the month comes first, write", joint: " "
);

pub(crate) const SHORT_DATE: Mistake = words!(
    InvalidDatetime, "months and days have two digits", help: "write", joint: " ", is_safe: true
);

pub(crate) const NO_MONTH: Mistake = words!(
    InvalidDatetime, "this month does not exist", label: "months are 01 to 12, days at most 31"
);

pub(crate) const NO_DAY: Mistake = words!(InvalidDatetime, "this month does not have this day");

pub(crate) const NO_TIME: Mistake =
    words!(InvalidDatetime, "this time does not exist", label: "hours are 00 to 23");

pub(crate) const OFFSET: Mistake =
    words!(InvalidDatetime, "an offset needs a colon", help: "write", joint: " ", is_safe: true);

pub(crate) const DATETIME: Mistake =
    words!(InvalidDatetime, "", help: "write dates like `2026-01-31` and times like `07:32:00`");

// ---- strings

pub(crate) const OPEN_STRING: Mistake = words!(
    InvalidCharInString, "this string is not closed", help: "close it with `\"`, or use `\"\"\"` for several lines"
);

pub(crate) const OPEN_LITERAL: Mistake = words!(
    InvalidCharInString, "this string is not closed", help: "close it with `'`, or use `'''` for several lines"
);

pub(crate) const OPEN_LONG: Mistake =
    words!(UnterminatedString, "this string is not closed", help: "close it with `\"\"\"`");

pub(crate) const OPEN_LONG_LITERAL: Mistake =
    words!(UnterminatedString, "this string is not closed", help: "close it with `'''`");

pub(crate) const CONTROL: Mistake =
    words!(InvalidCharInString, "control characters must be escaped", help: "write", joint: " ");

pub(crate) const CONTROL_IN_LITERAL: Mistake = words!(
    InvalidCharInString, "control characters must be escaped",
    help: "use a string in double quotes, with an escape such as `\\u0001`"
);

pub(crate) const CONTINUED: Mistake = words!(
    InvalidCharInString, "only multiline strings continue on the next line",
    help: "use `\"\"\"` on both sides of the string"
);

pub(crate) const BACKSLASH: Mistake = words!(
    InvalidEscape, "invalid escape sequence", help: "double every backslash, or use single quotes", joint: ": "
);

pub(crate) const BACKSLASH_IN_LONG: Mistake =
    words!(InvalidEscape, "invalid escape sequence", help: "double every backslash, or use `'''`");

pub(crate) const SHORT_ESCAPE: Mistake =
    words!(InvalidHexEscape, "this escape has too few digits", help: "write", joint: " ");

pub(crate) const SURROGATE: Mistake = words!(
    InvalidEscapeValue, "this escape is a surrogate, not a character",
    help: "write a surrogate pair as one escape, such as `\\U0001F600`"
);

pub(crate) const NO_CHARACTER: Mistake = words!(
    InvalidEscapeValue, "this escape is past the last character", label: "the last character is `\\U0010FFFF`"
);

// ---- definitions that clash

pub(crate) const TABLE_TWICE: Mistake = words!(
    DuplicateTable, "", label: "duplicate table", also: "first table instance",
    help: "merge the two tables, or write both headers as", joint: " "
);

pub(crate) const ARRAY_OF_TABLE: Mistake = words!(
    DuplicateTable, "this is already a table, not an array of tables", also: "table defined here",
    help: "write the first header as", joint: " "
);

pub(crate) const TABLE_OF_ARRAY: Mistake = words!(
    DuplicateTable, "this is already an array of tables, not a table", also: "array of tables begins here",
    help: "to add a table to it, write", joint: " "
);

pub(crate) const ARRAY_AFTER_TABLE: Mistake =
    words!(RedefineAsArray, "", help: "put it before the headers of its subtables");

pub(crate) const CLOSED_TABLE: Mistake = words!(
    DottedKeyInvalidType, "an inline table can't be extended", label: "this extends the table",
    also: "inline table defined here", help: "write the key inside its braces", joint: ": "
);

pub(crate) const CLOSED_TABLE_HEADER: Mistake = words!(
    DottedKeyInvalidType, "an inline table can't be extended", label: "this extends the table",
    also: "inline table defined here", help: "write it inside the braces", joint: ": "
);

pub(crate) const CLOSED_ARRAY: Mistake = words!(
    DuplicateKey, "a static array can't be extended", label: "this extends the array", also: "array defined here",
    help: "write the element inside its brackets"
);

pub(crate) const THROUGH_VALUE: Mistake = words!(
    DottedKeyInvalidType, "only tables can be extended", label: "used as a table here", also: "this is not a table",
    help: "rename or remove one of the two"
);

pub(crate) const DOTTED_TABLE: Mistake = words!(
    DuplicateTable, "this table is already defined by a dotted key", also: "defined here",
    help: "use only dotted keys, or only a header, for this table"
);
