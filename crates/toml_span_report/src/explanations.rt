//! What the error codes mean.
ghost use Rattle.std.specs.Prelude.{◌≡◌, map, option_map};
ghost use Rattle.toml_span_report.specs.Explanations as spec;

use crate::tables::text_in;

/// The codes that `explain` knows. The codes of errors of `parse` come first, then the other codes of typed reads. The
/// last is `newer-toml`, for syntax that TOML 1.0 lacks.
pub const CODES: [&str; 25] = [
    "unexpected",
    "unterminated-string",
    "invalid-char-in-string",
    "invalid-escape",
    "invalid-hex-escape",
    "invalid-escape-value",
    "multiline-string-key",
    "unquoted-string",
    "invalid-number",
    "invalid-datetime",
    "unexpected-eof",
    "wanted",
    "exceeded-depth-limit",
    "dotted-key-invalid-type",
    "duplicate-key",
    "duplicate-table",
    "redefine-as-array",
    "out-of-range",
    "custom",
    "unexpected-keys",
    "missing-field",
    "deprecated",
    "unexpected-value",
    "duplicate-name",
    "newer-toml",
];

/// Each code with its explanation.
const PAGES: [(&str, &str); 25] = [
    (
        "unexpected",
        "a character that is not part of TOML here\n\nTOML does not use this character outside strings and comments. Keys need quotes\nif they have characters other than A-Z, a-z, 0-9, `_` and `-`, and so does each\nvalue that is not a number, a boolean, a date or a time.\n\n    größe = 1         # write \"größe\" = 1\n    home = ~/data     # write home = \"~/data\"\n    // a comment      # write # a comment",
    ),
    (
        "unterminated-string",
        "a string that is not closed before the end of the file\n\nA string ends with the same quotes that it begins with: three if it has several\nlines, otherwise one.\n\n    text = \"\"\"\n    hello\n\nWrite `\"\"\"` at the end of the string.",
    ),
    (
        "invalid-char-in-string",
        "a character that a string cannot contain\n\nA string that begins with one quote ends on the same line. Strings contain no\ncontrol characters except tabs.\n\n    name = \"x         # write name = \"x\"\n\nClose the string, use three quotes if it has several lines, or write a control\ncharacter as an escape, such as `\\u0001`.",
    ),
    (
        "invalid-escape",
        "a backslash that does not begin an escape\n\nEscapes are `\\b`, `\\t`, `\\n`, `\\f`, `\\r`, `\\e`, `\\\"`, `\\\\`, `\\xHH`, `\\uHHHH` and\n`\\UHHHHHHHH`. They occur in strings in double quotes.\n\n    path = \"C:\\dir\"   # write path = 'C:\\dir'\n\nWrite two backslashes for one, or use single quotes.",
    ),
    (
        "invalid-hex-escape",
        "an escape with too few hexadecimal digits\n\n`\\x` has two digits, `\\u` four and `\\U` eight.\n\n    a = \"\\u12\"         # write a = \"\\u0012\"\n    path = \"C:\\Users\"  # write path = 'C:\\Users'\n\nWrite zeros before the digits, or, for a path, use single quotes.",
    ),
    (
        "invalid-escape-value",
        "an escape that does not name a character\n\nCharacters are U+0000 to U+10FFFF, except for the surrogates U+D800 to U+DFFF.\n\n    a = \"\\uD83D\\uDE00\"   # write a = \"\\U0001F600\"\n\nWrite the character itself, or its code point after `\\U`.",
    ),
    (
        "multiline-string-key",
        "a string of several lines as a key\n\nA key has no quotes, or one on each side, and is on one line.\n\n    \"\"\"a\"\"\" = 1         # write \"a\" = 1",
    ),
    (
        "unquoted-string",
        "a value without quotes\n\nStrings have quotes. A value without quotes is a number, `true`, `false`, `inf`,\n`nan`, a date or a time.\n\n    host = localhost  # write host = \"localhost\"\n    debug = True      # write debug = true",
    ),
    (
        "invalid-number",
        "a number that is not valid in TOML\n\nA number has no leading zeros, at most one sign, and a digit on both sides of\neach `_` and of the point. A number with a prefix, `0x`, `0o` or `0b`, has no\nsign. Integers fit into 64 bits.\n\n    mode = 0755       # write mode = 0o755\n    half = .5         # write half = 0.5\n    time = 10s        # write time = \"10s\"",
    ),
    (
        "invalid-datetime",
        "a date or a time that does not exist, or is not written as in TOML\n\nDates are written as year-month-day, times in 24 hours.\n\n    day = 2024-1-5                      # write day = 2024-01-05\n    at = 2024-01-05T07:32:00+0100       # write +01:00",
    ),
    (
        "unexpected-eof",
        "a value is missing at the end of the file\n\n    port =\n\nWrite the value, or remove the key.",
    ),
    (
        "wanted",
        "something else was expected here\n\nA line of TOML is a key, `=` and a value, or a header in brackets. Elements of\narrays and pairs of inline tables are separated by commas.\n\n    port: 80          # write port = 80\n    a = [1 2]         # write a = [1, 2]\n    [server           # write [server]\n\nIf a program reports this, a value may be of a kind that the program does not\nexpect, such as a string instead of an integer.",
    ),
    (
        "exceeded-depth-limit",
        "keys or values that are too deeply nested\n\nValues may be nested 128 levels deep. Each bracket, brace and part of a key is a\nlevel. Remove some of them.",
    ),
    (
        "dotted-key-invalid-type",
        "a dotted key that goes through a value\n\nEach part of a dotted key before the last names a table. A number or a string is\nnot a table, and nothing can be added to an inline table after its brace.\n\n    a = {x = 1}\n    a.y = 2           # write a = {x = 1, y = 2}",
    ),
    (
        "duplicate-key",
        "a key that is defined twice\n\nA table can have each key only once. A header defines a key too: the last one\nin it.\n\n    port = 80\n    port = 8080       # remove one of the two",
    ),
    (
        "duplicate-table",
        "a table that is defined twice\n\nA table has one header. In an array of tables, each has a header `[[name]]`.\n\n    [server]\n    port = 80\n    [server]          # write its keys below the first header\n    host = \"h\"",
    ),
    (
        "redefine-as-array",
        "an array of tables with the name of a table\n\n    [a.b]\n    [[a]]             # write [[a]] before [a.b], or use another name\n\n`[a.b]` makes `a` a table, and `[[a]]` makes it an array of tables.",
    ),
    (
        "out-of-range",
        "a number that is too large or too small\n\nThe type that the program uses can't represent this number. The help says which\nnumbers it can represent.\n\n    port = 70000      # a port is from 0 to 65535",
    ),
    (
        "custom",
        "a value that the program refuses\n\nThe message comes from the program, and says what it expects.",
    ),
    (
        "unexpected-keys",
        "keys that the program does not know\n\nThey may be misspelled, or belong to another table.\n\n    hots = \"h\"        # write host = \"h\"\n\nThe note lists the keys that the program knows, and the help suggests one.",
    ),
    (
        "missing-field",
        "a key is missing\n\nThe program needs a key that the table does not have. Write it below the marked\nheader or, if the start of the file is marked, before the first header.",
    ),
    (
        "deprecated",
        "a key under its old name\n\nThe program still reads the old name. Write the new one.",
    ),
    (
        "unexpected-value",
        "a string that is not an expected value\n\n    log = \"trminal\"   # write log = \"terminal\"\n\nThe report lists the expected values.",
    ),
    (
        "duplicate-name",
        "a name that two elements of an array have\n\nThe program tells the elements apart by this name. Change one of the two.",
    ),
    (
        "newer-toml",
        "something that TOML 1.0 lacks\n\nThe file is checked as TOML 1.0, as files named `pyproject.toml` are: pip and\nolder versions of other programs read only that. TOML 1.1 added line ends,\ncomments and trailing commas in inline tables, the escapes `\\e` and `\\xHH`, and\ntimes without seconds.\n\n    a = {b = 1,}      # write {b = 1}\n    c = \"\\e\\x41\"      # write \"\\u001B\\u0041\"\n    d = 07:32         # write 07:32:00\n\nWrite it as in TOML 1.0, or check with `--toml 1.1` if all programs that read\nthe file know TOML 1.1.",
    ),
];

/// Returns the explanation of an error code: a title, an empty line, and lines that describe the error and its repair.
/// A line has at most 80 columns, and no line feed follows the last line. Returns `None` for a code that is not in
/// `CODES`, such as a code of a program's own reports.
pub fn explain(code: &str) -> Option<&'static str>
    ensures { option_map (λ page. page.now) result ≡ spec.explained code.now }
{
    text_in(&PAGES, code)
}

/// Proves that `PAGES` explains exactly the codes in `CODES`, in the same order. Does nothing at run time.
pub(crate) fn all_codes()
    ensures { map (λ entry. entry.0.now) PAGES ≡ map (λ code. code.now) CODES }
{}
