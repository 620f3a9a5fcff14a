//! Translates regular expressions of ECMA-262, which JSON Schema uses, to the syntax of the crate `regex`.
ghost use Rattle.std.specs.Prelude.{◌≡◌, ◌++◌, ◌==◌, ◌||◌, ◌∷◌, [], if◌then◌else◌, IfOk, OnOk};
ghost use Rattle.std.specs.Prelude.{string_bytes};
ghost use Rattle.std.specs.Char.{encode_utf8};
ghost use Rattle.std.specs.Option.{is_some};
ghost use Rattle.std.specs.Str.{chars};
ghost use Rattle.regex.specs.Patterns.{default_config};
ghost use Rattle.regex.specs.Strings.{regex_source};
ghost use Rattle.regex_syntax.specs.Grammar.{read};
ghost use Rattle.toml_span_schema.specs.Patterns.{character, control, escape, in_class_after, is_pattern};
ghost use Rattle.toml_span_schema.specs.Patterns.{next_state, plain_character, translated};

use crate::error::CheckError;
use regex::{Error, Regex};
use regex_syntax::ErrorKind;
use std::alloc::{AllocError, Global};

/// Appends the translation of the escape that consists of a backslash and the character `c`. In ECMA-262, `\d` and `\w`
/// match only ASCII. Appends nothing for `\c`.
fn push_escape(out: &mut String, c: char) -> Result<(), AllocError>
    ensures { OnOk result (string_bytes out.new ≡ string_bytes out.old ++ escape c) }
{
    match c {
        'd' => out.push_str("[0-9]"),
        'D' => out.push_str("[^0-9]"),
        'w' => out.push_str("[0-9A-Za-z_]"),
        'W' => out.push_str("[^0-9A-Za-z_]"),
        's' => out.push_str("[\\s\\x{FEFF}]"),
        'S' => out.push_str("[^\\s\\x{FEFF}]"),
        // Escapes of `regex`, but not of ECMA-262. `regex` rejects the `(?!)`, and so the whole expression.
        'A' | 'z' | 'Z' | 'a' | '<' | '>' => out.push_str("(?!)"),
        'c' => Ok(()),
        _ => push_escaped(out, c),
    }
}

/// Appends a backslash and a character.
fn push_escaped(out: &mut String, c: char) -> Result<(), AllocError>
    ensures { OnOk result (string_bytes out.new ≡ string_bytes out.old ++ (92 ∷ [] ++ encode_utf8 c)) }
{
    out.push('\\')?;
    out.push(c)
}

/// Appends the translation of a character that is not escaped. Appends nothing for a backslash, which escapes the next
/// character. `in_class` says whether the character is inside brackets. In ECMA-262, `.` matches no end of a line.
fn push_plain(out: &mut String, in_class: bool, c: char) -> Result<(), AllocError>
    ensures { OnOk result (string_bytes out.new ≡ string_bytes out.old ++ plain_character in_class c) }
{
    if c == '\\' {
        Ok(())
    } else if in_class && (c == '[' || c == '&' || c == '~') {
        push_escaped(out, c)
    } else if !in_class && c == '.' {
        out.push_str("[^\\n\\r\\x{2028}\\x{2029}]")
    } else {
        out.push(c)
    }
}

/// Appends the translation of a character. `state` is 0, 1 after a backslash, and 2 after `\c`. `in_class` says whether
/// the character is inside brackets. After `\c`, a letter becomes its control character. `regex` rejects the rest.
fn push_character(out: &mut String, state: u8, in_class: bool, c: char) -> Result<(), AllocError>
    ensures { OnOk result (string_bytes out.new ≡ string_bytes out.old ++ character state in_class c) }
{
    if state == 0 {
        push_plain(out, in_class, c)
    } else if state == 1 {
        push_escape(out, c)
    } else if c.is_ascii_alphabetic() {
        out.push(char::from((u32::from(c) % 32) as u8))
    } else {
        out.push_str("(?!)")
    }
}

/// Returns whether the text after the character `c` is inside brackets. `state` and `in_class` are as for
/// `push_character`.
fn in_class_after(state: u8, in_class: bool, c: char) -> bool
    ensures { result ≡ in_class_after state in_class c }
{
    if state != 0 {
        in_class
    } else if c == '[' {
        true
    } else if c == ']' {
        false
    } else {
        in_class
    }
}

/// Returns the state after a character, from the `state` before it.
fn next_state(state: u8, c: char) -> u8
    ensures { result ≡ next_state state c }
{
    if state == 0 {
        if c == '\\' { 1 } else { 0 }
    } else if state == 1 && c == 'c' {
        2
    } else {
        0
    }
}

/// Appends a backslash unless `state` is 0. `regex` then rejects the regular expression, whose last escape is not
/// complete.
fn push_end(out: &mut String, state: u8) -> Result<(), AllocError>
    ensures { OnOk result (string_bytes out.new ≡ string_bytes out.old ++ (if state == 0 then [] else 92 ∷ [])) }
{
    if state == 0 { Ok(()) } else { out.push('\\') }
}

/// Translates a regular expression of ECMA-262 to the syntax of the crate `regex`. The result need not be valid.
fn translated(alloc: Global, pattern: &str) -> Result<String, AllocError>
    ensures { IfOk result (λ t. string_bytes t ≡ translated pattern.now) }
{
    let mut out = String::new(alloc);
    let mut state = 0;
    let mut in_class = false;
    for c in pattern.chars() {
        push_character(&mut out, state, in_class, c)?;
        in_class = in_class_after(state, in_class, c);
        state = next_state(state, c);
    }
    push_end(&mut out, state)?;
    Ok(out)
}

/// Compiles a regular expression of ECMA-262. Fails if the expression is malformed, too large or not supported.
pub(crate) fn compile_pattern(alloc: Global, pattern: &str) -> Result<Regex, Error>
    ensures { IfOk result (λ regex. regex_source regex ≡ translated pattern.now) }
{
    let text = translated(alloc, pattern)?;
    Regex::new(alloc, text.as_str())
}

/// Returns what a regular expression of ECMA-262 has that is not supported, and the number of the character where it
/// begins, counted from 1. Returns `None` if it has nothing of that kind.
pub(crate) fn unsupported(pattern: &str) -> Option<(&'static str, usize)> {
    let mut rest = pattern.as_bytes();
    let mut is_escaped = false;
    let mut character: usize = 0;
    for _ in 0..pattern.len() {
        let (byte, more) = rest.split_first()?;
        if *byte & 0xC0 != 0x80 {
            character = character.saturating_add(1);
        }
        if is_escaped && matches!(*byte, b'1'..=b'9' | b'k') {
            return Some(("a backreference", character.saturating_sub(1)));
        }
        let is_group = !is_escaped && *byte == b'(';
        if is_group && (more.starts_with(b"?=".as_slice()) || more.starts_with(b"?!".as_slice())) {
            return Some(("lookahead", character));
        }
        if is_group
            && (more.starts_with(b"?<=".as_slice()) || more.starts_with(b"?<!".as_slice()))
        {
            return Some(("lookbehind", character));
        }
        is_escaped = !is_escaped && *byte == b'\\';
        rest = more;
    }
    None
}

/// Returns whether `text` is a regular expression of the crate `regex`. Fails with `TooLong` if the expression is too
/// large or nests too deep.
fn is_read(alloc: Global, text: &str) -> Result<bool, CheckError>
    ensures { IfOk result (λ r. r ≡ is_some (read default_config (chars text.now))) }
{
    match Regex::new(alloc, text) {
        Ok(regex) => {
            drop(regex);
            Ok(true)
        }
        Err(Error::Syntax(error)) => match error.kind {
            ErrorKind::NestLimitExceeded => Err(CheckError::TooLong),
            _ => Ok(false),
        },
        Err(Error::OutOfMemory) => Err(CheckError::OutOfMemory),
        Err(_) => Err(CheckError::TooLong),
    }
}

/// Returns whether `text` is a regular expression of ECMA-262 that `compile_pattern` supports. Fails with `TooLong` if
/// the expression is too large or nests too deep.
pub(crate) fn is_pattern(alloc: Global, text: &str) -> Result<bool, CheckError>
    ensures { IfOk result (λ r. r ≡ is_pattern text.now) }
{
    let text = translated(alloc, text)?;
    is_read(alloc, text.as_str())
}
