//! Reads a text token by token.
ghost use Rattle.std.specs.Prelude.{◌≡◌, ℕ, ◌≤◌, ◌<◌, List, length, slice_index, false, ◌==◌, ◌||◌, ◌↔◌, IsTrue};
ghost use Rattle.std.specs.Str.{IsCharBoundary};
ghost use Rattle.toml_span_lex.specs.Bytes.{MaximalRun, apostrophe, is_blank, line_feed, hash, quotation_mark};
ghost use Rattle.toml_span_lex.specs.code.Text.{LeadsTo};
ghost use Rattle.toml_span_lex.specs.Text.{FirstPlace, KeepsLineEnd, IsFoldedPlace};
ghost use Rattle.toml_span_lex.specs.Tokenizer as spec;
ghost use Rattle.toml_span_lex.specs.Tokenizer.{Cursor};
ghost use Rattle.toml_span_lex.specs.Tokens.{lexeme, begins_alone};
ghost use Rattle.toml_span_lex.specs.code.Tokens.{FindsToken};

use crate::bytes;
use crate::bytes::is_keylike;
use crate::key::Key;
use crate::span::Span;
use crate::stop::Stop;
use crate::strings::string_at;
use crate::text::{char_at, is_crlf, line_end};
use crate::tokens::{Error, Token};
use std::alloc::{AllocError, Global};
use std::borrow::CowStr;
use std::marker::Model;

/// A text, and the byte offset up to which it has been read. The offset is always a character boundary, and never
/// between the two bytes of a CRLF.
///
/// If an allocation fails, the offset does not change, and the call can be repeated. For other errors, each method says
/// where it leaves the tokenizer. Reading can continue there.
#[derive(Drop)]
pub struct Tokenizer<'a> {
    input: &'a str,
    at: usize,
}

impl<'a> Model for Tokenizer<'a> {
    ghost use Rattle.std.specs.Prelude.{ℕ, List};
    ghost use Rattle.toml_span_lex.specs.Text.{FirstPlace, IsFoldedPlace};
    ghost use Rattle.toml_span_lex.specs.Tokenizer.{Cursor};

    ghost Value = { Cursor };

    ghost view = { λ t. record { text = t.input.now; at = t.at } };

    ghost invariant = { λ t. IsFoldedPlace t.input.now t.at };
}

/// Returns the offset at which reading begins: after a byte order mark, or 0 if the text does not begin with one.
pub fn first_place(text: &str) -> usize
    ensures place { FirstPlace text.now result }
    ensures boundary { IsCharBoundary text.now result }
    ensures whole { KeepsLineEnd text.now result }
{
    if text.is_empty() {
        return 0;
    }
    let (c, next) = char_at(text, 0);
    if c == '\u{feff}' { next } else { 0 }
}

/// Reads the token at the byte offset `at`, where a character other than a quote must begin. Returns the token with the
/// offset after it. If no token begins with the character at `at`, fails with `Unexpected` and the offset after that
/// character.
///
/// `ws = *wschar`, `newline = %x0A / %x0D.0A`, `comment = comment-start-symbol *non-eol`,
/// `unquoted-key = 1*( ALPHA / DIGIT / %x2D / %x5F )`
#[tactic(auto, using(std::proofs::lemmas::Str::lead_after_ascii))]
pub fn token_at(input: &str, at: usize) -> Result<(Token<'_>, usize), (Error, usize)>
    requires boundary { IsCharBoundary input.now at }
    requires within { at < length input.now }
    requires quote { (slice_index input.now at == quotation_mark || slice_index input.now at == apostrophe) ≡ false }
    ensures finds { FindsToken input.now at result }
    ensures boundary { LeadsTo (λ j. IsCharBoundary input.now j) result }
{
    let bytes = input.as_bytes();
    let byte = bytes[at];
    match byte {
        b' ' | b'\t' => {
            let end = bytes::blanks_end(input, at);
            Ok((Token::Whitespace(&input[at..end]), end))
        }
        b'\n' => Ok((Token::Newline, at + 1)),
        b'#' => {
            let end = bytes::printed_end(input, at);
            Ok((Token::Comment(&input[at..end]), end))
        }
        b'=' => Ok((Token::Equals, at + 1)),
        b'.' => Ok((Token::Period, at + 1)),
        b',' => Ok((Token::Comma, at + 1)),
        b':' => Ok((Token::Colon, at + 1)),
        b'+' => Ok((Token::Plus, at + 1)),
        b'{' => Ok((Token::LeftBrace, at + 1)),
        b'}' => Ok((Token::RightBrace, at + 1)),
        b'[' => Ok((Token::LeftBracket, at + 1)),
        b']' => Ok((Token::RightBracket, at + 1)),
        _ => other_at(input, at),
    }
}

/// Reads the CRLF or the `Keylike` token at `at`. Returns the token with the offset after it. At any other character,
/// fails with `Unexpected` and the offset after that character.
fn other_at(input: &str, at: usize) -> Result<(Token<'_>, usize), (Error, usize)>
    requires boundary { IsCharBoundary input.now at }
    requires within { at < length input.now }
    requires other { begins_alone (slice_index input.now at) ≡ false }
    requires quote { (slice_index input.now at == quotation_mark || slice_index input.now at == apostrophe) ≡ false }
    ensures finds { FindsToken input.now at result }
    ensures boundary { LeadsTo (λ j. IsCharBoundary input.now j) result }
{
    let bytes = input.as_bytes();
    if is_crlf(bytes, at) {
        Ok((Token::Newline, at + 2))
    } else if is_keylike(bytes[at]) {
        let end = bytes::keylike_end(input, at);
        Ok((Token::Keylike(&input[at..end]), end))
    } else {
        let (c, next) = char_at(input, at);
        Err((Error::Unexpected(at, c), next))
    }
}

/// Returns the offset after the first line end at or after `from`, or the length of the text if no line end follows.
fn line_after(text: &str, from: usize) -> usize
    requires { from ≤ length text.now }
    ensures skips { spec.SkipsLine text.now from result }
    ensures boundary { IsCharBoundary text.now result }
{
    for at in from..text.len() {
        if let Some(next) = line_end(text, at) {
            return next;
        }
    }
    text.len()
}

/// Returns whether two tokens are equal, contents included.
fn is_same(a: &Token<'_>, b: &Token<'_>) -> bool
    ensures { IsTrue result ↔ (lexeme a.now ≡ lexeme b.now) }
{
    a == b
}

impl<'a> Tokenizer<'a> {
    /// Returns a tokenizer at the start of the text or, if there is a byte order mark, after it.
    pub fn new(input: &'a str) -> Self
        ensures text { result.text ≡ input.now }
        ensures at { FirstPlace input.now result.at }
    {
        Tokenizer {
            input,
            at: first_place(input),
        }
    }

    /// Returns a copy at the same offset.
    fn copy(&self) -> Self
        ensures { result ≡ self.now }
    {
        Tokenizer {
            input: self.input,
            at: self.at,
        }
    }

    /// Reads the next token. Returns it with its span, or `None` at the end of the text.
    ///
    /// # Errors
    ///
    /// Fails if no token can be read. The tokenizer is then after the invalid character, line end or escape. If the
    /// invalid character is a space or tab after a backslash in a multi-line basic string, the tokenizer is after all
    /// spaces and tabs there. If a string is not closed, the tokenizer is at the end of the text. If an allocation
    /// fails, it stays where it is.
    pub fn step(&mut self, alloc: Global) -> Result<Option<(Span, Token<'a>)>, Stop<Error>>
        ensures text { self.new.text ≡ self.old.text }
        ensures step { spec.StepGives self.old.text self.old.at result self.new.at }
        ensures borrows { spec.BorrowsAt self.old.text self.old.at result self.new.at }
    {
        let start = self.at;
        if start == self.input.len() {
            return Ok(None);
        }
        let byte = self.input.as_bytes()[start];
        if byte == b'"' || byte == b'\'' {
            match string_at(alloc, self.input, start) {
                Ok((span, token, end)) => {
                    self.at = end;
                    Ok(Some((span, token)))
                }
                Err(Stop::Memory(e)) => Err(Stop::Memory(e)),
                Err(Stop::Fault((error, next))) => {
                    self.at = next;
                    Err(Stop::Fault(error))
                }
            }
        } else {
            match token_at(self.input, start) {
                Ok((token, end)) => {
                    self.at = end;
                    Ok(Some((Span { start, end }, token)))
                }
                Err((error, next)) => {
                    self.at = next;
                    Err(Stop::Fault(error))
                }
            }
        }
    }

    /// Returns what `step` would return. The tokenizer stays where it is, even after an error.
    pub fn peek(&mut self, alloc: Global) -> Result<Option<(Span, Token<'a>)>, Stop<Error>>
        ensures unchanged { self.new ≡ self.old }
        ensures step { (j : ℕ) × spec.StepGives self.old.text self.old.at result j
            × spec.BorrowsAt self.old.text self.old.at result j }
    {
        let mut ahead = self.copy();
        ahead.step(alloc)
    }

    /// Reads the next token if it equals `expected`, contents included. Returns whether the token was read: `false` for
    /// another token or at the end of the text.
    ///
    /// Unless the result is `Ok(true)`, the tokenizer stays where it is. Fails if no token can be read, or if an
    /// allocation fails.
    pub fn eat(&mut self, alloc: Global, expected: Token<'a>) -> Result<bool, Stop<Error>>
        ensures text { self.new.text ≡ self.old.text }
        ensures eats { spec.Eats self.old result (lexeme expected.entry) self.new }
    {
        match self.eat_spanned(alloc, expected) {
            Ok(Some(_)) => Ok(true),
            Ok(None) => Ok(false),
            Err(stop) => Err(stop),
        }
    }

    /// Reads the next token if it equals `expected`, contents included. Returns the span of the token, or `None` for
    /// another token or at the end of the text.
    ///
    /// Unless the result is a span, the tokenizer stays where it is. Fails if no token can be read, or if an allocation
    /// fails.
    pub fn eat_spanned(
        &mut self,
        alloc: Global,
        expected: Token<'a>,
    ) -> Result<Option<Span>, Stop<Error>>
        ensures text { self.new.text ≡ self.old.text }
        ensures eats { spec.EatsSpanned self.old result (lexeme expected.entry) self.new }
    {
        let mut ahead = self.copy();
        match ahead.step(alloc)? {
            Some((span, found)) => {
                if is_same(&found, &expected) {
                    *self = ahead;
                    Ok(Some(span))
                } else {
                    Ok(None)
                }
            }
            None => Ok(None),
        }
    }

    /// Reads the next token, which must equal `expected`, contents included.
    ///
    /// # Errors
    ///
    /// Fails with `Wanted` at the end of the text, or at another token; the tokenizer is then after that token. If no
    /// token can be read, the tokenizer is where `step` would leave it. If an allocation fails, it stays where it is.
    pub fn expect(&mut self, alloc: Global, expected: Token<'a>) -> Result<(), Stop<Error>>
        ensures text { self.new.text ≡ self.old.text }
        ensures expects { spec.Expects self.old.text self.old.at result (lexeme expected.entry) self.new.at }
    {
        match self.expect_spanned(alloc, expected) {
            Ok(_) => Ok(()),
            Err(stop) => Err(stop),
        }
    }

    /// Reads the next token, which must equal `expected`, contents included. Returns the span of the token.
    ///
    /// # Errors
    ///
    /// Fails with `Wanted` at the end of the text, or at another token; the tokenizer is then after that token. If no
    /// token can be read, the tokenizer is where `step` would leave it. If an allocation fails, it stays where it is.
    pub fn expect_spanned(
        &mut self,
        alloc: Global,
        expected: Token<'a>,
    ) -> Result<Span, Stop<Error>>
        ensures text { self.new.text ≡ self.old.text }
        ensures expects { spec.ExpectsSpanned self.old.text self.old.at result (lexeme expected.entry) self.new.at }
    {
        let at = self.at;
        match self.step(alloc)? {
            Some((span, found)) => {
                if is_same(&found, &expected) {
                    Ok(span)
                } else {
                    Err(Stop::Fault(Error::Wanted {
                        at,
                        expected: expected.describe(),
                        found: found.describe(),
                    }))
                }
            }
            None => Err(Stop::Fault(Error::Wanted {
                at,
                expected: expected.describe(),
                found: "eof",
            })),
        }
    }

    /// Reads and returns a simple key: a bare key or a single-line string (`simple-key = quoted-key / unquoted-key`).
    ///
    /// # Errors
    ///
    /// Fails with `Wanted` at the end of the text. Fails with `MultilineStringKey` at a multi-line string, and with
    /// `Wanted` at another token; the tokenizer is then after that token. If no token can be read, the tokenizer is
    /// where `step` would leave it. If an allocation fails, it stays where it is.
    pub fn table_key(&mut self, alloc: Global) -> Result<Key<'a>, Stop<Error>>
        ensures text { self.new.text ≡ self.old.text }
        ensures key { spec.TableKeyGives self.old.text self.old.at result self.new.at }
    {
        let at = self.at;
        match self.step(alloc)? {
            Some((span, Token::Keylike(name))) => Ok(Key {
                name: CowStr::Borrowed(name),
                span,
            }),
            Some(
                (
                    span,
                    Token::String {
                        src: _,
                        val,
                        multiline,
                    },
                ),
            ) => {
                if multiline {
                    Err(Stop::Fault(Error::MultilineStringKey(at, at + val.len())))
                } else {
                    Ok(Key { name: val, span })
                }
            }
            Some((_, found)) => Err(Stop::Fault(Error::Wanted {
                at,
                expected: "a table key",
                found: found.describe(),
            })),
            None => Err(Stop::Fault(Error::Wanted {
                at,
                expected: "a table key",
                found: "eof",
            })),
        }
    }

    /// Reads a line end. At the end of the text, does nothing.
    ///
    /// # Errors
    ///
    /// Fails with `Wanted` at another token. The tokenizer is then after that token. If no token can be read, the
    /// tokenizer is where `step` would leave it. If an allocation fails, it stays where it is.
    pub fn eat_newline_or_eof(&mut self, alloc: Global) -> Result<(), Stop<Error>>
        ensures text { self.new.text ≡ self.old.text }
        ensures line_end { spec.ExpectsLineEnd self.old.text self.old.at result self.new.at }
    {
        let at = self.at;
        match self.step(alloc)? {
            Some((_, Token::Newline)) | None => Ok(()),
            Some((_, found)) => Err(Stop::Fault(Error::Wanted {
                at,
                expected: "newline",
                found: found.describe(),
            })),
        }
    }

    /// If there is a comment (`comment-start-symbol *non-eol`) at the current offset, reads it and the line end after
    /// it, if any. Returns whether there was a comment.
    ///
    /// # Errors
    ///
    /// Fails with `Unexpected` if an ASCII control character that does not begin a line end follows the comment. The
    /// tokenizer is then after that character.
    pub fn eat_comment(&mut self) -> Result<bool, Error>
        ensures text { self.new.text ≡ self.old.text }
        ensures comment { spec.EatsComment self.old.text self.old.at result self.new.at }
    {
        let bytes = self.input.as_bytes();
        if self.at == bytes.len() || bytes[self.at] != b'#' {
            return Ok(false);
        }
        let end = bytes::printed_end(self.input, self.at);
        if end == bytes.len() {
            self.at = end;
            return Ok(true);
        }
        match line_end(self.input, end) {
            Some(next) => {
                self.at = next;
                Ok(true)
            }
            None => {
                let (c, next) = char_at(self.input, end);
                self.at = next;
                Err(Error::Unexpected(end, c))
            }
        }
    }

    /// Skips spaces and tabs.
    pub fn eat_whitespace(&mut self)
        ensures text { self.new.text ≡ self.old.text }
        ensures run { MaximalRun is_blank self.old.text self.old.at self.new.at }
    {
        self.at = bytes::blanks_end(self.input, self.at);
    }

    /// Skips everything up to and including the next line end, or up to the end of the text.
    pub fn skip_to_newline(&mut self)
        ensures text { self.new.text ≡ self.old.text }
        ensures skips { spec.SkipsLine self.old.text self.old.at self.new.at }
    {
        self.at = line_after(self.input, self.at);
    }

    /// Returns the byte offset up to which the text has been read.
    pub fn current(&mut self) -> usize
        ensures offset { result ≡ self.old.at }
        ensures place { IsFoldedPlace self.old.text result }
        ensures unchanged { self.new ≡ self.old }
    {
        self.at
    }

    /// Reads the next character. Returns it with its byte offset, or `None` at the end of the text. CRLF is returned as
    /// one line feed.
    pub fn one(&mut self) -> Option<(usize, char)>
        ensures text { self.new.text ≡ self.old.text }
        ensures one { spec.OneGives self.old.text self.old.at result self.new.at }
    {
        let at = self.at;
        if at == self.input.len() {
            return None;
        }
        let (c, next) = char_at(self.input, at);
        self.at = next;
        Some((at, c))
    }

    /// Returns the byte offset at which a span starts. The span must be inside the text, and must not be reversed.
    pub fn substr_offset(&self, span: Span) -> usize
        requires forward { span.start ≤ span.end }
        requires within { span.end ≤ length self.now.text }
        ensures { result ≡ span.start }
    {
        span.start
    }
}

impl Clone for Tokenizer<'_> {
    ghost is_clone = { λ tokenizer copy. copy ≡ tokenizer };

    ghost is_infallible = { λ _. Unit {0} };

    /// Returns a copy at the same offset of the same text. Never fails.
    fn clone(&self) -> Result<Self, AllocError> {
        Ok(self.copy())
    }
}
