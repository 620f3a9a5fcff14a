//! Calls on a `Tokenizer`.
//!
//! - `tokens`: the tokens of the text, one per line, up to the end of the text or the first error. After an error, the
//!   offset at which the tokenizer stopped.
//! - `tokenizer OPERATION ..`: the results of these operations, one after the other.
//!
//! An operation is the name of a method, `describe` or `swap`. Some methods are followed by `=` and the expected token,
//! such as `Equals` or, with its content, `Keylike(a)`, in which escapes may be used. `describe` prints the name of the
//! next token, `clone` keeps a copy of the tokenizer, and `swap` exchanges the tokenizer and the copy.
use crate::Row;
use crate::output::Out;
use std::alloc::{AllocError, Global};
use std::borrow::CowStr;
use std::mem;
use toml_span::tokens::{Error, Token, Tokenizer};
use toml_span::value::Key;
use toml_span::{Span, Stop};

/// Returns the token that `named` names, or `None` for any other text. For a string, the content is the literal with
/// its quotes, `=`, and the value.
fn token_of(named: &str) -> Option<Token<'_>> {
    let (kind, content) = match named.split_once('(') {
        Some((kind, content)) => (kind, content.strip_suffix(')')?),
        None => (named, ""),
    };
    Some(match kind {
        "Equals" => Token::Equals,
        "Period" => Token::Period,
        "Comma" => Token::Comma,
        "Colon" => Token::Colon,
        "LeftBracket" => Token::LeftBracket,
        "RightBracket" => Token::RightBracket,
        "Whitespace" => Token::Whitespace(content),
        "Keylike" => Token::Keylike(content),
        "String" => {
            let (src, value) = content.split_once('=')?;
            let val = CowStr::Borrowed(value);
            Token::String {
                src,
                val,
                multiline: false,
            }
        }
        _ => return None,
    })
}

/// Prints why a call failed.
fn push_stop(out: &mut Out, stop: &Stop<Error>) {
    match stop {
        Stop::Fault(error) => {
            out.push_str("error ");
            out.debug(error);
        }
        _ => out.debug(AllocError),
    }
}

/// Prints whether a text is borrowed or owned.
fn push_holder(out: &mut Out, text: &CowStr<'_>) {
    out.push_str(match text {
        CowStr::Borrowed(_) => " borrowed",
        CowStr::Owned(_) => " owned",
    });
}

/// Prints the span and the token in `answer` or, if `in_words`, only the name of the token. Prints `end` for `None`,
/// and the error of a failed call.
fn push_step(
    out: &mut Out,
    answer: Result<Option<(Span, Token<'_>)>, Stop<Error>>,
    in_words: bool,
) {
    match &answer {
        Ok(Some((_, token))) if in_words => out.push_str(token.describe()),
        Ok(Some((span, token))) => {
            out.span(*span);
            out.push_str(" ");
            out.debug(token);
            if let Token::String { val, .. } = token {
                push_holder(out, val);
            }
        }
        Ok(None) => out.push_str("end"),
        Err(stop) => push_stop(out, stop),
    }
}

/// Prints the span and the name of the key in `answer`, or the error of a failed call.
fn push_key(out: &mut Out, answer: Result<Key<'_>, Stop<Error>>) {
    match &answer {
        Ok(key) => {
            out.span(key.span);
            out.push_str(" ");
            out.display(key);
            push_holder(out, &key.name);
        }
        Err(stop) => push_stop(out, stop),
    }
}

/// A tokenizer and a copy.
#[derive(Drop)]
struct Tokenizers<'t> {
    used: Tokenizer<'t>,
    copy: Tokenizer<'t>,
}

impl<'t> Tokenizers<'t> {
    /// Calls the method with this name, which expects a token, and prints the result. Returns `false` for an unknown
    /// name.
    fn push_expecting(
        &mut self,
        alloc: Global,
        name: &str,
        token: Token<'t>,
        out: &mut Out,
    ) -> bool {
        match name {
            "eat" => out.debug(self.used.eat(alloc, token)),
            "eat_spanned" => out.debug(self.used.eat_spanned(alloc, token)),
            "expect" => out.debug(self.used.expect(alloc, token)),
            "expect_spanned" => out.debug(self.used.expect_spanned(alloc, token)),
            _ => return false,
        }
        true
    }

    /// Carries out the operation with this name, which has no argument, and prints the result. Returns `false` for an
    /// unknown name.
    fn push_call(&mut self, alloc: Global, name: &str, out: &mut Out) -> bool {
        match name {
            "step" => push_step(out, self.used.step(alloc), false),
            "peek" => push_step(out, self.used.peek(alloc), false),
            "describe" => push_step(out, self.used.step(alloc), true),
            "table_key" => push_key(out, self.used.table_key(alloc)),
            "eat_newline_or_eof" => out.debug(self.used.eat_newline_or_eof(alloc)),
            "eat_comment" => out.debug(self.used.eat_comment()),
            "one" => out.debug(self.used.one()),
            "current" => out.debug(self.used.current()),
            _ => return self.push_quiet_call(name, out),
        }
        true
    }

    /// Carries out the operation with this name, which has no result to print, and prints `done`. Returns `false` for
    /// an unknown name.
    fn push_quiet_call(&mut self, name: &str, out: &mut Out) -> bool {
        match name {
            "eat_whitespace" => self.used.eat_whitespace(),
            "skip_to_newline" => self.used.skip_to_newline(),
            "clone" => {
                if let Some(copy) = out.ok(self.used.clone()) {
                    self.copy = copy;
                }
            }
            "swap" => mem::swap(&mut self.used, &mut self.copy),
            _ => return false,
        }
        out.push_str("done");
        true
    }
}

/// Carries out the operations that the words describe, in order, and prints a line for each. Returns `false` at an
/// unknown operation.
fn push_calls(alloc: Global, row: Row<'_>, out: &mut Out) -> bool {
    let mut tokenizers = Tokenizers {
        used: Tokenizer::new(row.text),
        copy: Tokenizer::new(row.text),
    };
    for word in row.words {
        let (name, named) = word.as_str().split_once('=').unwrap_or((word.as_str(), ""));
        out.push_str(name);
        out.push_str(" ");
        let is_call = match token_of(named) {
            Some(token) => tokenizers.push_expecting(alloc, name, token, out),
            None => named.is_empty() && tokenizers.push_call(alloc, name, out),
        };
        if !is_call {
            return false;
        }
        out.push_str("\n");
    }
    true
}

/// Prints the tokens of a text, one per line, up to the end of the text or the first error. After an error, prints the
/// offset at which the tokenizer stopped.
fn push_tokens(alloc: Global, text: &str, out: &mut Out) {
    let mut tokenizer = Tokenizer::new(text);
    for _ in 0..=text.len() {
        let answer = tokenizer.step(alloc);
        let (failed, more) = (answer.is_err(), matches!(&answer, Ok(Some(_))));
        push_step(out, answer, false);
        if failed {
            out.push_str(" then ");
            out.debug(tokenizer.current());
        }
        out.push_str("\n");
        if !more {
            return;
        }
    }
}

/// Prints the answer to a row. Returns `false` if this module has no such call, or if a word of the row is wrong.
pub fn answer(alloc: Global, row: Row<'_>, out: &mut Out) -> bool {
    match row.call {
        "tokens" => {
            push_tokens(alloc, row.text, out);
            true
        }
        "tokenizer" => push_calls(alloc, row, out),
        _ => false,
    }
}
