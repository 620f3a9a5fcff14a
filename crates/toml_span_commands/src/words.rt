//! Reads the arguments of the command line, tests single ones, and separates options from other arguments.
ghost use Rattle.std.specs.Prelude.{◌≡◌, IfOk, OnOk, None, map, string_bytes};
ghost use Rattle.toml_span_commands.specs.Words as spec;

use crate::say::is_among;
use std::alloc::{AllocError, Global};
use std::env::FillError;
use std::rt::Env;
use toml_span::Stop;
use toml_span_check::words::word_text;

/// Returns the bytes of the argument at the position `at`, or `None` after the last argument.
fn word(rt: &HostRuntime, at: usize) -> Result<Option<Vec<u8>>, AllocError> {
    let mut size = 256usize;
    for _ in 0..usize::BITS {
        let mut word = vec![in rt.alloc(); 0u8; size]?;
        match rt.arg(at, word.as_mut_slice()) {
            Ok(length) => {
                word.truncate(length);
                return Ok(Some(word));
            }
            Err(FillError::NotPresent) => return Ok(None),
            Err(FillError::TooLong) => size = size.saturating_mul(2),
        }
    }
    Err(AllocError)
}

/// Returns all arguments as texts, as `word_text` converts them. The first argument is the name of the program.
pub fn given_words(rt: &HostRuntime) -> Result<Vec<String>, AllocError> {
    let mut words = Vec::new(rt.alloc());
    for at in 0..usize::MAX {
        let Some(word) = word(rt, at)? else {
            break;
        };
        words.push(word_text(rt.alloc(), word.as_slice())?)?;
    }
    Ok(words)
}

/// Returns whether one of the arguments is `-h` or `--help`.
pub(crate) fn has_help(words: &[String]) -> bool {
    words.iter().any(|word| is_help(word.as_str()))
}

/// Returns whether an argument is `-h` or `--help`.
pub fn is_help(word: &str) -> bool
    ensures { result ≡ spec.is_help word.now }
{
    word == "-h" || word == "--help"
}

/// Returns whether an argument is `-V` or `--version`.
pub fn is_version(word: &str) -> bool
    ensures { result ≡ spec.is_version word.now }
{
    word == "-V" || word == "--version"
}

/// Returns whether an argument begins with this byte.
fn begins_with(word: &str, byte: u8) -> bool
    ensures { result ≡ spec.begins_with byte word.now }
{
    match word.as_bytes() {
        [] => false,
        [first, ..] => *first == byte,
    }
}

/// Returns whether an argument contains this byte.
pub(crate) fn has(word: &str, byte: u8) -> bool
    ensures { result ≡ spec.has byte word.now }
{
    word.as_bytes().contains(&byte)
}

/// Returns whether an argument can't be a misspelled command: it begins with `-`, contains `.` or `/`, or was not valid
/// UTF-8 before `word_text` converted it.
pub fn is_file(word: &str) -> bool
    ensures { result ≡ spec.is_file word.now }
{
    begins_with(word, b'-') || has(word, b'.') || has(word, b'/') || has(word, 0)
}

/// An argument of a command.
#[derive(Clone, Copy)]
pub(crate) enum Argument<'w> {
    /// An option without a value, such as `--check`, or an unknown argument that begins with a dash.
    Flag(&'w str),
    /// The name of an option, and its value.
    Valued(&'w str, &'w str),
    /// Any other argument, such as the name of a file.
    Other(&'w str),
}

/// Returns the text before the first `=` of an argument, and the text after it. Without `=`, the first is the whole
/// argument, and the second is empty.
fn parts(word: &str) -> (&str, &str)
    ensures name { result.0.now ≡ spec.name_of word.now }
    ensures value { result.1.now ≡ spec.value_in word.now }
{
    match word.split_once('=') {
        Some(parts) => parts,
        None => (word, ""),
    }
}

/// The arguments of a command.
#[derive(Drop)]
pub(crate) struct Given<'w> {
    pub(crate) list: Vec<Argument<'w>>,
    /// An option whose value is the next argument.
    waiting: Option<&'w str>,
    /// Whether there was a `--`.
    is_over: bool,
}

impl<'w> Given<'w> {
    /// Reads one more argument. The options in `valued` have a value.
    #[tactic(auto, unfolding(crate::specs::Words::with_word))]
    fn read(&mut self, valued: &[&str], word: &'w str) -> Result<(), AllocError>
        ensures { OnOk result (spec.state self.new
            ≡ spec.with_word (map (λ v. v.now) valued.now) (spec.state self.old) word.entry.now) }
    {
        if let Some(option) = self.waiting.take() {
            self.list.push(Argument::Valued(option, word))?;
            return Ok(());
        }
        if self.is_over || !begins_with(word, b'-') || word == "-" {
            self.list.push(Argument::Other(word))?;
            return Ok(());
        }
        if word == "--" {
            self.is_over = true;
            return Ok(());
        }
        let (name, value) = parts(word);
        if !is_among(name, valued) {
            self.list.push(Argument::Flag(word))?;
            return Ok(());
        }
        if name.len() < word.len() {
            self.list.push(Argument::Valued(name, value))?;
            return Ok(());
        }
        self.waiting = Some(name);
        Ok(())
    }

    /// Fails with a message, in the words of clap, if the last argument is an option whose value is missing.
    pub(crate) fn complete(&self, alloc: Global) -> Result<(), Stop<String>>
        ensures { OnOk result (self.now.waiting ≡ None) }
    {
        match self.waiting {
            Some(option) => {
                let name = match option {
                    "-e" => "edit",
                    _ => option.trim_start_matches('-'),
                };
                Err(Stop::Fault(format!(in alloc;
                    "a value is required for '{option} <{name}>' but none was supplied"
                )?))
            }
            None => Ok(()),
        }
    }
}

/// Splits `words`, the arguments of a command. An option in `valued` has a value: the text after `=`, or the next
/// argument. `--` is left out, and no argument after it is an option. The value of the last argument may be missing
/// (see `complete`).
pub(crate) fn arguments_in<'w>(
    alloc: Global,
    words: &'w [String],
    valued: &[&str],
) -> Result<Given<'w>, AllocError>
    ensures { IfOk result (λ given. spec.state given
        ≡ spec.arguments_in (map (λ v. v.now) valued.now) (map (λ w. string_bytes w) words.entry.now)) }
{
    let mut given = Given {
        list: Vec::new(alloc),
        waiting: None,
        is_over: false,
    };
    for word in words {
        given.read(valued, word.as_str())?;
    }
    Ok(given)
}
