//! Calls public functions as rows say, and prints the answers.
//!
//! Each line of standard input is a row, `CALL WORDS: TEXT`, unless it is empty or begins with `#`. The program prints
//! each line and, after a row, the answer, indented by four spaces. If a row can't be read, or its call is unknown or
//! can't be made, the answer is `no such row`, and the exit status is 1. Calls are described in the modules that answer
//! them, and here:
//!
//! - `cuts`: see the module `cuts`. `each`, `refused`: see the module `characters`. `bumped`, `drafted`: see the module
//!   `drafts`.
//! - `holders`: the document, read as the `Holders` of `typed::structs`. `warned TYPE`: see `typed::warned`.
//! - `span START END`: whether this span is empty, the span as a pair and as a range and, if the span is in the text,
//!   where it starts.
//! - `copies START END`: two clones of a key whose name is the text, and two clones of the text, all with this span.
//! - `load_file NAME`: see `typed::owned`. This is the only call that needs files.
//!
//! With the arguments FILE and N, the program parses FILE N times instead, for measurements (`scripts/speed.py`), and
//! prints `ok`, or `error` if FILE is not valid TOML.

mod characters;
mod cuts;
mod derived;
mod drafts;
mod escapes;
mod faults;
mod output;
mod places;
mod reports;
mod runs;
mod sections;
mod spans;
mod tokens;
mod trees;
mod typed;

use escapes::{push_text, push_words};
use output::Out;
use std::alloc::{AllocError, Global};
use std::process::ExitCode;
use std::{env, fs, io};
use toml_span::{from_str, parse};
use typed::owned::push_file;
use typed::structs::Holders;
use typed::warned::push_warned;

/// The answer to a row that can't be answered.
const NO_SUCH_ROW: &str = "no such row";

/// A row without its answer: the name of the call, its arguments (`words`), and the text after the colon.
#[derive(Clone, Copy)]
pub(crate) struct Row<'r> {
    pub(crate) call: &'r str,
    pub(crate) words: &'r [String],
    pub(crate) text: &'r str,
}

impl<'r> Row<'r> {
    /// Returns the word at an index, or an empty text if the row has fewer words.
    pub(crate) fn word(self, index: usize) -> &'r str {
        match self.words.get(index) {
            Some(word) => word.as_str(),
            None => "",
        }
    }
}

/// Splits a line into the call, the words and the text. Escapes are not decoded. Returns `None` if the line is not a
/// row.
fn parts_of(line: &str) -> Option<(&str, &str, &str)> {
    let (front, text) = match line.split_once(": ") {
        Some(parts) => parts,
        None => (line.strip_suffix(":")?, ""),
    };
    let (call, words) = front.split_once(' ').unwrap_or((front, ""));
    Some((call, words, text))
}

/// Prints the answer to `cuts`, `each`, `refused`, `holders` or `warned`. Returns `false` for any other call, and for
/// an unknown type of `warned`.
fn push_caller(alloc: Global, row: Row<'_>, out: &mut Out) -> bool {
    let text = row.text;
    match row.call {
        "cuts" => cuts::push_cuts(alloc, text, out),
        "each" => characters::push_each(alloc, text, out),
        "refused" => characters::push_refused(alloc, text, out),
        "holders" => out.debug(from_str::<Holders>(alloc, text)),
        "warned" => return push_warned(alloc, row.word(0), text, out),
        _ => return false,
    }
    true
}

/// Prints the answer of the first module that answers the row. Returns `false` if none does.
fn push_answer(alloc: Global, row: Row<'_>, out: &mut Out) -> bool {
    push_caller(alloc, row, out)
        || tokens::answer(alloc, row, out)
        || spans::answer(alloc, row, out)
        || faults::answer(alloc, row, out)
        || sections::answer(alloc, row, out)
        || reports::answer(alloc, row, out)
        || runs::answer(alloc, row, out)
        || derived::answer(alloc, row, out)
        || drafts::answer(alloc, row, out)
        || trees::answer(alloc, row, out)
}

/// Prints the answer to the row `line`. Returns whether the row could be answered.
fn push_answered(
    rt: &HostRuntime,
    alloc: Global,
    line: &str,
    out: &mut Out,
) -> Result<bool, AllocError> {
    let Some((call, front, source)) = parts_of(line) else {
        return Ok(false);
    };
    let mut words = Vec::new(alloc);
    let mut text = String::new(alloc);
    if !push_words(alloc, front, &mut words)? || !push_text(alloc, source, &mut text)? {
        return Ok(false);
    }
    let (words, text) = (words.as_slice(), text.as_str());
    let row = Row { call, words, text };
    if call == "load_file" {
        push_file(rt, row.word(0), out);
        return Ok(true);
    }
    Ok(push_answer(alloc, row, out))
}

/// Prints the answer to the row `line`, indented by four spaces, or `NO_SUCH_ROW`. Returns whether the row could be
/// answered.
fn push_row(rt: &HostRuntime, alloc: Global, line: &str, out: &mut Out) -> bool {
    let mut answer = Out::new(alloc);
    let answered = push_answered(rt, alloc, line, &mut answer);
    let known = out.ok(answered).unwrap_or(false);
    if !known {
        answer.text.clear();
        answer.push_str(NO_SUCH_ROW);
    }
    for line in answer.text.lines() {
        out.push_str("    ");
        out.push_str(line);
        out.push_str("\n");
    }
    out.out_of_memory = out.out_of_memory || answer.out_of_memory;
    known
}

/// Prints all lines of `input`, each row with its answer. Returns whether all rows could be answered.
fn push_lines(rt: &HostRuntime, alloc: Global, input: &str, out: &mut Out) -> bool {
    let mut readable = true;
    for line in input.lines() {
        out.push_str(line);
        out.push_str("\n");
        if !line.is_empty() && !line.starts_with('#') {
            readable = push_row(rt, alloc, line, out) && readable;
        }
    }
    readable
}

/// Parses the file `name` `passes` times, each time dropping the tree, and prints `ok`, or `error` if it is not valid
/// TOML.
fn parse_often(rt: &HostRuntime, name: &str, passes: u64) -> io::Result<()> {
    let text = fs::read_to_string(rt, name)?;
    let mut outcome = "ok";
    for _ in 0..passes {
        if parse(rt.alloc(), text.as_str()).is_err() {
            outcome = "error";
        }
    }
    println!(rt; "{outcome}")
}

/// Prints the lines of standard input, each row with its answer. Exits with status 1 if a row can't be answered. Fails
/// if a read, a write or an allocation fails.
fn main(rt: HostRuntime) -> io::Result<ExitCode> {
    let alloc = rt.alloc();
    let words: Vec<String> = env::args(&rt)?.skip(1).collect(alloc)?;
    if let [file, passes] = words.as_slice() {
        let passes = passes.as_str().parse::<u64>().unwrap_or(0);
        parse_often(&rt, file.as_str(), passes)?;
        return Ok(ExitCode::SUCCESS);
    }
    let input = io::read_to_string(alloc, rt.stdin())?;
    let mut out = Out::new(alloc);
    let readable = push_lines(&rt, alloc, input.as_str(), &mut out);
    if out.out_of_memory {
        return Err(AllocError.into());
    }
    let written = out.text.as_str();
    print!(rt; "{written}")?;
    Ok(if readable {
        ExitCode::SUCCESS
    } else {
        ExitCode::FAILURE
    })
}
