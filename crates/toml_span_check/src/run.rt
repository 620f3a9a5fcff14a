//! Checks or prints files, and writes the output.
ghost use Rattle.std.specs.Prelude.{◌≡◌, ◌+◌, ◌++◌, IfOk, OnOk, false, map, string_bytes};
ghost use Rattle.toml_span_check.specs.Run as spec;
ghost use Rattle.toml_span_check.specs.Numbers.{number_of};
ghost use Rattle.toml_span_check.specs.Run.{FindsAll, Runs, complaint};
ghost use Rattle.toml_span_check.specs.code.Collected.{EndsQuiet, CollectsAll, CollectsBytes, CollectsFiles};
ghost use Rattle.toml_span_check.specs.code.Collected.{CollectsOne};

use crate::answer::{Judged, Printing, Task, Verdict, judge};
use crate::document::{segments_of, show};
use crate::fixable::Count;
use crate::formats::Format;
use crate::input::Inputs;
use crate::numbers::push_number;
use crate::request::{Question, Request};
use crate::sarif::document;
use crate::schemas::Schemas;
use crate::sums::sum_of;
use crate::words::shown_word;
use std::alloc::{AllocError, Global};
use std::fmt::Write;
use std::io::sink;
use toml_span_lines::held::Unwritten;
use toml_span_lines::run::write_bytes;
use toml_span_lines::sink::Sink;
use toml_span_lines::tracked::Tracked;
use toml_span_report::visible::push_visible;

/// The number of files that have errors or can't be read, and the numbers of errors. A file that can't be read counts
/// as one error.
#[derive(Clone, Copy, Drop)]
struct Tally {
    files: usize,
    count: Count,
}

/// The results for the files so far: output that has not been written yet, the exit status, and counts.
#[derive(Drop)]
struct Collected {
    /// The bytes that remain to be written to standard output.
    held: Vec<u8>,
    /// The text for standard error: a line for each file that can't be read, complaints about schemas, and at the end
    /// the line of `push_summary`.
    errors: String,
    status: u8,
    wrong: Tally,
}

impl Collected {
    /// Counts a file with these errors. Fails if a sum overflows.
    fn count(&mut self, count: Count) -> Result<(), AllocError>
        ensures { OnOk result (self.new ≡ record self.old { wrong = spec.counted self.old.wrong count }) }
    {
        let files = sum_of(self.wrong.files, count.errors.min(1))?;
        let count = self.wrong.count.plus(count)?;
        self.wrong = Tally { files, count };
        Ok(())
    }
}

/// Returns the exit status for one file: 2 if there is a complaint about its schema, otherwise 1 if there are errors,
/// otherwise 0. `stderr` is the text for standard error, which is a complaint if the task is a check.
fn status_of(task: Task, errors: usize, stderr: &str) -> u8
    ensures { result ≡ spec.status_of task errors stderr.now }
{
    match (task, errors) {
        (Task::Check(_, _), _) if !stderr.is_empty() => 2,
        (_, 0) => 0,
        _ => 1,
    }
}

/// Appends a line that says that the file `name` can't be read, with the `reason`. Fails if an allocation fails.
pub fn push_complaint(out: &mut String, name: &str, reason: &str) -> Result<(), AllocError>
    ensures { OnOk result (string_bytes out.new ≡ string_bytes out.old ++ complaint name.now reason.now) }
{
    out.push_str("error: cannot read `")?;
    push_visible(out, name)?;
    out.push_str("`: ")?;
    out.push_str(reason)?;
    out.push_str("\n")?;
    Ok(())
}

/// Checks the file `name`, whose content is `bytes`, or prints its value at the path in `question`. Returns the verdict.
/// The reports of a check are appended to `held`. To print a value, `held` and the value are written to `out`, except
/// for the last bytes, which may stay in `held`. Fails if a write fails.
fn collect_bytes<S: Schemas, O: Sink>(
    alloc: Global,
    question: Question<'_>,
    name: &str,
    bytes: &[u8],
    held: &mut Vec<u8>,
    schemas: &mut S,
    out: &mut O,
) -> Result<Verdict, Unwritten>
    requires { O.failed out.old ≡ false }
    ensures { CollectsBytes S.says question.entry.format question.entry.task question.entry.pointer.now name.now
        bytes.now result (O.contents out.old) (O.contents out.new) (O.failed out.new) held.old.items held.new.items }
{
    match judge(alloc, question.format, question.task, name, bytes, schemas)? {
        Judged::Text(verdict, text) => {
            held.extend_from_slice(text.as_bytes())?;
            Ok(verdict)
        }
        Judged::Document(document) => {
            match segments_of(alloc, question.pointer)? {
                Some(segments) => {
                    let segments = Some(segments.as_slice());
                    show(alloc, question, name, &document, segments, held, out)
                }
                None => show(alloc, question, name, &document, None, held, out),
            }
        }
    }
}

/// Checks one file, or prints its value at the path in `question`, and updates the messages, status and counts in
/// `collected`. The output goes through the buffer `collected.held` to `out`; its end may stay in the buffer. `reading`
/// has the bytes of the file, or the reason why it can't be read. Fails if a write fails.
fn collect_one<S: Schemas, O: Sink>(
    alloc: Global,
    question: Question<'_>,
    name: &str,
    reading: Result<Vec<u8>, String>,
    collected: &mut Collected,
    schemas: &mut S,
    out: &mut O,
) -> Result<(), Unwritten>
    requires { O.failed out.old ≡ false }
    ensures { CollectsOne S.says question.entry.format question.entry.task question.entry.pointer.now name.now
        (spec.read_of reading) result
        (O.contents out.old) (O.contents out.new) (O.failed out.new)
        (collected.old.held.items, string_bytes collected.old.errors, collected.old.status, collected.old.wrong)
        (collected.new.held.items, string_bytes collected.new.errors, collected.new.status, collected.new.wrong) }
{
    match reading {
        Ok(bytes) => {
            let held = &mut collected.held;
            let found = collect_bytes(alloc, question, name, bytes.as_slice(), held, schemas, out)?;
            let stderr = found.stderr.as_str();
            collected.errors.push_str(stderr)?;
            let status = status_of(question.task, found.count.errors, stderr);
            collected.status = collected.status.max(status);
            collected.count(found.count)?;
        }
        Err(reason) => {
            let name = shown_word(alloc, name)?;
            push_complaint(&mut collected.errors, name.as_str(), reason.as_str())?;
            collected.status = 2;
            collected.count(Count::one())?;
        }
    }
    Ok(())
}

/// Returns the names of the files that the arguments `names` select. `excludes` are patterns of paths to leave out when
/// directories are searched.
fn find_all<I: Inputs>(
    alloc: Global,
    excludes: &[&str],
    names: &[&str],
    inputs: &mut I,
) -> Result<Vec<String>, AllocError>
    ensures { IfOk result (λ files. FindsAll (map (λ pattern. pattern.now) excludes.now)
        (map (λ name. name.now) names.now) (I.log inputs.old) (I.log inputs.new)
        (map (λ file. string_bytes file) files.items)) }
{
    let mut files = Vec::new(alloc);
    for name in names {
        let mut found = inputs.find(alloc, excludes, *name)?;
        files.append(&mut found)?;
    }
    Ok(files)
}

/// Reads the files in order, and checks or prints each. Returns the results, with the output that has not been written
/// yet. Fails if a write fails.
fn collect<I: Inputs, S: Schemas, O: Sink>(
    alloc: Global,
    question: Question<'_>,
    names: &[String],
    inputs: &mut I,
    schemas: &mut S,
    out: &mut O,
) -> Result<Collected, Unwritten>
    requires { O.failed out.old ≡ false }
    ensures { CollectsFiles S.says question.entry.format question.entry.task question.entry.pointer.now
        (map (λ name. string_bytes name) names.now) result
        (I.log inputs.old) (I.log inputs.new) (O.contents out.old) (O.contents out.new) (O.failed out.new) }
{
    let mut collected = Collected {
        held: Vec::new(alloc),
        errors: String::new(alloc),
        status: 0,
        wrong: Tally {
            files: 0,
            count: Count::none(),
        },
    };
    for name in names {
        let name = name.as_str();
        let reading = inputs.read(alloc, name)?;
        collect_one(alloc, question, name, reading, &mut collected, schemas, out)?;
    }
    Ok(collected)
}

/// Appends how many errors have fixes, such as ``, 2 fixable with `--fix` ``. Appends nothing if no error has a fix.
#[tactic(auto, unfolding(crate::specs::Run::fixable))]
fn push_fixable(out: &mut String, count: Count) -> Result<(), AllocError>
    ensures { OnOk result (string_bytes out.new ≡ string_bytes out.old ++ spec.fixable count) }
{
    let (safe, more) = (count.safe_fixes, count.unsafe_fixes);
    match (safe, more) {
        (0, 0) => Ok(()),
        (_, 0) => write!(out, ", {safe} fixable with `--fix`"),
        (0, _) => write!(out, ", {more} fixable with `--fix --unsafe-fixes`"),
        _ => write!(
            out,
            ", {safe} fixable with `--fix`, {more} more with `--unsafe-fixes`"
        ),
    }
}

/// Appends the line that counts errors, such as ``3 errors in 2 of 5 files, 2 fixable with `--fix` ``. `files` is the
/// number of all files.
#[tactic(auto, unfolding(crate::specs::Run::found_errors))]
fn push_errors(out: &mut String, files: usize, wrong: Tally) -> Result<(), AllocError>
    ensures { OnOk result (string_bytes out.new ≡ string_bytes out.old ++ spec.found_errors files wrong) }
{
    push_number(out, wrong.count.errors, " error")?;
    out.push_str(" in ")?;
    write!(out, "{}", wrong.files)?;
    out.push_str(" of ")?;
    push_number(out, files, " file")?;
    push_fixable(out, wrong.count)?;
    out.push_str("\n")
}

/// Appends the line for a check without errors, such as `5 files checked`.
#[tactic(auto, unfolding(crate::specs::Run::found_none))]
fn push_checked(out: &mut String, files: usize) -> Result<(), AllocError>
    ensures { OnOk result (string_bytes out.new ≡ string_bytes out.old ++ spec.found_none files) }
{
    push_number(out, files, " file")?;
    out.push_str(" checked\n")
}

/// Appends the last line of a check with `Format::Text`, or nothing for another task or format. The line counts the
/// errors. Without errors, the line counts the files, and is only appended if standard error is a terminal.
fn push_summary(
    out: &mut String,
    request: &Request<'_>,
    files: usize,
    wrong: Tally,
) -> Result<(), AllocError>
    ensures { OnOk result (string_bytes out.new ≡ string_bytes out.old
        ++ spec.summary request.now.format request.now.task request.now.is_watched files wrong) }
{
    match (request.format, request.task) {
        (Format::Text(_), Task::Check(_, _)) if wrong.count.errors > 0 => push_errors(
            out, files, wrong,
        ),
        (Format::Text(_), Task::Check(_, _)) if request.is_watched => push_checked(out, files),
        _ => Ok(()),
    }
}

/// Returns the complete output: for a check with SARIF, the SARIF document with the results `stdout`, otherwise
/// `stdout` itself.
fn whole(alloc: Global, format: Format, task: Task, stdout: Vec<u8>) -> Result<Vec<u8>, AllocError>
    ensures { IfOk result (λ out. out.items ≡ spec.whole format task stdout.items) }
{
    match (format, task) {
        (Format::Sarif, Task::Check(_, _)) => document(alloc, stdout.as_slice()),
        _ => Ok(stdout),
    }
}

/// Returns whether the names of files are printed before values: unless there is only one file, which is the one
/// argument.
fn are_named(names: &[&str], files: &[String]) -> bool
    ensures { result ≡ spec.are_named (map (λ name. name.now) names.now) (map (λ file. string_bytes file) files.now) }
{
    match (names, files) {
        ([name], [file]) => *name != file.as_str(),
        _ => files.len() > 1,
    }
}

/// Returns the task, with or without the names of files before values.
fn named_task(task: Task, is_named: bool) -> Task
    ensures { result ≡ spec.named_task task is_named }
{
    match task {
        Task::Show(printing) => Task::Show(Printing {
            is_named,
            ..printing
        }),
        Task::Check(version, chooser) => Task::Check(version, chooser),
    }
}

/// Reads the files that `request` names, checks or prints each, and adds a summary. Returns the results, with the
/// output that has not been written yet. Fails if a write fails.
fn collect_all<I: Inputs, S: Schemas, O: Sink>(
    alloc: Global,
    request: &Request<'_>,
    inputs: &mut I,
    schemas: &mut S,
    out: &mut O,
) -> Result<Collected, Unwritten>
    requires { O.failed out.old ≡ false }
    ensures { CollectsAll S.says request.now.format request.now.task request.now.pointer.now
        (map (λ pattern. pattern.now) request.now.excludes.items) (map (λ name. name.now) request.now.names.items)
        request.now.is_watched result
        (I.log inputs.old) (I.log inputs.new) (O.contents out.old) (O.contents out.new) (O.failed out.new) }
{
    let excludes = request.excludes.as_slice();
    let names = request.names.as_slice();
    let found = find_all(alloc, excludes, names, inputs)?;
    let files = found.as_slice();
    let question = Question {
        format: request.format,
        task: named_task(request.task, are_named(names, files)),
        pointer: request.pointer,
    };
    let mut collected = collect(alloc, question, files, inputs, schemas, out)?;
    collected.held = whole(alloc, request.format, request.task, collected.held)?;
    push_summary(&mut collected.errors, request, files.len(), collected.wrong)?;
    Ok(collected)
}

/// Reads the files that `request` names, checks or prints each, and writes the output. Returns the exit status that
/// `run` describes.
fn run_aloud<I: Inputs, S: Schemas, O: Sink, E: Sink>(
    alloc: Global,
    request: &Request<'_>,
    inputs: &mut I,
    schemas: &mut S,
    out: &mut O,
    errors: &mut E,
) -> u8
    requires out { O.failed out.old ≡ false }
    requires errors { E.failed errors.old ≡ false }
    ensures { Runs S.says request.now.format request.now.task request.now.pointer.now
        (map (λ pattern. pattern.now) request.now.excludes.items) (map (λ name. name.now) request.now.names.items)
        request.now.is_watched false
        (I.log inputs.old) (I.log inputs.new)
        (O.contents out.old) (O.contents out.new) (O.failed out.new)
        (E.contents errors.old) (E.contents errors.new) (E.failed errors.new) result }
{
    let collected = match collect_all(alloc, request, inputs, schemas, out) {
        Ok(collected) => collected,
        Err(Unwritten::Memory) => return 4,
        Err(Unwritten::Failed) => return 3,
    };
    if write_bytes(out, collected.held.as_slice())
        && write_bytes(errors, collected.errors.as_bytes())
    {
        collected.status
    } else {
        3
    }
}

/// Reads the files that `request` names, and checks or prints each, but writes nothing. Returns the exit status that
/// `run` describes, which is never 3.
fn run_quiet<I: Inputs, S: Schemas>(
    alloc: Global,
    request: &Request<'_>,
    inputs: &mut I,
    schemas: &mut S,
) -> u8
    ensures { EndsQuiet S.says request.now.format request.now.task request.now.pointer.now
        (map (λ pattern. pattern.now) request.now.excludes.items) (map (λ name. name.now) request.now.names.items)
        request.now.is_watched
        (I.log inputs.old) (I.log inputs.new) result }
{
    let mut nowhere = Tracked::new(sink());
    match collect_all(alloc, request, inputs, schemas, &mut nowhere) {
        Ok(collected) => collected.status,
        Err(_) => 4,
    }
}

/// Reads the files that `request` names, and checks or prints each of them. `schemas` checks documents against their
/// schemas.
///
/// Returns the exit status, the highest that applies: 0 without errors; 1 if a file has errors; 2 if a file can't be
/// read, or if there is a complaint about its schema; 3 if a write failed; 4 if an allocation failed.
pub fn run<I: Inputs, S: Schemas, O: Sink, E: Sink>(
    alloc: Global,
    request: &Request<'_>,
    inputs: &mut I,
    schemas: &mut S,
    out: &mut O,
    errors: &mut E,
) -> u8
    requires out { O.failed out.old ≡ false }
    requires errors { E.failed errors.old ≡ false }
    ensures { Runs S.says request.now.format request.now.task request.now.pointer.now
        (map (λ pattern. pattern.now) request.now.excludes.items) (map (λ name. name.now) request.now.names.items)
        request.now.is_watched request.now.is_quiet
        (I.log inputs.old) (I.log inputs.new)
        (O.contents out.old) (O.contents out.new) (O.failed out.new)
        (E.contents errors.old) (E.contents errors.new) (E.failed errors.new) result }
{
    if request.is_quiet {
        run_quiet(alloc, request, inputs, schemas)
    } else {
        run_aloud(alloc, request, inputs, schemas, out, errors)
    }
}
