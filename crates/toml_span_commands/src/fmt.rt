//! The command `fmt`.
ghost use Rattle.std.specs.Prelude.{◌≡◌, ◌&&◌, not, IfOk, OnOk};
ghost use Rattle.std.specs.Str.{IsValidUpTo};
ghost use Rattle.toml_span_commands.specs.Fmt as spec;
ghost use Rattle.toml_span_commands.specs.Fmt.{FormatsAs};

use crate::answers::{Answer, failed, helped, misused, printed, stopped, warned};
use crate::arguments::seconds;
use crate::commands::Command;
use crate::configured::{Configured, Wanted, configured_files};
use crate::edit::escaped;
use crate::files::{replace, set_write_option};
use crate::options::search_of;
use crate::say::unexpected;
use crate::words::{Argument, arguments_in, has_help};
use std::alloc::{AllocError, Global};
use std::fmt::Write;
use std::io::IsTerminal;
use std::mem;
use toml_span::{Error, Stop, parse};
use toml_span_check::encoding::not_utf8;
use toml_span_check::folder::is_folder;
use toml_span_check::input::Host;
use toml_span_check::words::shown_word;
use toml_span_config::layers::{Crlf, ExpandArrays, Layer, Settings, given};
use toml_span_config::sources::Sources;
use toml_span_files::unified;
use toml_span_format::{FormatError, format, format_sorted};
use toml_span_lines::run::BOUND;
use toml_span_lookup::disk::Disk;
use toml_span_mistakes::error_report;
use toml_span_report::visible::visible;
use toml_span_report::{Style, render};

/// The maximum value of `--width`.
const MOST_COLUMNS: u16 = 65_535;

/// The maximum value of `--indent`.
const MOST_SPACES: u16 = 64;

/// The maximum value of `--blank-lines`.
const MOST_BLANK_LINES: u16 = 9;

/// The options.
const OPTIONS: [&str; 22] = [
    "--help",
    "--check",
    "--diff",
    "--sort-keys",
    "--no-trailing-comma",
    "--expand-arrays",
    "--align-comments",
    "--blank-lines",
    "--crlf",
    "--stdin",
    "--quiet",
    "--force",
    "--change-owner",
    "--in-place",
    "--width",
    "--indent",
    "--wait",
    "--exclude",
    "--force-exclude",
    "--config",
    "--no-config",
    "--stdin-name",
];

/// The options that have a value.
const VALUED: [&str; 9] = [
    "--width",
    "--indent",
    "--expand-arrays",
    "--blank-lines",
    "--crlf",
    "--wait",
    "--exclude",
    "--config",
    "--stdin-name",
];

/// The most bytes of the line that counts files: two numbers of 20 digits, words and a line end.
const LONGEST_LINE: usize = 80;

/// How many files were formatted, or would be formatted, and how many were not changed. Standard input is not counted.
#[derive(Clone, Copy)]
struct Count {
    changed: usize,
    unchanged: usize,
}

impl Count {
    /// Counts the file `name`.
    fn add(&mut self, name: &str, is_changed: bool) {
        if name == "-" {
            return;
        }
        if is_changed {
            self.changed = self.changed.saturating_add(1);
        } else {
            self.unchanged = self.unchanged.saturating_add(1);
        }
    }
}

/// The parsed arguments.
#[derive(Drop)]
struct Asked<'w> {
    layer: Layer,
    writing: toml_span_files::Options,
    is_check: bool,
    is_diff: bool,
    is_quiet: bool,
    names: Vec<&'w str>,
    /// The patterns of files to leave out of searches.
    excludes: Vec<&'w str>,
    /// Whether configuration files also exclude files that are named.
    forces_exclude: bool,
    /// The name of standard input.
    stdin_name: &'w str,
    /// The path of the configuration file, or an empty text.
    config: &'w str,
    /// Whether to use no configuration file.
    has_no_config: bool,
}

/// Parses `word`, the value of `option`, as a number from `least` to `most`. Fails with a message for any other `word`.
fn number_of(
    alloc: Global,
    option: &str,
    word: &str,
    least: u16,
    most: u16,
) -> Result<u16, Stop<String>> {
    match word.parse::<u16>() {
        Ok(number) if least <= number && number <= most => Ok(number),
        _ => Err(Stop::Fault(format!(in alloc;
            "the value of '{option}' must be a number from {least} to {most}"
        )?)),
    }
}

impl Asked<'_> {
    /// Returns whether formatted files are written: not with `--check` and `--diff`.
    fn writes(&self) -> bool
        ensures { result ≡ (not self.now.is_check && not self.now.is_diff) }
    {
        !self.is_check && !self.is_diff
    }
}

impl<'w> Asked<'w> {
    /// Parses `word` as the value of the option `name`, and stores it. Fails with a message if the value is wrong.
    fn set(&mut self, alloc: Global, name: &str, word: &'w str) -> Result<(), Stop<String>> {
        match name {
            "--width" => self.layer.width = given(number_of(alloc, name, word, 0, MOST_COLUMNS)?),
            "--indent" => {
                let indent = number_of(alloc, name, word, 0, MOST_SPACES)?;
                self.layer.indent = given(u8::try_from(indent).unwrap_or(u8::MAX));
            }
            "--blank-lines" => {
                let count = number_of(alloc, name, word, 1, MOST_BLANK_LINES)?;
                self.layer.blank_lines = given(u8::try_from(count).unwrap_or(u8::MAX));
            }
            "--expand-arrays" => {
                self.layer.expand_arrays = match word {
                    "auto" => given(ExpandArrays::Auto),
                    "keep" => given(ExpandArrays::Keep),
                    _ => {
                        let message = "the value of '--expand-arrays' must be 'auto' or 'keep'";
                        return Err(Stop::Fault(String::from_str(alloc, message)?));
                    }
                };
            }
            "--crlf" => {
                self.layer.crlf = match word {
                    "auto" => given(Crlf::Auto),
                    "always" => given(Crlf::Always),
                    "never" => given(Crlf::Never),
                    _ => {
                        let message = "the value of '--crlf' must be 'auto', 'always' or 'never'";
                        return Err(Stop::Fault(String::from_str(alloc, message)?));
                    }
                };
            }
            "--config" => self.config = word,
            "--stdin-name" => self.stdin_name = word,
            "--wait" => self.writing.wait = seconds(alloc, word)?,
            _ => self.excludes.push(word)?,
        }
        Ok(())
    }

    /// Stores an option that has no value, except `--stdin` and those that say how files are written. Returns whether
    /// `word` is one.
    #[tactic(auto, unfolding(crate::specs::Fmt::with_own))]
    fn own_flag(&mut self, word: &str) -> bool
        ensures { (self.new, result) ≡ spec.with_own self.old word.now }
    {
        match word {
            "--check" => self.is_check = true,
            "--diff" => self.is_diff = true,
            "--sort-keys" => self.layer.sort_keys = given(true),
            "--no-trailing-comma" => self.layer.trailing_comma = given(false),
            "--align-comments" => self.layer.align_comments = given(true),
            "--force-exclude" => self.forces_exclude = true,
            "--no-config" => self.has_no_config = true,
            "--quiet" => self.is_quiet = true,
            _ => return false,
        }
        true
    }

    /// Stores an option that has no value, except `--stdin`. Returns whether `word` is one.
    #[tactic(auto, unfolding(crate::specs::Fmt::with_flag))]
    fn flag(&mut self, word: &str) -> bool
        ensures { (self.new, result) ≡ spec.with_flag self.old word.now }
    {
        set_write_option(&mut self.writing, word) || self.own_flag(word)
    }

    /// Stores the option `word`, which has no value. Fails with a message if the option is unknown.
    fn option(&mut self, alloc: Global, word: &str) -> Result<(), Stop<String>>
        ensures { OnOk result (spec.TakesOption word.now self.old self.new) }
    {
        if self.flag(word) {
            return Ok(());
        }
        if word != "--stdin" {
            return Err(Stop::Fault(unexpected(alloc, word, true, &OPTIONS)?));
        }
        self.names.push("-")?;
        Ok(())
    }
}

/// Parses all arguments. If they name no file, stores the name `.`, the current directory. Fails with a message if an
/// argument is wrong, or if the value of the last option is missing.
fn asked_of<'w>(alloc: Global, arguments: &'w [String]) -> Result<Asked<'w>, Stop<String>> {
    let mut asked = Asked {
        layer: Layer::empty(),
        writing: toml_span_files::Options::USUAL,
        is_check: false,
        is_diff: false,
        is_quiet: false,
        names: Vec::new(alloc),
        excludes: Vec::new(alloc),
        forces_exclude: false,
        stdin_name: "-",
        config: "",
        has_no_config: false,
    };
    let split = arguments_in(alloc, arguments, &VALUED)?;
    for argument in &split.list {
        match *argument {
            Argument::Flag(word) => asked.option(alloc, word)?,
            Argument::Valued(name, word) => asked.set(alloc, name, word)?,
            Argument::Other(word) => asked.names.push(word)?,
        }
    }
    split.complete(alloc)?;
    if asked.names.is_empty() {
        asked.names.push(".")?;
    }
    Ok(asked)
}

/// Returns the answer for a file whose text has this error: the report that `check` makes.
fn invalid(alloc: Global, name: &str, text: &str, error: &Error<'_>) -> Result<Answer, AllocError>
    ensures { IfOk result (λ answer. answer.status ≡ 1) }
{
    let report = error_report(alloc, error, text)?;
    Ok(warned(alloc, render(alloc, Style::Plain, &report, name, text)?, 1))
}

/// Returns the answer for a file that can't be formatted. A text whose keys clash may be read as long as they are not
/// sorted; then the answer is the report of the clash.
fn refused(
    alloc: Global,
    name: &str,
    text: &str,
    error: &FormatError<'_>,
) -> Result<Answer, AllocError>
    ensures { IfOk result (λ answer. answer.status ≡ 1) }
{
    if let FormatError::Invalid(error) = error {
        return invalid(alloc, name, text, error);
    }
    if let Err(Stop::Fault(clash)) = parse(alloc, text) {
        return invalid(alloc, name, text, &clash);
    }
    let reason = error.to_string(alloc)?;
    failed(alloc, "error: cannot format ", name, reason.as_str(), 1)
}

/// Returns the answer for a file that is not valid UTF-8: the report that `check` makes. `at` is the byte offset of the
/// first invalid byte.
fn not_text(alloc: Global, name: &str, bytes: &[u8], at: usize) -> Result<Answer, AllocError>
    requires { IsValidUpTo bytes.now at }
    ensures { IfOk result (λ answer. answer.status ≡ 1) }
{
    let (report, text) = not_utf8(alloc, bytes, at)?;
    Ok(warned(alloc, render(alloc, Style::Plain, &report, name, text)?, 1))
}

/// Returns the answer for a file that must not be written, but whose `text` would change to `new`.
fn would_change(
    alloc: Global,
    asked: &Asked<'_>,
    name: &str,
    text: &str,
    new: &str,
) -> Result<Answer, AllocError>
    ensures { IfOk result (λ answer. answer.status ≡ 1) }
{
    let shown = shown_word(alloc, name)?;
    let shown = visible(alloc, shown.as_str())?;
    let shown = shown.as_str();
    let mut out = String::new(alloc);
    if asked.is_diff {
        out = unified(alloc, shown, text, new)?;
    }
    if asked.is_check && !asked.is_quiet {
        let line = format!(in alloc; "would reformat: {shown}\n")?;
        out.push_str(line.as_str())?;
    }
    Ok(Answer {
        out,
        errors: String::new(alloc),
        status: 1,
    })
}

/// Returns the answer for a file whose `text` was formatted to `new`, and counts the file. Writes the file if `new`
/// differs from `text`, unless the file is standard input, or `--check` or `--diff` is given.
fn put(
    alloc: Global,
    asked: &Asked<'_>,
    host: &mut Host,
    file: &Configured,
    text: &str,
    new: String,
    count: &mut Count,
) -> Result<Answer, AllocError> {
    let name = file.name.as_str();
    let is_written = asked.writes();
    if is_written && name == "-" {
        return Ok(printed(alloc, new));
    }
    if text == new.as_str() {
        count.add(name, false);
        return Ok(printed(alloc, String::new(alloc)));
    }
    let new = new.as_str();
    let answer = if !is_written {
        would_change(alloc, asked, file.shown.as_str(), text, new)?
    } else if let Some(unwritten) = replace(
        alloc,
        &host.rt,
        name,
        asked.writing,
        true,
        text.as_bytes(),
        new,
    )? {
        return Ok(unwritten);
    } else {
        printed(alloc, String::new(alloc))
    };
    count.add(name, true);
    Ok(answer)
}

/// Returns why a file can't be read: `reason` or, for a directory, that no file to format was found in it.
fn unread<'r>(host: &Host, name: &str, reason: &'r str) -> &'r str {
    if name != "-" && is_folder(&host.rt, name) {
        "no `*.toml` file in this directory, or only ignored ones"
    } else {
        reason
    }
}

/// Formats a text as the settings say. Fails as `format` does.
fn formatted<'t>(
    alloc: Global,
    text: &'t str,
    settings: &Settings,
) -> Result<String, Stop<FormatError<'t>>>
    ensures { FormatsAs settings.now.sort_keys.value text.now result }
{
    let options = settings.format_options();
    if settings.sort_keys.value {
        format_sorted(alloc, text, options)
    } else {
        format(alloc, text, options)
    }
}

/// Formats a file, counts it, and returns the answer. If the file can't be read or formatted, the answer says why.
fn format_file(
    alloc: Global,
    asked: &Asked<'_>,
    host: &mut Host,
    file: &Configured,
    count: &mut Count,
) -> Result<Answer, AllocError> {
    let name = file.shown.as_str();
    let front = "error: cannot format ";
    let bytes = match host.read_file(alloc, file.name.as_str())? {
        Ok(bytes) => bytes,
        Err(reason) => {
            let reason = unread(host, file.name.as_str(), reason.as_str());
            return failed(alloc, "error: cannot read ", name, reason, 2);
        }
    };
    if bytes.len() > BOUND {
        return failed(alloc, front, name, "it is larger than 16 MiB", 1);
    }
    let text = match str::from_utf8(bytes.as_slice()) {
        Ok(text) => text,
        Err(error) => return not_text(alloc, name, bytes.as_slice(), error.valid_up_to()),
    };
    match formatted(alloc, text, &file.found.settings) {
        Ok(new) if new.len() > BOUND => {
            let reason = "the result would be larger than 16 MiB";
            failed(alloc, front, name, reason, 1)
        }
        Ok(new) => put(alloc, asked, host, file, text, new, count),
        Err(stop) => {
            let error = stop.fault()?;
            refused(alloc, name, text, &error)
        }
    }
}

/// Adds the answer for one file to the answer for all. The higher status counts.
fn add(all: &mut Answer, one: &Answer) -> Result<(), AllocError>
    ensures { OnOk result (spec.Adds all.old one.now all.new) }
{
    all.out.push_str(one.out.as_str())?;
    all.errors.push_str(one.errors.as_str())?;
    all.status = all.status.max(one.status);
    Ok(())
}

/// Adds to `text` a line on how many files were formatted, or would be formatted with `--check` or `--diff`, and how
/// many were not changed. Adds nothing if there are neither, or with `--quiet`.
fn summarize(text: &mut String, asked: &Asked<'_>, count: Count) -> Result<(), AllocError> {
    let (changed, unchanged) = (count.changed, count.unchanged);
    if asked.is_quiet || (changed == 0 && unchanged == 0) {
        return Ok(());
    }
    if changed > 0 {
        let files = if changed == 1 { "file" } else { "files" };
        let verb = if asked.is_check || asked.is_diff {
            " would be formatted"
        } else {
            " formatted"
        };
        write!(text, "{changed} {files}{verb}")?;
        if unchanged > 0 {
            write!(text, ", {unchanged} unchanged")?;
        }
    } else {
        let files = if unchanged == 1 { "file" } else { "files" };
        write!(text, "{unchanged} {files} unchanged")?;
    }
    text.push('\n')?;
    Ok(())
}

/// Formats the files. Returns one answer for all, with a line that counts them.
fn format_each(
    alloc: Global,
    asked: &Asked<'_>,
    host: &mut Host,
    files: &[Configured],
) -> Result<Answer, AllocError> {
    // If nothing else is reported, the line that counts files needs no more memory once files have been written.
    let errors = String::with_capacity(alloc, LONGEST_LINE)?;
    let mut all = warned(alloc, errors, 0);
    let mut count = Count {
        changed: 0,
        unchanged: 0,
    };
    for file in files {
        let one = format_file(alloc, asked, host, file, &mut count)?;
        add(&mut all, &one)?;
    }
    summarize(&mut all.errors, asked, count)?;
    Ok(all)
}

/// Returns the files that the arguments name, and those found below directories that they name, with their settings.
/// Fails with a message, for standard error, if a configuration file can't be read or is wrong.
fn files_of(
    alloc: Global,
    asked: &Asked<'_>,
    host: &mut Host,
) -> Result<Vec<Configured>, Stop<String>> {
    let search = search_of(asked.config, asked.has_no_config);
    let mut sources = Sources::new(alloc, host, search, asked.layer, Style::Plain)?;
    let wanted = Wanted {
        names: asked.names.as_slice(),
        excludes: asked.excludes.as_slice(),
        stdin_name: asked.stdin_name,
        forces_exclude: asked.forces_exclude,
    };
    configured_files(alloc, host, &mut sources, wanted)
}

/// Finds the files, and formats them as `format_each` does. With `--diff`, the output is escaped if standard output is
/// a terminal. If a configuration file can't be read or is wrong, formats nothing, and the answer says why.
fn format_all(alloc: Global, asked: &Asked<'_>, host: &mut Host) -> Result<Answer, AllocError> {
    let files = match files_of(alloc, asked, host) {
        Ok(files) => files,
        Err(stop) => return stopped(alloc, stop),
    };
    let mut answer = format_each(alloc, asked, host, files.as_slice())?;
    if asked.is_diff {
        let out = mem::replace(&mut answer.out, String::new(alloc));
        answer.out = escaped(alloc, out, host.rt.stdout().is_terminal())?;
    }
    Ok(answer)
}

/// Formats files. Returns the answer. Its status is 0 for success; 1 if a file can't be formatted, or would change with
/// `--check` or `--diff`; 2 if a file can't be read or the arguments are wrong; 3 if a write fails.
pub(crate) fn fmt(
    alloc: Global,
    arguments: &[String],
    host: &mut Host,
) -> Result<Answer, AllocError> {
    if has_help(arguments) {
        return helped(alloc, Command::Fmt);
    }
    match asked_of(alloc, arguments) {
        Ok(asked) => format_all(alloc, &asked, host),
        Err(stop) => misused(alloc, Command::Fmt, stop),
    }
}
