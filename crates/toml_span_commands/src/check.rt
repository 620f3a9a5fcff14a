//! The command `check`.
ghost use Rattle.std.specs.Prelude.{◌≡◌, ◌≤◌, IfOk, None, [], false, map, string_bytes};
ghost use Rattle.toml_span_commands.specs.Check.{ChecksConfigured, ChecksFixed, ChecksWith, PerformsCheck};
ghost use Rattle.toml_span_commands.specs.Check.{ShowsChanges};
ghost use Rattle.toml_span_commands.specs.Configured as spec;
ghost use Rattle.toml_span_commands.specs.Configured.{IsConfigured, configured_says};
ghost use Rattle.toml_span_commands.specs.Start.{RunsWith};
ghost use Rattle.toml_span_check.specs.Fixing.{fixed};
ghost use Rattle.toml_span_check.specs.Newer.{FixesAll};

use crate::colours::Screen;
use crate::configured::{
    Configured, Wanted, common_version, configured_files, configured_task, has_schemas,
};
use crate::edit::escaped;
use crate::files::replace;
use crate::options::{Fixing, Options, Query, options_of, search_of};
use crate::say::say;
use crate::schemas::FileSchemas;
use crate::start::{refuse, run_with};
use std::alloc::{AllocError, Global};
use std::io::{IsTerminal, sink};
use std::mem;
use toml_span::Stop;
use toml_span_check::answer::Task;
use toml_span_check::fixing::{FixLevel, Fixed};
use toml_span_check::folder::is_special;
use toml_span_check::formats::Format;
use toml_span_check::input::{Host, Inputs};
use toml_span_check::newer::{Version, with_all_fixes};
use toml_span_check::request::Request;
use toml_span_check::words::shown_word;
use toml_span_config::layers::{Layer, given};
use toml_span_config::sources::Sources;
use toml_span_files::unified;
use toml_span_lines::run::BOUND;
use toml_span_lines::sink::Sink;
use toml_span_lines::tracked::Tracked;
use toml_span_lookup::disk::Disk;
use toml_span_report::Style;
use toml_span_report::visible::visible;

/// The fixes of the files so far.
#[derive(Drop)]
struct Fixes {
    level: FixLevel,
    /// How files are written.
    writing: toml_span_files::Options,
    /// Whether to print what the fixes would change, and to write no file.
    is_diff: bool,
    /// The number of fixes.
    errors: usize,
    /// The number of files with fixes.
    files: usize,
    /// What the fixes would change, for standard output. Empty unless `is_diff`.
    changes: String,
    /// For each file, the bytes to check instead of what is read: the fixed text of a file that is not written, or
    /// standard input that has been read.
    texts: Vec<Option<Vec<u8>>>,
    /// The lines for standard error.
    lines: String,
    /// The exit status: 3 if a file can't be written, 1 if one would change.
    status: u8,
    ghost small: { status ≤ 3 },
}

impl Fixes {
    /// Adds what the fixes change in a file, which reports call `shown`. `text` is the text of the file, and `new` the
    /// fixed text.
    fn add_changes(
        &mut self,
        alloc: Global,
        shown: &str,
        text: &str,
        new: &str,
    ) -> Result<(), AllocError> {
        let shown = shown_word(alloc, shown)?;
        let shown = visible(alloc, shown.as_str())?;
        let changes = unified(alloc, shown.as_str(), text, new)?;
        self.changes.push_str(changes.as_str())?;
        self.status = self.status.max(1);
        self.texts
            .push(Some(Vec::from_slice(alloc, new.as_bytes())?))?;
        Ok(())
    }

    /// Writes the fixed text of the file `name` or, if `is_diff`, adds what would change. `text` is the text of the
    /// file, and `shown` its name in reports.
    fn put(
        &mut self,
        alloc: Global,
        host: &Host,
        name: &str,
        shown: &str,
        text: &str,
        made: &Fixed,
    ) -> Result<(), AllocError> {
        let new = made.text.as_str();
        if self.is_diff {
            self.add_changes(alloc, shown, text, new)?;
        } else if let Some(answer) = replace(
            alloc,
            &host.rt,
            name,
            self.writing,
            false,
            text.as_bytes(),
            new,
        )? {
            self.lines.push_str(answer.errors.as_str())?;
            self.status = self.status.max(answer.status.min(3));
            return Ok(());
        }
        self.errors = self.errors.saturating_add(made.count);
        self.files = self.files.saturating_add(1);
        Ok(())
    }

    /// Fixes errors of a file with this text, in the version of TOML that its settings say.
    fn fixed(&self, alloc: Global, file: &Configured, text: &str) -> Result<Fixed, AllocError>
        ensures { IfOk result (λ made. FixesAll file.now.found.settings.toml.value (string_bytes file.now.shown)
            self.now.level text.now (fixed made)) }
    {
        let version = file.found.settings.toml.value;
        with_all_fixes(alloc, text, version, file.shown.as_str(), self.level)
    }

    /// Fixes errors of a file whose content is `bytes`, and calls `put` if there were fixes. Returns whether there
    /// were. A file that is larger than 16 MiB or not valid UTF-8 has no fixes.
    fn add_bytes(
        &mut self,
        alloc: Global,
        host: &Host,
        file: &Configured,
        bytes: &[u8],
    ) -> Result<bool, AllocError> {
        if bytes.len() > BOUND {
            return Ok(false);
        }
        let Ok(text) = str::from_utf8(bytes) else {
            return Ok(false);
        };
        let (name, shown) = (file.name.as_str(), file.shown.as_str());
        let made = self.fixed(alloc, file, text)?;
        if made.count == 0 {
            return Ok(false);
        }
        self.put(alloc, host, name, shown, text, &made)?;
        Ok(true)
    }

    /// Fixes errors of a file as `add_bytes` does. The check that follows reports why a file can't be read. Standard
    /// input is only read if `is_diff`.
    fn add_file(
        &mut self,
        alloc: Global,
        host: &mut Host,
        file: &Configured,
    ) -> Result<(), AllocError> {
        let is_stdin = file.name.as_str() == "-";
        let mut kept = None;
        if !is_stdin || self.is_diff {
            if let Ok(bytes) = host.read_file(alloc, file.name.as_str())? {
                let is_put = self.add_bytes(alloc, host, file, bytes.as_slice())?;
                if self.is_diff && is_put {
                    return Ok(());
                }
                if is_stdin {
                    kept = Some(bytes);
                }
            }
        }
        self.texts.push(kept)?;
        Ok(())
    }

    /// Removes what would be printed.
    fn silence(&mut self, alloc: Global) {
        self.changes = String::new(alloc);
        self.lines = String::new(alloc);
    }

    /// Adds the line that says how many errors were fixed, or would be fixed, in how many files. Adds nothing without
    /// fixes.
    fn add_total(&mut self, alloc: Global) -> Result<(), AllocError> {
        let (errors, files) = (self.errors, self.files);
        if errors == 0 {
            return Ok(());
        }
        let verb = if self.is_diff { "would fix" } else { "fixed" };
        let error_word = if errors == 1 { "error" } else { "errors" };
        let file_word = if files == 1 { "file" } else { "files" };
        let line = format!(in alloc; "{verb} {errors} {error_word} in {files} {file_word}\n")?;
        self.lines.push_str(line.as_str())
    }
}

/// Fixes each of the files (see `add_file`). With `--quiet`, there is nothing to print.
fn fix_files(
    alloc: Global,
    options: &Options<'_>,
    level: FixLevel,
    is_diff: bool,
    listed: &Listed,
    host: &mut Host,
) -> Result<Fixes, AllocError> {
    let mut fixes = Fixes {
        level,
        writing: options.writing,
        is_diff,
        errors: 0,
        files: 0,
        changes: String::new(alloc),
        texts: Vec::new(alloc),
        lines: String::new(alloc),
        status: 0,
    };
    for file in &listed.files {
        fixes.add_file(alloc, host, file)?;
    }
    fixes.add_total(alloc)?;
    if options.request.is_quiet {
        fixes.silence(alloc);
    }
    Ok(fixes)
}

/// Files that have been found, and standard input, which has a name of its own.
#[derive(Drop)]
struct NamedInputs {
    host: Host,
    /// The names of the files in reports. Empty after the first search.
    names: Vec<String>,
    /// The bytes of files that are not read, by the numbers of the files.
    texts: Vec<Option<Vec<u8>>>,
    /// The number of files that have been read.
    count: usize,
    stdin_name: String,
    /// Whether standard input is one of the files, and has not been read yet.
    is_waiting: bool,
    /// Whether a pipe or a device is opened. With `--fix` it is not, since it can't be written either.
    opens_pipes: bool,
}

impl NamedInputs {
    /// Returns the names of all files the first time, and then none.
    fn take_names(&mut self, alloc: Global) -> Vec<String>
        ensures taken { result ≡ self.old.names }
        ensures left { self.new.names.items ≡ [] }
    {
        mem::replace(&mut self.names, Vec::new(alloc))
    }
}

impl Inputs for NamedInputs {
    ghost log = { λ _. None };

    /// Returns the names of all files for the first argument, and none for the others.
    fn find(
        &mut self,
        alloc: Global,
        _excludes: &[&str],
        _name: &str,
    ) -> Result<Vec<String>, AllocError> {
        Ok(self.take_names(alloc))
    }

    fn read(&mut self, alloc: Global, name: &str) -> Result<Result<Vec<u8>, String>, AllocError> {
        let at = self.count;
        self.count = at.saturating_add(1);
        if let Some(text) = self.texts.get_mut(at) {
            if let Some(bytes) = text.take() {
                return Ok(Ok(bytes));
            }
        }
        if self.is_waiting && name == self.stdin_name.as_str() {
            self.is_waiting = false;
            return self.host.read(alloc, "-");
        }
        if !self.opens_pipes && is_special(&self.host.rt, name) {
            return Ok(Err(String::from_str(alloc, "it is not a regular file")?));
        }
        self.host.read(alloc, name)
    }
}

/// Where files and their schemas come from.
#[derive(Drop)]
struct Files {
    inputs: NamedInputs,
    schemas: FileSchemas,
}

/// The files to check, with their settings and configuration files.
#[derive(Drop)]
struct Listed {
    files: Vec<Configured>,
    sources: Sources,
}

/// Returns the settings of the command line. `is_version_given` says whether it names the version of TOML of the task.
fn layer_of(task: Task, is_version_given: bool, denies_warnings: bool) -> Layer
    ensures { result ≡ spec.layer_of task is_version_given denies_warnings }
{
    let toml = match task {
        Task::Check(version, _) if is_version_given => given(version),
        Task::Check(_, _) | Task::Show(_) => None,
    };
    Layer {
        toml,
        deny_warnings: if denies_warnings { given(true) } else { None },
        ..Layer::empty()
    }
}

/// Finds the files that `options` names, and reads their configuration files. Fails with a message, for standard error,
/// if a configuration file can't be read or is wrong.
fn find_files(
    alloc: Global,
    options: &Options<'_>,
    host: &mut Host,
) -> Result<Listed, Stop<String>> {
    let request = &options.request;
    let layer = layer_of(
        request.task,
        options.is_version_given,
        options.denies_warnings,
    );
    let style = match request.format {
        Format::Text(style) => style,
        _ => Style::Plain,
    };
    let search = search_of(options.config, options.has_no_config);
    let mut sources = Sources::new(alloc, host, search, layer, style)?;
    let wanted = Wanted {
        names: request.names.as_slice(),
        excludes: request.excludes.as_slice(),
        stdin_name: options.stdin_name,
        forces_exclude: options.forces_exclude,
    };
    let files = configured_files(alloc, host, &mut sources, wanted)?;
    Ok(Listed { files, sources })
}

/// Returns the names of files in reports.
fn names_of(alloc: Global, files: &[Configured]) -> Result<Vec<String>, AllocError>
    ensures { IfOk result (λ names. map (λ name. string_bytes name) names.items ≡ map spec.shown_name files.now) }
{
    let mut names = Vec::new(alloc);
    for file in files {
        names.push(file.shown.clone()?)?;
    }
    Ok(names)
}

/// Returns whether standard input is one of the files.
#[tactic(auto, unfolding(crate::specs::Configured::has_stdin))]
fn has_stdin(files: &[Configured]) -> bool
    ensures { result ≡ spec.has_stdin files.now }
{
    for file in files {
        if file.name.as_str() == "-" {
            return true;
        }
    }
    false
}

impl Files {
    /// Returns the files, and their schemas for `options`. `texts` are the bytes of files that are not read, by the
    /// numbers of the files. Reads nothing yet.
    fn of(
        alloc: Global,
        options: &Options<'_>,
        listed: Listed,
        texts: Vec<Option<Vec<u8>>>,
        host: &Host,
    ) -> Result<Files, AllocError> {
        let Listed { files, sources } = listed;
        let names = names_of(alloc, files.as_slice())?;
        let is_waiting = has_stdin(files.as_slice());
        let are_mixed = common_version(files.as_slice()).is_none();
        let reader = Host { rt: host.rt };
        Ok(Files {
            inputs: NamedInputs {
                host: Host { rt: host.rt },
                names,
                texts,
                count: 0,
                stdin_name: String::from_str(alloc, options.stdin_name)?,
                is_waiting,
                opens_pipes: matches!(options.fixing, Fixing::No),
            },
            schemas: FileSchemas::new(alloc, reader, &options.schemas, sources, files, are_mixed)?,
        })
    }
}

/// Checks the files that `request` names. Returns the exit status of `run_with`.
fn check_files<O: Sink, E: Sink>(
    alloc: Global,
    request: &Request<'_>,
    files: &mut Files,
    out: &mut O,
    errors: &mut E,
) -> u8
    requires out { O.failed out.old ≡ false }
    requires errors { E.failed errors.old ≡ false }
    ensures { RunsWith configured_says request.now None None
        (O.contents out.old) (O.contents out.new) (O.failed out.new)
        (E.contents errors.old) (E.contents errors.new) (E.failed errors.new) result }
{
    run_with(
        alloc,
        request,
        &mut files.inputs,
        &mut files.schemas,
        out,
        errors,
    )
}

/// Prints the lines of `fixes`, and then checks the files. Returns the exit status of the check, but at least the
/// status of `fixes`, and 3 if the lines can't be written.
fn check_fixed<O: Sink, E: Sink>(
    alloc: Global,
    fixes: &Fixes,
    request: &Request<'_>,
    files: &mut Files,
    out: &mut O,
    errors: &mut E,
) -> u8
    requires out { O.failed out.old ≡ false }
    requires errors { E.failed errors.old ≡ false }
    ensures { ChecksFixed (string_bytes fixes.now.lines) fixes.now.status request.now (O.contents out.old)
        (O.contents out.new) (O.failed out.new)
        (E.contents errors.old) (E.contents errors.new) (E.failed errors.new) result }
{
    match say(errors, fixes.lines.as_str(), 0) {
        0 => {
            let checked = check_files(alloc, request, files, out, errors);
            checked.max(fixes.status)
        }
        _ => 3,
    }
}

/// Prints what `fixes` would change, and then does what `check_fixed` does, but prints no reports. Returns the exit
/// status, which is 3 if the changes can't be written.
fn show_changes<O: Sink, E: Sink>(
    alloc: Global,
    fixes: &mut Fixes,
    request: &Request<'_>,
    files: &mut Files,
    out: &mut O,
    errors: &mut E,
) -> Result<u8, AllocError>
    requires out { O.failed out.old ≡ false }
    requires errors { E.failed errors.old ≡ false }
    ensures { IfOk result (ShowsChanges (string_bytes fixes.old.changes) (string_bytes fixes.old.lines)
        fixes.old.status request.now (O.contents out.old) (O.contents out.new)
        (E.contents errors.old) (E.contents errors.new) (E.failed errors.new)) }
{
    let changes = mem::replace(&mut fixes.changes, String::new(alloc));
    let is_terminal = files.inputs.host.rt.stdout().is_terminal();
    let changes = escaped(alloc, changes, is_terminal)?;
    match say(out, changes.as_str(), 0) {
        0 => {
            let mut nowhere = Tracked::new(sink());
            Ok(check_fixed(alloc, fixes, request, files, &mut nowhere, errors))
        }
        _ => Ok(3),
    }
}

/// Carries out `check` for files that have been found, and returns the exit status.
fn check_listed<O: Sink, E: Sink>(
    alloc: Global,
    options: &Options<'_>,
    listed: Listed,
    host: &mut Host,
    out: &mut O,
    errors: &mut E,
) -> Result<u8, AllocError>
    requires out { O.failed out.old ≡ false }
    requires errors { E.failed errors.old ≡ false }
    ensures { IfOk result (λ status. ChecksWith options.now.fixing options.now.request
        (O.contents out.old) (O.contents out.new) (O.failed out.new)
        (E.contents errors.old) (E.contents errors.new) (E.failed errors.new) status) }
{
    let request = &options.request;
    match options.fixing {
        Fixing::No => {
            let mut files = Files::of(alloc, options, listed, Vec::new(alloc), host)?;
            Ok(check_files(alloc, request, &mut files, out, errors))
        }
        Fixing::Write(level) => {
            let fixes = fix_files(alloc, options, level, false, &listed, host)?;
            let mut files = Files::of(alloc, options, listed, Vec::new(alloc), host)?;
            Ok(check_fixed(alloc, &fixes, request, &mut files, out, errors))
        }
        Fixing::Diff(level) => {
            let mut fixes = fix_files(alloc, options, level, true, &listed, host)?;
            let texts = mem::replace(&mut fixes.texts, Vec::new(alloc));
            let mut files = Files::of(alloc, options, listed, texts, host)?;
            let status = show_changes(alloc, &mut fixes, request, &mut files, out, errors)?;
            Ok(status)
        }
    }
}

/// Sets the version of TOML that all files have, unless the arguments name one, and says who chooses schemas. If the
/// files have several versions, they are checked as TOML 1.1, and `FileSchemas` checks each as its version.
fn configure(options: &mut Options<'_>, listed: &Listed)
    ensures task { IsConfigured listed.now.files.items options.old.request options.new.request }
    ensures fixing { options.new.fixing ≡ options.old.fixing }
{
    let files = listed.files.as_slice();
    let version = common_version(files).unwrap_or(Version::Toml11);
    options.request.task = configured_task(options.request.task, version, has_schemas(files));
}

/// Carries out `check` with these options, and returns the exit status. If a configuration file can't be read or is
/// wrong, only prints why, with status 2.
fn check_with<O: Sink, E: Sink>(
    alloc: Global,
    mut options: Options<'_>,
    host: &mut Host,
    out: &mut O,
    errors: &mut E,
) -> Result<u8, AllocError>
    requires out { O.failed out.old ≡ false }
    requires errors { E.failed errors.old ≡ false }
    ensures { IfOk result (λ status. ChecksConfigured options.entry.fixing options.entry.request
        (O.contents out.old) (O.contents out.new) (O.failed out.new)
        (E.contents errors.old) (E.contents errors.new) (E.failed errors.new) status) }
{
    match find_files(alloc, &options, host) {
        Ok(listed) => {
            configure(&mut options, &listed);
            check_listed(alloc, &options, listed, host, out, errors)
        }
        Err(stop) => {
            let message = stop.fault()?;
            Ok(say(errors, message.as_str(), 2))
        }
    }
}

/// Checks files. With `--fix`, first fixes their errors. With `--diff`, writes no file: prints what the fixes would
/// change instead of the reports of the check. Returns the exit status. `words` are the name of the command, or of the
/// program, and the arguments.
pub fn check<O: Sink, E: Sink>(
    alloc: Global,
    words: &[String],
    screen: Screen,
    host: &mut Host,
    out: &mut O,
    errors: &mut E,
) -> Result<u8, AllocError>
    requires out { O.failed out.old ≡ false }
    requires errors { E.failed errors.old ≡ false }
    ensures { IfOk result (λ status. PerformsCheck (map (λ w. string_bytes w) words.now) screen
        (O.contents out.old) (O.contents out.new) (O.failed out.new)
        (E.contents errors.old) (E.contents errors.new) (E.failed errors.new) status) }
{
    match options_of(alloc, Query::Check, words, screen) {
        Ok(options) => check_with(alloc, options, host, out, errors),
        Err(error) => Ok(refuse(alloc, Query::Check, words, &error, out, errors)),
    }
}
