//! The arguments of `check` and `get`.
ghost use Rattle.std.specs.Prelude.{◌≡◌, IfOk, false, map, string_bytes, codes};
ghost use Rattle.clap.specs.Kinds.{FailsBy};
ghost use Rattle.clap.specs.Words.{app_of, found_of, rows_of, rule_of};
ghost use Rattle.toml_span_commands.specs.Options as spec;

use crate::colours::Screen;
use crate::help::{CHECK, GET, VERSION};
use crate::schemas::SchemaOptions;
use crate::words::has;
use clap::error::ErrorKind;
use clap::{Arg, ArgAction, ArgMatches, Command, Error};
use std::alloc::{AllocError, Global};
use toml_span_check::answer::{Form, Printing, Task};
use toml_span_check::fixing::FixLevel;
use toml_span_check::formats::Format;
use toml_span_check::newer::Version;
use toml_span_check::request::Request;
use toml_span_check::schemas::Chooser;
use toml_span_check::words::is_bytes;
use toml_span_config::sources::Search;
use toml_span_report::Style;

/// The message that a value of `--schema-map` is wrong.
pub(crate) const WRONG_MAP: &str = "the value of '--schema-map' must be URL=FILE";

/// A command whose arguments this module parses.
#[derive(Clone, Copy)]
pub enum Query {
    /// `check`
    Check,
    /// `get`
    Get,
}

/// What `check` does with the fixes of errors.
#[derive(Clone, Copy)]
pub(crate) enum Fixing {
    /// Nothing.
    No,
    /// Applies the fixes of this level, and writes the files.
    Write(FixLevel),
    /// Prints what the fixes of this level would change.
    Diff(FixLevel),
}

/// The parsed arguments of `check` or `get`.
#[derive(Drop)]
pub(crate) struct Options<'w> {
    /// What to check or print. For `check`, the path is empty.
    pub(crate) request: Request<'w>,
    /// Whether `--toml` names a version, perhaps `auto`.
    pub(crate) is_version_given: bool,
    /// The name of standard input in reports. For `get`, it is empty.
    pub(crate) stdin_name: &'w str,
    pub(crate) fixing: Fixing,
    /// How fixed files are written.
    pub(crate) writing: toml_span_files::Options,
    pub(crate) schemas: SchemaOptions<'w>,
    /// The path of the configuration file, or an empty text.
    pub(crate) config: &'w str,
    /// Whether to use no configuration file.
    pub(crate) has_no_config: bool,
    /// Whether configuration files also exclude files that are named.
    pub(crate) forces_exclude: bool,
    /// Whether warnings are errors.
    pub(crate) denies_warnings: bool,
}

/// Returns which configuration file to use. `config` is the value of `--config`, or an empty text, and `has_none` says
/// whether `--no-config` is given.
pub(crate) fn search_of<'w>(config: &'w str, has_none: bool) -> Search<'w>
    ensures { result ≡ spec.search_of config.entry has_none }
{
    if has_none {
        Search::No
    } else if config.is_empty() {
        Search::Nearest
    } else {
        Search::Given(config)
    }
}

/// A mistake that clap does not find in the arguments.
#[derive(Clone, Copy)]
enum Mistake {
    /// The value of `--format` is unknown.
    Format,
    /// The value of `--color` is unknown.
    Color,
    /// The value of `--toml` is unknown.
    Version,
    /// Several flags choose a form in which to print the value.
    Forms,
    /// The path is not valid UTF-8.
    Path,
    /// The format is SARIF, which `get` does not support.
    Sarif,
    /// A value of `--schema-map` has no `=`.
    Map,
    /// An option about fixes is given without `--fix`.
    Fix,
}

/// How an option or an argument is given.
#[derive(Clone, Copy)]
enum Kind<'w> {
    /// An option without a value.
    Flag,
    /// An option.
    Optional,
    /// An option that may be repeated.
    Several,
    /// An option with this default value.
    Default(&'w str),
    /// The names of files, the current directory by default.
    Files,
    /// An argument that is required.
    Required,
    /// An argument that is required, and may follow further arguments.
    Last,
}

/// The options and arguments of `check`.
const CHECK_OPTIONS: [(&str, Kind<'static>); 21] = [
    ("format", Kind::Default("text")),
    ("color", Kind::Default("auto")),
    ("schema", Kind::Optional),
    ("catalog", Kind::Optional),
    ("schema-map", Kind::Several),
    ("no-formats", Kind::Flag),
    ("fix", Kind::Flag),
    ("unsafe-fixes", Kind::Flag),
    ("diff", Kind::Flag),
    ("force", Kind::Flag),
    ("change-owner", Kind::Flag),
    ("in-place", Kind::Flag),
    ("config", Kind::Optional),
    ("no-config", Kind::Flag),
    ("force-exclude", Kind::Flag),
    ("deny-warnings", Kind::Flag),
    ("quiet", Kind::Flag),
    ("toml", Kind::Optional),
    ("exclude", Kind::Several),
    ("stdin-name", Kind::Default("-")),
    ("FILE", Kind::Files),
];

/// The options and arguments of `get`.
const GET_OPTIONS: [(&str, Kind<'static>); 10] = [
    ("format", Kind::Default("text")),
    ("color", Kind::Default("auto")),
    ("json", Kind::Flag),
    ("raw", Kind::Flag),
    ("toml", Kind::Flag),
    ("tagged", Kind::Flag),
    ("items", Kind::Flag),
    ("sort-keys", Kind::Flag),
    ("FILE", Kind::Required),
    ("PATH", Kind::Last),
];

/// Returns the option or argument `name` of this kind.
fn arg<'w>(alloc: Global, name: &'w str, kind: Kind<'w>) -> Arg<'w>
    ensures rule { rule_of result ≡ spec.rule name.entry.now kind.entry }
    ensures own { result.global ≡ false }
{
    match kind {
        Kind::Flag => Arg::new(alloc, name).long(name).action(ArgAction::SetTrue),
        Kind::Optional => Arg::new(alloc, name).long(name),
        Kind::Several => Arg::new(alloc, name).long(name).action(ArgAction::Append),
        Kind::Default(value) => Arg::new(alloc, name).long(name).default_value(value),
        Kind::Files => Arg::new(alloc, name).num_args(0..).default_value("."),
        Kind::Required => Arg::new(alloc, name).required(true),
        Kind::Last => Arg::new(alloc, name).required(true).num_args(1..),
    }
}

/// Returns a command with these options and arguments. `name` is the name of the command in messages, and `help` its
/// help text.
fn command_with<'w>(
    alloc: Global,
    name: &'w str,
    help: &'w str,
    options: &[(&'w str, Kind<'w>)],
) -> Result<Command<'w>, AllocError>
    ensures { IfOk result (λ c. app_of c ≡ spec.with_options spec.plain options.entry.now) }
{
    let mut command = Command::new(alloc, "toml-span")
        .bin_name(name)?
        .override_help(help)
        .version(VERSION);
    for option in options {
        command = command.arg(arg(alloc, option.0, option.1))?;
    }
    Ok(command)
}

/// Returns the command that `query` names, with all its arguments.
fn command<'w>(alloc: Global, query: Query) -> Result<Command<'w>, AllocError>
    ensures { IfOk result (λ c. app_of c ≡ spec.program query) }
{
    match query {
        Query::Check => command_with(alloc, "toml-span check", CHECK, &CHECK_OPTIONS),
        Query::Get => command_with(alloc, "toml-span get", GET, &GET_OPTIONS),
    }
}

/// Returns the output format with this name, or `None` for any other name. `style` is the style of the format `text`.
fn format_named(name: &str, style: Style) -> Option<Format>
    ensures { result ≡ spec.format_named name.now style }
{
    match name {
        "text" => Some(Format::Text(style)),
        "short" => Some(Format::Short),
        "json" => Some(Format::Json),
        "github" => Some(Format::Github),
        "sarif" => Some(Format::Sarif),
        _ => None,
    }
}

/// Returns the style for a value of `--color`, or `None` if the value is unknown. For `auto`, the style has colors if
/// `auto_is_coloured`.
fn style_named(name: &str, auto_is_coloured: bool) -> Option<Style>
    ensures { result ≡ spec.style_named name.now auto_is_coloured }
{
    match name {
        "always" => Some(Style::Coloured),
        "never" => Some(Style::Plain),
        "auto" if auto_is_coloured => Some(Style::Coloured),
        "auto" => Some(Style::Plain),
        _ => None,
    }
}

/// Returns the value of the option or argument `name`, or an empty text if it has no value.
fn value_of<'w>(matches: &ArgMatches<'w>, name: &str) -> &'w str
    ensures { result.now ≡ spec.value_of (rows_of (found_of matches.now)) name.now }
{
    matches.get_str(name).unwrap_or("")
}

/// Returns the last of these arguments, or an empty text if there are none.
fn last<'w>(arguments: &[&'w str]) -> &'w str
    ensures { result.now ≡ spec.last (map (λ word. word.now) arguments.now) }
{
    arguments.last().copied().unwrap_or("")
}

/// Returns these arguments without the last one.
fn but_last<'m, 'w>(arguments: &'m [&'w str]) -> &'m [&'w str]
    ensures { map (λ word. word.now) result.now ≡ spec.but_last (map (λ word. word.now) arguments.now) }
{
    &arguments[..arguments.len().saturating_sub(1)]
}

/// Returns the path of `get`, or an empty text for `check`.
fn path_of<'w>(matches: &ArgMatches<'w>) -> &'w str
    ensures { result.now ≡ spec.path_of (rows_of (found_of matches.now)) }
{
    last(matches.get_strs("PATH").unwrap_or(&[]))
}

/// Returns the names of files.
fn names_of<'w>(alloc: Global, matches: &ArgMatches<'w>) -> Result<Vec<&'w str>, AllocError>
    ensures { IfOk result (λ names. map (λ name. name.now) names.items
        ≡ spec.names_of (rows_of (found_of matches.now))) }
{
    let mut names = Vec::from_slice(alloc, matches.get_strs("FILE").unwrap_or(&[]))?;
    names.extend_from_slice(but_last(matches.get_strs("PATH").unwrap_or(&[])))?;
    Ok(names)
}

/// Returns whether each of the texts contains an `=`.
#[tactic(auto, unfolding(crate::specs::Options::are_maps))]
fn are_maps(maps: &[&str]) -> bool
    ensures { result ≡ spec.are_maps (map (λ m. m.now) maps.now) }
{
    for map in maps {
        if !has(*map, b'=') {
            return false;
        }
    }
    true
}

/// Returns whether each value of `--schema-map` contains an `=`.
fn has_maps(matches: &ArgMatches<'_>) -> bool
    ensures { result ≡ spec.are_maps (spec.values_of (rows_of (found_of matches.now)) (codes "schema-map")) }
{
    are_maps(matches.get_strs("schema-map").unwrap_or(&[]))
}

/// Returns whether a flag is set.
fn is_given(matches: &ArgMatches<'_>, name: &str) -> bool
    ensures { result ≡ spec.is_given (rows_of (found_of matches.now)) name.now }
{
    value_of(matches, name) == "true"
}

/// Adds one flag to the flags that made the choice `chosen`, and returns the choice of all of them. If `is_given`, the
/// added flag chooses `form`. Fails with `Mistake::Forms` if `chosen` already has a form and the added flag chooses
/// one. If `chosen` is a mistake, fails with this mistake.
fn with_form(
    chosen: Result<Option<Form>, Mistake>,
    is_given: bool,
    form: Form,
) -> Result<Option<Form>, Mistake>
    ensures { result ≡ spec.with_form chosen is_given form }
{
    match (chosen, is_given) {
        (Ok(None), true) => Ok(Some(form)),
        (Ok(Some(_)), true) => Err(Mistake::Forms),
        (chosen, _) => chosen,
    }
}

/// Returns the form that a flag chooses, or `None` without such a flag. Fails with `Mistake::Forms` if several flags
/// choose a form.
fn form_of(matches: &ArgMatches<'_>) -> Result<Option<Form>, Mistake>
    ensures { result ≡ spec.form_of (rows_of (found_of matches.now)) }
{
    let json = with_form(Ok(None), is_given(matches, "json"), Form::Plain);
    let raw = with_form(json, is_given(matches, "raw"), Form::Raw);
    let toml = with_form(raw, is_given(matches, "toml"), Form::Toml);
    let tagged = with_form(toml, is_given(matches, "tagged"), Form::Tagged);
    with_form(tagged, is_given(matches, "items"), Form::Items)
}

/// Returns the version of TOML with this name, `Version::Auto` for an empty name, or `None` for any other name.
fn version_named(name: &str) -> Option<Version>
    ensures { result ≡ spec.version_named name.now }
{
    match name {
        "auto" => Some(Version::Auto),
        "1.0" => Some(Version::Toml10),
        "1.1" => Some(Version::Toml11),
        "" => Some(Version::Auto),
        _ => None,
    }
}

/// Returns `Chooser::Arguments` if `--schema` or `--catalog` has a value that is not empty, otherwise `Chooser::Files`.
fn chooser_of(matches: &ArgMatches<'_>) -> Chooser
    ensures { result ≡ spec.chooser_of (rows_of (found_of matches.now)) }
{
    if value_of(matches, "schema").is_empty() && value_of(matches, "catalog").is_empty() {
        Chooser::Files
    } else {
        Chooser::Arguments
    }
}

/// Returns the level of the fixes to apply: `Unsafe` with `--unsafe-fixes`.
fn level_of(matches: &ArgMatches<'_>) -> FixLevel
    ensures { result ≡ spec.level_of (rows_of (found_of matches.now)) }
{
    if is_given(matches, "unsafe-fixes") {
        FixLevel::Unsafe
    } else {
        FixLevel::Safe
    }
}

/// Returns what to do with the fixes of errors.
fn fixing_of(matches: &ArgMatches<'_>) -> Fixing
    ensures { result ≡ spec.fixing_of (rows_of (found_of matches.now)) }
{
    if !is_given(matches, "fix") {
        Fixing::No
    } else if is_given(matches, "diff") {
        Fixing::Diff(level_of(matches))
    } else {
        Fixing::Write(level_of(matches))
    }
}

/// Returns whether an option says how files are written.
fn has_writing(matches: &ArgMatches<'_>) -> bool
    ensures { result ≡ spec.has_writing (rows_of (found_of matches.now)) }
{
    is_given(matches, "force") || is_given(matches, "change-owner") || is_given(matches, "in-place")
}

/// Returns whether an option about fixes is given without `--fix`.
fn lacks_fix(matches: &ArgMatches<'_>) -> bool
    ensures { result ≡ spec.lacks_fix (rows_of (found_of matches.now)) }
{
    !is_given(matches, "fix")
        && (is_given(matches, "diff") || is_given(matches, "unsafe-fixes") || has_writing(matches))
}

/// Returns how fixed files are written.
fn writing_of(matches: &ArgMatches<'_>) -> toml_span_files::Options
    ensures { result ≡ spec.writing_of (rows_of (found_of matches.now)) }
{
    toml_span_files::Options {
        is_forced: is_given(matches, "force"),
        may_change_owner: is_given(matches, "change-owner"),
        is_in_place: is_given(matches, "in-place"),
        ..toml_span_files::Options::USUAL
    }
}

/// Returns what to do with the files. Fails with a `Mistake` if the arguments are wrong.
fn task_of(query: Query, matches: &ArgMatches<'_>) -> Result<Task, Mistake>
    ensures { result ≡ spec.task_of query (rows_of (found_of matches.now)) }
{
    match query {
        Query::Check if !has_maps(matches) => Err(Mistake::Map),
        Query::Check if lacks_fix(matches) => Err(Mistake::Fix),
        Query::Check => match version_named(value_of(matches, "toml")) {
            Some(version) => Ok(Task::Check(version, chooser_of(matches))),
            None => Err(Mistake::Version),
        },
        Query::Get if is_bytes(path_of(matches)) => Err(Mistake::Path),
        Query::Get => match form_of(matches) {
            Ok(form) => Ok(Task::Show(Printing {
                form: form.unwrap_or(Form::Plain),
                is_sorted: is_given(matches, "sort-keys"),
                is_named: false,
            })),
            Err(mistake) => Err(mistake),
        },
    }
}

/// Returns the format and the task. Fails with `Mistake::Sarif` if the format is SARIF and the task prints a value.
fn with_task(format: Format, task: Task) -> Result<(Format, Task), Mistake>
    ensures { result ≡ spec.with_task format task }
{
    match (format, task) {
        (Format::Sarif, Task::Show(_)) => Err(Mistake::Sarif),
        _ => Ok((format, task)),
    }
}

/// Returns the format of reports, and what to do with the files. Fails with a `Mistake` if the arguments are wrong.
fn asked(
    query: Query,
    matches: &ArgMatches<'_>,
    auto_is_coloured: bool,
) -> Result<(Format, Task), Mistake>
    ensures { result ≡ spec.asked query (rows_of (found_of matches.now)) auto_is_coloured }
{
    let Some(style) = style_named(value_of(matches, "color"), auto_is_coloured) else {
        return Err(Mistake::Color);
    };
    let Some(format) = format_named(value_of(matches, "format"), style) else {
        return Err(Mistake::Format);
    };
    match task_of(query, matches) {
        Ok(task) => with_task(format, task),
        Err(mistake) => Err(mistake),
    }
}

/// Returns whether reports have colors with `--color auto`. Those of `get` are on standard error.
fn coloured(query: Query, screen: Screen) -> bool
    ensures { result ≡ spec.coloured query screen }
{
    match query {
        Query::Check => screen.is_coloured,
        Query::Get => screen.has_coloured_errors,
    }
}

/// Returns clap's kind of error for a mistake.
fn kind_of(mistake: Mistake) -> ErrorKind
    ensures { result ≡ spec.kind_of mistake }
{
    match mistake {
        Mistake::Format | Mistake::Color | Mistake::Version | Mistake::Path | Mistake::Map =>
            ErrorKind::InvalidValue,
        Mistake::Forms | Mistake::Sarif => ErrorKind::ArgumentConflict,
        Mistake::Fix => ErrorKind::MissingRequiredArgument,
    }
}

/// Returns the message for a mistake.
fn message_of(mistake: Mistake) -> &'static str {
    match mistake {
        Mistake::Format => "the value of '--format' must be text, short, json, github or sarif",
        Mistake::Color => "the value of '--color' must be auto, always or never",
        Mistake::Version => "the value of '--toml' must be 1.0, 1.1 or auto",
        Mistake::Forms =>
            "only one of '--json', '--raw', '--toml', '--tagged' and '--items' can be used",
        Mistake::Path => "the path is not valid UTF-8",
        Mistake::Map => WRONG_MAP,
        Mistake::Sarif => "'--format sarif' can only be used with `check`",
        Mistake::Fix =>
            "'--unsafe-fixes', '--diff', '--force', '--change-owner' and '--in-place' need '--fix'",
    }
}

/// Parses the arguments of a command. `words` are the name of the command, or of the program, and the arguments.
/// Fails with clap's error, which may also be a request for the help or the version. If an allocation fails, the error
/// has the kind `OutOfMemory`.
pub(crate) fn options_of<'w>(
    alloc: Global,
    query: Query,
    words: &'w [String],
    screen: Screen,
) -> Result<Options<'w>, Error>
    ensures ok { IfOk result (λ o.
        spec.Asks query (map (λ w. string_bytes w) words.entry.now) screen o.request o.fixing) }
    ensures sets { IfOk result
        (λ o. spec.Sets (spec.options query (map (λ w. string_bytes w) words.entry.now)) o) }
    ensures fails { FailsBy
        (spec.faults query (map (λ w. string_bytes w) words.entry.now) (spec.coloured query screen)) result }
{
    let mut command = command(alloc, query)?;
    let matches = command.try_get_matches_from_mut(words)?;
    match asked(query, &matches, coloured(query, screen)) {
        Ok((format, task)) => Ok(Options {
            request: Request {
                format,
                task,
                pointer: path_of(&matches),
                excludes: Vec::from_slice(alloc, matches.get_strs("exclude").unwrap_or(&[]))?,
                names: names_of(alloc, &matches)?,
                is_watched: screen.is_watched,
                is_quiet: is_given(&matches, "quiet"),
            },
            stdin_name: value_of(&matches, "stdin-name"),
            fixing: fixing_of(&matches),
            writing: writing_of(&matches),
            schemas: SchemaOptions {
                schema: value_of(&matches, "schema"),
                catalog: value_of(&matches, "catalog"),
                maps: Vec::from_slice(alloc, matches.get_strs("schema-map").unwrap_or(&[]))?,
                has_formats: !is_given(&matches, "no-formats"),
            },
            config: value_of(&matches, "config"),
            has_no_config: is_given(&matches, "no-config"),
            forces_exclude: is_given(&matches, "force-exclude"),
            denies_warnings: is_given(&matches, "deny-warnings"),
            is_version_given: !value_of(&matches, "toml").is_empty(),
        }),
        Err(mistake) => Err(command.error(kind_of(mistake), message_of(mistake))?),
    }
}
