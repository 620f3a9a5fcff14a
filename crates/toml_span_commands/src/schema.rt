//! The command `schema`, which checks schemas and prints commands that fetch them.
ghost use Rattle.std.specs.Prelude.{◌≡◌, ◌++◌, OnOk, string_bytes};
ghost use Rattle.toml_span_commands.specs.Shell as spec;

use crate::answers::{Answer, helped, misuse, misused, printed, warned};
use crate::commands::Command;
use crate::options::WRONG_MAP;
use crate::say::unexpected;
use crate::schemas::{SchemaOptions, copy_of};
use crate::words::{Argument, arguments_in, has_help};
use std::alloc::{AllocError, Global};
use std::fmt::Write;
use toml_span::Stop;
use toml_span_check::input::Host;
use toml_span_lookup::disk::Disk;
use toml_span_lookup::lookup::Lookup;
use toml_span_lookup::options::{Options, Place};
use toml_span_report::visible::push_visible;

/// The message that the word after `schema` is missing or wrong.
const NO_TASK: &str = "`schema` needs `check` or `get`";

/// The folder for schemas if none is named.
const FOLDER: &str = "schemas";

/// The options.
const OPTIONS: [&str; 3] = ["--help", "--schema-map", "--folder"];

/// The options that have a value.
const VALUED: [&str; 2] = ["--schema-map", "--folder"];

/// The arguments after `schema check` or `schema get`.
#[derive(Drop)]
struct Arguments<'w> {
    /// The values of `--schema-map`.
    maps: Vec<&'w str>,
    folder: &'w str,
    /// The paths or URLs of schemas.
    names: Vec<&'w str>,
}

/// Parses the arguments after `schema check` or `schema get`. Fails with a message if an option is unknown or has no
/// value, or if no schema is named.
fn asked_of<'w>(alloc: Global, words: &'w [String]) -> Result<Arguments<'w>, Stop<String>> {
    let mut made = Arguments {
        maps: Vec::new(alloc),
        folder: FOLDER,
        names: Vec::new(alloc),
    };
    let given = arguments_in(alloc, words, &VALUED)?;
    for argument in &given.list {
        match *argument {
            Argument::Other(word) if !word.starts_with('-') => made.names.push(word)?,
            Argument::Valued("--folder", word) => made.folder = word,
            Argument::Valued(_, word) if word.contains('=') => made.maps.push(word)?,
            Argument::Valued(_, _) => return Err(Stop::Fault(String::from_str(alloc, WRONG_MAP)?)),
            Argument::Flag(word) | Argument::Other(word) => {
                return Err(Stop::Fault(unexpected(alloc, word, false, &OPTIONS)?));
            }
        }
    }
    given.complete(alloc)?;
    if made.names.is_empty() {
        let message = "expected the path or the URL of a schema";
        return Err(Stop::Fault(String::from_str(alloc, message)?));
    }
    Ok(made)
}

/// Appends a word in quotes for a shell.
fn push_shell_word(out: &mut String, word: &str) -> Result<(), AllocError>
    ensures { OnOk result (string_bytes out.new ≡ string_bytes out.old ++ spec.shell_word word.now) }
{
    out.push('\'')?;
    push_shell_chars(out, word)?;
    out.push('\'')
}

/// Appends a character of a word in quotes for a shell: a quote ends the quotes, and begins them again after it.
fn push_shell_char(out: &mut String, c: char) -> Result<(), AllocError>
    ensures { OnOk result (string_bytes out.new ≡ string_bytes out.old ++ spec.shell_char c) }
{
    if c == '\'' {
        out.push_str("'\\''")
    } else {
        out.push(c)
    }
}

/// Appends the characters of a word in quotes for a shell.
fn push_shell_chars(out: &mut String, word: &str) -> Result<(), AllocError>
    ensures { OnOk result (string_bytes out.new ≡ string_bytes out.old ++ spec.shell_chars word.now) }
{
    for c in word.chars() {
        push_shell_char(out, c)?;
    }
    Ok(())
}

/// Checks the schemas that the arguments name. Returns status 1 if one of them can't be used.
fn check_schemas(
    alloc: Global,
    host: &mut Host,
    arguments: &Arguments<'_>,
) -> Result<Answer, AllocError> {
    let given = SchemaOptions {
        schema: "",
        catalog: "",
        maps: Vec::from_slice(alloc, arguments.maps.as_slice())?,
        has_formats: true,
    };
    let mut lookup = Lookup::new(alloc, given.options(alloc)?);
    let mut lines = String::new(alloc);
    for name in arguments.names.as_slice() {
        for report in lookup.check_schema(alloc, host, *name)?.as_slice() {
            lines.push_str("warning: ")?;
            push_visible(&mut lines, report.message.as_str())?;
            for help in report.help.as_slice() {
                lines.push_str("; ")?;
                push_visible(&mut lines, help.as_str())?;
            }
            lines.push('\n')?;
        }
    }
    let errors = lookup.take_complaint(alloc);
    let status = if errors.is_empty() { 0 } else { 1 };
    lines.push_str(errors.as_str())?;
    Ok(warned(alloc, lines, status))
}

/// Appends the lines of a shell script that write a catalog for schemas to a file.
fn push_catalog(out: &mut String, catalog: &str, names: &[&str]) -> Result<(), AllocError> {
    let folder = catalog.rsplit_once("/").map_or("", |parts| parts.0);
    out.push_str("mkdir -p ")?;
    push_shell_word(out, folder)?;
    out.push_str(" && cat >")?;
    push_shell_word(out, catalog)?;
    out.push_str(" <<'END'\n{\n  \"version\": 1,\n  \"schemas\": [\n")?;
    for (i, name) in names.iter().enumerate() {
        let end = name.rsplit_once("/").map_or(*name, |parts| parts.1);
        let stem = end.split_once(".").map_or(end, |parts| parts.0);
        let comma = if i.saturating_add(1) < names.len() {
            ","
        } else {
            ""
        };
        let name = *name;
        write!(out, "    {{\"fileMatch\": [\"{stem}.toml\"], \"url\": \"")?;
        if !name.contains("://") && !name.starts_with('/') && !folder.starts_with('/') {
            // (a path in the catalog is relative to the catalog)
            for step in folder.split('/') {
                out.push_str(if step.is_empty() || step == "." {
                    ""
                } else {
                    "../"
                })?;
            }
        }
        write!(out, "{name}\"}}{comma}\n")?;
    }
    out.push_str("  ]\n}\nEND\n")
}

/// Returns a shell script that fetches the schemas that the arguments name, and what they need, into a folder, as far
/// as that is not known to be there. The script ends with the command that prints the next such script, or, if nothing
/// is missing, writes a catalog.
fn fetch_schemas(
    alloc: Global,
    host: &mut Host,
    arguments: &Arguments<'_>,
) -> Result<Answer, AllocError> {
    let folder = arguments.folder;
    let mut options = Options::new(alloc, Place::Arguments);
    options.copies.push(copy_of(alloc, "https://", folder)?)?;
    options.copies.push(copy_of(alloc, "http://", folder)?)?;
    let mut lookup = Lookup::new(alloc, options);
    let mut out = String::new(alloc);
    let mut again = String::from_str(alloc, "toml-span schema get --folder ")?;
    push_shell_word(&mut again, folder)?;
    for name in arguments.names.as_slice() {
        for copy in lookup.absent_copies(alloc, host, *name)?.as_slice() {
            out.push_str("curl -fgsSL --create-dirs -o ")?;
            push_shell_word(&mut out, copy.path.as_str())?;
            out.push(' ')?;
            push_shell_word(&mut out, copy.address.as_str())?;
            out.push_str(" || exit\n")?;
        }
        again.push(' ')?;
        push_shell_word(&mut again, *name)?;
    }
    let errors = lookup.take_complaint(alloc);
    if !errors.is_empty() {
        return Ok(warned(alloc, errors, 1));
    }
    let catalog = format!(in alloc; "{folder}/catalog.json")?;
    if !out.is_empty() {
        out.push_str(again.as_str())?;
        out.push_str(" | sh\n")?;
    } else if host.stamp(catalog.as_str()).is_none() {
        push_catalog(&mut out, catalog.as_str(), arguments.names.as_slice())?;
    }
    Ok(printed(alloc, out))
}

/// Carries out `schema`. Returns the answer.
pub(crate) fn schema(
    alloc: Global,
    words: &[String],
    host: &mut Host,
) -> Result<Answer, AllocError> {
    let [task, rest @ ..] = words else {
        return misuse(alloc, Command::Schema, NO_TASK);
    };
    if has_help(words) {
        return helped(alloc, Command::Schema);
    }
    let is_check = task.as_str() == "check";
    if !is_check && task.as_str() != "get" {
        return misuse(alloc, Command::Schema, NO_TASK);
    }
    match asked_of(alloc, rest) {
        Ok(arguments) if is_check => check_schemas(alloc, host, &arguments),
        Ok(arguments) => fetch_schemas(alloc, host, &arguments),
        Err(stop) => misused(alloc, Command::Schema, stop),
    }
}
