//! The arguments of the commands that edit a file.
ghost use Rattle.std.specs.Prelude.{◌≡◌, OnOk};
ghost use Rattle.toml_span_commands.specs.Arguments as spec;

use crate::commands::Command;
use crate::files::set_write_option;
use crate::say::unexpected;
use crate::words::{Argument, arguments_in};
use std::alloc::Global;
use toml_span::Stop;
use toml_span_files::Options;

/// The maximum value of `--wait`: a day, in seconds.
const MOST_WAIT: u64 = 86_400;

/// The options of the commands that edit a file.
const OPTIONS: [&str; 13] = [
    "--help",
    "--dry-run",
    "--diff",
    "--string",
    "--replace-table",
    "--force",
    "--change-owner",
    "--in-place",
    "--wait",
    "--config",
    "--no-config",
    "--stdin-name",
    "-e",
];

/// The options that have a value. Only `edit` has the last one.
const VALUED: [&str; 4] = ["--wait", "--config", "--stdin-name", "-e"];

/// What to do with the result of the edits.
#[derive(Clone, Copy, PartialEq, Eq)]
pub(crate) enum Show {
    /// Replace the file with the result. For standard input, print the result.
    No,
    /// Print the result.
    Text,
    /// Print the differences between the file and the result.
    Diff,
}

/// The parsed arguments of a command that edits a file.
#[derive(Drop)]
pub(crate) struct Arguments<'w> {
    /// The arguments that are neither options nor values of options.
    pub(crate) words: Vec<&'w str>,
    /// The values of `-e`.
    pub(crate) edits: Vec<&'w str>,
    pub(crate) options: Options,
    pub(crate) show: Show,
    /// Whether values are the content of strings rather than TOML.
    pub(crate) is_string: bool,
    /// Whether a value may replace a table or array that headers or dotted keys define.
    pub(crate) replaces_tables: bool,
    /// The path of the configuration file, or an empty text.
    pub(crate) config: &'w str,
    /// Whether to use no configuration file.
    pub(crate) has_no_config: bool,
    /// The name of standard input.
    pub(crate) stdin_name: &'w str,
    pub(crate) is_help: bool,
}

impl<'w> Arguments<'w> {
    /// Returns the name of the file in messages.
    pub(crate) fn shown<'s>(&'s self, file: &'s str) -> &'s str {
        if file == "-" { self.stdin_name } else { file }
    }
}

/// Parses a number of seconds. Fails with a message if `word` is not a number from 0 to `MOST_WAIT`.
pub(crate) fn seconds(alloc: Global, word: &str) -> Result<u64, Stop<String>> {
    match word.parse::<u64>() {
        Ok(number) if number <= MOST_WAIT => Ok(number),
        _ => Err(Stop::Fault(format!(in alloc;
            "the value of '--wait' must be a number of seconds from 0 to {MOST_WAIT}"
        )?)),
    }
}

impl<'w> Arguments<'w> {
    /// Parses `word` as the value of the option `name`, and stores it. Fails with a message if the value is wrong.
    fn set(&mut self, alloc: Global, name: &str, word: &'w str) -> Result<(), Stop<String>> {
        match name {
            "--wait" => self.options.wait = seconds(alloc, word)?,
            "--config" => self.config = word,
            "--stdin-name" => self.stdin_name = word,
            _ => self.edits.push(word)?,
        }
        Ok(())
    }

    /// Stores an option that has no value, other than one that says how files are written. Returns whether
    /// `word` is one.
    #[tactic(auto, unfolding(crate::specs::Arguments::with_own))]
    fn own_flag(&mut self, word: &str) -> bool
        ensures { (self.new, result) ≡ spec.with_own self.old word.now }
    {
        match word {
            "-h" | "--help" => self.is_help = true,
            "--string" => self.is_string = true,
            "--replace-table" => self.replaces_tables = true,
            "--no-config" => self.has_no_config = true,
            "--dry-run" => self.show = Show::Text,
            "--diff" => self.show = Show::Diff,
            _ => return false,
        }
        true
    }

    /// Stores an option that has no value. Returns whether `word` is one.
    #[tactic(auto, unfolding(crate::specs::Arguments::with_flag))]
    fn flag(&mut self, word: &str) -> bool
        ensures { (self.new, result) ≡ spec.with_flag self.old word.now }
    {
        set_write_option(&mut self.options, word) || self.own_flag(word)
    }

    /// Stores the argument `word`, which begins with a dash and is no option with a value. Fails with a message if it
    /// is an unknown option with two dashes. Any other unknown argument, such as `-1`, is not an option.
    fn option(&mut self, alloc: Global, word: &'w str) -> Result<(), Stop<String>>
        ensures { OnOk result (spec.TakesOption word.entry self.old self.new) }
    {
        if self.flag(word) {
            return Ok(());
        }
        if word.starts_with("--") {
            return Err(Stop::Fault(unexpected(alloc, word, true, &OPTIONS)?));
        }
        self.words.push(word)?;
        Ok(())
    }
}

/// Parses `words`, the arguments after the name of the command. Fails with a message if an argument is wrong, or if the
/// value of the last option is missing.
pub(crate) fn arguments_asked<'w>(
    alloc: Global,
    command: Command,
    words: &'w [String],
) -> Result<Arguments<'w>, Stop<String>> {
    let mut asked = Arguments {
        words: Vec::new(alloc),
        edits: Vec::new(alloc),
        options: Options::USUAL,
        show: Show::No,
        is_string: false,
        replaces_tables: false,
        config: "",
        has_no_config: false,
        stdin_name: "-",
        is_help: false,
    };
    let valued = if command == Command::Edit {
        VALUED.as_slice()
    } else {
        &VALUED[..3]
    };
    let given = arguments_in(alloc, words, valued)?;
    for argument in &given.list {
        match *argument {
            Argument::Flag(word) => asked.option(alloc, word)?,
            Argument::Valued(name, word) => asked.set(alloc, name, word)?,
            Argument::Other(word) => asked.words.push(word)?,
        }
    }
    given.complete(alloc)?;
    Ok(asked)
}
