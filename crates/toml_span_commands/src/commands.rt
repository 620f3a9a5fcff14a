//! The commands, with their names, usages and help texts.
ghost use Rattle.std.specs.Prelude.{◌≡◌};
ghost use Rattle.toml_span_commands.specs.Commands as spec;

use crate::help::{
    ADD, APPEND, CHECK, CONFIG, EDIT, EXPLAIN, FMT, GET, HELP, INSERT, LSP, MOVE, REMOVE, RENAME,
    SCHEMA, SET, SHOW,
};

/// A command.
#[derive(Clone, Copy, PartialEq, Eq)]
pub enum Command {
    Check,
    Show,
    Get,
    Fmt,
    Set,
    Rename,
    Remove,
    Add,
    Append,
    Insert,
    Move,
    Edit,
    Lsp,
    Config,
    Explain,
    Schema,
    Help,
}

/// The names of the commands.
pub(crate) const NAMES: [&str; 17] = [
    "check", "show", "get", "fmt", "set", "rename", "remove", "add", "append", "insert", "move",
    "edit", "lsp", "config", "explain", "schema", "help",
];

/// Returns the command with this name, or `None` for any other name.
pub fn command_named(name: &str) -> Option<Command>
    ensures { result ≡ spec.command_named name.now }
{
    match name {
        "check" => Some(Command::Check),
        "show" => Some(Command::Show),
        "get" => Some(Command::Get),
        "fmt" => Some(Command::Fmt),
        "set" => Some(Command::Set),
        "rename" => Some(Command::Rename),
        "remove" => Some(Command::Remove),
        "add" => Some(Command::Add),
        "append" => Some(Command::Append),
        "insert" => Some(Command::Insert),
        "move" => Some(Command::Move),
        "edit" => Some(Command::Edit),
        "lsp" => Some(Command::Lsp),
        "config" => Some(Command::Config),
        "explain" => Some(Command::Explain),
        "schema" => Some(Command::Schema),
        "help" => Some(Command::Help),
        _ => None,
    }
}

/// Returns the usage of a command: its name and its arguments.
pub(crate) fn arguments_of(command: Command) -> &'static str {
    match command {
        Command::Check => "check [OPTION].. [FILE|DIRECTORY|-]..",
        Command::Show => "show FILE",
        Command::Get => "get [OPTION].. FILE.. PATH",
        Command::Fmt => "fmt [OPTION].. [FILE|DIRECTORY|-]..",
        Command::Set => "set [OPTION].. FILE PATH VALUE",
        Command::Rename => "rename [OPTION].. FILE PATH NAME",
        Command::Remove => "remove [OPTION].. FILE PATH",
        Command::Add => "add [OPTION].. FILE PATH KEY VALUE",
        Command::Append => "append [OPTION].. FILE PATH VALUE",
        Command::Insert => "insert [OPTION].. FILE PATH VALUE",
        Command::Move => "move [OPTION].. FILE PATH PATH",
        Command::Edit => "edit [OPTION].. FILE [-e EDIT]..",
        Command::Lsp => "lsp",
        Command::Config => "config [OPTION].. [FILE]",
        Command::Explain => "explain [CODE]",
        Command::Schema =>
            "schema check [OPTION].. FILE..\n       toml-span schema get [OPTION].. ADDRESS..",
        Command::Help => "help [COMMAND]",
    }
}

/// Returns whether a command edits a file.
pub(crate) fn edits(command: Command) -> bool {
    matches!(
        command,
        Command::Set
            | Command::Rename
            | Command::Remove
            | Command::Add
            | Command::Append
            | Command::Insert
            | Command::Move
            | Command::Edit
    )
}

/// Returns the help text of a command. For a command that edits, the text lacks its end, which is `EDITING`.
pub(crate) fn help_of(command: Command) -> &'static str {
    match command {
        Command::Check => CHECK,
        Command::Show => SHOW,
        Command::Get => GET,
        Command::Fmt => FMT,
        Command::Set => SET,
        Command::Rename => RENAME,
        Command::Remove => REMOVE,
        Command::Add => ADD,
        Command::Append => APPEND,
        Command::Insert => INSERT,
        Command::Move => MOVE,
        Command::Edit => EDIT,
        Command::Lsp => LSP,
        Command::Config => CONFIG,
        Command::Explain => EXPLAIN,
        Command::Schema => SCHEMA,
        Command::Help => HELP,
    }
}
