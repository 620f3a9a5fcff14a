//! The state of the server between messages.
ghost use Rattle.std.specs.Prelude.{◌≡◌, ◌+◌, ◌%◌, ◌^◌};
ghost use Rattle.toml_span_lsp.specs.Phases as spec;
ghost use Rattle.toml_span_lsp.specs.declared.state.Phase.TheVariants.{New};

use crate::capabilities::client_of;
use crate::folders::Folders;
use crate::projects::Projects;
use crate::settings::{AllSettings, Settings};
use json::Value;
use std::alloc::Global;
use std::collections::BTreeMap;
use toml_span_editor::diagnostics::Diagnostic;
use toml_span_editor::positions::Encoding;
use toml_span_lookup::options::Options;
use toml_span_report::Report;

/// The phases of a server, from start to end.
#[derive(Clone, Copy, PartialEq, Eq)]
pub(crate) enum Phase {
    /// Before `initialize`.
    New,
    /// After `initialize`.
    Running,
    /// After `shutdown`.
    Shut,
    /// After `exit`. `after_shutdown` says whether `shutdown` came before `exit`.
    Ended { after_shutdown: bool },
}

/// The capabilities of the client.
#[derive(Clone, Copy)]
pub(crate) struct Client {
    /// Whether the client requests diagnostics itself. The server then sends none on its own.
    pub asks_diagnostics: bool,
    /// Whether the client requests diagnostics again when the server asks it to.
    pub refreshes_diagnostics: bool,
    /// Whether the client answers `workspace/configuration`.
    pub has_settings: bool,
    /// Whether the client reports changes of the settings when the server asks it to.
    pub registers_settings: bool,
    /// Whether the client supports snippets: texts with placeholders for the user to fill in.
    pub has_snippets: bool,
    /// Whether the client supports code actions that are not commands.
    pub has_literals: bool,
    /// Whether the client shows hovers in Markdown.
    pub has_markdown_hovers: bool,
    /// Whether the client shows the documentation of completion items in Markdown.
    pub has_markdown_items: bool,
    /// Whether the client supports symbols inside symbols.
    pub has_nested_symbols: bool,
    /// Whether the client shows the locations that are related to a diagnostic.
    pub has_related: bool,
    /// Whether the client supports edits of a version of a document.
    pub has_versioned_edits: bool,
    /// Whether the client reports changes of files when the server asks it to.
    pub registers_files: bool,
}

/// The semantic tokens that were sent last for a document.
#[derive(Drop)]
pub(crate) struct SentTokens {
    /// The number of the result, by which the client refers to it.
    pub number: u64,
    /// Five numbers for each token.
    pub data: Vec<u32>,
    /// The revision of the document whose tokens they are.
    pub revision: u64,
}

/// What a check of a document found.
#[derive(Drop)]
pub(crate) struct Findings {
    /// The diagnostics, as they are shown.
    pub diagnostics: Vec<Diagnostic>,
    /// The reports on the text.
    pub reports: Vec<Report>,
}

/// A document that is open in the editor.
#[derive(Drop)]
pub(crate) struct Open {
    pub text: String,
    pub version: Option<i64>,
    /// The settings for the document.
    pub settings: Settings,
    /// The key in `Folders` of the schemas that the configuration file of the document names, or an empty text.
    pub schemas: String,
    /// A number that no other text of a document has had.
    pub revision: u64,
    /// The path of the file, as `name_of` returns it.
    pub name: String,
    /// The error lines that `show_complaint` showed last for the document, or an empty text.
    pub complaint: String,
    /// Lines that say why the schema that the document names can't be used, or an empty text.
    pub schema_fault: String,
    /// The address of the schema that the document named when its schema was last read, or an empty text.
    pub address: String,
    /// Whether the text has changed since the diagnostics were sent.
    pub is_pending: bool,
    /// What `check_once` found last, nothing at first.
    pub found: Findings,
    /// The number `State::schemas_read` at that check, or `None` if this text has not been checked.
    pub checked_with: Option<u64>,
    pub tokens: Option<SentTokens>,
}

/// What the server knows: the capabilities of the client, the settings, the schemas and the open documents.
#[derive(Drop)]
pub(crate) struct State {
    pub(crate) encoding: Encoding,
    pub(crate) client: Client,
    /// The paths of the folders that are open in the editor, each with a slash at the end.
    pub(crate) roots: Vec<String>,
    pub(crate) settings: Settings,
    /// The settings about schemas. Paths are relative to a folder.
    pub(crate) options: Options,
    /// The folders at `roots`, with the schemas that have been read.
    pub(crate) folders: Folders,
    /// The configuration files that have been read.
    pub(crate) projects: Projects,
    /// The settings of `initializationOptions`.
    pub(crate) initial: AllSettings,
    /// Whether the current settings are not those of `initializationOptions`, but came later.
    pub(crate) has_later_settings: bool,
    /// Lines to show to the user, each with a line end.
    pub(crate) notices: String,
    /// The number of texts and results so far, from which each gets a number of its own.
    pub(crate) count: u64,
    /// How often the schema of a document has been read.
    pub(crate) schemas_read: u64,
    /// Whether a document may have `is_pending` set.
    pub(crate) has_pending: bool,
    /// The documents by their URIs.
    pub(crate) documents: BTreeMap<String, Open>,
}

impl State {
    fn new(alloc: Global) -> Self {
        State {
            encoding: Encoding::Utf16,
            client: client_of(&Value::Null),
            roots: Vec::new(alloc),
            settings: Settings::USUAL,
            options: AllSettings::usual(alloc).options,
            folders: Folders::none(alloc, AllSettings::usual(alloc).options),
            projects: Projects::new(alloc),
            initial: AllSettings::usual(alloc),
            has_later_settings: false,
            notices: String::new(alloc),
            count: 0,
            schemas_read: 0,
            has_pending: false,
            documents: BTreeMap::new(alloc),
        }
    }

    /// Returns a number that this function has not returned before.
    pub(crate) fn next_number(&mut self) -> u64
        ensures number { result ≡ self.new.count }
        ensures state { self.new ≡ record self.old { count = (self.old.count + 1) % 2 ^ 64 } }
    {
        self.count = self.count.wrapping_add(1);
        self.count
    }
}

/// The state of the server between messages.
#[derive(Drop)]
pub struct Server {
    pub(crate) phase: Phase,
    pub(crate) state: State,
}

impl Server {
    /// Returns the state of a server that has just been started.
    pub fn new(alloc: Global) -> Self
        ensures { result.phase ≡ New }
    {
        Server {
            phase: Phase::New,
            state: State::new(alloc),
        }
    }

    /// Returns the exit status: 0 if `shutdown` came before `exit`, otherwise 1. Returns `None` before `exit`.
    pub fn exit_status(&self) -> Option<u8>
        ensures { result ≡ spec.exit_status self.now.phase }
    {
        match self.phase {
            Phase::Ended {
                after_shutdown: true,
            } => Some(0),
            Phase::Ended {
                after_shutdown: false,
            } => Some(1),
            _ => None,
        }
    }
}
