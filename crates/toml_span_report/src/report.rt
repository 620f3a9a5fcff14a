//! Reports: errors, warnings and notes about a text, with labels, help and replacements.
ghost use Rattle.std.specs.Prelude.{◌≡◌, IfOk, true, false};
ghost use Rattle.toml_span_report.specs.Report as spec;
ghost use Rattle.toml_span_report.specs.Report.{report_content};
ghost use Rattle.toml_span_report.specs.declared.report.Severity.TheVariants.{Error, Warning};

use std::alloc::{AllocError, Global};
use toml_span_lex::span::Span;
use toml_span_tree::Label;

/// How severe a report is.
#[derive(Clone, Copy, Debug, PartialEq, Eq)]
pub enum Severity {
    /// The text can't be used.
    Error,
    /// The text can be used, but should be changed.
    Warning,
    /// A remark.
    Note,
}

/// A repair of the source: a span, and the text that replaces it.
#[derive(Debug, Drop)]
pub struct Replacement {
    /// The bytes to replace, as offsets in the source, end exclusive. Empty for an insertion.
    pub span: Span,
    /// The new text. Empty for a removal.
    pub text: String,
    /// Whether a program may apply the replacement without asking.
    pub is_safe: bool,
}

/// A message about a text, with labels at spans of the text. `toml_span_mistakes` makes reports of errors. A program can
/// also build its own reports step by step:
/// `Report::warning(alloc, "name-twice", "the name appears twice")?.primary(span, "here")?`.
///
/// Methods that add something consume the report, and drop it if an allocation fails.
#[derive(Debug, Drop)]
pub struct Report {
    pub severity: Severity,
    /// A short name for reports of this kind, such as `duplicate-key`. May be empty.
    pub code: String,
    /// What is wrong, in one line.
    pub message: String,
    /// The marked spans (byte offsets in the text, end exclusive), with their messages.
    pub labels: Vec<Label<()>>,
    /// Further remarks, each in one line.
    pub notes: Vec<String>,
    /// What to do, each element in one line.
    pub help: Vec<String>,
    /// Replacements that repair the text. Their spans must not overlap.
    pub replacements: Vec<Replacement>,
}

impl Report {
    /// Returns a report without labels, notes, help or replacements. Copies `code`, which may be empty, and `message`.
    /// Fails if an allocation fails.
    pub fn new(
        alloc: Global,
        severity: Severity,
        code: &str,
        message: &str,
    ) -> Result<Report, AllocError>
        ensures { IfOk result (λ made. report_content made ≡ spec.bare severity code.now message.now) }
    {
        Ok(Report {
            severity,
            code: String::from_str(alloc, code)?,
            message: String::from_str(alloc, message)?,
            labels: Vec::new(alloc),
            notes: Vec::new(alloc),
            help: Vec::new(alloc),
            replacements: Vec::new(alloc),
        })
    }

    /// Returns a report of the severity `Error`, without labels, notes, help or replacements. Copies `code`, which may
    /// be empty, and `message`. Fails if an allocation fails.
    pub fn error(alloc: Global, code: &str, message: &str) -> Result<Report, AllocError>
        ensures { IfOk result (λ made. report_content made ≡ spec.bare Error code.now message.now) }
    {
        Report::new(alloc, Severity::Error, code, message)
    }

    /// Returns a report of the severity `Warning`, without labels, notes, help or replacements. Copies `code`, which
    /// may be empty, and `message`. Fails if an allocation fails.
    pub fn warning(alloc: Global, code: &str, message: &str) -> Result<Report, AllocError>
        ensures { IfOk result (λ made. report_content made ≡ spec.bare Warning code.now message.now) }
    {
        Report::new(alloc, Severity::Warning, code, message)
    }

    /// Adds a primary label at `span`, which marks the problem. `text` is the message of the label, and may be empty.
    /// Fails if an allocation fails.
    pub fn primary(self, span: Span, text: &str) -> Result<Report, AllocError>
        ensures { IfOk result (λ made. report_content made
            ≡ spec.with_primary (report_content self) span text.now) }
    {
        self.label(true, span, text)
    }

    /// Adds a secondary label at `span`, which marks something that explains the problem. `text` is the message of the
    /// label, and may be empty. Fails if an allocation fails.
    pub fn secondary(self, span: Span, text: &str) -> Result<Report, AllocError>
        ensures { IfOk result (λ made. report_content made
            ≡ spec.with_secondary (report_content self) span text.now) }
    {
        self.label(false, span, text)
    }

    /// Adds a label at `span`, with a copy of `text` as its message.
    fn label(mut self, primary: bool, span: Span, text: &str) -> Result<Report, AllocError>
        ensures { IfOk result (λ made. report_content made
            ≡ spec.with_label (report_content self) primary span text.now) }
    {
        let alloc = *self.code.allocator();
        self.labels.push(Label {
            primary,
            file: (),
            span,
            message: String::from_str(alloc, text)?,
        })?;
        Ok(self)
    }

    /// Adds a note with a copy of `text`. Fails if an allocation fails.
    pub fn note(mut self, text: &str) -> Result<Report, AllocError>
        ensures { IfOk result (λ made. report_content made ≡ spec.with_note (report_content self) text.now) }
    {
        let alloc = *self.code.allocator();
        self.notes.push(String::from_str(alloc, text)?)?;
        Ok(self)
    }

    /// Adds a line of help with a copy of `text`. Fails if an allocation fails.
    pub fn help(mut self, text: &str) -> Result<Report, AllocError>
        ensures { IfOk result (λ made. report_content made ≡ spec.with_help (report_content self) text.now) }
    {
        let alloc = *self.code.allocator();
        self.help.push(String::from_str(alloc, text)?)?;
        Ok(self)
    }

    /// Adds a replacement that a program may apply without asking: `text` replaces the bytes of `span`. `render` does
    /// not show replacements, so describe the repair with `help` too. Fails if an allocation fails.
    pub fn replace(self, span: Span, text: &str) -> Result<Report, AllocError>
        ensures { IfOk result (λ made. report_content made
            ≡ spec.with_replacement (report_content self) span text.now true) }
    {
        self.repair(span, text, true)
    }

    /// Adds a replacement that a person should review first: `text` replaces the bytes of `span`. `render` does not
    /// show replacements, so describe the repair with `help` too. Fails if an allocation fails.
    pub fn suggest(self, span: Span, text: &str) -> Result<Report, AllocError>
        ensures { IfOk result (λ made. report_content made
            ≡ spec.with_replacement (report_content self) span text.now false) }
    {
        self.repair(span, text, false)
    }

    /// Adds a replacement: a copy of `text` replaces the bytes of `span`.
    fn repair(mut self, span: Span, text: &str, is_safe: bool) -> Result<Report, AllocError>
        ensures { IfOk result (λ made. report_content made
            ≡ spec.with_replacement (report_content self) span text.now is_safe) }
    {
        let alloc = *self.code.allocator();
        self.replacements.push(Replacement {
            span,
            text: String::from_str(alloc, text)?,
            is_safe,
        })?;
        Ok(self)
    }
}
