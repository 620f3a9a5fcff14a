//! Reports violations and deprecated values.
ghost use Rattle.std.specs.Prelude.{◌≡◌, ◌<◌, ◌+◌, ◌==◌, ℕ, All, IfOk, OnOk, Some, length};
ghost use Rattle.toml_span_tree.specs.Value.{view};
ghost use Rattle.toml_span_schema.specs.Reports.{IsError};
ghost use Rattle.toml_span_schema.specs.Valid.{valid};

use crate::canonical::canonical;
use crate::error::CheckError;
use crate::keyword::{Keyword, Node};
use crate::listed::Part;
use crate::messages::{Listed, Text, push_code};
use crate::schema::Schema;
use crate::valid::MOST_STEPS;
use crate::walk::{Cause, MOST, Violation, is_plain};
use std::alloc::{AllocError, Global};
use std::collections::BTreeMap;
use toml_span_lex::span::Span;
use toml_span_report::{Report, nearest};
use toml_span_tree::{Table, Value};

impl Schema {
    /// Checks a value. Returns a report for each violation of the schema, in the order of the text, and one more if
    /// there are more than 100. The list is empty if and only if the value is valid.
    ///
    /// Each report marks a value that a keyword does not allow, or a key that is not allowed. The report's notes name
    /// the keyword's place in the schema and the schema's title, if the schema has one. Fails with `TooDeep` if the
    /// value nests too deep (see `CheckError`), with `TooLong` if the check takes too many steps, and with
    /// `OutOfMemory` if an allocation fails.
    #[tactic(auto, using(crate::proofs::Monotone::valid_more))]
    pub fn check(&self, alloc: Global, value: &Value<'_>) -> Result<Vec<Report>, CheckError>
        ensures verdict { IfOk result (λ reports.
            valid self.now self.now.depth (view value.now) ≡ Some (length reports.items == 0)) }
        ensures deeper { IfOk result (λ reports. (more : ℕ) →
            valid self.now (self.now.depth + more) (view value.now) ≡ Some (length reports.items == 0)) }
        ensures errors { IfOk result (λ reports. All IsError reports.items) }
    {
        let mut left = MOST_STEPS;
        if self.is_valid(&mut left, self.depth, 0, value)? {
            return Ok(Vec::new(alloc));
        }
        self.reports(value)
    }

    /// Returns the reports on a value that is not valid, at least one. Fails like `check`.
    fn reports(&self, value: &Value<'_>) -> Result<Vec<Report>, CheckError>
        ensures some { IfOk result (λ reports. 0 < length reports.items) }
        ensures errors { IfOk result (λ reports. All IsError reports.items) }
    {
        let mut reports = self.violations(value)?;
        if !reports.is_empty() {
            return Ok(reports);
        }
        let message = "the value does not match the schema";
        let report = Report::error(self.alloc(), "schema", message)?;
        reports.push(report.primary(value.span, "")?)?;
        Ok(reports)
    }

    /// Returns a report for each violation that no other one implies, each once. `others` are all violations. Fails
    /// like `check`.
    fn distinct<'s, 'v, 'de>(
        &'s self,
        found: &[Violation<'s, 'v, 'de>],
        others: &[Violation<'s, 'v, 'de>],
    ) -> Result<Vec<Report>, CheckError>
        ensures { IfOk result (λ reports. All IsError reports.items) }
    {
        let mut reports: Vec<Report> = Vec::new(self.alloc());
        for violation in found {
            if self.is_implied(violation, others)? {
                continue;
            }
            let report = self.report(violation)?;
            push_new(&mut reports, report)?;
        }
        Ok(reports)
    }

    /// Returns a report for each violation, in the order of the text. Fails like `check`.
    fn violations(&self, value: &Value<'_>) -> Result<Vec<Report>, CheckError>
        ensures { IfOk result (λ reports. All IsError reports.items) }
    {
        let mut left = MOST_STEPS;
        let found = self.walked(&mut left, 0, value)?.violations;
        let all = found.as_slice();
        let reports = self.distinct(all.get(..MOST - 1).unwrap_or(all), all)?;
        let mut reports = in_order(reports)?;
        if all.len() < MOST {
            return Ok(reports);
        }
        let last = Report::error(self.alloc(), "too-many-errors", "too many errors")?;
        push_error(&mut reports, last)?;
        Ok(reports)
    }

    /// Returns the warnings about deprecated values, in the order of the text: one each time a schema with
    /// `deprecated: true` applies to a value. Each warning marks the value's key, or the value if it has no key.
    ///
    /// An alternative of `anyOf` or `oneOf` applies only if the value is valid against it. Schemas in `not`, `if`,
    /// `contains` and `propertyNames` cause no warnings. Fails like `check`.
    pub fn warnings(&self, alloc: Global, value: &Value<'_>) -> Result<Vec<Report>, CheckError> {
        let mut reports = Vec::new(alloc);
        if !self.has_deprecated() {
            return Ok(reports);
        }
        let mut left = MOST_STEPS;
        for (node, part) in self.walked(&mut left, 0, value)?.deprecated {
            let report = Report::warning(alloc, "schema-deprecated", "this is deprecated")?;
            let span = match part {
                Part::Member(key, _) => key.span,
                Part::Element(_, value) | Part::Whole(value) => value.span,
            };
            let report = report.primary(span, "")?;
            reports.push(self.with_title(report, node)?)?;
        }
        Ok(in_order(reports)?)
    }

    /// Returns whether a compiled schema says `deprecated: true`.
    fn has_deprecated(&self) -> bool {
        for node in self.nodes.as_slice() {
            if node.deprecated {
                return true;
            }
        }
        false
    }

    /// Returns whether the key `name` is missing since it is misspelled: `others` has an unknown key in the same table
    /// that is near to it. `violation` is the one for the missing key.
    fn is_misspelled<'s>(
        &'s self,
        name: &str,
        violation: &Violation<'s, '_, '_>,
        others: &[Violation<'s, '_, '_>],
    ) -> Result<bool, AllocError> {
        let Some(table) = violation.part.value().as_table() else {
            return Ok(false);
        };
        for other in others {
            if let (Cause::Never, Part::Member(key, _)) = (other.cause, other.part) {
                let is_here = other.level == violation.level && has_key_at(table, key.span);
                if is_here && self.meant(other)? == Some(name) {
                    return Ok(true);
                }
            }
        }
        Ok(false)
    }

    /// Returns whether a violation needs no report, since another one in `others` has one that says more. A key that
    /// the schema of `unevaluatedProperties` knows is only unevaluated since other keywords do not allow its table.
    fn is_implied<'s>(
        &'s self,
        violation: &Violation<'s, '_, '_>,
        others: &[Violation<'s, '_, '_>],
    ) -> Result<bool, AllocError> {
        match (
            violation.cause,
            &violation.at.placed.keyword,
            violation.part,
        ) {
            (Cause::Missing(name), _, _) => self.is_misspelled(name, violation, others),
            (_, Keyword::UnevaluatedProperties(node, _), Part::Member(key, _)) => {
                for other in others {
                    if !matches!(
                        &other.at.placed.keyword,
                        Keyword::UnevaluatedProperties(_, _)
                    ) {
                        return Ok(self.known_keys(&[*node])?.contains(&key.name.as_ref()));
                    }
                }
                Ok(false)
            }
            _ => Ok(false),
        }
    }

    /// Returns the report on a violation.
    fn report<'s, 'v, 'de>(
        &'s self,
        violation: &Violation<'s, 'v, 'de>,
    ) -> Result<Report, CheckError>
        ensures { IfOk result IsError }
    {
        let alloc = self.alloc();
        let listed = self.listed(violation)?;
        let span = self.span_of(violation)?;
        let report = self.headline(violation, &listed)?.primary(span, "")?;
        let report = with_equal(alloc, report, violation)?;
        let report = with_meant(alloc, report, self.meant(violation)?, span)?;
        let report = self.with_help(report, violation, &listed)?;
        Ok(self.with_place(report, violation)?)
    }

    /// Returns a report with the code and the message of a violation.
    fn headline(
        &self,
        violation: &Violation<'_, '_, '_>,
        listed: &Listed<'_>,
    ) -> Result<Report, CheckError>
        ensures { IfOk result IsError }
    {
        let alloc = self.alloc();
        let mut code = Text::new(alloc);
        push_code(&mut code, violation);
        let mut message = Text::new(alloc);
        self.push_message(&mut message, violation, listed)?;
        let code = code.finish()?;
        let message = message.finish()?;
        Ok(Report::error(alloc, code.as_str(), message.as_str())?)
    }

    /// Returns the span that the report on a violation marks: a key that is not allowed, the key of a table that lacks
    /// a key, or otherwise the value.
    fn span_of<'s>(&'s self, violation: &Violation<'s, '_, '_>) -> Result<Span, CheckError> {
        let part = violation.part;
        let name = match (violation.cause, &violation.at.placed.keyword, part) {
            (Cause::Missing(_) | Cause::Never | Cause::Name, _, Part::Member(key, _)) => {
                return Ok(key.span);
            }
            (Cause::Requires(name, _), _, _) => Some(name),
            (_, Keyword::Not(node), _) => match self.excluded(*node) {
                [name, ..] => Some(name.as_str()),
                [] => None,
            },
            (_, Keyword::UniqueItems, _) => {
                if let Some(pair) = equal_elements(self.alloc(), part.value())? {
                    return Ok(pair.1);
                }
                None
            }
            _ => None,
        };
        if let (Some(name), Some(table)) = (name, part.value().as_table()) {
            for (key, _value) in table.iter() {
                if key.name.as_ref() == name {
                    return Ok(key.span);
                }
            }
        }
        Ok(part.mark())
    }

    /// Returns the keys in `required` if this is all that the schema at index `node` says, otherwise an empty slice.
    pub(crate) fn excluded(&self, node: usize) -> &[String] {
        match self.keywords(node) {
            [placed] => match &placed.keyword {
                Keyword::Required(names) => names.as_slice(),
                _ => &[],
            },
            _ => &[],
        }
    }

    /// Returns the name that a misspelled key or string probably means: the same in other letter case, or the nearest
    /// of the keys that the schema knows or the strings that it lists.
    pub(crate) fn meant<'s>(
        &'s self,
        violation: &Violation<'s, '_, '_>,
    ) -> Result<Option<&'s str>, AllocError> {
        let word = match (violation.cause, violation.part) {
            (Cause::Never, Part::Member(key, _)) => key.name.as_ref(),
            (Cause::Never, _) => return Ok(None),
            (_, part) => match part.value().as_str() {
                Some(text) => text,
                None => return Ok(None),
            },
        };
        let known = match (&violation.at.placed.keyword, violation.cause) {
            (Keyword::Properties(named, _, _), Cause::Never) if named.get(word).is_none() => {
                self.known_keys(&[violation.at.node])?
            }
            (Keyword::UnevaluatedProperties(others, _), Cause::Never) => {
                self.known_keys(&[*others])?
            }
            (Keyword::Enum(_, _), _) | (_, Cause::Unlisted(_)) => { self.words_listed(violation)? }
            _ => return Ok(None),
        };
        same_or_nearest(self.alloc(), word, known.as_slice())
    }

    /// Returns the strings without escapes among the constants that a violation's keyword or alternatives list.
    fn words_listed<'s>(
        &'s self,
        violation: &Violation<'s, '_, '_>,
    ) -> Result<Vec<&'s str>, AllocError> {
        let mut words = Vec::new(self.alloc());
        for constant in self.listed(violation)?.constants {
            if let Some(word) = word_in(constant) {
                words.push(word)?;
            }
        }
        Ok(words)
    }

    /// Adds a line of help, if there is any.
    fn with_help(
        &self,
        report: Report,
        violation: &Violation<'_, '_, '_>,
        listed: &Listed<'_>,
    ) -> Result<Report, AllocError>
        ensures { IfOk result (λ made. made.severity ≡ report.severity) }
    {
        let mut text = Text::new(self.alloc());
        self.push_help(&mut text, violation, listed)?;
        let help = text.finish()?;
        if help.is_empty() {
            Ok(report)
        } else {
            report.help(help.as_str())
        }
    }

    /// Adds the notes that name the place of a violation's keyword and the title of its schema, if it has one.
    fn with_place(
        &self,
        report: Report,
        violation: &Violation<'_, '_, '_>,
    ) -> Result<Report, AllocError>
        ensures { IfOk result (λ made. made.severity ≡ report.severity) }
    {
        let place = match self.nodes.get(violation.at.node) {
            Some(node) => node.place.as_str(),
            None => "",
        };
        let name = violation.at.placed.name;
        let whose = if place.contains('#') {
            ""
        } else {
            " in the schema"
        };
        let note = format!(in self.alloc(); "required by `{place}/{name}`{whose}")?;
        self.with_title(report.note(note.as_str())?, violation.at.node)
    }

    /// Adds a note with the title of the schema at index `node`, if it has a title.
    fn with_title(&self, report: Report, node: usize) -> Result<Report, AllocError>
        ensures { IfOk result (λ made. made.severity ≡ report.severity) }
    {
        if let Some(
            Node {
                title: Some(title),
                ..
            },
        ) = self.nodes.get(node)
        {
            return report.note(title.as_str());
        }
        Ok(report)
    }
}

/// Appends a report.
#[tactic(auto, using(crate::proofs::Violated::errors_push))]
fn push_error(reports: &mut Vec<Report>, report: Report) -> Result<(), AllocError>
    ensures { All IsError reports.old.items → IsError report → OnOk result (All IsError reports.new.items) }
{
    reports.push(report)?;
    Ok(())
}

/// Appends a report, unless there is one that says the same of the same place.
fn push_new(reports: &mut Vec<Report>, report: Report) -> Result<(), AllocError>
    ensures { All IsError reports.old.items → IsError report → OnOk result (All IsError reports.new.items) }
{
    if is_reported(reports.as_slice(), &report) {
        return Ok(());
    }
    push_error(reports, report)
}

/// Returns the reports in the order of the places that they mark.
#[tactic(auto, using(crate::proofs::Violated::errors_sorted))]
fn in_order(mut reports: Vec<Report>) -> Result<Vec<Report>, AllocError>
    ensures { All IsError reports.items → IfOk result (λ made. All IsError made.items) }
{
    reports.sort_by_key(|report| start_of(report))?;
    Ok(reports)
}

/// Adds a label for the first of two equal elements, if the violation is of `uniqueItems`. Fails like `canonical`.
fn with_equal(
    alloc: Global,
    report: Report,
    violation: &Violation<'_, '_, '_>,
) -> Result<Report, CheckError>
    ensures { IfOk result (λ made. made.severity ≡ report.severity) }
{
    if let Keyword::UniqueItems = &violation.at.placed.keyword {
        if let Some(pair) = equal_elements(alloc, violation.part.value())? {
            return Ok(report.secondary(pair.0, "equal to this element")?);
        }
    }
    Ok(report)
}

/// Adds the question whether `meant`, if there is such a name, was meant, and a replacement of `span` if the name needs
/// no quotes.
fn with_meant(
    alloc: Global,
    report: Report,
    meant: Option<&str>,
    span: Span,
) -> Result<Report, AllocError>
    ensures { IfOk result (λ made. made.severity ≡ report.severity) }
{
    let Some(meant) = meant else {
        return Ok(report);
    };
    let help = format!(in alloc; "did you mean `{meant}`?")?;
    let report = report.help(help.as_str())?;
    if is_plain(meant) {
        report.suggest(span, meant)
    } else {
        Ok(report)
    }
}

/// Returns the byte offset at which the first label of a report begins, or 0 if the report has no label.
fn start_of(report: &Report) -> usize {
    match report.labels.first() {
        Some(label) => label.span.start,
        None => 0,
    }
}

/// Returns whether one of `reports` says the same of the same place as `report`.
fn is_reported(reports: &[Report], report: &Report) -> bool {
    for other in reports {
        let is_here = start_of(other) == start_of(report);
        if is_here && other.message.as_str() == report.message.as_str() {
            return true;
        }
    }
    false
}

/// Returns whether a table has a key at `span`.
fn has_key_at(table: &Table<'_>, span: Span) -> bool {
    for (key, _value) in table.iter() {
        if key.span == span {
            return true;
        }
    }
    false
}

/// Returns the spans of the first element that is equal to an earlier one, after the span of the earlier one, or `None`
/// if all elements differ. Fails like `canonical`.
fn equal_elements(alloc: Global, value: &Value<'_>) -> Result<Option<(Span, Span)>, CheckError> {
    let mut seen: BTreeMap<String, Span> = BTreeMap::new(alloc);
    if let Some(array) = value.as_array() {
        for element in array.as_slice() {
            let text = canonical(alloc, element)?;
            if let Some(earlier) = seen.get(text.as_str()) {
                return Ok(Some((*earlier, element.span)));
            }
            let _none = seen.insert(text, element.span)?;
        }
    }
    Ok(None)
}

/// Returns the word in `known` that is the same as `word` in other letter case, or else the nearest, if one is near
/// enough.
fn same_or_nearest<'s>(
    alloc: Global,
    word: &str,
    known: &[&'s str],
) -> Result<Option<&'s str>, AllocError> {
    if (&*known).contains(&word) {
        return Ok(None);
    }
    for name in known {
        if name.eq_ignore_ascii_case(word) {
            return Ok(Some(*name));
        }
    }
    nearest(alloc, word, known)
}

/// Returns the text of a constant that messages show as a string without escapes, or `None` for any other constant.
fn word_in(shown: &str) -> Option<&str> {
    let word = shown.strip_prefix("`\"")?.strip_suffix("\"`")?;
    if word.contains('\\') {
        None
    } else {
        Some(word)
    }
}
