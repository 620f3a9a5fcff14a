//! The help, labels and replacements of a finding.
ghost use Rattle.std.specs.Prelude.{◌≡◌, ◌++◌, All, IfOk, OnOk, map, string_bytes};
ghost use Rattle.std.specs.Bool.{Decides};
ghost use Rattle.toml_span_tree.specs.Diagnostic.{label_content};
ghost use Rattle.toml_span_mistakes.specs.Errors as spec;
ghost use Rattle.toml_span_mistakes.specs.Errors.{AreRepairs};
ghost use Rattle.toml_span_mistakes.specs.Findings as findings;
ghost use Rattle.toml_span_report.specs.Places.{LiesIn};
ghost use Rattle.toml_span_report.specs.Report.{repair_of};

use crate::finding::{Code, Finding};
use std::alloc::{AllocError, Global};
use toml_span_lex::span::Span;
use toml_span_report::visible::push_visible;
use toml_span_report::{Replacement, clipped_span};
use toml_span_tree::Label;

/// Returns one string: the pieces of `code`, and then its number, if there is one.
fn code_text(alloc: Global, code: Code<'_>) -> Result<String, AllocError>
    ensures { IfOk result (λ text. string_bytes text ≡ findings.code_text code.entry) }
{
    let mut text = String::from_str(alloc, code.first)?;
    text.push_str(code.second)?;
    text.push_str(code.third)?;
    text.push_str(code.fourth)?;
    text.push_str(code.fifth)?;
    text.push_str(code.sixth)?;
    if let Some(number) = code.number {
        write!(text, "{number}")?;
    }
    Ok(text)
}

/// Appends `joint` to `out`, and then `code` in backticks, escaped by `push_visible`. Appends nothing if `joint` or
/// `code` is empty. If an allocation fails, `out` may have a part of the text.
fn push_code(out: &mut String, joint: &str, code: &str) -> Result<(), AllocError>
    ensures { OnOk result (string_bytes out.new ≡ string_bytes out.old ++ findings.joined_code joint.now code.now) }
{
    if joint.is_empty() || code.is_empty() {
        return Ok(());
    }
    out.push_str(joint)?;
    out.push_str("`")?;
    push_visible(out, code)?;
    out.push_str("`")
}

/// Returns a list with the line of help of a finding, or an empty list if the finding has no help.
pub(crate) fn finding_help(alloc: Global, finding: Finding<'_>) -> Result<Vec<String>, AllocError>
    ensures { IfOk result (λ help. map string_bytes help.items ≡ findings.help finding.entry) }
{
    let words = finding.words;
    let mut help = Vec::new(alloc);
    if words.help.is_empty() {
        return Ok(help);
    }
    let mut line = String::from_str(alloc, words.help)?;
    push_code(
        &mut line,
        words.joint,
        code_text(alloc, finding.code)?.as_str(),
    )?;
    push_code(&mut line, " or ", code_text(alloc, finding.other)?.as_str())?;
    help.push(line)?;
    Ok(help)
}

/// Returns a label at the part of `span` that is in the text.
fn label_at(text: &str, primary: bool, span: Span, message: String) -> Label<()>
    ensures lies { LiesIn text.now result.span }
    ensures primary { result.primary ≡ primary }
{
    Label {
        primary,
        file: (),
        span: clipped_span(text, span),
        message,
    }
}

/// Returns a list with a secondary label at `finding.also`. The list is empty if the message `words.also` is empty.
#[tactic(auto, using(crate::proofs::Marks::lie_none, crate::proofs::Marks::lie_push))]
fn also_labels(
    alloc: Global,
    text: &str,
    finding: Finding<'_>,
) -> Result<Vec<Label<()>>, AllocError>
    ensures { IfOk result (λ labels. All (spec.lies text.now) (map label_content labels.items)) }
{
    let mut labels = Vec::new(alloc);
    if !finding.words.also.is_empty() {
        let message = String::from_str(alloc, finding.words.also)?;
        labels.push(label_at(text, false, finding.also, message))?;
    }
    Ok(labels)
}

/// Returns the labels of a finding: a secondary label, if it has one, and then the primary label at `finding.mark`.
/// `text` is the source.
pub(crate) fn finding_labels(
    alloc: Global,
    text: &str,
    finding: Finding<'_>,
) -> Result<Vec<Label<()>>, AllocError>
    ensures { IfOk result (λ labels. spec.MarksMistake text.now (map label_content labels.items)) }
{
    let mut labels = also_labels(alloc, text, finding)?;
    let mut message = code_text(alloc, finding.label)?;
    if message.is_empty() {
        message.push_str(finding.words.label)?;
    }
    labels.push(label_at(text, true, finding.mark, message))?;
    Ok(labels)
}

/// Returns whether a span is in the text, and begins and ends between characters.
fn lies_in(text: &str, span: Span) -> bool
    ensures { Decides result (LiesIn text.now span) }
{
    span.start <= span.end && text.is_char_boundary(span.start) && text.is_char_boundary(span.end)
}

/// Returns a list with the replacement of a finding. The list is empty if the finding has no replacement, or none that
/// replaces whole characters of the source `text`.
pub(crate) fn finding_repairs(
    alloc: Global,
    text: &str,
    finding: Finding<'_>,
) -> Result<Vec<Replacement>, AllocError>
    ensures lie { IfOk result (λ made. AreRepairs text.now (map repair_of made.items)) }
    ensures exact { IfOk result (λ made. findings.Repairs text.now finding.entry (map repair_of made.items)) }
{
    let mut repairs = Vec::new(alloc);
    let Some(span) = finding.edit else {
        return Ok(repairs);
    };
    if lies_in(text, span) {
        repairs.push(Replacement {
            span,
            text: code_text(alloc, finding.code)?,
            is_safe: finding.words.is_safe,
        })?;
    }
    Ok(repairs)
}
