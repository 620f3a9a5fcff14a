//! Formats a document, or some of its lines.
ghost use Rattle.std.specs.Prelude.{IfOk, IfSome};
ghost use Rattle.toml_span_editor.specs.Formatting.{FormatsBy, SortsBy};

use crate::aligned::{is_within, line_edits, touched_lines};
use crate::edits::{Edit, Rewritten, differences, edited};
use std::alloc::{AllocError, Global};
use toml_span::Stop;
use toml_span_format::{Options, format, format_sorted, same_document};
use toml_span_lex::span::Span;

/// Returns the edits that format a document, with the new text. Returns `None` if the text is not valid TOML or can't
/// be formatted. Fails if an allocation fails.
pub fn formatting(
    alloc: Global,
    text: &str,
    options: Options,
) -> Result<Option<Rewritten>, AllocError>
    ensures { IfOk result (λ made. IfSome made (FormatsBy text.now)) }
{
    match format(alloc, text, options) {
        Ok(new) => {
            let edits = differences(alloc, text, new.as_str())?;
            Ok(Some(Rewritten { edits, text: new }))
        }
        Err(Stop::Memory(error)) => Err(error),
        Err(Stop::Fault(_)) => Ok(None),
    }
}

/// Returns the edits that format a document and sort its keys, with the new text. Returns `None` if the text is not
/// valid TOML or can't be formatted. Fails if an allocation fails.
pub fn sorted_formatting(
    alloc: Global,
    text: &str,
    options: Options,
) -> Result<Option<Rewritten>, AllocError>
    ensures { IfOk result (λ made. IfSome made (SortsBy text.now)) }
{
    match format_sorted(alloc, text, options) {
        Ok(new) => {
            let edits = differences(alloc, text, new.as_str())?;
            Ok(Some(Rewritten { edits, text: new }))
        }
        Err(Stop::Memory(error)) => Err(error),
        Err(Stop::Fault(_)) => Ok(None),
    }
}

/// Makes the edits that touch the lines of a span. Returns them with the new text, or `None` if the new text would not
/// have the same sections, tokens and comments.
#[tactic(auto, unfolding(crate::specs::Edits::ChangesInto))]
fn made_within(
    alloc: Global,
    text: &str,
    edits: Vec<Edit>,
    span: Span,
) -> Result<Option<Rewritten>, AllocError>
    ensures { IfOk result (λ made. IfSome made (FormatsBy text.now)) }
{
    let lines = touched_lines(text, span);
    let mut kept = Vec::new(alloc);
    for edit in edits {
        if is_within(lines, edit.span) {
            kept.push(edit)?;
        }
    }
    let Some(new) = edited(alloc, text, kept.as_slice())? else {
        return Ok(None);
    };
    if !same_document(alloc, text, new.as_str())? {
        return Ok(None);
    }
    Ok(Some(Rewritten {
        edits: kept,
        text: new,
    }))
}

/// Returns edits that format the lines that `span` touches, with the new text. The new text has the same sections,
/// tokens and comments. Lines that formatting joins or splits are changed together. Returns `None` if the text can't be
/// read, or if these lines can't be formatted without others. Fails if an allocation fails.
pub fn formatting_of(
    alloc: Global,
    text: &str,
    options: Options,
    span: Span,
) -> Result<Option<Rewritten>, AllocError>
    ensures { IfOk result (λ made. IfSome made (FormatsBy text.now)) }
{
    let Some(all) = formatting(alloc, text, options)? else {
        return Ok(None);
    };
    let small = line_edits(alloc, text, all.text.as_str())?;
    match made_within(alloc, text, small, span)? {
        Some(made) => Ok(Some(made)),
        None => made_within(alloc, text, all.edits, span),
    }
}
