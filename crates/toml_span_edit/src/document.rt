//! A document with its sections, and functions that find values, keys and headers in it.
ghost use Rattle.std.specs.Prelude.{IfOk, Ok, map};
ghost use Rattle.toml_span_read.specs.Data.{depth_limit, parsed_section};
ghost use Rattle.toml_span_read.specs.Read.{document};

use crate::lines::{comments_above, line_start, part, span_of};
use crate::mentions::{PathMention, mentions_of, part_at};
use crate::reason::{Edited, Reason};
use std::alloc::{AllocError, Global};
use toml_span::value::{Key, Value};
use toml_span::{Span, Stop};
use toml_span_places::with_quotes;
use toml_span_read::{Assignment, Section, Val, ValKind, read_sections};

/// A document: its text and its sections.
#[derive(Clone, Copy)]
pub(crate) struct Document<'s, 'de> {
    pub alloc: Global,
    pub text: &'s str,
    pub sections: &'s [Section<'de>],
}

/// A document before an edit: its text and its tree.
#[derive(Clone, Copy)]
pub(crate) struct Old<'o, 'de> {
    pub alloc: Global,
    pub text: &'o str,
    pub tree: &'o Value<'de>,
}

/// Returns the sections of `text`. Fails with `WouldDiffer` if `text` can't be split into sections.
pub(crate) fn sections_of<'t>(alloc: Global, text: &'t str) -> Edited<Vec<Section<'t>>>
    ensures { IfOk result (λ sections. document text.now depth_limit (Ok (map parsed_section sections.items))) }
{
    match read_sections(alloc, text, 128) {
        Ok(sections) => Ok(sections),
        Err(stop) => {
            drop(stop.fault()?);
            Err(Stop::Fault(Reason::WouldDiffer))
        }
    }
}

/// Returns the value that `mentions` name if it is written as a literal, such as `1` or `[1, 2]`. Returns `None` if
/// `mentions` is empty, or if headers or dotted keys define the value.
pub(crate) fn written<'s, 'de>(mentions: &[PathMention<'s, 'de>]) -> Option<&'s Val<'de>> {
    for mention in mentions {
        match *mention {
            PathMention::Assigned(assignment, _) => return Some(&assignment.value),
            PathMention::Element(list, index) => {
                return match &list.kind {
                    ValKind::Array(items) => items.get(index),
                    _ => None,
                };
            }
            _ => {}
        }
    }
    None
}

impl<'s, 'de> Document<'s, 'de> {
    /// Returns the places that name the value at `path`, in the order of the text. Returns an empty list if nothing
    /// names the value.
    pub(crate) fn mentions(&self, path: &[&str]) -> Result<Vec<PathMention<'s, 'de>>, AllocError> {
        mentions_of(self.alloc, self.sections, path)
    }

    /// Returns whether something names a value at `path`.
    pub(crate) fn has(&self, path: &[&str]) -> Result<bool, AllocError> {
        Ok(!self.mentions(path)?.is_empty())
    }

    /// Returns the span of a key, quotes included.
    fn whole(&self, key: &Key<'_>) -> Span {
        with_quotes(self.text, key.span)
    }

    /// Returns the span of a section's header from the first part to the part at `index`, quotes included. Returns the
    /// span of the header's line if the header has no such part.
    pub(crate) fn header_span(&self, section: &Section<'_>, index: usize) -> Span {
        let keys = section.header.as_slice();
        match (keys.first(), keys.get(index)) {
            (Some(first), Some(last)) => span_of(self.whole(first).start, self.whole(last).end),
            _ => section.header_span,
        }
    }

    /// Returns the text of the span that `header_span` returns: without the brackets of the header.
    pub(crate) fn header_text(&self, section: &Section<'_>, index: usize) -> &'s str {
        let span = self.header_span(section, index);
        part(self.text, span.start, span.end)
    }

    /// Returns the text of an assignment's key from the first part to the part at `index`, or the whole key if it has
    /// no such part.
    pub(crate) fn dotted_text(&self, assignment: &Assignment<'_>, index: usize) -> &'s str {
        let first = self.whole(part_at(&assignment.parts, 0));
        let last = self.whole(part_at(&assignment.parts, index));
        part(self.text, first.start, last.end)
    }

    /// Returns the start of the comment lines directly above the line of the byte offset `offset`, where a header or an
    /// assignment begins. Without such lines, returns the start of that line.
    pub(crate) fn above(&self, offset: usize) -> usize {
        let start = line_start(self.text, offset);
        // The end of the last header, or assignment on lines, that begins before `start`.
        let mut floor: usize = 0;
        for section in self.sections {
            if section.extent.start >= start {
                break;
            }
            floor = section.header_span.end;
            for assignment in &section.assignments {
                if assignment.extent.start < start {
                    floor = assignment.extent.end;
                }
            }
        }
        comments_above(self.text, floor, start)
    }
}
