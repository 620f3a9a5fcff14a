//! Makes edits in a text one by one.
ghost use Rattle.std.specs.Prelude.{◌≡◌, IfErr, IfOk, map, string_bytes};
ghost use Rattle.std.specs.Cow.{cow_str_bytes};
ghost use Rattle.toml_span_edit.specs.Drafts as spec;
ghost use Rattle.toml_span_edit.specs.Edited.{EditMade};
ghost use Rattle.toml_span_edit.specs.Reasons.{next};
ghost use Rattle.toml_span_edit.specs.Refused.{IsRefusedAs};

use crate::edits::{Change, Edit, EditError, refusal};
use crate::given::string_text;
use crate::paths::path_error_text;
use crate::reason::Reason;
use crate::step::step;
use std::alloc::{AllocError, Global};
use std::borrow::CowStr;
use toml_span::Stop;
use toml_span_places::{path_segments, segment_names};

/// A text with the edits made so far. Paths are written as text, such as `package.version`, `bin[0].name` or
/// `/bin/0/name` (see `path_segments`).
///
/// Each call makes its edit at once. For example,
/// `Draft::new(alloc, text)?.set_str("package.version", "1.3.0")?.edit("package.authors", Change::Remove)?.text` is the
/// new text.
#[derive(Drop)]
pub struct Draft {
    alloc: Global,
    pub text: String,
    /// The number of edits that were made.
    pub count: usize,
}

impl Draft {
    /// Returns a draft with a copy of `text`, without edits. Fails if an allocation fails. Does not read `text`.
    pub fn new(alloc: Global, text: &str) -> Result<Self, AllocError>
        ensures text { IfOk result (λ draft. string_bytes draft.text ≡ text.now) }
        ensures none { IfOk result (λ draft. draft.count ≡ 0) }
    {
        Ok(Draft {
            alloc,
            text: String::from_str(alloc, text)?,
            count: 0,
        })
    }

    /// Makes `change` at `path`, as `Edits` does.
    ///
    /// Fails with the number of edits made before, and the reason, if `path` can't be read or the change is refused.
    /// Fails with `Stop::Memory` if an allocation fails.
    pub fn edit(self, path: &str, change: Change<'_>) -> Result<Self, Stop<EditError>>
        ensures made { IfOk result (λ draft. spec.IsEditedAt path.now change.entry (string_bytes self.text)
            (string_bytes draft.text)) }
        ensures counted { IfOk result (λ draft. draft.count ≡ next self.count) }
        ensures refused { IfErr result (spec.IsRefusedAfter self.count path.now change.entry (string_bytes self.text)) }
    {
        let Draft { alloc, text, count } = self;
        let new = edited_at(alloc, text.as_str(), path, change, count)?;
        Ok(Draft {
            alloc,
            text: new,
            count: count.saturating_add(1),
        })
    }

    /// Replaces the value at `path` with the string `string`, which is written in quotes. Headers or dotted keys must
    /// not define the old value. Fails as `edit` does.
    pub fn set_str(self, path: &str, string: &str) -> Result<Self, Stop<EditError>>
        ensures made { IfOk result (λ draft. spec.IsSetToString path.now string.now (string_bytes self.text)
            (string_bytes draft.text)) }
        ensures counted { IfOk result (λ draft. draft.count ≡ next self.count) }
        ensures refused { IfErr result (spec.IsStringRefused self.count path.now string.now (string_bytes self.text)) }
    {
        let value = string_text(self.alloc, string)?;
        self.edit(path, Change::Set(value.as_str()))
    }
}

/// Returns the segments of `path`. Fails with `InvalidPath` and `index`, the position of the edit, if `path` can't be
/// read.
fn segments_of<'p>(
    alloc: Global,
    path: &'p str,
    index: usize,
) -> Result<Vec<CowStr<'p>>, Stop<EditError>>
    ensures segments { IfOk result (λ parts. spec.AreSegments path.now (map cow_str_bytes parts.items)) }
    ensures refused { IfErr result (spec.IsUnreadPath index path.now) }
{
    match path_segments(alloc, path) {
        Ok(parts) => Ok(parts),
        Err(Stop::Memory(error)) => Err(Stop::Memory(error)),
        Err(Stop::Fault(error)) => {
            let reason = Reason::InvalidPath(path_error_text(alloc, path, &error)?);
            Err(refusal(index, String::from_str(alloc, path), Stop::Fault(reason)))
        }
    }
}

/// Returns `text` with `change` made at the path of these segments. Fails with the reason, with `index`, the position
/// of the edit, and with `path` if the change is refused.
#[tactic(auto, using(crate::proofs::Refusals::refused_as))]
fn made_at<'e>(
    alloc: Global,
    text: &str,
    segments: &'e [&'e str],
    change: Change<'e>,
    index: usize,
    path: &str,
) -> Result<String, Stop<EditError>>
    ensures made { IfOk result (λ new. EditMade (record { path = segments.entry; change = change.entry }) text.now
        (string_bytes new)) }
    ensures refused { IfErr result (IsRefusedAs index path.now
        (record { path = segments.entry; change = change.entry }) text.now) }
{
    let edit = Edit {
        path: segments,
        change,
    };
    match step(alloc, text, edit) {
        Ok(new) => Ok(new),
        Err(stop) => Err(refusal(index, String::from_str(alloc, path), stop)),
    }
}

/// Returns `text` with `change` made at `path`. Fails with the reason and with `index`, the position of the edit, if
/// `path` can't be read or the change is refused.
fn edited_at(
    alloc: Global,
    text: &str,
    path: &str,
    change: Change<'_>,
    index: usize,
) -> Result<String, Stop<EditError>>
    ensures made { IfOk result (λ new. spec.IsEditedAt path.now change.entry text.now (string_bytes new)) }
    ensures refused { IfErr result (spec.IsRefusedAfter index path.now change.entry text.now) }
{
    let segments = segments_of(alloc, path, index)?;
    let names = segment_names(alloc, segments.as_slice())?;
    made_at(alloc, text, names.as_slice(), change, index, path)
}
