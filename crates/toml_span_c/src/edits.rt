//! The call that edits a document.
ghost use Rattle.std.specs.Prelude.{◌≡◌, ◌≢◌, ◌⊎◌, ℕ, List, IfOk, IfSome, map, string_bytes};
ghost use Rattle.toml_span_c.specs.Calls.{Fills, Holds, IsDocument, IsEdited, IsFaultOf, IsInvalid, IsNewStatus};
ghost use Rattle.toml_span_edit.specs.Edited.{EditMade};
ghost use Rattle.toml_span_c.specs.Edits.{ChangeMade, ChangesMade, IsChange, names_of};

use crate::answer::{Answer, answer_to};
use crate::faults::{FaultRecord, fault_of};
use crate::texts::{put_front, put_whole};
use std::alloc::{AllocError, Global};
use toml_span::Stop;
use toml_span_edit::{Change, Edit, Edits, Reason};

/// A segment of a path: the name of a key, or the position of an element in decimal digits, counted from 0.
#[repr(C)]
#[derive(Clone, Copy)]
pub struct Segment<'a> {
    pub bytes: &'a [u8],
}

/// A change of a document, as C passes it.
#[repr(C)]
#[derive(Clone, Copy)]
pub struct ChangeRecord<'a> {
    /// The kind of change: 1 set, 2 replace, 3 set or add, 4 rename, 5 remove, 6 add, 7 add a table, 8 append, 9
    /// insert, 10 move. 0 means that the path could not be split into segments.
    pub change: u32,
    /// The path from the root.
    pub path: &'a [Segment<'a>],
    /// The new path if `change` is 10.
    pub target: &'a [Segment<'a>],
    /// The new value as TOML or, if `change` is 4, the new name. Must be valid UTF-8, even for a change without a
    /// value.
    pub value: &'a [u8],
}

/// Why a change was refused.
#[derive(Drop)]
enum Refusal {
    Reason(Reason),
    NotUtf8,
    NoPath,
    NoChange,
}

/// The index of the refused change, and why it was refused.
#[derive(Drop)]
struct Refused {
    index: usize,
    refusal: Refusal,
}

/// Returns the names in the segments, or `None` if a segment is not valid UTF-8.
fn names<'a>(alloc: Global, segments: &[Segment<'a>]) -> Result<Option<Vec<&'a str>>, AllocError>
    ensures { IfOk result (λ read. IfSome read (λ found. map (λ s. s.now) found.items ≡ names_of segments.now)) }
{
    let mut found = Vec::new(alloc);
    for segment in segments {
        let Ok(name) = str::from_utf8(segment.bytes) else {
            return Ok(None);
        };
        found.push(name)?;
    }
    Ok(Some(found))
}

/// Returns the change that a record describes, or `None` if no kind of change has the record's number. `value` and
/// `target` are those of the record as texts.
fn change_of<'e>(
    asked: ChangeRecord<'_>,
    value: &'e str,
    target: &'e [&'e str],
) -> Option<Change<'e>>
    ensures { value.now ≡ asked.entry.value.now → map (λ s. s.now) target.now ≡ names_of asked.entry.target.now
        → IfSome result (λ change. IsChange asked.entry change) }
{
    match asked.change {
        1 => Some(Change::Set(value)),
        2 => Some(Change::Replace(value)),
        3 => Some(Change::SetOrAdd(value)),
        4 => Some(Change::Rename(value)),
        5 => Some(Change::Remove),
        6 => Some(Change::Add(value)),
        7 => Some(Change::AddTable),
        8 => Some(Change::Append(value)),
        9 => Some(Change::Insert(value)),
        10 => Some(Change::MoveTo(target)),
        _ => None,
    }
}

/// Applies one edit to a text. Fails with the reason if the edit is refused.
fn edit_made(alloc: Global, text: &str, edit: Edit<'_>) -> Result<String, Stop<Refusal>>
    ensures { IfOk result (λ new. EditMade edit.entry text.now (string_bytes new)) }
{
    let mut edits = Edits::new(alloc, text);
    edits.push(edit)?;
    match edits.finish() {
        Ok(new) => Ok(new),
        Err(Stop::Memory(error)) => Err(Stop::Memory(error)),
        Err(Stop::Fault(error)) => Err(Stop::Fault(Refusal::Reason(error.reason))),
    }
}

/// Applies one change to a text. Fails with the reason if the change is refused.
fn change_made(alloc: Global, text: &str, asked: ChangeRecord<'_>) -> Result<String, Stop<Refusal>>
    ensures { IfOk result (λ new. ChangeMade asked.entry text.now (string_bytes new)) }
{
    let (Some(path), Some(target)) = (names(alloc, asked.path)?, names(alloc, asked.target)?) else {
        return Err(Stop::Fault(Refusal::NotUtf8));
    };
    let Ok(value) = str::from_utf8(asked.value) else {
        return Err(Stop::Fault(Refusal::NotUtf8));
    };
    let Some(change) = change_of(asked, value, target.as_slice()) else {
        let is_path = asked.change != 0;
        return Err(Stop::Fault(if is_path {
            Refusal::NoChange
        } else {
            Refusal::NoPath
        }));
    };
    let path = path.as_slice();
    edit_made(alloc, text, Edit { path, change })
}

/// Applies one change to a text. Fails with `index` and the reason if the change is refused.
fn indexed_change_made(
    alloc: Global,
    text: &str,
    asked: ChangeRecord<'_>,
    index: usize,
) -> Result<String, Stop<Refused>>
    ensures { IfOk result (λ new. ChangeMade asked.entry text.now (string_bytes new)) }
{
    match change_made(alloc, text, asked) {
        Ok(new) => Ok(new),
        Err(Stop::Memory(error)) => Err(Stop::Memory(error)),
        Err(Stop::Fault(refusal)) => Err(Stop::Fault(Refused { index, refusal })),
    }
}

/// Applies the changes to a text, one after the other. Stops at the first change that is refused, and fails with its
/// index and the reason.
fn changes_made(
    alloc: Global,
    text: &str,
    changes: &[ChangeRecord<'_>],
) -> Result<String, Stop<Refused>>
    ensures { IfOk result (λ new. ChangesMade changes.now text.now (string_bytes new)) }
{
    let copy = String::from_str(alloc, text)?;
    let mut new = copy;
    for (index, asked) in changes.iter().enumerate() {
        new = indexed_change_made(alloc, new.as_str(), *asked, index)?;
    }
    Ok(new)
}

/// Returns the message for a refused change.
fn message_of(alloc: Global, refusal: &Refusal) -> Result<String, AllocError> {
    match refusal {
        Refusal::Reason(reason) => {
            let mut message = String::from_str(alloc, reason.text())?;
            message.push_str(reason.detail())?;
            Ok(message)
        }
        Refusal::NotUtf8 => String::from_str(alloc, "the path or the value is not valid UTF-8"),
        Refusal::NoPath => String::from_str(
            alloc,
            "the path is neither a JSON Pointer nor a dotted key",
        ),
        Refusal::NoChange => String::from_str(alloc, "unknown kind of change"),
    }
}

/// Applies the changes to a valid document. If all are made, returns 0, writes the new text to `out` if it fits, and
/// sets `needed` to the length of the new text.
///
/// If a change is refused, returns 3, and sets `refused` to the index of the change. Then `out` has as much of the
/// message as fits, and `needed` is the length of the message. If an allocation fails, returns 4, and leaves `out`,
/// `needed` and `refused` unchanged.
fn put_changed(
    alloc: Global,
    document: &str,
    changes: &[ChangeRecord<'_>],
    out: &mut [u8],
    needed: &mut usize,
    refused: &mut usize,
) -> u32
    ensures status { (result ≡ 0) ⊎ ((result ≡ 3) ⊎ (result ≡ 4)) }
    ensures made { result ≡ 0
        → (new : List ℕ) × ChangesMade changes.now document.now new × Holds out.old out.new needed.new new }
    ensures refused { result ≡ 3 → (reason : List ℕ) × Fills out.old out.new needed.new reason }
    ensures out_kept { result ≡ 4 → (out.new ≡ out.old) × (needed.new ≡ needed.old) }
    ensures refused_kept { result ≢ 3 → refused.new ≡ refused.old }
{
    match changes_made(alloc, document, changes) {
        Ok(new) => {
            put_whole(out, needed, new.as_str());
            0
        }
        Err(Stop::Fault(Refused { index, refusal })) => match message_of(alloc, &refusal) {
            Ok(message) => {
                put_front(out, needed, message.as_str());
                *refused = index;
                3
            }
            Err(_) => 4,
        },
        Err(Stop::Memory(_)) => 4,
    }
}

/// Applies the changes to a document, one after the other.
///
/// Returns one of these statuses. Outputs that the status does not mention stay as they are.
///
/// - 0: `out` has the new text, if it fits, and `needed` is the length of the new text.
/// - 1: the document is not valid TOML; `fault` is its error.
/// - 2: the document is longer than 16 MiB, or not valid UTF-8.
/// - 3: a change was refused; `refused` is its index, `out` has as much of the message as fits, and `needed` is the
///   length of the message.
/// - 4: an allocation failed.
#[unsafe(no_mangle)]
pub extern "C" fn toml_span_edit_paths(
    alloc: Global,
    text: &[u8],
    changes: &[ChangeRecord<'_>],
    out: &mut [u8],
    needed: &mut usize,
    refused: &mut usize,
    fault: &mut FaultRecord,
) -> u32
    ensures status { IsNewStatus text.now result }
    ensures made { result ≡ 0
        → (new : List ℕ) × IsEdited text.now changes.now new × Holds out.old out.new needed.new new }
    ensures faulty { result ≡ 1 → IsInvalid text.now (IsFaultOf text.now fault.new) }
    ensures refused { result ≡ 3
        → IsDocument text.now × ((reason : List ℕ) × Fills out.old out.new needed.new reason) }
    ensures out_kept { result ≢ 0 → result ≢ 3 → (out.new ≡ out.old) × (needed.new ≡ needed.old) }
    ensures refused_kept { result ≢ 3 → refused.new ≡ refused.old }
    ensures fault_kept { result ≢ 1 → fault.new ≡ fault.old }
{
    match answer_to(alloc, text) {
        Answer::Tree(document, root) => {
            drop(root);
            put_changed(alloc, document, changes, out, needed, refused)
        }
        Answer::Fault(document, error) => {
            *fault = fault_of(document, &error);
            1
        }
        Answer::Unread => 2,
        Answer::Memory => 4,
    }
}
