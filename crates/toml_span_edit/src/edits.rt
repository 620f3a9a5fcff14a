//! Collects edits of a document, and makes them one after the other.
ghost use Rattle.std.specs.Prelude.{◌≡◌, ◌++◌, IfErr, IfOk, OnOk, [], Some, map, string_bytes};
ghost use Rattle.toml_span_edit.specs.Edited as spec;
ghost use Rattle.toml_span_edit.specs.Refused as refusals;
ghost use Rattle.toml_span_edit.specs.Listed.{Pushed};
ghost use Rattle.toml_span_edit.specs.Reasons.{edit_error_text};
ghost use Rattle.toml_span_edit.specs.declared.edits.Change.TheVariants as changes;

use crate::given::key_text;
use crate::reason::Reason;
use crate::step::step;
use std::alloc::{AllocError, Global};
use std::fmt;
use std::fmt::{Display, Formatter, Write};
use toml_span::Stop;

/// What an edit does at its path. Values are written as TOML, such as `1`, `"a"` or `[1, 2]`.
#[derive(Clone, Copy, Debug)]
pub enum Change<'e> {
    /// Replaces the value with this one. Headers or dotted keys must not define the old value.
    Set(&'e str),
    /// Replaces the value with this one. Headers or dotted keys may define the old value.
    Replace(&'e str),
    /// Replaces the value as `Set` does. If the path names nothing, adds this value, and the tables missing on the way.
    SetOrAdd(&'e str),
    /// Renames the key to this name, at every place where the key is written.
    Rename(&'e str),
    /// Removes the value and its key, or the element of an array.
    Remove,
    /// Adds this value to an existing table. The last segment of the path is the new key.
    Add(&'e str),
    /// Adds an empty table, and the tables missing on the way. The path must name nothing.
    AddTable,
    /// Adds this element at the end of the array. If the path names nothing, adds an array with this element, and the
    /// tables missing on the way.
    Append(&'e str),
    /// Adds this element to an array. The last segment of the path is the position of the new element: at most the
    /// number of elements in the array.
    Insert(&'e str),
    /// Moves the value, with the comments above and after it, to this path, the target. The comments are lost in some
    /// targets, such as inline tables.
    ///
    /// If the target leads into an array, the value is inserted as with `Insert`. Otherwise the target must name
    /// nothing. Positions in the target are counted without the moved value.
    MoveTo(&'e [&'e str]),
}

/// One edit: a change at a path.
#[derive(Clone, Copy, Debug)]
pub struct Edit<'e> {
    /// The segments from the root: names of keys, and positions of elements, counted from 0.
    pub path: &'e [&'e str],
    pub change: Change<'e>,
}

/// Which edit was refused, and why.
#[derive(Debug, Drop)]
pub struct EditError {
    /// The position of the edit in the list, counted from 0.
    pub edit: usize,
    /// The path of the edit: as it was passed to a `Draft`, or the segments with dots between them, each in quotes if
    /// necessary.
    pub path: String,
    pub reason: Reason,
}

/// Writes the path, unless it is empty, and the reason: `package.version: there is nothing at this path`.
impl Display for EditError {
    ghost output = { λ error. Some (edit_error_text error) };

    fn fmt<W: Write>(&self, f: &mut Formatter<W>) -> fmt::Result {
        if !self.path.is_empty() {
            write!(f, "{}: ", self.path)?;
        }
        write!(f, "{}", self.reason)
    }
}

impl std::error::Error for EditError {}

/// A list of edits, which `finish` makes one after the other. The methods that append an edit fail if an allocation
/// fails; the list is then unchanged.
#[derive(Drop)]
pub struct Edits<'e> {
    alloc: Global,
    /// The document to edit.
    pub text: &'e str,
    /// The edits so far.
    pub list: Vec<Edit<'e>>,
}

impl<'e> Edits<'e> {
    /// Returns an empty list of edits of `text`. Does not read `text`.
    pub fn new(alloc: Global, text: &'e str) -> Self
        ensures { (result.text ≡ text.entry) × (result.list.items ≡ []) }
    {
        Edits {
            alloc,
            text,
            list: Vec::new(alloc),
        }
    }

    /// Appends an edit.
    pub fn push(&mut self, edit: Edit<'e>) -> Result<(), AllocError>
        ensures { Pushed edit.entry self.old result self.new }
    {
        self.list.push(edit)?;
        Ok(())
    }

    /// Appends the edit that makes `change` at `path`.
    fn change(&mut self, path: &'e [&'e str], change: Change<'e>) -> Result<(), AllocError>
        ensures { Pushed (record { path = path.entry; change = change.entry }) self.old result self.new }
    {
        self.push(Edit { path, change })
    }

    /// Appends `Change::Set`: replaces the value at `path` with `value`.
    pub fn set(&mut self, path: &'e [&'e str], value: &'e str) -> Result<(), AllocError>
        ensures { Pushed (record { path = path.entry; change = changes.Set value.entry }) self.old result self.new }
    {
        self.change(path, Change::Set(value))
    }

    /// Appends `Change::Replace`: replaces the value at `path`, which headers or dotted keys may define, with `value`.
    pub fn replace(&mut self, path: &'e [&'e str], value: &'e str) -> Result<(), AllocError>
        ensures { Pushed (record { path = path.entry; change = changes.Replace value.entry }) self.old result self.new }
    {
        self.change(path, Change::Replace(value))
    }

    /// Appends `Change::SetOrAdd`: replaces the value at `path` with `value`, or adds `value` if `path` names nothing.
    pub fn set_or_add(&mut self, path: &'e [&'e str], value: &'e str) -> Result<(), AllocError>
        ensures { Pushed (record { path = path.entry; change = changes.SetOrAdd value.entry }) self.old result
            self.new }
    {
        self.change(path, Change::SetOrAdd(value))
    }

    /// Appends `Change::Rename`: renames the key at `path` to `name`.
    pub fn rename(&mut self, path: &'e [&'e str], name: &'e str) -> Result<(), AllocError>
        ensures { Pushed (record { path = path.entry; change = changes.Rename name.entry }) self.old result self.new }
    {
        self.change(path, Change::Rename(name))
    }

    /// Appends `Change::Remove`: removes the value at `path`.
    pub fn remove(&mut self, path: &'e [&'e str]) -> Result<(), AllocError>
        ensures { Pushed (record { path = path.entry; change = changes.Remove }) self.old result self.new }
    {
        self.change(path, Change::Remove)
    }

    /// Appends `Change::Add`: adds `value` to an existing table, at `path`, which must name nothing.
    pub fn add(&mut self, path: &'e [&'e str], value: &'e str) -> Result<(), AllocError>
        ensures { Pushed (record { path = path.entry; change = changes.Add value.entry }) self.old result self.new }
    {
        self.change(path, Change::Add(value))
    }

    /// Appends `Change::AddTable`: adds an empty table at `path`, which must name nothing.
    pub fn add_table(&mut self, path: &'e [&'e str]) -> Result<(), AllocError>
        ensures { Pushed (record { path = path.entry; change = changes.AddTable }) self.old result self.new }
    {
        self.change(path, Change::AddTable)
    }

    /// Appends `Change::Append`: adds the element `value` at the end of the array at `path`.
    pub fn append(&mut self, path: &'e [&'e str], value: &'e str) -> Result<(), AllocError>
        ensures { Pushed (record { path = path.entry; change = changes.Append value.entry }) self.old result self.new }
    {
        self.change(path, Change::Append(value))
    }

    /// Appends `Change::Insert`: adds the element `value` to an array. The last segment of `path` is the position of
    /// the new element, at most the number of elements in the array.
    pub fn insert(&mut self, path: &'e [&'e str], value: &'e str) -> Result<(), AllocError>
        ensures { Pushed (record { path = path.entry; change = changes.Insert value.entry }) self.old result self.new }
    {
        self.change(path, Change::Insert(value))
    }

    /// Appends `Change::MoveTo`: moves the value at `path` to the path `target`.
    pub fn move_to(&mut self, path: &'e [&'e str], target: &'e [&'e str]) -> Result<(), AllocError>
        ensures { Pushed (record { path = path.entry; change = changes.MoveTo target.entry }) self.old result self.new }
    {
        self.change(path, Change::MoveTo(target))
    }

    /// Makes the edits one after the other, and returns the new text. If the list is empty, returns the text as it is,
    /// without reading it.
    ///
    /// Fails with the position and the reason of the first edit that is refused, and with `Stop::Memory` if an
    /// allocation fails. An edit is also refused if it would change anything else in the tree of the document.
    pub fn finish(self) -> Result<String, Stop<EditError>>
        ensures { refusals.IsFinished self.entry.list.items self.entry.text.now result }
    {
        all_made(self.alloc, self.text, self.list.as_slice())
    }
}

/// Makes `edit` in `text`, and returns the new text. Fails with the reason and with `index`, the position of `edit` in
/// its list, if `edit` is refused.
#[tactic(auto, using(crate::proofs::Refusals::refused_as))]
fn edit_made(
    alloc: Global,
    text: &str,
    edit: Edit<'_>,
    index: usize,
) -> Result<String, Stop<EditError>>
    ensures made { IfOk result (λ new. spec.EditMade edit.entry text.now (string_bytes new)) }
    ensures refused { IfErr result (refusals.IsRefusedAt index edit.entry text.now) }
{
    match step(alloc, text, edit) {
        Ok(new) => Ok(new),
        Err(stop) => Err(refusal(index, path_text(alloc, edit.path), stop)),
    }
}

/// Returns the error of the edit with this position and path, which was refused with `stop`. Returns `Stop::Memory` if
/// an allocation failed.
pub(crate) fn refusal(
    index: usize,
    path: Result<String, AllocError>,
    stop: Stop<Reason>,
) -> Stop<EditError>
    ensures { result ≡ refusals.refusal index path stop }
{
    match stop {
        Stop::Memory(error) => Stop::Memory(error),
        Stop::Fault(reason) => match path {
            Err(error) => Stop::Memory(error),
            Ok(path) => Stop::Fault(EditError {
                edit: index,
                path,
                reason,
            }),
        },
    }
}

/// Returns the segments with dots between them, each in quotes if necessary.
pub(crate) fn path_text(alloc: Global, path: &[&str]) -> Result<String, AllocError>
    ensures { IfOk result (λ text. string_bytes text ≡ refusals.path_text (map (λ s. s.now) path.now)) }
{
    match path.split_first() {
        None => Ok(String::new(alloc)),
        Some((first, more)) => {
            let mut out = key_text(alloc, *first)?;
            push_more(alloc, more, &mut out)?;
            Ok(out)
        }
    }
}

/// Appends each segment to `out`, in quotes if necessary and with a dot before it.
pub(crate) fn push_more(alloc: Global, path: &[&str], out: &mut String) -> Result<(), AllocError>
    ensures { OnOk result (string_bytes out.new
        ≡ string_bytes out.old ++ refusals.more_text (map (λ s. s.now) path.now)) }
{
    for segment in path {
        let text = key_text(alloc, *segment)?;
        out.push_str(".")?;
        out.push_str(text.as_str())?;
    }
    Ok(())
}

/// Makes `edits` in `text`, one after the other, and returns the new text: a copy of `text` if `edits` is empty. Fails
/// with the reason and the position of the first edit that is refused.
fn all_made(alloc: Global, text: &str, edits: &[Edit<'_>]) -> Result<String, Stop<EditError>>
    ensures made { IfOk result (λ new. spec.EditsMade edits.now text.now (string_bytes new)) }
    ensures refused { IfErr result (refusals.AreRefused edits.now text.now) }
{
    let mut new = match String::from_str(alloc, text) {
        Ok(copy) => copy,
        Err(error) => return Err(Stop::Memory(error)),
    };
    for (index, edit) in edits.iter().enumerate() {
        new = match edit_made(alloc, new.as_str(), *edit, index) {
            Ok(next) => next,
            Err(stop) => return Err(stop),
        };
    }
    Ok(new)
}
