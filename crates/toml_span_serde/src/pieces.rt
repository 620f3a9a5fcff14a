//! Converts a tree to a row of pieces, which a `Reader` reads. The entries of a table are in the order in which their
//! keys' spans start.
ghost use Rattle.std.specs.Prelude.{◌≡◌, ◌<◌, ◌≤◌, ◌-◌, ◌^◌, ◌++◌, ◌∷◌, IfOk, IfSome, List, OnOk, Some, length, map};
ghost use Rattle.toml_span.specs.Ordered.{AreOrdered, IsOrdered, MembersOrdered};
ghost use Rattle.toml_span.specs.code.Placing.{NamesAscend};
ghost use Rattle.toml_span_tree.specs.Node.{Node};
ghost use Rattle.toml_span_tree.specs.Order.{entry_of};
ghost use Rattle.toml_span_tree.specs.Value.{items_view, members_view, view};
ghost use Rattle.toml_span_serde.specs.Misreads.{IsOpening, found_of, kind_ahead, refusal, piece_text};
ghost use Rattle.toml_span_serde.specs.Pieces.{Piece as Laid, array_begins, items_pieces, members_pieces, piece};
ghost use Rattle.toml_span_serde.specs.Pieces.{pieces, table_begins};
ghost use Rattle.toml_span_serde.specs.Tasks.{all_pieces, by_start, depth_after, piece_content, piece_of, task_pieces};
ghost use Rattle.toml_span_serde.specs.Tasks.{AreTasksOrdered, IsTaskOrdered, turned};
ghost use Rattle.toml_span_serde.specs.TextOrder.{in_text_order, items_in_order, members_in_order};

use crate::misfit::{Found, Reason};
use serde::Kind;
use std::alloc::{AllocError, Global};
use toml_span_lex::key::Key;
use toml_span_lex::span::Span;
use toml_span_tree::{Array, FloatText, Table, Value, ValueInner};

/// A scalar, a taken value, a key, or the beginning or end of an array or table.
#[derive(Clone, Copy, Drop)]
pub(crate) enum Content<'v> {
    Text(&'v str),
    Integer(i64),
    Float(&'v FloatText),
    Boolean(bool),
    Datetime(&'v str),
    Taken,
    ArrayBegins,
    ArrayEnds,
    TableBegins,
    TableEnds,
    Key(&'v str),
}

/// A part of a tree, with the span of the value or key that it belongs to.
#[derive(Clone, Copy, Drop)]
pub(crate) struct Piece<'v> {
    pub content: Content<'v>,
    pub span: Span,
}

impl<'v> Content<'v> {
    /// Returns the kind of the value or key.
    pub(crate) fn kind(&self) -> Found
        ensures { result ≡ found_of (piece_content self.now) }
    {
        match self {
            Content::Text(_) => Found::String,
            Content::Integer(_) => Found::Integer,
            Content::Float(_) => Found::Float,
            Content::Boolean(_) => Found::Boolean,
            Content::Datetime(_) => Found::Datetime,
            Content::Taken => Found::Nothing,
            Content::ArrayBegins | Content::ArrayEnds => Found::Array,
            Content::TableBegins | Content::TableEnds => Found::Table,
            Content::Key(_) => Found::Key,
        }
    }

    /// Returns the kind of the value or key, as serde classifies it.
    pub(crate) fn serde_kind(&self) -> Kind
        ensures { result ≡ kind_ahead (piece_content self.now) }
    {
        match self {
            Content::Text(_) | Content::Key(_) | Content::Datetime(_) => Kind::Str,
            Content::Integer(number) if *number < 0 => Kind::Signed,
            Content::Integer(_) => Kind::Unsigned,
            Content::Float(_) => Kind::Float,
            Content::Boolean(_) => Kind::Bool,
            Content::Taken => Kind::Unit,
            Content::ArrayBegins | Content::ArrayEnds => Kind::Seq,
            Content::TableBegins | Content::TableEnds => Kind::Map,
        }
    }

    /// Returns the number of arrays and tables that are open after this piece, if `depth` are open before it.
    fn depth_after(&self, depth: usize) -> usize
        requires { depth < 2 ^ 64 - 1 }
        ensures { result ≡ depth_after (piece_content self.now) depth }
    {
        match self {
            Content::ArrayBegins | Content::TableBegins => depth + 1,
            Content::ArrayEnds | Content::TableEnds => depth.saturating_sub(1),
            _ => depth,
        }
    }

    /// Returns why a type that has read the value does not accept it: `OutOfRange` for an integer, otherwise `Invalid`.
    pub(crate) fn refusal(&self) -> Reason
        ensures { result ≡ refusal (piece_content self.now) }
    {
        match self {
            Content::Integer(_) => Reason::OutOfRange,
            _ => Reason::Invalid,
        }
    }

    /// Returns the text of a string or key, otherwise an empty text.
    pub(crate) fn text(&self) -> &'v str
        ensures { result.now ≡ piece_text (piece_content self.now) }
    {
        match self {
            Content::Text(text) | Content::Key(text) => *text,
            _ => "",
        }
    }
}

/// Returns the number of pieces of the value at the start of `ahead`, or 1 for a key. Returns `None` if `ahead` is
/// empty or the end of the value is missing.
pub(crate) fn count_value(ahead: &[Piece<'_>]) -> Option<usize>
    ensures value { (n : Node) (rest : List Laid) → map piece_of ahead.now ≡ pieces n ++ rest
        → result ≡ Some (length (pieces n)) }
    ensures single { (p : Laid) (rest : List Laid) → map piece_of ahead.now ≡ p ∷ rest → ¬ IsOpening p.content
        → result ≡ Some 1 }
    ensures inside { IfSome result (λ count. count ≤ length ahead.now) }
{
    let (mut count, mut depth) = (0usize, 0usize);
    for piece in ahead {
        count += 1;
        depth = piece.content.depth_after(depth);
        if depth == 0 {
            return Some(count);
        }
    }
    None
}

/// A part of the tree that has not been converted yet. Parts are converted from the last to the first.
#[derive(Clone, Copy, Drop)]
enum Task<'v, 'de> {
    Value(&'v Value<'de>),
    Piece(Piece<'v>),
}

/// Returns the pieces of a tree, with the entries of each table in the order in which their keys' spans start.
pub(crate) fn pieces_of<'v>(
    alloc: Global,
    root: &'v Value<'_>,
) -> Result<Vec<Piece<'v>>, AllocError>
    ensures pieces { IfOk result (λ made. map piece_of made.items ≡ pieces (in_text_order (view root.now))) }
    ensures ordered { OnOk result (IsOrdered (view root.now)) }
{
    let mut tasks = Vec::new(alloc);
    let mut turned = Vec::new(alloc);
    tasks.push(Task::Value(root))?;
    for _ in 0..u64::MAX {
        let Some(task) = tasks.pop() else {
            turned.reverse();
            return Ok(turned);
        };
        carry_out(alloc, task, &mut tasks, &mut turned)?;
    }
    Err(AllocError)
}

/// Converts the part `task`: appends its last piece to `made`, and its other parts to `tasks`.
fn carry_out<'v, 'de>(
    alloc: Global,
    task: Task<'v, 'de>,
    tasks: &mut Vec<Task<'v, 'de>>,
    made: &mut Vec<Piece<'v>>,
) -> Result<(), AllocError>
    ensures pieces { OnOk result (all_pieces tasks.new.items ++ turned made.new.items ≡ all_pieces tasks.old.items
        ++ (task_pieces task.entry ++ turned made.old.items)) }
    ensures ordered { OnOk result (AreTasksOrdered tasks.new.items
        → AreTasksOrdered tasks.old.items × IsTaskOrdered task.entry) }
{
    match task {
        Task::Value(value) => take_apart(alloc, value, tasks, made),
        Task::Piece(piece) => {
            made.push(piece)?;
            Ok(())
        }
    }
}

/// Appends the last piece of a value to `made`, and its other parts to `tasks`.
fn take_apart<'v, 'de>(
    alloc: Global,
    value: &'v Value<'de>,
    tasks: &mut Vec<Task<'v, 'de>>,
    made: &mut Vec<Piece<'v>>,
) -> Result<(), AllocError>
    ensures pieces { OnOk result (all_pieces tasks.new.items ++ turned made.new.items ≡ all_pieces tasks.old.items
        ++ (pieces (in_text_order (view value.now)) ++ turned made.old.items)) }
    ensures ordered { OnOk result (AreTasksOrdered tasks.new.items
        → AreTasksOrdered tasks.old.items × IsOrdered (view value.now)) }
{
    let span = value.span;
    if value.is_taken() {
        made.push(Piece {
            content: Content::Taken,
            span,
        })?;
        return Ok(());
    }
    let content = match value.as_ref() {
        ValueInner::String(text) => Content::Text(text.as_ref()),
        ValueInner::Integer(number) => Content::Integer(*number),
        ValueInner::Float(float) => Content::Float(float),
        ValueInner::Boolean(truth) => Content::Boolean(*truth),
        ValueInner::Datetime(date) => Content::Datetime(date.text()),
        ValueInner::Array(array) => {
            push_elements(array, span, tasks)?;
            Content::ArrayEnds
        }
        ValueInner::Table(table) => {
            push_entries(alloc, table, span, tasks)?;
            Content::TableEnds
        }
    };
    made.push(Piece { content, span })?;
    Ok(())
}

/// Appends the beginning of an array and its elements to `tasks`.
fn push_elements<'v, 'de>(
    array: &'v Array<'de>,
    span: Span,
    tasks: &mut Vec<Task<'v, 'de>>,
) -> Result<(), AllocError>
    ensures pieces { OnOk result (all_pieces tasks.new.items ≡ all_pieces tasks.old.items
        ++ (piece array_begins span ∷ items_pieces (items_in_order (items_view array.now.items)))) }
    ensures ordered { OnOk result (AreTasksOrdered tasks.new.items
        → AreTasksOrdered tasks.old.items × AreOrdered (items_view array.now.items)) }
{
    tasks.push(Task::Piece(Piece {
        content: Content::ArrayBegins,
        span,
    }))?;
    for element in array {
        tasks.push(Task::Value(element))?;
    }
    Ok(())
}

/// Appends the beginning of a table and its entries, in the order of `sorted_entries`, to `tasks`.
fn push_entries<'v, 'de>(
    alloc: Global,
    table: &'v Table<'de>,
    span: Span,
    tasks: &mut Vec<Task<'v, 'de>>,
) -> Result<(), AllocError>
    ensures pieces { OnOk result (all_pieces tasks.new.items ≡ all_pieces tasks.old.items
        ++ (piece table_begins span ∷ members_pieces (members_in_order (members_view table.now.entries)))) }
    ensures ordered { OnOk result (AreTasksOrdered tasks.new.items
        → AreTasksOrdered tasks.old.items × MembersOrdered (members_view table.now.entries)) }
{
    tasks.push(Task::Piece(Piece {
        content: Content::TableBegins,
        span,
    }))?;
    let entries = sorted_entries(alloc, table)?;
    for entry in &entries {
        tasks.push(Task::Piece(Piece {
            content: Content::Key(entry.0.name.as_ref()),
            span: entry.0.span,
        }))?;
        tasks.push(Task::Value(entry.1))?;
    }
    Ok(())
}

/// Returns the entries of a table in the order in which their keys start in the text. Entries whose keys start at the
/// same offset are in the order of their names.
fn sorted_entries<'v, 'de>(
    alloc: Global,
    table: &'v Table<'de>,
) -> Result<Vec<(&'v Key<'de>, &'v Value<'de>)>, AllocError>
    ensures entries { IfOk result (λ entries. map entry_of entries.items ≡ by_start table.now.entries) }
    ensures ordered { OnOk result (NamesAscend table.now) }
{
    let mut entries = listed(alloc, table)?;
    entries.sort_by_key(|entry| entry.0.span.start)?;
    Ok(entries)
}

/// Returns the entries of a table in the order of their names.
fn listed<'v, 'de>(
    alloc: Global,
    table: &'v Table<'de>,
) -> Result<Vec<(&'v Key<'de>, &'v Value<'de>)>, AllocError>
    ensures entries { IfOk result (λ entries. map entry_of entries.items ≡ table.now.entries) }
    ensures ordered { OnOk result (NamesAscend table.now) }
{
    let mut entries = Vec::with_capacity(alloc, table.len())?;
    for (key, value) in table.iter() {
        entries.push((key, value))?;
    }
    Ok(entries)
}
