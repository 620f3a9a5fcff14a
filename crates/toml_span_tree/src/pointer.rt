//! Pointers: strings that name a value in a tree, such as `/servers/0/port`.
//!
//! The empty pointer names the value at which the look-up starts. Any other pointer begins with `/`, which also
//! separates its segments. A segment is the name of a key in a table, and a decimal position in an array.
ghost use Rattle.std.specs.Prelude.{◌≡◌, ◌<◌, ◌∷◌, [], ◌^◌, option_map, option_and_then, IfOk, IfErr, IsSome, Some};
ghost use Rattle.std.specs.Prelude.{None, List, ℕ, drop, false, length, slice_index_or, true, vec_len};
ghost use Rattle.std.specs.Borrow.{sem};
ghost use Rattle.std.specs.Cow.{cow_str_bytes};
ghost use Rattle.toml_span_lex.specs.Bytes.{slash};
ghost use Rattle.toml_span_tree.specs.Value.{view, inner_view, items_view, members_view};
ghost use Rattle.toml_span_tree.specs.Node.{get_member, get_item};
ghost use Rattle.toml_span_tree.specs.code.Pointer.{PositionIs, entry, untaken_entry, segments_after, set_named};
ghost use Rattle.toml_span_tree.specs.code.Pointer.{set_item, Exchanged, SplitAtSlash, value_named};
ghost use Rattle.toml_span_tree.specs.Pointer.{position_of, segments, if_not_taken, pointed, put_pointed};
ghost use Rattle.toml_span_tree.specs.Path.{set_entry};
ghost use Rattle.toml_span_tree.specs.code.Lending.{IsHeld, lends_inner, lends_member, lends_item, lends_entry};
ghost use Rattle.toml_span_tree.specs.code.Lending.{lends_child, lends_named, lends_at};
ghost use Rattle.toml_span_tree.specs.Lending.{lends_pointed};

use crate::value::{Array, Table, Value, ValueInner};
use std::mem;
use toml_span_lex::key::Key;

/// Returns the position that `segment` spells: decimal digits without a sign, and without a leading zero unless it is
/// `0`. Returns `None` for any other segment, and for a number of 2^64 or more.
pub fn position(segment: &str) -> Option<usize>
    ensures { PositionIs result (position_of segment.now) }
{
    let bytes = segment.as_bytes();
    if bytes.is_empty() || bytes[0] == b'+' {
        return None;
    }
    if bytes[0] == b'0' && bytes.len() > 1 {
        return None;
    }
    segment.parse::<usize>().ok()
}

/// Splits `path` at its first `/`. Returns the segment before the `/`, and the path after it. Without a `/`, returns
/// `path` and `None`.
pub fn cut<'p>(path: &'p str) -> (&'p str, Option<&'p str>)
    ensures { SplitAtSlash path.now result.0.now (option_map (λ rest. rest.now) result.1) }
{
    match path.split_once('/') {
        Some((segment, rest)) => (segment, Some(rest)),
        None => (path, None),
    }
}

/// Returns the value of the entry with this name, or `None` if the table has no such entry.
fn table_entry<'v, 'de>(table: &'v Table<'de>, name: &'de str) -> Option<&'v Value<'de>>
    ensures { option_map (λ v. view v.now) result ≡ get_member name.now (members_view table.now.entries) }
{
    table.get(&Key::named(name))
}

/// Returns the element at the position that `segment` spells. Returns `None` if it spells no position, or if the array
/// has no element there.
pub fn array_entry<'v, 'de>(array: &'v Array<'de>, segment: &str) -> Option<&'v Value<'de>>
    ensures { option_map (λ v. view v.now) result
        ≡ option_and_then (λ i. get_item i (items_view array.now.items)) (position_of segment.now) }
{
    array.get(position(segment)?)
}

impl<'de> ValueInner<'de> {
    /// Returns the value that `segment` selects: in a table, the value of the entry with this name; in an array, the
    /// element at this position. Returns `None` if no such value exists.
    fn entry(&self, segment: &'de str) -> Option<&Value<'de>>
        ensures { option_map (λ v. view v.now) result ≡ entry segment.now (inner_view self.now) }
    {
        match self {
            ValueInner::Table(table) => table_entry(table, segment),
            ValueInner::Array(array) => array_entry(array, segment),
            _ => None,
        }
    }
}

impl<'de> Value<'de> {
    /// Returns the value that `segment` selects in this value. Returns `None` if no such value exists, or if the
    /// content of this value or of the selected one has been taken.
    fn entry(&self, segment: &'de str) -> Option<&Self>
        ensures { option_map (λ v. view v.now) result ≡ untaken_entry segment.now (view self.now) }
    {
        match &self.value {
            Some(inner) => inner.entry(segment)?.if_untaken(),
            None => None,
        }
    }

    /// Returns this value, or `None` if its content has been taken.
    pub(crate) fn if_untaken(&self) -> Option<&Self>
        ensures { option_map (λ v. view v.now) result ≡ if_not_taken (view self.now) }
    {
        if self.is_taken() { None } else { Some(self) }
    }

    /// Follows the segments of `path`, a pointer without its first `/`, from this value. Returns the value to which
    /// they lead. Returns `None` if no such value exists, or if it, this value or a value on the way is taken.
    fn found(&self, path: &'de str) -> Option<&Self>
        ensures { option_map (λ v. view v.now) result ≡ value_named (segments path.now) (view self.now) }
    {
        let (segment, rest) = cut(path);
        let child = self.entry(segment)?;
        match rest {
            Some(rest) => child.found(rest),
            None => Some(child),
        }
    }

    /// Returns the value that `pointer` names, or `None` if it names no value.
    ///
    /// The empty pointer names `self`, even if its content has been taken. Any other pointer begins with `/`, and `/`
    /// separates its segments; escapes are not supported. In a table, a segment is the name of a key. In an array, it
    /// is a position, counted from 0: decimal digits without a sign, and without a leading zero unless it is `0`. A
    /// value below `self` is not found if its content, or the content of a value around it, has been taken.
    pub fn pointer(&self, pointer: &'de str) -> Option<&Self>
        ensures { option_map (λ v. view v.now) result ≡ pointed pointer.now (view self.now) }
    {
        if pointer.is_empty() {
            return Some(self);
        }
        self.found(pointer.strip_prefix('/')?)
    }
}

impl<'de> ValueInner<'de> {
    /// Replaces a value with `new`: the value that `segment` selects or, if `rest` is `Some`, the value to which the
    /// segments of `rest` lead from there. Returns the old value. Returns `Err(new)` if no such value exists, or if it
    /// or a value on the way is taken.
    #[cycle(replace)]
    fn replace_found(
        &mut self,
        segment: &'de str,
        rest: Option<&'de str>,
        new: Value<'de>,
    ) -> Result<Value<'de>, Value<'de>>
        ensures { Exchanged result new.entry (segments_after (option_map (λ r. r.now) rest.entry))
            (option_and_then if_not_taken (entry segment.now (inner_view self.old)))
            (λ w. inner_view self.new ≡ set_named segment.now w (inner_view self.old))
            (inner_view self.new ≡ inner_view self.old) }
    {
        match self {
            ValueInner::Table(table) => replace_entry(table, segment, rest, new),
            ValueInner::Array(array) => replace_element(array, segment, rest, new),
            _ => Err(new),
        }
    }
}

/// Replaces a value with `new`: the value of the entry `name` or, if `rest` is `Some`, the value to which the segments
/// of `rest` lead from there. Returns the old value. Returns `Err(new)` if no such value exists, or if it or a value on
/// the way is taken.
#[cycle(replace)]
fn replace_entry<'de>(
    table: &mut Table<'de>,
    name: &'de str,
    rest: Option<&'de str>,
    new: Value<'de>,
) -> Result<Value<'de>, Value<'de>>
    ensures { Exchanged result new.entry (segments_after (option_map (λ r. r.now) rest.entry))
        (option_and_then if_not_taken (get_member name.now (members_view table.old.entries)))
        (λ w. members_view table.new.entries ≡ set_entry name.now w (members_view table.old.entries))
        (members_view table.new.entries ≡ members_view table.old.entries) }
{
    match table.get_mut(&Key::named(name)) {
        Some(child) => child.replace_here(rest, new),
        None => Err(new),
    }
}

/// Replaces a value with `new`: the element at the position that `segment` spells or, if `rest` is `Some`, the value to
/// which the segments of `rest` lead from there. Returns the old value. Returns `Err(new)` if no such value exists, or
/// if it or a value on the way is taken.
#[cycle(replace)]
fn replace_element<'de>(
    array: &mut Array<'de>,
    segment: &'de str,
    rest: Option<&'de str>,
    new: Value<'de>,
) -> Result<Value<'de>, Value<'de>>
    ensures { Exchanged result new.entry (segments_after (option_map (λ r. r.now) rest.entry))
        (option_and_then if_not_taken
        (option_and_then (λ i. get_item i (items_view array.old.items)) (position_of segment.now)))
        (λ w. items_view array.new.items ≡ set_item (position_of segment.now) w (items_view array.old.items))
        (items_view array.new.items ≡ items_view array.old.items) }
{
    let Some(position) = position(segment) else {
        return Err(new);
    };
    match array.get_mut(position) {
        Some(child) => child.replace_here(rest, new),
        None => Err(new),
    }
}

impl<'de> Value<'de> {
    /// Returns a mutable reference to the value that `pointer` names, or `None` if it names no value. See the method
    /// `pointer` for the form of pointers.
    pub fn pointer_mut(&mut self, pointer: &'de str) -> Option<&mut Self>
        ensures* writes_back { sem 𝓛 (lends_pointed self.entry pointer.now result) }
        ensures value { option_map (λ v. view v.now) result ≡ pointed pointer.now (view self.old) }
    {
        if is_pointed(self, pointer) {
            let named = at_pointer(self, pointer);
            return Some(named);
        }
        None
    }

    /// Replaces a value with `new`: this value or, if `rest` is `Some`, the value to which the segments of `rest` lead
    /// from this value. Returns the old value. Returns `Err(new)` if no such value exists, or if it, this value or a
    /// value on the way is taken.
    #[cycle(replace)]
    fn replace_here(&mut self, rest: Option<&'de str>, new: Self) -> Result<Self, Self>
        ensures { Exchanged result new.entry (segments_after (option_map (λ r. r.now) rest.entry))
            (if_not_taken (view self.old)) (λ w. view self.new ≡ w) (view self.new ≡ view self.old) }
    {
        if self.is_taken() {
            return Err(new);
        }
        match rest {
            Some(path) => self.replace_found(path, new),
            None => Ok(mem::replace(self, new)),
        }
    }

    /// Replaces a value with `new`: the value to which the segments of `path`, a pointer without its first `/`, lead
    /// from this value. Returns the old value. Returns `Err(new)` if no such value exists, or if it, this value or a
    /// value on the way is taken.
    #[cycle(replace)]
    fn replace_found(&mut self, path: &'de str, new: Self) -> Result<Self, Self>
        ensures { Exchanged result new.entry (segments path.now) (Some (view self.old)) (λ w. view self.new ≡ w)
            (view self.new ≡ view self.old) }
    {
        let (segment, rest) = cut(path);
        match &mut self.value {
            Some(inner) => inner.replace_found(segment, rest, new),
            None => Err(new),
        }
    }

    /// Puts `new` in the place of the value that `pointer` names, and returns the old value. `new` keeps its span.
    /// Keys, their spans and all other values are unchanged.
    ///
    /// If `pointer` names no value, returns `Err(new)`, and nothing changes.
    pub fn replace(&mut self, pointer: &'de str, new: Self) -> Result<Self, Self>
        ensures done { IfOk result (λ old. (pointed pointer.now (view self.old) ≡ Some (view old))
            × (view self.new ≡ put_pointed pointer.now (view new.entry) (view self.old))) }
        ensures refused { IfErr result (λ back. (back ≡ new.entry) × (pointed pointer.now (view self.old) ≡ None)
            × (view self.new ≡ view self.old)) }
    {
        // Toolchain: if a function calls `pointer_mut`, the prover can't follow a write through the `&mut Value<'de>`
        // that the call returns. So functions with proofs about writes call `replace`.
        if pointer.is_empty() {
            return Ok(mem::replace(self, new));
        }
        match pointer.strip_prefix('/') {
            Some(path) => self.replace_found(path, new),
            None => Err(new),
        }
    }
}

/// Returns a mutable reference to the content of `value`. The content must not have been taken.
fn inner_of<'v, 'de>(value: &'v mut Value<'de>) -> &'v mut ValueInner<'de>
    requires { IsHeld value.old }
    ensures* writes_back { sem 𝓛 (lends_inner value.entry result) }
    ensures value { value.old.value ≡ Some result.now }
{
    match &mut value.value {
        Some(inner) => inner,
        None => unreachable!(),
    }
}

/// Returns a mutable reference to the value of the entry with the name of `key`. The entry must exist.
fn member_of<'v, 'de, 'k>(table: &'v mut Table<'de>, key: &'k Key<'de>) -> &'v mut Value<'de>
    requires { IsSome (get_member (cow_str_bytes key.now.name) (members_view table.old.entries)) }
    ensures* writes_back { sem 𝓛 (lends_member table.entry (cow_str_bytes key.now.name) result) }
    ensures value { get_member (cow_str_bytes key.now.name) (members_view table.old.entries) ≡ Some (view result.now) }
{
    match table.get_mut(key) {
        Some(value) => value,
        None => unreachable!(),
    }
}

/// Returns a mutable reference to the element at `position`, which must be below the length of the array.
fn item_of<'v, 'de>(array: &'v mut Array<'de>, position: usize) -> &'v mut Value<'de>
    requires { position < vec_len array.old }
    ensures* writes_back { sem 𝓛 (lends_item array.entry position result) }
    ensures value { result.now ≡ slice_index_or array.old.items position result.now }
{
    &mut array[position]
}

/// Returns a mutable reference to the value that the name of `key` selects: in a table, the value of the entry with
/// this name; in an array, the element at the position that the name spells. The selected value must exist.
fn entry_of<'v, 'de, 'k>(inner: &'v mut ValueInner<'de>, key: &'k Key<'de>) -> &'v mut Value<'de>
    requires { IsSome (entry (cow_str_bytes key.now.name) (inner_view inner.old)) }
    ensures* writes_back { sem 𝓛 (lends_entry inner.entry (cow_str_bytes key.now.name) result) }
    ensures value { entry (cow_str_bytes key.now.name) (inner_view inner.old) ≡ Some (view result.now) }
{
    match inner {
        ValueInner::Table(table) => {
            let value = member_of(table, key);
            value
        }
        ValueInner::Array(array) => {
            let position = position_named(key);
            let value = item_of(array, position);
            value
        }
        _ => unreachable!(),
    }
}

/// Returns the position that the name of `key` spells, or 0 if `position` returns `None` for the name.
fn position_named<'k, 'de>(key: &'k Key<'de>) -> usize
    ensures { (n : ℕ) → position_of (cow_str_bytes key.now.name) ≡ Some n → n < 2 ^ 64 → result ≡ n }
{
    match position(key.name.as_ref()) {
        Some(position) => position,
        None => 0,
    }
}

/// Returns a mutable reference to the value that the name of `key` selects in `value`. The selected value must exist.
/// Neither its content nor the content of `value` may have been taken.
fn child_of<'v, 'de, 'k>(value: &'v mut Value<'de>, key: &'k Key<'de>) -> &'v mut Value<'de>
    requires { IsSome (untaken_entry (cow_str_bytes key.now.name) (view value.old)) }
    ensures* writes_back { sem 𝓛 (lends_child value.entry (cow_str_bytes key.now.name) result) }
    ensures value { untaken_entry (cow_str_bytes key.now.name) (view value.old) ≡ Some (view result.now) }
{
    let inner = inner_of(value);
    entry_of(inner, key)
}

/// Drops a key.
fn release(key: Key<'_>) {}

/// Returns a mutable reference to the value that `segment` selects in `value`. The selected value must exist. Neither
/// its content nor the content of `value` may have been taken.
fn step_to<'v, 'de>(value: &'v mut Value<'de>, segment: &'de str) -> &'v mut Value<'de>
    requires { IsSome (untaken_entry segment.now (view value.old)) }
    ensures* writes_back { sem 𝓛 (lends_child value.entry segment.now result) }
    ensures value { untaken_entry segment.now (view value.old) ≡ Some (view result.now) }
{
    let key = Key::named(segment);
    let child = child_of(value, &key);
    release(key);
    child
}

/// Returns the first segment of a path.
fn first<'p>(path: &'p str) -> &'p str
    ensures { segments path.now ≡ result.now ∷ drop 1 (segments path.now) }
{
    cut(path).0
}

/// Returns whether a path has only one segment.
fn is_last<'p>(path: &'p str) -> bool
    ensures only { result ≡ true → drop 1 (segments path.now) ≡ [] }
    ensures more { result ≡ false → 0 < length (drop 1 (segments path.now)) }
{
    match cut(path).1 {
        Some(_) => false,
        None => true,
    }
}

/// Returns the path without its first segment and the `/` after that segment, or the whole path if it has only one
/// segment.
fn after<'p>(path: &'p str) -> &'p str
    ensures { 0 < length (drop 1 (segments path.now))
        → (segments result.now ≡ drop 1 (segments path.now)) × (length result.now < length path.now) }
{
    match cut(path).1 {
        Some(rest) => rest,
        None => path,
    }
}

/// Returns a mutable reference to the value to which the segments of `path`, a pointer without its first `/`, lead from
/// `value`. There must be such a value: `value.found(path)` must not be `None`.
fn at_path<'v, 'de>(value: &'v mut Value<'de>, path: &'de str) -> &'v mut Value<'de>
    requires { IsSome (value_named (segments path.now) (view value.old)) }
    ensures* writes_back { sem 𝓛 (lends_named value.entry path.now result) }
    ensures value { value_named (segments path.now) (view value.old) ≡ Some (view result.now) }
{
    let segment = first(path);
    let child = step_to(value, segment);
    if is_last(path) {
        return child;
    }
    let rest = after(path);
    at_path(child, rest)
}

/// Returns whether the pointer is empty.
fn is_end<'p>(pointer: &'p str) -> bool
    ensures only { result ≡ true → length pointer.now ≡ 0 }
    ensures more { result ≡ false → 0 < length pointer.now }
{
    pointer.is_empty()
}

/// Returns the pointer without the `/` at its beginning, or the whole pointer if it begins otherwise.
fn after_slash<'p>(pointer: &'p str) -> &'p str
    ensures { (path : List ℕ) → pointer.now ≡ slash ∷ path → result.now ≡ path }
{
    match pointer.strip_prefix('/') {
        Some(path) => path,
        None => pointer,
    }
}

/// Returns a mutable reference to the value that `pointer` names in `value`. There must be such a value.
fn at_pointer<'v, 'de>(value: &'v mut Value<'de>, pointer: &'de str) -> &'v mut Value<'de>
    requires { IsSome (pointed pointer.now (view value.old)) }
    ensures* writes_back { sem 𝓛 (lends_at value.entry pointer.now result) }
    ensures value { pointed pointer.now (view value.old) ≡ Some (view result.now) }
{
    if is_end(pointer) {
        return value;
    }
    let path = after_slash(pointer);
    at_path(value, path)
}

/// Returns whether `pointer` names a value in `value`. Takes a mutable reference, as `pointer_mut` does, but changes
/// nothing.
fn is_pointed<'x, 'de>(value: &'x mut Value<'de>, pointer: &'de str) -> bool
    ensures some { result ≡ true → IsSome (pointed pointer.now (view value.old)) }
    ensures none { result ≡ false → pointed pointer.now (view value.old) ≡ None }
    ensures same { value.new ≡ value.old }
{
    value.pointer(pointer).is_some()
}
