//! Pointers that are parsed once and looked up many times. Each `/` of a pointer begins a segment: `/a/b` has the
//! segments `a` and `b`.
ghost use Rattle.std.specs.Prelude.{◌≡◌, [], ◌∷◌, ◌++◌, IfOk, OnOk, map, option_map};
ghost use Rattle.toml_span_tree.specs.Names.{name_in, names_in};
ghost use Rattle.toml_span_tree.specs.Node.{get_member};
ghost use Rattle.toml_span_tree.specs.code.Pointer.{entry, value_named, untaken_entry};
ghost use Rattle.toml_span_tree.specs.Pointer.{pointer_segments, segments};
ghost use Rattle.toml_span_tree.specs.Value.{inner_view, members_view, view};

use crate::pointer::{array_entry, cut};
use crate::value::{Table, Value, ValueInner};
use std::alloc::{AllocError, Global};
use std::borrow::CowStr;
use toml_span_lex::key::Key;
use toml_span_lex::span::Span;

// Toolchain: if a `Pointer` borrowed its text, it would have a second lifetime, and the check would refuse `at` ("what
// is returned holds or points to a reference at another lifetime"). So it owns its keys.
/// A pointer that is split into segments once, for many look-ups. It owns the segments, so it can be made before the
/// document is parsed. It can be looked up in every tree whose borrowed strings have the lifetime `'de`.
#[derive(Debug, Drop)]
pub struct Pointer<'de> {
    names: Vec<Key<'de>>,
}

impl<'de> Pointer<'de> {
    /// Splits a pointer into segments, and copies them. Returns `None` if `pointer` is not empty and does not begin
    /// with `/`.
    ///
    /// Fails if an allocation fails.
    pub fn new(alloc: Global, pointer: &str) -> Result<Option<Self>, AllocError>
        ensures { IfOk result (λ made. option_map (λ p. names_in p.names) made ≡ pointer_segments pointer.now) }
    {
        let mut names = Vec::new(alloc);
        if pointer.is_empty() {
            return Ok(Some(Pointer { names }));
        }
        match pointer.strip_prefix('/') {
            Some(path) => {
                push_segments(alloc, path, &mut names)?;
                Ok(Some(Pointer { names }))
            }
            None => Ok(None),
        }
    }
}

/// Appends each segment of `path`, a pointer without its first `/`, to `names`. If an allocation fails, some of the
/// segments may have been appended.
fn push_segments<'de>(
    alloc: Global,
    path: &str,
    names: &mut Vec<Key<'de>>,
) -> Result<(), AllocError>
    ensures { OnOk result (names_in names.new ≡ names_in names.old ++ segments path.now) }
{
    let (segment, rest) = cut(path);
    push_name(alloc, segment, names)?;
    match rest {
        Some(rest) => push_segments(alloc, rest, names),
        None => Ok(()),
    }
}

/// Appends a key with a copy of `name` to `names`.
fn push_name<'de>(alloc: Global, name: &str, names: &mut Vec<Key<'de>>) -> Result<(), AllocError>
    ensures { OnOk result (names_in names.new ≡ names_in names.old ++ name.now ∷ []) }
{
    names.push(Key {
        name: CowStr::Owned(String::from_str(alloc, name)?),
        span: Span::default(),
    })?;
    Ok(())
}

/// Returns the value of the entry with this name, or `None` if the table has no such entry.
fn table_at<'v, 'de>(table: &'v Table<'de>, name: &Key<'de>) -> Option<&'v Value<'de>>
    ensures { option_map (λ v. view v.now) result ≡ get_member (name_in name.now) (members_view table.now.entries) }
{
    table.get(name)
}

impl<'de> ValueInner<'de> {
    /// Returns the value that `name` selects: in a table, the value of the entry with this name; in an array, the
    /// element at the position that the name spells in decimal digits. Returns `None` if no such value exists.
    fn entry_at(&self, name: &Key<'de>) -> Option<&Value<'de>>
        ensures { option_map (λ v. view v.now) result ≡ entry (name_in name.now) (inner_view self.now) }
    {
        match self {
            ValueInner::Table(table) => table_at(table, name),
            ValueInner::Array(array) => array_entry(array, name.name.as_str()),
            _ => None,
        }
    }
}

impl<'de> Value<'de> {
    /// Returns the value that `name` selects in this value. Returns `None` if no such value exists, or if the content
    /// of this value or of the selected one has been taken.
    fn entry_at(&self, name: &Key<'de>) -> Option<&Self>
        ensures { option_map (λ v. view v.now) result ≡ untaken_entry (name_in name.now) (view self.now) }
    {
        match &self.value {
            Some(inner) => inner.entry_at(name)?.if_untaken(),
            None => None,
        }
    }

    /// Follows `names` from this value, one step for each name. Returns the value to which they lead. Returns `None` if
    /// no such value exists, or if it, this value or a value on the way is taken. If `names` is empty, returns this
    /// value, even if it is taken.
    fn found_at(&self, names: &[Key<'de>]) -> Option<&Self>
        ensures { option_map (λ v. view v.now) result ≡ value_named (map name_in names.now) (view self.now) }
    {
        match names {
            [name, rest @ ..] => self.entry_at(name)?.found_at(rest),
            [] => Some(self),
        }
    }

    /// Returns the value that `pointer` names, or `None` if it names no value. The method `pointer` does the same for a
    /// pointer that is a string.
    ///
    /// In each table on the way, takes time logarithmic in the number of entries. Allocates nothing.
    pub fn at(&self, pointer: &Pointer<'de>) -> Option<&Self>
        ensures { option_map (λ v. view v.now) result ≡ value_named (names_in pointer.now.names) (view self.now) }
    {
        self.found_at(pointer.names.as_slice())
    }
}
