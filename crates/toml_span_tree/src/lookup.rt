//! Look-ups by strings that need not live as long as the document. Each `/` of a pointer begins a segment: `/a/b` has
//! the segments `a` and `b`.
ghost use Rattle.std.specs.Prelude.{◌≡◌, option_map};
ghost use Rattle.toml_span_tree.specs.Node.{get_member};
ghost use Rattle.toml_span_tree.specs.code.Pointer.{entry, value_named, untaken_entry};
ghost use Rattle.toml_span_tree.specs.Pointer.{pointed, segments};
ghost use Rattle.toml_span_tree.specs.Value.{inner_view, members_view, view};

mod compiled;

use crate::pointer::{array_entry, cut};
use crate::value::{Table, Value, ValueInner};
pub use compiled::Pointer;

/// Returns the value of the entry with this name, or `None` if the table has no such entry. Compares `name` with the
/// names of the entries one by one.
pub fn entry_named<'v, 'de>(table: &'v Table<'de>, name: &str) -> Option<&'v Value<'de>>
    ensures { option_map (λ v. view v.now) result ≡ get_member name.now (members_view table.now.entries) }
{
    for (key, value) in table.iter() {
        if name == key.name.as_str() {
            return Some(value);
        }
    }
    None
}

impl<'de> ValueInner<'de> {
    /// Returns the value that `segment` selects: in a table, the value of the entry with this name; in an array, the
    /// element at this position. Returns `None` if no such value exists.
    fn entry_of(&self, segment: &str) -> Option<&Value<'de>>
        ensures { option_map (λ v. view v.now) result ≡ entry segment.now (inner_view self.now) }
    {
        match self {
            ValueInner::Table(table) => entry_named(table, segment),
            ValueInner::Array(array) => array_entry(array, segment),
            _ => None,
        }
    }
}

/// Returns the value that `segment` selects in `value`. Returns `None` if no such value exists, or if the content of
/// `value` or of the selected value has been taken.
pub fn child_of<'v, 'de>(value: &'v Value<'de>, segment: &str) -> Option<&'v Value<'de>>
    ensures { option_map (λ v. view v.now) result ≡ untaken_entry segment.now (view value.now) }
{
    match &value.value {
        Some(inner) => inner.entry_of(segment)?.if_untaken(),
        None => None,
    }
}

impl<'de> Value<'de> {
    /// Follows the segments of `path`, a pointer without its first `/`, from this value. Returns the value to which
    /// they lead. Returns `None` if no such value exists, or if it, this value or a value on the way is taken.
    fn found_by(&self, path: &str) -> Option<&Self>
        ensures { option_map (λ v. view v.now) result ≡ value_named (segments path.now) (view self.now) }
    {
        let (segment, rest) = cut(path);
        let child = child_of(self, segment)?;
        match rest {
            Some(rest) => child.found_by(rest),
            None => Some(child),
        }
    }

    /// Returns the value that `pointer` names, or `None` if it names no value. The method `pointer` does the same, but
    /// its string must live as long as the document. Here the string can be built at run time.
    ///
    /// In each table on the way, takes time linear in the number of entries, since it compares names one by one. For
    /// large tables or repeated look-ups, use a `Pointer` and `at`.
    pub fn look_up(&self, pointer: &str) -> Option<&Self>
        ensures { option_map (λ v. view v.now) result ≡ pointed pointer.now (view self.now) }
    {
        if pointer.is_empty() {
            return Some(self);
        }
        self.found_by(pointer.strip_prefix('/')?)
    }
}
