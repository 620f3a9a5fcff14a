//! The tree of values.
ghost use Rattle.std.specs.Prelude.{◌≡◌, Some, None, IfOk, IfErr, option_map, option_and_then, unwrap_or, is_some};
ghost use Rattle.std.specs.Prelude.{codes, false};
ghost use Rattle.std.specs.Cow.{cow_str_bytes};
ghost use Rattle.toml_span_tree.specs.Value.{items_view, members_view, all_whole as all_whole_items, all_members_whole};

use crate::date::DateText;
use crate::error::{Error, ErrorKind};
use crate::float::FloatText;
use std::borrow::CowStr;
use std::collections::BTreeMap;
use std::fmt;
use std::fmt::{Debug, Formatter, Write};
use toml_span_lex::key::Key;
use toml_span_lex::span::Span;

/// An array: its elements in order.
pub type Array<'de> = Vec<Value<'de>>;

/// A table: its entries in the order of their names, by bytes.
pub type Table<'de> = BTreeMap<Key<'de>, Value<'de>>;

/// The content of a value: its kind and what it holds.
#[cycle(tree)]
#[derive(Debug, Drop)]
pub enum ValueInner<'de> {
    String(CowStr<'de>),
    Integer(i64),
    Float(FloatText),
    Boolean(bool),
    Datetime(DateText<'de>),
    Array(Array<'de>),
    Table(Table<'de>),
}

/// A value with its span. A typed read may have taken its content.
#[cycle(tree)]
#[derive(Drop)]
pub struct Value<'de> {
    pub(crate) value: Option<ValueInner<'de>>,
    /// The bytes of the value in the document, end exclusive. The span of a string excludes its quotes; an empty
    /// single-line string has the span of its opening quote. A table or array of tables that headers open or pass
    /// through has the span of the first such header's section. A table that only dotted keys define has the span of
    /// the first value that they assign. The root spans the whole text.
    pub span: Span,
}

impl Debug for Value<'_> {
    #[cycle(tree)]
    fn fmt<W: Write>(&self, f: &mut Formatter<W>) -> fmt::Result {
        match &self.value {
            Some(inner) => write!(f, "{inner:?}"),
            None => f.write_str("taken"),
        }
    }
}

impl<'de> Value<'de> {
    ghost use Rattle.toml_span_tree.specs.Error.{content_of};
    ghost use Rattle.toml_span_tree.specs.Node.{node, taken, get_member};
    ghost use Rattle.toml_span_tree.specs.Value.{view, inner_view, date_bytes, float_value, items_view, members_view};
    ghost use Rattle.toml_span_tree.specs.Value.{inner_of, is_taken as is_taken_node, is_whole as is_whole_node};
    ghost use Rattle.toml_span_tree.specs.Value.{text_in, integer_in, float_in, boolean_in, datetime_in, items_in};
    ghost use Rattle.toml_span_tree.specs.Value.{members_in, kind_name, wrong_kind, has_members};

    /// Returns a value with this content and the span 0..0.
    pub fn new(value: ValueInner<'de>) -> Self
        ensures { view result ≡ node (inner_view value.entry) (record { start = 0; end = 0 }) }
    {
        Self::with_span(value, Span::default())
    }

    /// Returns a value with this content and this span.
    pub fn with_span(value: ValueInner<'de>, span: Span) -> Self
        ensures view { view result ≡ node (inner_view value.entry) span }
        ensures kept { (result.value ≡ Some value.entry) × (result.span ≡ span) }
    {
        Value {
            value: Some(value),
            span,
        }
    }

    /// Sets the content to `value`, even if the old content has been taken. The span stays the same.
    pub fn set(&mut self, value: ValueInner<'de>)
        ensures { view self.new ≡ node (inner_view value.entry) self.old.span }
    {
        drop(self.value.replace(value));
    }

    /// Returns whether the content has been taken. Does not look at the values inside.
    pub fn is_taken(&self) -> bool
        ensures { result ≡ is_taken_node (view self.now) }
    {
        self.value.is_none()
    }

    /// Returns whether this value and all values inside it, at any depth, still have their contents.
    #[cycle(whole)]
    pub fn is_whole(&self) -> bool
        ensures { result ≡ is_whole_node (view self.now) }
    {
        match &self.value {
            Some(inner) => inner.is_whole(),
            None => false,
        }
    }

    /// Takes the content out, and leaves the value taken. The span stays the same. Callers must prove that the content
    /// has not been taken already (`is_taken`).
    pub fn take(&mut self) -> ValueInner<'de>
        requires { is_taken_node (view self.old) ≡ false }
        ensures given { view self.old ≡ node (inner_view result) self.old.span }
        ensures kept { self.old.value ≡ Some result }
        ensures taken { view self.new ≡ node taken self.old.span }
    {
        match self.value.take() {
            Some(inner) => inner,
            None => unreachable!(),
        }
    }

    /// Returns the content. Callers must prove that it has not been taken (`is_taken`).
    pub fn as_ref(&self) -> &ValueInner<'de>
        requires { is_taken_node (view self.now) ≡ false }
        ensures { view self.now ≡ node (inner_view result.now) self.now.span }
    {
        match &self.value {
            Some(held) => held,
            None => unreachable!(),
        }
    }

    /// Takes the content out, and returns it if it is a string. Callers must prove that it has not been taken already.
    ///
    /// If the value is of another kind, fails with `Wanted` at the value's span: `expected` is `msg`, or "a string" if
    /// `msg` is `None`, and `found` is the name of the kind. The content is taken even then.
    pub fn take_string<'s>(&mut self, msg: Option<&'s str>) -> Result<CowStr<'de>, Error<'s>>
        requires { is_taken_node (view self.old) ≡ false }
        ensures text { IfOk result (λ text. text_in (inner_of (view self.old)) ≡ Some (cow_str_bytes text)) }
        ensures refused { IfErr result (λ error. (text_in (inner_of (view self.old)) ≡ None)
            × (content_of error
            ≡ wrong_kind (unwrap_or (option_map (λ m. m.now) msg.entry) (codes "a string")) (view self.old))) }
        ensures taken { view self.new ≡ node taken self.old.span }
    {
        let span = self.span;
        match self.take() {
            ValueInner::String(text) => Ok(text),
            other => Err(Error {
                kind: ErrorKind::Wanted {
                    expected: msg.unwrap_or("a string"),
                    found: other.type_str(),
                },
                span,
                line_info: None,
            }),
        }
    }

    /// Returns whether this is a table with at least one entry.
    pub fn has_keys(&self) -> bool
        ensures { result ≡ has_members (inner_of (view self.now)) }
    {
        match self.as_table() {
            Some(table) => !table.is_empty(),
            None => false,
        }
    }

    /// Returns whether this is a table with an entry of this name.
    pub fn has_key(&self, key: &'de str) -> bool
        ensures { result ≡ is_some (option_and_then (get_member key.now) (members_in (inner_of (view self.now)))) }
    {
        // Toolchain: a map can be searched only for keys with the lifetime of its own keys ("a type argument names two
        // lifetimes that the function keeps apart"), so `key` must live as long as the document.
        match self.as_table() {
            Some(table) => table.contains_key(&Key::named(key)),
            None => false,
        }
    }

    /// Returns the name of the kind, such as `integer` (see `ValueInner::type_str`), or an empty string if the content
    /// has been taken.
    pub fn type_str(&self) -> &'static str
        ensures { result.now ≡ kind_name (inner_of (view self.now)) }
    {
        match &self.value {
            Some(inner) => inner.type_str(),
            None => "",
        }
    }

    /// Returns the content if it is a string, or `None` if it is of another kind or has been taken.
    pub fn as_str(&self) -> Option<&str>
        ensures { option_map (λ s. s.now) result ≡ text_in (inner_of (view self.now)) }
    {
        match &self.value {
            Some(inner) => inner.as_str(),
            None => None,
        }
    }

    /// Returns the content if it is a table, or `None` if it is of another kind or has been taken.
    pub fn as_table(&self) -> Option<&Table<'de>>
        ensures { option_map (λ table. members_view table.now.entries) result ≡ members_in (inner_of (view self.now)) }
    {
        match &self.value {
            Some(inner) => inner.as_table(),
            None => None,
        }
    }

    /// Returns the content if it is an array, or `None` if it is of another kind or has been taken.
    pub fn as_array(&self) -> Option<&Array<'de>>
        ensures { option_map (λ array. items_view array.now.items) result ≡ items_in (inner_of (view self.now)) }
    {
        match &self.value {
            Some(inner) => inner.as_array(),
            None => None,
        }
    }

    /// Returns the content if it is an integer, or `None` if it is of another kind or has been taken.
    pub fn as_integer(&self) -> Option<i64>
        ensures { result ≡ integer_in (inner_of (view self.now)) }
    {
        match &self.value {
            Some(inner) => inner.as_integer(),
            None => None,
        }
    }

    /// Returns the content if it is a float, or `None` if it is of another kind or has been taken.
    pub fn as_float(&self) -> Option<&FloatText>
        ensures { option_map (λ x. float_value x.now) result ≡ float_in (inner_of (view self.now)) }
    {
        match &self.value {
            Some(inner) => inner.as_float(),
            None => None,
        }
    }

    /// Returns the content if it is a boolean, or `None` if it is of another kind or has been taken.
    pub fn as_bool(&self) -> Option<bool>
        ensures { result ≡ boolean_in (inner_of (view self.now)) }
    {
        match &self.value {
            Some(inner) => inner.as_bool(),
            None => None,
        }
    }

    /// Returns the content if it is a date or time, or `None` if it is of another kind or has been taken.
    pub fn as_datetime(&self) -> Option<&DateText<'de>>
        ensures { option_map (λ date. date_bytes date.now) result ≡ datetime_in (inner_of (view self.now)) }
    {
        match &self.value {
            Some(inner) => inner.as_datetime(),
            None => None,
        }
    }
}

impl<'de> ValueInner<'de> {
    ghost use Rattle.toml_span_tree.specs.Value.{inner_view, holds_whole, date_bytes, float_value, items_view};
    ghost use Rattle.toml_span_tree.specs.Value.{members_view, text_in, integer_in, float_in, boolean_in, datetime_in};
    ghost use Rattle.toml_span_tree.specs.Value.{items_in, members_in, kind_name};

    /// Returns the name of the kind: `string`, `integer`, `float`, `boolean`, `datetime`, `array` or `table`.
    pub fn type_str(&self) -> &'static str
        ensures { result.now ≡ kind_name (inner_view self.now) }
    {
        match self {
            ValueInner::String(_) => "string",
            ValueInner::Integer(_) => "integer",
            ValueInner::Float(_) => "float",
            ValueInner::Boolean(_) => "boolean",
            ValueInner::Datetime(_) => "datetime",
            ValueInner::Array(_) => "array",
            ValueInner::Table(_) => "table",
        }
    }

    #[cycle(whole)]
    /// Returns whether all values inside, at any depth, still have their contents.
    fn is_whole(&self) -> bool
        ensures { result ≡ holds_whole (inner_view self.now) }
    {
        match self {
            ValueInner::Array(array) => all_whole(array.as_slice()),
            ValueInner::Table(table) => all_entries_whole(table),
            _ => true,
        }
    }

    /// Returns the string, or `None` if the content is of another kind.
    pub fn as_str(&self) -> Option<&str>
        ensures { option_map (λ s. s.now) result ≡ text_in (inner_view self.now) }
    {
        match self {
            ValueInner::String(text) => Some(text.as_ref()),
            _ => None,
        }
    }

    /// Returns the entries, or `None` if the content is not a table.
    pub fn as_table(&self) -> Option<&Table<'de>>
        ensures { option_map (λ table. members_view table.now.entries) result ≡ members_in (inner_view self.now) }
    {
        match self {
            ValueInner::Table(table) => Some(table),
            _ => None,
        }
    }

    /// Returns the elements, or `None` if the content is not an array.
    pub fn as_array(&self) -> Option<&Array<'de>>
        ensures { option_map (λ array. items_view array.now.items) result ≡ items_in (inner_view self.now) }
    {
        match self {
            ValueInner::Array(array) => Some(array),
            _ => None,
        }
    }

    /// Returns the number, or `None` if the content is not an integer.
    pub fn as_integer(&self) -> Option<i64>
        ensures { result ≡ integer_in (inner_view self.now) }
    {
        match self {
            ValueInner::Integer(number) => Some(*number),
            _ => None,
        }
    }

    /// Returns the float, or `None` if the content is of another kind.
    pub fn as_float(&self) -> Option<&FloatText>
        ensures { option_map (λ x. float_value x.now) result ≡ float_in (inner_view self.now) }
    {
        match self {
            ValueInner::Float(float) => Some(float),
            _ => None,
        }
    }

    /// Returns the boolean, or `None` if the content is of another kind.
    pub fn as_bool(&self) -> Option<bool>
        ensures { result ≡ boolean_in (inner_view self.now) }
    {
        match self {
            ValueInner::Boolean(truth) => Some(*truth),
            _ => None,
        }
    }

    /// Returns the date or time, or `None` if the content is of another kind.
    pub fn as_datetime(&self) -> Option<&DateText<'de>>
        ensures { option_map (λ date. date_bytes date.now) result ≡ datetime_in (inner_view self.now) }
    {
        match self {
            ValueInner::Datetime(date) => Some(date),
            _ => None,
        }
    }
}

#[cycle(whole)]
/// Returns whether all `values`, and all values inside them, still have their contents.
fn all_whole(values: &[Value<'_>]) -> bool
    ensures { result ≡ all_whole_items (items_view values.now) }
{
    for value in values {
        if !value.is_whole() {
            return false;
        }
    }
    true
}

#[cycle(whole)]
/// Returns whether the values of all entries of `table`, and all values inside them, still have their contents.
fn all_entries_whole(table: &Table<'_>) -> bool
    ensures { result ≡ all_members_whole (members_view table.now.entries) }
{
    for (_key, value) in table.iter() {
        if !value.is_whole() {
            return false;
        }
    }
    true
}
