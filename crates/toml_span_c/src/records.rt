//! The values of a document as records.
ghost use Rattle.std.specs.Prelude.{◌≡◌, option_map};
ghost use Rattle.toml_span_tree.specs.Value.{inner_view};
ghost use Rattle.toml_span_c.specs.Records as spec;

use toml_span_tree::ValueInner;

/// The index of a record that does not exist: the parent of the root.
pub const NONE: usize = usize::MAX;

/// The value of the field `number` in the record of a value that is not a float.
pub const NO_NUMBER: f64 = 0.0;

/// A range of byte offsets in the document, end exclusive.
#[repr(C)]
#[derive(Clone, Copy)]
pub struct Range {
    pub start: usize,
    pub end: usize,
}

/// Where the bytes of a text are, and how many.
#[repr(C)]
#[derive(Clone, Copy)]
pub struct Text {
    /// 0 if the bytes are in the document, 1 if they are in the array of strings.
    pub source: usize,
    /// The offset of the first byte.
    pub at: usize,
    pub length: usize,
}

/// A value of a document. Fields that do not apply to the value are 0 or empty, except that the root's `parent` is
/// `NONE`.
#[repr(C)]
#[derive(Clone, Copy)]
pub struct Record {
    /// 1 string, 2 integer, 3 float, 4 boolean, 5 date or time, 6 array, 7 table.
    pub kind: u32,
    /// 1 for `true`, otherwise 0.
    pub boolean: u32,
    /// The span of the value.
    pub span: Range,
    /// The span of the value's key, or `0..0` if it has none.
    pub key_span: Range,
    /// The name of the value's key, or an empty text if it has none.
    pub key: Text,
    /// The text of a string, float, date or time.
    pub text: Text,
    /// The index of the parent's record, or `NONE` for the root.
    pub parent: usize,
    /// The position of the value in its parent, counted from 0. The entries of a table are in the order of their names.
    pub position: usize,
    /// The number of elements of an array, or of entries of a table.
    pub children: usize,
    /// The index of the first record after those of this value and of all values inside it.
    pub next: usize,
    /// The value of an integer.
    pub integer: i64,
    /// The value of a float: the number nearest to its text.
    pub number: f64,
}

/// The number of records, and the number of bytes of all strings.
#[repr(C)]
#[derive(Clone, Copy)]
pub struct Counts {
    pub nodes: usize,
    pub strings: usize,
}

/// Returns the number of a value's kind.
#[inline(always)]
pub(crate) fn kind_of(inner: &ValueInner<'_>) -> u32
    ensures { result ≡ spec.kind_number (inner_view inner.now) }
{
    match inner {
        ValueInner::String(_) => 1,
        ValueInner::Integer(_) => 2,
        ValueInner::Float(_) => 3,
        ValueInner::Boolean(_) => 4,
        ValueInner::Datetime(_) => 5,
        ValueInner::Array(_) => 6,
        ValueInner::Table(_) => 7,
    }
}

/// Returns 1 for `true`, otherwise 0.
pub(crate) fn boolean_of(inner: &ValueInner<'_>) -> u32
    ensures { result ≡ spec.boolean_of (inner_view inner.now) }
{
    match inner {
        ValueInner::Boolean(true) => 1,
        _ => 0,
    }
}

/// Returns the value of an integer, otherwise 0.
pub(crate) fn integer_of(inner: &ValueInner<'_>) -> i64
    ensures { result ≡ spec.integer_of (inner_view inner.now) }
{
    match inner {
        ValueInner::Integer(number) => *number,
        _ => 0,
    }
}

/// Returns the number nearest to the text of a float, otherwise 0.0.
pub(crate) fn number_of(inner: &ValueInner<'_>) -> f64
    ensures { result ≡ spec.number_of (inner_view inner.now) }
{
    match inner {
        ValueInner::Float(float) => match fast_float::parse::<f64, _>(float.text()) {
            Ok(number) => number,
            Err(_) => NO_NUMBER,
        },
        _ => NO_NUMBER,
    }
}

/// Returns the number of elements of an array or entries of a table, otherwise 0.
pub(crate) fn children_of(inner: &ValueInner<'_>) -> usize
    ensures { result ≡ spec.children_of (inner_view inner.now) }
{
    match inner {
        ValueInner::Array(elements) => elements.as_slice().len(),
        ValueInner::Table(table) => table.len(),
        _ => 0,
    }
}

/// Returns the text of a string, float, date or time, otherwise `None`.
pub(crate) fn text_of<'a>(inner: &'a ValueInner<'_>) -> Option<&'a str>
    ensures { option_map (λ text. text.now) result ≡ spec.text_of (inner_view inner.now) }
{
    match inner {
        ValueInner::String(text) => Some(text.as_ref()),
        ValueInner::Float(float) => Some(float.text()),
        ValueInner::Datetime(date) => Some(date.text()),
        _ => None,
    }
}
