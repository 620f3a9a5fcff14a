//! Compares trees without regard to spans.
ghost use Rattle.std.specs.Prelude.{◌≡◌};
ghost use Rattle.toml_span_tree.specs.Value.{inner_view, items_view, members_view, view};
ghost use Rattle.toml_span_edit.specs.Same as spec;

use toml_span::value::{Table, Value, ValueInner};

/// Returns whether two trees have the same keys and values at the same paths. Spans and the spelling of strings and
/// integers are ignored. Floats and dates are compared by their texts. A taken value equals only another taken value.
#[cycle(same)]
pub fn same_tree(tree: &Value<'_>, other: &Value<'_>) -> bool
    ensures { result ≡ spec.same (view tree.now) (view other.now) }
{
    if tree.is_taken() || other.is_taken() {
        return tree.is_taken() && other.is_taken();
    }
    let (inner, other) = (tree.as_ref(), other.as_ref());
    match inner {
        ValueInner::Array(items) => match other {
            ValueInner::Array(others) => same_items(items.as_slice(), others.as_slice()),
            _ => false,
        },
        ValueInner::Table(table) => match other {
            ValueInner::Table(others) => same_entries(table, others),
            _ => false,
        },
        _ => same_scalar(inner, other),
    }
}

/// Returns whether both values are equal scalars of the same kind. Floats and dates are compared by their texts.
fn same_scalar(inner: &ValueInner<'_>, other: &ValueInner<'_>) -> bool
    ensures { result ≡ spec.same_scalars (inner_view inner.now) (inner_view other.now) }
{
    match (inner, other) {
        (ValueInner::String(text), ValueInner::String(other)) => text.as_str() == other.as_str(),
        (ValueInner::Integer(number), ValueInner::Integer(other)) => *number == *other,
        (ValueInner::Float(float), ValueInner::Float(other)) => float.text() == other.text(),
        (ValueInner::Boolean(truth), ValueInner::Boolean(other)) => *truth == *other,
        (ValueInner::Datetime(date), ValueInner::Datetime(other)) => date.text() == other.text(),
        _ => false,
    }
}

/// Returns whether two lists have the same length and the same values in the same order.
#[cycle(same)]
pub(crate) fn same_items(items: &[Value<'_>], others: &[Value<'_>]) -> bool
    ensures { result ≡ spec.same_items (items_view items.now) (items_view others.now) }
{
    let mut rest = others.iter();
    for item in items {
        let Some(other) = rest.next() else {
            return false;
        };
        if !same_tree(item, other) {
            return false;
        }
    }
    rest.next().is_none()
}

/// Returns whether two tables have the same names with the same values.
#[cycle(same)]
fn same_entries(table: &Table<'_>, others: &Table<'_>) -> bool
    ensures { result ≡ spec.same_members (members_view table.now.entries) (members_view others.now.entries) }
{
    let mut rest = others.iter();
    for (key, value) in table.iter() {
        let Some((other_key, other)) = rest.next() else {
            return false;
        };
        if key.name.as_str() != other_key.name.as_str() || !same_tree(value, other) {
            return false;
        }
    }
    rest.next().is_none()
}
