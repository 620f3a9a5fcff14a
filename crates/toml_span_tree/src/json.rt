//! Converts trees to JSON.
ghost use Rattle.std.specs.Prelude.{◌≡◌, ◌++◌, ◌∷◌, [], true, IfOk, OnOk, map, string_bytes};
ghost use Rattle.std.specs.Cow.{cow_str_bytes};
ghost use Rattle.serde_json.specs.Data.{put, string};
ghost use Rattle.serde_json.specs.View.{view as json_view, items_view as json_items_view};
ghost use Rattle.serde_json.specs.View.{members_view as json_members_view};
ghost use Rattle.toml_span_tree.specs.Value.{view, inner_view, items_view, members_view, is_whole};
ghost use Rattle.toml_span_tree.specs.Json.{json_of, json_in, json_items, json_members};

use crate::value::{Array, Table, Value, ValueInner};
use serde_json::{Map, Number, Value as Json};
use std::alloc::{AllocError, Global};
use toml_span_lex::key::Key;

impl Value<'_> {
    /// Converts the value to a JSON value of the same structure, without spans. Floats, dates and times become strings.
    ///
    /// Callers must prove that nothing has been taken from the value (`is_whole`). Fails if an allocation fails.
    pub fn to_json(&self, alloc: Global) -> Result<Json, AllocError>
        requires { is_whole (view self.now) ≡ true }
        ensures { IfOk result (λ json. json_view json ≡ json_of (view self.now)) }
    {
        json_of_value(alloc, self)
    }
}

/// Converts a value and all values inside it. A taken value becomes `null`.
#[cycle(json)]
fn json_of_value(alloc: Global, value: &Value<'_>) -> Result<Json, AllocError>
    ensures { IfOk result (λ json. json_view json ≡ json_of (view value.now)) }
{
    match &value.value {
        Some(inner) => json_of_inner(alloc, inner),
        None => Ok(Json::Null),
    }
}

/// Converts the content of a value.
#[cycle(json)]
fn json_of_inner(alloc: Global, inner: &ValueInner<'_>) -> Result<Json, AllocError>
    ensures { IfOk result (λ json. json_view json ≡ json_in (inner_view inner.now)) }
{
    match inner {
        ValueInner::String(text) => json_of_text(alloc, text.as_ref()),
        ValueInner::Integer(number) => Ok(Json::Number(Number::from(*number))),
        ValueInner::Float(float) => json_of_text(alloc, float.text()),
        ValueInner::Boolean(truth) => Ok(Json::Bool(*truth)),
        ValueInner::Datetime(date) => json_of_text(alloc, date.text()),
        ValueInner::Array(array) => Ok(Json::Array(json_of_elements(alloc, array)?)),
        ValueInner::Table(table) => Ok(Json::Object(json_of_entries(alloc, table)?)),
    }
}

/// Returns a JSON string with a copy of the text.
fn json_of_text(alloc: Global, text: &str) -> Result<Json, AllocError>
    ensures { IfOk result (λ json. json_view json ≡ string text.now) }
{
    Ok(Json::String(String::from_str(alloc, text)?))
}

/// Converts the elements of an array.
#[cycle(json)]
fn json_of_elements(alloc: Global, array: &Array<'_>) -> Result<Vec<Json>, AllocError>
    ensures { IfOk result (λ made. json_items_view made.items ≡ json_items (items_view array.now.items)) }
{
    let mut made = Vec::with_capacity(alloc, array.len())?;
    push_elements(alloc, array.as_slice(), &mut made)?;
    Ok(made)
}

/// Converts the elements, and appends them to `made`. If an allocation fails, some of them may have been appended.
#[cycle(json)]
fn push_elements(
    alloc: Global,
    elements: &[Value<'_>],
    made: &mut Vec<Json>,
) -> Result<(), AllocError>
    ensures { OnOk result (map json_view made.new.items ≡ map json_view made.old.items
        ++ map (λ value. json_of (view value)) elements.now) }
{
    for value in elements {
        let json = json_of_value(alloc, value)?;
        push(made, json)?;
    }
    Ok(())
}

/// Appends `json` to `made`.
fn push(made: &mut Vec<Json>, json: Json) -> Result<(), AllocError>
    ensures { OnOk result (made.new.items ≡ made.old.items ++ json ∷ []) }
{
    made.push(json)?;
    Ok(())
}

/// Converts the entries of a table.
#[cycle(json)]
fn json_of_entries(alloc: Global, table: &Table<'_>) -> Result<Map<String, Json>, AllocError>
    ensures { IfOk result (λ made. json_members_view made.entries ≡ json_members (members_view table.now.entries)) }
{
    let mut made = Map::new(alloc);
    for (key, value) in table.iter() {
        put_entry(alloc, key, value, &mut made)?;
    }
    Ok(made)
}

/// Converts the value of an entry, and inserts it into `made` under the name of the key.
#[cycle(json)]
fn put_entry(
    alloc: Global,
    key: &Key<'_>,
    value: &Value<'_>,
    made: &mut Map<String, Json>,
) -> Result<(), AllocError>
    ensures { OnOk result (json_members_view made.new.entries
        ≡ put (cow_str_bytes key.now.name) (json_of (view value.now)) (json_members_view made.old.entries)) }
{
    let name = String::from_str(alloc, key.name.as_ref())?;
    let json = json_of_value(alloc, value)?;
    insert(made, name, json)
}

/// Inserts `json` into `made` under `name`. Replaces an earlier value with this name.
fn insert(made: &mut Map<String, Json>, name: String, json: Json) -> Result<(), AllocError>
    ensures { OnOk result (json_members_view made.new.entries
        ≡ put (string_bytes name) (json_view json) (json_members_view made.old.entries)) }
{
    drop(made.insert(name, json)?);
    Ok(())
}
