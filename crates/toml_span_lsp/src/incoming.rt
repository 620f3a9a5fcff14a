//! Reads messages from the client (JSON-RPC 2.0).
ghost use Rattle.std.specs.Prelude.{◌≡◌, IfSome, None, Ok, Some, codes, map, option_and_then, option_map};
ghost use Rattle.json.specs.Find.{as_str, get};
ghost use Rattle.json.specs.Token.{Token};
ghost use Rattle.json.specs.Value.{value_view};
ghost use Rattle.toml_span_lsp.specs.Messages as spec;
ghost use Rattle.toml_span_lsp.specs.Messages.{HasId, IsNotification, IsRequest};
ghost use Rattle.toml_span_lsp.specs.Params as params;
ghost use Rattle.toml_span_lsp.specs.Phases.{IsReadAs};

use json::Value;
use toml_span_editor::positions::{Position, Range};

/// The id of a request.
#[derive(Clone, Copy)]
pub(crate) enum Id<'v> {
    Null,
    Number(i64),
    Text(&'v str),
}

/// A request or a notification.
#[derive(Clone, Copy)]
pub(crate) struct Call<'v, 'j> {
    /// The id of a request. `None` for a notification.
    pub id: Option<Id<'v>>,
    pub method: &'v str,
    pub params: &'v Value<'j>,
}

/// A message.
#[derive(Clone, Copy)]
pub(crate) enum Message<'v, 'j> {
    Call(Call<'v, 'j>),
    /// A response to a request of the server: the request's id, and the result, or `None` if the response has no
    /// result.
    Response(Id<'v>, Option<&'v Value<'j>>),
    /// A value that is not a message of JSON-RPC 2.0, with its id. The id is `Null` if the value has no valid id.
    Invalid(Id<'v>),
}

/// Returns the id of a message, or `None` if the message has none. Fails if the id is not an integer, a string or null.
fn id_of<'v, 'j>(message: &'v Value<'j>) -> Result<Option<Id<'v>>, ()>
    ensures none { get (codes "id") (value_view message.now) ≡ None → result ≡ Ok None }
    ensures some { (id : Token) → HasId (value_view message.now) id → spec.read_id result ≡ Some id }
    ensures absent { result ≡ Ok None → get (codes "id") (value_view message.now) ≡ None }
{
    match message.get("id") {
        None => Ok(None),
        Some(Value::Null) => Ok(Some(Id::Null)),
        Some(Value::String(text)) => Ok(Some(Id::Text(*text))),
        Some(id) => match id.as_i64() {
            Some(number) => Ok(Some(Id::Number(number))),
            None => Err(()),
        },
    }
}

/// Reads a JSON value as a message. The `params` of a call without parameters are the whole message.
pub(crate) fn message_of<'v, 'j>(value: &'v Value<'j>) -> Message<'v, 'j>
    ensures request { (id : Token) → IsRequest (value_view value.now) id → spec.awaited result ≡ Some id }
    ensures notification { IsNotification (value_view value.now) → spec.awaited result ≡ None }
    ensures read { IsReadAs (value_view value.now) result }
{
    let Ok(id) = id_of(value) else {
        return Message::Invalid(Id::Null);
    };
    let known = id.unwrap_or(Id::Null);
    if value.get("jsonrpc").and_then(|version| version.as_str()) != Some("2.0") {
        return Message::Invalid(known);
    }
    match value.get("method") {
        Some(Value::String(method)) => Message::Call(Call {
            id,
            method: *method,
            params: value.get("params").unwrap_or(value),
        }),
        Some(_) => Message::Invalid(known),
        None if value.get("result").is_some() || value.get("error").is_some() => {
            Message::Response(known, value.get("result"))
        }
        None => Message::Invalid(known),
    }
}

/// Returns the value at the path `names` in the nested objects of `value`, or `None` if a member of the path is
/// missing.
pub(crate) fn member<'v, 'j>(value: &'v Value<'j>, names: &[&str]) -> Option<&'v Value<'j>>
    ensures { option_map (λ v. value_view v.now) result
        ≡ params.member_at (map (λ s. s.now) names.now) (value_view value.now) }
{
    let [name, rest @ ..] = names else {
        return Some(value);
    };
    member(value.get(*name)?, rest)
}

/// Returns the string at the path `names` in the nested objects of `value`. Returns `None` if a member of the path is
/// missing, or if the last member is not a string.
pub(crate) fn text_in<'v>(value: &'v Value<'_>, names: &[&str]) -> Option<&'v str>
    ensures { option_map (λ s. s.now) result
        ≡ option_and_then as_str (params.member_at (map (λ s. s.now) names.now) (value_view value.now)) }
{
    member(value, names)?.as_str()
}

/// Returns the number in the member `name`, or `None` if the member is missing or not an integer of at least 0.
pub(crate) fn count_in(value: &Value<'_>, name: &str) -> Option<usize>
    ensures { IfSome result (params.HasCount name.now (value_view value.now)) }
{
    let count = value.get(name)?.as_u64()?;
    usize::try_from(count).ok()
}

/// Reads a JSON value as a position. Returns `None` if `line` or `character` is missing or not valid.
pub(crate) fn position_of(value: &Value<'_>) -> Option<Position>
    ensures { IfSome result (params.IsPosition (value_view value.now)) }
{
    Some(Position {
        line: count_in(value, "line")?,
        character: count_in(value, "character")?,
    })
}

/// Reads a JSON value as a range. Returns `None` if `start` or `end` is missing or not valid.
pub(crate) fn range_of(value: &Value<'_>) -> Option<Range>
    ensures { IfSome result (params.IsRange (value_view value.now)) }
{
    Some(Range {
        start: position_of(value.get("start")?)?,
        end: position_of(value.get("end")?)?,
    })
}
