//! Writes messages to the client, and parts of messages.
ghost use Rattle.std.specs.Prelude.{◌≡◌, ◌++◌, IfOk, OnOk, [], map, option_map};
ghost use Rattle.std.specs.Option.{option_to_list};
ghost use Rattle.toml_span_lsp.specs.Messages as spec;
ghost use Rattle.toml_span_lsp.specs.Messages.{IsCall, IsMessage, IsResponse, Sends};

use crate::incoming::Id;
use crate::methods::Request;
use json::{Scratch, Value, Writer};
use std::alloc::{AllocError, Global};
use toml_span_editor::edits::Edit;
use toml_span_editor::positions::{Position, Range};
use toml_span_editor::table::PositionTable;

/// Writes a JSON value. If an allocation fails, only `finish` says so.
#[derive(Drop)]
pub(crate) struct Json {
    writer: Writer,
    has_failed: bool,
}

impl Json {
    pub(crate) fn new(alloc: Global) -> Json {
        Json {
            writer: Writer::new(Vec::new(alloc)),
            has_failed: false,
        }
    }

    /// Returns the text of the value. Fails if an allocation has failed.
    fn finish(self) -> Result<Vec<u8>, AllocError> {
        let Json { writer, has_failed } = self;
        if has_failed {
            return Err(AllocError);
        }
        Ok(writer.into_inner())
    }

    /// Stores whether an allocation has failed.
    fn keep(&mut self, written: Result<(), AllocError>) {
        self.has_failed = self.has_failed || written.is_err();
    }

    pub(crate) fn begin_object(&mut self) {
        let written = self.writer.begin_object();
        self.keep(written);
    }

    pub(crate) fn end_object(&mut self) {
        let written = self.writer.end_object();
        self.keep(written);
    }

    pub(crate) fn begin_array(&mut self) {
        let written = self.writer.begin_array();
        self.keep(written);
    }

    pub(crate) fn end_array(&mut self) {
        let written = self.writer.end_array();
        self.keep(written);
    }

    /// Writes the name of a member. The caller must write its value next.
    pub(crate) fn key(&mut self, name: &str) {
        let written = self.writer.key(name);
        self.keep(written);
    }

    pub(crate) fn string(&mut self, text: &str) {
        let written = self.writer.string(text);
        self.keep(written);
    }

    pub(crate) fn count(&mut self, count: usize) {
        let written = self.writer.u64(count as u64);
        self.keep(written);
    }

    pub(crate) fn integer(&mut self, number: i64) {
        let written = self.writer.i64(number);
        self.keep(written);
    }

    pub(crate) fn null(&mut self) {
        let written = self.writer.null();
        self.keep(written);
    }

    /// Writes the value of a JSON text.
    pub(crate) fn json(&mut self, alloc: Global, text: &str) {
        let mut scratch = Scratch::new(alloc);
        let written = match Value::parse(alloc, text, &mut scratch) {
            Ok(value) => self.writer.value(&value),
            Err(_) => Err(AllocError),
        };
        self.keep(written);
    }

    /// Writes a member whose value is a string.
    pub(crate) fn text(&mut self, name: &str, value: &str) {
        self.key(name);
        self.string(value);
    }

    /// Writes a member whose value is a number.
    pub(crate) fn number(&mut self, name: &str, value: usize) {
        self.key(name);
        self.count(value);
    }

    /// Writes a member whose value is a boolean.
    pub(crate) fn flag(&mut self, name: &str, value: bool) {
        self.key(name);
        let written = self.writer.boolean(value);
        self.keep(written);
    }

    /// Begins a member whose value is an object.
    pub(crate) fn object(&mut self, name: &str) {
        self.key(name);
        self.begin_object();
    }

    /// Begins a member whose value is an array.
    pub(crate) fn array(&mut self, name: &str) {
        self.key(name);
        self.begin_array();
    }

    /// Writes a member whose value is a position.
    fn position(&mut self, name: &str, position: Position) {
        self.object(name);
        self.number("line", position.line);
        self.number("character", position.character);
        self.end_object();
    }

    /// Writes a member whose value is a range.
    pub(crate) fn range(&mut self, name: &str, range: Range) {
        self.object(name);
        self.position("start", range.start);
        self.position("end", range.end);
        self.end_object();
    }
}

/// A notification or a request of the server.
#[derive(Drop)]
pub(crate) struct ServerCall {
    /// The id of a request. `None` for a notification.
    id: Option<&'static str>,
    method: &'static str,
    params: Json,
}

impl ServerCall {
    pub(crate) fn new(id: Option<&'static str>, method: &'static str, params: Json) -> ServerCall {
        ServerCall { id, method, params }
    }

    /// Returns the message. Fails if an allocation fails, or has failed for the parameters.
    fn message(self, alloc: Global) -> Result<Vec<u8>, AllocError>
        ensures { IfOk result (λ message. IsCall message.items) }
    {
        let ServerCall { id, method, params } = self;
        let head = call_head(alloc, id, method)?;
        end(head, params)
    }
}

/// Notifications and requests to send, in order. If an allocation fails, only `finish` says so.
#[derive(Drop)]
pub(crate) struct Outbox {
    calls: Vec<ServerCall>,
    has_failed: bool,
}

impl Outbox {
    pub(crate) fn new(alloc: Global) -> Outbox {
        Outbox {
            calls: Vec::new(alloc),
            has_failed: false,
        }
    }

    pub(crate) fn add(&mut self, call: ServerCall) {
        self.has_failed = self.calls.push(call).is_err() || self.has_failed;
    }

    /// Returns the messages to send: the response, if there is one, and then the notifications and requests. Fails if
    /// an allocation fails or has failed.
    pub(crate) fn finish(
        self,
        alloc: Global,
        response: Option<Vec<u8>>,
    ) -> Result<Vec<Vec<u8>>, AllocError>
        ensures { IfOk result (λ messages. Sends (option_map (λ text. text.items) response)
            (map (λ text. text.items) messages.items)) }
    {
        let Outbox { calls, has_failed } = self;
        let mut messages = listed(alloc, response)?;
        for call in calls {
            messages.push(call.message(alloc)?)?;
        }
        if has_failed {
            return Err(AllocError);
        }
        Ok(messages)
    }
}

/// Begins a message with the member `jsonrpc`.
fn begin(alloc: Global) -> Result<Writer, AllocError>
    ensures { IfOk result (λ head. (head.before ≡ []) × (head.tokens ≡ spec.version_member)) }
{
    let mut head = Writer::new(Vec::new(alloc));
    head.begin_object()?;
    head.key("jsonrpc")?;
    head.string("2.0")?;
    Ok(head)
}

/// Ends a message: returns `head`, which ends with the name of a member, the member's value, and the closing brace.
fn end(head: Writer, value: Json) -> Result<Vec<u8>, AllocError>
    ensures { head.before ≡ [] → IfOk result (λ message. IsMessage head.tokens message.items) }
{
    let mut message = head.into_inner();
    message.append(&mut value.finish()?)?;
    message.push(b'}')?;
    Ok(message)
}

/// Writes the member `id`, the id of a request.
fn write_id(head: &mut Writer, id: Id<'_>) -> Result<(), AllocError>
    ensures before { head.new.before ≡ head.old.before }
    ensures tokens { OnOk result (head.new.tokens ≡ head.old.tokens ++ spec.id_member (spec.id_token id.entry)) }
{
    head.key("id")?;
    match id {
        Id::Null => head.null(),
        Id::Number(number) => head.i64(number),
        Id::Text(text) => head.string(text),
    }
}

/// Begins a response, up to the value of the member `name`.
fn response_head(alloc: Global, id: Id<'_>, name: &str) -> Result<Writer, AllocError>
    ensures { IfOk result (λ head. (head.before ≡ [])
        × (head.tokens ≡ spec.response_head (spec.id_token id.entry) name.now)) }
{
    let mut head = begin(alloc)?;
    write_id(&mut head, id)?;
    head.key(name)?;
    Ok(head)
}

/// Writes the member `id`, the id of a request of the server. Writes nothing for a notification.
fn write_optional_id(head: &mut Writer, id: Option<&str>) -> Result<(), AllocError>
    ensures before { head.new.before ≡ head.old.before }
    ensures tokens { OnOk result (head.new.tokens
        ≡ head.old.tokens ++ spec.optional_id (option_map (λ text. text.now) id.entry)) }
{
    match id {
        Some(id) => {
            head.key("id")?;
            head.string(id)
        }
        None => Ok(()),
    }
}

/// Begins a notification or a request of the server, up to the value of the member `params`.
fn call_head(alloc: Global, id: Option<&str>, method: &str) -> Result<Writer, AllocError>
    ensures { IfOk result (λ head. (head.before ≡ [])
        × (head.tokens ≡ spec.call_head (option_map (λ text. text.now) id.entry) method.now)) }
{
    let mut head = begin(alloc)?;
    write_optional_id(&mut head, id)?;
    head.key("method")?;
    head.string(method)?;
    head.key("params")?;
    Ok(head)
}

/// Returns a list of the response, if there is one.
fn listed(alloc: Global, response: Option<Vec<u8>>) -> Result<Vec<Vec<u8>>, AllocError>
    ensures { IfOk result (λ texts. map (λ text. text.items) texts.items
        ≡ option_to_list (option_map (λ text. text.items) response)) }
{
    let mut texts = Vec::new(alloc);
    if let Some(response) = response {
        texts.push(response)?;
    }
    Ok(texts)
}

/// Returns the response to a request.
pub(crate) fn response(alloc: Global, id: Id<'_>, value: Json) -> Result<Vec<u8>, AllocError>
    ensures { IfOk result (λ message. IsResponse (spec.id_token id.entry) message.items) }
{
    let head = response_head(alloc, id, "result")?;
    end(head, value)
}

/// Returns the response that refuses a request.
pub(crate) fn error_response(
    alloc: Global,
    id: Id<'_>,
    code: i64,
    message: &str,
) -> Result<Vec<u8>, AllocError>
    ensures { IfOk result (λ message. IsResponse (spec.id_token id.entry) message.items) }
{
    let head = response_head(alloc, id, "error")?;
    let mut value = Json::new(alloc);
    value.begin_object();
    value.key("code");
    value.integer(code);
    value.text("message", message);
    value.end_object();
    end(head, value)
}

/// Returns the notification `method` with the warning `message`: `window/showMessage`, which shows it to the user, or
/// `window/logMessage`, which adds it to the client's log.
pub(crate) fn warning(alloc: Global, method: &'static str, message: &str) -> ServerCall {
    let mut params = Json::new(alloc);
    params.begin_object();
    params.number("type", 2);
    params.text("message", message);
    params.end_object();
    ServerCall::new(None, method, params)
}

/// Writes a location: the document `uri` and a range in it.
pub(crate) fn write_location(out: &mut Json, uri: &str, range: Range) {
    out.begin_object();
    out.text("uri", uri);
    out.range("range", range);
    out.end_object();
}

/// Writes a list of edits.
pub(crate) fn write_edits(out: &mut Json, table: &PositionTable<'_>, edits: &[Edit]) {
    out.begin_array();
    for edit in edits {
        out.begin_object();
        out.range("range", table.range(edit.span));
        out.text("newText", edit.text.as_str());
        out.end_object();
    }
    out.end_array();
}

/// Writes edits of the document that a request is about as a workspace edit. The edit names the version of the document
/// if the client supports that.
pub(crate) fn write_workspace_edit(request: &Request<'_, '_, '_>, edits: &[Edit], out: &mut Json) {
    out.begin_object();
    if request.client.has_versioned_edits {
        out.array("documentChanges");
        out.begin_object();
        out.object("textDocument");
        out.text("uri", request.uri);
        out.key("version");
        match request.version {
            Some(version) => out.integer(version),
            None => out.null(),
        }
        out.end_object();
        out.key("edits");
        write_edits(out, request.table, edits);
        out.end_object();
        out.end_array();
    } else {
        out.object("changes");
        out.key(request.uri);
        write_edits(out, request.table, edits);
        out.end_object();
    }
    out.end_object();
}

/// Writes a text in Markdown as it is or, if `is_markdown` is not set, as plain text: without backticks and the marks
/// of bold text.
pub(crate) fn write_markup(
    alloc: Global,
    markdown: &str,
    is_markdown: bool,
    out: &mut Json,
) -> Result<(), AllocError> {
    out.begin_object();
    if is_markdown {
        out.text("kind", "markdown");
        out.text("value", markdown);
    } else {
        let mut text = String::new(alloc);
        for part in markdown.split("**") {
            for piece in part.split('`') {
                text.push_str(piece)?;
            }
        }
        out.text("kind", "plaintext");
        out.text("value", text.as_str());
    }
    out.end_object();
    Ok(())
}
