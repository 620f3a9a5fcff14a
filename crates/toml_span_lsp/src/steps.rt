//! One step of the server: takes a message, and returns the messages to send.
ghost use Rattle.std.specs.Prelude.{◌≡◌, IfOk, map, option_map};
ghost use Rattle.toml_span_lsp.specs.Messages as spec;
ghost use Rattle.toml_span_lsp.specs.Messages.{Answers, IsAnswer, IsResponse, Responds};
ghost use Rattle.toml_span_lsp.specs.Phases as phases;
ghost use Rattle.toml_span_lsp.specs.Phases.{AfterContent, AfterMessage, AfterNotification, AfterRequest, AfterText};

use crate::capabilities::{store_client, write_capabilities};
use crate::configuration::{
    check_all, folders_changed, initialized, settings_came, settings_changed,
};
use crate::frames::{Framed, frame};
use crate::incoming::{Call, Id, Message, message_of};
use crate::methods::method_named;
use crate::outgoing::{Json, Outbox, error_response, response, warning};
use crate::reading::{Around, Reading};
use crate::refusal::{
    INVALID_REQUEST, METHOD_NOT_FOUND, NOT_INITIALIZED, PARSE_ERROR, REQUEST_CANCELLED, Refusal,
    refused,
};
use crate::requests::write_result;
use crate::schemas::{follow, settle};
use crate::state::{Phase, Server, State};
use crate::surrogates::without_lone;
use crate::sync::{change, close, open, save};
use crate::waiting::is_cancelled;
use json::{Error, Scratch, Value};
use std::alloc::{AllocError, Global};
use std::mem;
use toml_span_lex::stop::Stop;
use toml_span_lookup::disk::Disk;

/// Writes the result of a request. `known` is as for `write_result`. Fails with a `Refusal` if the request is refused,
/// for example in the wrong phase.
fn write_phased(
    alloc: Global,
    server: &mut Server,
    call: Call<'_, '_>,
    known: Option<&Reading<'_>>,
    out: &mut Json,
) -> Result<(), Stop<Refusal>>
    ensures { AfterRequest call.entry.method.now server.old.phase server.new.phase }
{
    match (server.phase, call.method) {
        (Phase::New, "initialize") => {
            store_client(alloc, &mut server.state, call.params)?;
            write_capabilities(alloc, server.state.encoding, out);
            server.phase = Phase::Running;
            Ok(())
        }
        (Phase::New, _) => Err(refused(alloc, NOT_INITIALIZED, "`initialize` must be first")),
        (Phase::Running, "initialize") => {
            Err(refused(alloc, INVALID_REQUEST, "`initialize` must not be repeated"))
        }
        (Phase::Running, "shutdown") => {
            server.phase = Phase::Shut;
            out.null();
            Ok(())
        }
        (Phase::Running, name) => match method_named(name) {
            Some(method) => {
                write_result(alloc, &mut server.state, method, call.params, known, out)
            }
            None => Err(refused(alloc, METHOD_NOT_FOUND, "the method is not known")),
        },
        (Phase::Shut | Phase::Ended { .. }, _) => {
            Err(refused(alloc, INVALID_REQUEST, "the server is shut down"))
        }
    }
}

/// Carries out a notification between `initialize` and `shutdown`, and appends the messages to send. Ignores an unknown
/// notification.
fn note_running<D: Disk>(
    alloc: Global,
    state: &mut State,
    disk: &mut D,
    call: Call<'_, '_>,
    out: &mut Outbox,
) -> Result<(), AllocError> {
    match call.method {
        "initialized" => {
            initialized(alloc, state.client, out);
            Ok(())
        }
        "workspace/didChangeConfiguration" => {
            settings_changed(alloc, state, disk, call.params, out)
        }
        "workspace/didChangeWorkspaceFolders" => {
            folders_changed(alloc, state, disk, call.params, out)
        }
        "workspace/didChangeWatchedFiles" => check_all(alloc, state, disk, out),
        "textDocument/didOpen" => open(alloc, state, disk, call.params, out),
        "textDocument/didChange" => change(alloc, state, call.params, out),
        "textDocument/didSave" => save(alloc, state, disk, call.params, out),
        "textDocument/didClose" => {
            close(alloc, state, call.params, out);
            Ok(())
        }
        _ => Ok(()),
    }
}

/// Returns the phase after `exit`.
fn ended(phase: Phase) -> Phase
    ensures { result ≡ phases.ended phase }
{
    match phase {
        Phase::Shut => Phase::Ended {
            after_shutdown: true,
        },
        Phase::New | Phase::Running | Phase::Ended { .. } => Phase::Ended {
            after_shutdown: false,
        },
    }
}

/// Carries out a notification, and appends the messages to send. Ignores a notification in the wrong phase.
fn note<D: Disk>(
    alloc: Global,
    server: &mut Server,
    disk: &mut D,
    call: Call<'_, '_>,
    out: &mut Outbox,
) -> Result<(), AllocError>
    ensures { IfOk result (λ _. AfterNotification call.entry.method.now server.old.phase server.new.phase) }
{
    if call.method == "exit" {
        server.phase = ended(server.phase);
        return Ok(());
    }
    if server.phase == Phase::Running {
        note_running(alloc, &mut server.state, disk, call, out)?;
    }
    Ok(())
}

/// Returns the response to a request. Refuses the request if a message in `around` cancels it. Otherwise, reads the
/// schemas that changed documents name before it answers.
fn taken<D: Disk>(
    alloc: Global,
    server: &mut Server,
    disk: &mut D,
    id: Id<'_>,
    call: Call<'_, '_>,
    around: Around<'_, '_, '_>,
) -> Result<Vec<u8>, AllocError>
    ensures response { IfOk result (λ message. IsResponse (spec.id_token id.entry) message.items) }
    ensures phase { AfterRequest call.entry.method.now server.old.phase server.new.phase }
{
    if is_cancelled(alloc, around.waiting, id)? {
        return error_response(alloc, id, REQUEST_CANCELLED, "the request was cancelled");
    }
    follow(alloc, &mut server.state, disk)?;
    let mut value = Json::new(alloc);
    match write_phased(alloc, server, call, around.reading, &mut value) {
        Ok(()) => response(alloc, id, value),
        Err(stop) => {
            let refusal = stop.fault()?;
            error_response(alloc, id, refusal.code, refusal.message.as_str())
        }
    }
}

/// Carries out a message, and appends the notifications and requests to send. Returns the response to a request, or
/// `None` for another message.
fn take<D: Disk>(
    alloc: Global,
    server: &mut Server,
    disk: &mut D,
    message: Message<'_, '_>,
    around: Around<'_, '_, '_>,
    out: &mut Outbox,
) -> Result<Option<Vec<u8>>, AllocError>
    ensures response { IfOk result (λ response. IsAnswer (spec.awaited message.entry)
        (option_map (λ text. text.items) response)) }
    ensures phase { IfOk result (λ _. AfterMessage message.entry server.old.phase server.new.phase) }
{
    match message {
        Message::Response(id, result) => {
            if server.phase == Phase::Running {
                settings_came(alloc, &mut server.state, disk, id, result, out)?;
            }
            Ok(None)
        }
        Message::Invalid(id) => {
            let message = "not a message of JSON-RPC 2.0";
            let response = error_response(alloc, id, INVALID_REQUEST, message)?;
            Ok(Some(response))
        }
        Message::Call(call) => match call.id {
            Some(id) => {
                let response = taken(alloc, server, disk, id, call, around)?;
                Ok(Some(response))
            }
            None => {
                note(alloc, server, disk, call, out)?;
                Ok(None)
            }
        },
    }
}

/// Carries out the message in `content`, as `take` does. If `content` is not JSON, returns a response that says so.
fn take_text<D: Disk>(
    alloc: Global,
    server: &mut Server,
    disk: &mut D,
    content: &[u8],
    around: Around<'_, '_, '_>,
    out: &mut Outbox,
) -> Result<Option<Vec<u8>>, AllocError>
    ensures { IfOk result (λ _. AfterText content.now server.old.phase server.new.phase) }
{
    let mut scratch = Scratch::new(alloc);
    match Value::from_slice(alloc, content, &mut scratch) {
        Ok(value) => take(alloc, server, disk, message_of(&value), around, out),
        Err(Error::OutOfMemory) => Err(AllocError),
        Err(_) => {
            let message = "the content is not JSON";
            let response = error_response(alloc, Id::Null, PARSE_ERROR, message)?;
            Ok(Some(response))
        }
    }
}

/// Carries out the message in `content`, and appends the notifications and requests to send. Returns the response, if
/// there is one.
fn respond<D: Disk>(
    alloc: Global,
    server: &mut Server,
    disk: &mut D,
    content: &[u8],
    around: Around<'_, '_, '_>,
    out: &mut Outbox,
) -> Result<Option<Vec<u8>>, AllocError>
    ensures response { IfOk result (λ response. Responds content.now (option_map (λ text. text.items) response)) }
    ensures phase { IfOk result (λ _. AfterContent content.now server.old.phase server.new.phase) }
{
    let mut scratch = Scratch::new(alloc);
    match Value::from_slice(alloc, content, &mut scratch) {
        Ok(value) => take(alloc, server, disk, message_of(&value), around, out),
        Err(Error::OutOfMemory) => Err(AllocError),
        Err(_) => {
            let repaired = without_lone(alloc, content)?;
            take_text(alloc, server, disk, repaired.as_slice(), around, out)
        }
    }
}

/// Moves the lines of `state.notices` to `out`, each as a notification that shows the line to the user. The prefix
/// `error: ` is left out.
fn push_notices(alloc: Global, state: &mut State, out: &mut Outbox) {
    let notices = mem::replace(&mut state.notices, String::new(alloc));
    for line in notices.as_str().split('\n') {
        if !line.is_empty() {
            let message = line.strip_prefix("error: ").unwrap_or(line);
            out.add(warning(alloc, "window/showMessage", message));
        }
    }
}

/// Carries out the message in `content`, as `step` does. The notifications with diagnostics are left to the last of the
/// messages in `around`.
pub(crate) fn step_around<D: Disk>(
    alloc: Global,
    server: &mut Server,
    disk: &mut D,
    content: &[u8],
    around: Around<'_, '_, '_>,
) -> Result<Vec<Vec<u8>>, AllocError>
    ensures answers { IfOk result (λ messages. Answers content.now (map (λ text. text.items) messages.items)) }
    ensures phase { IfOk result (λ _. AfterContent content.now server.old.phase server.new.phase) }
{
    let mut out = Outbox::new(alloc);
    let response = respond(alloc, server, disk, content, around, &mut out)?;
    if !matches!(frame(around.waiting), Framed::Whole { .. }) {
        settle(alloc, &mut server.state, disk, &mut out)?;
    }
    push_notices(alloc, &mut server.state, &mut out);
    out.finish(alloc, response)
}

/// Carries out the message in `content`, the content of a frame. Returns the contents of the frames to send, in order:
/// the response, if the message is a request, and then notifications and requests of the server. Reads schemas from
/// `disk` when a document is opened or saved or names another schema, or when settings or files change. Fails if an
/// allocation fails; the message may have been carried out in part by then.
pub fn step<D: Disk>(
    alloc: Global,
    server: &mut Server,
    disk: &mut D,
    content: &[u8],
) -> Result<Vec<Vec<u8>>, AllocError>
    ensures answers { IfOk result (λ messages. Answers content.now (map (λ text. text.items) messages.items)) }
    ensures phase { IfOk result (λ _. AfterContent content.now server.old.phase server.new.phase) }
{
    let around = Around {
        waiting: &[],
        reading: None,
    };
    step_around(alloc, server, disk, content, around)
}
