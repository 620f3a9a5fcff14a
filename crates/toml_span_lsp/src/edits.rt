//! Writes answers about renames and formatting.
ghost use Rattle.std.specs.Prelude.{◌≡◌, IfSome};
ghost use Rattle.json.specs.Value.{value_view};
ghost use Rattle.toml_span_lsp.specs.Settings as spec;

use crate::actions::span_of;
use crate::incoming::{count_in, text_in};
use crate::methods::Request;
use crate::outgoing::{Json, write_edits, write_workspace_edit};
use crate::refusal::{INVALID_PARAMS, REQUEST_FAILED, Refusal, refused};
use crate::settings::{Settings, is_set};
use json::Value;
use std::alloc::AllocError;
use toml_span_config::layers::Settings as ProjectSettings;
use toml_span_editor::document::Document;
use toml_span_editor::formatting::{formatting, formatting_of, sorted_formatting};
use toml_span_editor::renaming::{renamable_at, rename};
use toml_span_format::Options;
use toml_span_lex::stop::Stop;

/// Writes the edits that rename the key at the offset `at` to the `newName` in `params`. `document` is `None` if the
/// document has errors. Fails with a `Refusal` if `newName` is not a string, if the document has errors, or if the
/// rename is refused.
pub(crate) fn write_rename(
    request: &Request<'_, '_, '_>,
    document: Option<&Document<'_>>,
    at: usize,
    out: &mut Json,
) -> Result<(), Stop<Refusal>> {
    let Some(name) = text_in(request.params, &["newName"]) else {
        return Err(refused(request.alloc, INVALID_PARAMS, "`newName` must be a string"));
    };
    let Some(document) = document else {
        let message = "the document has errors: correct them first";
        return Err(refused(request.alloc, REQUEST_FAILED, message));
    };
    match rename(request.alloc, document, at, name) {
        Ok(made) => {
            write_workspace_edit(request, made.edits.as_slice(), out);
            Ok(())
        }
        Err(stop) => {
            let reason = stop.fault()?;
            Err(refused(request.alloc, REQUEST_FAILED, reason.as_str()))
        }
    }
}

/// Writes the range and the name of the key at an offset. Writes null if there is no key at the offset, or if the
/// document has errors, so that `document` is `None`.
pub(crate) fn write_renamable(
    request: &Request<'_, '_, '_>,
    document: Option<&Document<'_>>,
    at: usize,
    out: &mut Json,
) -> Result<(), AllocError> {
    let Some(document) = document else {
        out.null();
        return Ok(());
    };
    let Some(key) = renamable_at(request.alloc, document, at)? else {
        out.null();
        return Ok(());
    };
    out.begin_object();
    out.range("range", request.table.range(key.span));
    match key.path.last() {
        Some(name) => out.text("placeholder", name.as_ref()),
        None => out.text("placeholder", ""),
    }
    out.end_object();
    Ok(())
}

/// Returns the `tabSize` in the parameters of a request, or `None` if it is missing or not valid.
fn tab_size(params: &Value<'_>) -> Option<usize>
    ensures { IfSome result (spec.HasTabSize (value_view params.now)) }
{
    count_in(params.get("options")?, "tabSize")
}

/// Returns the options that a configuration file sets. Those that it does not set have their defaults.
fn options_in(project: Option<ProjectSettings>) -> Options
    ensures { result ≡ spec.options_in project }
{
    match project {
        Some(project) => project.format_options(),
        None => Options::new(),
    }
}

/// Returns the options with this width, if there is one.
fn with_width(width: Option<usize>, options: Options) -> Options
    ensures { result ≡ spec.with_width width options }
{
    match width {
        Some(width) => options.with_width(width),
        None => options,
    }
}

/// Returns the options with this indentation, if there is one of at most 64.
fn with_indent(size: Option<usize>, options: Options) -> Options
    ensures { result ≡ spec.with_indent size options }
{
    let Some(size) = size else {
        return options;
    };
    if size <= 64 {
        options.with_indent(size)
    } else {
        options
    }
}

/// Returns whether the configuration file sets the indentation.
fn sets_indent(project: Option<ProjectSettings>) -> bool
    ensures { result ≡ spec.sets_indent project }
{
    match project {
        Some(project) => is_set(project.indent.origin),
        None => false,
    }
}

/// Returns the options for a request that asks for the indentation `size`.
fn options_for(settings: Settings, size: Option<usize>) -> Options
    ensures { result ≡ spec.options_for settings size }
{
    let options = with_width(settings.width, options_in(settings.project));
    if sets_indent(settings.project) {
        options
    } else {
        with_indent(size, options)
    }
}

/// Returns the options of the formatter: those that the settings set, and the `tabSize` of the request as the
/// indentation, unless the configuration file sets one. If `tabSize` is missing, not valid or above 64, or if nothing
/// sets an option, that option has its default.
fn options_of(settings: Settings, params: &Value<'_>) -> Options
    ensures { spec.AreOptions settings (value_view params.now) result }
{
    options_for(settings, tab_size(params))
}

/// Writes the edits that format a document or, if the request has a valid range, the lines of the range, whose keys are
/// not sorted. Writes null if the document, or the range alone, can't be formatted, or if the configuration file
/// excludes the document or is wrong.
pub(crate) fn write_formatting(
    request: &Request<'_, '_, '_>,
    out: &mut Json,
) -> Result<(), AllocError> {
    let settings = request.settings;
    if !settings.can_format {
        out.null();
        return Ok(());
    }
    let options = options_of(settings, request.params);
    let text = request.table.text;
    let is_sorted = settings
        .project
        .is_some_and(|project| project.sort_keys.value);
    let made = match span_of(request) {
        None if is_sorted => sorted_formatting(request.alloc, text, options)?,
        None => formatting(request.alloc, text, options)?,
        Some(span) => formatting_of(request.alloc, text, options, span)?,
    };
    match made {
        Some(made) => write_edits(out, request.table, made.edits.as_slice()),
        None => out.null(),
    }
    Ok(())
}
