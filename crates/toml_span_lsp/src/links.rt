//! The links in a document: from a `#:schema` directive to the schema.
use crate::methods::Request;
use crate::outgoing::Json;
use crate::uris::uri_of_path;
use std::alloc::AllocError;
use toml_span_lookup::directive::directive_of;
use toml_span_lookup::lookup::Lookup;

/// Writes a list with a link from the `#:schema` directive of the document, the file `name`, to the schema: to its file
/// or, if it is on a server and has no local copy, to its address. The list is empty if there is no directive, or if
/// the schema's path is not absolute.
pub(crate) fn write_links(
    request: &Request<'_, '_, '_>,
    name: &str,
    lookup: &Lookup,
    out: &mut Json,
) -> Result<(), AllocError> {
    let alloc = request.alloc;
    out.begin_array();
    if let Some(directive) = directive_of(request.table.text) {
        let target = match lookup.path_for(alloc, name, directive.address)? {
            Some(path) if path.starts_with('/') => Some(uri_of_path(alloc, path.as_str())?),
            Some(_) => None,
            None => Some(String::from_str(alloc, directive.address)?),
        };
        if let Some(target) = target {
            out.begin_object();
            out.range("range", request.table.range(directive.span));
            out.text("target", target.as_str());
            out.text("tooltip", "Open the schema");
            out.end_object();
        }
    }
    out.end_array();
    Ok(())
}
