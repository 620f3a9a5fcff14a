//! Functions that call `toml_span`. The contracts of `span_at` and `port_of` follow from its contracts.
ghost use Rattle.std.specs.Prelude.{◌≡◌, ◌↔◌, ◌∷◌, [], pos, codes, Some, IfOk, IfErr};
ghost use Rattle.toml_span_lex.specs.declared.span.Span.{Span as Bytes};
ghost use Rattle.toml_span_tree.specs.Node.{integer};
ghost use Rattle.toml_span_tree.specs.Path.{Place, key, shape_scalar};
ghost use Rattle.toml_span.specs.Parsing.{IsRefusal};
ghost use Rattle.toml_span_laws.specs.Document.{IsDocument, HasPlaceAt};
ghost use Rattle.toml_span_example.specs.uses.Fields.{NoPort};
ghost use Rattle.toml_span_read.specs.Data.{depth_limit};

mod first;

use first::describe_port;
use std::alloc::{AllocError, Global};
use toml_span::de_helpers::TableHelper;
use toml_span::{Error, Span, Stop, parse};

/// Returns the span of the value that `pointer` names, or `None` if it names nothing. Fails if the text is not valid
/// TOML.
pub(crate) fn span_at<'de>(
    alloc: Global,
    text: &'de str,
    pointer: &'de str,
) -> Result<Option<Span>, Stop<Error<'de>>>
    ensures found { IfOk result (λ o. IsDocument text.now (λ places. (span : Bytes) → (o ≡ Some span)
        ↔ HasPlaceAt pointer.now places (λ place. place.span ≡ span))) }
    ensures refused { IfErr result (IsRefusal text.now depth_limit) }
{
    let root = parse(alloc, text)?;
    match root.pointer(pointer) {
        Some(value) => Ok(Some(value.span)),
        None => Ok(None),
    }
}

/// Returns the integer `port` of a document. Fails if the text is not valid TOML, or if `port` is missing or not a
/// `u16`.
#[tactic(auto, using(toml_span_typed::proofs::Whole::found_whole))]
pub(crate) fn port_of<'de>(alloc: Global, text: &'de str) -> Result<u16, Stop<Error<'de>>>
    ensures port { IfOk result (λ port. IsDocument text.now (λ places. (place : Place)
        × (places (key (codes "port") ∷ []) ≡ Some place) × (place.shape ≡ shape_scalar (integer (pos port))))) }
    ensures refused { IfErr result (NoPort text.now) }
{
    let mut root = parse(alloc, text)?;
    let Ok(mut helper) = TableHelper::new(alloc, &mut root) else {
        unreachable!()
    };
    drop(root);
    helper.required::<u16>("port")
}

/// Returns what is found at a pointer or, without one, the port of a document, as a line for each function that looks
/// for it.
pub(crate) fn shown(
    alloc: Global,
    text: &str,
    pointer: Option<&str>,
) -> Result<String, AllocError> {
    match pointer {
        Some(pointer) => format!(in alloc; "span_at: {:?}\n", span_at(alloc, text, pointer)),
        None => {
            let port = port_of(alloc, text);
            format!(in alloc;
                "port_of: {port:?}\ndescribe_port: {}\n",
                describe_port(alloc, text)?
            )
        }
    }
}
