//! Reads that can warn, for example about deprecated names.
ghost use Rattle.std.specs.Prelude.{◌≡◌, ◌+◌, ◌≤◌, IfOk, IsTrue, List, OnErr, Result, length, map};
ghost use Rattle.toml_span_tree.specs.Error.{ErrorContent, content_of};
ghost use Rattle.toml_span_tree.specs.Node.{Node};
ghost use Rattle.toml_span_tree.specs.Value.{is_whole, view};
ghost use Rattle.toml_span_tree.specs.Errors.{Errors};
ghost use Rattle.toml_span_typed.specs.Fields.{lacking};
ghost use Rattle.toml_span_typed.specs.WithWarnings.{AnswersWithWarnings, Extends};
ghost use Rattle.toml_span_typed.specs.code.WithWarnings.{ReadsOrKeepsWithWarnings};

mod lists;

use std::alloc::{AllocError, Global};
use toml_span_lex::stop::Stop;
use toml_span_tree::{DeserError, Error, Value};

/// A type whose reads can warn. It should not also implement `Deserialize`, whose reads would lose the warnings.
///
/// An implementation can state facts about its reads, for proofs about callers: `reads` relates the value before the
/// read, the result (the read value or all errors), and the warnings before and after the read. By default, `reads`
/// says nothing.
pub trait DeserializeWithWarnings<'de>: Sized + Drop {
    ghost reads: { Node → Result Self Errors → List ErrorContent → List ErrorContent → Type 0 } = { λ _ _ _ _. Unit {0} };

    /// Reads the value, and appends the warnings to `warnings`, even if the read fails. Earlier warnings stay, even if
    /// an allocation fails. Callers must prove that nothing has been taken from the value (`is_whole`).
    ///
    /// Fails with all errors, in the order in which they were found, or with `Stop::Memory` if an allocation fails.
    fn deserialize_with_warnings(
        alloc: Global,
        value: &mut Value<'de>,
        warnings: &mut Vec<Error<'de>>,
    ) -> Result<Self, Stop<DeserError<'de>>>
        requires { IsTrue (is_whole (view value.old)) }
        ensures answer { AnswersWithWarnings reads (view value.old) result (map content_of warnings.old.items)
            (map content_of warnings.new.items) }
        ensures kept { Extends (map content_of warnings.old.items) (map content_of warnings.new.items) };
}

/// Reads a value, and appends the warnings of the read to `warnings`. If the read fails, appends its errors to
/// `faults`, and returns `None`. If an allocation fails, `faults` is unchanged.
pub(crate) fn read_or_keep<'de, T: DeserializeWithWarnings<'de>>(
    alloc: Global,
    mut value: Value<'de>,
    faults: &mut Vec<Error<'de>>,
    warnings: &mut Vec<Error<'de>>,
) -> Result<Option<T>, AllocError>
    requires { IsTrue (is_whole (view value)) }
    ensures ok { IfOk result (λ element. ReadsOrKeepsWithWarnings T.reads (view value.entry)
        (map content_of faults.old.items) element (map content_of faults.new.items) (map content_of warnings.old.items)
        (map content_of warnings.new.items)) }
    ensures recorded { IfOk result (λ element. length (map content_of faults.old.items) + lacking element
        ≤ length (map content_of faults.new.items)) }
    ensures err { OnErr result (faults.new.items ≡ faults.old.items) }
    ensures kept { Extends (map content_of warnings.old.items) (map content_of warnings.new.items) }
{
    let read = T::deserialize_with_warnings(alloc, &mut value, warnings);
    drop(value);
    match read {
        Ok(element) => Ok(Some(element)),
        Err(Stop::Fault(more)) => {
            more.append_to(faults)?;
            Ok(None)
        }
        Err(Stop::Memory(e)) => Err(e),
    }
}
