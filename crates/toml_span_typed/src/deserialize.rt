//! Reads of values as Rust types.
ghost use Rattle.std.specs.Prelude.{◌≡◌, ◌+◌, ◌≤◌, IfOk, IsTrue, OnErr, Result, length, map};
ghost use Rattle.toml_span_tree.specs.Error.{content_of};
ghost use Rattle.toml_span_tree.specs.Node.{Node};
ghost use Rattle.toml_span_tree.specs.Value.{is_whole, view};
ghost use Rattle.toml_span_tree.specs.Errors.{Errors};
ghost use Rattle.toml_span_typed.specs.Fields.{lacking};
ghost use Rattle.toml_span_typed.specs.code.Arrays.{ReadsOrKeeps};
ghost use Rattle.toml_span_typed.specs.Reads.{Answers};

mod arrays;
mod floats;
mod holders;
mod integers;
mod maps;
mod ranges;
mod scalars;
mod spanned;
mod tuples;

pub use holders::Parsed;
pub use ranges::InRange;
pub(crate) use ranges::outside;
use std::alloc::{AllocError, Global};
use toml_span_lex::stop::Stop;
use toml_span_tree::{DeserError, Error, Value};

/// A type that can be read from a value.
///
/// An implementation can state facts about its reads, for proofs about callers. `reads` relates the value before the
/// read, the result (the read value or all errors) and the value after the read. `after_alloc_error` says what is left
/// of the value if an allocation fails. By default, both say nothing.
pub trait Deserialize<'de>: Sized + Drop {
    ghost reads: { Node → Result Self Errors → Node → Type 0 } = { λ _ _ _. Unit {0} };

    ghost after_alloc_error: { Node → Node → Type 0 } = { λ _ _. Unit {0} };

    /// Reads the value. Callers must prove that nothing has been taken from it (`is_whole`). After the read, `value`
    /// may have been taken: see `reads` and `after_alloc_error`.
    ///
    /// Fails with all errors, in the order in which they were found, or with `Stop::Memory` if an allocation fails.
    fn deserialize(alloc: Global, value: &mut Value<'de>) -> Result<Self, Stop<DeserError<'de>>>
        requires { IsTrue (is_whole (view value.old)) }
        ensures { Answers reads after_alloc_error (view value.old) result (view value.new) };
}

/// Reads a value. If the read fails, appends its errors to `faults`, and returns `None`. If an allocation fails,
/// `faults` is unchanged.
pub(crate) fn read_or_keep<'de, T: Deserialize<'de>>(
    alloc: Global,
    mut value: Value<'de>,
    faults: &mut Vec<Error<'de>>,
) -> Result<Option<T>, AllocError>
    requires { IsTrue (is_whole (view value)) }
    ensures ok { IfOk result (λ element. ReadsOrKeeps T.reads (view value.entry) (map content_of faults.old.items)
        element (map content_of faults.new.items)) }
    ensures recorded { IfOk result (λ element. length (map content_of faults.old.items) + lacking element
        ≤ length (map content_of faults.new.items)) }
    ensures err { OnErr result (faults.new.items ≡ faults.old.items) }
{
    let read = T::deserialize(alloc, &mut value);
    drop(value);
    match read {
        Ok(element) => Ok(Some(element)),
        Err(Stop::Fault(more)) => {
            more.append_to(faults)?;
            Ok(None)
        }
        Err(Stop::Memory(e)) => Err(e),
    }
}
