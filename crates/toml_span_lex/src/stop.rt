//! Why a call failed.
use std::alloc::{AllocError, AllocFailed};
use std::fmt;
use std::fmt::{Display, Formatter, Write};

/// Why a call failed: an allocation failed (`Memory`), or an error of type `E` occurred (`Fault`).
///
/// `Memory` means that the allocator refused a request, although no contract states this. In `toml_span_serde`,
/// `Memory` can also mean that a position or a count does not fit into its integer type.
#[derive(Debug, Drop)]
pub enum Stop<E> {
    Memory(AllocError),
    Fault(E),
}

impl<E> Stop<E> {
    ghost use Rattle.std.specs.Prelude.{◌≡◌};
    ghost use Rattle.toml_span_lex.specs.Stop.{Converts, fault_of};

    /// Returns the fault, or `Err` if an allocation failed. In a function that fails with `AllocError` or `Stop`, the
    /// expression `stop.fault()?` is the fault; if an allocation failed, it returns that error from the function.
    pub fn fault(self) -> Result<E, AllocError>
        ensures { result ≡ fault_of self }
    {
        match self {
            Stop::Memory(error) => Err(error),
            Stop::Fault(fault) => Ok(fault),
        }
    }

    /// Converts the fault with `From`, and leaves `Memory` as it is. For example, `result.map_err(Stop::convert)?`
    /// converts an error `Stop<E>` in a function that fails with `Stop<F>`.
    pub fn convert<F: From<E>>(self) -> Stop<F>
        ensures { Converts F.from_gives self result }
    {
        match self {
            Stop::Memory(error) => Stop::Memory(error),
            Stop::Fault(fault) => Stop::Fault(F::from(fault)),
        }
    }
}

impl<E> From<AllocError> for Stop<E> {
    ghost use Rattle.std.specs.Prelude.{◌≡◌};
    ghost use Rattle.toml_span_lex.specs.declared.stop.Stop.TheVariants.{Memory};

    ghost from_gives = { λ error stop. stop ≡ Memory error };

    fn from(error: AllocError) -> Stop<E> {
        Stop::Memory(error)
    }
}

/// Converts the error of a failed insertion to `Memory`, and drops the item that was not inserted.
impl<T: Drop, E> From<AllocFailed<T>> for Stop<E> {
    ghost use Rattle.std.specs.Prelude.{◌≡◌, alloc_error};
    ghost use Rattle.toml_span_lex.specs.declared.stop.Stop.TheVariants.{Memory};

    ghost from_gives = { λ refused stop. stop ≡ Memory alloc_error };

    fn from(_refused: AllocFailed<T>) -> Stop<E> {
        Stop::Memory(AllocError)
    }
}

/// Writes the fault, or `memory allocation failed`.
impl<E: Display> Display for Stop<E> {
    ghost use Rattle.toml_span_lex.specs.Stop.{stop_text};

    ghost output = { stop_text E.output };

    fn fmt<W: Write>(&self, f: &mut Formatter<W>) -> fmt::Result {
        match self {
            Stop::Memory(_) => f.write_str("memory allocation failed"),
            Stop::Fault(fault) => write!(f, "{fault}"),
        }
    }
}

impl<E: std::error::Error> std::error::Error for Stop<E> {}
