//! Why a schema can't be compiled, and why a value can't be checked.

use std::alloc::{AllocError, AllocFailed, Global};
use std::fmt::Write;

/// What is wrong with a schema, or why a part of it is not checked.
#[derive(Debug, Drop)]
pub struct Flaw {
    /// The address of the document.
    pub document: String,
    /// The address against which references at the place are resolved.
    pub base: String,
    /// A JSON pointer to the place in the document.
    pub place: String,
    pub message: String,
    /// How to correct the flaw, or an empty text.
    pub help: String,
    /// The URL that a reference or `$schema` names, if its document was not given. Otherwise an empty text.
    pub missing: String,
}

/// Why a schema can't be compiled.
#[derive(Debug, Drop)]
pub enum SchemaError {
    /// An allocation failed.
    OutOfMemory,
    /// The document with this address is not JSON, or nests more than 128 levels deep.
    Json {
        address: String,
    },
    /// At least one keyword has a wrong value, or names something that does not exist. At most 100 flaws are listed,
    /// and at most 100 warnings (see `Guide::warnings`).
    Wrong {
        flaws: Vec<Flaw>,
        warnings: Vec<Flaw>,
    },
    /// The schema exceeds this limit: it nests too deep, has too many schemas, or takes too many steps to compile.
    TooLarge {
        limit: &'static str,
    },
    /// A bug: the compiled schema lacks a keyword or a subschema.
    Internal,
}

impl SchemaError {
    /// Returns the message, with a line for each flaw. Fails if an allocation fails.
    pub fn message(&self, alloc: Global) -> Result<String, AllocError> {
        match self {
            SchemaError::OutOfMemory => String::from_str(alloc, "out of memory"),
            SchemaError::Json { address } => format!(in alloc; "{address} is not JSON"),
            SchemaError::Wrong { flaws, .. } => {
                let mut out = String::new(alloc);
                for flaw in flaws.as_slice() {
                    let line = if out.is_empty() { "" } else { "\n" };
                    let (place, message) = (flaw.place.as_str(), flaw.message.as_str());
                    let place = if place.is_empty() { "the root" } else { place };
                    write!(&mut out, "{line}{place}: {message}")?;
                }
                Ok(out)
            }
            SchemaError::TooLarge { limit } => String::from_str(alloc, *limit),
            SchemaError::Internal => {
                String::from_str(
                    alloc,
                    "internal error: the schema is not compiled completely; please report it",
                )
            }
        }
    }
}

impl From<AllocError> for SchemaError {
    fn from(_refused: AllocError) -> SchemaError {
        SchemaError::OutOfMemory
    }
}

impl<T: Drop> From<AllocFailed<T>> for SchemaError {
    fn from(_refused: AllocFailed<T>) -> SchemaError {
        SchemaError::OutOfMemory
    }
}

impl From<CheckError> for SchemaError {
    fn from(refused: CheckError) -> SchemaError {
        match refused {
            CheckError::OutOfMemory => SchemaError::OutOfMemory,
            _ => SchemaError::TooLarge {
                limit: "a constant in it nests too deep",
            },
        }
    }
}

/// Why a value can't be checked.
#[derive(Debug, Clone, Copy, PartialEq, Eq, Drop)]
pub enum CheckError {
    /// An allocation failed.
    OutOfMemory,
    /// The value nests too deep, or references and combinations nest too deep. Or a value that `enum`, `const` or
    /// `uniqueItems` compares contains a taken value.
    TooDeep,
    /// The check takes too many steps.
    TooLong,
}

impl CheckError {
    /// Returns the message.
    pub fn message(&self) -> &'static str {
        match self {
            CheckError::OutOfMemory => "out of memory",
            CheckError::TooDeep => "the value is nested too deep to be checked against the schema",
            CheckError::TooLong => "checking the value against the schema takes too many steps",
        }
    }
}

impl From<AllocError> for CheckError {
    fn from(_refused: AllocError) -> CheckError {
        CheckError::OutOfMemory
    }
}

impl<T: Drop> From<AllocFailed<T>> for CheckError {
    fn from(_refused: AllocFailed<T>) -> CheckError {
        CheckError::OutOfMemory
    }
}
