//! Types that are read with warnings.
//!
//! - `warned TYPE` reads the document with `from_str_with_warnings`, and prints the result and each warning, one per
//!   line.
use crate::output::Out;
use std::alloc::Global;
use toml_span::{
    DeserError, DeserializeWithWarnings, Error, Stop, Value, from_str_with_warnings, read_table,
};

/// Fields with deprecated names.
#[derive(Debug, Drop)]
pub struct Limits {
    pub max_body: u64,
    pub rate: Option<u8>,
}

impl<'de> DeserializeWithWarnings<'de> for Limits {
    fn deserialize_with_warnings(
        alloc: Global,
        value: &mut Value<'de>,
        warnings: &mut Vec<Error<'de>>,
    ) -> Result<Limits, Stop<DeserError<'de>>> {
        read_table!(alloc, value, warnings, Limits {
            max_body: u64 = "max-body", deprecated("max_body");
            rate: Option<u8> = "rate", deprecated("speed");
        })
    }
}

/// Two fields whose types are read with warnings, a field with a deprecated name, and a field with an alias.
#[derive(Debug, Drop)]
pub struct Service {
    pub level: u8,
    pub limits: Limits,
    pub others: Option<Vec<Limits>>,
    pub mode: u8,
}

impl<'de> DeserializeWithWarnings<'de> for Service {
    fn deserialize_with_warnings(
        alloc: Global,
        value: &mut Value<'de>,
        warnings: &mut Vec<Error<'de>>,
    ) -> Result<Service, Stop<DeserError<'de>>> {
        read_table!(alloc, value, warnings, Service {
            level: u8 = "level", deprecated("verbosity"), or(1);
            limits: Limits, with_warnings;
            others: Option<Vec<Limits>>, with_warnings;
            mode: u8 = "mode", alias("kind"), or(0);
        })
    }
}

/// Prints the answer to `warned`. Returns `false` for an unknown type.
pub fn push_warned(alloc: Global, name: &str, text: &str, out: &mut Out) -> bool {
    let mut warnings = Vec::new(alloc);
    match name {
        "Limits" => {
            out.debug_line(from_str_with_warnings::<Limits>(alloc, text, &mut warnings));
        }
        "Service" => {
            out.debug_line(from_str_with_warnings::<Service>(alloc, text, &mut warnings));
        }
        _ => return false,
    }
    for warning in warnings.iter() {
        out.debug_line(warning);
    }
    true
}
