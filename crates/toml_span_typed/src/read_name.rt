//! Reads of enums whose variants have no data.

/// Reads an enum by the names of its variants. Use it as the body of a function that returns
/// `Result<_, Stop<DeserError>>`, such as `deserialize`:
///
/// ```text
/// read_name!(alloc, value, { "low" => Level::Low, "high" => Level::High })
/// ```
///
/// Fails with `UnexpectedValue` if the string is not one of the names. A report lists the names, and suggests the
/// nearest name. Fails with `Wanted` if the value is not a string, and with `Stop::Memory` if an allocation fails. No
/// two names may be equal.
#[macro_export]
macro_rules! read_name {
    ($alloc:expr, $value:expr, { $first:literal => $variant:expr $(, $name:literal => $other:expr)* $(,)? }) => {
        match $crate::de_helpers::name_of($alloc, $value, &[$first $(, $name)*])? {
            $($name => Ok($other),)*
            // the first name: `name_of` returns one of the names, and the other names have their own arms
            _ => Ok($variant),
        }
    };
    ($alloc:expr, $value:expr, { $($names:tt)* }) => {
        compile_error!("`read_name!`: write `\"name\" => Enum::Variant` for each variant, with commas between them")
    };
}
