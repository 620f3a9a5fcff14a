//! Help for numbers that are out of range, and for other values where a number is expected.

/// Returns a line of help with the range of `f32` or `f64`, or `None` for any other name.
fn float_help(name: &str) -> Option<&'static str> {
    match name {
        "f32" => Some("an f32 is finite, from -3.4028235e38 to 3.4028235e38"),
        "f64" => {
            Some("an f64 is finite, from -1.7976931348623157e308 to 1.7976931348623157e308")
        }
        _ => None,
    }
}

/// Returns a line of help with the range of the number type `name`. For `i64` and `isize`, which can represent every
/// integer of TOML, it only names the kind. Returns `None` for unknown names.
pub(crate) fn range_help(name: &str) -> Option<&'static str> {
    match name {
        "u8" => Some("a u8 is an integer from 0 to 255"),
        "u16" => Some("a u16 is an integer from 0 to 65535"),
        "u32" => Some("a u32 is an integer from 0 to 4294967295"),
        "i8" => Some("an i8 is an integer from -128 to 127"),
        "i16" => Some("an i16 is an integer from -32768 to 32767"),
        "i32" => Some("an i32 is an integer from -2147483648 to 2147483647"),
        "u64" => Some("a u64 is an integer of at least 0"),
        "usize" => Some("a usize is an integer of at least 0"),
        "i64" => Some("an i64 is an integer"),
        "isize" => Some("an isize is an integer"),
        _ => float_help(name),
    }
}
