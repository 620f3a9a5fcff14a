//! Reads of strings, booleans, floats, and dates and times.
ghost use Rattle.std.specs.Prelude.{◌≡◌, IfOk, IsTrue, Some, string_bytes};
ghost use Rattle.std.specs.Cow.{cow_str_bytes};
ghost use Rattle.toml_span_tree.specs.Value.{float_value, date_bytes, is_whole, view};
ghost use Rattle.toml_span_tree.specs.declared.value.ValueInner.TheVariants as inner;
ghost use Rattle.toml_span_typed.specs.Reads.{Answers, Gives, Never, Unchanged, result_map, read_string, read_boolean};
ghost use Rattle.toml_span_typed.specs.Reads.{read_float, read_datetime};

use crate::de_helpers::refused;
use crate::deserialize::Deserialize;
use std::alloc::Global;
use std::borrow::CowStr;
use toml_span_lex::stop::Stop;
use toml_span_tree::{DateText, DeserError, FloatText, Value, ValueInner};

impl<'de> Deserialize<'de> for bool {
    ghost reads = { Gives read_boolean };

    ghost after_alloc_error = { Never };

    fn deserialize(_alloc: Global, value: &mut Value<'de>) -> Result<bool, Stop<DeserError<'de>>> {
        match value.take() {
            ValueInner::Boolean(b) => Ok(b),
            other => Err(refused("a bool", other, value.span)),
        }
    }
}

impl<'de> Deserialize<'de> for FloatText {
    ghost reads = { λ v r w. Gives read_float v (result_map float_value r) w };

    ghost after_alloc_error = { Never };

    fn deserialize(
        _alloc: Global,
        value: &mut Value<'de>,
    ) -> Result<FloatText, Stop<DeserError<'de>>> {
        match value.take() {
            ValueInner::Float(x) => Ok(x),
            other => Err(refused("a float", other, value.span)),
        }
    }
}

impl<'de> Deserialize<'de> for DateText<'de> {
    ghost reads = { λ v r w. Gives read_datetime v (result_map date_bytes r) w };

    ghost after_alloc_error = { Never };

    fn deserialize(
        _alloc: Global,
        value: &mut Value<'de>,
    ) -> Result<DateText<'de>, Stop<DeserError<'de>>> {
        match value.take() {
            ValueInner::Datetime(d) => Ok(d),
            other => Err(refused("a datetime", other, value.span)),
        }
    }
}

/// Reads a string without copying it. The string is borrowed if and only if it was borrowed in the value.
impl<'de> Deserialize<'de> for CowStr<'de> {
    ghost reads = { λ v r w. Gives read_string v (result_map cow_str_bytes r) w };

    ghost after_alloc_error = { Never };

    fn deserialize(
        _alloc: Global,
        value: &mut Value<'de>,
    ) -> Result<CowStr<'de>, Stop<DeserError<'de>>>
        requires { IsTrue (is_whole (view value.old)) }
        ensures answer { Answers (λ v r w. Gives read_string v (result_map cow_str_bytes r) w) Never (view value.old)
            result (view value.new) }
        ensures kept { IfOk result (λ text. value.old.value ≡ Some (inner.String text)) }
    {
        match value.take() {
            ValueInner::String(s) => Ok(s),
            other => Err(refused("a string", other, value.span)),
        }
    }
}

impl<'de> Deserialize<'de> for String {
    ghost reads = { λ v r w. Gives read_string v (result_map string_bytes r) w };

    ghost after_alloc_error = { Unchanged };

    fn deserialize(alloc: Global, value: &mut Value<'de>) -> Result<String, Stop<DeserError<'de>>> {
        match value.take() {
            ValueInner::String(CowStr::Owned(s)) => Ok(s),
            ValueInner::String(CowStr::Borrowed(s)) => match String::from_str(alloc, s) {
                Ok(s) => Ok(s),
                Err(e) => {
                    value.set(ValueInner::String(CowStr::Borrowed(s)));
                    Err(Stop::Memory(e))
                }
            },
            other => Err(refused("a string", other, value.span)),
        }
    }
}
