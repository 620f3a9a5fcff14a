//! Reads of floats that must be in a range.
ghost use Rattle.std.specs.Prelude.{◌≡◌, ◌+◌, ◌≤◌, ◌++◌, IfOk, IsTrue, OnErr, OnOk, codes, option_map, string_bytes};
ghost use Rattle.toml_span_tree.specs.Error.{content_of};
ghost use Rattle.toml_span_tree.specs.Value.{float_value, is_whole, view};
ghost use Rattle.toml_span_typed.specs.Fields.{kept, lacking};
ghost use Rattle.toml_span_typed.specs.Ranges as spec;
ghost use Rattle.toml_span_typed.specs.Ranges.{ReadsUnless, ReadsWithin};
ghost use Rattle.toml_span_typed.specs.TableHelper.{AllWhole, state_of};

use crate::de_helpers::table_helper::TableHelper;
use crate::deserialize::{Deserialize, outside, read_or_keep};
use std::alloc::{AllocError, Global};
use toml_span_lex::spanned::Spanned;
use toml_span_tree::{Error, FloatText, Value, ValueInner};

impl<'de> TableHelper<'de> {
    /// Reads `float`, a field that was read as text, as a `T`. Returns `None` if `float` is `None`. If the read fails,
    /// keeps its errors, and returns `None`. If an allocation fails, no error is kept.
    ///
    /// If the float is not from `low` to `high`, both included, keeps `Marked`, with the code `out-of-range`, at the
    /// float's span, and returns `None`. The message names the range, which `range` writes, and the float.
    #[doc(hidden)]
    pub fn within<T: Deserialize<'de>>(
        &mut self,
        float: Option<Spanned<FloatText>>,
        low: f64,
        high: f64,
        range: &str,
    ) -> Result<Option<T>, AllocError>
        ensures answer { IfOk result (λ field. ReadsWithin T.reads low high range.now
            (option_map (λ f. (float_value f.value, f.span)) float) (state_of self.old) field (state_of self.new)) }
        ensures err { OnErr result (state_of self.new ≡ state_of self.old) }
        ensures kept { OnOk result (kept (state_of self.old) ≤ kept (state_of self.new)) }
        ensures recorded { IfOk result (λ field. kept (state_of self.old) + lacking field
            ≤ kept (state_of self.new) + lacking float) }
        ensures whole { AllWhole (state_of self.old) → AllWhole (state_of self.new) }
    {
        let Some(float) = float else {
            return Ok(None);
        };
        let fault = self.float_fault(low, high, range, &float)?;
        let value = self.value_of(float);
        self.read_unless(fault, value)
    }

    /// Returns a value with this float and its span.
    fn value_of(&self, float: Spanned<FloatText>) -> Value<'de>
        ensures { view result ≡ spec.float_node (float_value float.value, float.span) }
    {
        Value::with_span(ValueInner::Float(float.value), float.span)
    }

    /// Returns the error if the float is not from `low` to `high`, both included, otherwise `None`.
    fn float_fault(
        &self,
        low: f64,
        high: f64,
        range: &str,
        float: &Spanned<FloatText>,
    ) -> Result<Option<Error<'de>>, AllocError>
        ensures { IfOk result (λ fault. option_map content_of fault
            ≡ spec.float_fault low high range.now (float_value float.now.value, float.now.span)) }
    {
        let found = float.value.text();
        if is_within(low, high, found) {
            return Ok(None);
        }
        let message = float_message(self.alloc, range, found)?;
        Ok(Some(outside(self.alloc, message, float.span)))
    }

    /// Keeps the error `fault`, and returns `None`. If there is none, reads `value`; if the read fails, keeps its
    /// errors, and returns `None`. If an allocation fails, no error is kept.
    fn read_unless<T: Deserialize<'de>>(
        &mut self,
        fault: Option<Error<'de>>,
        value: Value<'de>,
    ) -> Result<Option<T>, AllocError>
        requires { IsTrue (is_whole (view value)) }
        ensures answer { IfOk result (λ field. ReadsUnless T.reads (option_map content_of fault.entry)
            (view value.entry) (state_of self.old) field (state_of self.new)) }
        ensures err { OnErr result (state_of self.new ≡ state_of self.old) }
        ensures recorded { IfOk result (λ field. kept (state_of self.old) + lacking field ≤ kept (state_of self.new)) }
        ensures whole { AllWhole (state_of self.old) → AllWhole (state_of self.new) }
    {
        match fault {
            Some(fault) => {
                self.keep(fault)?;
                Ok(None)
            }
            None => read_or_keep(self.alloc, value, &mut self.errors),
        }
    }
}

/// Returns whether the `f64` that is nearest to the float `text` is from `low` to `high`, both included.
fn is_within(low: f64, high: f64, text: &str) -> bool
    ensures { result ≡ spec.is_within low high text.now }
{
    match fast_float::parse::<f64, _>(text) {
        Ok(x) => low <= x && x <= high,
        Err(_) => false,
    }
}

/// Returns the message for the float `found`, which is not in the range that `range` writes.
fn float_message(alloc: Global, range: &str, found: &str) -> Result<String, AllocError>
    ensures { IfOk result (λ message. string_bytes message
        ≡ codes "expected a value in " ++ range.now ++ codes ", found " ++ found.now) }
{
    let mut out = String::from_str(alloc, "expected a value in ")?;
    out.push_str(range)?;
    out.push_str(", found ")?;
    out.push_str(found)?;
    Ok(out)
}
