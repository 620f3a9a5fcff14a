//! Methods that read fields and keep all errors in the helper, and methods that end the read.
ghost use Rattle.std.specs.Prelude.{◌≡◌, ◌+◌, ◌≤◌, IfOk, IfSome, IsTrue, OnErr, OnOk};
ghost use Rattle.toml_span_tree.specs.Value.{is_whole};
ghost use Rattle.toml_span_typed.specs.Fields.{Asks, Finishes, FinishesInto, Keeps, RequiresAll, kept, lacking};
ghost use Rattle.toml_span_typed.specs.TableHelper.{AllWhole, HoldsRest, Tries, found, state_of};

use crate::de_helpers::table_helper::{TableHelper, missing_field};
use crate::deserialize::{Deserialize, read_or_keep};
use std::alloc::AllocError;
use toml_span_lex::stop::Stop;
use toml_span_tree::{DeserError, Value};

impl<'de> TableHelper<'de> {
    /// Reads the field of this name: records the name, moves its entry out of the table, and reads the value.
    ///
    /// If the table has no entry of this name, keeps the error `MissingField` at the table's span, and returns `None`.
    /// Also returns `None` if the read fails, after keeping all its errors. So if `finish` returns `Ok`, no call
    /// returned `None`. If an allocation fails, no error is kept, but the name may be recorded and its entry gone.
    #[tactic(auto, using(crate::proofs::Whole::found_whole))]
    pub fn read<T: Deserialize<'de>>(&mut self, name: &'de str) -> Result<Option<T>, AllocError>
        requires { AllWhole (state_of self.old) }
        ensures answer { Asks T.reads name.now (state_of self.old) result (state_of self.new) }
        ensures recorded { IfOk result (λ field. kept (state_of self.old) + lacking field ≤ kept (state_of self.new)) }
        ensures whole { AllWhole (state_of self.new) }
    {
        self.ask(name)
    }

    /// Reads a field as `required` does. The error is in a `DeserError`, so that `deserialize` can pass it on with `?`.
    #[tactic(auto, using(crate::proofs::Whole::found_whole))]
    pub fn require<T: Deserialize<'de>>(
        &mut self,
        name: &'de str,
    ) -> Result<T, Stop<DeserError<'de>>>
        requires { AllWhole (state_of self.old) }
        ensures answer { RequiresAll T.reads name.now (state_of self.old) result (state_of self.new) }
        ensures whole { AllWhole (state_of self.new) }
    {
        match self.required(name) {
            Ok(field) => Ok(field),
            Err(stop) => Err(stop.convert()),
        }
    }

    /// Reads a field as `optional` does. Returns `None` if the table has no entry of this name. Also returns `None` if
    /// the read fails, after keeping its errors.
    #[tactic(auto, using(crate::proofs::Whole::found_whole))]
    pub fn read_optional<T: Deserialize<'de>>(
        &mut self,
        name: &'de str,
    ) -> Result<Option<T>, AllocError>
        requires { AllWhole (state_of self.old) }
        ensures answer { Tries T.reads name.now (state_of self.old) result (state_of self.new) }
        ensures recorded { OnOk result (kept (state_of self.old) ≤ kept (state_of self.new)) }
        ensures whole { AllWhole (state_of self.new) }
    {
        self.optional(name)
    }

    /// Returns the value in `read`, the result of a read that the caller made, for example with an entry from `take`.
    /// If the read failed, keeps its errors, and returns `None`. If an allocation failed in the read, or fails now,
    /// returns `AllocError`, and keeps no error.
    pub fn kept<T: Drop>(
        &mut self,
        read: Result<T, Stop<DeserError<'de>>>,
    ) -> Result<Option<T>, AllocError>
        ensures answer { IfOk result (λ field. Keeps read.entry (state_of self.old) field (state_of self.new)) }
        ensures recorded { IfOk result (λ field. kept (state_of self.old) + lacking field ≤ kept (state_of self.new)) }
        ensures err { OnErr result (state_of self.new ≡ state_of self.old) }
        ensures whole { AllWhole (state_of self.old) → AllWhole (state_of self.new) }
    {
        match read {
            Ok(field) => Ok(Some(field)),
            Err(Stop::Fault(faults)) => {
                faults.append_to(&mut self.errors)?;
                Ok(None)
            }
            Err(Stop::Memory(error)) => Err(error),
        }
    }

    /// Ends the read, as `finalize(None)` does. Returns `Ok` if no error was kept and no entry remains. Otherwise fails
    /// with all errors, the error for the remaining keys last. Only the error for the remaining keys needs an
    /// allocation.
    pub fn finish(self) -> Result<(), Stop<DeserError<'de>>>
        ensures answer { Finishes (state_of self.entry) result }
        ensures none { OnOk result (kept (state_of self.entry) ≡ 0) }
    {
        self.finalize(None)?;
        Ok(())
    }

    /// Ends the read, as `finalize(Some(value))` does: puts the entries that remain back into `value`. Returns `Ok` if
    /// no error was kept, otherwise fails with all errors. Does not allocate.
    pub fn finish_into(self, value: &mut Value<'de>) -> Result<(), Stop<DeserError<'de>>>
        ensures answer { FinishesInto (state_of self.entry) result }
        ensures none { OnOk result (kept (state_of self.entry) ≡ 0) }
        ensures rest { HoldsRest self.entry.table value.old value.new }
    {
        self.put_back(value)?;
        Ok(())
    }

    /// Does the same as `read`. Callers must prove that nothing has been taken from the field's value.
    fn ask<T: Deserialize<'de>>(&mut self, name: &'de str) -> Result<Option<T>, AllocError>
        requires { IfSome (found name.now (state_of self.old)) (λ value. IsTrue (is_whole value)) }
        ensures answer { Asks T.reads name.now (state_of self.old) result (state_of self.new) }
        ensures recorded { IfOk result (λ field. kept (state_of self.old) + lacking field ≤ kept (state_of self.new)) }
        ensures whole { AllWhole (state_of self.old) → AllWhole (state_of self.new) }
    {
        match self.take(name) {
            Ok(Some((key, value))) => {
                drop(key);
                read_or_keep(self.alloc, value, &mut self.errors)
            }
            Ok(None) => {
                self.keep(missing_field(name, self.span))?;
                Ok(None)
            }
            Err(e) => Err(e),
        }
    }
}
