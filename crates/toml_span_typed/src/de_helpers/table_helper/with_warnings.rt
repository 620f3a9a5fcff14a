//! Reads of fields whose types implement `DeserializeWithWarnings`.
ghost use Rattle.std.specs.Prelude.{◌≡◌, ◌+◌, ◌≤◌, [], IfOk, map};
ghost use Rattle.toml_span_tree.specs.Error.{content_of};
ghost use Rattle.toml_span_typed.specs.Fields.{kept, lacking};
ghost use Rattle.toml_span_typed.specs.TableHelper.{AllWhole, state_of};
ghost use Rattle.toml_span_typed.specs.WithWarnings.{AsksWithWarnings, Extends, TriesWithWarnings};

use crate::de_helpers::table_helper::{TableHelper, missing_field};
use crate::with_warnings::{DeserializeWithWarnings, read_or_keep};
use std::alloc::AllocError;
use toml_span_tree::Error;

impl<'de> TableHelper<'de> {
    /// Returns an empty list for the warnings of a table.
    #[doc(hidden)]
    pub fn no_warnings(&self) -> Vec<Error<'de>>
        ensures { result.items ≡ [] }
    {
        Vec::new(self.alloc)
    }

    /// Reads a field as `read` does, for a type that implements `DeserializeWithWarnings`. Appends the warnings of the
    /// read to `warnings`, even if the read fails. If an allocation fails, some of these warnings may be lost, but none
    /// of the earlier warnings.
    pub fn read_with_warnings<T: DeserializeWithWarnings<'de>>(
        &mut self,
        name: &'de str,
        warnings: &mut Vec<Error<'de>>,
    ) -> Result<Option<T>, AllocError>
        requires { AllWhole (state_of self.old) }
        ensures answer { AsksWithWarnings T.reads name.now (state_of self.old) result (state_of self.new)
            (map content_of warnings.old.items) (map content_of warnings.new.items) }
        ensures kept { Extends (map content_of warnings.old.items) (map content_of warnings.new.items) }
        ensures recorded { IfOk result (λ field. kept (state_of self.old) + lacking field ≤ kept (state_of self.new)) }
        ensures whole { AllWhole (state_of self.new) }
    {
        match self.take_placed(name)? {
            Some((_, value)) => read_or_keep(self.alloc, value, &mut self.errors, warnings),
            None => {
                self.keep(missing_field(name, self.span))?;
                Ok(None)
            }
        }
    }

    /// Reads a field as `read_optional` does, for a type that implements `DeserializeWithWarnings`. Appends the
    /// warnings of the read to `warnings`, even if the read fails. If an allocation fails, some of these warnings may
    /// be lost, but none of the earlier warnings.
    pub fn read_optional_with_warnings<T: DeserializeWithWarnings<'de>>(
        &mut self,
        name: &'de str,
        warnings: &mut Vec<Error<'de>>,
    ) -> Result<Option<T>, AllocError>
        requires { AllWhole (state_of self.old) }
        ensures answer { TriesWithWarnings T.reads name.now (state_of self.old) result (state_of self.new)
            (map content_of warnings.old.items) (map content_of warnings.new.items) }
        ensures kept { Extends (map content_of warnings.old.items) (map content_of warnings.new.items) }
        ensures recorded { IfOk result (λ field. kept (state_of self.old) ≤ kept (state_of self.new)) }
        ensures whole { AllWhole (state_of self.new) }
    {
        match self.take_placed(name)? {
            Some((_, value)) => read_or_keep(self.alloc, value, &mut self.errors, warnings),
            None => Ok(None),
        }
    }
}
