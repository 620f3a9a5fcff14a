//! The errors of a typed read.
ghost use Rattle.std.specs.Prelude.{◌≡◌, ◌++◌, length, slice_get, option_map, OnOk, OnErr, IfErr, IfOk, Some, map};
ghost use Rattle.std.specs.Iterator.{YieldsFirstBy, item_count};
ghost use Rattle.toml_span_tree.specs.Error.{content_of};
ghost use Rattle.toml_span_tree.specs.Errors.{all};
ghost use Rattle.toml_span_tree.specs.code.Errors.{all_of_option};

use crate::error::Error;
use std::alloc::{AllocError, Global};
use std::fmt::{Display, Formatter, Write};
use std::marker::Model;
use std::{fmt, mem};
use toml_span_lex::stop::Stop;

/// The errors of a typed read, in the order in which they were found. There is at least one.
#[derive(Debug, Drop)]
pub struct DeserError<'s> {
    earlier: Option<Vec<Error<'s>>>,
    last: Error<'s>,
}

impl<'s> Model for DeserError<'s> {
    ghost use Rattle.toml_span_tree.specs.Errors.{Errors};
    ghost use Rattle.toml_span_tree.specs.code.Errors.{faults_in};
    ghost use Rattle.toml_span_tree.specs.Error.{content_of};

    ghost Value = { Errors };

    ghost view = { λ e. record { earlier = faults_in e.earlier; last = content_of e.last } };
}

impl<'s> From<Error<'s>> for DeserError<'s> {
    ghost use Rattle.toml_span_tree.specs.Errors.{one};
    ghost use Rattle.toml_span_tree.specs.Error.{content_of};

    ghost from_gives = { λ error faults. faults ≡ one (content_of error) };

    fn from(error: Error<'s>) -> Self {
        DeserError {
            earlier: None,
            last: error,
        }
    }
}

impl<'s> From<DeserError<'s>> for Stop<DeserError<'s>> {
    ghost use Rattle.toml_span_lex.specs.declared.stop.Stop.TheVariants.{Fault};

    ghost from_gives = { λ faults stop. stop ≡ Fault faults };

    fn from(faults: DeserError<'s>) -> Stop<DeserError<'s>> {
        Stop::Fault(faults)
    }
}

impl Display for DeserError<'_> {
    ghost use Rattle.toml_span_tree.specs.Errors.{lines};

    ghost output = { λ faults. Some (lines (all faults)) };

    fn fmt<W: Write>(&self, f: &mut Formatter<W>) -> fmt::Result {
        for error in self.earlier() {
            writeln!(f, "{error}")?;
        }
        let last = self.last();
        writeln!(f, "{last}")
    }
}

impl std::error::Error for DeserError<'_> {}

/// The error of `merge` if an allocation fails, with the errors that were not appended.
#[derive(Debug, Drop)]
pub struct Unmerged<'s> {
    pub other: DeserError<'s>,
    pub error: AllocError,
}

impl<'s> DeserError<'s> {
    /// Returns the number of errors, which is at least 1.
    pub fn len(&self) -> usize
        ensures { result ≡ length (all self.now) }
    {
        match &self.earlier {
            Some(earlier) => earlier.len() + 1,
            None => 1,
        }
    }

    /// Returns the error at `index`, counted from 0, or `None` if there are at most `index` errors.
    pub fn get(&self, index: usize) -> Option<&Error<'s>>
        ensures { option_map (λ e. content_of e.now) result ≡ slice_get (all self.now) index }
    {
        let earlier = self.earlier();
        if index < earlier.len() {
            Some(&earlier[index])
        } else if index == earlier.len() {
            Some(self.last())
        } else {
            None
        }
    }

    /// Returns the last error.
    pub fn last(&self) -> &Error<'s>
        ensures { content_of result.now ≡ self.now.last }
    {
        &self.last
    }

    /// Returns an iterator over the errors, in order.
    pub fn iter(&self) -> ErrorIter<'_, 's>
        ensures { result ≡ all self.now }
    {
        ErrorIter {
            earlier: self.earlier(),
            last: Some(self.last()),
        }
    }

    /// Returns all errors except the last.
    fn earlier(&self) -> &[Error<'s>]
        ensures { map content_of result.now ≡ self.now.earlier }
    {
        match &self.earlier {
            Some(earlier) => earlier.as_slice(),
            None => &[],
        }
    }

    /// Appends the errors of `other`. If an allocation fails, nothing has changed, and `other` is returned in the
    /// error.
    pub fn merge(&mut self, alloc: Global, other: DeserError<'s>) -> Result<(), Unmerged<'s>>
        ensures ok { OnOk result (all self.new ≡ all self.old ++ all other.entry) }
        ensures err { IfErr result (λ u. (self.new ≡ self.old) × (u.other ≡ other.entry)) }
    {
        let earlier = self.earlier.get_or_insert(Vec::new(alloc));
        if let Err(error) = earlier.reserve(other.len()) {
            return Err(Unmerged { other, error });
        }
        let DeserError {
            earlier: more,
            last,
        } = other;
        earlier.push_reserved(mem::replace(&mut self.last, last));
        if let Some(mut more) = more {
            earlier.append(&mut more).unwrap();
        }
        Ok(())
    }

    /// Converts the errors into a list, in order. Fails if an allocation fails.
    pub fn into_errors(self, alloc: Global) -> Result<Vec<Error<'s>>, AllocError>
        ensures { IfOk result (λ list. map content_of list.items ≡ all self.entry) }
    {
        let mut list = Vec::new(alloc);
        self.append_to(&mut list)?;
        Ok(list)
    }

    /// Appends the errors to a list, in order. If an allocation fails, the list is unchanged, and the errors are
    /// dropped.
    pub fn append_to(self, list: &mut Vec<Error<'s>>) -> Result<(), AllocError>
        ensures ok { OnOk result (map content_of list.new.items ≡ map content_of list.old.items ++ all self.entry) }
        ensures err { OnErr result (list.new.items ≡ list.old.items) }
    {
        if let Err(e) = list.reserve(self.len()) {
            drop(self);
            return Err(e);
        }
        let DeserError { earlier, last } = self;
        if let Some(mut earlier) = earlier {
            list.append(&mut earlier).unwrap();
        }
        list.push_reserved(last);
        Ok(())
    }

    /// Converts a list of errors into a `DeserError`, or returns `None` if the list is empty. Does not allocate.
    pub fn from_list(mut list: Vec<Error<'s>>) -> Option<DeserError<'s>>
        ensures { all_of_option result ≡ map content_of list.entry.items }
    {
        let last = list.pop()?;
        Some(DeserError {
            earlier: Some(list),
            last,
        })
    }
}

/// An iterator over the errors of a read, in order.
#[derive(Drop)]
pub struct ErrorIter<'a, 's> {
    earlier: &'a [Error<'s>],
    last: Option<&'a Error<'s>>,
}

impl<'a, 's> Model for ErrorIter<'a, 's> {
    ghost use Rattle.std.specs.Prelude.{List, ◌++◌, map};
    ghost use Rattle.toml_span_tree.specs.Error.{ErrorContent, content_of};
    ghost use Rattle.toml_span_tree.specs.code.Errors.{last_left};

    ghost Value = { List ErrorContent };

    ghost view = { λ i. map content_of i.earlier.now ++ last_left i.last };
}

impl<'a, 's> Iterator for ErrorIter<'a, 's> {
    type Item = &'a Error<'s>;

    ghost next_gives = { YieldsFirstBy (λ e. content_of e.now) (λ s. s) };

    ghost remaining = { item_count (λ s. s) };

    fn next(&mut self) -> Option<&'a Error<'s>> {
        match self.earlier {
            [first, rest @ ..] => {
                self.earlier = rest;
                Some(first)
            }
            [] => self.last.take(),
        }
    }
}
