//! Finds what a schema does not allow in a value, and the deprecated values in it. In all functions, `depth` is the
//! number of subschemas that may still be nested.

use crate::applied::{applied, has_key, names, push_to_each};
use crate::asserted::has_all;
use crate::error::CheckError;
use crate::keyword::{Keyword, Placed};
use crate::listed::{Part, parts, parts_of_kind};
use crate::messages::Text;
use crate::schema::Schema;
use crate::valid::spend;
use std::alloc::Global;
use toml_span_tree::Value;

/// The maximum number of violations that are found: one more than are reported.
pub(crate) const MOST: usize = 101;

/// What is wrong where a keyword does not allow a value.
#[derive(Clone, Copy)]
pub(crate) enum Cause<'s> {
    /// The keyword does not allow the value.
    Refused,
    /// The subschema for the entry or element is `false`.
    Never,
    /// A required key is missing.
    Missing(&'s str),
    /// The table has the first key, but not all of the others, which the first requires.
    Requires(&'s str, &'s [String]),
    /// The name of the entry is not allowed.
    Name,
    /// The number of elements that are valid against the subschema of `contains`.
    Count(usize),
    /// The value has another type than those in the alternatives with these indices, or is not among their constants.
    Unlisted(&'s [usize]),
    /// The value is valid against two alternatives of `oneOf`. These are their positions.
    Both(usize, usize),
}

/// A keyword of a schema.
#[derive(Clone, Copy)]
pub(crate) struct Place<'s> {
    /// The index of the schema.
    pub(crate) node: usize,
    pub(crate) placed: &'s Placed,
}

/// A keyword that does not allow a value.
#[derive(Drop)]
pub(crate) struct Violation<'s, 'v, 'de> {
    pub(crate) at: Place<'s>,
    pub(crate) cause: Cause<'s>,
    /// The value or, for `Cause::Never` and `Cause::Name`, the entry or element that is not allowed in it.
    pub(crate) part: Part<'v, 'de>,
    /// How many keys and positions lead to the value.
    pub(crate) level: usize,
    /// The constants that other alternatives of `anyOf` or `oneOf` list for the value, as messages show them.
    pub(crate) others: Vec<&'s str>,
    /// For `Cause::Missing` and values with a header, the path of the value as a dotted key with positions, such as
    /// `a[0].b`.
    pub(crate) table: String,
}

/// What has been found so far.
#[derive(Drop)]
pub(crate) struct Walk<'s, 'v, 'de> {
    pub(crate) alloc: Global,
    /// The number of subschemas that may still be applied.
    pub(crate) left: u64,
    /// The entries and elements that lead to the value that is being visited.
    pub(crate) path: Vec<Part<'v, 'de>>,
    pub(crate) violations: Vec<Violation<'s, 'v, 'de>>,
    /// The indices of schemas with `deprecated: true`, and the values that they apply to.
    pub(crate) deprecated: Vec<(usize, Part<'v, 'de>)>,
    /// Why the walk failed, if it did. Then `explore` does nothing any more, and what has been found is of no use.
    stop: Option<CheckError>,
}

impl<'s, 'v, 'de> Walk<'s, 'v, 'de> {
    /// Ends the walk with an error, unless it has already failed.
    pub(crate) fn fail(&mut self, error: CheckError) {
        if self.stop.is_none() {
            self.stop = Some(error);
        }
    }

    /// Adds a violation, as it is.
    pub(crate) fn add(&mut self, violation: Violation<'s, 'v, 'de>) {
        if self.violations.push(violation).is_err() {
            self.fail(CheckError::OutOfMemory);
        }
    }

    /// Adds a violation at `part`. A violation of `enum` or `const` replaces that of `type` of the same schema.
    pub(crate) fn push(&mut self, at: Place<'s>, cause: Cause<'s>, part: Part<'v, 'de>) {
        let level = self.path.len();
        let mut table = Text::new(self.alloc);
        if matches!(cause, Cause::Missing(_)) || part.is_header() {
            self.push_path(&mut table);
        }
        let Ok(table) = table.finish() else {
            return self.fail(CheckError::OutOfMemory);
        };
        if let (Keyword::Enum(_, _), Some(last)) = (&at.placed.keyword, self.violations.last()) {
            if last.is_type() && last.at.node == at.node && last.level == level {
                let _type = self.violations.pop();
            }
        }
        self.add(Violation {
            at,
            cause,
            part,
            level,
            others: Vec::new(self.alloc),
            table,
        });
    }

    /// Appends the path of the value that is being visited as a dotted key with positions.
    fn push_path(&self, out: &mut Text) {
        let mut dot = "";
        for part in self.path.as_slice() {
            match part {
                Part::Member(key, _) => {
                    let name = key.name.as_ref();
                    out.push(dot);
                    if is_plain(name) {
                        out.push(name);
                    } else {
                        out.push_quoted(self.alloc, name);
                    }
                    dot = ".";
                }
                Part::Element(at, _) => {
                    out.push("[");
                    out.push_number(*at);
                    out.push("]");
                    dot = ".";
                }
                Part::Whole(_) => {}
            }
        }
    }
}

impl<'s, 'v, 'de> Violation<'s, 'v, 'de> {
    /// Returns whether the value has a type that `type` does not allow.
    pub(crate) fn is_type(&self) -> bool {
        matches!(&self.at.placed.keyword, Keyword::Type(_))
    }

    /// Adds those of `constants` whose values start where this value starts to `others`. Returns false if an allocation
    /// fails.
    pub(crate) fn add_others(&mut self, constants: &[(usize, &'s str)]) -> bool {
        let start = self.part.value().span.start;
        let mut is_kept = true;
        for pair in constants {
            if pair.0 == start {
                is_kept &= self.others.push(pair.1).is_ok();
            }
        }
        is_kept
    }

    /// Returns whether the value has a wrong type or is not among the listed constants.
    pub(crate) fn is_unlisted(&self) -> bool {
        let is_enum = matches!(&self.at.placed.keyword, Keyword::Enum(_, _));
        is_enum || self.is_type() || matches!(self.cause, Cause::Unlisted(_))
    }

    /// Returns whether the entry or element is not allowed.
    pub(crate) fn is_never(&self) -> bool {
        matches!(self.cause, Cause::Never) || matches!(&self.at.placed.keyword, Keyword::Never)
    }
}

impl Schema {
    /// Finds what the schema at index `node` does not allow in `value`, at most `MOST` violations. Fails like
    /// `is_valid`.
    pub(crate) fn walked<'s, 'v, 'de>(
        &'s self,
        left: &mut u64,
        node: usize,
        value: &'v Value<'de>,
    ) -> Result<Walk<'s, 'v, 'de>, CheckError> {
        let alloc = self.alloc();
        let mut walk: Walk<'s, 'v, 'de> = Walk {
            alloc,
            left: *left,
            path: Vec::new(alloc),
            violations: Vec::new(alloc),
            deprecated: Vec::new(alloc),
            stop: None,
        };
        self.explore(&mut walk, self.depth, node, Part::Whole(value));
        *left = walk.left;
        match walk.stop {
            Some(error) => Err(error),
            None => Ok(walk),
        }
    }

    /// Finds what the schema at index `node` does not allow in `part`. Fails like `is_valid`.
    #[cycle(explore)]
    pub(crate) fn explore<'s, 'v, 'de>(
        &'s self,
        walk: &mut Walk<'s, 'v, 'de>,
        depth: usize,
        node: usize,
        part: Part<'v, 'de>,
    ) {
        if walk.stop.is_some() {
            return;
        }
        if let Err(error) = spend(&mut walk.left) {
            return walk.fail(error);
        }
        if depth == 0 {
            return walk.fail(CheckError::TooDeep);
        }
        let is_deprecated = match self.nodes.get(node) {
            Some(node) => node.deprecated,
            None => false,
        };
        if is_deprecated && walk.deprecated.push((node, part)).is_err() {
            walk.fail(CheckError::OutOfMemory);
        }
        for placed in self.keywords(node) {
            if walk.violations.len() < MOST && walk.stop.is_none() {
                self.explore_keyword(walk, depth - 1, Place { node, placed }, part);
            }
        }
    }

    /// Finds what the keyword at `at` does not allow in `part`. Fails like `is_valid`.
    #[cycle(explore)]
    fn explore_keyword<'s, 'v, 'de>(
        &'s self,
        walk: &mut Walk<'s, 'v, 'de>,
        depth: usize,
        at: Place<'s>,
        part: Part<'v, 'de>,
    ) {
        let (alloc, value) = (walk.alloc, part.value());
        match &at.placed.keyword {
            Keyword::AllOf(nodes) => {
                for next in nodes.as_slice() {
                    self.explore(walk, depth, *next, part);
                }
            }
            Keyword::DependentSchemas(entries) => {
                for entry in entries.as_slice() {
                    if has_key(value, entry.0.as_str()) {
                        self.explore(walk, depth, entry.1, part);
                    }
                }
            }
            Keyword::If(condition, yes, no) => {
                match self.is_valid(&mut walk.left, depth, *condition, value) {
                    Ok(holds) => {
                        if let Some(next) = if holds { *yes } else { *no } {
                            self.explore(walk, depth, next, part);
                        }
                    }
                    Err(error) => walk.fail(error),
                }
            }
            Keyword::Items(_, _)
            | Keyword::Properties(_, _, _)
            | Keyword::UnevaluatedItems(_, _)
            | Keyword::UnevaluatedProperties(_, _) => {
                match self.inner(&mut walk.left, depth, &at.placed.keyword, part) {
                    Ok(list) => self.explore_parts(walk, depth, at, list.as_slice()),
                    Err(error) => walk.fail(error),
                }
            }
            _ => match self.allows(&mut walk.left, depth, &at.placed.keyword, value) {
                Ok(true) => self.explore_valid(walk, depth, &at.placed.keyword, part),
                Ok(false) => self.explore_refused(walk, depth, at, part),
                Err(error) => walk.fail(error),
            },
        }
    }

    /// Returns the entries or elements of `part` that a keyword for these applies a subschema to, each with this
    /// subschema. Fails like `is_valid`.
    fn inner<'v, 'de>(
        &self,
        left: &mut u64,
        depth: usize,
        keyword: &Keyword,
        part: Part<'v, 'de>,
    ) -> Result<Vec<(usize, Part<'v, 'de>)>, CheckError> {
        let alloc = self.alloc();
        let (others, next, entries) = match keyword {
            Keyword::UnevaluatedItems(others, next) => (*others, *next, false),
            Keyword::UnevaluatedProperties(others, next) => (*others, *next, true),
            _ => return Ok(applied(self, keyword, part)?),
        };
        let value = part.value();
        let all = parts_of_kind(alloc, value, entries)?;
        let rest = self.unevaluated(left, depth, others, value, all.as_slice())?;
        let mut list = Vec::new(alloc);
        push_to_each(&mut list, next, rest.as_slice())?;
        Ok(list)
    }

    /// Finds what is not allowed in entries or elements of the visited value: each pair of a subschema and an entry or
    /// element in `list`. `at` is the keyword with the subschemas. Fails like `is_valid`.
    #[cycle(explore)]
    fn explore_parts<'s, 'v, 'de>(
        &'s self,
        walk: &mut Walk<'s, 'v, 'de>,
        depth: usize,
        at: Place<'s>,
        list: &[(usize, Part<'v, 'de>)],
    ) {
        for pair in list {
            let (next, inner) = *pair;
            if walk.violations.len() >= MOST || walk.stop.is_some() {
                return;
            }
            if !self.is_never(next) {
                if walk.path.push(inner).is_err() {
                    return walk.fail(CheckError::OutOfMemory);
                }
                self.explore(walk, depth, next, inner);
                let _inner = walk.path.pop();
            } else if !is_counted(walk, at.node, inner) {
                walk.push(at, Cause::Never, inner);
            }
        }
    }

    /// Finds the deprecated values in `part` if the keyword is `anyOf` or `oneOf`, which allows the value. Fails like
    /// `is_valid`.
    #[cycle(explore)]
    fn explore_valid<'s, 'v, 'de>(
        &'s self,
        walk: &mut Walk<'s, 'v, 'de>,
        depth: usize,
        keyword: &'s Keyword,
        part: Part<'v, 'de>,
    ) {
        let (Keyword::AnyOf(nodes) | Keyword::OneOf(nodes)) = keyword else {
            return;
        };
        for next in nodes.as_slice() {
            if walk.stop.is_some() {
                return;
            }
            match self.is_valid(&mut walk.left, depth, *next, part.value()) {
                Ok(true) => self.explore(walk, depth, *next, part),
                Ok(false) => {}
                Err(error) => walk.fail(error),
            }
        }
    }

    /// Finds what the keyword at `at`, which does not allow `part`, does not allow in it. The keyword applies no
    /// subschema to the value itself, or is `anyOf` or `oneOf`. Fails like `is_valid`.
    #[cycle(explore)]
    fn explore_refused<'s, 'v, 'de>(
        &'s self,
        walk: &mut Walk<'s, 'v, 'de>,
        depth: usize,
        at: Place<'s>,
        part: Part<'v, 'de>,
    ) {
        let (alloc, value) = (walk.alloc, part.value());
        match &at.placed.keyword {
            Keyword::AnyOf(nodes) | Keyword::OneOf(nodes) => {
                self.explore_alternatives(walk, depth, at, nodes.as_slice(), part);
            }
            Keyword::Required(wanted) => {
                for name in wanted.as_slice() {
                    if !has_key(value, name.as_str()) {
                        walk.push(at, Cause::Missing(name.as_str()), part);
                    }
                }
            }
            Keyword::DependentRequired(entries) => {
                for entry in entries.as_slice() {
                    let (name, wanted) = (entry.0.as_str(), entry.1.as_slice());
                    if has_key(value, name) && !has_all(value, wanted) {
                        walk.push(at, Cause::Requires(name, wanted), part);
                    }
                }
            }
            Keyword::PropertyNames(node) => {
                match self.wrong_names(&mut walk.left, depth, *node, value) {
                    Ok(list) => {
                        for entry in list.as_slice() {
                            walk.push(at, Cause::Name, *entry);
                        }
                    }
                    Err(error) => walk.fail(error),
                }
            }
            Keyword::Contains(_, _, _, _) => {
                match self.matching(&mut walk.left, depth, &at.placed.keyword, part) {
                    Ok(count) => walk.push(at, Cause::Count(count), part),
                    Err(error) => walk.fail(error),
                }
            }
            _ => walk.push(at, Cause::Refused, part),
        }
    }

    /// Returns the entries of a table whose names are not valid against the schema at index `node`. Fails like
    /// `is_valid`.
    fn wrong_names<'v, 'de>(
        &self,
        left: &mut u64,
        depth: usize,
        node: usize,
        value: &'v Value<'de>,
    ) -> Result<Vec<Part<'v, 'de>>, CheckError> {
        let alloc = self.alloc();
        let mut wrong = Vec::new(alloc);
        let entries = parts(alloc, value)?;
        for (entry, name) in entries.iter().zip(names(alloc, value)?.iter()) {
            if !self.is_valid(left, depth, node, name)? {
                wrong.push(*entry)?;
            }
        }
        Ok(wrong)
    }

    /// Returns how many elements are valid against the subschema of `contains`. Fails like `is_valid`.
    fn matching(
        &self,
        left: &mut u64,
        depth: usize,
        keyword: &Keyword,
        part: Part<'_, '_>,
    ) -> Result<usize, CheckError> {
        let list = applied(self, keyword, part)?;
        self.count_valid(left, depth, list.as_slice())
    }

    /// Returns whether the schema at index `node` is `false`.
    pub(crate) fn is_never(&self, node: usize) -> bool {
        match self.keywords(node) {
            [placed] => matches!(&placed.keyword, Keyword::Never),
            _ => false,
        }
    }
}

/// Returns whether `part` is an element after one that the schema at index `node` does not allow either. An array with
/// too many elements is reported once.
fn is_counted(walk: &Walk<'_, '_, '_>, node: usize, part: Part<'_, '_>) -> bool {
    match (part, walk.violations.last()) {
        (Part::Element(_, _), Some(last)) => {
            last.at.node == node && last.is_never() && last.level == walk.path.len()
        }
        _ => false,
    }
}

/// Returns whether a word can be written as a bare key.
pub(crate) fn is_plain(word: &str) -> bool {
    for c in word.chars() {
        if !c.is_ascii_alphanumeric() && c != '-' && c != '_' {
            return false;
        }
    }
    !word.is_empty()
}
