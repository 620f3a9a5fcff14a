//! Finds out which alternative of `anyOf` or `oneOf` was meant.

use crate::error::CheckError;
use crate::keyword::Keyword;
use crate::listed::Part;
use crate::messages::{Listed, MOST_NESTED};
use crate::schema::Schema;
use crate::walk::{Cause, Place, Violation, Walk};
use std::alloc::AllocError;
use std::mem::replace;

/// What is known of the alternatives that have been tried so far, of which the value matches none or, for `oneOf`, too
/// many.
#[derive(Drop)]
struct Tried<'s, 'v, 'de> {
    /// The positions of the first two alternatives that the value is valid against.
    first: Option<usize>,
    second: Option<usize>,
    /// The number of alternatives that a value of TOML can match, but this value does not.
    count: usize,
    /// Whether the value has a wrong type, or is not among the constants, in all of these.
    is_unlisted: bool,
    /// The constants that the alternatives list for entries of the value, with the starts of the entries' values.
    constants: Vec<(usize, &'s str)>,
    /// The violations of the alternative with the least distance, and this distance.
    best: Vec<Violation<'s, 'v, 'de>>,
    least: usize,
}

impl Schema {
    /// Finds what the keyword `anyOf` or `oneOf` at `at`, which does not allow `part`, does not allow in it. `nodes`
    /// are the alternatives. Fails like `is_valid`.
    #[cycle(explore)]
    pub(crate) fn explore_alternatives<'s, 'v, 'de>(
        &'s self,
        walk: &mut Walk<'s, 'v, 'de>,
        depth: usize,
        at: Place<'s>,
        nodes: &'s [usize],
        part: Part<'v, 'de>,
    ) {
        let alloc = walk.alloc;
        let mut tried = Tried {
            first: None,
            second: None,
            count: 0,
            is_unlisted: true,
            constants: Vec::new(alloc),
            best: Vec::new(alloc),
            least: usize::MAX,
        };
        let warned = walk.deprecated.len();
        for (position, next) in nodes.iter().enumerate() {
            let outer = replace(&mut walk.violations, Vec::new(alloc));
            self.explore(walk, depth, *next, part);
            let found = replace(&mut walk.violations, outer);
            if !found.is_empty() {
                self.compare(walk, &mut tried, *next, found, part);
            } else if tried.first.is_none() {
                tried.first = Some(position);
            } else if tried.second.is_none() {
                tried.second = Some(position);
            }
        }
        walk.deprecated.truncate(warned);
        conclude(walk, tried, at, nodes, part);
    }

    /// Notes that `part` is not valid against the alternative at index `node`, because of the violations `found`.
    /// Ignores an alternative that no value of TOML matches.
    fn compare<'s, 'v, 'de>(
        &'s self,
        walk: &mut Walk<'s, 'v, 'de>,
        tried: &mut Tried<'s, 'v, 'de>,
        node: usize,
        found: Vec<Violation<'s, 'v, 'de>>,
        part: Part<'v, 'de>,
    ) {
        if self.fits_nothing(MOST_NESTED, node) {
            return;
        }
        let level = walk.path.len();
        let mut is_unlisted = false;
        for one in found.iter() {
            is_unlisted |= one.is_unlisted() && one.level == level;
            if let (Keyword::Enum(_, shown), 1) = (
                &one.at.placed.keyword,
                one.level.saturating_sub(level),
            ) {
                let start = one.part.value().span.start;
                for constant in shown.as_slice() {
                    if tried.constants.push((start, constant.as_str())).is_err() {
                        walk.fail(CheckError::OutOfMemory);
                    }
                }
            }
        }
        tried.is_unlisted &= is_unlisted;
        tried.count = tried.count.saturating_add(1);
        match self.distance(found.as_slice(), level, node, part) {
            Ok(distance) => {
                if distance < tried.least {
                    tried.least = distance;
                    tried.best = found;
                }
            }
            Err(_refused) => walk.fail(CheckError::OutOfMemory),
        }
    }

    /// Returns whether no TOML value is valid against the schema at index `node`, such as `false` or `type: null`, or
    /// false if the schema has to be looked at more closely. `depth` is the number of schemas that may be nested.
    #[cycle(fits_nothing)]
    fn fits_nothing(&self, depth: usize, node: usize) -> bool {
        if depth == 0 {
            return false;
        }
        for placed in self.keywords(node) {
            let nothing = match &placed.keyword {
                Keyword::Never => true,
                Keyword::Type(types) => types.is_empty(),
                Keyword::Enum(values, _) => values.is_empty(),
                Keyword::AllOf(nodes) => {
                    let mut any = false;
                    for other in nodes.as_slice() {
                        any = any || self.fits_nothing(depth - 1, *other);
                    }
                    any
                }
                _ => false,
            };
            if nothing {
                return true;
            }
        }
        false
    }

    /// Returns how badly the alternative at index `node` fits `part`, whose level is `level`, from the violations
    /// `found`. A wrong type of the value itself counts most, then a constant that is not the nearest to a string, then
    /// other keywords about the value itself, then wrong constants in its entries, then tables without a key that the
    /// alternative knows, and then missing and unknown keys.
    fn distance<'s>(
        &'s self,
        found: &[Violation<'s, '_, '_>],
        level: usize,
        node: usize,
        part: Part<'_, '_>,
    ) -> Result<usize, AllocError> {
        let mut sum = if self.shares_key(node, part)? {
            0usize
        } else {
            50
        };
        for one in found {
            let is_meant = self.meant(one)?.is_some();
            let weight = match (
                &one.at.placed.keyword,
                one.cause,
                one.level.saturating_sub(level),
            ) {
                _ if is_meant => 5,
                (_, Cause::Missing(_) | Cause::Never, 0) => 100,
                (Keyword::Type(_), _, 0) | (_, Cause::Unlisted(_), 0) => 1_000_000,
                (Keyword::Enum(_, _), _, 0) => 50_000,
                (_, _, 0) => 20_000,
                (Keyword::Enum(_, _), _, 1) => 10_000,
                _ => 10,
            };
            sum = sum.saturating_add(weight);
        }
        Ok(sum)
    }

    /// Returns whether a value is not a table, or has a key of `properties` in the schema at index `node`.
    fn shares_key(&self, node: usize, part: Part<'_, '_>) -> Result<bool, AllocError> {
        let Some(table) = part.value().as_table() else {
            return Ok(true);
        };
        for known in self.known_keys(&[node])? {
            for (key, _value) in table.iter() {
                if key.name.as_ref() == known {
                    return Ok(true);
                }
            }
        }
        Ok(false)
    }

    /// Adds the types and constants that the schemas at the indices `nodes` name to `listed`. `depth` is the number of
    /// schemas that may be nested.
    #[cycle(push_listed)]
    pub(crate) fn push_listed<'s>(
        &'s self,
        depth: usize,
        nodes: &[usize],
        listed: &mut Listed<'s>,
    ) {
        if depth == 0 {
            return;
        }
        for node in nodes {
            let keywords = self.keywords(*node);
            let mut is_listed = false;
            for placed in keywords {
                is_listed |= matches!(&placed.keyword, Keyword::Enum(_, _));
            }
            for placed in keywords {
                match &placed.keyword {
                    Keyword::Enum(_, shown) => listed.push_all(shown.as_slice()),
                    Keyword::Type(more) if !is_listed => listed.types.add(*more),
                    Keyword::AllOf(inner) | Keyword::AnyOf(inner) | Keyword::OneOf(inner) => {
                        self.push_listed(depth - 1, inner.as_slice(), listed);
                    }
                    _ => {}
                }
            }
        }
    }
}

/// Adds to the violations what the alternatives `nodes` of the keyword `at` do not allow in `part`: the violations of
/// the best alternative, or one violation if the value matches two alternatives or has a wrong type for all of them.
fn conclude<'s, 'v, 'de>(
    walk: &mut Walk<'s, 'v, 'de>,
    tried: Tried<'s, 'v, 'de>,
    at: Place<'s>,
    nodes: &'s [usize],
    part: Part<'v, 'de>,
) {
    if let (Some(first), Some(second)) = (tried.first, tried.second) {
        return walk.push(at, Cause::Both(first, second), part);
    }
    if tried.count != 1 && tried.is_unlisted {
        return walk.push(at, Cause::Unlisted(nodes), part);
    }
    let Tried {
        constants,
        best,
        ..
    } = tried;
    for violation in best {
        let mut violation = violation;
        if violation.level.saturating_sub(walk.path.len()) == 1
            && !violation.add_others(constants.as_slice())
        {
            walk.fail(CheckError::OutOfMemory);
        }
        walk.add(violation);
    }
}
