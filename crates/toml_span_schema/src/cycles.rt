//! Finds cycles, and the longest chain, of references and combinations that apply to the same value.

use crate::keyword::{Keyword, Node};
use std::alloc::{AllocError, Global};

/// A list of indices of compiled schemas. It remembers whether an allocation failed, so that only `finish` fails.
#[derive(Drop)]
pub(crate) struct Indices {
    pub(crate) list: Vec<usize>,
    pub(crate) is_refused: bool,
}

impl Indices {
    pub(crate) fn new(alloc: Global) -> Indices {
        Indices {
            list: Vec::new(alloc),
            is_refused: false,
        }
    }

    pub(crate) fn push(&mut self, node: usize) {
        self.is_refused |= self.list.push(node).is_err();
    }

    pub(crate) fn push_all(&mut self, nodes: &[usize]) {
        self.is_refused |= self.list.extend_from_slice(nodes).is_err();
    }

    /// Appends the indices of the subschemas that a keyword applies to the checked value itself, not to values inside
    /// it.
    fn push_in_place(&mut self, keyword: &Keyword) {
        match keyword {
            Keyword::AllOf(nodes) | Keyword::AnyOf(nodes) | Keyword::OneOf(nodes) => {
                self.push_all(nodes.as_slice());
            }
            Keyword::If(condition, yes, no) => {
                self.push(*condition);
                self.push_all(yes.as_slice());
                self.push_all(no.as_slice());
            }
            Keyword::DependentSchemas(schemas) => {
                for entry in schemas.as_slice() {
                    self.push(entry.1);
                }
            }
            Keyword::Not(node)
            | Keyword::UnevaluatedItems(node, _)
            | Keyword::UnevaluatedProperties(node, _) => self.push(*node),
            _ => {}
        }
    }

    /// Returns the list. Fails if an allocation failed.
    pub(crate) fn finish(self) -> Result<Vec<usize>, AllocError> {
        let Indices { list, is_refused } = self;
        if is_refused {
            Err(AllocError)
        } else {
            Ok(list)
        }
    }
}

/// Returns the indices of the subschemas that `node` applies to the checked value itself, not to values inside it.
pub(crate) fn in_place(alloc: Global, node: &Node) -> Result<Vec<usize>, AllocError> {
    let mut list = Indices::new(alloc);
    for placed in node.keywords.as_slice() {
        list.push_in_place(&placed.keyword);
    }
    list.finish()
}

/// The state of `longest_chain` for a compiled schema. In a chain of compiled schemas, each applies the next to the
/// same value.
#[derive(Drop)]
struct Chain {
    /// The number of subschemas that this schema applies to the same value and whose longest chains are not known yet.
    open: usize,
    /// The length of the longest chain that begins at this schema, as far as it is known.
    length: usize,
    /// The indices of the schemas that apply this schema to the same value.
    users: Vec<usize>,
}

/// Returns a `Chain` for each of the compiled schemas `nodes`, before any longest chain is known.
fn chains_of(alloc: Global, nodes: &[Node]) -> Result<Vec<Chain>, AllocError> {
    let mut chains = Vec::new(alloc);
    for _node in nodes {
        chains.push(Chain {
            open: 0,
            length: 0,
            users: Vec::new(alloc),
        })?;
    }
    for (i, node) in nodes.iter().enumerate() {
        let used = in_place(alloc, node)?;
        for at in used.as_slice() {
            if let Some(chain) = chains.get_mut(*at) {
                chain.users.push(i)?;
            }
        }
        if let Some(chain) = chains.get_mut(i) {
            chain.open = used.len();
        }
    }
    Ok(chains)
}

/// Extends the longest chain of the schema at index `at`, which must be known, to the schema's users. Appends to
/// `known` the users whose longest chains are known now. Returns the length of the schema's chain, or 0 if `at` is out
/// of range.
fn settle(
    alloc: Global,
    chains: &mut Vec<Chain>,
    known: &mut Vec<usize>,
    at: usize,
) -> Result<usize, AllocError> {
    let Some(chain) = chains.get(at) else {
        return Ok(0);
    };
    let length = chain.length;
    for user in Vec::from_slice(alloc, chain.users.as_slice())?.as_slice() {
        if let Some(other) = chains.get_mut(*user) {
            other.length = other.length.max(length.saturating_add(1));
            other.open = other.open.saturating_sub(1);
            if other.open == 0 {
                known.push(*user)?;
            }
        }
    }
    Ok(length)
}

/// Returns the length of the longest chain of the schemas `nodes`, which is the number of schemas in it minus 1, and
/// the index of the schema at which the chain begins. If there is a cycle, returns the highest number, and the index of
/// a schema in a cycle.
pub(crate) fn longest_chain(alloc: Global, nodes: &[Node]) -> Result<(usize, usize), AllocError> {
    let mut chains = chains_of(alloc, nodes)?;
    let mut known = Vec::new(alloc);
    for (i, chain) in chains.as_slice().iter().enumerate() {
        if chain.open == 0 {
            known.push(i)?;
        }
    }
    let mut longest = (0, 0);
    for at in 0..nodes.len() {
        let Some(start) = known.get(at).copied() else {
            return Ok((usize::MAX, start_of_cycle(chains.as_slice())));
        };
        let length = settle(alloc, &mut chains, &mut known, start)?;
        // (the first schema may only refer to the document of the others)
        if length > longest.0 {
            longest = (length, if start > 0 { start } else { longest.1 });
        }
    }
    Ok(longest)
}

/// Returns the index of the last of the schemas whose longest chains are not known.
fn start_of_cycle(chains: &[Chain]) -> usize {
    let mut start = 0;
    for (at, chain) in chains.iter().enumerate() {
        if chain.open > 0 {
            start = at;
        }
    }
    start
}
