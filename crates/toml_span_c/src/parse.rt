//! The calls that parse a document.
ghost use Rattle.std.specs.Prelude.{◌≡◌, ◌≢◌, ⊤};
ghost use Rattle.toml_span_c.specs.Calls.{IsDocument, IsFaultOf, IsInvalid, IsRead, IsStatus};

use crate::answer::{Answer, answer_to};
use crate::faults::{FaultRecord, fault_of};
use crate::fill::put_tree;
use crate::records::{Counts, Record};
use std::alloc::Global;

/// Parses a document.
///
/// Returns one of these statuses. Outputs that the status does not mention stay as they are.
///
/// - 0: `nodes` and `strings` have as many records and bytes as fit, and `counts` has the numbers of all of them.
/// - 1: the document is not valid TOML; `fault` is its error.
/// - 2: the document is longer than 16 MiB, or not valid UTF-8.
/// - 4: an allocation failed.
#[unsafe(no_mangle)]
pub extern "C" fn toml_span_parse(
    alloc: Global,
    text: &[u8],
    nodes: &mut [Record],
    strings: &mut [u8],
    counts: &mut Counts,
    fault: &mut FaultRecord,
) -> u32
    ensures status { IsStatus text.now result }
    ensures read { result ≡ 0 → IsRead text.now nodes.old nodes.new strings.old strings.new counts.new }
    ensures faulty { result ≡ 1 → IsInvalid text.now (IsFaultOf text.now fault.new) }
    ensures kept { result ≢ 0 → (nodes.new ≡ nodes.old) × (strings.new ≡ strings.old) × (counts.new ≡ counts.old) }
    ensures fault_kept { result ≢ 1 → fault.new ≡ fault.old }
{
    match answer_to(alloc, text) {
        Answer::Tree(document, root) => {
            *counts = put_tree(document, &root, nodes, strings);
            0
        }
        Answer::Fault(document, error) => {
            *fault = fault_of(document, &error);
            1
        }
        Answer::Unread => 2,
        Answer::Memory => 4,
    }
}

/// Parses a document, and returns only the status: 0 if the document is valid TOML, 1 if it is not, 2 if it is longer
/// than 16 MiB or not valid UTF-8, 4 if an allocation failed.
#[unsafe(no_mangle)]
pub extern "C" fn toml_span_check(alloc: Global, text: &[u8]) -> u32
    ensures status { IsStatus text.now result }
    ensures read { result ≡ 0 → IsDocument text.now }
    ensures faulty { result ≡ 1 → IsInvalid text.now (λ error. ⊤) }
{
    match answer_to(alloc, text) {
        Answer::Tree(_, _) => 0,
        Answer::Fault(_, _) => 1,
        Answer::Unread => 2,
        Answer::Memory => 4,
    }
}
