//! The call that formats a document.
ghost use Rattle.std.specs.Prelude.{◌≡◌, ◌≢◌, ◌⊎◌, ℕ, List};
ghost use Rattle.toml_span_format.specs.Document.{SameDocument};
ghost use Rattle.toml_span_c.specs.Calls.{Holds, IsDocument, IsFaultOf, IsFormatted, IsInvalid, IsNewStatus};

use crate::answer::{Answer, answer_to};
use crate::faults::{FaultRecord, fault_of};
use crate::texts::put_whole;
use std::alloc::Global;
use toml_span::Stop;
use toml_span_format::{Options, format};

/// The maximum number of spaces per level of indentation.
pub const MOST_SPACES: usize = 64;

/// Formats a valid document. On success, returns 0, writes the formatted text to `out` if it fits, and sets `needed` to
/// the length of this text. Returns 3 if the text would differ from the document in more than its layout, or 4 if an
/// allocation fails; `out` and `needed` are then unchanged.
fn put_formatted(
    alloc: Global,
    document: &str,
    options: Options,
    out: &mut [u8],
    needed: &mut usize,
) -> u32
    ensures status { (result ≡ 0) ⊎ ((result ≡ 3) ⊎ (result ≡ 4)) }
    ensures made { result ≡ 0
        → (new : List ℕ) × SameDocument document.now new × Holds out.old out.new needed.new new }
    ensures out_kept { result ≢ 0 → (out.new ≡ out.old) × (needed.new ≡ needed.old) }
{
    match format(alloc, document, options) {
        Ok(new) => {
            put_whole(out, needed, new.as_str());
            0
        }
        Err(Stop::Fault(_)) => 3,
        Err(Stop::Memory(_)) => 4,
    }
}

/// Formats a document. `width` is the width of a line in characters. `indent` is the number of spaces per level of
/// indentation; a larger number than 64 counts as 64.
///
/// Returns one of these statuses. Outputs that the status does not mention stay as they are.
///
/// - 0: `out` has the result, if it fits, and `needed` is the length of the result.
/// - 1: the document is not valid TOML; `fault` is its error.
/// - 2: the document is longer than 16 MiB, or not valid UTF-8.
/// - 3: the result would differ from the document in more than its layout, which is a bug.
/// - 4: an allocation failed.
#[unsafe(no_mangle)]
pub extern "C" fn toml_span_format(
    alloc: Global,
    text: &[u8],
    width: usize,
    indent: usize,
    out: &mut [u8],
    needed: &mut usize,
    fault: &mut FaultRecord,
) -> u32
    ensures status { IsNewStatus text.now result }
    ensures made { result ≡ 0
        → (new : List ℕ) × IsFormatted text.now new × Holds out.old out.new needed.new new }
    ensures faulty { result ≡ 1 → IsInvalid text.now (IsFaultOf text.now fault.new) }
    ensures unmade { result ≡ 3 → IsDocument text.now }
    ensures out_kept { result ≢ 0 → (out.new ≡ out.old) × (needed.new ≡ needed.old) }
    ensures fault_kept { result ≢ 1 → fault.new ≡ fault.old }
{
    match answer_to(alloc, text) {
        Answer::Tree(document, root) => {
            drop(root);
            let options = Options {
                width,
                indent: indent.min(MOST_SPACES),
                ..Options::new()
            };
            put_formatted(alloc, document, options, out, needed)
        }
        Answer::Fault(document, error) => {
            *fault = fault_of(document, &error);
            1
        }
        Answer::Unread => 2,
        Answer::Memory => 4,
    }
}
