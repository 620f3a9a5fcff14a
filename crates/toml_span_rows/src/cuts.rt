//! `cuts`: for each character of a text, parses the text before it. Each result must be a tree, or an error that begins
//! in this part of the text or at its end.
use crate::output::Out;
use std::alloc::Global;
use toml_span::{line_and_byte, parse};

/// Returns whether `parse` returns a whole tree, or an error whose place is right. The error's span must begin in the
/// text or at its end, and not end before its start. The line and column must be those of the start.
fn is_right(alloc: Global, text: &str, out: &mut Out) -> bool {
    match parse(alloc, text) {
        Ok(root) => {
            let is_whole = root.is_whole();
            drop(root);
            is_whole
        }
        Err(stop) => {
            let Some(fault) = out.ok(stop.fault()) else {
                return false;
            };
            let (span, line_info) = (fault.span, fault.line_info);
            drop(fault);
            let (line, byte) = line_and_byte(text, span);
            let place = Some((line.wrapping_sub(1), byte.wrapping_sub(1)));
            span.start <= text.len() && span.start <= span.end && line_info == place
        }
    }
}

/// Prints the number of cuts or, if a result is wrong, the first cut text with a wrong result.
pub fn push_cuts(alloc: Global, text: &str, out: &mut Out) {
    let mut count: usize = 0;
    for end in 0..text.len() {
        let Some(front) = text.get(..end) else {
            continue;
        };
        if !is_right(alloc, front, out) {
            return out.debug(front);
        }
        count = count.saturating_add(1);
    }
    out.debug(count);
    out.push_str(" right");
}
