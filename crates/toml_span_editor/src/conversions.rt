//! Converts tables and arrays to other forms, such as an inline table to a section.
ghost use Rattle.std.specs.Prelude.{IfOk, IfSome, map};
ghost use Rattle.toml_span_editor.specs.Conversions.{ConvertsBy};
ghost use Rattle.toml_span_read.specs.Data.{parsed_section};

use crate::document::Document;
use crate::edits::{Rewritten, differences};
use std::alloc::{AllocError, Global};
use toml_span_edit::{Conversion, converted};

/// A conversion that an editor offers.
#[derive(Clone, Copy)]
pub struct Offer {
    pub conversion: Conversion,
    /// The title that the editor shows.
    pub title: &'static str,
}

/// The conversions that an editor offers.
pub const OFFERS: [Offer; 5] = [
    Offer {
        conversion: Conversion::InlineToSection,
        title: "Convert inline table to section",
    },
    Offer {
        conversion: Conversion::SectionToInline,
        title: "Convert section to inline table",
    },
    Offer {
        conversion: Conversion::DottedToSection,
        title: "Convert dotted keys to section",
    },
    Offer {
        conversion: Conversion::ArrayToLines,
        title: "Write array with one element per line",
    },
    Offer {
        conversion: Conversion::ArrayToLine,
        title: "Write array on one line",
    },
];

/// Returns the edits that convert the table or array at the byte offset `at`, with the new text. The edits keep all
/// keys, values and comments. Returns `None` if there is nothing at `at` to which `conversion` applies, or if the
/// conversion is not possible (see `converted`). Fails if an allocation fails.
pub fn converting(
    alloc: Global,
    document: &Document<'_>,
    conversion: Conversion,
    at: usize,
) -> Result<Option<Rewritten>, AllocError>
    ensures { IfOk result (λ made. IfSome made (ConvertsBy conversion at document.now.text.now
        (map parsed_section document.now.sections.items))) }
{
    let text = document.text;
    let sections = document.sections.as_slice();
    let Some(new) = converted(alloc, text, sections, conversion, at)? else {
        return Ok(None);
    };
    let edits = differences(alloc, text, new.as_str())?;
    Ok(Some(Rewritten { edits, text: new }))
}
