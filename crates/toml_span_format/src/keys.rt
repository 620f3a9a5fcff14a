//! The names of the parts of keys.
ghost use Rattle.std.specs.Prelude.{◌≡◌, ◌++◌, IfOk, OnOk, map};
ghost use Rattle.toml_span_read.specs.Data.{parsed_section, parts};
ghost use Rattle.toml_span_format.specs.Entries.{key_names};
ghost use Rattle.toml_span_format.specs.Keys as spec;

use std::alloc::{AllocError, Global};
use toml_span_read::{DottedKey, Section};

/// Returns the names of the parts of a key.
pub(crate) fn names_of<'s>(
    alloc: Global,
    key: &'s DottedKey<'_>,
) -> Result<Vec<&'s str>, AllocError>
    ensures { IfOk result (λ names. key_names names ≡ spec.part_names (parts key.now)) }
{
    let mut names = Vec::new(alloc);
    for part in &key.inner {
        names.push(part.name.as_ref())?;
    }
    names.push(key.last.name.as_ref())?;
    Ok(names)
}

/// Appends the names of the parts of each key in a section to `keys`.
fn push_keys<'s>(
    alloc: Global,
    section: &'s Section<'_>,
    keys: &mut Vec<Vec<&'s str>>,
) -> Result<(), AllocError>
    ensures { OnOk result (map key_names keys.new.items
        ≡ map key_names keys.old.items ++ spec.section_keys (parsed_section section.now)) }
{
    for assignment in &section.assignments {
        keys.push(names_of(alloc, &assignment.parts)?)?;
    }
    Ok(())
}

/// Returns the names of the parts of each key in some sections, in order, after an empty list.
pub(crate) fn keys_of<'s>(
    alloc: Global,
    sections: &'s [Section<'_>],
) -> Result<Vec<Vec<&'s str>>, AllocError>
    ensures { IfOk result (λ keys. map key_names keys.items ≡ spec.keys (map parsed_section sections.now)) }
{
    let mut keys = Vec::new(alloc);
    keys.push(Vec::new(alloc))?;
    for section in sections {
        push_keys(alloc, section, &mut keys)?;
    }
    Ok(keys)
}
