//! Look-ups in constant tables of texts.
ghost use Rattle.std.specs.Prelude.{◌≡◌, map, option_map};
ghost use Rattle.toml_span_report.specs.Tables as spec;

/// Returns the second text of the first entry of `table` whose first text is `key`, or `None` if no entry has this key.
#[tactic(auto, unfolding(crate::specs::Tables::text_in))]
pub fn text_in<'p>(table: &[(&'p str, &'p str)], key: &str) -> Option<&'p str>
    ensures { option_map (λ text. text.now) result
        ≡ spec.text_in (map (λ entry. (entry.0.now, entry.1.now)) table.now) key.now }
{
    for (name, text) in table {
        if *name == key {
            return Some(*text);
        }
    }
    None
}
