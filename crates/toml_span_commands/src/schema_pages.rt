//! Explanations of the codes of reports about schemas.
ghost use Rattle.std.specs.Prelude.{◌≡◌, map, option_map};
ghost use Rattle.toml_span_commands.specs.Explain as spec;

use toml_span_report::tables::text_in;

/// The codes of reports about schemas, each with its explanation.
pub(crate) const SCHEMA_PAGES: [(&str, &str); 32] = [
    (
        "schema",
        "a value that does not match its schema\n\nThe JSON Schema of the file refuses the marked value. The schema is the one that\n`--schema`, a comment `#:schema PATH` in the file, or a catalog names.",
    ),
    (
        "schema-false",
        "a value where the schema allows none\n\nRemove it.",
    ),
    (
        "schema-type",
        "a value of another type than the schema allows\n\n    port = \"80\"       # write port = 80 for the type `integer`\n\nDates and times have the type `string`.",
    ),
    (
        "schema-enum",
        "a value that is not among those that the schema lists\n\n    log = \"trace\"     # write one of the listed values, such as \"debug\"",
    ),
    (
        "schema-const",
        "another value than the only one that the schema allows\n\nWrite that value.",
    ),
    (
        "schema-minimum",
        "a number that is too small\n\n    port = 0          # for `minimum: 1`, write 1 or more",
    ),
    (
        "schema-exclusive-minimum",
        "a number that is too small\n\nThe number must be greater than the one in the schema.",
    ),
    (
        "schema-maximum",
        "a number that is too large\n\n    port = 70000      # for `maximum: 65535`, write 65535 or less",
    ),
    (
        "schema-exclusive-maximum",
        "a number that is too large\n\nThe number must be less than the one in the schema.",
    ),
    (
        "schema-multiple-of",
        "a number that is not a multiple of the one in the schema\n\n    size = 10         # for `multipleOf: 4`, write 8 or 12",
    ),
    (
        "schema-min-length",
        "a string that is too short\n\nLengths are counted in characters.",
    ),
    (
        "schema-max-length",
        "a string that is too long\n\nLengths are counted in characters.",
    ),
    (
        "schema-pattern",
        "a string that the schema's regular expression does not match\n\nThe expression may match a part of the string, unless it has `^` and `$`.",
    ),
    (
        "schema-format",
        "a string that does not have the format that the schema names\n\n    url = \"localhost\" # for `format: uri`, write \"http://localhost\"\n\n`--no-formats` turns this check off.",
    ),
    (
        "schema-min-items",
        "an array with too few elements\n\nAdd elements.",
    ),
    (
        "schema-max-items",
        "an array with too many elements\n\nRemove elements.",
    ),
    (
        "schema-unique-items",
        "an array with two equal elements\n\n    hosts = [\"a\", \"a\"]  # write [\"a\"]",
    ),
    (
        "schema-contains",
        "an array without an element that the schema asks for\n\nOr it has more of them than `maxContains` allows.",
    ),
    (
        "schema-unevaluated-items",
        "an array element that the schema does not know\n\nRemove it.",
    ),
    (
        "schema-min-properties",
        "a table with too few keys\n\nAdd keys.",
    ),
    (
        "schema-max-properties",
        "a table with too many keys\n\nRemove keys.",
    ),
    (
        "schema-required",
        "a key is missing\n\nThe schema requires it. Write it below the header of the table that is marked.",
    ),
    (
        "schema-additional-properties",
        "a key that the schema does not know\n\nRemove the key, or correct its name.",
    ),
    (
        "schema-unevaluated-properties",
        "a key that the schema does not know\n\nRemove the key, or correct its name.",
    ),
    (
        "schema-dependent-required",
        "a key is missing that another key requires\n\n    user = \"a\"        # if it requires `password`, add that key",
    ),
    (
        "schema-dependencies",
        "a key is missing that another key requires\n\n    user = \"a\"        # if it requires `password`, add that key",
    ),
    (
        "schema-any-of",
        "a value that matches none of the schema's alternatives\n\nThe notes name the alternatives' place in the schema.",
    ),
    (
        "schema-one-of",
        "a value that does not match exactly one alternative\n\nIt matches none of the schema's alternatives, or several.",
    ),
    (
        "schema-not",
        "a value that the schema rules out\n\nThe value matches the schema in `not`.",
    ),
    (
        "schema-deprecated",
        "a value that the schema calls deprecated\n\nThis is a warning. The schema's description may name a replacement.",
    ),
    (
        "schema-not-checked",
        "a part of a schema that is not checked\n\nThis is a warning. The schema has an unknown keyword or format that is near to a\nknown one, a regular expression that is not supported, such as one with\nlookahead, or a reference to a metaschema.",
    ),
    (
        "schema-not-fetched",
        "a schema on a server, for which no local copy is named\n\nThis is a warning: the file was not checked against its schema.\n\n    toml-span check --schema-map https://example.com/app.json=app.json app.toml",
    ),
];

/// Returns the explanation of a code of reports about schemas, or `None` for any other code.
pub(crate) fn schema_page(code: &str) -> Option<&'static str>
    ensures { option_map (λ page. page.now) result ≡ spec.schema_page code.now }
{
    text_in(&SCHEMA_PAGES, code)
}
