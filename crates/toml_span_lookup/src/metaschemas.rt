//! The metaschemas of JSON Schema, without titles, comments and defaults. Copyright 2022 JSON Schema Specification
//! Authors, who license them under the Academic Free License 3.0 and the BSD license with three clauses.

use std::alloc::{AllocError, Global};
use toml_span_report::tables::text_in;

/// Metaschemas by their addresses without the scheme.
const METASCHEMAS: [(&str, &str); 3] = [
    (
        "json-schema.org/draft/2019-09/schema",
        r##"{"$schema":"https://json-schema.org/draft/2019-09/schema",
"$id":"https://json-schema.org/draft/2019-09/schema","$vocabulary":{
"https://json-schema.org/draft/2019-09/vocab/core":true,"https://json-schema.org/draft/2019-09/vocab/applicator":true,
"https://json-schema.org/draft/2019-09/vocab/validation":true,
"https://json-schema.org/draft/2019-09/vocab/meta-data":true,
"https://json-schema.org/draft/2019-09/vocab/format":false,
"https://json-schema.org/draft/2019-09/vocab/content":true},"$recursiveAnchor":true,"allOf":[{"$ref":"meta/core"},{
"$ref":"meta/applicator"},{"$ref":"meta/validation"},{"$ref":"meta/meta-data"},{"$ref":"meta/format"},{
"$ref":"meta/content"}],"type":["object","boolean"],"properties":{"definitions":{"type":"object",
"additionalProperties":{"$recursiveRef":"#"}},"dependencies":{"type":"object","additionalProperties":{"anyOf":[{
"$recursiveRef":"#"},{"$ref":"meta/validation#/$defs/stringArray"}]}}}}"##,
    ),
    (
        "json-schema.org/draft/2020-12/schema",
        r##"{"$schema":"https://json-schema.org/draft/2020-12/schema",
"$id":"https://json-schema.org/draft/2020-12/schema","$vocabulary":{
"https://json-schema.org/draft/2020-12/vocab/core":true,"https://json-schema.org/draft/2020-12/vocab/applicator":true,
"https://json-schema.org/draft/2020-12/vocab/unevaluated":true,
"https://json-schema.org/draft/2020-12/vocab/validation":true,
"https://json-schema.org/draft/2020-12/vocab/meta-data":true,
"https://json-schema.org/draft/2020-12/vocab/format-annotation":true,
"https://json-schema.org/draft/2020-12/vocab/content":true},"$dynamicAnchor":"meta","allOf":[{"$ref":"meta/core"},{
"$ref":"meta/applicator"},{"$ref":"meta/unevaluated"},{"$ref":"meta/validation"},{"$ref":"meta/meta-data"},{
"$ref":"meta/format-annotation"},{"$ref":"meta/content"}],"type":["object","boolean"],"properties":{"definitions":{
"type":"object","additionalProperties":{"$dynamicRef":"#meta"},"deprecated":true},"dependencies":{"type":"object",
"additionalProperties":{"anyOf":[{"$dynamicRef":"#meta"},{"$ref":"meta/validation#/$defs/stringArray"}]},
"deprecated":true},"$recursiveAnchor":{"$ref":"meta/core#/$defs/anchorString","deprecated":true},"$recursiveRef":{
"$ref":"meta/core#/$defs/uriReferenceString","deprecated":true}}}"##,
    ),
    (
        "json-schema.org/draft-04/schema",
        r##"{"id":"http://json-schema.org/draft-04/schema#","$schema":"http://json-schema.org/draft-04/schema#",
"definitions":{"schemaArray":{"type":"array","minItems":1,"items":{"$ref":"#"}},"positiveInteger":{"type":"integer",
"minimum":0},"positiveIntegerDefault0":{"allOf":[{"$ref":"#/definitions/positiveInteger"},{}]},"simpleTypes":{"enum":[
"array","boolean","integer","null","number","object","string"]},"stringArray":{"type":"array","items":{
"type":"string"},"minItems":1,"uniqueItems":true}},"type":"object","properties":{"id":{"type":"string"},"$schema":{
"type":"string"},"title":{"type":"string"},"description":{"type":"string"},"default":{},"multipleOf":{"type":"number",
"minimum":0,"exclusiveMinimum":true},"maximum":{"type":"number"},"exclusiveMaximum":{"type":"boolean"},"minimum":{
"type":"number"},"exclusiveMinimum":{"type":"boolean"},"maxLength":{"$ref":"#/definitions/positiveInteger"},
"minLength":{"$ref":"#/definitions/positiveIntegerDefault0"},"pattern":{"type":"string","format":"regex"},
"additionalItems":{"anyOf":[{"type":"boolean"},{"$ref":"#"}]},"items":{"anyOf":[{"$ref":"#"},{
"$ref":"#/definitions/schemaArray"}]},"maxItems":{"$ref":"#/definitions/positiveInteger"},"minItems":{
"$ref":"#/definitions/positiveIntegerDefault0"},"uniqueItems":{"type":"boolean"},"maxProperties":{
"$ref":"#/definitions/positiveInteger"},"minProperties":{"$ref":"#/definitions/positiveIntegerDefault0"},"required":{
"$ref":"#/definitions/stringArray"},"additionalProperties":{"anyOf":[{"type":"boolean"},{"$ref":"#"}]},"definitions":{
"type":"object","additionalProperties":{"$ref":"#"}},"properties":{"type":"object","additionalProperties":{
"$ref":"#"}},"patternProperties":{"type":"object","additionalProperties":{"$ref":"#"}},"dependencies":{
"type":"object","additionalProperties":{"anyOf":[{"$ref":"#"},{"$ref":"#/definitions/stringArray"}]}},"enum":{
"type":"array","minItems":1,"uniqueItems":true},"type":{"anyOf":[{"$ref":"#/definitions/simpleTypes"},{"type":"array",
"items":{"$ref":"#/definitions/simpleTypes"},"minItems":1,"uniqueItems":true}]},"format":{"type":"string"},"allOf":{
"$ref":"#/definitions/schemaArray"},"anyOf":{"$ref":"#/definitions/schemaArray"},"oneOf":{
"$ref":"#/definitions/schemaArray"},"not":{"$ref":"#"}},"dependencies":{"exclusiveMaximum":["maximum"],
"exclusiveMinimum":["minimum"]}}"##,
    ),
];

/// The keywords of the vocabularies of drafts 2019-09 and 2020-12 by the drafts and the names. `@` is the reference to
/// the metaschema. A vocabulary without a draft is the same in both.
const VOCABULARIES: [(&str, &str); 11] = [
    (
        "2019-09/meta/applicator",
        r##""properties":{"additionalItems":{@},"unevaluatedItems":{@},"items":{"anyOf":[{@},{
"$ref":"#/$defs/schemaArray"}]},"contains":{@},"additionalProperties":{@},"unevaluatedProperties":{@},"properties":{
"type":"object","additionalProperties":{@}},"patternProperties":{"type":"object","additionalProperties":{@},
"propertyNames":{"format":"regex"}},"dependentSchemas":{"type":"object","additionalProperties":{@}},
"propertyNames":{@},"if":{@},"then":{@},"else":{@},"allOf":{"$ref":"#/$defs/schemaArray"},"anyOf":{
"$ref":"#/$defs/schemaArray"},"oneOf":{"$ref":"#/$defs/schemaArray"},"not":{@}},"$defs":{"schemaArray":{
"type":"array","minItems":1,"items":{@}}}"##,
    ),
    (
        "2020-12/meta/applicator",
        r##""properties":{"prefixItems":{"$ref":"#/$defs/schemaArray"},"items":{@},"contains":{@},
"additionalProperties":{@},"properties":{"type":"object","additionalProperties":{@}},"patternProperties":{
"type":"object","additionalProperties":{@},"propertyNames":{"format":"regex"}},"dependentSchemas":{"type":"object",
"additionalProperties":{@}},"propertyNames":{@},"if":{@},"then":{@},"else":{@},"allOf":{"$ref":"#/$defs/schemaArray"},
"anyOf":{"$ref":"#/$defs/schemaArray"},"oneOf":{"$ref":"#/$defs/schemaArray"},"not":{@}},"$defs":{"schemaArray":{
"type":"array","minItems":1,"items":{@}}}"##,
    ),
    (
        "/meta/content",
        r##""properties":{"contentMediaType":{"type":"string"},"contentEncoding":{"type":"string"},
"contentSchema":{@}}"##,
    ),
    (
        "2019-09/meta/core",
        r##""properties":{"$id":{"type":"string","format":"uri-reference","pattern":"^[^#]*#?$"},"$schema":{
"type":"string","format":"uri"},"$anchor":{"type":"string","pattern":"^[A-Za-z][-A-Za-z0-9.:_]*$"},"$ref":{
"type":"string","format":"uri-reference"},"$recursiveRef":{"type":"string","format":"uri-reference"},
"$recursiveAnchor":{"type":"boolean"},"$vocabulary":{"type":"object","propertyNames":{"type":"string","format":"uri"},
"additionalProperties":{"type":"boolean"}},"$comment":{"type":"string"},"$defs":{"type":"object",
"additionalProperties":{@}}}"##,
    ),
    (
        "2020-12/meta/core",
        r##""properties":{"$id":{"$ref":"#/$defs/uriReferenceString","pattern":"^[^#]*#?$"},"$schema":{
"$ref":"#/$defs/uriString"},"$ref":{"$ref":"#/$defs/uriReferenceString"},"$anchor":{"$ref":"#/$defs/anchorString"},
"$dynamicRef":{"$ref":"#/$defs/uriReferenceString"},"$dynamicAnchor":{"$ref":"#/$defs/anchorString"},"$vocabulary":{
"type":"object","propertyNames":{"$ref":"#/$defs/uriString"},"additionalProperties":{"type":"boolean"}},"$comment":{
"type":"string"},"$defs":{"type":"object","additionalProperties":{@}}},"$defs":{"anchorString":{"type":"string",
"pattern":"^[A-Za-z_][-A-Za-z0-9._]*$"},"uriString":{"type":"string","format":"uri"},"uriReferenceString":{
"type":"string","format":"uri-reference"}}"##,
    ),
    (
        "2019-09/meta/format",
        r##""properties":{"format":{"type":"string"}}"##,
    ),
    (
        "2020-12/meta/format-annotation",
        r##""properties":{"format":{"type":"string"}}"##,
    ),
    (
        "2020-12/meta/format-assertion",
        r##""properties":{"format":{"type":"string"}}"##,
    ),
    (
        "/meta/meta-data",
        r##""properties":{"title":{"type":"string"},"description":{"type":"string"},"default":true,"deprecated":{
"type":"boolean"},"readOnly":{"type":"boolean"},"writeOnly":{"type":"boolean"},"examples":{"type":"array",
"items":true}}"##,
    ),
    (
        "2020-12/meta/unevaluated",
        r##""properties":{"unevaluatedItems":{@},"unevaluatedProperties":{@}}"##,
    ),
    (
        "/meta/validation",
        r##""properties":{"multipleOf":{"type":"number","exclusiveMinimum":0},"maximum":{"type":"number"},
"exclusiveMaximum":{"type":"number"},"minimum":{"type":"number"},"exclusiveMinimum":{"type":"number"},"maxLength":{
"$ref":"#/$defs/nonNegativeInteger"},"minLength":{"$ref":"#/$defs/nonNegativeIntegerDefault0"},"pattern":{
"type":"string","format":"regex"},"maxItems":{"$ref":"#/$defs/nonNegativeInteger"},"minItems":{
"$ref":"#/$defs/nonNegativeIntegerDefault0"},"uniqueItems":{"type":"boolean"},"maxContains":{
"$ref":"#/$defs/nonNegativeInteger"},"minContains":{"$ref":"#/$defs/nonNegativeInteger"},"maxProperties":{
"$ref":"#/$defs/nonNegativeInteger"},"minProperties":{"$ref":"#/$defs/nonNegativeIntegerDefault0"},"required":{
"$ref":"#/$defs/stringArray"},"dependentRequired":{"type":"object","additionalProperties":{
"$ref":"#/$defs/stringArray"}},"const":true,"enum":{"type":"array","items":true},"type":{"anyOf":[{
"$ref":"#/$defs/simpleTypes"},{"type":"array","items":{"$ref":"#/$defs/simpleTypes"},"minItems":1,
"uniqueItems":true}]}},"$defs":{"nonNegativeInteger":{"type":"integer","minimum":0},"nonNegativeIntegerDefault0":{
"$ref":"#/$defs/nonNegativeInteger"},"simpleTypes":{"enum":["array","boolean","integer","null","number","object",
"string"]},"stringArray":{"type":"array","items":{"type":"string"},"uniqueItems":true}}"##,
    ),
];

/// The metaschema of drafts 6 and 7 except for `SEVEN` and the last brackets. `@` is the number of the draft.
const SIX: &str = r##"{"$schema":"http://json-schema.org/draft-0@/schema#",
"$id":"http://json-schema.org/draft-0@/schema#","definitions":{"schemaArray":{"type":"array","minItems":1,"items":{
"$ref":"#"}},"nonNegativeInteger":{"type":"integer","minimum":0},"nonNegativeIntegerDefault0":{"allOf":[{
"$ref":"#/definitions/nonNegativeInteger"},{}]},"simpleTypes":{"enum":["array","boolean","integer","null","number",
"object","string"]},"stringArray":{"type":"array","items":{"type":"string"},"uniqueItems":true}},"type":["object",
"boolean"],"properties":{"$id":{"type":"string","format":"uri-reference"},"$schema":{"type":"string","format":"uri"},
"$ref":{"type":"string","format":"uri-reference"},"title":{"type":"string"},"description":{"type":"string"},
"default":true,"examples":{"type":"array","items":true},"multipleOf":{"type":"number","exclusiveMinimum":0},
"maximum":{"type":"number"},"exclusiveMaximum":{"type":"number"},"minimum":{"type":"number"},"exclusiveMinimum":{
"type":"number"},"maxLength":{"$ref":"#/definitions/nonNegativeInteger"},"minLength":{
"$ref":"#/definitions/nonNegativeIntegerDefault0"},"pattern":{"type":"string","format":"regex"},"additionalItems":{
"$ref":"#"},"items":{"anyOf":[{"$ref":"#"},{"$ref":"#/definitions/schemaArray"}]},"maxItems":{
"$ref":"#/definitions/nonNegativeInteger"},"minItems":{"$ref":"#/definitions/nonNegativeIntegerDefault0"},
"uniqueItems":{"type":"boolean"},"contains":{"$ref":"#"},"maxProperties":{"$ref":"#/definitions/nonNegativeInteger"},
"minProperties":{"$ref":"#/definitions/nonNegativeIntegerDefault0"},"required":{"$ref":"#/definitions/stringArray"},
"additionalProperties":{"$ref":"#"},"definitions":{"type":"object","additionalProperties":{"$ref":"#"}},"properties":{
"type":"object","additionalProperties":{"$ref":"#"}},"patternProperties":{"type":"object","additionalProperties":{
"$ref":"#"},"propertyNames":{"format":"regex"}},"dependencies":{"type":"object","additionalProperties":{"anyOf":[{
"$ref":"#"},{"$ref":"#/definitions/stringArray"}]}},"propertyNames":{"$ref":"#"},"const":true,"enum":{"type":"array",
"items":true},"type":{"anyOf":[{"$ref":"#/definitions/simpleTypes"},{"type":"array","items":{
"$ref":"#/definitions/simpleTypes"},"minItems":1,"uniqueItems":true}]},"format":{"type":"string"},"allOf":{
"$ref":"#/definitions/schemaArray"},"anyOf":{"$ref":"#/definitions/schemaArray"},"oneOf":{
"$ref":"#/definitions/schemaArray"},"not":{"$ref":"#"}"##;

/// The keywords of draft 7 that draft 6 does not have.
const SEVEN: &str =
    r##","$comment":{"type":"string"},"readOnly":{"type":"boolean"},"contentMediaType":{
"type":"string"},"contentEncoding":{"type":"string"},"if":{"$ref":"#"},"then":{"$ref":"#"},"else":{"$ref":"#"}"##;

/// Returns `front`, then `text` with `word` in place of each `@`, then `back`.
fn filled(
    alloc: Global,
    front: &str,
    text: &str,
    word: &str,
    back: &str,
) -> Result<Option<String>, AllocError> {
    let mut out = String::from_str(alloc, front)?;
    for (i, part) in text.split('@').enumerate() {
        out.push_str(if i > 0 { word } else { "" })?;
        out.push_str(part)?;
    }
    out.push_str(back)?;
    Ok(Some(out))
}

/// Returns the text of the metaschema at an address, with `http` or `https`, or `None` for any other address.
pub(crate) fn metaschema(alloc: Global, address: &str) -> Result<Option<String>, AllocError> {
    let https = address.strip_prefix("https://");
    let Some(rest) = https.or(address.strip_prefix("http://")) else {
        return Ok(None);
    };
    match rest {
        "json-schema.org/draft-06/schema" => return filled(alloc, "", SIX, "6", "}}"),
        "json-schema.org/draft-07/schema" => {
            let back = format!(in alloc; "{SEVEN}}}}}")?;
            return filled(alloc, "", SIX, "7", back.as_str());
        }
        _ => {}
    }
    if let Some(text) = text_in(&METASCHEMAS, rest) {
        return filled(alloc, text, "", "", "");
    }
    let Some(path) = rest.strip_prefix("json-schema.org/draft/") else {
        return Ok(None);
    };
    let (draft, name) = path.split_once("/meta/").unwrap_or(("", ""));
    let (anchor, reference) = match draft {
        "2019-09" => (r#""$recursiveAnchor":true"#, r##""$recursiveRef":"#""##),
        "2020-12" => (r#""$dynamicAnchor":"meta""#, r##""$dynamicRef":"#meta""##),
        _ => return Ok(None),
    };
    let same = path.strip_prefix(draft).unwrap_or("");
    let Some(text) = text_in(&VOCABULARIES, path).or(text_in(&VOCABULARIES, same)) else {
        return Ok(None);
    };
    let head = format!(in alloc;
        "{{\"$schema\":\"https://json-schema.org/draft/{draft}/schema\",\"$id\":\"https://{rest}\","
    )?;
    let rules = format!(in alloc;
        "{head}\"$vocabulary\":{{\"https://json-schema.org/draft/{draft}/vocab/{name}\":true}},{anchor},"
    )?;
    let front = format!(in alloc; "{rules}\"type\":[\"object\",\"boolean\"],")?;
    filled(alloc, front.as_str(), text, reference, "}")
}
