//! The formats of the keyword `format`, as regular expressions, and the rule for leap seconds.
ghost use Rattle.std.specs.Prelude.{◌≡◌, ◌<◌};
ghost use Rattle.toml_span_schema.specs.Formats.{ahead, fits_leap, fits_leap_second, two_digits};

use std::alloc::{AllocError, Global};

/// A format. A string has the format if the regular expression `pattern` (see `expanded`) matches, and the string has
/// at most `most` characters. If `leap` is set, a second 60 in the string must also be at 23:59:60 UTC.
#[derive(Clone, Copy, Drop)]
pub(crate) struct Format {
    pub(crate) pattern: &'static str,
    pub(crate) most: u64,
    pub(crate) leap: bool,
}

/// Returns the part of a regular expression that is called `name`: `p` and `q` are a character of the path and of the
/// query of a URI, `h` is a group of an IPv6 address, `local` is what follows the scheme of a URI except for a path
/// that begins with a name, and `tail` is its query and fragment.
fn piece(name: &str) -> &'static str {
    match name {
        "date" => {
            "(?:[0-9]{4}-(?:(?:0[13578]|1[02])-(?:0[1-9]|[12][0-9]|3[01])|(?:0[469]|11)-(?:0[1-9]|[12][0-9]|30)|02-(?:\
            0[1-9]|1[0-9]|2[0-8]))|(?:[0-9]{2}(?:0[48]|[2468][048]|[13579][26])|(?:[02468][048]|[13579][26])00)-02-29\
            )"
        }
        "time" => {
            "(?:[01][0-9]|2[0-3]):[0-5][0-9]:(?:[0-5][0-9]|60)(?:\\.[0-9]+)?(?:[Zz]|[+-](?:[01][0-9]|2[0-3]):[0-5][0-9\
            ])"
        }
        "ipv4" => {
            "(?:(?:25[0-5]|2[0-4][0-9]|1[0-9]{2}|[1-9]?[0-9])\\.){3}(?:25[0-5]|2[0-4][0-9]|1[0-9]{2}|[1-9]?[0-9])"
        }
        "ipv6" => {
            "(?:(?:<h>:){6}(?:<h>:<h>|<ipv4>)|::(?:<h>:){5}(?:<h>:<h>|<ipv4>)|(?:<h>)?::(?:<h>:){4}(?:<h>:<h>|<ipv4>)|\
            (?:(?:<h>:){0,1}<h>)?::(?:<h>:){3}(?:<h>:<h>|<ipv4>)|(?:(?:<h>:){0,2}<h>)?::(?:<h>:){2}(?:<h>:<h>|<ipv4>)\
            |(?:(?:<h>:){0,3}<h>)?::<h>:(?:<h>:<h>|<ipv4>)|(?:(?:<h>:){0,4}<h>)?::(?:<h>:<h>|<ipv4>)|(?:(?:<h>:){0,5}\
            <h>)?::<h>|(?:(?:<h>:){0,6}<h>)?::)"
        }
        "h" => "[0-9A-Fa-f]{1,4}",
        "local" => {
            "(?://(?:(?:[0-9A-Za-z._~!$&'()*+,;=:-]|%[0-9A-Fa-f]{2})*@)?(?:\\[(?:<ipv6>|[vV][0-9A-Fa-f]+\\.[0-9A-Za-z.\
            _~!$&'()*+,;=:-]+)\\]|(?:[0-9A-Za-z._~!$&'()*+,;=-]|%[0-9A-Fa-f]{2})*)(?::[0-9]*)?<path>|/(?:<p>+<path>)?\
            |"
        }
        "path" => "(?:/<p>*)*",
        "tail" => "(?:\\?<q>*)?(?:#<q>*)?",
        "p" => "(?:[0-9A-Za-z._~!$&'()*+,;=:@-]|%[0-9A-Fa-f]{2})",
        "q" => "(?:[0-9A-Za-z._~!$&'()*+,;=:@/?-]|%[0-9A-Fa-f]{2})",
        _ => "",
    }
}

/// Returns a regular expression in which `<` and `>` are around the names of pieces, with these pieces and those inside
/// them in place.
pub(crate) fn expanded(alloc: Global, pattern: &str) -> Result<String, AllocError> {
    let mut out = String::from_str(alloc, pattern)?;
    for _level in 0..4 {
        let mut next = String::new(alloc);
        for part in out.as_str().split('<') {
            match part.split_once(">") {
                Some((name, rest)) => {
                    next.push_str(piece(name))?;
                    next.push_str(rest)?;
                }
                None => next.push_str(part)?,
            }
        }
        out = next;
    }
    Ok(out)
}

/// Returns the format with this name, or `None` if the name is unknown or `regex`. The formats are those of RFC 3339,
/// RFC 5321, RFC 1123, RFC 2673, RFC 4291, RFC 3986, RFC 4122 and RFC 6901.
pub(crate) fn format_of(name: &str) -> Option<Format> {
    let pattern = match name {
        "date" => "^(?:<date>)$",
        "time" => "^(?:<time>)$",
        "date-time" => "^(?:<date>[Tt]<time>)$",
        "email" => {
            "^(?:(?:[0-9A-Za-z!#$%&'*+/=?^_`{|}~-]+(?:\\.[0-9A-Za-z!#$%&'*+/=?^_`{|}~-]+)*|\"(?:[ !#-\\[\\]-~]|\\\\[ -\
            ~])*\")@(?:[0-9A-Za-z](?:[0-9A-Za-z-]*[0-9A-Za-z])?(?:\\.[0-9A-Za-z](?:[0-9A-Za-z-]*[0-9A-Za-z])?)*|\\[(?\
            :<ipv4>|IPv6:<ipv6>)\\]))$"
        }
        "hostname" => {
            "^(?:[0-9A-Za-z](?:[0-9A-Za-z-]{0,61}[0-9A-Za-z])?(?:\\.[0-9A-Za-z](?:[0-9A-Za-z-]{0,61}[0-9A-Za-z])?)*)$"
        }
        "ipv4" => "^(?:<ipv4>)$",
        "ipv6" => "^(?:<ipv6>)$",
        "uri" => "^(?:[A-Za-z][A-Za-z0-9+.-]*:<local><p>+<path>|)<tail>)$",
        "uri-reference" => {
            "^(?:(?:(?:[A-Za-z][A-Za-z0-9+.-]*:)?<local>)|[A-Za-z][A-Za-z0-9+.-]*:<p>+<path>|(?:[0-9A-Za-z._~!$&'()*+,\
            ;=@-]|%[0-9A-Fa-f]{2})+<path>)<tail>)$"
        }
        "uuid" =>
            "^(?:[0-9A-Fa-f]{8}-[0-9A-Fa-f]{4}-[0-9A-Fa-f]{4}-[0-9A-Fa-f]{4}-[0-9A-Fa-f]{12})$",
        "json-pointer" => "^(?:(?:/(?:[^~/]|~[01])*)*)$",
        _ => return None,
    };
    Some(Format {
        pattern,
        most: if name == "hostname" { 253 } else { u64::MAX },
        leap: name.ends_with("time"),
    })
}

/// Returns the number that the two ASCII digits at the byte offset `at` spell, or 0 if the text ends before the second
/// digit.
fn two_digits(text: &[u8], at: usize) -> u64
    requires { at < 100 }
    ensures value { result ≡ two_digits text.now at }
    ensures small { result < 2500 }
{
    match (text.get(at), text.get(at + 1)) {
        (Some(ten), Some(one)) => {
            u64::from(ten.saturating_sub(b'0')) * 10 + u64::from(one.saturating_sub(b'0'))
        }
        _ => 0,
    }
}

/// Returns 1440 plus the minutes that a time zone, such as `+01:30`, is ahead of UTC. Returns 1440 if `zone` does not
/// begin with a sign, as for a time that ends with `Z`.
fn ahead(zone: &[u8]) -> u64
    ensures value { result ≡ ahead zone.now }
    ensures small { result < 200000 }
{
    let minutes = two_digits(zone, 1) * 60 + two_digits(zone, 4);
    match zone.first() {
        Some(b'+') => 1_440 + minutes,
        Some(b'-') => 1_440u64.saturating_sub(minutes),
        _ => 1_440,
    }
}

/// Returns whether a time has no second 60, or is 23:59:60 UTC. The time zone is the last six characters, or a `Z`.
fn fits_leap(time: &[u8]) -> bool
    ensures { result ≡ fits_leap time.now }
{
    if two_digits(time, 6) != 60 {
        return true;
    }
    let zone = &time[time.len().saturating_sub(6)..];
    let minute = two_digits(time, 0) * 60 + two_digits(time, 3);
    (minute + 2_880).saturating_sub(ahead(zone)) % 1_440 == 1_439
}

/// Returns whether a time, or a date and time, has no second 60, or is at 23:59:60 UTC.
pub(crate) fn fits_leap_second(text: &str) -> bool
    ensures { result ≡ fits_leap_second text.now }
{
    let bytes = text.as_bytes();
    if bytes.len() > 2 && bytes[2] == b':' {
        return fits_leap(bytes);
    }
    fits_leap(&bytes[bytes.len().min(11)..])
}
