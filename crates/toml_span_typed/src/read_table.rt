//! Reads of structs from tables.

/// Reads a struct from a table. Use it as the body of a function that returns `Result<_, Stop<DeserError>>`, such as
/// `deserialize`: `read_table!(alloc, value, Server { host: String; port: u16; })`.
///
/// Each field is read as its type, from the key of the same name, and ends with a semicolon. Options may follow the
/// type:
///
/// - `port: u16 = "listen-port";`: read from another key;
/// - `tags: Option<Vec<String>>;`: `None` if the key is absent. If the field has a type alias for this type, write
///   `tags: Vec<String>, optional;`
/// - `port: u16, or(80);`: the value `80` if the key is absent. `80` can be any expression, and is not evaluated if the
///   field has been read. For a `String`, it can be a literal: `host: String, or("localhost");`;
/// - `port: u16, range(1..=65535);`: an error for an integer outside this range (`InRange`). If the type is written
///   `f64` or `f32`, the bounds are floats: `range(0.0..=1.0)`. The type may also be an `Option`, a `Spanned` or an
///   `Option` of a `Spanned`. With any other type, `or(..)` may follow;
/// - `level: Level, parsed;`: a string that `FromStr` reads. As with `range`, the type may also be an `Option`, a
///   `Spanned` or an `Option` of a `Spanned`. With any other type, `or(..)` may follow;
/// - `max_body: u64 = "max-body", alias("max_body");`: read from the key or from an old name
///   (`TableHelper::read_either`). Other options may follow, except `flatten` and `with_warnings`;
/// - `servers: Vec<Server>, unique(name);`: an error for each server whose field `name`, a `Spanned<String>`, equals
///   the field `name` of an earlier server (`TableHelper::keep_repeated`). If the read fails, the strings with the key
///   `name` are compared instead (`TableHelper::repeated_at`); for a field with another key, write
///   `unique(name = "id")`. The type may also be an `Option`. With any other type, `or(..)` may follow;
/// - `limits: Limits, flatten;`, as the last field: a type that reads the remaining keys (`TableHelper::read_rest`).
///
/// Other keys are an error. With `..` after the last field they are allowed, and are put back into the value. All
/// errors are returned, in the order of the fields. If the value is not a table, the only error is `Wanted`.
///
/// The form with a list of warnings, `read_table!(alloc, value, warnings, Server { .. })`, is the body of a
/// `deserialize_with_warnings`. It appends the warnings to the list, unless an allocation fails. Two more options are
/// allowed:
///
/// - `max_body: u64 = "max-body", deprecated("max_body");`: like `alias`, but the old name causes a warning, and is not
///   listed as expected (`TableHelper::read_deprecated`);
/// - `origin: Server, with_warnings;`: a type that implements `DeserializeWithWarnings`, or an `Option` of one.
#[macro_export]
macro_rules! read_table {
    ($alloc:expr, $value:expr, $table:ident { $($fields:tt)* }) => {{
        let mut helper = $crate::de_helpers::TableHelper::new($alloc, $value)?;
        $crate::read_table!(@fields [helper, $value, [], [$table]] [] $($fields)*)
    }};
    ($alloc:expr, $value:expr, $warnings:ident, $table:ident { $($fields:tt)* }) => {{
        let mut helper = $crate::de_helpers::TableHelper::new($alloc, $value)?;
        let mut gathered = helper.no_warnings();
        $crate::read_table!(@fields [helper, $value, [gathered $warnings], [$table]] [] $($fields)*)
    }};

    // `flatten` belongs to the last field, which has no key
    (@fields $read:tt [$($done:tt)*] $field:ident: $ty:ty = $key:literal, flatten; $($rest:tt)*) => {
        compile_error!(concat!("`read_table!`: `", stringify!($field), "` has `flatten`, so it can't have a key"))
    };
    (@fields $read:tt [$($done:tt)*] $field:ident: $ty:ty, flatten; $next:ident $($rest:tt)*) => {
        compile_error!(concat!("`read_table!`: `", stringify!($field), "` has `flatten`, so it must be the last field"))
    };

    // each field: its name, the form of its type (`Option`, `Spanned`, both or neither; before them `float` for an `f64`
    // or `f32`, or `text` for a `String`), the type inside, its key, and its options
    (@fields $read:tt $done:tt $field:ident: Option<Spanned<f64>> $($rest:tt)*) => {
        $crate::read_table!(@field_of $read $done $field [float option spanned] [f64] $($rest)*)
    };
    (@fields $read:tt $done:tt $field:ident: Option<Spanned<f32>> $($rest:tt)*) => {
        $crate::read_table!(@field_of $read $done $field [float option spanned] [f32] $($rest)*)
    };
    (@fields $read:tt $done:tt $field:ident: Option<Spanned<$ty:ty>> $($rest:tt)*) => {
        $crate::read_table!(@field_of $read $done $field [option spanned] [$ty] $($rest)*)
    };
    (@fields $read:tt $done:tt $field:ident: Option<f64> $($rest:tt)*) => {
        $crate::read_table!(@field_of $read $done $field [float option] [f64] $($rest)*)
    };
    (@fields $read:tt $done:tt $field:ident: Option<f32> $($rest:tt)*) => {
        $crate::read_table!(@field_of $read $done $field [float option] [f32] $($rest)*)
    };
    (@fields $read:tt $done:tt $field:ident: Option<$ty:ty> $($rest:tt)*) => {
        $crate::read_table!(@field_of $read $done $field [option] [$ty] $($rest)*)
    };
    (@fields $read:tt $done:tt $field:ident: Spanned<f64> $($rest:tt)*) => {
        $crate::read_table!(@field_of $read $done $field [float spanned] [f64] $($rest)*)
    };
    (@fields $read:tt $done:tt $field:ident: Spanned<f32> $($rest:tt)*) => {
        $crate::read_table!(@field_of $read $done $field [float spanned] [f32] $($rest)*)
    };
    (@fields $read:tt $done:tt $field:ident: Spanned<$ty:ty> $($rest:tt)*) => {
        $crate::read_table!(@field_of $read $done $field [spanned] [$ty] $($rest)*)
    };
    (@fields $read:tt $done:tt $field:ident: f64 $($rest:tt)*) => {
        $crate::read_table!(@field_of $read $done $field [float] [f64] $($rest)*)
    };
    (@fields $read:tt $done:tt $field:ident: f32 $($rest:tt)*) => {
        $crate::read_table!(@field_of $read $done $field [float] [f32] $($rest)*)
    };
    (@fields $read:tt $done:tt $field:ident: String $($rest:tt)*) => {
        $crate::read_table!(@field_of $read $done $field [text] [String] $($rest)*)
    };
    (@fields $read:tt $done:tt
        $field:ident: $ty:ty $(= $key:literal)? $(, $how:ident $(($($word:tt)*))?)*; $($rest:tt)*
    ) => {
        $crate::read_table!(@field_of $read $done $field [] [$ty] $(= $key)? $(, $how $(($($word)*))?)*; $($rest)*)
    };
    (@field_of $read:tt [$($done:tt)*] $field:ident $form:tt $ty:tt
        $(= $key:literal)? $(, $how:ident $(($($word:tt)*))?)*; $($rest:tt)*
    ) => {
        $crate::read_table!(@fields $read [
            $($done)* $field $form $ty [$($key)?] [$($how $(($($word)*))?,)*];
        ] $($rest)*)
    };
    (@field_of $read:tt $done:tt $field:ident $form:tt $ty:tt $($rest:tt)*) => {
        compile_error!(concat!("`read_table!`: `", stringify!($field), "` must end with `;`"))
    };
    (@fields $read:tt [$($done:tt)*] $field:ident: $ty:ty $(= $key:literal)? $(, $($rest:tt)*)?) => {
        compile_error!(concat!("`read_table!`: `", stringify!($field), "` must end with `;`"))
    };
    (@fields $read:tt $fields:tt) => { $crate::read_table!(@table $read finish() $fields) };
    (@fields [$helper:ident, $value:expr, $warnings:tt, $table:tt] $fields:tt ..) => {
        $crate::read_table!(@table [$helper, $value, $warnings, $table] finish_into($value) $fields)
    };
    (@fields $read:tt $fields:tt $field:ident $($rest:tt)*) => {
        compile_error!(concat!("`read_table!`: `", stringify!($field), "` must be a field: `name: Type;`"))
    };

    (@table [$helper:ident, $value:expr, $warnings:tt, [$($table:tt)+]] $finish:ident($($rest:expr)?) [
        $($field:ident $form:tt [$ty:ty] [$($key:literal)?] [$($words:tt)*];)*
    ]) => {{
        $(let $field = $crate::read_table!(@words [$helper, $warnings, $field] $form [$ty]
            [$crate::read_table!(@key $field $($key)?)] $($words)*);)*
        $crate::read_table!(@append $warnings);
        $helper.$finish($($rest)?)?;
        Ok($($table)+ {
            $($field: $crate::read_table!(@field $form $field $($words)*),)*
        })
    }};

    (@key $field:ident) => { stringify!($field) };
    (@key $field:ident $key:literal) => { $key };

    // the key at which the value of a field is
    (@place $helper:ident [$key:expr]) => { $key };
    (@place $helper:ident [$key:expr, $old:expr $(, deprecated)?]) => {
        if $helper.contains($key) { $key } else { $old }
    };

    (@append []) => { () };
    (@append [$new:ident $warnings:ident]) => { $warnings.append(&mut $new)? };

    // a required field, and an optional one
    (@one [$helper:ident, $warnings:tt, $field:ident], $ty:ty, [$key:expr]) => { $helper.read::<$ty>($key)? };
    (@one [$helper:ident, $warnings:tt, $field:ident], $ty:ty, [$key:expr, $old:expr]) => {
        $helper.read_either::<$ty>($key, $old)?
    };
    (@one [$helper:ident, [$new:ident $warnings:ident], $field:ident], $ty:ty, [$key:expr, $old:expr, deprecated]) => {
        $helper.read_deprecated::<$ty>($key, $old, &mut $new)?
    };
    (@some [$helper:ident, $warnings:tt, $field:ident], $ty:ty, [$key:expr]) => { $helper.read_optional::<$ty>($key)? };
    (@some [$helper:ident, $warnings:tt, $field:ident], $ty:ty, [$key:expr, $old:expr]) => {
        $helper.read_optional_either::<$ty>($key, $old)?
    };
    (@some [$helper:ident, [$new:ident $warnings:ident], $field:ident], $ty:ty, [$key:expr, $old:expr, deprecated]) => {
        $helper.read_optional_deprecated::<$ty>($key, $old, &mut $new)?
    };
    (@one [$helper:ident, [], $field:ident], $ty:ty, [$key:expr, $old:expr, deprecated]) => {
        $crate::read_table!(@silent $field deprecated)
    };
    (@some [$helper:ident, [], $field:ident], $ty:ty, [$key:expr, $old:expr, deprecated]) => {
        $crate::read_table!(@silent $field deprecated)
    };
    (@silent $field:ident $how:ident) => {
        compile_error!(concat!("`read_table!`: `", stringify!($field), "` has `", stringify!($how),
            "`, so the call needs a list of warnings: `read_table!(alloc, value, warnings, ..)`"))
    };

    // options that are allowed with every form
    (@words $read:tt $form:tt [$ty:ty] [$($keys:tt)*] alias($old:literal), $($words:tt)*) => {
        $crate::read_table!(@words $read $form [$ty] [$($keys)*, $old] $($words)*)
    };
    (@words $read:tt $form:tt [$ty:ty] [$($keys:tt)*] deprecated($old:literal), $($words:tt)*) => {
        $crate::read_table!(@words $read $form [$ty] [$($keys)*, $old, deprecated] $($words)*)
    };
    (@words [$helper:ident, $warnings:tt, $field:ident] [text] [$ty:ty] $keys:tt or($text:literal),) => {
        match $crate::read_table!(@some [$helper, $warnings, $field], $ty, $keys) {
            Some(field) => field,
            None => $helper.text($text)?,
        }
    };
    (@words $read:tt [text] [$ty:ty] $keys:tt $($words:tt)*) => {
        $crate::read_table!(@words $read [] [$ty] $keys $($words)*)
    };
    (@words $read:tt [float $($form:ident)*] [$ty:ty] $keys:tt range($low:literal..=$high:literal), $($words:tt)*) => {
        $crate::read_table!(@within $read [$($form)*] [$ty] $keys
            [$low, $high, concat!(stringify!($low), "..=", stringify!($high))] $($words)*)
    };
    (@words $read:tt [float $($form:ident)*] [$ty:ty] $keys:tt $($words:tt)*) => {
        $crate::read_table!(@words $read [$($form)*] [$ty] $keys $($words)*)
    };
    (@words $read:tt $form:tt [$ty:ty] $keys:tt parsed, $($words:tt)*) => {
        $crate::read_table!(@held $read $form $crate::Parsed<$ty>, $keys $($words)*)
    };
    (@words $read:tt $form:tt [$ty:ty] $keys:tt range($low:literal..=$high:literal), $($words:tt)*) => {
        $crate::read_table!(@held $read $form $crate::InRange<$ty, $low, $high>, $keys $($words)*)
    };

    // the forms become types
    (@words $read:tt [option spanned] [$ty:ty] $keys:tt $($words:tt)*) => {
        $crate::read_table!(@words $read [option] [Spanned<$ty>] $keys $($words)*)
    };
    (@words $read:tt [spanned] [$ty:ty] $keys:tt $($words:tt)*) => {
        $crate::read_table!(@words $read [] [Spanned<$ty>] $keys $($words)*)
    };
    (@words $read:tt [option] [$ty:ty] $keys:tt) => { $crate::read_table!(@some $read, $ty, $keys) };
    (@words [$helper:ident, [$new:ident $warnings:ident], $field:ident] [option] [$ty:ty] [$key:expr] with_warnings,) => {
        $helper.read_optional_with_warnings::<$ty>($key, &mut $new)?
    };
    (@words $read:tt [option] [$ty:ty] $keys:tt unique($name:ident $(= $named:literal)?),) => {
        $crate::read_table!(@named $read [option] [$ty] $keys [$name $($named)?])
    };
    (@words $read:tt [option] [$ty:ty] $keys:tt $($words:tt)*) => {
        $crate::read_table!(@words $read [] [Option<$ty>] $keys $($words)*)
    };

    (@words $read:tt [] [$ty:ty] $keys:tt) => { $crate::read_table!(@one $read, $ty, $keys) };
    (@words $read:tt [] [$ty:ty] $keys:tt optional,) => { $crate::read_table!(@some $read, $ty, $keys) };
    (@words $read:tt [] [$ty:ty] $keys:tt or($default:expr),) => {
        match $crate::read_table!(@some $read, $ty, $keys) {
            Some(field) => field,
            None => $default,
        }
    };
    (@words [$helper:ident, [$new:ident $warnings:ident], $field:ident] [] [$ty:ty] [$key:expr] with_warnings,) => {
        $helper.read_with_warnings::<$ty>($key, &mut $new)?
    };
    (@words $read:tt [] [$ty:ty] $keys:tt unique($name:ident $(= $named:literal)?), $($words:tt)*) => {
        $crate::read_table!(@named $read [] [$ty] $keys [$name $($named)?] $($words)*)
    };
    (@words [$helper:ident, $warnings:tt, $field:ident] [] [$ty:ty] [$key:expr] flatten,) => {
        $helper.read_rest::<$ty>()?
    };

    // a list whose elements have names
    (@named $read:tt [] $ty:tt $keys:tt $names:tt optional,) => {
        $crate::read_table!(@named $read [option] $ty $keys $names)
    };
    (@named $read:tt [] $ty:tt $keys:tt $names:tt or($default:expr),) => {
        match $crate::read_table!(@named $read [option] $ty $keys $names) {
            Some(field) => field,
            None => $default,
        }
    };
    (@named $read:tt [] [$ty:ty] $keys:tt $names:tt) => {
        $crate::read_table!(@compared $read $keys $names $crate::read_table!(@one $read, $ty, $keys))
    };
    (@named $read:tt [option] [$ty:ty] $keys:tt $names:tt) => {
        $crate::read_table!(@compared $read $keys $names $crate::read_table!(@some $read, $ty, $keys))
    };
    (@named $read:tt $form:tt $ty:tt $keys:tt $names:tt $($words:tt)+) => {
        $crate::read_table!(@badly $read "unique(field)`, followed by nothing, `or(value)` or `optional`")
    };
    (@compared [$helper:ident, $warnings:tt, $field:ident] $keys:tt [$name:ident $($named:literal)?] $list:expr) => {{
        let repeated = $helper.repeated_at(
            $crate::read_table!(@place $helper $keys),
            $crate::read_table!(@key $name $($named)?),
        )?;
        let list = $list;
        if let Some(list) = &list {
            let mut names = $helper.no_names();
            for entry in list.iter() {
                names.push((entry.$name.value.as_str(), entry.$name.span))?;
            }
            $helper.keep_repeated(names.as_slice())?;
        } else {
            $helper.keep_errors(repeated)?;
        }
        list
    }};

    // a float, whose bounds are not integers
    (@within $read:tt [option spanned] [$ty:ty] $keys:tt $($rest:tt)*) => {
        $crate::read_table!(@within $read [option] [$crate::Spanned<$ty>] $keys $($rest)*)
    };
    (@within $read:tt [spanned] [$ty:ty] $keys:tt $($rest:tt)*) => {
        $crate::read_table!(@within $read [] [$crate::Spanned<$ty>] $keys $($rest)*)
    };
    (@within $read:tt [] [$ty:ty] $keys:tt $range:tt optional,) => {
        $crate::read_table!(@within $read [option] [$ty] $keys $range)
    };
    (@within $read:tt [] [$ty:ty] $keys:tt $range:tt or($default:expr),) => {
        match $crate::read_table!(@within $read [option] [$ty] $keys $range) {
            Some(field) => field,
            None => $default,
        }
    };
    (@within [$helper:ident, $warnings:tt, $field:ident] [] [$ty:ty] $keys:tt [$($range:expr),*]) => {{
        let float = $crate::read_table!(@one [$helper, $warnings, $field], $crate::Spanned<$crate::FloatText>, $keys);
        $helper.within::<$ty>(float, $($range),*)?
    }};
    (@within [$helper:ident, $warnings:tt, $field:ident] [option] [$ty:ty] $keys:tt [$($range:expr),*]) => {{
        let float = $crate::read_table!(@some [$helper, $warnings, $field], $crate::Spanned<$crate::FloatText>, $keys);
        $helper.within::<$ty>(float, $($range),*)?
    }};
    (@within $read:tt $form:tt [$ty:ty] $keys:tt $range:tt $($words:tt)+) => {
        $crate::read_table!(@held $read $form $ty, $keys $($words)+)
    };

    // a type that contains the value of the field
    (@held $read:tt [] $ty:ty, $keys:tt) => { $crate::read_table!(@one $read, $ty, $keys) };
    (@held $read:tt [] $ty:ty, $keys:tt optional,) => { $crate::read_table!(@held $read [option] $ty, $keys) };
    (@held $read:tt [] $ty:ty, $keys:tt or($default:expr),) => {
        match $crate::read_table!(@some $read, $ty, $keys) {
            Some(field) => field.value,
            None => $default,
        }
    };
    (@held $read:tt [option] $ty:ty, $keys:tt) => {
        match $crate::read_table!(@some $read, $ty, $keys) {
            Some(field) => {
                let value = field.value;
                Some(value)
            }
            None => None,
        }
    };
    (@held $read:tt [spanned] $ty:ty, $keys:tt) => {
        $crate::read_table!(@one $read, $crate::Spanned<$ty>, $keys)
    };
    (@held $read:tt [option spanned] $ty:ty, $keys:tt) => {
        match $crate::read_table!(@some $read, $crate::Spanned<$ty>, $keys) {
            Some(field) => {
                let span = field.span;
                let value = field.value.value;
                Some($crate::Spanned::with_span(value, span))
            }
            None => None,
        }
    };
    (@held [$helper:ident, $warnings:tt, $field:ident] $form:tt $ty:ty, $keys:tt $($words:tt)+) => {
        compile_error!(concat!("`read_table!`: `", stringify!($field), "`: only `or(value)` and `optional` can follow ",
            "`parsed` or `range(..)`, and neither if the type is a `Spanned` or an `Option`"))
    };

    // options that are not allowed here
    (@words [$helper:ident, [], $field:ident] $form:tt [$ty:ty] $keys:tt with_warnings, $($words:tt)*) => {
        $crate::read_table!(@silent $field with_warnings)
    };
    (@words $read:tt $form:tt [$ty:ty] $keys:tt alias $($words:tt)*) => {
        $crate::read_table!(@badly $read "alias(\"old-name\")`")
    };
    (@words $read:tt $form:tt [$ty:ty] $keys:tt deprecated $($words:tt)*) => {
        $crate::read_table!(@badly $read "deprecated(\"old-name\")`")
    };
    (@words $read:tt $form:tt [$ty:ty] $keys:tt range $($words:tt)*) => {
        $crate::read_table!(@badly $read "range(1..=9)` or `range(0.5..=1.0)`, with two literals, before `or(..)`")
    };
    (@words $read:tt $form:tt [$ty:ty] $keys:tt or $($words:tt)*) => {
        $crate::read_table!(@badly $read "or(value)`, as the last option; the field's type can't be `Spanned`")
    };
    (@words $read:tt $form:tt [$ty:ty] $keys:tt unique $($words:tt)*) => {
        $crate::read_table!(@badly $read "unique(field)`, before `or(..)` or `optional`")
    };
    (@words $read:tt $form:tt [$ty:ty] $keys:tt optional $($words:tt)*) => {
        $crate::read_table!(@badly $read "optional`, as the last option")
    };
    (@words $read:tt $form:tt [$ty:ty] $keys:tt flatten $($words:tt)*) => {
        $crate::read_table!(@badly $read "flatten`, as the only option")
    };
    (@words $read:tt $form:tt [$ty:ty] $keys:tt parsed $($words:tt)*) => {
        $crate::read_table!(@badly $read "parsed`, once, before `or(..)`")
    };
    (@words $read:tt $form:tt [$ty:ty] $keys:tt with_warnings $($words:tt)*) => {
        $crate::read_table!(@badly $read "with_warnings`, as the only option")
    };
    (@badly [$helper:ident, $warnings:tt, $field:ident] $form:literal) => {
        compile_error!(concat!("`read_table!`: `", stringify!($field), "`: write `", $form))
    };
    // the compiler reports an unknown option where it is written, and names the module of this path
    (@words $read:tt $form:tt [$ty:ty] $keys:tt $how:ident $($words:tt)*) => {
        $crate::words_are_alias_deprecated_flatten_optional_or_parsed_range_unique_with_warnings::$how
    };

    // the value for the field of the struct; at this point, no read has failed
    (@field [text] $($rest:tt)*) => { $crate::read_table!(@field [] $($rest)*) };
    (@field [float $($form:ident)*] $field:ident range $range:tt, $($words:tt)*) => {
        $crate::read_table!(@field [$($form)*] $field $($words)*)
    };
    (@field $form:tt $field:ident alias $old:tt, $($words:tt)*) => {
        $crate::read_table!(@field $form $field $($words)*)
    };
    (@field $form:tt $field:ident deprecated $old:tt, $($words:tt)*) => {
        $crate::read_table!(@field $form $field $($words)*)
    };
    (@field $form:tt $field:ident unique $names:tt, $($words:tt)*) => {
        $crate::read_table!(@field $form $field $($words)*)
    };
    (@field [float $($form:ident)*] $field:ident $($words:tt)*) => {
        $crate::read_table!(@field [$($form)*] $field $($words)*)
    };
    (@field [$($form:ident)*] $field:ident parsed, $($words:tt)*) => {
        $crate::read_table!(@field [$($form)* held] $field $($words)*)
    };
    (@field [$($form:ident)*] $field:ident range $range:tt, $($words:tt)*) => {
        $crate::read_table!(@field [$($form)* held] $field $($words)*)
    };
    (@field $form:tt $field:ident or $default:tt,) => { $field };
    (@field $form:tt $field:ident optional,) => { $field };
    (@field [option $($form:ident)*] $field:ident) => { $field };
    (@field [option $($form:ident)*] $field:ident with_warnings,) => { $field };
    (@field [held] $field:ident) => {{
        let value = $field.unwrap().value;
        value
    }};
    (@field [spanned held] $field:ident) => {{
        let field = $field.unwrap();
        let span = field.span;
        let value = field.value.value;
        $crate::Spanned::with_span(value, span)
    }};
    (@field $form:tt $field:ident $($words:tt)*) => { $field.unwrap() };
}
