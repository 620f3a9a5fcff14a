//! Reads of enums whose variants have data.

/// Reads an enum from a table in which one key, the tag, selects the variant. Use it as the body of a `deserialize`:
///
/// ```text
/// read_tagged!(alloc, value, "kind", {
///     "file" => Target::File { path: String; append: bool, or(false); },
///     "server" => Target::Server(Server),
///     "none" => Target::None,
/// })
/// ```
///
/// The fields of a variant are written as in `read_table!`, and cause the same errors. A variant that wraps a type,
/// such as `Target::Server(Server)`, reads that type from the keys other than the tag. A variant without data allows
/// only the tag.
///
/// Fails with `Wanted` if the value is not a table or the tag is not a string, with `MissingField` if the tag is
/// absent, and with `UnexpectedValue`, which lists the expected tags, if no variant has this tag. In these cases, no
/// other error of the table is reported.
///
/// The form with a list of warnings, `read_tagged!(alloc, value, warnings, "kind", { .. })`, is the body of a
/// `deserialize_with_warnings`.
#[macro_export]
macro_rules! read_tagged {
    ($alloc:expr, $value:expr, $name:literal, { $($arms:tt)* }) => {{
        let mut helper = $crate::de_helpers::TableHelper::new($alloc, $value)?;
        $crate::read_tagged!(@arms [helper, $value, [], $name] $($arms)*)
    }};
    ($alloc:expr, $value:expr, $warnings:ident, $name:literal, { $($arms:tt)* }) => {{
        let mut helper = $crate::de_helpers::TableHelper::new($alloc, $value)?;
        let mut gathered = helper.no_warnings();
        $crate::read_tagged!(@arms [helper, $value, [gathered $warnings], $name] $($arms)*)
    }};

    (@arms [$helper:ident, $value:expr, $warnings:tt, $name:literal]
        $($tag:literal => $enum:ident::$variant:ident $({ $($fields:tt)* })? $(($inner:ty))?),+ $(,)?
    ) => {
        match $helper.read_tag($name, &[$($tag),+])? {
            $(Some($tag) => $crate::read_tagged!(
                @variant [$helper, $value, $warnings, [$enum::$variant]] $({ $($fields)* })? $(($inner))?
            ),)+
            _ => Err($helper.untagged($name).into()),
        }
    };

    (@variant $read:tt { $($fields:tt)* }) => { $crate::read_table!(@fields $read [] $($fields)*) };
    (@variant [$helper:ident, $value:expr, $warnings:tt, [$($variant:tt)+]] ($inner:ty)) => {{
        let inner = $helper.read_rest::<$inner>()?;
        $helper.finish()?;
        Ok($($variant)+(inner.unwrap()))
    }};
    (@variant [$helper:ident, $value:expr, $warnings:tt, [$($variant:tt)+]]) => {{
        $helper.finish()?;
        Ok($($variant)+)
    }};
}
