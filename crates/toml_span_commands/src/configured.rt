//! Files with the settings that configuration files have for them.
ghost use Rattle.std.specs.Prelude.{◌≡◌, OnOk, map};
ghost use Rattle.toml_span_commands.specs.Configured as spec;

use std::alloc::{AllocError, Global};
use toml_span::Stop;
use toml_span_check::answer::Task;
use toml_span_check::input::{Host, Inputs};
use toml_span_check::newer::Version;
use toml_span_check::schemas::Chooser;
use toml_span_config::sources::{Found, Sources};

/// A file, and the settings for it.
#[derive(Drop)]
pub(crate) struct Configured {
    /// The name of the file, as it was found, or `-` for standard input.
    pub(crate) name: String,
    /// The name of the file in reports.
    pub(crate) shown: String,
    pub(crate) found: Found,
}

/// Which files to work on.
#[derive(Clone, Copy)]
pub(crate) struct Wanted<'w> {
    /// The names of files and directories.
    pub(crate) names: &'w [&'w str],
    /// The patterns of files to leave out of searches.
    pub(crate) excludes: &'w [&'w str],
    /// The name of standard input.
    pub(crate) stdin_name: &'w str,
    /// Whether configuration files exclude also the files in `names`.
    pub(crate) forces_exclude: bool,
}

/// Appends a file, unless its configuration excludes it. `is_named` says whether an argument names the file, which is
/// excluded only if this is forced.
fn push_included(
    file: Configured,
    is_named: bool,
    forces_exclude: bool,
    files: &mut Vec<Configured>,
) -> Result<(), AllocError>
    ensures { OnOk result (files.new.items ≡ spec.with_file files.old.items file is_named forces_exclude) }
{
    if file.found.is_excluded && (!is_named || forces_exclude) {
        return Ok(());
    }
    files.push(file)?;
    Ok(())
}

/// Appends the file `name`, unless its configuration excludes it. `is_named` says whether an argument names the file,
/// which is excluded only if this is forced. Fails with a message if the configuration is wrong.
fn push_file(
    alloc: Global,
    host: &mut Host,
    sources: &mut Sources,
    wanted: Wanted<'_>,
    name: String,
    is_named: bool,
    files: &mut Vec<Configured>,
) -> Result<(), Stop<String>> {
    let shown = if name.as_str() == "-" {
        String::from_str(alloc, wanted.stdin_name)?
    } else {
        name.clone()?
    };
    let found = sources.settings_for(alloc, host, shown.as_str())?;
    let file = Configured { name, shown, found };
    push_included(file, is_named, wanted.forces_exclude, files)?;
    Ok(())
}

/// The message for a name of standard input that is given for other files.
pub(crate) const UNUSED_NAME: &str =
    "error: '--stdin-name' can only be used with the file `-`, standard input\n";

/// Returns the files that `wanted` names, and those found below directories that it names, except those that are
/// excluded, with their settings. Fails with a message, for standard error, if a configuration file can't be read or is
/// wrong, or if standard input has a name, but is not among the files.
pub(crate) fn configured_files(
    alloc: Global,
    host: &mut Host,
    sources: &mut Sources,
    wanted: Wanted<'_>,
) -> Result<Vec<Configured>, Stop<String>> {
    if wanted.stdin_name != "-" && !wanted.names.contains(&"-") {
        return Err(Stop::Fault(String::from_str(alloc, UNUSED_NAME)?));
    }
    let mut files = Vec::new(alloc);
    for name in wanted.names {
        let found = host.find(alloc, wanted.excludes, *name)?;
        for file in found {
            let is_named = file.as_str() == *name;
            push_file(alloc, host, sources, wanted, file, is_named, &mut files)?;
        }
    }
    Ok(files)
}

/// Returns whether two versions of TOML are the same.
fn is_same(one: Version, other: Version) -> bool
    ensures { result ≡ spec.is_same one other }
{
    match (one, other) {
        (Version::Auto, Version::Auto) => true,
        (Version::Toml10, Version::Toml10) => true,
        (Version::Toml11, Version::Toml11) => true,
        _ => false,
    }
}

/// Returns whether all files have this version of TOML.
#[tactic(auto, unfolding(crate::specs::Configured::have_version))]
fn have_version(files: &[Configured], version: Version) -> bool
    ensures { result ≡ spec.have_version version (map spec.version_of files.now) }
{
    for file in files {
        if !is_same(file.found.settings.toml.value, version) {
            return false;
        }
    }
    true
}

/// Returns the version of TOML of all files, or `None` if they have several.
pub(crate) fn common_version(files: &[Configured]) -> Option<Version>
    ensures { result ≡ spec.common_version (map spec.version_of files.now) }
{
    let version = match files.first() {
        Some(file) => file.found.settings.toml.value,
        None => Version::Auto,
    };
    if have_version(files, version) {
        Some(version)
    } else {
        None
    }
}

/// Returns whether a configuration file names a schema for one of the files.
#[tactic(auto, unfolding(crate::specs::Configured::has_schemas))]
pub(crate) fn has_schemas(files: &[Configured]) -> bool
    ensures { result ≡ spec.has_schemas files.now }
{
    for file in files {
        if file.found.settings.schema.is_some() {
            return true;
        }
    }
    false
}

/// Returns the task for files with this version of TOML, which holds unless the arguments name one. `has_schemas` says
/// whether a configuration file names schemas.
pub(crate) fn configured_task(task: Task, version: Version, has_schemas: bool) -> Task
    ensures { result ≡ spec.configured_task task version has_schemas }
{
    match task {
        Task::Check(Version::Auto, chooser) => Task::Check(
            version,
            with_schemas(chooser, has_schemas),
        ),
        Task::Check(asked, chooser) => Task::Check(asked, with_schemas(chooser, has_schemas)),
        Task::Show(printing) => Task::Show(printing),
    }
}

/// Returns `Chooser::Arguments` if a configuration file names schemas, otherwise `chooser`.
fn with_schemas(chooser: Chooser, has_schemas: bool) -> Chooser
    ensures { result ≡ spec.with_schemas chooser has_schemas }
{
    if has_schemas {
        Chooser::Arguments
    } else {
        chooser
    }
}
