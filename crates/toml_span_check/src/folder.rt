//! Finds the TOML files below a directory.
ghost use Rattle.std.specs.Prelude.{◌≡◌, IfOk, IsSorted, OnOk, map, string_bytes};
ghost use Rattle.std.specs.Cmp.Lexicographic.{slice_cmp};
ghost use Rattle.std.specs.List.{filter_map};
ghost use Rattle.std.specs.Ordering.{nat_cmp};
ghost use Rattle.toml_span_check.specs.Folders as spec;
ghost use Rattle.toml_span_check.specs.Patterns.{ignore_patterns as ignored_by, pattern, pattern_of as parsed};

use crate::patterns::{
    Pattern, ignore_patterns, last_match, pattern_of, push_pattern, without_root,
};
use crate::words::{is_bytes, word_text};
use std::alloc::{AllocError, Global};
use std::fs::File;
use std::io::{BufRead, BufReader, ErrorKind};
use std::rt::Files;
use std::{fs, io};
use toml_span_lines::run::{Cut, read_bytes};
use toml_span_lines::tracked::Tracked;

/// The names of files that contain patterns of paths to ignore. In the same directory, the later one overrides the
/// earlier one.
const IGNORES: [&str; 2] = [".gitignore", ".ignore"];

/// The patterns of an ignore file: `.gitignore`, `.ignore` or `.git/info/exclude`.
#[derive(Drop)]
struct Ignore {
    patterns: Vec<Pattern>,
    /// The path of the directory to search, relative to that of the patterns, with a slash at its end. Empty if it is
    /// not below the directory of the patterns.
    front: String,
    /// The length in bytes of the path of the directory of the patterns, or of the directory to search if that is below
    /// it, including the slash at its end.
    length: usize,
    /// The position in `Below::ignores` of the ignore file that applies if no pattern of this file matches, if there is
    /// one: the nearest one in this directory or above.
    above: Option<usize>,
}

/// A directory that has not been searched yet.
#[derive(Drop)]
struct Folder {
    path: String,
    /// The position in `Below::ignores` of the nearest ignore file in a directory above this one, if there is one.
    ignore: Option<usize>,
}

/// A search for files below a directory: the files found, the directories left to search, and patterns of files to
/// leave out.
#[derive(Drop)]
struct Below {
    files: Vec<String>,
    folders: Vec<Folder>,
    ignores: Vec<Ignore>,
    /// The patterns of `--exclude`.
    excludes: Vec<Pattern>,
}

/// Returns whether there is a directory, or a link to one, at the path `name`. Returns `false` if the system reports an
/// error.
pub fn is_folder(rt: &HostRuntime, name: &str) -> bool {
    match fs::metadata(rt, name) {
        Ok(found) => found.is_dir(),
        Err(_) => false,
    }
}

/// Returns whether there is a pipe, a device or a socket, or a link to one, at the path `name`: anything but a regular
/// file or a directory. To open a pipe would be to wait for a writer. Returns `false` if the system reports an error.
pub fn is_special(rt: &HostRuntime, name: &str) -> bool {
    match fs::metadata(rt, name) {
        Ok(found) => !found.is_dir() && !found.is_file(),
        Err(_) => false,
    }
}

/// Returns whether there is a file, or a link to one, at `path`. Returns `true` if the system reports an error.
fn may_be_file(rt: &HostRuntime, path: &str) -> bool {
    match fs::metadata(rt, path) {
        Ok(found) => found.is_file(),
        Err(_) => true,
    }
}

/// Returns whether the name is `.` or `..`.
fn is_dots(name: &[u8]) -> bool
    ensures { result ≡ spec.is_dots name.now }
{
    name == b".".as_slice() || name == b"..".as_slice()
}

/// Returns the names in a directory, except `.` and `..`. Fails if the directory can't be listed. If an allocation
/// fails, the error has the kind `OutOfMemory`.
fn names_in(rt: &HostRuntime, folder: &str) -> io::Result<Vec<Vec<u8>>> {
    let mut path = String::from_str(rt.alloc(), folder)?;
    path.push('/')?;
    let open = BufReader::new(rt.alloc(), rt.open_dir(path.as_str())?)?;
    let mut names = Vec::new(rt.alloc());
    for name in open.split(rt.alloc(), 0) {
        let name = name?;
        if !is_dots(name.as_slice()) {
            names.push(name)?;
        }
    }
    Ok(names)
}

/// Returns the path of the file `name` in the directory `folder`. The bytes of `name` are converted with `word_text`.
fn path_of(alloc: Global, folder: &str, name: &[u8]) -> Result<String, AllocError>
    ensures { IfOk result (λ path. string_bytes path ≡ spec.path_of folder.now name.now) }
{
    let mut path = String::from_str(alloc, folder)?;
    if !folder.ends_with('/') {
        path.push('/')?;
    }
    path.push_str(word_text(alloc, name)?.as_str())?;
    Ok(path)
}

/// Returns the text of a file, up to `BOUND + 1` bytes. Returns an empty string if there is no file at `path`, or if its
/// text is not valid UTF-8, and `None` if it can't be read or is a pipe, a device or a socket.
fn text_of(rt: &HostRuntime, alloc: Global, path: &str) -> Result<Option<String>, AllocError> {
    if is_folder(rt, path) {
        return Ok(Some(String::new(alloc)));
    }
    if is_special(rt, path) {
        return Ok(None);
    }
    let file = match File::open(rt, path) {
        Ok(file) => file,
        Err(error) if error.kind() == ErrorKind::NotFound => return Ok(Some(String::new(alloc))),
        Err(_) => return Ok(None),
    };
    match read_bytes(alloc, &mut Tracked::new(file)) {
        Ok(bytes) => {
            let text = str::from_utf8(bytes.as_slice()).unwrap_or("");
            Ok(Some(String::from_str(alloc, text)?))
        }
        Err(Cut::Memory) => Err(AllocError),
        Err(Cut::Failed(_)) => Ok(None),
    }
}

/// Returns the part of a path after the last slash, or the whole path if it has no slash.
fn last_name<'t>(path: &'t str) -> &'t str
    ensures { result.now ≡ spec.last_name path.now }
{
    match path.rsplit_once('/') {
        Some((_, name)) => name,
        None => path,
    }
}

/// Returns whether a path is that of the ignore file of a Git repository that is not in its working tree.
fn is_exclude_file(path: &str) -> bool
    ensures { result ≡ spec.is_exclude_file path.now }
{
    path.ends_with("/.git/info/exclude")
}

/// Returns whether a path is that of an ignore file.
pub(crate) fn is_ignore_file(path: &str) -> bool
    ensures { result ≡ spec.is_ignore_file path.now }
{
    let name = last_name(path);
    name == ".gitignore" || name == ".ignore" || is_exclude_file(path)
}

/// Returns whether a path ends in `.toml`.
fn is_toml(path: &str) -> bool
    ensures { result ≡ spec.is_toml path.now }
{
    path.ends_with(".toml")
}

/// Returns whether a search leaves out directories of this name: `target`, `node_modules`, and names that begin with
/// `.`.
fn is_passed_over(name: &str) -> bool
    ensures { result ≡ spec.is_passed_over name.now }
{
    name.starts_with('.') || name == "target" || name == "node_modules"
}

/// Returns whether there is anything at `path`. Returns `false` if the system reports an error.
fn exists(rt: &HostRuntime, path: &str) -> bool {
    fs::symlink_metadata(rt, path).is_ok()
}

/// Returns the absolute path of a directory, without links. Returns an empty string if the system reports an error.
fn real_path(rt: &HostRuntime, alloc: Global, folder: &str) -> Result<String, AllocError> {
    match fs::canonicalize(rt, folder) {
        Ok(path) => String::from_str(alloc, path.to_string_lossy()),
        Err(error) if error.kind() == ErrorKind::OutOfMemory => Err(AllocError),
        Err(_) => Ok(String::new(alloc)),
    }
}

/// Returns the length in bytes of the path of the nearest directory that has `.git`: the directory with the absolute
/// path `folder`, or one above it. Does not count a slash at the end. Returns `None` if there is none.
fn repository(rt: &HostRuntime, alloc: Global, folder: &str) -> Result<Option<usize>, AllocError> {
    let mut end = folder.trim_end_matches('/').len();
    for _ in 0..=folder.len() {
        let top = folder.get(..end).unwrap_or("");
        if exists(rt, format!(in alloc; "{top}/.git")?.as_str()) {
            return Ok(Some(end));
        }
        match top.rfind('/') {
            Some(slash) => end = slash,
            None => return Ok(None),
        }
    }
    Ok(None)
}

/// Returns the path of a directory relative to another one, with a slash at its end. `rest` is what the directory's path
/// has after the other one's, and may begin with a slash. Returns an empty string for the other directory itself.
fn front_of(alloc: Global, rest: &str) -> Result<String, AllocError>
    ensures { IfOk result (λ front. string_bytes front ≡ spec.front_of rest.now) }
{
    let rest = without_root(rest);
    if rest.is_empty() {
        return Ok(String::new(alloc));
    }
    format!(in alloc; "{rest}/")
}

/// Returns a path without `./` at its start.
fn without_dot<'t>(path: &'t str) -> &'t str
    ensures { result.now ≡ spec.without_dot path.now }
{
    match path.strip_prefix("./") {
        Some(rest) => rest,
        None => path,
    }
}

/// Returns the part of a path after the first `length` bytes, or the whole path if that is not a part of it.
fn rest_from<'t>(path: &'t str, length: usize) -> &'t str
    ensures { result.now ≡ spec.rest_from length path.now }
{
    if path.is_char_boundary(length) {
        &path[length..]
    } else {
        path
    }
}

impl Ignore {
    /// Returns a path, relative to the directory of the patterns.
    fn inside(&self, alloc: Global, path: &str) -> Result<String, AllocError>
        ensures { IfOk result (λ inside. string_bytes inside ≡ spec.inside (spec.ignore self.now) path.now) }
    {
        let mut inside = String::from_str(alloc, self.front.as_str())?;
        inside.push_str(rest_from(path, self.length))?;
        Ok(inside)
    }
}

impl Below {
    /// Returns whether ignore files ignore `path`. `ignore` is the position in `ignores` of the nearest such file, if
    /// there is one. The nearest file with a pattern that matches `path` decides.
    fn is_ignored(
        &self,
        alloc: Global,
        path: &str,
        is_directory: bool,
        ignore: Option<usize>,
    ) -> Result<bool, AllocError>
        ensures { IfOk result (λ found. found
            ≡ spec.is_ignored (map spec.ignore self.now.ignores.items) path.now is_directory ignore) }
    {
        let mut next = ignore;
        for _ in 0..self.ignores.len() {
            let Some(at) = next else {
                return Ok(false);
            };
            let Some(ignore) = self.ignores.get(at) else {
                return Ok(false);
            };
            let inside = ignore.inside(alloc, path)?;
            let patterns = ignore.patterns.as_slice();
            if let Some(found) = last_match(alloc, patterns, inside.as_str(), is_directory)? {
                return Ok(found);
            }
            next = ignore.above;
        }
        Ok(false)
    }

    /// Returns whether the patterns of `--exclude` exclude `path`.
    fn is_excluded(&self, alloc: Global, path: &str, is_directory: bool) -> Result<bool, AllocError>
        ensures { IfOk result (λ found. found
            ≡ spec.is_excluded (map pattern self.now.excludes.items) path.now is_directory) }
    {
        let patterns = self.excludes.as_slice();
        let found = last_match(alloc, patterns, without_dot(path), is_directory)?;
        Ok(found.unwrap_or(false))
    }

    /// Returns whether to leave out `path`, because of its name, a pattern of `--exclude` or an ignore file. `ignore`
    /// is the position in `ignores` of the nearest ignore file, if there is one.
    fn is_left_out(
        &self,
        alloc: Global,
        path: &str,
        is_directory: bool,
        ignore: Option<usize>,
    ) -> Result<bool, AllocError>
        ensures { IfOk result (λ found. found ≡ spec.is_left_out (spec.below self.now) path.now is_directory ignore) }
    {
        if is_directory && is_passed_over(last_name(path)) {
            return Ok(true);
        }
        if self.is_excluded(alloc, path, is_directory)? {
            return Ok(true);
        }
        self.is_ignored(alloc, path, is_directory, ignore)
    }

    /// Adds the directory `path` to the directories to search, unless `is_left_out` returns `true` for it. `ignore` is
    /// the position in `ignores` of the nearest ignore file, if there is one.
    fn push_folder(
        &mut self,
        alloc: Global,
        path: String,
        ignore: Option<usize>,
    ) -> Result<(), AllocError>
        ensures { OnOk result (spec.below self.new ≡ spec.with_folder (string_bytes path) ignore (spec.below self.old)) }
    {
        if !self.is_left_out(alloc, path.as_str(), true, ignore)? {
            self.folders.push(Folder { path, ignore })?;
        }
        Ok(())
    }

    /// Returns whether `path` ends in `.toml` and is not left out. `ignore` is the position in `ignores` of the nearest
    /// ignore file, if there is one.
    fn takes(&self, alloc: Global, path: &str, ignore: Option<usize>) -> Result<bool, AllocError>
        ensures { IfOk result (λ found. found ≡ spec.takes (spec.below self.now) path.now ignore) }
    {
        Ok(is_toml(path) && !self.is_left_out(alloc, path, false, ignore)?)
    }

    /// Adds `path` to the files found if `takes` returns `true` for it and it may be a file.
    fn push_file(
        &mut self,
        rt: &HostRuntime,
        alloc: Global,
        path: String,
        ignore: Option<usize>,
    ) -> Result<(), AllocError> {
        if self.takes(alloc, path.as_str(), ignore)? && may_be_file(rt, path.as_str()) {
            self.files.push(path)?;
        }
        Ok(())
    }

    /// Adds an ignore file with this text, if it has patterns. `front` and `length` are those of `Ignore`, and `above` is
    /// the position in `ignores` of the ignore file that applies if this file does not decide. Returns the position of
    /// the ignore file that applies first.
    fn add_ignore(
        &mut self,
        alloc: Global,
        text: &str,
        front: String,
        length: usize,
        above: Option<usize>,
    ) -> Result<Option<usize>, AllocError>
        ensures { IfOk result (λ at. (at, spec.below self.new)
            ≡ spec.with_ignore (ignored_by text.now) (string_bytes front) length above (spec.below self.old)) }
    {
        let patterns = ignore_patterns(alloc, text)?;
        if patterns.is_empty() {
            return Ok(above);
        }
        let at = self.ignores.len();
        self.ignores.push(Ignore {
            patterns,
            front,
            length,
            above,
        })?;
        Ok(Some(at))
    }

    /// Adds `path` with `push_folder` or `push_file`. If the path can't be examined, adds it to the files found, so
    /// that reading it reports why. Ignores a path that does not exist, and a path that can't be examined, is not valid
    /// UTF-8 and does not end in `.toml`.
    fn push(
        &mut self,
        rt: &HostRuntime,
        alloc: Global,
        path: String,
        ignore: Option<usize>,
    ) -> Result<(), AllocError> {
        match fs::symlink_metadata(rt, path.as_str()) {
            Ok(found) if found.is_dir() => self.push_folder(alloc, path, ignore),
            Ok(_) => self.push_file(rt, alloc, path, ignore),
            // The file has been removed in the meantime.
            Err(error) if error.kind() == ErrorKind::NotFound => Ok(()),
            Err(_) if is_bytes(path.as_str()) && !is_toml(path.as_str()) => Ok(()),
            Err(_) => {
                self.files.push(path)?;
                Ok(())
            }
        }
    }

    /// Reads the ignore file at `path` and adds it with `add_ignore`. If it can't be read, adds its path to the files
    /// found, so that reading it reports why, and returns `above`.
    fn push_ignore(
        &mut self,
        rt: &HostRuntime,
        alloc: Global,
        path: &str,
        front: String,
        length: usize,
        above: Option<usize>,
    ) -> Result<Option<usize>, AllocError> {
        let Some(text) = text_of(rt, alloc, path)? else {
            self.files.push(String::from_str(alloc, path)?)?;
            return Ok(above);
        };
        self.add_ignore(alloc, text.as_str(), front, length, above)
    }

    /// Reads the ignore files that apply to `folder`, the directory to search, but are not in it or below it: those of
    /// the directories above it, up to the one that has `.git`, and `.git/info/exclude`. Reads none if there is no such
    /// directory. Returns the position in `ignores` of the nearest one, if there is one.
    fn push_above(
        &mut self,
        rt: &HostRuntime,
        alloc: Global,
        folder: &str,
    ) -> Result<Option<usize>, AllocError> {
        let real = real_path(rt, alloc, folder)?;
        let real = real.as_str();
        let Some(top) = repository(rt, alloc, real)? else {
            return Ok(None);
        };
        let length = path_of(alloc, folder, b"")?.len();
        let root = real.get(..top).unwrap_or("");
        let exclude = format!(in alloc; "{root}/.git/info/exclude")?;
        let front = front_of(alloc, real.get(top..).unwrap_or(""))?;
        let mut ignore = self.push_ignore(rt, alloc, exclude.as_str(), front, length, None)?;
        for (end, byte) in real.bytes().enumerate() {
            if byte != b'/' || end < top || end + 1 == real.len() {
                continue;
            }
            let above = real.get(..end).unwrap_or("");
            for name in IGNORES {
                let path = format!(in alloc; "{above}/{name}")?;
                let front = front_of(alloc, real.get(end..).unwrap_or(""))?;
                ignore = self.push_ignore(rt, alloc, path.as_str(), front, length, ignore)?;
            }
        }
        Ok(ignore)
    }

    /// Reads the ignore files of `folder` that are among `names`, the names in the directory. Returns the position in
    /// `ignores` of the nearest ignore file, in the directory or above, if there is one.
    fn ignore_of(
        &mut self,
        rt: &HostRuntime,
        alloc: Global,
        folder: &Folder,
        names: &[Vec<u8>],
    ) -> Result<Option<usize>, AllocError> {
        let length = path_of(alloc, folder.path.as_str(), b"")?.len();
        let mut ignore = folder.ignore;
        for name in IGNORES {
            if names
                .iter()
                .any(|other| other.as_slice() == name.as_bytes())
            {
                let path = path_of(alloc, folder.path.as_str(), name.as_bytes())?;
                let front = String::new(alloc);
                ignore = self.push_ignore(rt, alloc, path.as_str(), front, length, ignore)?;
            }
        }
        Ok(ignore)
    }

    /// Adds the files and directories in `folder`. If the directory can't be listed, adds its path to the files found,
    /// so that reading it reports why.
    fn look_into(
        &mut self,
        rt: &HostRuntime,
        alloc: Global,
        folder: Folder,
    ) -> Result<(), AllocError> {
        match names_in(rt, folder.path.as_str()) {
            Ok(names) => {
                let ignore = self.ignore_of(rt, alloc, &folder, names.as_slice())?;
                for name in names.as_slice() {
                    let path = path_of(alloc, folder.path.as_str(), name.as_slice())?;
                    self.push(rt, alloc, path, ignore)?;
                }
            }
            Err(error) if error.kind() == ErrorKind::OutOfMemory => return Err(AllocError),
            Err(_) => self.files.push(folder.path)?,
        }
        Ok(())
    }
}

/// Parses each text as a pattern. Leaves out texts that can't be parsed.
fn patterns_of(alloc: Global, texts: &[&str]) -> Result<Vec<Pattern>, AllocError>
    ensures { IfOk result (λ patterns. map pattern patterns.items
        ≡ filter_map parsed (map (λ text. text.now) texts.now)) }
{
    let mut patterns = Vec::new(alloc);
    for text in texts {
        push_pattern(&mut patterns, pattern_of(alloc, *text)?)?;
    }
    Ok(patterns)
}

/// Returns the sorted paths of the TOML files below a directory. Does not follow links to directories. A directory that
/// can't be listed and an ignore file that can't be read are included, so that reading them reports why.
///
/// Leaves out paths that the patterns `excludes` exclude, or those of the files `.gitignore` and `.ignore`: of the
/// directories that are searched and, if the directory is in a Git repository, of those above it in the repository, and
/// `.git/info/exclude`. Leaves out directories that are hidden or named `target` or `node_modules`.
pub(crate) fn files_below(
    rt: &HostRuntime,
    alloc: Global,
    folder: &str,
    excludes: &[&str],
) -> Result<Vec<String>, AllocError>
    ensures sorted { IfOk result
        (λ files. IsSorted (λ s t. slice_cmp nat_cmp (string_bytes s) (string_bytes t)) files.items) }
{
    let path = String::from_str(alloc, folder)?;
    let mut below = Below {
        files: Vec::new(alloc),
        folders: Vec::new(alloc),
        ignores: Vec::new(alloc),
        excludes: patterns_of(alloc, excludes)?,
    };
    let ignore = below.push_above(rt, alloc, folder)?;
    below.folders.push(Folder { path, ignore })?;
    for _ in 0..u64::MAX {
        match below.folders.pop() {
            Some(folder) => below.look_into(rt, alloc, folder)?,
            None => break,
        }
    }
    let mut files = below.files;
    files.sort_unstable();
    Ok(files)
}
