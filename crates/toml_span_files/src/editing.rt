//! Edits a file step by step.
ghost use Rattle.std.specs.Prelude.{IfOk, OnOk, OnErr, None};
ghost use Rattle.std.specs.Fn.{FnOnceReturnsAt};
ghost use Rattle.toml_span_files.specs.Past.{Edits, IsLocked, Keeps, Replaces};

use crate::LIMIT;
use crate::disk::{Disk, Options};
use crate::failure::{Failed, Failure};
use crate::steps::Steps;

/// Replaces the content of a file with `text`. Fails with `Changed` if the content is not `bytes`, or with the failure
/// of a step.
fn replace<S: Steps>(steps: &mut S, bytes: &[u8], text: &[u8]) -> Result<(), Failure>
    requires locked { IsLocked (S.past steps.old) }
    ensures ok { OnOk result (Replaces (S.past steps.old).texts (S.past steps.new).texts bytes.now text.now) }
    ensures err { OnErr result (Keeps (S.past steps.old).texts (S.past steps.new).texts) }
{
    steps.prepare(text)?;
    let now = steps.read()?;
    if now.as_slice() != bytes {
        return Err(Failure::Changed);
    }
    steps.replace()
}

/// Reads the file, calls `make` on its bytes, and replaces the content with the result. Returns whether the result
/// differs from the bytes. Fails as `edit` does.
fn attempt<S: Steps, X, F: FnOnce(&[u8]) -> Result<String, X>>(
    steps: &mut S,
    make: F,
) -> Result<bool, Failed<X>>
    requires callable { F.IsAlwaysCallable make }
    requires locked { IsLocked (S.past steps.old) }
    ensures ok { IfOk result (λ is_changed. Edits (FnOnceReturnsAt F.FnOnce make) is_changed
        (S.past steps.old).texts (S.past steps.new).texts) }
    ensures err { OnErr result (Keeps (S.past steps.old).texts (S.past steps.new).texts) }
{
    let bytes = steps.read()?;
    if bytes.len() > LIMIT {
        return Err(Failed::File(Failure::TooLong));
    }
    match make(bytes.as_slice()) {
        Ok(text) => {
            if text.as_bytes() == bytes.as_slice() {
                return Ok(false);
            }
            if text.len() > LIMIT {
                return Err(Failed::File(Failure::ResultTooLong));
            }
            replace(steps, bytes.as_slice(), text.as_bytes())?;
            Ok(true)
        }
        Err(refused) => Err(Failed::Edit(refused)),
    }
}

/// Replaces the content of a file with `text`, if the content is still `bytes`. Fails with `ResultTooLong` if `text` is
/// longer than `LIMIT`, with `Changed` if the content is not `bytes`, or with the failure of a step.
fn put_read<S: Steps>(steps: &mut S, bytes: &[u8], text: &str) -> Result<(), Failure>
    requires locked { IsLocked (S.past steps.old) }
    ensures ok { OnOk result (Replaces (S.past steps.old).texts (S.past steps.new).texts bytes.now text.now) }
    ensures err { OnErr result (Keeps (S.past steps.old).texts (S.past steps.new).texts) }
{
    if text.len() > LIMIT {
        return Err(Failure::ResultTooLong);
    }
    if steps.read()?.as_slice() != bytes {
        return Err(Failure::Changed);
    }
    replace(steps, bytes, text.as_bytes())
}

/// Edits a file: locks and reads it, calls `make` on its bytes, and replaces the content with the result. Returns
/// whether the result differs from the bytes. If not, nothing is written.
///
/// Fails with:
///
/// - the error of `make`;
/// - the failure of a step;
/// - `Changed` if another program changes the file in the meantime;
/// - `TooLong` if the file is longer than `LIMIT`, `ResultTooLong` if the result is.
///
/// After an error the file is as before, except after `Failure::Damaged`.
pub fn edit<S: Steps, X, F: FnOnce(&[u8]) -> Result<String, X>>(
    steps: &mut S,
    make: F,
) -> Result<bool, Failed<X>>
    requires { F.IsAlwaysCallable make }
    ensures ok { IfOk result (λ is_changed. Edits (FnOnceReturnsAt F.FnOnce make) is_changed
        (S.past steps.old).texts (S.past steps.new).texts) }
    ensures err { OnErr result (Keeps (S.past steps.old).texts (S.past steps.new).texts) }
{
    if let Err(failure) = steps.begin() {
        steps.discard();
        return Err(Failed::File(failure));
    }
    let result = attempt(steps, make);
    steps.discard();
    result
}

/// Edits the file with the path `name`, as `edit` does. For example, `edit_file(&rt, "a.toml", options, |bytes| ..)`
/// calls the function on the bytes of the file, and replaces the content with the result. Returns whether the result
/// differs from the bytes. Fails as `edit` and `Disk::new` do.
pub fn edit_file<X, F: FnOnce(&[u8]) -> Result<String, X>>(
    rt: &HostRuntime,
    name: &str,
    options: Options,
    make: F,
) -> Result<bool, Failed<X>>
    requires { F.IsAlwaysCallable make }
    ensures { IfOk result (λ is_changed. Edits (FnOnceReturnsAt F.FnOnce make) is_changed None None) }
{
    let mut disk = Disk::new(rt, name, options)?;
    edit(&mut disk, make)
}

/// Replaces the content of a file with `text`, if the content is still `bytes`, which were read earlier. Fails with
/// `Failure::Changed` if the file has other bytes now, with `Failure::ResultTooLong` if `text` is longer than `LIMIT`,
/// or with the failure of a step. After an error the file is as before, except after `Failure::Damaged`.
pub fn put<S: Steps>(steps: &mut S, bytes: &[u8], text: &str) -> Result<(), Failure>
    ensures ok { OnOk result (Replaces (S.past steps.old).texts (S.past steps.new).texts bytes.now text.now) }
    ensures err { OnErr result (Keeps (S.past steps.old).texts (S.past steps.new).texts) }
{
    if let Err(failure) = steps.begin() {
        steps.discard();
        return Err(failure);
    }
    let result = put_read(steps, bytes, text);
    steps.discard();
    result
}

/// Replaces the content of the file with the path `name`, as `put` does, if the content is still `bytes`. Fails as
/// `put` and `Disk::new` do.
pub fn put_file(
    rt: &HostRuntime,
    name: &str,
    options: Options,
    bytes: &[u8],
    text: &str,
) -> Result<(), Failure> {
    let mut disk = Disk::new(rt, name, options)?;
    put(&mut disk, bytes, text)
}
