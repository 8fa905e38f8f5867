//! The path that a text names, as C has it. `[*]` in the text, once, stands for the number of each element.

ghost use Rattle.std.specs.Prelude.{◌≡◌, ◌↔◌, ◌<◌, IfOk, IsTrue, MatchResult, length};
ghost use Rattle.fb_schema.specs.Rows.{is_table};
ghost use Rattle.fbcheck_calls.specs.{Marked.HasMark, Marked.IsFirstMark, Marked.at_zero, Reached.IsPath, Reached.IsResolved, Reached.IsUnresolved};
ghost use Rattle.fbcheck_calls.specs.Resolved.{HasNoPath, IsMarkedPath, IsPathFor};

use crate::held::Held;
use crate::options::Options;
use crate::outcome::Outcome;
use crate::steps::PlainPath;
use fb_access::{Path, PathFault};
use fb_bfbs::Loaded;
use fb_schema::Schema;
use std::alloc::{AllocError, Global};

/// Whether `[*]` begins at this place of a text.
fn is_mark(text: &[u8], at: usize) -> bool
    requires { at < length text.now }
    ensures { IsTrue result ↔ HasMark text.now at }
{
    at + 2 < text.len() && text[at] == b'[' && text[at + 1] == b'*' && text[at + 2] == b']'
}

/// Where the first `[*]` of a text begins, none where it has none.
pub fn first_mark(text: &[u8]) -> Option<usize>
    ensures { IsFirstMark text.now result }
{
    for at in 0..text.len() {
        if is_mark(text, at) {
            return Some(at);
        }
    }
    None
}

/// A text with `[0]` for the `[*]` at this place.
fn at_zero(alloc: Global, text: &[u8], at: usize) -> Result<Vec<u8>, AllocError>
    requires { HasMark text.now at }
    ensures { IfOk result (λ v. v.items ≡ at_zero text.now at) }
{
    let mut plain = text.to_vec(alloc)?;
    plain[at + 1] = b'0';
    Ok(plain)
}

/// The path of a text without `[*]`.
///
/// # Errors
///
/// `BadPath` as [`Path::resolve`] has it; `NoRoom` where its steps are more than there is room for.
fn plain_path(
    alloc: Global,
    schema: &Schema<'_>,
    root: u32,
    text: &[u8],
) -> Result<PlainPath, Outcome>
    requires { IsTrue (is_table schema.now root) }
    ensures { MatchResult result (IsPathFor schema.now root text.now) (HasNoPath schema.now root text.now) }
{
    let path = match Path::resolve(alloc, schema, root, text) {
        Ok(path) => path,
        Err(fault) => return Err(Outcome::BadPath(fault)),
    };
    match PlainPath::of(path.steps()) {
        Some(plain) => Ok(plain),
        None => Err(Outcome::NoRoom),
    }
}

/// The path of a text with its first `[*]` at this place.
///
/// # Errors
///
/// As [`plain_path`] has them for the text with `[0]` there.
fn marked_path(
    alloc: Global,
    schema: &Schema<'_>,
    root: u32,
    text: &[u8],
    at: usize,
) -> Result<PlainPath, Outcome>
    requires table { IsTrue (is_table schema.now root) }
    requires mark { HasMark text.now at }
    ensures { MatchResult result (IsMarkedPath schema.now root text.now at) (HasNoPath schema.now root (at_zero text.now at)) }
{
    let Ok(plain) = at_zero(alloc, text, at) else {
        return Err(Outcome::BadPath(PathFault::OutOfMemory));
    };
    let path = plain_path(alloc, schema, root, &plain)?;
    let before = match Path::resolve(alloc, schema, root, &text[..at]) {
        Ok(before) => before,
        Err(fault) => return Err(Outcome::BadPath(fault)),
    };
    let each = before.steps().len() as u32 + 1;
    Ok(PlainPath { each, ..path })
}

/// The path that a text names from the root table that the options ask.
///
/// # Errors
///
/// `UnknownOptions`; `NoRoot`; then as [`plain_path`] has them.
fn path_of(
    alloc: Global,
    loaded: &Loaded<'static>,
    options: &Options,
    text: &[u8],
) -> Result<PlainPath, Outcome>
    ensures { MatchResult result (IsResolved loaded.now options.now text.now) (IsUnresolved loaded.now options.now text.now) }
{
    if !options.are_known() {
        return Err(Outcome::UnknownOptions);
    }
    let Some(root) = options.root(loaded) else {
        return Err(Outcome::NoRoot);
    };
    match first_mark(text) {
        Some(at) => marked_path(alloc, &loaded.schema, root, text, at),
        None => plain_path(alloc, &loaded.schema, root, text),
    }
}

/// Writes the path that a text names, as [`path_of`] has it; where there is none, nothing is written.
pub fn resolve(
    alloc: Global,
    held: &Held,
    options: &Options,
    text: &[u8],
    path: &mut PlainPath,
) -> Outcome
    ensures { IsPath held.now options.now text.now path.old path.new result }
{
    let Held::Schema(basis) = held else {
        return Outcome::NoRoot;
    };
    match path_of(alloc, basis.loaded(), options, text) {
        Ok(plain) => {
            *path = plain;
            Outcome::Done
        }
        Err(answer) => answer,
    }
}
