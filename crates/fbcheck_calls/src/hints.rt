//! What helps where a path or a root table isn't there, in words, copied into room that a caller gives.

ghost use Rattle.std.specs.Prelude.{◌≡◌, [], IfSome, IsTrue, List};
ghost use Rattle.std.specs.List.{list_all};
ghost use Rattle.fb_schema.specs.Rows.{is_table};
ghost use Rattle.fb_access.specs.{Resolving.Resolves, declared.step.Step.Step};
ghost use Rattle.fbcheck_calls.specs.{Hinted.IsHintTold, Hinted.IsPathFrom, Hinted.LacksPathHint, Hinted.LacksRootHint, Hinted.is_shown, Marked.HasMark, Marked.at_zero};

use crate::held::Held;
use crate::options::Options;
use crate::place::cut_into;
use crate::resolving::first_mark;
use arrayvec::ArrayVec;
use fb_schema::Schema;

/// The most bytes of a hint that are told, before the `..` of a longer one.
const MOST: usize = 1_022;

/// As many, and one by which a longer hint is known.
const FRONT: usize = 1_023;

/// The text of a hint: as many bytes as are told, and `..`.
type HintText = ArrayVec<u8, 1_024>;

/// The text of a path with `[0]` for its `[*]`.
type PlainText = ArrayVec<u8, 1_024>;

/// A byte of a hint as it is written: a name's byte that isn't printable stands as `?`.
fn shown(byte: u8) -> u8
    ensures { IsTrue (is_shown result) }
{
    match byte {
        b' '..=b'~' => byte,
        _ => b'?',
    }
}

/// Adds a byte, up to where a hint is cut.
fn put(text: &mut HintText, byte: u8)
    requires { IsTrue (list_all is_shown text.old.items) }
    ensures { IsTrue (list_all is_shown text.new.items) }
{
    let _ = text.try_push(shown(byte));
}

/// Adds a piece of a hint, up to where a hint is cut.
fn put_piece(text: &mut HintText, piece: &[u8])
    requires { IsTrue (list_all is_shown text.old.items) }
    ensures { IsTrue (list_all is_shown text.new.items) }
{
    for byte in piece {
        if text.len() < FRONT {
            put(text, *byte);
        }
    }
}

/// The text of a hint's pieces: of more than 1,022 bytes the first 1,022 and `..`.
fn text_of(pieces: &[&[u8]]) -> HintText
    ensures { IsTrue (list_all is_shown result.items) }
{
    let mut text = HintText::new();
    for piece in pieces {
        put_piece(&mut text, piece);
    }
    if text.len() > MOST {
        text.truncate(MOST);
        put(&mut text, b'.');
        put(&mut text, b'.');
    }
    text
}

/// Copies as much of a hint's text as there is room for, and tells its whole length; 0 where there is no piece of it.
fn copy_hint(pieces: &[&[u8]], room: &mut [u8]) -> usize
    ensures told { IsHintTold room.old room.new result }
    ensures none { pieces.now ≡ [] → result ≡ 0 }
{
    if pieces.is_empty() {
        return cut_into(b"", room);
    }
    cut_into(text_of(pieces).as_slice(), room)
}

/// A text with `[0]` for the `[*]` at this place, if there is room for it.
fn at_zero(text: &[u8], at: usize) -> Option<PlainText>
    requires { HasMark text.now at }
    ensures { IfSome result (λ plain. plain.items ≡ at_zero text.now at) }
{
    let mut plain = PlainText::new();
    let Ok(()) = plain.try_extend_from_slice(text) else {
        return None;
    };
    plain[at + 1] = b'0';
    Some(plain)
}

/// Copies what helps where a text without `[*]` doesn't fit a table.
fn plain_hint(schema: &Schema<'_>, table: u32, path: &[u8], room: &mut [u8]) -> usize
    requires { IsTrue (is_table schema.now table) }
    ensures told { IsHintTold room.old room.new result }
    ensures none { (steps : List Step) → Resolves schema.now table path.now steps → result ≡ 0 }
{
    copy_hint(fb_access::path_hint(schema, table, path).as_slice(), room)
}

/// The same of any text; nothing of one that has `[*]` and more than 1,024 bytes.
fn hint_at(schema: &Schema<'_>, table: u32, path: &[u8], room: &mut [u8]) -> usize
    requires { IsTrue (is_table schema.now table) }
    ensures told { IsHintTold room.old room.new result }
    ensures none { IsPathFrom schema.now table path.now → result ≡ 0 }
{
    let Some(at) = first_mark(path) else {
        return plain_hint(schema, table, path, room);
    };
    match at_zero(path, at) {
        Some(plain) => plain_hint(schema, table, plain.as_slice(), room),
        None => cut_into(b"", room),
    }
}

/// Copies what helps where a path's text doesn't fit the table of this number, as much of it as there is room for. Its
/// whole length, 0 where the text resolves, or is no path, or there is no such table.
pub fn path_hint(held: &Held, root: u32, path: &[u8], room: &mut [u8]) -> usize
    ensures told { IsHintTold room.old room.new result }
    ensures none { LacksPathHint held.now root path.now result }
{
    let Held::Schema(basis) = held else {
        return cut_into(b"", room);
    };
    let loaded = basis.loaded();
    let options = Options {
        root,
        ..Options::published()
    };
    match options.root(loaded) {
        Some(table) => hint_at(&loaded.schema, table, path, room),
        None => cut_into(b"", room),
    }
}

/// Copies what helps where no table has this name, as much of it as there is room for. Its whole length, 0 where one
/// has.
pub fn root_hint(held: &Held, name: &[u8], room: &mut [u8]) -> usize
    ensures told { IsHintTold room.old room.new result }
    ensures none { LacksRootHint held.now name.now result }
{
    let Held::Schema(basis) = held else {
        return cut_into(b"", room);
    };
    let schema = &basis.loaded().schema;
    match schema.table_named(name) {
        Some(_) => cut_into(b"", room),
        None => copy_hint(fb_access::root_hint(schema).as_slice(), room),
    }
}
