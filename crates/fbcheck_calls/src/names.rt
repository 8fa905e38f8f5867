//! Names by their numbers, copied into room that a caller gives.

ghost use Rattle.std.specs.Prelude.{◌≡◌, ℕ, List, MatchOption, Option, length, option_map};
ghost use Rattle.fb_access.specs.{Location.field_name, PathCodes.path_code, declared.path_fault.PathFault.PathFault};
ghost use Rattle.fb_schema.specs.declared.fault.Code.{Code};
ghost use Rattle.fbcheck_calls.specs.Told.{code_number};
ghost use Rattle.fbcheck_calls.specs.Names.{IsCodeName, IsFaultName, IsNameTold, IsPathName, IsReasonName, filled, held_name, object_name, status_text, table_number};

use crate::fits::live_field;
use crate::held::Held;
use crate::options::NO_TABLE;
use fb_access::{PathFault, object_name};
use fb_bfbs::code_text;
use fb_schema::{Code, Schema};
use fb_verify::Reason;

/// The name of the live field with this number, of the table with that one.
fn field_name<'n>(schema: &Schema<'n>, object: u32, number: u32) -> Option<&'n [u8]>
    ensures { option_map (λ s. s.now) result ≡ field_name schema.now object number }
{
    Some(live_field(schema, object, number)?.name)
}

/// Copies a text where there is room for all of it, and tells its length whether or not there is.
pub fn copied(text: &[u8], room: &mut [u8]) -> usize
    ensures length { result ≡ length text.now }
    ensures room { room.new ≡ filled text.now room.old }
{
    let n = text.len();
    if n <= room.len() {
        room[..n].copy_from_slice(text);
    }
    n
}

/// Copies a name, if there is one. Its length, 0 for none.
pub fn told(name: Option<&[u8]>, room: &mut [u8]) -> usize
    ensures { IsNameTold (option_map (λ s. s.now) name.entry) room.old room.new result }
{
    match name {
        Some(name) => copied(name, room),
        None => 0,
    }
}

/// Copies the code and name of the reason with this number, if there is one. Their length, 0 for none.
pub fn reason_told(number: u32, room: &mut [u8]) -> usize
    ensures { (name : Option (List ℕ)) × IsReasonName number name × IsNameTold name room.old room.new result }
{
    match Reason::of(number) {
        Some(reason) => copied(reason.text().as_bytes(), room),
        None => 0,
    }
}

/// What is wrong with rows, by its number.
fn code_of(number: u32) -> Option<Code>
    ensures { MatchOption result ((c : Code) → code_number c ≡ number → ⊥) (λ c. code_number c ≡ number) }
{
    match number {
        1 => Some(Code::NoSuchObject),
        2 => Some(Code::NoSuchEnum),
        3 => Some(Code::Unsupported),
        4 => Some(Code::BadSlot),
        5 => Some(Code::NoTypeField),
        6 => Some(Code::BadStruct),
        7 => Some(Code::BadMember),
        8 => Some(Code::NameTwice),
        9 => Some(Code::OutOfMemory),
        _ => None,
    }
}

/// Why a text is no path, by its number; at its beginning.
fn path_fault_of(number: u32) -> Option<PathFault>
    ensures { MatchOption result ((f : PathFault) → (path_code f).0 ≡ number → ⊥) (λ f. (path_code f).0 ≡ number) }
{
    match number {
        1 => Some(PathFault::BadText { at: 0 }),
        2 => Some(PathFault::NoSuchField { step: 0 }),
        3 => Some(PathFault::NotIndexable { step: 0 }),
        4 => Some(PathFault::NotAUnion { step: 0 }),
        5 => Some(PathFault::NoSuchMember { step: 0 }),
        6 => Some(PathFault::NotATable { step: 0 }),
        7 => Some(PathFault::OutOfMemory),
        _ => None,
    }
}

/// Copies the code and name of what is wrong with rows, by its number. Their length, 0 where nothing has it.
fn code_told(number: u32, room: &mut [u8]) -> usize
    ensures { (name : Option (List ℕ)) × IsCodeName number name × IsNameTold name room.old room.new result }
{
    match code_of(number) {
        Some(code) => copied(code_text(code).as_bytes(), room),
        None => 0,
    }
}

/// Copies the code and name of why a text is no path, by its number. Their length, 0 where nothing has it.
fn path_told(number: u32, room: &mut [u8]) -> usize
    ensures { (name : Option (List ℕ)) × IsPathName number name × IsNameTold name room.old room.new result }
{
    match path_fault_of(number) {
        Some(fault) => copied(fault.text().as_bytes(), room),
        None => 0,
    }
}

/// Copies the code and name of a fault, by the status with which it is told and its number. Their length, 0 where there
/// is none.
pub fn fault_told(status: u32, number: u32, room: &mut [u8]) -> usize
    ensures { (name : Option (List ℕ)) × IsFaultName status number name × IsNameTold name room.old room.new result }
{
    match status {
        1 | 8 => reason_told(number, room),
        9 => code_told(number, room),
        17 => path_told(number, room),
        _ => 0,
    }
}

/// What a status says in words.
fn status_text(status: u32) -> Option<&'static str>
    ensures { option_map (λ s. s.now) result ≡ status_text status }
{
    match status {
        0 => Some("good"),
        1 => Some("bad"),
        2 => Some("a pointer is null"),
        3 => Some("the options are of another version"),
        4 => Some("a depth or a room is out of range"),
        5 => Some("the schema's identifier isn't four bytes"),
        6 => Some("no root table"),
        7 => Some("2^31 bytes or more"),
        8 => Some("not well formed"),
        9 => Some("no schema"),
        10 => Some("its root table isn't listed"),
        11 => Some("out of memory"),
        12 => Some("the span isn't in the block"),
        13 => Some("the message goes on"),
        14 => Some("a message is too long for the room"),
        15 => Some("the stream ends inside a message"),
        16 => Some("the stream has failed before"),
        17 => Some("no path"),
        18 => Some("too many steps"),
        19 => Some("a path is none of this schema's from this root"),
        20 => Some("its rows or names are more than its length pays for"),
        21 => Some("the schema was made with other demands"),
        22 => Some("strict can't tell which bytes are nested buffers or flexbuffers"),
        23 => Some("strict can't find the table of a nested buffer"),
        24 => Some("the bytes aren't those of a good buffer"),
        _ => None,
    }
}

/// Copies what a status says in words. Its length, 0 for a number that is no status.
pub fn status_told(status: u32, room: &mut [u8]) -> usize
    ensures { IsNameTold (status_text status) room.old room.new result }
{
    match status_text(status) {
        Some(text) => copied(text.as_bytes(), room),
        None => 0,
    }
}

/// Copies the name of the object with this number. Its length, 0 where there is none.
pub fn object_told(held: &Held, object: u32, room: &mut [u8]) -> usize
    ensures { IsNameTold (held_name held.now (λ rows. object_name rows object)) room.old room.new result }
{
    match held {
        Held::Schema(basis) => told(object_name(&basis.loaded().schema, object), room),
        Held::Room(_) => 0,
    }
}

/// Copies the name of the live field with this number, of the table with that one. Its length, 0 where there is none.
pub fn field_told(held: &Held, object: u32, number: u32, room: &mut [u8]) -> usize
    ensures { IsNameTold (held_name held.now (λ rows. field_name rows object number)) room.old room.new result }
{
    match held {
        Held::Schema(basis) => told(field_name(&basis.loaded().schema, object, number), room),
        Held::Room(_) => 0,
    }
}

/// The number of the table with this name, and that of none where there is none.
pub fn table_of(held: &Held, name: &[u8]) -> u32
    ensures { result ≡ table_number held.now name.now }
{
    match held {
        Held::Schema(basis) => {
            let schema = &basis.loaded().schema;
            schema.table_named(name).unwrap_or(NO_TABLE)
        }
        Held::Room(_) => NO_TABLE,
    }
}
