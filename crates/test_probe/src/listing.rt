//! What is told of a schema: the listing of all that its look-ups answer, or only that it's there.

ghost use Rattle.std.specs.Prelude.{◌<◌, length};

use fb_bfbs::{Loaded, load, reflection};
use fb_schema::{FieldView, Kind, Schema};
use fb_verify::Limits;
use std::io;

/// A line for each value that has a member.
fn list_members(rt: HostRuntime, schema: &Schema<'_>, number: u32) -> io::Result<()> {
    if !schema.is_union(number) {
        return println!(rt; "no union {number}");
    }
    for value in 0..=u8::MAX {
        if let Some(kind) = schema.member_of(number, value) {
            println!(rt; "member {number} value={value} kind={kind:?}")?;
        }
    }
    Ok(())
}

/// A line for a live field, and then the members where it holds some.
fn list_field(rt: HostRuntime, schema: &Schema<'_>, field: &FieldView<'_>) -> io::Result<()> {
    println!(rt;
        "field {} slot={} name={:?} kind={:?} default={} required={} optional={} size={} align={} companion={:?}",
        field.number,
        field.slot,
        field.name,
        field.kind,
        field.default,
        field.required,
        field.optional,
        field.size,
        field.align,
        field.companion
    )?;
    match field.kind {
        Kind::Union(number) | Kind::Unions(number) => list_members(rt, schema, number),
        _ => Ok(()),
    }
}

/// A line for an object, and the live fields of a table.
fn list_object(rt: HostRuntime, schema: &Schema<'_>, number: u32) -> io::Result<()>
    requires { number < length schema.now.objects }
{
    let object = schema.object(number);
    println!(rt;
        "object {number} name={:?} struct={} minalign={} bytesize={}",
        object.name, object.is_struct, object.minalign, object.bytesize
    )?;
    if schema.is_table(number) {
        for field in schema.fields_of(number) {
            list_field(rt, schema, field)?;
        }
    }
    Ok(())
}

/// Each object of a schema.
fn list_objects(rt: HostRuntime, schema: &Schema<'_>) -> io::Result<()> {
    for number in 0..schema.object_count() {
        list_object(rt, schema, number)?;
    }
    Ok(())
}

/// Tells of what was loaded that it was, or lists it: the root, the identifier, and then each object.
fn list(rt: HostRuntime, loaded: &Loaded<'_>, whole: bool) -> io::Result<()> {
    if !whole {
        return println!(rt; "load: ok");
    }
    println!(rt; "root={:?}\nident={:?}", loaded.root, loaded.ident)?;
    list_objects(rt, &loaded.schema)
}

/// Loads a schema file and tells of it, or why it isn't loaded.
pub fn load_file(rt: HostRuntime, bytes: &[u8], whole: bool) -> io::Result<()> {
    match load(rt.alloc(), bytes, Limits::published()) {
        Ok(loaded) => list(rt, &loaded, whole),
        Err(fault) => println!(rt; "fault {fault}"),
    }
}

/// Tells of the built-in table that it was made, or lists its objects.
fn list_built_in(rt: HostRuntime, schema: &Schema<'_>, whole: bool) -> io::Result<()> {
    if whole {
        list_objects(rt, schema)
    } else {
        println!(rt; "reflection: ok")
    }
}

/// Makes the table of schema files that is built in, and tells of it.
pub fn make_built_in(rt: HostRuntime, whole: bool) -> io::Result<()> {
    match reflection(rt.alloc()) {
        Ok(schema) => list_built_in(rt, &schema, whole),
        Err(_) => println!(rt; "reflection: out of memory"),
    }
}
