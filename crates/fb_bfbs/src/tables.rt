// The ten tables of reflection.fbs in the order of their numbers, each with its fields in the order of theirs. Of what
// is required only that is demanded which a reader of rows needs.

use fb_schema::base_type::{
    BOOL, BYTE, DOUBLE, INT, LONG, NONE, OBJ, STRING, ULONG, USHORT, VECTOR,
};
use fb_schema::{FieldRow, TypeRow};

/// One value of a base type.
macro_rules! one {
    ($base:expr) => {
        TypeRow {
            base: $base,
            element: NONE,
            index: -1,
            fixed_length: 0,
        }
    };
}

/// A vector of values of a base type.
macro_rules! vector {
    ($element:expr) => {
        TypeRow {
            base: VECTOR,
            element: $element,
            index: -1,
            fixed_length: 0,
        }
    };
}

/// The table with this number.
macro_rules! object {
    ($number:expr) => {
        TypeRow {
            index: $number,
            ..one!(OBJ)
        }
    };
}

/// A vector of the tables with this number.
macro_rules! objects {
    ($number:expr) => {
        TypeRow {
            index: $number,
            ..vector!(OBJ)
        }
    };
}

/// The field with this number, which may be absent.
macro_rules! field {
    ($number:expr, $name:expr, $ty:expr) => {
        FieldRow {
            name: $name,
            ty: $ty,
            slot: 4 + 2 * $number,
            default: 0,
            deprecated: false,
            required: false,
            optional: false,
            offset64: false,
        }
    };
}

/// This field, which has to be there.
macro_rules! required {
    ($row:expr) => {
        FieldRow {
            required: true,
            ..$row
        }
    };
}

/// This field, which isn't looked at.
macro_rules! deprecated {
    ($row:expr) => {
        FieldRow {
            deprecated: true,
            ..$row
        }
    };
}

const TYPE: i32 = 0;

const KEY_VALUE: i32 = 1;

const ENUM_VAL: i32 = 2;

const ENUM: i32 = 3;

const FIELD: i32 = 4;

const OBJECT: i32 = 5;

const CALL: i32 = 6;

const SERVICE: i32 = 7;

const FILE: i32 = 8;

/// The type of a field, of a vector's element or of a union's member.
const OF_TYPE: [FieldRow<'static>; 4] = [
    field!(0, b"base_type", one!(BYTE)),
    field!(1, b"element", one!(BYTE)),
    FieldRow {
        default: -1,
        ..field!(2, b"index", one!(INT))
    },
    field!(3, b"fixed_length", one!(USHORT)),
];

/// An attribute.
const OF_KEY_VALUE: [FieldRow<'static>; 2] = [
    field!(0, b"key", one!(STRING)),
    field!(1, b"value", one!(STRING)),
];

/// A value of an enum or a member of a union.
const OF_ENUM_VAL: [FieldRow<'static>; 6] = [
    required!(field!(0, b"name", one!(STRING))),
    field!(1, b"value", one!(LONG)),
    deprecated!(field!(2, b"object", object!(OBJECT))),
    field!(3, b"union_type", object!(TYPE)),
    field!(4, b"documentation", vector!(STRING)),
    field!(5, b"attributes", objects!(KEY_VALUE)),
];

/// An enum or a union.
const OF_ENUM: [FieldRow<'static>; 7] = [
    required!(field!(0, b"name", one!(STRING))),
    required!(field!(1, b"values", objects!(ENUM_VAL))),
    field!(2, b"is_union", one!(BOOL)),
    field!(3, b"underlying_type", object!(TYPE)),
    field!(4, b"attributes", objects!(KEY_VALUE)),
    field!(5, b"documentation", vector!(STRING)),
    field!(6, b"declaration_file", one!(STRING)),
];

/// A field of a table or struct.
const OF_FIELD: [FieldRow<'static>; 14] = [
    required!(field!(0, b"name", one!(STRING))),
    required!(field!(1, b"type", object!(TYPE))),
    field!(2, b"id", one!(USHORT)),
    field!(3, b"offset", one!(USHORT)),
    field!(4, b"default_integer", one!(LONG)),
    field!(5, b"default_real", one!(DOUBLE)),
    field!(6, b"deprecated", one!(BOOL)),
    field!(7, b"required", one!(BOOL)),
    field!(8, b"key", one!(BOOL)),
    field!(9, b"attributes", objects!(KEY_VALUE)),
    field!(10, b"documentation", vector!(STRING)),
    field!(11, b"optional", one!(BOOL)),
    deprecated!(field!(12, b"padding", one!(USHORT))),
    field!(13, b"offset64", one!(BOOL)),
];

/// A table or struct.
const OF_OBJECT: [FieldRow<'static>; 8] = [
    required!(field!(0, b"name", one!(STRING))),
    required!(field!(1, b"fields", objects!(FIELD))),
    field!(2, b"is_struct", one!(BOOL)),
    field!(3, b"minalign", one!(INT)),
    field!(4, b"bytesize", one!(INT)),
    field!(5, b"attributes", objects!(KEY_VALUE)),
    field!(6, b"documentation", vector!(STRING)),
    field!(7, b"declaration_file", one!(STRING)),
];

/// A call of a service.
const OF_CALL: [FieldRow<'static>; 5] = [
    field!(0, b"name", one!(STRING)),
    field!(1, b"request", object!(OBJECT)),
    field!(2, b"response", object!(OBJECT)),
    field!(3, b"attributes", objects!(KEY_VALUE)),
    field!(4, b"documentation", vector!(STRING)),
];

/// A service.
const OF_SERVICE: [FieldRow<'static>; 5] = [
    field!(0, b"name", one!(STRING)),
    field!(1, b"calls", objects!(CALL)),
    field!(2, b"attributes", objects!(KEY_VALUE)),
    field!(3, b"documentation", vector!(STRING)),
    field!(4, b"declaration_file", one!(STRING)),
];

/// A source file of the schema.
const OF_FILE: [FieldRow<'static>; 2] = [
    field!(0, b"filename", one!(STRING)),
    field!(1, b"included_filenames", vector!(STRING)),
];

/// The root of a schema file.
const OF_SCHEMA: [FieldRow<'static>; 8] = [
    required!(field!(0, b"objects", objects!(OBJECT))),
    required!(field!(1, b"enums", objects!(ENUM))),
    field!(2, b"file_ident", one!(STRING)),
    field!(3, b"file_ext", one!(STRING)),
    field!(4, b"root_table", object!(OBJECT)),
    field!(5, b"services", objects!(SERVICE)),
    field!(6, b"advanced_features", one!(ULONG)),
    field!(7, b"fbs_files", objects!(FILE)),
];

/// A table's name, and its fields.
pub type Table = (&'static [u8], &'static [FieldRow<'static>]);

/// The tables.
pub const TABLES: [Table; 10] = [
    (b"reflection.Type", &OF_TYPE),
    (b"reflection.KeyValue", &OF_KEY_VALUE),
    (b"reflection.EnumVal", &OF_ENUM_VAL),
    (b"reflection.Enum", &OF_ENUM),
    (b"reflection.Field", &OF_FIELD),
    (b"reflection.Object", &OF_OBJECT),
    (b"reflection.RPCCall", &OF_CALL),
    (b"reflection.Service", &OF_SERVICE),
    (b"reflection.SchemaFile", &OF_FILE),
    (b"reflection.Schema", &OF_SCHEMA),
];
