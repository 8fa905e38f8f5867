// What is answered of a buffer.

ghost use Rattle.std.specs.Prelude.{◌≡◌, ◌≤◌, MatchOption, length};
ghost use Rattle.fb_rules.specs.Reasons.{reason_number, reason_text};

/// How many reasons there are.
pub const REASONS: usize = 16;

/// Why a buffer is refused, in the order of the codes. What is asked is said by FlatBuffers Internals; the order in
/// which it is asked, and the position that each fault names, by the project. A walk answers V1 to V13; the others are
/// those of a strict check alone.
#[derive(Clone, Copy, Debug, PartialEq, Eq)]
pub enum Reason {
    /// V1: the prefix isn't the number of the bytes after it.
    WrongPrefix,
    /// V2: what should be read doesn't lie in the buffer.
    OutOfBuffer,
    /// V3: a position isn't a multiple of its alignment.
    Misaligned,
    /// V4: a `uoffset` is 0.
    ZeroOffset,
    /// V5: the identifier isn't the wanted one.
    WrongIdentifier,
    /// V6: as many tables are open as the depth limit allows.
    TooDeep,
    /// V7: as many tables were opened as the table limit allows.
    TooManyTables,
    /// V8: a vtable's size is odd or below 4.
    BadVtable,
    /// V9: a required field is absent.
    MissingRequired,
    /// V10: the byte after a string isn't 0.
    NoTerminator,
    /// V11: a vector of unions has another count than the vector of their types.
    LengthsDiffer,
    /// V12: a field ends past the inline size of its table.
    PastTable,
    /// V13: more reads were counted than the budget allows.
    TooManyReads,
    /// V14: a field holds a flexbuffer, into which nobody looks.
    FlexContent,
    /// V15: a string isn't UTF-8.
    NotUtf8,
    /// V16: a vtable has a slot that isn't 0 and is that of no live field.
    UnknownField,
}

impl Reason {
    /// Its code and its name, as they are printed: `V1 WrongPrefix`. They have at most 20 bytes.
    pub fn text(self) -> &'static str
        ensures name { result.now ≡ reason_text self }
        ensures short { length result.now ≤ 20 }
    {
        match self {
            Reason::WrongPrefix => "V1 WrongPrefix",
            Reason::OutOfBuffer => "V2 OutOfBuffer",
            Reason::Misaligned => "V3 Misaligned",
            Reason::ZeroOffset => "V4 ZeroOffset",
            Reason::WrongIdentifier => "V5 WrongIdentifier",
            Reason::TooDeep => "V6 TooDeep",
            Reason::TooManyTables => "V7 TooManyTables",
            Reason::BadVtable => "V8 BadVtable",
            Reason::MissingRequired => "V9 MissingRequired",
            Reason::NoTerminator => "V10 NoTerminator",
            Reason::LengthsDiffer => "V11 LengthsDiffer",
            Reason::PastTable => "V12 PastTable",
            Reason::TooManyReads => "V13 TooManyReads",
            Reason::FlexContent => "V14 FlexContent",
            Reason::NotUtf8 => "V15 NotUtf8",
            Reason::UnknownField => "V16 UnknownField",
        }
    }

    /// The reason of this number, if one has it.
    pub fn of(number: u32) -> Option<Self>
        ensures { MatchOption result ((r : Reason) → reason_number r ≡ number → ⊥) (λ r. reason_number r ≡ number) }
    {
        match number {
            1 => Some(Reason::WrongPrefix),
            2 => Some(Reason::OutOfBuffer),
            3 => Some(Reason::Misaligned),
            4 => Some(Reason::ZeroOffset),
            5 => Some(Reason::WrongIdentifier),
            6 => Some(Reason::TooDeep),
            7 => Some(Reason::TooManyTables),
            8 => Some(Reason::BadVtable),
            9 => Some(Reason::MissingRequired),
            10 => Some(Reason::NoTerminator),
            11 => Some(Reason::LengthsDiffer),
            12 => Some(Reason::PastTable),
            13 => Some(Reason::TooManyReads),
            14 => Some(Reason::FlexContent),
            15 => Some(Reason::NotUtf8),
            16 => Some(Reason::UnknownField),
            _ => None,
        }
    }
}

/// The first place where a buffer is wrong, and why.
#[derive(Clone, Copy, Debug, PartialEq, Eq)]
pub struct Fault {
    /// The position of what is wrong, in bytes from the buffer's first.
    pub at: u64,
    /// The number of the innermost opened table's object, the root's where none was opened.
    pub object: u32,
    /// The number of its field under check, none while its head is checked.
    pub field: Option<u16>,
    /// The counted reads up to the test that failed.
    pub reads: u128,
    pub reason: Reason,
}

/// What was counted in a buffer that is well formed.
#[derive(Clone, Copy, Debug, PartialEq, Eq)]
pub struct Report {
    /// The visits of tables.
    pub tables: u32,
    /// The greatest number of tables open at once.
    pub depth: u32,
    /// The counted reads.
    pub reads: u128,
}
