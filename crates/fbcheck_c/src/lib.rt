//! The verifier for C: a schema that any number of threads share, and the calls that check buffers by it, each exported
//! by its name. What they do stands in `fbcheck_calls`.
//!
//! `include/fbcheck.h` has the prototypes that a caller sees. `c/fbcheck.c` stands between: it tests each pointer
//! against null, and then calls these, whose names end in `_proved`.
#![tactic(auto)]

ghost use Rattle.std.specs.Prelude.{◌≡◌, ℕ, List, None, Option};
ghost use Rattle.fbcheck_calls.specs.{Answered.IfSchema, Answered.IsChecked, Answered.IsPriceTold, Answered.IsRoomMade, Answered.IsTaken, Answered.levels, Again.IsReadAgainBy};
ghost use Rattle.fbcheck_calls.specs.{Each.IsReadOfEachBy, Asked.published, Placed.IsLocatedBy, Reached.IsPath, Reached.IsReadBy, Spans.AreTold, Spans.IsEachAnswered, Told.told};
ghost use Rattle.fbcheck_calls.specs.{Hinted.IsHintTold, Hinted.LacksPathHint, Hinted.LacksRootHint, Framers.IsFedTold, Framers.IsFinished, Framers.IsKept, Framers.IsNext};
ghost use Rattle.fbcheck_calls.specs.Names.{IsFaultName, IsNameTold, IsReasonName, held_name, object_name, status_text, table_number};
ghost use Rattle.fbcheck_calls.specs.declared.outcome.Outcome.{Outcome};
ghost use Rattle.fb_access.specs.Location.{field_name};

use fb_bytes::Taken;
use fbcheck_calls::{
    Framer, Handle, Options, PlainPath, Shared, Span, Status, Value, Verdict, all_good, check,
    check_alone, check_each, fault_told, field_told, locate, object_told, path_hint, price, read,
    read_again, read_each, reason_told, resolve, root_hint, status_told, table_of, try_options,
};
use std::alloc::Global;

/// How many bytes the structs take that cross to C.
#[repr(C)]
#[derive(Clone, Copy)]
pub struct Sizes {
    pub options: usize,
    pub verdict: usize,
    pub span: usize,
    pub framer: usize,
    pub path: usize,
    pub value: usize,
}

const OPTIONS_SIZE: usize = size_of::<Options>();

const VERDICT_SIZE: usize = size_of::<Verdict>();

const SPAN_SIZE: usize = size_of::<Span>();

const FRAMER_SIZE: usize = size_of::<Framer>();

const PATH_SIZE: usize = size_of::<PlainPath>();

const VALUE_SIZE: usize = size_of::<Value>();

/// Tells the sizes of the structs.
#[unsafe(no_mangle)]
pub extern "C" fn fbcheck_sizes_proved(sizes: &mut Sizes)
    ensures { sizes.new ≡ record { options = 64; verdict = 64; span = 16; framer = 16; path = 256; value = 40 } }
{
    *sizes = Sizes {
        options: OPTIONS_SIZE,
        verdict: VERDICT_SIZE,
        span: SPAN_SIZE,
        framer: FRAMER_SIZE,
        path: PATH_SIZE,
        value: VALUE_SIZE,
    };
}

/// Makes the options the published ones.
#[unsafe(no_mangle)]
pub extern "C" fn fbcheck_options_proved(options: &mut Options)
    ensures { options.new ≡ published }
{
    *options = Options::published();
}

/// Loads a schema file (`.bfbs`) into a handle, within the limits of the options. What the handle holds keeps the
/// file's bytes borrowed.
///
/// Where it was done, what the handle held is freed; else it holds what it held.
#[unsafe(no_mangle)]
pub extern "C" fn fbcheck_load_proved(
    alloc: Global,
    handle: &mut Handle,
    file: &'static [u8],
    options: &Options,
    verdict: &mut Verdict,
) -> u32
    ensures told { (a : Outcome) × (verdict.new ≡ told a) × IsTaken file.now options.now handle.old.inside handle.new.inside a }
    ensures status { result ≡ verdict.new.status }
{
    let why = handle.load(alloc, file, options).told();
    *verdict = why;
    why.status
}

/// Makes room for so many open tables in a handle.
///
/// Where it was done, what the handle held is freed; else it holds what it held.
#[unsafe(no_mangle)]
pub extern "C" fn fbcheck_room_proved(alloc: Global, handle: &mut Handle, depth: u32) -> u32
    ensures { (a : Outcome) × (result ≡ (told a).status) × IsRoomMade depth handle.old.inside handle.new.inside a }
{
    handle.make_room(alloc, depth).told().status
}

/// Frees what a handle holds. It holds nothing then.
#[unsafe(no_mangle)]
pub extern "C" fn fbcheck_free_proved(alloc: Global, handle: &mut Handle)
    ensures { handle.new.inside ≡ None }
{
    handle.free(alloc);
}

/// The number of a table by its name, with its namespace; 2^32 - 2 where there is none.
#[unsafe(no_mangle)]
pub extern "C" fn fbcheck_table_proved(schema: Shared, name: &[u8]) -> u32
    ensures { result ≡ table_number schema.held name.now }
{
    table_of(schema.held(), name)
}

/// Checks one buffer by a schema, in the room of a handle, or on the call's own stack where it holds none.
#[unsafe(no_mangle)]
pub extern "C" fn fbcheck_verify_proved(
    alloc: Global,
    schema: Shared,
    room: &mut Handle,
    options: &Options,
    buffer: &[u8],
    verdict: &mut Verdict,
) -> u32
    ensures told { (a : Outcome) × (verdict.new ≡ told a) × IfSchema schema.held a (λ s. IsChecked s (levels room.old.inside) options.now buffer.now a) }
    ensures status { result ≡ verdict.new.status }
    ensures kept { room.new.inside ≡ room.old.inside }
{
    check(alloc, schema.held(), room, options, buffer, verdict)
}

/// Checks one buffer by a schema, on the call's own stack.
#[unsafe(no_mangle)]
pub extern "C" fn fbcheck_verify_alone_proved(
    schema: Shared,
    verdict: &mut Verdict,
    options: &Options,
    buffer: &[u8],
) -> u32
    ensures told { (a : Outcome) × (verdict.new ≡ told a) × IfSchema schema.held a (λ s. IsChecked s 64 options.now buffer.now a) }
    ensures status { result ≡ verdict.new.status }
{
    check_alone(schema.held(), verdict, options, buffer)
}

/// Checks the buffers that spans name in a block of bytes, each as [`fbcheck_verify_proved`] does, and tells each
/// verdict at the place of its span. 0 where all are good, else 1; without spans why none could be checked, if so.
#[unsafe(no_mangle)]
pub extern "C" fn fbcheck_verify_each_proved(
    alloc: Global,
    schema: Shared,
    room: &mut Handle,
    options: &Options,
    block: &[u8],
    spans: &[Span],
    verdicts: &mut [Verdict],
) -> u32
    ensures told { AreTold schema.held (levels room.old.inside) options.now block.now spans.now verdicts.new }
    ensures good { IsEachAnswered schema.held (levels room.old.inside) options.now spans.now verdicts.new result }
    ensures kept { room.new.inside ≡ room.old.inside }
{
    let held = schema.held();
    check_each(alloc, held, room, options, block, spans, verdicts);
    if spans.is_empty() {
        return try_options(alloc, held, room, options);
    }
    all_good(verdicts, spans.len())
}

/// Checks one buffer as [`fbcheck_verify_proved`] does, and writes where the fault of a bad one is, in words: as much
/// as there is room for. Tells how long the whole is.
#[unsafe(no_mangle)]
pub extern "C" fn fbcheck_locate_proved(
    alloc: Global,
    schema: Shared,
    room: &mut Handle,
    options: &Options,
    buffer: &[u8],
    text: &mut [u8],
    written: &mut usize,
    verdict: &mut Verdict,
) -> u32
    ensures told { (a : Outcome) × (verdict.new ≡ told a) × IsLocatedBy schema.held (levels room.old.inside) options.now buffer.now text.old text.new written.new a }
    ensures status { result ≡ verdict.new.status }
    ensures kept { room.new.inside ≡ room.old.inside }
{
    locate(
        alloc,
        schema.held(),
        room,
        verdict,
        options,
        buffer,
        text,
        written,
    )
}

/// Writes the path that a text names from the root table.
#[unsafe(no_mangle)]
pub extern "C" fn fbcheck_resolve_proved(
    alloc: Global,
    schema: Shared,
    options: &Options,
    text: &[u8],
    path: &mut PlainPath,
    verdict: &mut Verdict,
) -> u32
    ensures told { (a : Outcome) × (verdict.new ≡ told a) × IsPath schema.held options.now text.now path.old path.new a }
    ensures status { result ≡ verdict.new.status }
{
    let resolved = resolve(alloc, schema.held(), options, text, path).told();
    *verdict = resolved;
    resolved.status
}

/// Checks one buffer, and tells of a good one the values at the ends of these paths from the root table, each at the
/// place of its path.
#[unsafe(no_mangle)]
pub extern "C" fn fbcheck_read_proved(
    alloc: Global,
    schema: Shared,
    room: &mut Handle,
    options: &Options,
    buffer: &[u8],
    paths: &[PlainPath],
    values: &mut [Value],
    verdict: &mut Verdict,
) -> u32
    ensures told { (a : Outcome) × (verdict.new ≡ told a) × IsReadBy schema.held (levels room.old.inside) options.now buffer.now paths.now values.old values.new a }
    ensures status { result ≡ verdict.new.status }
    ensures kept { room.new.inside ≡ room.old.inside }
{
    read(
        alloc,
        schema.held(),
        room,
        verdict,
        options,
        buffer,
        paths,
        values,
    )
}

/// Tells the values at the ends of these paths from the root table, each at the place of its path, in a buffer that was
/// good before, without a check.
#[unsafe(no_mangle)]
pub extern "C" fn fbcheck_read_again_proved(
    schema: Shared,
    options: &Options,
    buffer: &[u8],
    paths: &[PlainPath],
    values: &mut [Value],
    verdict: &mut Verdict,
) -> u32
    ensures told { (a : Outcome) × (verdict.new ≡ told a) × IsReadAgainBy schema.held options.now buffer.now paths.now values.old values.new a }
    ensures status { result ≡ verdict.new.status }
{
    let answered = read_again(schema.held(), options, buffer, paths, values).told();
    *verdict = answered;
    answered.status
}

/// Tells the values of the elements to which a path leads, from this one on, as many as there is room for, and how many
/// there are, in a buffer that was good before, without a check.
#[unsafe(no_mangle)]
pub extern "C" fn fbcheck_read_each_proved(
    schema: Shared,
    options: &Options,
    buffer: &[u8],
    path: &PlainPath,
    first: usize,
    values: &mut [Value],
    elements: &mut usize,
    verdict: &mut Verdict,
) -> u32
    ensures told { (a : Outcome) × (verdict.new ≡ told a) × IsReadOfEachBy schema.held options.now buffer.now path.now first values.old values.new elements.old elements.new a }
    ensures status { result ≡ verdict.new.status }
{
    let answered = read_each(
        schema.held(),
        options,
        buffer,
        path,
        first,
        values,
        elements,
    )
    .told();
    *verdict = answered;
    answered.status
}

/// Tells how many reads a check of so many bytes makes at most.
#[unsafe(no_mangle)]
pub extern "C" fn fbcheck_most_reads_proved(
    schema: Shared,
    options: &Options,
    length: u64,
    reads: &mut u64,
) -> u32
    ensures { IsPriceTold schema.held options.now length reads.old reads.new result }
{
    match price(schema.held(), options, length) {
        Ok(most) => {
            *reads = most;
            Status::Done.number()
        }
        Err(answer) => answer.told().status,
    }
}

/// Copies the code and name of a reason by its number.
#[unsafe(no_mangle)]
pub extern "C" fn fbcheck_reason_name_proved(number: u32, room: &mut [u8]) -> usize
    ensures { (name : Option (List ℕ)) × IsReasonName number name × IsNameTold name room.old room.new result }
{
    reason_told(number, room)
}

/// Copies the code and name of a fault by the status with which it is told and its number.
#[unsafe(no_mangle)]
pub extern "C" fn fbcheck_fault_name_proved(status: u32, number: u32, room: &mut [u8]) -> usize
    ensures { (name : Option (List ℕ)) × IsFaultName status number name × IsNameTold name room.old room.new result }
{
    fault_told(status, number, room)
}

/// Copies what a status says in words.
#[unsafe(no_mangle)]
pub extern "C" fn fbcheck_status_text_proved(status: u32, room: &mut [u8]) -> usize
    ensures { IsNameTold (status_text status) room.old room.new result }
{
    status_told(status, room)
}

/// Copies the name of an object by its number.
#[unsafe(no_mangle)]
pub extern "C" fn fbcheck_object_name_proved(schema: Shared, object: u32, room: &mut [u8]) -> usize
    ensures { IsNameTold (held_name schema.held (λ rows. object_name rows object)) room.old room.new result }
{
    object_told(schema.held(), object, room)
}

/// Copies the name of a live field by its number and that of its table.
#[unsafe(no_mangle)]
pub extern "C" fn fbcheck_field_name_proved(
    schema: Shared,
    object: u32,
    number: u32,
    room: &mut [u8],
) -> usize
    ensures { IsNameTold (held_name schema.held (λ rows. field_name rows object number)) room.old room.new result }
{
    field_told(schema.held(), object, number, room)
}

/// Copies what helps where a path's text doesn't fit the table of this number, as much of it as there is room for, and
/// tells how long the whole is: 0 where there is nothing to tell.
#[unsafe(no_mangle)]
pub extern "C" fn fbcheck_path_hint_proved(
    schema: Shared,
    root: u32,
    path: &[u8],
    room: &mut [u8],
) -> usize
    ensures told { IsHintTold room.old room.new result }
    ensures none { LacksPathHint schema.held root path.now result }
{
    path_hint(schema.held(), root, path, room)
}

/// Copies what helps where no table has this name, as much of it as there is room for, and tells how long the whole is:
/// 0 where one has.
#[unsafe(no_mangle)]
pub extern "C" fn fbcheck_root_hint_proved(schema: Shared, name: &[u8], room: &mut [u8]) -> usize
    ensures told { IsHintTold room.old room.new result }
    ensures none { LacksRootHint schema.held name.now result }
{
    root_hint(schema.held(), name, room)
}

/// Feeds a framer a piece of its stream, as [`Framer::feed`] does, and tells how many bytes it took. 0 where a whole
/// message is held then, 13 where it goes on.
#[unsafe(no_mangle)]
pub extern "C" fn fbcheck_framer_feed_proved(
    framer: &mut Framer,
    room: &mut [u8],
    piece: &[u8],
    used: &mut usize,
) -> u32
    ensures told { IsFedTold room.old framer.old piece.now room.new framer.new used.old used.new result }
    ensures kept { IsKept room.old framer.old → IsKept room.new framer.new }
{
    match framer.feed(room, piece) {
        Ok(Taken { used: count, whole }) => {
            *used = count;
            let status = if whole { Status::Done } else { Status::More };
            status.number()
        }
        Err(answer) => answer.told().status,
    }
}

/// Gives up the whole message that a framer holds, as [`Framer::next`] does.
#[unsafe(no_mangle)]
pub extern "C" fn fbcheck_framer_next_proved(framer: &mut Framer, room: &[u8]) -> u32
    ensures told { (a : Outcome) × (result ≡ (told a).status) × IsNext room.now framer.old framer.new a }
    ensures number { framer.new.declared ≡ framer.old.declared }
    ensures kept { IsKept room.now framer.old → IsKept room.now framer.new }
{
    framer.next(room).told().status
}

/// Tells a framer that its stream has ended, as [`Framer::finish`] does.
#[unsafe(no_mangle)]
pub extern "C" fn fbcheck_framer_finish_proved(framer: &mut Framer, room: &[u8]) -> u32
    ensures told { (a : Outcome) × (result ≡ (told a).status) × IsFinished room.now framer.old framer.new a }
    ensures number { framer.new.declared ≡ framer.old.declared }
    ensures kept { IsKept room.now framer.old → IsKept room.now framer.new }
{
    framer.finish(room).told().status
}
