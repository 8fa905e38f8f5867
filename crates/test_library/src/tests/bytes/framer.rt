//! Framers, asked as only a caller in Rattle may. What takes memory, and which limits there are, is asked from outside
//! (`tests/test_refused_memory.py`, `tests/test_ends.py`).

use crate::tests::compare::same;
use fb_bytes::{Cut, Endian, Framer, StreamFault, Taken};
use std::alloc::Global;

/// The longest message within the limit, and two of them.
const ONE: &[u8] = b"\x04\0\0\0abcd";

const TWO: &[u8] = b"\x04\0\0\0abcd\x04\0\0\0abcd";

/// What is asked of a framer, with what it answers.
#[derive(Clone, Copy)]
enum Call {
    /// A piece, of which so many bytes are used, up to a message's end or not.
    Feed(&'static [u8], usize, bool),
    /// A piece that is refused.
    Refuse(&'static [u8], StreamFault),
    Message(Option<&'static [u8]>),
    Next,
    Held(u64),
    Finish(Result<(), StreamFault>),
}

/// What is shown, and what a framer with a limit of 8 bytes is asked for it, one after another.
static CALLS: [(&str, &[Call]); 6] = [
    (
        "it holds one message at a time",
        &[
            Call::Feed(TWO, 8, true),
            Call::Feed(ONE, 0, true),
            Call::Message(Some(ONE)),
            Call::Next,
            Call::Held(0),
            Call::Feed(ONE, 8, true),
            Call::Next,
            Call::Finish(Ok(())),
        ],
    ),
    (
        "an empty piece changes nothing",
        &[Call::Feed(&[], 0, false), Call::Finish(Ok(()))],
    ),
    (
        "an end in mid prefix is truncated",
        &[
            Call::Feed(&[0, 0], 2, false),
            Call::Message(None),
            Call::Finish(Err(StreamFault::Truncated { held: 2 })),
            Call::Refuse(&[0, 0], StreamFault::Failed),
            Call::Finish(Err(StreamFault::Failed)),
            Call::Next,
            Call::Held(2),
        ],
    ),
    (
        "an end in mid message is truncated",
        &[
            Call::Feed(TWO, 8, true),
            Call::Next,
            Call::Feed(b"\x04\0\0\0abc", 7, false),
            Call::Message(None),
            Call::Finish(Err(StreamFault::Truncated { held: 7 })),
            Call::Refuse(&[0], StreamFault::Failed),
            Call::Finish(Err(StreamFault::Failed)),
            Call::Held(7),
        ],
    ),
    (
        "a prefix past the limit is oversize",
        &[
            Call::Feed(&[5, 0, 0], 3, false),
            Call::Refuse(&[0, 1, 2], StreamFault::Oversize { declared: 5 }),
            Call::Held(4),
            Call::Message(None),
            Call::Refuse(&[0], StreamFault::Failed),
            Call::Finish(Err(StreamFault::Failed)),
        ],
    ),
    (
        "a prefix of zero is a message of four bytes",
        &[
            Call::Feed(&[0, 0, 0, 0, 1], 4, true),
            Call::Message(Some(&[0, 0, 0, 0])),
        ],
    ),
];

/// What is shown, and what one for big-endian lengths with the same limit is asked for it.
static BIG_ENDIAN: [(&str, &[Call]); 2] = [
    (
        "it reads a big-endian length",
        &[
            Call::Feed(&[0, 0, 0], 3, false),
            Call::Feed(b"\x04abcd\0", 5, true),
            Call::Message(Some(b"\0\0\0\x04abcd")),
            Call::Next,
            Call::Finish(Ok(())),
        ],
    ),
    (
        "a big-endian length past the limit is oversize",
        &[
            Call::Refuse(
                &[4, 0, 0, 0],
                StreamFault::Oversize {
                    declared: 67_108_864,
                },
            ),
            Call::Held(4),
        ],
    ),
];

/// Whether the framer answers this call so.
fn answers(framer: &mut Framer<Global>, call: Call) -> bool {
    match call {
        Call::Feed(piece, used, whole) => framer.feed(piece) == Ok(Taken { used, whole }),
        Call::Refuse(piece, fault) => framer.feed(piece) == Err(fault),
        Call::Message(want) => framer.message() == want,
        Call::Next => {
            framer.next();
            true
        }
        Call::Held(want) => framer.held() == want,
        Call::Finish(want) => framer.finish() == want,
    }
}

#[test]
fn a_framer_answers_each_call(rt: HostRuntime) {
    for (shows, calls) in &CALLS {
        let mut framer = Framer::new(rt.alloc(), 8).unwrap();
        for call in *calls {
            same(&rt, (*shows, answers(&mut framer, *call)), (*shows, true));
        }
    }
}

#[test]
fn a_framer_of_big_endian_lengths_answers_each_call(rt: HostRuntime) {
    let cut = Cut {
        limit: 8,
        order: Endian::Big,
    };
    for (shows, calls) in &BIG_ENDIAN {
        let mut framer = Framer::of(rt.alloc(), cut).unwrap();
        for call in *calls {
            same(&rt, (*shows, answers(&mut framer, *call)), (*shows, true));
        }
    }
}
