//! The bytes that a verifier looks at, and the ends that they come from and go to.
//!
//! A [`Meter`] counts every number that is read of a buffer. To a walk it lends its bytes as a [`Loan`], which can do
//! no more than lend them on as [`Reads`]: these read, and count in a register. Sealed, a meter is a [`Window`], whose
//! reads are free. [`Source`] and [`Sink`] are readers and writers that tell how often they were called, how often they
//! failed, and whether the input has ended; [`Counted`] makes one of any reader or writer of std. A [`Framer`] finds
//! the messages in a stream of size-prefixed buffers that comes in pieces.
#![tactic(auto)]

pub mod counted;
pub mod cut;
pub mod ends;
pub mod framer;
pub mod loan;
pub mod messages;
pub mod meter;
pub mod reads;
pub mod stream_fault;
pub mod window;

pub use counted::Counted;
pub use cut::{Cut, Endian};
pub use ends::{Sink, Source};
pub use framer::{Framer, Taken};
pub use loan::Loan;
pub use messages::{one_reading, some_reading};
pub use meter::{Meter, TooLong};
pub use reads::Reads;
pub use stream_fault::{LimitOutOfRange, StreamFault};
pub use window::Window;
