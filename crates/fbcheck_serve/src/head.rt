//! The head of a table, which is written above all that is told of messages.

ghost use Rattle.std.specs.Prelude.{IfErr, IfOk, ◌≡◌};
ghost use Rattle.fb_schema.specs.Rows.{Rows};
ghost use Rattle.fb_run.specs.{Ends.writer_of, Job.job_of};
ghost use Rattle.fbcheck_texts.specs.declared.fault.AskFault.TheVariants.{OutOfMemory};
ghost use Rattle.fbcheck_serve.specs.{Heads.IsHeadPut, Heads.head_of, Heads.with_head};

use crate::inputs::are_named;
use crate::names::Name;
use fb_bytes::Sink;
use fb_run::{Options, RunFault, push_all, put_head};
use fbcheck_texts::fault::AskFault;
use fbcheck_texts::hint::Unasked;
use std::alloc::Global;

/// What these options have written above all else, over the files of these names: the head of a table, where they ask
/// for rows.
pub fn head_of(alloc: Global, options: &Options, names: &[Name]) -> Result<Vec<u8>, Unasked>
    ensures head { IfOk result (λ head. (rows : Rows) → head.items ≡ head_of (job_of rows options.now) names.now) }
    ensures none { IfErr result (λ unasked. unasked.fault ≡ OutOfMemory) }
{
    let mut head = Vec::new(alloc);
    match put_head(&mut head, options, are_named(options, names)) {
        Ok(()) => Ok(head),
        Err(_) => Err(Unasked::plain(AskFault::OutOfMemory)),
    }
}

/// Writes it.
pub fn write_head<K: Sink>(writer: &mut K, head: &[u8]) -> Result<(), RunFault>
    ensures { IsHeadPut head.now (writer_of K.Sink writer.old) (writer_of K.Sink writer.new) result }
{
    let written = push_all(writer, head);
    if written < head.len() {
        return Err(RunFault::WriteFault {
            written: written as u128,
        });
    }
    Ok(())
}

/// How a run ended, where the bytes that were written are counted with those of its head.
pub fn with_head(bytes: usize, end: Result<(), RunFault>) -> Result<(), RunFault>
    ensures { result ≡ with_head bytes end }
{
    match end {
        Err(RunFault::WriteFault { written }) => Err(RunFault::WriteFault {
            written: written.saturating_add(bytes as u128),
        }),
        _ => end,
    }
}
