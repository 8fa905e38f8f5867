//! Faults and hints as lines of JSON.

ghost use Rattle.std.specs.Prelude.{IfOk, IfSome, OnOk, ◌≡◌, ◌++◌, codes, decimal, option_map};
ghost use Rattle.fbcheck_texts.specs.FaultJson.{fault_object, head_part, hint_object, hint_part, hint_text, is_join, past_join, past_space};
ghost use Rattle.fb_run.specs.declared.options.LineForm.TheVariants.{Json};

use fb_run::{Line, LineForm, put_text};
use std::alloc::{AllocError, Global};

/// The line of a fault, where lines are JSON: an object with the name of the file, where it is of one, the fault's text,
/// what its hint says, where there is one, and the exit status that the fault leads to. None also for want of memory.
pub fn fault_object(
    alloc: Global,
    form: LineForm,
    file: Option<&[u8]>,
    fault: &[u8],
    behind: &[u8],
    status: u8,
) -> Option<Vec<u8>>
    ensures { IfSome result (λ line. (form ≡ Json) × (line.items ≡ fault_object (option_map (λ f. f.now) file.entry) fault.now behind.now status)) }
{
    match form {
        LineForm::Json => match told_fault(alloc, file, fault, behind, status) {
            Ok(line) => Some(line),
            Err(_) => None,
        },
        _ => None,
    }
}

/// The same of a hint behind a good end: an object with the name of the file, where it is of one, and what the hint
/// says.
pub fn hint_object(
    alloc: Global,
    form: LineForm,
    file: Option<&[u8]>,
    hint: &[u8],
) -> Option<Vec<u8>>
    ensures { IfSome result (λ line. (form ≡ Json) × (line.items ≡ hint_object (option_map (λ f. f.now) file.entry) hint.now)) }
{
    match form {
        LineForm::Json => match told_hint(alloc, file, hint) {
            Ok(line) => Some(line),
            Err(_) => None,
        },
        _ => None,
    }
}

/// The object of a fault.
fn told_fault(
    alloc: Global,
    file: Option<&[u8]>,
    fault: &[u8],
    behind: &[u8],
    status: u8,
) -> Result<Vec<u8>, AllocError>
    ensures { IfOk result (λ line. line.items ≡ fault_object (option_map (λ f. f.now) file.entry) fault.now behind.now status) }
{
    let mut line = Vec::new(alloc);
    put_head(&mut line, file)?;
    line.extend_from_slice(b"\"fault\":")?;
    put_text(&mut line, fault)?;
    put_hint(&mut line, hint_text(behind))?;
    put_status(&mut line, status)?;
    Ok(line)
}

/// That of a hint.
fn told_hint(alloc: Global, file: Option<&[u8]>, hint: &[u8]) -> Result<Vec<u8>, AllocError>
    ensures { IfOk result (λ line. line.items ≡ hint_object (option_map (λ f. f.now) file.entry) hint.now) }
{
    let mut line = Vec::new(alloc);
    put_head(&mut line, file)?;
    line.extend_from_slice(b"\"hint\":")?;
    put_text(&mut line, hint_text(hint))?;
    line.extend_from_slice(b"}\n")?;
    Ok(line)
}

/// Adds what an object begins with: the name of the file, where it is of one.
fn put_head(line: &mut Vec<u8>, file: Option<&[u8]>) -> Result<(), AllocError>
    ensures { OnOk result (line.new.items ≡ line.old.items ++ head_part (option_map (λ f. f.now) file.entry)) }
{
    match file {
        Some(name) => {
            line.extend_from_slice(b"{\"file\":")?;
            put_text(line, name)?;
            line.extend_from_slice(b",")
        }
        None => line.extend_from_slice(b"{"),
    }
}

/// Adds what a hint says, where there is one.
fn put_hint(line: &mut Vec<u8>, hint: &[u8]) -> Result<(), AllocError>
    ensures { OnOk result (line.new.items ≡ line.old.items ++ hint_part hint.now) }
{
    if hint.is_empty() {
        return Ok(());
    }
    line.extend_from_slice(b",\"hint\":")?;
    put_text(line, hint)
}

/// Adds the exit status, and ends the line.
fn put_status(line: &mut Vec<u8>, status: u8) -> Result<(), AllocError>
    ensures { OnOk result (line.new.items ≡ line.old.items ++ (codes ",\"status\":" ++ (decimal status ++ codes "}\n"))) }
{
    let mut end = Line::of("}\n");
    end.put_number(u64::from(status));
    end.put_text(",\"status\":");
    line.extend_from_slice(end.bytes())
}

/// What a hint says: without its newline, and without what joins it to the text before it.
fn hint_text(hint: &[u8]) -> &[u8]
    ensures { result.now ≡ hint_text hint.now }
{
    let end = hint.len().saturating_sub(1);
    past_space(past_join(&hint[..end]))
}

/// A text without a comma, a colon or a semicolon at its front.
fn past_join(text: &[u8]) -> &[u8]
    ensures { result.now ≡ past_join text.now }
{
    if text.is_empty() {
        return text;
    }
    if is_join(text[0]) { &text[1..] } else { text }
}

/// Whether this is one of these.
fn is_join(byte: u8) -> bool
    ensures { result ≡ is_join byte }
{
    byte == b',' || byte == b':' || byte == b';'
}

/// A text without a space at its front.
fn past_space(text: &[u8]) -> &[u8]
    ensures { result.now ≡ past_space text.now }
{
    if text.is_empty() {
        return text;
    }
    if text[0] == b' ' { &text[1..] } else { text }
}
