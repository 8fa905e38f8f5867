// Texts, and whether they are UTF-8.

ghost use Rattle.std.specs.Prelude.{◌≡◌, ◌+◌, ◌^◌, ◌<◌, ◌≤◌, length, true, false, IfSome, Some, None};
ghost use Rattle.std.specs.{Str.is_utf8, Str.Lossy.utf8_valid_len};
ghost use Rattle.fb_bytes.specs.Word.{word};
ghost use Rattle.fb_strict.specs.Strict.{text_at};

use fb_bytes::Reads;
use simdutf8::compat::from_utf8;

/// Reads the text at a position: its length, and each of its bytes, which aren't looked at yet.
#[inline(always)]
pub fn read_text<'b>(reads: &mut Reads<'b>, at: u64) -> &'b [u8]
    requires few { reads.old.count < reads.old.base + 2 ^ 60 }
    requires count { at + 4 ≤ length reads.old.bytes }
    requires within { at + 4 + word reads.old.bytes at 4 ≤ length reads.old.bytes }
    requires short { length reads.old.bytes < 2 ^ 31 }
    ensures text { result.now ≡ text_at reads.old.bytes at }
    ensures size { length result.now ≡ word reads.old.bytes at 4 }
    ensures counted { reads.new ≡ record reads.old { count = reads.old.count + (1 + word reads.old.bytes at 4) } }
{
    let size = u64::from(reads.u32_at(at));
    reads.bytes_at(at + 4, size)
}

/// How many bytes of a text are UTF-8, up to the first that can't go on: none where all are.
#[inline(always)]
pub fn wrong_from(text: &[u8]) -> Option<u64>
    requires short { length text.now < 2 ^ 31 }
    ensures whole { result ≡ None → is_utf8 text.now ≡ true }
    ensures wrong { IfSome result (λ front. is_utf8 text.now ≡ false) }
    ensures front { IfSome result (λ front. front ≡ utf8_valid_len text.now) }
    ensures within { IfSome result (λ front. front ≤ length text.now) }
{
    match from_utf8(text) {
        Ok(_) => None,
        Err(error) => Some(error.valid_up_to() as u64),
    }
}
