//! A message that stands whole in a piece.

ghost use Rattle.std.specs.Prelude.{IfNone, IfSome, ◌≡◌, ◌<◌, ◌≤◌, ◌⊎◌, length, take};
ghost use Rattle.fb_bytes.specs.Messages.{IsMessage, IsOversize, IsPartial};

use fb_bytes::Cut;

/// The message at the front of these bytes, where it is whole and within the limit.
pub fn front_message(bytes: &[u8], cut: Cut) -> Option<&[u8]>
    ensures whole { IfSome result (λ message. IsMessage cut message.now) }
    ensures front { IfSome result (λ message. message.now ≡ take (length message.now) bytes.now) }
    ensures some { IfSome result (λ message. 0 < length message.now) }
    ensures within { IfSome result (λ message. length message.now ≤ length bytes.now) }
    ensures none { IfNone result (IsPartial cut bytes.now ⊎ IsOversize cut bytes.now) }
{
    let prefix = bytes.first_chunk::<4>()?;
    let len = u64::from(cut.order.number_in(*prefix)) + 4;
    if len > u64::from(cut.limit) || len > bytes.len() as u64 {
        return None;
    }
    Some(&bytes[..len as usize])
}
