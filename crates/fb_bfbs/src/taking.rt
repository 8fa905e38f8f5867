// What rows take of a number of rows, or of bytes of names.

ghost use Rattle.std.specs.Prelude.{◌≡◌, ◌+◌, ◌-◌, ◌≤◌, ◌↔◌, ℕ, IsTrue, SomeIff, length, sum_by};
ghost use Rattle.fb_schema.specs.Rows.{object_of, enum_of};
ghost use Rattle.fb_bfbs.specs.Sums.{object_names, enum_names};

use fb_schema::{EnumRow, FieldRow, MemberRow, ObjectRow};

/// What takes a part of a number.
pub trait Takes {
    ghost takes: { Self → ℕ };

    /// What it leaves of the number, none where that isn't enough.
    fn leaves(&self, left: u64) -> Option<u64>
        ensures { SomeIff result (takes self.now ≤ left) (left - takes self.now) };
}

/// What all of these leave of a number, none where that isn't enough.
pub fn all_leave<T: Takes>(items: &[T], left: u64) -> Option<u64>
    ensures { SomeIff result (sum_by T.takes items.now ≤ left) (left - sum_by T.takes items.now) }
{
    let mut rest = left;
    for item in items {
        rest = item.leaves(rest)?;
    }
    Some(rest)
}

/// Whether the number is enough for two lists.
pub fn is_enough_for<S: Takes, T: Takes>(most: u64, first: &[S], second: &[T]) -> bool
    ensures { IsTrue result ↔ (sum_by S.takes first.now + sum_by T.takes second.now ≤ most) }
{
    match all_leave(first, most) {
        Some(rest) => all_leave(second, rest).is_some(),
        None => false,
    }
}

/// A field takes the bytes of its name.
impl<'n> Takes for FieldRow<'n> {
    ghost takes = { λ f. length f.name.now };

    fn leaves(&self, left: u64) -> Option<u64> {
        left.checked_sub(self.name.len() as u64)
    }
}

/// A member takes the bytes of its name.
impl<'n> Takes for MemberRow<'n> {
    ghost takes = { λ m. length m.name.now };

    fn leaves(&self, left: u64) -> Option<u64> {
        left.checked_sub(self.name.len() as u64)
    }
}

/// An object takes the bytes of its name and of its fields' names.
impl<'n> Takes for ObjectRow<'n> {
    ghost takes = { λ o. object_names (object_of o) };

    fn leaves(&self, left: u64) -> Option<u64> {
        let rest = left.checked_sub(self.name.len() as u64)?;
        all_leave(self.fields.as_slice(), rest)
    }
}

/// An enum takes the bytes of its name and of its members' names.
impl<'n> Takes for EnumRow<'n> {
    ghost takes = { λ e. enum_names (enum_of e) };

    fn leaves(&self, left: u64) -> Option<u64> {
        let rest = left.checked_sub(self.name.len() as u64)?;
        all_leave(self.members.as_slice(), rest)
    }
}
