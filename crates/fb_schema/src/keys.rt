// The keys of a list's items in order, of which no two items may share one: names, slots and values.

ghost use Rattle.std.specs.Prelude.{◌≡◌, ◌<◌, ◌^◌, length, map, IfOk};
ghost use Rattle.fb_schema.specs.Sorting.{IsOrderOf, IsFirstAgain, object_name, field_name, field_slot, member_value, member_key};
ghost use Rattle.fb_schema.specs.{Index.view_name};

use crate::flat::ObjectPart;
use crate::rows::{FieldRow, MemberRow};
use crate::sorting::first_again;
use crate::views::FieldView;
use std::alloc::{AllocError, Allocator};

/// An item with a key of this type, of which no two in a list may be alike.
pub trait Keyed<K> {
    ghost key_of: { Self → K };

    /// The key.
    fn key(&self) -> K
        ensures { result ≡ key_of self.now };
}

impl<'n> Keyed<&'n [u8]> for ObjectPart<'n> {
    ghost key_of = { object_name };

    fn key(&self) -> &'n [u8] {
        self.name
    }
}

impl<'n> Keyed<&'n [u8]> for FieldRow<'n> {
    ghost key_of = { field_name };

    fn key(&self) -> &'n [u8] {
        self.name
    }
}

impl<'n> Keyed<u16> for FieldRow<'n> {
    ghost key_of = { field_slot };

    fn key(&self) -> u16 {
        self.slot
    }
}

impl<'n> Keyed<&'n [u8]> for FieldView<'n> {
    ghost key_of = { view_name };

    fn key(&self) -> &'n [u8] {
        self.name
    }
}

impl<'n> Keyed<i64> for MemberRow<'n> {
    ghost key_of = { member_value };

    fn key(&self) -> i64 {
        self.value
    }
}

impl<'n> Keyed<(bool, &'n [u8])> for MemberRow<'n> {
    ghost key_of = { member_key };

    fn key(&self) -> (bool, &'n [u8]) {
        (self.value == 0, self.name)
    }
}

/// The keys of items, in order, each with its item's place.
pub fn in_order<T: Keyed<K>, K: Ord + Copy, A: Allocator>(
    alloc: A,
    items: &[T],
) -> Result<Vec<(K, u32), A>, AllocError>
    requires { length items.now < 2 ^ 31 }
    ensures { IfOk result (λ order. IsOrderOf K.cmp (map T.key_of items.now) order.items) }
{
    let mut order = Vec::new(alloc);
    for (n, item) in items.iter().enumerate() {
        order.push((item.key(), n as u32))?;
    }
    order.sort_unstable();
    Ok(order)
}

/// The first place with a key like one before it, of items of which no two may share a key.
pub fn again_of<T: Keyed<K>, K: Ord + Copy, A: Allocator>(
    alloc: A,
    items: &[T],
) -> Result<Option<u32>, AllocError>
    requires { length items.now < 2 ^ 31 }
    ensures { IfOk result (λ again. IsFirstAgain K.cmp (map T.key_of items.now) again) }
{
    let order = in_order(alloc, items)?;
    Ok(first_again(&order))
}
