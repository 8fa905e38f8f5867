// Lists in one vector.

ghost use Rattle.std.specs.Prelude.{length};
ghost use Rattle.fb_schema.specs.Flat.{AreWithin};

use std::alloc::{AllocError, Allocator};

/// Lists, one after another in one vector, with a range for each.
#[derive(Drop)]
pub struct Lists<T: Copy, A: Allocator> {
    ranges: Vec<(usize, usize), A>,
    rows: Vec<T, A>,
    ghost within: { AreWithin rows.items ranges.items },
}

impl<T: Copy, A: Allocator + Copy> Lists<T, A> {
    ghost use Rattle.std.specs.Prelude.{◌≡◌, ◌<◌, [], ◌∷◌, ◌++◌, slice_get, Some, OnOk, IsOkAnd};
    ghost use Rattle.fb_schema.specs.FlatLists.{lists_of};

    /// No lists.
    pub fn new(alloc: A) -> Lists<T, A>
        ensures { lists_of result ≡ [] }
    {
        Lists {
            ranges: Vec::new(alloc),
            rows: Vec::new(alloc),
        }
    }

    /// Makes room for so many lists, and for so many items in all.
    pub fn reserve(&mut self, lists: usize, items: usize) -> Result<(), AllocError>
        ensures { OnOk result (lists_of self.new ≡ lists_of self.old) }
    {
        self.ranges.reserve_exact(lists)?;
        self.rows.reserve_exact(items)
    }

    /// The list at `n`.
    pub fn get(&self, n: usize) -> &[T]
        requires { n < length (lists_of self.now) }
        ensures { slice_get (lists_of self.now) n ≡ Some result.now }
    {
        let (start, end) = self.ranges[n];
        &self.rows[start..end]
    }

    /// Adds a list at the end.
    pub fn push(&mut self, list: &[T]) -> Result<(), AllocError>
        ensures { OnOk result (lists_of self.new ≡ lists_of self.old ++ list.now ∷ []) }
    {
        let start = self.rows.len();
        self.rows.extend_from_slice(list)?;
        self.ranges.push((start, self.rows.len()))?;
        Ok(())
    }

    /// The same of a list that was just made, if there was memory for it.
    pub fn push_made(&mut self, made: Result<Vec<T, A>, AllocError>) -> Result<(), AllocError>
        ensures { OnOk result (IsOkAnd made (λ list. lists_of self.new ≡ lists_of self.old ++ list.items ∷ [])) }
    {
        let list = made?;
        self.push(&list)
    }
}
