//! A row.

ghost use Rattle.std.specs.Prelude.{◌≤◌};

use std::alloc::AllocError;

/// There is no room for what was to come behind the others.
#[derive(Clone, Copy, PartialEq, Eq, Debug)]
pub struct Full;

/// A list of at most `N` elements, in an array.
// Without a model of its own, so that a `Copy` struct that holds a row can be copied.
pub struct Row<T, const N: usize> {
    slots: [T; N],
    len: usize,
    ghost few: { len ≤ N },
}

impl<T: Clone, const N: usize> Clone for Row<T, N> {
    ghost use Rattle.std.specs.Prelude.{◌≡◌, ℕ, ◌<◌, slice_index_or};
    ghost use Rattle.std.specs.Array.{AllZipBelow};
    ghost use Rattle.std.specs.Array.Iter.{IntoIterFitsInMemory};

    ghost is_clone = { λ r s. AllZipBelow T.is_clone r.slots s.slots N × (s.len ≡ r.len) };

    ghost is_infallible = { λ r. IntoIterFitsInMemory T.row N.row × ((i : ℕ) (d : T) → i < N → T.is_infallible (slice_index_or r.slots i d)) };

    fn clone(&self) -> Result<Self, AllocError> {
        let slots = self.slots.clone()?;
        Ok(Row {
            slots,
            len: self.len,
        })
    }
}

impl<T: Copy, const N: usize> Copy for Row<T, N> {}

impl<T: Copy, const N: usize> Row<T, N> {
    ghost use Rattle.std.specs.Prelude.{◌≡◌, ◌+◌, ◌<◌, ◌≤◌, ◌↔◌, [], ◌∷◌, ◌++◌, length, IsOk, OnOk, OnErr};
    ghost use Rattle.rows.specs.Rows.{items};

    /// An empty row, whose array is filled with `blank`.
    #[tactic(auto, unfolding(crate::specs::Rows::items))]
    pub fn new(blank: T) -> Self
        ensures { items result ≡ [] }
    {
        Row {
            slots: [blank; N],
            len: 0,
        }
    }

    /// The elements.
    #[tactic(auto, unfolding(crate::specs::Rows::items))]
    pub fn as_slice(&self) -> &[T]
        ensures value { result.now ≡ items self.now }
        ensures few { length result.now ≤ N }
    {
        &self.slots[..self.len]
    }

    /// Puts an element behind the others. A full row is as it was.
    #[tactic(auto, unfolding(crate::specs::Rows::items))]
    pub fn push(&mut self, item: T) -> Result<(), Full>
        ensures variant { IsOk result ↔ (length (items self.old) < N) }
        ensures ok { OnOk result (items self.new ≡ items self.old ++ (item ∷ [])) }
        ensures err { OnErr result (self.new ≡ self.old) }
    {
        if self.len == N {
            return Err(Full);
        }
        self.slots[self.len] = item;
        self.len += 1;
        Ok(())
    }

    /// Puts elements behind the others. A row without room for all of them is as it was.
    #[tactic(auto, unfolding(crate::specs::Rows::items))]
    pub fn extend_from_slice(&mut self, more: &[T]) -> Result<(), Full>
        ensures variant { IsOk result ↔ (length (items self.old) + length more.now ≤ N) }
        ensures ok { OnOk result (items self.new ≡ items self.old ++ more.now) }
        ensures err { OnErr result (self.new ≡ self.old) }
    {
        if more.len() > N - self.len {
            return Err(Full);
        }
        let end = self.len + more.len();
        let slots = &mut self.slots[..];
        slots[self.len..end].copy_from_slice(more);
        self.len = end;
        Ok(())
    }
}
