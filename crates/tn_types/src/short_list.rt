//! A few items that lie in the value itself.
ghost use Rattle.std.specs.Prelude.{◌≡◌, ◌<◌, ◌≤◌, [], ◌∷◌, ◌++◌, length, IsTrue, ◌↔◌};

use arrayvec::ArrayVec;
use std::marker::Model;

/// At most `N` items, which contracts see as their list. They lie in the value itself, so no call takes memory.
#[derive(Drop)]
pub struct ShortList<T, const N: usize> {
    items: ArrayVec<T, N>,
}

impl<T, const N: usize> Model for ShortList<T, N> {
    ghost use Rattle.std.specs.Prelude.{List, ◌≤◌, length};

    ghost Value = { List T };

    ghost view = { λ l. l.items.items };

    ghost invariant = { λ l. length l.items.items ≤ N };
}

impl<T: Default, const N: usize> ShortList<T, N> {
    /// No item.
    pub fn new() -> Self
        ensures { result ≡ [] }
    {
        ShortList {
            items: ArrayVec::new(),
        }
    }
}

impl<T: Default, const N: usize> Default for ShortList<T, N> {
    /// No item.
    fn default() -> Self
        ensures { result ≡ [] }
    {
        ShortList::new()
    }
}

impl<T: Default + Drop, const N: usize> ShortList<T, N> {
    /// Takes all items away.
    pub fn clear(&mut self)
        ensures { self.new ≡ [] }
    {
        self.items.clear();
    }
}

impl<T: Drop, const N: usize> ShortList<T, N> {
    /// Appends an item; there must be room for it.
    pub fn push(&mut self, item: T)
        requires { length self.old < N }
        ensures { self.new ≡ self.old ++ item ∷ [] }
    {
        self.items.push(item);
    }

    /// Whether there is no room left.
    pub fn is_full(&self) -> bool
        ensures { IsTrue result ↔ (N ≤ length self.now) }
    {
        self.items.is_full()
    }

    /// The items, lent.
    pub fn as_slice(&self) -> &[T]
        ensures value { result.now ≡ self.now }
        ensures fits { length result.now ≤ N }
    {
        self.items.as_slice()
    }
}

impl<T: Copy + Default, const N: usize> ShortList<T, N> {
    /// These items, which are at most `N`.
    pub fn from_slice(items: &[T]) -> Self
        requires { length items.now ≤ N }
        ensures { result ≡ items.now }
    {
        let mut all = ArrayVec::new();
        // they fit, so this is Ok
        let _ = all.try_extend_from_slice(items);
        ShortList { items: all }
    }

    /// The same items again.
    pub fn copy(&self) -> Self
        ensures { result ≡ self.now }
    {
        ShortList::from_slice(self.items.as_slice())
    }
}
