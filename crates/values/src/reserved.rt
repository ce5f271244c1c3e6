//! Lists in memory that was taken before.
ghost use Rattle.std.specs.Prelude.{◌≡◌, ◌+◌, ◌<◌, ◌≤◌, [], ◌∷◌, ◌++◌, ◌↔◌, length, slice_get, slice_set, IsTrue, IsSome, IfOk, MatchOption};
ghost use Rattle.std.specs.Option.{option_copied};
ghost use Rattle.values.specs.Reserved.{room_of};

use crate::memory::NoMemory;
use crate::sequence::Sequence;
use std::alloc::Global;
use std::marker::Model;

/// A list that takes as many more items as it has spare room for, with no memory. Contracts see the
/// list and `spare`.
#[derive(Debug, Drop)]
pub struct Reserved<T> {
    items: Vec<T>,
}

impl<T> Model for Reserved<T> {
    ghost use Rattle.std.specs.Prelude.{◌-◌, vec_len, vec_capacity};
    ghost use Rattle.values.specs.Reserved.{Reserve, reserve_code};

    ghost Value = { Reserve T };

    ghost coded = { reserve_code T.code };

    ghost view = { λ r. record { list = r.items.items; spare = vec_capacity r.items - vec_len r.items } };
}

impl<T> Reserved<T> {
    /// The empty list with room for so many items.
    pub fn with_room(alloc: Global, room: usize) -> Result<Reserved<T>, NoMemory>
        ensures list { IfOk result (λ made. made.list ≡ []) }
        ensures spare { IfOk result (λ made. made.spare ≡ room) }
    {
        let items = Vec::with_capacity(alloc, room)?;
        Ok(Reserved { items })
    }

    /// The same items, in the memory that they have.
    pub fn into_sequence(self) -> Sequence<T>
        ensures { result ≡ self.list }
    {
        let Reserved { items } = self;
        Sequence::from_vec(items)
    }

    /// How many items there are.
    pub fn len(&self) -> usize
        ensures { result ≡ length self.now.list }
    {
        self.items.len()
    }

    /// Whether there is no item.
    pub fn is_empty(&self) -> bool
        ensures { IsTrue result ↔ (self.now.list ≡ []) }
    {
        self.items.is_empty()
    }

    /// How many more items it takes.
    pub fn spare(&self) -> usize
        ensures { result ≡ self.now.spare }
    {
        self.items.capacity() - self.items.len()
    }

    /// The item at a place counted from 0, or `None` at or past the end.
    pub fn at(&self, index: usize) -> Option<&T>
        ensures item { option_copied result ≡ slice_get self.now.list index }
        ensures within { IsSome result ↔ (index < length self.now.list) }
    {
        self.items.get(index)
    }

    /// The items, in order.
    pub fn as_slice(&self) -> &[T]
        ensures { result.now ≡ self.now.list }
    {
        self.items.as_slice()
    }

    /// Takes the last item off, if there is one.
    pub fn pop(&mut self) -> Option<T>
        ensures list { MatchOption result
            ((self.old.list ≡ []) × (self.new.list ≡ []))
            (λ item. self.old.list ≡ self.new.list ++ item ∷ []) }
        ensures room { room_of self.new ≡ room_of self.old }
    {
        self.items.pop()
    }

    /// Adds the item at the end.
    pub fn push(&mut self, item: T)
        requires { 0 < self.old.spare }
        ensures list { self.new.list ≡ self.old.list ++ item ∷ [] }
        ensures spare { self.new.spare + 1 ≡ self.old.spare }
    {
        self.items.push_reserved(item);
    }
}

impl<T: Drop> Reserved<T> {
    /// Puts the item at a place, instead of the one that is there.
    pub fn set(&mut self, index: usize, item: T)
        requires { index < length self.old.list }
        ensures list { self.new.list ≡ slice_set self.old.list index item }
        ensures spare { self.new.spare ≡ self.old.spare }
    {
        self.items[index] = item;
    }

    /// Takes all items out.
    pub fn clear(&mut self)
        ensures list { self.new.list ≡ [] }
        ensures room { room_of self.new ≡ room_of self.old }
    {
        self.items.clear();
    }
}

impl<T: Copy> Reserved<T> {
    /// Takes all items out, and puts these in.
    pub fn copy_from(&mut self, from: &[T])
        requires { length from.now ≤ room_of self.old }
        ensures list { self.new.list ≡ from.now }
        ensures room { room_of self.new ≡ room_of self.old }
    {
        self.clear();
        for item in from {
            self.push(*item);
        }
    }
}
