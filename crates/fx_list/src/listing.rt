// A list that grows within a room taken ahead: the contacts and the rows of a step.
ghost use Rattle.std.specs.Prelude.{◌≡◌, ◌+◌, ◌<◌, ◌≤◌, ◌++◌, ◌∷◌, [], ℕ, List, length, slice_index_or, IfOk};
ghost use Rattle.fx_list.specs.Held.{Held};

use std::alloc::{AllocError, Global};
use std::marker::Model;

/// A list of at most a number of items, whose memory was taken when it was made. Contracts see the
/// list and that number.
#[derive(Debug, Drop)]
pub struct Listing<T> {
    items: Vec<T>,
    most: usize,
}

impl<T> Model for Listing<T> {
    ghost use Rattle.std.specs.Prelude.{◌≤◌, vec_len, vec_capacity};
    ghost use Rattle.fx_list.specs.Held.{Held};

    ghost Value = { Held T };

    ghost view = { λ s. record { list = s.items.items; most = s.most } };

    ghost invariant = { λ s. (s.most ≤ vec_capacity s.items) × (vec_len s.items ≤ s.most) };
}

impl<T> Listing<T> {
    /// An empty list with room for `most` items.
    pub fn new(alloc: Global, most: usize) -> Result<Listing<T>, AllocError>
        ensures { IfOk result (λ s. s ≡ record { list = []; most = most }) }
    {
        let items = Vec::with_capacity(alloc, most)?;
        Ok(Listing { items, most })
    }

    /// The items, as a slice: at most `most`.
    pub fn as_slice(&self) -> &[T]
        ensures items { result.now ≡ self.now.list }
        ensures most { length self.now.list ≤ self.now.most }
    {
        self.items.as_slice()
    }

    /// How many items there are: at most `most`.
    pub fn len(&self) -> usize
        ensures count { result ≡ length self.now.list }
        ensures most { result ≤ self.now.most }
    {
        self.items.len()
    }

    /// How many items there may be.
    pub fn most(&self) -> usize
        ensures { result ≡ self.now.most }
    {
        self.most
    }

    /// The item at a place, from 0.
    pub fn entry(&self, i: usize) -> &T
        requires { i < length self.now.list }
        ensures { (d : T) → slice_index_or self.now.list i d ≡ result.now }
    {
        &self.items[i]
    }
}

impl<T: Drop> Listing<T> {
    /// Takes all items out. The room stays.
    pub fn clear(&mut self)
        ensures { self.new ≡ record { list = []; most = self.old.most } }
    {
        self.items.clear();
    }

    /// Adds an item at the end. Takes no memory.
    pub fn push(&mut self, x: T)
        requires { length self.old.list < self.old.most }
        ensures { self.new ≡ record { list = self.old.list ++ x ∷ []; most = self.old.most } }
    {
        let _ = self.items.push(x);
    }
}

impl<T: Copy> Listing<T> {
    /// Adds items at the end. Takes no memory.
    pub fn append(&mut self, xs: &[T])
        requires { length self.old.list + length xs.now ≤ self.old.most }
        ensures { self.new ≡ record { list = self.old.list ++ xs.now; most = self.old.most } }
    {
        let _ = self.items.extend_from_slice(xs);
    }
}
