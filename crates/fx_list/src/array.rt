// The one list type of every model, state and carrier.
ghost use Rattle.std.specs.Prelude.{◌≡◌, ◌≢◌, ◌<◌, ℕ, List, length, slice_index_or, slice_set, replicate, nat_eq, IfOk};

use std::alloc::{AllocError, Global};
use std::marker::Model;

/// A list of `T`. Contracts see the list of its items. Its length changes only where a list is made.
#[derive(Debug, Drop)]
pub struct Array<T> {
    items: Vec<T>,
}

impl<T> Model for Array<T> {
    ghost use Rattle.std.specs.Prelude.{List};

    ghost Value = { List T };

    ghost view = { λ a. a.items.items };
}

impl<T> Array<T> {
    /// The list of these items. Takes no memory.
    pub fn from_vec(items: Vec<T>) -> Array<T>
        ensures { result ≡ items.items }
    {
        Array { items }
    }

    /// The items, as a vector. Takes no memory.
    pub fn into_vec(self) -> Vec<T>
        ensures { result.items ≡ self }
    {
        self.items
    }

    /// The items, as a slice.
    pub fn as_slice(&self) -> &[T]
        ensures { result.now ≡ self.now }
    {
        self.items.as_slice()
    }

    /// How many items there are.
    pub fn len(&self) -> usize
        ensures { result ≡ length self.now }
    {
        self.items.len()
    }

    /// Whether there is no item.
    pub fn is_empty(&self) -> bool
        ensures { result ≡ nat_eq (length self.now) 0 }
    {
        self.items.is_empty()
    }

    /// The item at a place, from 0.
    pub fn entry(&self, i: usize) -> &T
        requires { i < length self.now }
        ensures { (d : T) → slice_index_or self.now i d ≡ result.now }
    {
        &self.items[i]
    }
}

impl<T: Copy> Array<T> {
    /// A list of `n` times `x`.
    pub fn filled(alloc: Global, n: usize, x: T) -> Result<Array<T>, AllocError>
        ensures { IfOk result (λ a. a ≡ replicate n x) }
    {
        let mut items = Vec::with_capacity(alloc, n)?;
        for i in 0..n {
            items.push(x)?;
        }
        Ok(Array { items })
    }

    /// The item at a place, from 0, as a copy.
    pub fn at(&self, i: usize) -> T
        requires { i < length self.now }
        ensures { (d : T) → slice_index_or self.now i d ≡ result }
    {
        self.items[i]
    }

    /// Writes `x` at a place, from 0.
    pub fn put(&mut self, i: usize, x: T)
        requires { i < length self.old }
        ensures len { length self.new ≡ length self.old }
        ensures same { (d : T) → slice_index_or self.new i d ≡ x }
        ensures others { (d : T) (j : ℕ) → j ≢ i
            → slice_index_or self.new j d ≡ slice_index_or self.old j d }
        ensures whole { self.new ≡ slice_set self.old i x }
    {
        self.items[i] = x;
    }
}
