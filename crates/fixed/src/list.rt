// A list whose memory is taken when it is made.
ghost use Rattle.std.specs.Prelude.{◌≡◌, ◌-◌, ◌<◌, ◌≤◌, [], ◌∷◌, ◌++◌, length, take, IfOk, MatchOption, MatchResult, ◌==◌, nat_lt, slice_set};
ghost use Rattle.std.specs.List.{remove, slice_get};
ghost use Rattle.fixed.specs.Listed.{last};
ghost use Rattle.fixed.specs.Room.{fits, extended, granted, Extends, inside, Reads};

use crate::refusal::{Full, Outside};
use std::alloc::{AllocError, Global};
use std::marker::Model;

// A list of at most N elements. It never allocates after it is made.
#[derive(Drop)]
pub struct FixedList<T, const N: usize> {
    items: Vec<T>,
}

impl<T, const N: usize> Model for FixedList<T, N> {
    ghost use Rattle.std.specs.Prelude.{◌≤◌, List, vec_len, vec_capacity};

    ghost Value = { List T };

    ghost view = { λ l. l.items.items };

    ghost invariant = { λ l. (vec_len l.items ≤ N) × (N ≤ vec_capacity l.items) };
}

impl<T, const N: usize> FixedList<T, N> {
    // An empty list, whose room is taken here.
    pub fn new(heap: Global) -> Result<Self, AllocError>
        ensures { IfOk result (λ l. l ≡ []) }
    {
        let items = Vec::with_capacity(heap, N)?;
        Ok(FixedList { items })
    }

    pub fn len(&self) -> usize
        ensures value { result ≡ length self.now }
        ensures few { result ≤ N }
    {
        self.items.len()
    }

    pub fn is_empty(&self) -> bool
        ensures { result ≡ (length self.now == 0) }
    {
        self.items.is_empty()
    }

    pub fn is_full(&self) -> bool
        ensures { result ≡ (length self.now == N) }
    {
        self.items.len() == N
    }

    pub fn as_slice(&self) -> &[T]
        ensures value { result.now ≡ self.now }
        ensures few { length result.now ≤ N }
    {
        self.items.as_slice()
    }

    // Adds x at the end.
    pub fn push(&mut self, x: T) -> Result<(), Full>
    where
        T: Drop,
        ensures answer { result ≡ granted (fits N self.old (x ∷ [])) }
        ensures list { self.new ≡ extended N self.old (x ∷ []) }
        ensures cases { Extends N self.old (x ∷ []) result self.new }
    {
        if self.items.len() >= N {
            return Err(Full);
        }
        self.items.push_reserved(x);
        Ok(())
    }

    // Replaces the element at i.
    pub fn set(&mut self, i: usize, x: T) -> Result<(), Outside>
    where
        T: Drop,
        ensures answer { result ≡ inside (nat_lt i (length self.old)) }
        ensures list { self.new ≡ slice_set self.old i x }
        ensures cases { MatchResult result (λ _. i < length self.old) (λ _. length self.old ≤ i) }
    {
        let place = self.items.get_mut(i).ok_or(Outside)?;
        *place = x;
        Ok(())
    }

    // Takes the last element.
    pub fn pop(&mut self) -> Option<T>
        ensures answer { result ≡ last self.old }
        ensures list { self.new ≡ take (length self.old - 1) self.old }
        ensures cases { MatchOption result (length self.old ≡ 0) (λ x. self.old ≡ self.new ++ x ∷ []) }
    {
        self.items.pop()
    }

    // Takes the element at i; those behind move up by one.
    pub fn remove(&mut self, i: usize) -> Option<T>
        ensures answer { result ≡ slice_get self.old i }
        ensures list { self.new ≡ remove self.old i }
        ensures cases { Reads self.old i result }
    {
        if i >= self.items.len() {
            return None;
        }
        Some(self.items.remove(i))
    }

    // Keeps the first n elements.
    pub fn truncate(&mut self, n: usize)
    where
        T: Drop,
        ensures { self.new ≡ take n self.old }
    {
        self.items.truncate(n);
    }

    pub fn clear(&mut self)
    where
        T: Drop,
        ensures { self.new ≡ [] }
    {
        self.items.clear();
    }
}

impl<T: Copy, const N: usize> FixedList<T, N> {
    pub fn get(&self, i: usize) -> Option<T>
        ensures value { result ≡ slice_get self.now i }
        ensures cases { Reads self.now i result }
    {
        self.items.get(i).copied()
    }

    pub fn last(&self) -> Option<T>
        ensures value { result ≡ last self.now }
        ensures cases { Reads self.now (length self.now - 1) result }
    {
        self.items.last().copied()
    }

    // Adds all of `more` at the end, or nothing.
    pub fn extend_from_slice(&mut self, more: &[T]) -> Result<(), Full>
        ensures answer { result ≡ granted (fits N self.old more.now) }
        ensures list { self.new ≡ extended N self.old more.now }
        ensures cases { Extends N self.old more.now result self.new }
    {
        if more.len() > N - self.items.len() {
            return Err(Full);
        }
        // The room was taken when the list was made, so this finds it.
        self.items.extend_from_slice(more).map_err(|_| Full)
    }
}
