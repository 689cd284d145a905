//! Items apart by the places of their keys.

ghost use Rattle.std.specs.Prelude.{◌≡◌, ℕ, ◌<◌, ◌≤◌, List, [], ◌∷◌, ◌++◌, length, slice_set, IfOk, OnOk, OnErr};
ghost use Rattle.ssq_route.specs.Place.{place_of};
ghost use Rattle.ssq_route.specs.Buckets.{bucket_at, buckets_of, items_at};

use crate::hash::place;
use std::alloc::{AllocError, Global};
use std::marker::Model;
use std::mem;

/// A bucket of items for each partition. Contracts see the list of the buckets.
#[derive(Drop)]
pub struct Buckets<T> {
    buckets: Vec<Vec<T>>,
    partitions: u32,
}

impl<T> Model for Buckets<T> {
    ghost use Rattle.std.specs.Prelude.{◌≡◌, ◌≤◌, List, length, map};
    ghost use Rattle.std.specs.Global.{Vec};

    ghost Value = { List (List T) };

    ghost view = { λ b. map (λ bucket. bucket.items) b.buckets.items };

    ghost invariant = { λ b. (1 ≤ b.partitions) × (length b.buckets.items ≡ b.partitions) };
}

impl<T: Drop> Buckets<T> {
    /// A bucket for each partition, all empty.
    #[tactic(auto, unfolding(crate::specs::Buckets::buckets_of))]
    pub fn new(alloc: Global, partitions: u32) -> Result<Buckets<T>, AllocError>
        requires { 1 ≤ partitions }
        ensures empty { IfOk result (λ made. made ≡ buckets_of partitions []) }
        ensures len { IfOk result (λ made. length made ≡ partitions) }
    {
        let mut buckets = Vec::with_capacity(alloc, partitions as usize)?;
        for _ in 0..partitions {
            buckets.push(Vec::new(alloc))?;
        }
        Ok(Buckets {
            buckets,
            partitions,
        })
    }

    /// The number of buckets.
    pub fn partitions(&self) -> u32
        ensures partitions { result ≡ length self.now }
        ensures some { 1 ≤ result }
    {
        self.partitions
    }

    /// Puts the item into the bucket of its key, after those that are there. After an `Err` the item is gone and
    /// the buckets are as they were.
    pub fn add(&mut self, key: &[u8], item: T) -> Result<(), AllocError>
        ensures added { OnOk result (
            let at = place_of key.now (length self.old) in
            self.new ≡ slice_set self.old at (bucket_at self.old at ++ item ∷ [])) }
        ensures all { OnOk result ((added : List (List ℕ × T)) →
            self.old ≡ buckets_of (length self.old) added →
            self.new ≡ buckets_of (length self.old) (added ++ (key.now, item) ∷ [])) }
        ensures err { OnErr result (self.new ≡ self.old) }
        ensures len { length self.new ≡ length self.old }
    {
        let at = place(key, self.partitions) as usize;
        self.buckets[at].push(item)?;
        Ok(())
    }

    /// The items of one partition, in the order in which they were added.
    pub fn bucket(&self, at: u32) -> &[T]
        requires { at < length self.now }
        ensures bucket { result.now ≡ bucket_at self.now at }
        ensures all { (added : List (List ℕ × T)) →
            self.now ≡ buckets_of (length self.now) added → result.now ≡ items_at (length self.now) added at }
    {
        self.buckets[at as usize].as_slice()
    }

    /// Takes the items of one partition out, which leaves its bucket empty.
    pub fn take(&mut self, alloc: Global, at: u32) -> Vec<T>
        requires { at < length self.old }
        ensures bucket { result.items ≡ bucket_at self.old at }
        ensures rest { self.new ≡ slice_set self.old at [] }
        ensures len { length self.new ≡ length self.old }
    {
        mem::replace(&mut self.buckets[at as usize], Vec::new(alloc))
    }
}
