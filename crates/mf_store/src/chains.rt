ghost use Rattle.mf_store.specs.Chains.{Hashes, IsNext, IsWalk};
ghost use Rattle.std.specs.Prelude.{◌≡◌, ◌++◌, ◌∷◌, ◌+◌, ◌-◌, ◌<◌, ◌≤◌, ℕ, [], None, Some, IfNone, IfSome, get_or, if◌then◌else◌, length, max, nat_eq, set, vec_capacity, OnErr, OnOk};
ghost use Rattle.indexmap.specs.IndexMap.{get, spare};

use indexmap::IndexMap;
use std::alloc::{AllocError, Global};
use std::marker::Model;

// Hashes under numbers from 0: a map leads from a hash to its first number, and each number to the next one of the
// same hash.
#[derive(Debug, Drop)]
pub(crate) struct Chains {
    firsts: IndexMap<u64, usize>,
    hashes: Vec<u64>,
    // 0 where no number of the same hash comes after.
    links: Vec<usize>,
    // How many further hashes have been promised room.
    room: usize,
}

impl Model for Chains {
    ghost use Rattle.mf_store.specs.Chains.{Hashes, IsChained};
    ghost use Rattle.indexmap.specs.IndexMap.{get, spare};
    ghost use Rattle.std.specs.Prelude.{◌+◌, ◌≤◌, length, nat_eq, vec_capacity};

    ghost Value = { Hashes };

    ghost view = { λ c. record { hashes = c.hashes.items; room = c.room } };

    ghost invariant = { λ c. IsChained (get nat_eq c.firsts) c.links.items c.hashes.items × (c.room ≤ spare c.firsts) × (length c.hashes.items + c.room ≤ vec_capacity c.hashes) × (length c.hashes.items + c.room ≤ vec_capacity c.links) };
}

impl Chains {
    pub(crate) fn new(alloc: Global) -> Chains
        ensures { result ≡ record { hashes = []; room = 0 } }
    {
        Chains {
            firsts: IndexMap::new(alloc),
            hashes: Vec::new(alloc),
            links: Vec::new(alloc),
            room: 0,
        }
    }

    // The first number of the hash.
    pub(crate) fn first(&self, hash: u64) -> Option<usize>
        ensures { IsNext hash 0 self.now.hashes result }
    {
        self.firsts.get(&hash).copied()
    }

    // The next number of the same hash.
    pub(crate) fn after(&self, number: usize) -> Option<usize>
        requires { number < length self.now.hashes }
        ensures { IsNext (get_or self.now.hashes number 0) (number + 1) self.now.hashes result }
    {
        match self.links[number] {
            0 => None,
            next => Some(next),
        }
    }

    // The last number of the hash.
    fn last(&self, hash: u64) -> Option<usize>
        ensures { IsWalk hash self.now.hashes result None }
    {
        let mut last = None;
        let mut next = self.first(hash);
        while let Some(number) = next {
            last = Some(number);
            next = self.after(number);
        }
        last
    }

    // Adds a hash, which takes no memory.
    pub(crate) fn push(&mut self, hash: u64)
        requires { 0 < self.old.room }
        ensures { self.new ≡ record { hashes = self.old.hashes ++ hash ∷ []; room = self.old.room - 1 } }
    {
        let last = self.last(hash);
        let number = self.hashes.len();
        join(&mut self.firsts, &mut self.links, hash, last, number);
        self.links.push_reserved(0);
        self.hashes.push_reserved(hash);
        self.room -= 1;
    }

    // Makes room for so many further hashes.
    pub(crate) fn reserve(&mut self, more: usize) -> Result<(), AllocError>
        ensures hashes { self.new.hashes ≡ self.old.hashes }
        ensures ok { OnOk result (self.new.room ≡ max self.old.room more) }
        ensures err { OnErr result (self.new.room ≡ self.old.room) }
    {
        if more <= self.room {
            return Ok(());
        }
        self.firsts.reserve(more)?;
        self.hashes.reserve(more)?;
        self.links.reserve(more)?;
        self.room = more;
        Ok(())
    }
}

// Leads to the number from the last one of its hash, or from the hash where it is the first.
fn join(
    firsts: &mut IndexMap<u64, usize>,
    links: &mut Vec<usize>,
    hash: u64,
    last: Option<usize>,
    number: usize,
)
    requires spare { 0 < spare firsts.old }
    requires last { IfSome last (λ i. i < length links.old.items) }
    ensures first { IfNone last ((h : ℕ) → get nat_eq firsts.new h ≡ (if nat_eq hash h then Some number else get nat_eq firsts.old h)) }
    ensures same_links { IfNone last (links.new.items ≡ links.old.items) }
    ensures next { IfSome last (λ i. links.new.items ≡ set links.old.items i number) }
    ensures same_firsts { IfSome last (λ i. (h : ℕ) → get nat_eq firsts.new h ≡ get nat_eq firsts.old h) }
    ensures spare { spare firsts.old ≤ spare firsts.new + 1 }
    ensures capacity { vec_capacity links.new ≡ vec_capacity links.old }
{
    match last {
        None => {
            let Ok(_) = firsts.insert(hash, number) else {
                unreachable!()
            };
        }
        Some(last) => links[last] = number,
    }
}
