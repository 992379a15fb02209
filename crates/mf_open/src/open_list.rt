ghost use Rattle.std.specs.Prelude.{◌≡◌, ◌+◌, ◌≤◌, ◌<◌, [], drop, slice_get, Contains, OnOk};
ghost use Rattle.mf_open.specs.Keys.{IsRising, with_key};

use crate::bucket::Bucket;
use crate::nodes::Nodes;
use crate::steps::{enter, first, take};
use crate::{Key, Memory};
use std::alloc::Global;
use std::marker::Model;

/// A set of keys, seen by contracts as its keys in rising order and the number of inserts that are sure of room.
#[derive(Debug, Drop)]
pub struct OpenList {
    /// The greatest first.
    buckets: Vec<Bucket>,
    nodes: Nodes,
}

impl Model for OpenList {
    ghost use Rattle.std.specs.Prelude.{◌-◌, min, length, vec_capacity};
    ghost use Rattle.mf_open.specs.Keys.{OpenKeys};
    ghost use Rattle.mf_open.specs.Chains.{node_at, nodes_room};
    ghost use Rattle.mf_open.specs.Buckets.{keys_of, Sound};

    ghost Value = { OpenKeys };

    ghost view = { λ open_list. record { keys = keys_of (node_at open_list.nodes.list.items) open_list.buckets.items; room = min (nodes_room open_list.nodes) (vec_capacity open_list.buckets - length open_list.buckets.items) } };

    ghost invariant = { λ open_list. Sound open_list.nodes open_list.buckets.items };
}

impl OpenList {
    /// An empty list. Nothing is allocated.
    pub fn new(alloc: Global) -> OpenList
        ensures { result.keys ≡ [] }
    {
        OpenList {
            buckets: Vec::new(alloc),
            nodes: Nodes::new(alloc),
        }
    }

    /// Makes room for so many more keys, so that their inserts take no memory. On an error it has the keys and
    /// the room that it had.
    pub fn reserve(&mut self, more: usize) -> Result<(), Memory>
        ensures ok { OnOk result (more ≤ self.new.room) }
        ensures keys { self.new.keys ≡ self.old.keys }
        ensures room { self.old.room ≤ self.new.room }
    {
        self.nodes.reserve(more)?;
        self.buckets.reserve(more)?;
        Ok(())
    }

    /// Enters a key.
    pub fn insert(&mut self, key: Key)
        requires room { 0 < self.old.room }
        requires is_new { Contains self.old.keys key → ⊥ }
        ensures keys { self.new.keys ≡ with_key key self.old.keys }
        ensures room { self.old.room ≤ self.new.room + 1 }
    {
        enter(&mut self.buckets, &mut self.nodes, key);
    }

    /// The least key. There is none exactly where the list is empty.
    pub fn least(&self) -> Option<Key>
        ensures value { result ≡ slice_get self.now.keys 0 }
        ensures rising { IsRising self.now.keys }
    {
        first(&self.buckets, &self.nodes)
    }

    /// Takes the least key out. There is none exactly where the list is empty.
    pub fn take_least(&mut self) -> Option<Key>
        ensures value { result ≡ slice_get self.old.keys 0 }
        ensures keys { self.new.keys ≡ drop 1 self.old.keys }
        ensures rising { IsRising self.old.keys }
        ensures room { self.old.room ≤ self.new.room }
    {
        take(&mut self.buckets, &mut self.nodes)
    }
}
