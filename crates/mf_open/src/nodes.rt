ghost use Rattle.std.specs.Prelude.{◌≡◌, ℕ, ◌+◌, ◌≤◌, ◌<◌, [], length, OnOk, vec_capacity};
ghost use Rattle.mf_open.specs.Chains.{node_at, free_times, nodes_room, Puts, Sets, Frees};

use crate::Memory;
use std::alloc::Global;

/// A node of a chain: the number of a state, and the place of the node after it.
#[derive(Clone, Copy, Debug)]
pub(crate) struct Node {
    pub(crate) state: u64,
    pub(crate) next: usize,
}

/// The nodes of all chains. Those of no chain are free, and are linked from the first free one on.
#[derive(Debug, Drop)]
pub(crate) struct Nodes {
    pub(crate) list: Vec<Node>,
    pub(crate) free: usize,
    pub(crate) spare: usize,
}

impl Nodes {
    pub(crate) fn new(alloc: Global) -> Nodes
        ensures { (result.list.items ≡ []) × (result.spare ≡ 0) }
    {
        Nodes {
            list: Vec::new(alloc),
            free: 0,
            spare: 0,
        }
    }

    /// Makes room for so many more nodes.
    pub(crate) fn reserve(&mut self, more: usize) -> Result<(), Memory>
        ensures kept { (self.new.list.items ≡ self.old.list.items) × (self.new.free ≡ self.old.free) × (self.new.spare ≡ self.old.spare) }
        ensures room { nodes_room self.old ≤ nodes_room self.new }
        ensures ok { OnOk result (more ≤ nodes_room self.new) }
    {
        if more > self.spare {
            self.list.reserve(more - self.spare)?;
        }
        Ok(())
    }

    /// Puts a number into a node that was free, and gives the node's place.
    pub(crate) fn put(&mut self, state: u64, next: usize) -> usize
        requires room { 0 < nodes_room self.old }
        requires apart { (p : ℕ) → free_times self.old p ≤ 1 }
        ensures { Puts self.old self.new (record { state = state; next = next }) result }
    {
        if self.spare == 0 {
            let at = self.list.len();
            self.list.push_reserved(Node { state, next });
            return at;
        }
        let at = self.free;
        self.free = self.list[at].next;
        self.spare -= 1;
        self.list[at] = Node { state, next };
        at
    }

    /// Gives a node that is in a chain another one after it.
    pub(crate) fn link(&mut self, at: usize, next: usize)
        requires { free_times self.old at ≡ 0 }
        ensures { Sets self.old self.new (record { state = (node_at self.old.list.items at).state; next = next }) at }
    {
        self.list[at].next = next;
    }

    /// The node at a place that is not free.
    pub(crate) fn get(&self, at: usize) -> Node
        requires { free_times self.now at ≡ 0 }
        ensures { result ≡ node_at self.now.list.items at }
    {
        self.list[at]
    }

    /// Lets a node go that is in no chain.
    pub(crate) fn release(&mut self, at: usize)
        requires room { self.old.spare < length self.old.list.items }
        requires kept { free_times self.old at ≡ 0 }
        ensures { Frees self.old self.new at }
    {
        let next = self.free;
        self.list[at].next = next;
        self.free = at;
        self.spare += 1;
    }
}
