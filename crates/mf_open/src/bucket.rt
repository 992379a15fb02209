ghost use Rattle.std.specs.Prelude.{◌≡◌, ℕ, ◌+◌, ◌≤◌, ◌<◌, [], ◌∷◌, length};
ghost use Rattle.mf_open.specs.Chains.{node_at, free_times, nodes_room, IsSpot};
ghost use Rattle.mf_open.specs.Buckets.{in_chain, key_in, states_in, with_number, Lacks, IsChain, TakesIn};

use crate::Key;
use crate::nodes::Nodes;

/// The states of one value and one mark: a chain of nodes whose numbers rise.
#[derive(Clone, Copy, Debug)]
pub(crate) struct Bucket {
    pub(crate) value: u64,
    pub(crate) plain: bool,

    /// The places of the first and of the last node.
    pub(crate) first: usize,
    pub(crate) last: usize,

    /// How many nodes come after the first.
    pub(crate) more: usize,
}

impl Bucket {
    /// A bucket of one state.
    pub(crate) fn of_one(nodes: &mut Nodes, key: Key) -> Bucket
        requires room { 0 < nodes_room nodes.old }
        requires apart { (p : ℕ) → free_times nodes.old p ≤ 1 }
        ensures takes { TakesIn nodes.old nodes.new (λ _. 0) (key.state ∷ []) result }
        ensures same { (result.value ≡ key.value) × (result.plain ≡ key.plain) × (result.more ≡ 0) }
    {
        let at = nodes.put(key.state, 0);
        Bucket {
            value: key.value,
            plain: key.plain,
            first: at,
            last: at,
            more: 0,
        }
    }

    /// The bucket with one more state.
    pub(crate) fn with(self, nodes: &mut Nodes, state: u64) -> Bucket
        requires room { 0 < nodes_room nodes.old }
        requires apart { (p : ℕ) → in_chain (node_at nodes.old.list.items) self p + free_times nodes.old p ≤ 1 }
        requires counted { self.more < length nodes.old.list.items }
        requires chain { IsChain (node_at nodes.old.list.items) self }
        requires fresh { Lacks state (states_in (node_at nodes.old.list.items) self) }
        ensures takes { TakesIn nodes.old nodes.new (in_chain (node_at nodes.old.list.items) self) (with_number state (states_in (node_at nodes.old.list.items) self)) result }
        ensures same { (result.value ≡ self.value) × (result.plain ≡ self.plain) × (result.more ≡ self.more + 1) }
    {
        if state < nodes.get(self.first).state {
            let first = nodes.put(state, self.first);
            return Bucket {
                first,
                more: self.more + 1,
                ..self
            };
        }
        let before = self.before(nodes, state);
        let next = nodes.get(before).next;
        let at = nodes.put(state, next);
        nodes.link(before, at);
        Bucket {
            last: if before == self.last { at } else { self.last },
            more: self.more + 1,
            ..self
        }
    }

    /// The key of a state in the bucket.
    pub(crate) fn key(&self, state: u64) -> Key
        ensures { result ≡ key_in self.now state }
    {
        Key {
            value: self.value,
            plain: self.plain,
            state,
        }
    }

    // The place of the last node whose state's number is below the given one. The first is such a node.
    fn before(&self, nodes: &Nodes, state: u64) -> usize
        requires apart { (p : ℕ) → in_chain (node_at nodes.now.list.items) self.now p + free_times nodes.now p ≤ 1 }
        requires chain { IsChain (node_at nodes.now.list.items) self.now }
        requires fresh { Lacks state (states_in (node_at nodes.now.list.items) self.now) }
        requires above { (node_at nodes.now.list.items self.now.first).state < state }
        ensures { IsSpot (node_at nodes.now.list.items) self.now.more self.now.first state result }
    {
        if nodes.get(self.last).state < state {
            return self.last;
        }
        let mut at = self.first;
        for passed in 0..self.more {
            let next = nodes.get(at).next;
            if state < nodes.get(next).state {
                return at;
            }
            at = next;
        }
        at
    }
}
