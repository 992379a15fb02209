//! What an open list does, over its buckets and their nodes.
ghost use Rattle.std.specs.Prelude.{◌≡◌, ◌+◌, ◌-◌, ◌≤◌, ◌<◌, length, drop, slice_get, Contains, vec_capacity};
ghost use Rattle.mf_open.specs.Keys.{IsRising, with_key};
ghost use Rattle.mf_open.specs.Chains.{node_at, nodes_room};
ghost use Rattle.mf_open.specs.Buckets.{keys_of, Sound};

use crate::Key;
use crate::bucket::Bucket;
use crate::nodes::Nodes;
use crate::search::{Found, find};

/// Enters a key into its bucket, or into a new one.
pub(crate) fn enter(buckets: &mut Vec<Bucket>, nodes: &mut Nodes, key: Key)
    requires sound { Sound nodes.old buckets.old.items }
    requires is_new { Contains (keys_of (node_at nodes.old.list.items) buckets.old.items) key → ⊥ }
    requires room { (0 < nodes_room nodes.old) × (length buckets.old.items < vec_capacity buckets.old) }
    ensures sound { Sound nodes.new buckets.new.items }
    ensures keys { keys_of (node_at nodes.new.list.items) buckets.new.items ≡ with_key key (keys_of (node_at nodes.old.list.items) buckets.old.items) }
    ensures room { (nodes_room nodes.new + 1 ≡ nodes_room nodes.old) × (vec_capacity buckets.new ≡ vec_capacity buckets.old) × (length buckets.new.items ≤ length buckets.old.items + 1) }
{
    match find(buckets.as_slice(), &key) {
        Found::Bucket(at) => buckets[at] = buckets[at].with(nodes, key.state),
        Found::Gap(at) => {
            let bucket = Bucket::of_one(nodes, key);
            let Ok(_) = buckets.insert(at, bucket) else {
                unreachable!()
            };
        }
    }
}

/// The least key.
pub(crate) fn first(buckets: &Vec<Bucket>, nodes: &Nodes) -> Option<Key>
    requires { Sound nodes.now buckets.now.items }
    ensures value { result ≡ slice_get (keys_of (node_at nodes.now.list.items) buckets.now.items) 0 }
    ensures rising { IsRising (keys_of (node_at nodes.now.list.items) buckets.now.items) }
{
    let bucket = buckets.last()?;
    Some(bucket.key(nodes.get(bucket.first).state))
}

/// Takes the least key out, and its bucket where no state is left in it.
pub(crate) fn take(buckets: &mut Vec<Bucket>, nodes: &mut Nodes) -> Option<Key>
    requires { Sound nodes.old buckets.old.items }
    ensures sound { Sound nodes.new buckets.new.items }
    ensures value { result ≡ slice_get (keys_of (node_at nodes.old.list.items) buckets.old.items) 0 }
    ensures keys { keys_of (node_at nodes.new.list.items) buckets.new.items ≡ drop 1 (keys_of (node_at nodes.old.list.items) buckets.old.items) }
    ensures rising { IsRising (keys_of (node_at nodes.old.list.items) buckets.old.items) }
    ensures room { (nodes_room nodes.old ≤ nodes_room nodes.new) × (vec_capacity buckets.new ≡ vec_capacity buckets.old) × (length buckets.new.items ≤ length buckets.old.items) }
{
    let bucket = buckets.pop()?;
    let node = nodes.get(bucket.first);
    nodes.release(bucket.first);
    if bucket.more > 0 {
        buckets.push_reserved(Bucket {
            first: node.next,
            more: bucket.more - 1,
            ..bucket
        });
    }
    Some(bucket.key(node.state))
}
