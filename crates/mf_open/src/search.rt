ghost use Rattle.std.specs.Prelude.{◌≡◌, ◌<◌};
ghost use Rattle.std.specs.Ordering.{MatchOrdering};
ghost use Rattle.mf_open.specs.Buckets.{group, Falls};
ghost use Rattle.mf_open.specs.Search.{IsFound};

use crate::Key;
use crate::bucket::Bucket;
use std::cmp::Ordering;

/// Where the bucket of a key is among the buckets.
#[derive(Clone, Copy, Debug)]
pub(crate) enum Found {
    /// The place of its bucket.
    Bucket(usize),

    /// It has no bucket yet, and this is the place for one.
    Gap(usize),
}

/// Looks for the bucket of a key. The buckets fall.
pub(crate) fn find(buckets: &[Bucket], key: &Key) -> Found
    requires { Falls buckets.now }
    ensures { IsFound buckets.now (group key.now.value key.now.plain) result }
{
    let mut low = 0;
    let mut high = buckets.len();
    while low < high {
        let middle = low + (high - low) / 2;
        match order(&buckets[middle], key) {
            Ordering::Equal => return Found::Bucket(middle),
            Ordering::Greater => low = middle + 1,
            Ordering::Less => high = middle,
        }
    }
    Found::Gap(low)
}

// The order of a bucket's states and a key, by the value and the mark alone.
fn order(bucket: &Bucket, key: &Key) -> Ordering
    ensures { let at = group bucket.now.value bucket.now.plain in let wanted = group key.now.value key.now.plain in MatchOrdering result (at < wanted) (at ≡ wanted) (wanted < at) }
{
    bucket
        .value
        .cmp(&key.value)
        .then(bucket.plain.cmp(&key.plain))
}
