ghost use Rattle.std.specs.Prelude.{◌≡◌, ◌≢◌, ℕ, ◌+◌, ◌≤◌, ◌<◌, All};

use crate::{Key, OpenList};
use std::test::Fail;

// Enters a key of a number that no key has.
fn enter(keys: &mut OpenList, value: u64, plain: bool, state: u64)
    requires room { 0 < keys.old.room }
    requires is_new { All (λ k. k.state ≢ state) keys.old.keys }
    ensures others { (s : ℕ) → s ≢ state → All (λ k. k.state ≢ s) keys.old.keys → All (λ k. k.state ≢ s) keys.new.keys }
    ensures room { keys.old.room ≤ keys.new.room + 1 }
{
    keys.insert(Key {
        value,
        plain,
        state,
    });
}

// The number of the key that is taken, or 0.
fn taken(keys: &mut OpenList) -> u64 {
    match keys.take_least() {
        Some(key) => key.state,
        None => 0,
    }
}

#[test]
fn keys_come_out_by_value_and_mark(rt: HostRuntime) -> Result<(), Fail> {
    let mut keys = OpenList::new(rt.alloc());
    keys.reserve(3)?;
    enter(&mut keys, 2, true, 5);
    enter(&mut keys, 2, false, 9);
    enter(&mut keys, 1, true, 7);
    let first = taken(&mut keys);
    let second = taken(&mut keys);
    let third = taken(&mut keys);
    let fourth = keys.take_least();
    assert_eq!(rt; first, 7);
    assert_eq!(rt; second, 9);
    assert_eq!(rt; third, 5);
    assert_eq!(rt; fourth, None);
    Ok(())
}

#[test]
fn numbers_of_one_bucket_come_out_in_order(rt: HostRuntime) -> Result<(), Fail> {
    let mut keys = OpenList::new(rt.alloc());
    keys.reserve(3)?;
    enter(&mut keys, 2, true, 8);
    enter(&mut keys, 2, true, 5);
    enter(&mut keys, 2, true, 6);
    let first = taken(&mut keys);
    let second = taken(&mut keys);
    let third = taken(&mut keys);
    assert_eq!(rt; first, 5);
    assert_eq!(rt; second, 6);
    assert_eq!(rt; third, 8);
    Ok(())
}
