use super::*;

/// Every number holds, and steps lead one number down, to 0.
struct Down;

impl Fact<u64> for Down {
    ghost holds = { λ s. Unit {0} };
}

impl Moves<u64> for Down {
    ghost use Rattle.std.specs.Prelude.{◌≡◌, ℕ, ◌+◌};

    ghost steps = { λ x n y. x ≡ y + 1 };

    ghost goal = { λ x. x ≡ 0 };
}

#[test]
fn entries_and_makers_tell_their_states(rt: HostRuntime) {
    assert_eq!(rt;
        Entry::Take {
            worker: 1,
            state: 5
        }
        .taken(),
        Some(5)
    );
    assert_eq!(rt;
        Entry::Done {
            worker: 1,
            state: 5
        }
        .taken(),
        None
    );
    let marked = Maker::Step {
        parent: 2,
        instance: 3,
        helpful: true,
    };
    assert_eq!(rt; marked.parent(), Some(2));
    assert_eq!(rt; Maker::Start.parent(), None);
    assert_eq!(rt; marked.is_plain(), false);
    assert_eq!(rt; Maker::Start.is_plain(), true);
    assert!(rt; marked.rank() < Maker::Start.rank());
}

#[test]
fn laws_hold_at_a_type_of_states() {
    taken_once::<u64>();
    taken_by_a_greedy_run::<u64>();
    answers_are_right::<u64>();
    one_worker::<u64>();
    more_workers::<u64>();
    one_entry_more::<u64>();
    one_take_more::<u64>();
    one_child_more::<u64>();
    one_parent_more::<u64>();
    numbers_are_sound::<u64>();
    keys_are_ordered::<u64>();
    columns_are_kept::<u64>();
    least_is_found::<u64>();
    parts_are_listed::<u64>();
    workers_are_listed();
    open_keys_are_held::<u64, u64>();
    running_is_not_ended::<u64>();
    opened_states_are_reached::<u64>();
    kept_facts_hold::<u64, Down>();
    no_steps_lead_to_a_goal::<u64, Down>();
}
