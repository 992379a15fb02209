ghost use Rattle.std.specs.Prelude.{◌≡◌, ◌+◌, ◌<◌, length};
ghost use Rattle.mf_plain.specs.UnderWay.{IsLeast};

/// The best of the states up to this one, where `best` is the best of those before it.
fn better_of(values: &[u64], taken: &[bool], best: Option<usize>, state: usize) -> Option<usize>
    requires flags { length taken.now ≡ length values.now }
    requires within { state < length values.now }
    requires before { IsLeast values.now taken.now state best }
    ensures { IsLeast values.now taken.now (state + 1) result }
{
    if taken[state] {
        return best;
    }
    match best {
        None => Some(state),
        Some(other) => {
            if values[state] < values[other] {
                Some(state)
            } else {
                Some(other)
            }
        }
    }
}

/// The open state of least value, of several the one with the lowest number.
pub(crate) fn least(values: &[u64], taken: &[bool]) -> Option<usize>
    requires { length taken.now ≡ length values.now }
    ensures { IsLeast values.now taken.now (length values.now) result }
{
    let mut best: Option<usize> = None;
    for state in 0..values.len() {
        best = better_of(values, taken, best, state);
    }
    best
}
