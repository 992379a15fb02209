ghost use Rattle.mf_permits.specs.Ledger.{HoldOpened, IsLeastHeld};
ghost use Rattle.std.specs.Prelude.{◌≡◌, ◌+◌, ◌<◌, ◌≤◌, length};

/// A worker with a state in expansion, and the state's value.
#[derive(Clone, Copy, Debug)]
pub(crate) struct Held {
    pub worker: u16,
    pub value: u64,
}

// The one of less value of the worker at this place and the best before it.
fn better(busy: &[Option<u64>], values: &[u64], best: Option<Held>, at: usize) -> Option<Held>
    requires few { length busy.now ≤ 64 }
    requires opened { HoldOpened busy.now (length values.now) }
    requires within { at < length busy.now }
    requires before { IsLeastHeld busy.now values.now at best }
    ensures { IsLeastHeld busy.now values.now (at + 1) result }
{
    let Some(state) = busy[at] else {
        return best;
    };
    let value = values[state as usize];
    let worker = at as u16 + 1;
    match best {
        None => Some(Held { worker, value }),
        Some(held) => {
            if value < held.value {
                Some(Held { worker, value })
            } else {
                Some(held)
            }
        }
    }
}

// The worker with the state of least value in expansion, of several the one of the lowest number; none where all are
// idle.
pub(crate) fn least_held(busy: &[Option<u64>], values: &[u64]) -> Option<Held>
    requires few { length busy.now ≤ 64 }
    requires opened { HoldOpened busy.now (length values.now) }
    ensures { IsLeastHeld busy.now values.now (length busy.now) result }
{
    let mut best: Option<Held> = None;
    for at in 0..busy.len() {
        best = better(busy, values, best, at);
    }
    best
}
