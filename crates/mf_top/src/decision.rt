use mf_model::{List, Text};
use mf_plain::History;
use std::alloc::Global;

/// What a call comes to, before anything is written: its status, the texts for out and err, and the history of its
/// search, which is empty where no search returned.
#[derive(Debug, Drop)]
pub(crate) struct Decision {
    pub(crate) status: u8,
    pub(crate) out: Text,
    pub(crate) err: Text,
    pub(crate) history: History,
}

impl Decision {
    ghost use Rattle.std.specs.Prelude.{◌≡◌};
    ghost use Rattle.mf_top.specs.Decision.{no_history, answers, stops, refuses, out_of_memory};

    // The history of a call in which no search returned.
    fn no_history(alloc: Global) -> History
        ensures { result ≡ no_history }
    {
        History {
            rows: List::new(alloc),
            values: List::new(alloc),
            makers: List::new(alloc),
            entries: List::new(alloc),
        }
    }

    /// A text on out, of a call that searched so.
    pub(crate) fn answers(alloc: Global, status: u8, out: Text, history: History) -> Decision
        ensures { result ≡ answers status out history }
    {
        Decision {
            status,
            out,
            err: Text::new(alloc),
            history,
        }
    }

    /// A text on out, of a call that searched nothing.
    pub(crate) fn says(alloc: Global, status: u8, out: Text) -> Decision
        ensures { result ≡ answers status out no_history }
    {
        Decision::answers(alloc, status, out, Decision::no_history(alloc))
    }

    /// A text on err.
    pub(crate) fn stops(alloc: Global, status: u8, err: Text) -> Decision
        ensures { result ≡ stops status err }
    {
        Decision {
            status,
            out: Text::new(alloc),
            err,
            history: Decision::no_history(alloc),
        }
    }

    /// The input is refused.
    pub(crate) fn refuses(alloc: Global, err: Text) -> Decision
        ensures { result ≡ refuses err }
    {
        Decision::stops(alloc, 3, err)
    }

    pub(crate) fn out_of_memory(alloc: Global) -> Decision
        ensures { result ≡ out_of_memory }
    {
        Decision::stops(alloc, 8, Text::new(alloc))
    }
}
