ghost use Rattle.mf_permits.specs.Core.{HaltTells, world_of};
ghost use Rattle.mf_permits.specs.Ledger.{Keeps, seen_of, status_of};
ghost use Rattle.mf_search.specs.Answers.{IsStatus};
ghost use Rattle.std.specs.Prelude.{◌≡◌};

use crate::holding::{Held, least_held};
use crate::ledger::{End, Ledger};
use mf_open::Key;
use mf_search::Status;
use mf_task::Naming;

// The status of a search that goes on, by the least state in expansion, the least key of an open state, and whether as
// many states were taken as the budget allows.
fn going_status(least: Option<Held>, first: Option<Key>, spent: bool, halted: bool) -> Status
    ensures { result ≡ status_of least first spent halted }
{
    match (least, first) {
        (None, None) => Status::NoPlan,
        (None, Some(_)) if spent => Status::Budget,
        _ if halted => Status::Halted,
        _ => Status::Running,
    }
}

// How far the search has come.
pub(crate) fn status<N: Naming>(ledger: &Ledger) -> Status
    requires { Keeps N.case ledger.now }
    ensures { IsStatus N.case.budget (world_of N.case (seen_of ledger.now)) ledger.now.halted result }
{
    match ledger.end {
        End::Goal { state } => Status::Plan { state },
        End::Wide { state, instance } => Status::Width { state, instance },
        End::Going => {
            let least = least_held(ledger.busy.as_slice(), ledger.tables.values.as_slice());
            let first = ledger.tables.open_list.least();
            going_status(least, first, ledger.is_spent(), ledger.halted)
        }
    }
}

// Halts the search, where it has no answer.
pub(crate) fn halt<N: Naming>(ledger: &mut Ledger)
    requires { Keeps N.case ledger.old }
    ensures kept { Keeps N.case ledger.new }
    ensures tells { HaltTells N.case (seen_of ledger.old) (seen_of ledger.new) }
{
    if let Status::Running = status::<N>(ledger) {
        ledger.halted = true;
    }
}
