ghost use Rattle.mf_permits.specs.Core.{IsRowAt, world_of};
ghost use Rattle.mf_permits.specs.Ledger.{Keeps, seen_of};
ghost use Rattle.mf_permits.specs.Tables.{HasTaskShape};
ghost use Rattle.std.specs.Prelude.{◌<◌, length};

use crate::ledger::Ledger;
use mf_store::Row;
use mf_task::Naming;

// Writes the row of an opened state.
pub(crate) fn write_row<N: Naming>(ledger: &Ledger, state: u64, into: &mut Row)
    requires kept { Keeps N.case ledger.now }
    requires opened { state < length (world_of N.case (seen_of ledger.now)).opened }
    requires shape { HasTaskShape N.case into.old }
    ensures { IsRowAt N.case (world_of N.case (seen_of ledger.now)) state into.new }
{
    ledger.tables.store.read(state, into);
}
