ghost use Rattle.mf_permits.specs.Core.{Seen};
ghost use Rattle.mf_permits.specs.Ledger.{Keeps, seen_of};
ghost use Rattle.mf_permits.specs.Tables.{HasRoom, KeepsTables};
ghost use Rattle.std.specs.Prelude.{◌≡◌, ◌+◌, ◌≤◌, length, vec_capacity, OnOk};

use crate::ledger::Ledger;
use crate::tables::Tables;
use mf_task::{Memory, Naming};

// Makes room for so many more states. On an error the tables are as they were, but for their room.
pub(crate) fn reserve_states(tables: &mut Tables, more: usize) -> Result<(), Memory>
    ensures ok { OnOk result (HasRoom more tables.new) }
    ensures same { KeepsTables tables.old tables.new }
{
    tables.store.reserve(more)?;
    tables.values.reserve(more)?;
    tables.makers.reserve(more)?;
    match tables.open_list.reserve(more) {
        Ok(()) => Ok(()),
        Err(_) => Err(Memory),
    }
}

// Makes room for so many more states, for one entry and then for a take of each worker. On an error the ledger is as it
// was, but for its room.
pub(crate) fn make_room<N: Naming>(ledger: &mut Ledger, states: usize) -> Result<(), Memory>
    requires kept { Keeps N.case ledger.old }
    ensures kept { Keeps N.case ledger.new }
    ensures seen { seen_of ledger.new ≡ seen_of ledger.old }
    ensures states { OnOk result (HasRoom states ledger.new.tables) }
    ensures entries { OnOk result (length ledger.new.entries.items + length ledger.new.busy.items + 1 ≤ vec_capacity ledger.new.entries) }
{
    ledger.entries.reserve(ledger.busy.len() + 1)?;
    reserve_states(&mut ledger.tables, states)?;
    Ok(())
}
