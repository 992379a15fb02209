ghost use Rattle.mf_bridge.specs.StoredRows.{HasWords};
ghost use Rattle.mf_permits.specs.Tables.{HasRoom, IsWhole, OpensChild, OpensList};
ghost use Rattle.mf_search.specs.Keys.{is_plain};
ghost use Rattle.mf_open.specs.Keys.{with_key};
ghost use Rattle.mf_store.specs.Rows.{HasShape};
ghost use Rattle.mf_store.specs.Stored.{with_row};
ghost use Rattle.mf_task.specs.CaseRows.{IsChildOf};
ghost use Rattle.std.specs.Prelude.{◌≡◌, ◌+◌, ◌++◌, ◌∷◌, ◌<◌, ◌≤◌, ℕ, [], All, Contains, length, vec_capacity};

use crate::tables::Tables;
use mf_open::Key;
use mf_search::Maker;
use mf_store::{Row, Store};
use mf_task::{Child, Naming, Value};

// The words of a row fit their type.
pub(crate) fn words_fit(row: &Row)
    ensures { HasWords row.now }
{
    for word in row.bits() {
        let _fits = *word;
    }
}

// The number of a row that is new.
pub(crate) fn intern_new(store: &mut Store, row: &Row) -> u64
    requires shape { HasShape store.old.word_count store.old.value_count row.now }
    requires room { 0 < store.old.room }
    requires is_new { Contains store.old.rows row.now → ⊥ }
    ensures number { result ≡ length store.old.rows }
    ensures added { store.new ≡ with_row store.old row.now }
{
    let Ok((number, _is_new)) = store.intern(row) else {
        unreachable!()
    };
    number
}

// Enters the value, the maker and the key of the state of this number, the last row of the store.
pub(crate) fn enter(tables: &mut Tables, state: u64, value: u64, maker: Maker)
    requires room { length tables.old.values.items < vec_capacity tables.old.values }
    requires makers_room { length tables.old.makers.items < vec_capacity tables.old.makers }
    requires open_room { 0 < tables.old.open_list.room }
    requires is_new { Contains tables.old.open_list.keys (record { value = value; plain = is_plain maker; state = state }) → ⊥ }
    ensures store { tables.new.store ≡ tables.old.store }
    ensures values { tables.new.values.items ≡ tables.old.values.items ++ value ∷ [] }
    ensures makers { tables.new.makers.items ≡ tables.old.makers.items ++ maker ∷ [] }
    ensures keys { tables.new.open_list.keys ≡ with_key (record { value = value; plain = is_plain maker; state = state }) tables.old.open_list.keys }
    ensures values_room { vec_capacity tables.new.values ≡ vec_capacity tables.old.values }
    ensures makers_room { vec_capacity tables.new.makers ≡ vec_capacity tables.old.makers }
    ensures open_room { tables.old.open_list.room ≤ tables.new.open_list.room + 1 }
{
    tables.values.push_reserved(value);
    tables.makers.push_reserved(maker);
    tables.open_list.insert(Key {
        value,
        plain: maker.is_plain(),
        state,
    });
}

// Opens a child of the state of number `parent`, where its value is finite and it was not opened before.
pub(crate) fn open_child<N: Naming>(tables: &mut Tables, parent: u64, child: &Child)
    requires child { IsChildOf N.case child.now }
    requires whole { IsWhole N.case tables.old }
    requires room { HasRoom 1 tables.old }
    ensures whole { IsWhole N.case tables.new }
    ensures room { (n : ℕ) → HasRoom (n + 1) tables.old → HasRoom n tables.new }
    ensures opened { OpensChild N.case parent child.now tables.old tables.new }
{
    let Value::Finite(value) = child.value else {
        return;
    };
    words_fit(&child.row);
    let Ok((state, is_new)) = tables.store.intern(&child.row) else {
        unreachable!()
    };
    if is_new {
        let maker = Maker::Step {
            parent,
            instance: child.instance,
            helpful: child.helpful,
        };
        enter(tables, state, value, maker);
    }
}

// Opens the children of the state of number `parent`, in order.
pub(crate) fn open_children<N: Naming>(tables: &mut Tables, parent: u64, children: &[Child])
    requires children { All (IsChildOf N.case) children.now }
    requires whole { IsWhole N.case tables.old }
    requires room { HasRoom (length children.now) tables.old }
    ensures whole { IsWhole N.case tables.new }
    ensures opened { OpensList N.case parent children.now tables.old tables.new }
{
    for child in children {
        open_child::<N>(tables, parent, child);
    }
}
