ghost use Rattle.mf_task.specs.CaseRows.{AreValuesOfList, IsListedOf, children_with, grown_with, row_count};
ghost use Rattle.std.specs.Prelude.{◌≡◌, ◌≤◌, [], length, vec_capacity, IfOk, IfErr};

use crate::{Child, Expansion, Grown, Listed, Naming, Offspring, Value};
use mf_model::List;
use mf_store::Row;
use std::alloc::Global;
use std::marker::{Model, PhantomData};
use std::snapshot::Snapshot;

/// The successor list of the state of this number without its values. It was made from a row, which contracts alone see,
/// and its content is what the search rules give at that row.
#[derive(Drop)]
pub struct Rows<N: Naming> {
    pub state: u64,
    pub listed: Listed,
    from: Snapshot<Row>,
    of: PhantomData<N>,
}

/// Out of memory: the rows and the values as they were.
#[derive(Drop)]
pub struct Unclosed<N: Naming> {
    pub rows: Rows<N>,
    pub values: List<Value>,
}

impl<N: Naming> Model for Rows<N> {
    ghost use Rattle.mf_task.specs.CaseRows.{IsListedOf, RowsParts};

    ghost Value = { RowsParts };

    ghost view = { λ rows. record { state = rows.state; from = rows.from.value; listed = rows.listed } };

    ghost invariant = { λ rows. IsListedOf N.case rows.from.value rows.listed };
}

impl<N: Naming> Rows<N> {
    /// The rows of the state of this number with this content, made from this row.
    pub fn new(state: u64, row: &Row, listed: Listed) -> Rows<N>
        requires { IsListedOf N.case row.now listed }
        ensures { result ≡ record { state = state; from = row.now; listed = listed } }
    {
        Rows {
            state,
            listed,
            from: Snapshot::of(row),
            of: PhantomData,
        }
    }

    /// The expansion with these values, which are those of the rows in order. A way out of the width has none.
    pub fn close(self, alloc: Global, values: List<Value>) -> Result<Expansion<N>, Unclosed<N>>
        requires { AreValuesOfList N.case self.listed values }
        ensures ok { IfOk result (λ made. made ≡ record { state = self.state; from = self.from; grown = grown_with self.listed values }) }
        ensures err { IfErr result (λ unclosed. (unclosed.rows ≡ self) × (unclosed.values ≡ values)) }
    {
        let Ok(children) = Vec::with_capacity(alloc, self.listed.len()) else {
            return Err(Unclosed { rows: self, values });
        };
        let Rows {
            state,
            listed,
            from,
            of: PhantomData,
        } = self;
        let grown = valued(listed, values.as_slice(), children);
        Ok(Expansion::from_snapshot(state, from, grown))
    }
}

// What the search rules give, with these values of the rows; `children` has room for them.
fn valued(listed: Listed, values: &[Value], children: Vec<Child>) -> Grown
    requires values { length values.now ≡ row_count listed }
    requires empty { children.items ≡ [] }
    requires room { row_count listed ≤ vec_capacity children }
    ensures { result ≡ grown_with listed values.now }
{
    match listed {
        Listed::List { list } => Grown::Made {
            children: with_values(list, values, children),
        },
        Listed::Wide { instance } => Grown::Wide { instance },
    }
}

fn with_values(list: List<Offspring>, values: &[Value], children: Vec<Child>) -> List<Child>
    requires values { length values.now ≡ length list }
    requires empty { children.items ≡ [] }
    requires room { length list ≤ vec_capacity children }
    ensures { result ≡ children_with list values.now }
{
    let mut children = children;
    let mut at = 0;
    for offspring in list.into_vec() {
        let Offspring {
            instance,
            row,
            helpful,
        } = offspring;
        let value = values[at];
        children.push_reserved(Child {
            instance,
            row,
            value,
            helpful,
        });
        at += 1;
    }
    List::from_vec(children)
}
