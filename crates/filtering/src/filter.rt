ghost use Rattle.std.specs.Prelude.{◌≡◌, ℕ, ◌<◌, ◌≤◌, true, false, length};
ghost use Rattle.bits.specs.Bit.{has, members};
ghost use Rattle.stores.specs.Rows.{Keeps};
ghost use Rattle.model.specs.Meaning.{means as model-means, windows, records};
ghost use Rattle.kinds.specs.Problems.{problem};
ghost use Rattle.filtering.specs.Waits.{queue, Idle, woken};
ghost use Rattle.filtering.specs.Filters.{does_begin, Begins, Filters, FilledUp, NamesSome};

use crate::list::WaitingList;
use bits::Set;
use kinds::kind::Kinds;
use kinds::shrunk::Shrunk;
use model::model::Model;
use tables::table::{DomainTable, TableFault};

// Each round takes a record off the list. A round that takes a value away lets at most 64 records wait again, and there are at
// most 64 variables with 64 values: so the list is empty before these rounds are over.
const ROUNDS: usize = 65 * (64 * 64 + 1);

// Which records wait at first: all, or, where only the domain of one variable has changed since the table was stable, those
// that name it.
#[derive(Clone, Copy)]
pub enum Start {
    All,
    Changed(usize),
}

// The records that wait at first.
fn first(model: &Model, start: Start) -> Set
    ensures begins { (i : ℕ) → i < length (records model.now) → has result.word i ≡ does_begin (records model.now) start i }
    ensures below { (i : ℕ) → has result.word i ≡ true → i < length (records model.now) }
{
    match start {
        Start::All => Set::span(0, model.records()),
        Start::Changed(x) => model.naming(x),
    }
}

// The records that name one of the variables.
fn naming_some(model: &Model, variables: Set) -> Set
    ensures { NamesSome (records model.now) (has variables.word) (has result.word) }
{
    let mut found = Set::empty();
    for x in variables.members() {
        found = found.union(model.naming(x));
    }
    found
}

// Lets the records of the set wait, in the order of their numbers.
fn wake(list: &mut WaitingList, set: Set)
    ensures { queue list.new ≡ woken (members set.word) (queue list.old) }
{
    for i in set.members() {
        list.push(i);
    }
}

// Whether no variable is without a value.
fn filled<T: DomainTable>(table: &T) -> Result<bool, TableFault>
    ensures { T.DomainTable.sound table.now → FilledUp (T.DomainTable.means table.now) result }
{
    for x in 0..table.variables() {
        let Some(_) = table.least(x)? else {
            return Ok(false);
        };
    }
    Ok(true)
}

// Runs the records that wait, until none waits or a domain is empty.
fn run<T: DomainTable, K: Kinds>(
    table: &mut T,
    model: &Model,
    kinds: &K,
    list: &mut WaitingList,
    start: Start,
) -> Result<bool, TableFault>
    ensures { Idle list.old → Keeps T.DomainTable.sound table.old table.new ((T.DomainTable.means table.old).variables ≡ length (windows model.now) → Begins (problem K.Kinds.demands (model-means model.now) (T.DomainTable.means table.old).width) start (T.DomainTable.means table.old).domains → Filters (problem K.Kinds.demands (model-means model.now) (T.DomainTable.means table.old).width) (T.DomainTable.means table.old) (T.DomainTable.means table.new) result) }
{
    if !filled(table)? {
        return Ok(false);
    }
    wake(list, first(model, start));
    for _round in 0..ROUNDS {
        let Some(item) = list.pop() else {
            return Ok(true);
        };
        let shrunk = match kinds.pass(model, item, table)? {
            Shrunk::Live(shrunk) => shrunk,
            Shrunk::Failed(_) => return Ok(false),
        };
        if !shrunk.is_empty() {
            wake(list, naming_some(model, shrunk));
        }
    }
    Ok(false)
}

// Lends the list to one filtering, and empties it at the end.
struct Guard<'a> {
    list: &'a mut WaitingList,
}

impl Drop for Guard<'_> {
    fn drop(self)
        ensures { Idle self.exit.0.now }
    {
        self.list.clear();
        let Guard { list: _ } = self;
    }
}

// Filters the table. It answers whether there is a filtered table; else the table has failed. The list is empty again on every
// way out.
pub fn filter<T: DomainTable, K: Kinds>(
    table: &mut T,
    model: &Model,
    kinds: &K,
    list: &mut WaitingList,
    start: Start,
) -> Result<bool, TableFault>
    ensures idle { Idle list.new }
    ensures filters { Keeps T.DomainTable.sound table.old table.new ((T.DomainTable.means table.old).variables ≡ length (windows model.now) → Begins (problem K.Kinds.demands (model-means model.now) (T.DomainTable.means table.old).width) start (T.DomainTable.means table.old).domains → Filters (problem K.Kinds.demands (model-means model.now) (T.DomainTable.means table.old).width) (T.DomainTable.means table.old) (T.DomainTable.means table.new) result) }
{
    list.clear();
    let guard = Guard { list };
    run(table, model, kinds, guard.list, start)
}
