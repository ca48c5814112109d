ghost use Rattle.std.specs.Prelude.{◌≡◌, ℕ, ◌<◌, ◌≤◌, true, length, ℤ, Some};
ghost use Rattle.stores.specs.Rows.{Keeps};
ghost use Rattle.model.specs.Values.{at_most};
ghost use Rattle.tables.specs.States.{TableState};
ghost use Rattle.kinds.specs.Demands.{Demand, demand_of};
ghost use Rattle.kinds.specs.Passes.{Passes};
ghost use Rattle.kinds.specs.Sofar.{Sofar};
ghost use Rattle.atmost.specs.Linear.{listed, stable, meets};
ghost use Rattle.atmost.specs.Trims.{End, Part, Total, Barred, Trims, Small, SmallSum};

use bits::Set;
use kinds::shrunk::Shrunk;
use model::values::Term;
use tables::table::{DomainTable, TableFault};

// More than a domain has values, which are bytes.
const TURNS: usize = 256;

// The greatest or the least value of a variable.
fn end<T: DomainTable>(table: &T, x: usize, top: bool) -> Result<Option<u8>, TableFault>
    ensures { T.DomainTable.sound table.now → End (T.DomainTable.means table.now) x top result }
{
    if top {
        table.greatest(x)
    } else {
        table.least(x)
    }
}

// The low of a term, if its variable has a value.
fn low<T: DomainTable>(table: &T, term: Term) -> Option<i64>
    ensures value { T.DomainTable.sound table.now → Part (T.DomainTable.means table.now) term result }
    ensures bound { (z : ℤ) → result ≡ Some z → Small z }
{
    match end(table, term.variable as usize, term.coefficient < 0) {
        Ok(Some(v)) => Some(i64::from(term.coefficient) * i64::from(v)),
        _ => None,
    }
}

// The sum of the lows, if each variable has a value.
fn total<T: DomainTable>(table: &T, terms: &[Term]) -> Option<i64>
    requires { length terms.now ≤ 64 }
    ensures value { T.DomainTable.sound table.now → Total (T.DomainTable.means table.now) terms.now result }
    ensures bound { (z : ℤ) → result ≡ Some z → SmallSum 64 z }
{
    let mut sum: i64 = 0;
    for term in terms {
        sum += low(table, *term)?;
    }
    Some(sum)
}

// Takes the values away with which the term is above the room, from the far end on, until none is left.
fn trim<T: DomainTable>(
    table: &mut T,
    term: Term,
    room: i64,
    set: Set,
) -> Result<Shrunk, TableFault>
    ensures { Keeps T.DomainTable.sound table.old table.new ((n : ℕ) (D : Demand) (s : TableState) → D.names term.variable ≡ true → term.variable < (T.DomainTable.means table.old).variables → Barred n D s term room → Sofar n D s set (T.DomainTable.means table.old) → Trims n D s term room (T.DomainTable.means table.old) (T.DomainTable.means table.new) result) }
{
    let x = term.variable as usize;
    let mut found = set;
    for _turn in 0..TURNS {
        let Some(v) = end(table, x, term.coefficient >= 0)? else {
            return Ok(Shrunk::Failed(found));
        };
        if i64::from(term.coefficient) * i64::from(v) <= room {
            return Ok(Shrunk::Live(found));
        }
        let _ = table.drop(x, v)?;
        found = found.with(x);
    }
    Ok(Shrunk::Failed(found))
}

// One pass: the sum of the terms is at most the bound.
pub fn narrow<T: DomainTable>(
    terms: &[Term],
    bound: i32,
    table: &mut T,
) -> Result<Shrunk, TableFault>
    requires { length terms.now ≤ 64 }
    ensures { Keeps T.DomainTable.sound table.old table.new ((n : ℕ) → ((x : ℕ) → listed terms.now x ≡ true → x < n) → Passes n (demand_of stable meets (T.DomainTable.means table.old).width (at_most bound terms.now)) (T.DomainTable.means table.old) (T.DomainTable.means table.new) result) }
{
    let Some(total) = total(table, terms) else {
        return Ok(Shrunk::Failed(Set::empty()));
    };
    let mut set = Set::empty();
    for term in terms {
        let Some(part) = low(table, *term) else {
            return Ok(Shrunk::Failed(set));
        };
        match trim(table, *term, i64::from(bound) - (total - part), set)? {
            Shrunk::Live(found) => set = found,
            Shrunk::Failed(found) => return Ok(Shrunk::Failed(found)),
        }
    }
    Ok(Shrunk::Live(set))
}
