ghost use Rattle.std.specs.Prelude.{◌≡◌, ℕ, ◌<◌, true};
ghost use Rattle.model.specs.Reading.{among};
ghost use Rattle.model.specs.Values.{different};
ghost use Rattle.stores.specs.Rows.{Keeps};
ghost use Rattle.tables.specs.States.{TableState};
ghost use Rattle.kinds.specs.Demands.{Demand, demand_of};
ghost use Rattle.kinds.specs.Passes.{Passes};
ghost use Rattle.kinds.specs.Sofar.{Sofar};
ghost use Rattle.different.specs.Different.{stable, meets};
ghost use Rattle.bits.specs.Bit.{has};
ghost use Rattle.different.specs.Expels.{Alone, Crowds, Lives, Lists, Barred, Expels};

use bits::Set;
use kinds::shrunk::Shrunk;
use tables::table::{DomainTable, TableFault};

// The value of a single variable.
fn alone<T: DomainTable>(table: &T, x: usize) -> Result<Option<u8>, TableFault>
    ensures { T.DomainTable.sound table.now → Alone (T.DomainTable.means table.now) x result }
{
    let Some(low) = table.least(x)? else {
        return Ok(None);
    };
    let Some(high) = table.greatest(x)? else {
        return Ok(None);
    };
    if low == high { Ok(Some(low)) } else { Ok(None) }
}

// The domain of a variable, empty where it is not there.
fn held<T: DomainTable>(table: &T, x: usize) -> Set
    ensures { T.DomainTable.sound table.now → has result.word ≡ (T.DomainTable.means table.now).domains x }
{
    match table.domain(x) {
        Ok(domain) => domain,
        Err(_) => Set::empty(),
    }
}

// The value of a single variable, if it is one of those that two variables had.
fn crowding<T: DomainTable>(table: &T, x: usize, twice: Set) -> Result<Option<u8>, TableFault>
    ensures { T.DomainTable.sound table.now → Crowds (T.DomainTable.means table.now) x (has twice.word) result }
{
    match alone(table, x)? {
        Some(v) if twice.has(usize::from(v)) => Ok(Some(v)),
        _ => Ok(None),
    }
}

// Whether a variable is there and has a value.
fn lives<T: DomainTable>(table: &T, x: usize) -> bool
    ensures { T.DomainTable.sound table.now → Lives (T.DomainTable.means table.now) x result }
{
    matches!(table.least(x), Ok(Some(_)))
}

// Takes v from the listed variables other than x, until one is empty.
fn expel<T: DomainTable>(
    table: &mut T,
    listed: &[u8],
    x: usize,
    v: u8,
    set: Set,
) -> Result<Shrunk, TableFault>
    ensures { Keeps T.DomainTable.sound table.old table.new ((n : ℕ) (D : Demand) (s : TableState) → Lists D listed.now (T.DomainTable.means table.old) → v < (T.DomainTable.means table.old).width → Barred n D s listed.now x v → Sofar n D s set (T.DomainTable.means table.old) → Expels n D s listed.now x v (T.DomainTable.means table.old) (T.DomainTable.means table.new) result) }
{
    let mut found = set;
    for y in listed {
        let y = *y as usize;
        if y != x {
            if table.drop(y, v)? {
                found = found.with(y);
                if !lives(table, y) {
                    return Ok(Shrunk::Failed(found));
                }
            }
        }
    }
    Ok(Shrunk::Live(found))
}

// One pass: takes the value of each single listed variable from all others, until one is empty. Only values that two of them had
// at first need be taken.
pub fn separate<T: DomainTable>(listed: &[u8], table: &mut T) -> Result<Shrunk, TableFault>
    ensures { Keeps T.DomainTable.sound table.old table.new ((n : ℕ) → ((x : ℕ) → among x listed.now ≡ true → x < n) → Passes n (demand_of stable meets (T.DomainTable.means table.old).width (different listed.now)) (T.DomainTable.means table.old) (T.DomainTable.means table.new) result) }
{
    let mut once = Set::empty();
    let mut twice = Set::empty();
    for x in listed {
        let domain = held(table, *x as usize);
        if domain.is_empty() {
            return Ok(Shrunk::Failed(Set::empty()));
        }
        twice = twice.union(once.common(domain));
        once = once.union(domain);
    }
    let mut set = Set::empty();
    for x in listed {
        let x = *x as usize;
        if let Some(v) = crowding(table, x, twice)? {
            match expel(table, listed, x, v, set)? {
                Shrunk::Live(found) => set = found,
                Shrunk::Failed(found) => return Ok(Shrunk::Failed(found)),
            }
        }
    }
    Ok(Shrunk::Live(set))
}
