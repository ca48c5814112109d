ghost use Rattle.std.specs.Prelude.{◌≡◌, true, false};
ghost use Rattle.tree.specs.Tables.{Choice};
ghost use Rattle.spaces.specs.Calls.{has_open};

use tables::table::DomainTable;

// Whether x is open and v one of its values.
pub fn chosen<T: DomainTable>(table: &T, x: usize, v: u8) -> bool
    ensures yes { T.DomainTable.sound table.now → result ≡ true → Choice (T.DomainTable.means table.now).domains x v }
    ensures no { T.DomainTable.sound table.now → result ≡ false → Choice (T.DomainTable.means table.now).domains x v → ⊥ }
{
    let Ok(size) = table.size(x) else {
        return false;
    };
    let Ok(there) = table.has(x, v) else {
        return false;
    };
    size > 1 && there
}

// Whether some variable is open.
pub fn some_open<T: DomainTable>(table: &T) -> bool
    ensures { T.DomainTable.sound table.now → result ≡ has_open (T.DomainTable.means table.now).variables (T.DomainTable.means table.now).width (T.DomainTable.means table.now).domains }
{
    for x in 0..table.variables() {
        let Ok(size) = table.size(x) else {
            return false;
        };
        if size > 1 {
            return true;
        }
    }
    false
}
