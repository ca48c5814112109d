ghost use Rattle.std.specs.Prelude.{length};
ghost use Rattle.std.specs.List.{slice_get};
ghost use Rattle.stores.specs.Rows.{Keeps};
ghost use Rattle.model.specs.Meaning.{windows, records};
ghost use Rattle.kinds.specs.Demands.{demanded};
ghost use Rattle.kinds.specs.Passes.{Passes};
ghost use Rattle.bank.specs.Standard.{standard, EveryRecordHasItsKind};

use crate::bank::{Bank, NoKinds};
use atmost::kind::SumAtMost;
use different::kind::AllDifferent;
use kinds::kind::{Kind, Kinds};
use kinds::shrunk::Shrunk;
use model::model::Model;
use tables::table::{DomainTable, TableFault};

// At most and all different: a kind for every record that a model has.
pub fn standard() -> Bank<SumAtMost, Bank<AllDifferent, NoKinds>>
    ensures { EveryRecordHasItsKind }
{
    Bank {
        kind: SumAtMost,
        rest: Bank {
            kind: AllDifferent,
            rest: NoKinds,
        },
    }
}

// Runs the record over the table, once, by its kind.
pub fn pass<T: DomainTable>(model: &Model, item: usize, table: &mut T) -> Result<Shrunk, TableFault>
    ensures { Keeps T.DomainTable.sound table.old table.new (Passes (length (windows model.now)) (demanded standard (T.DomainTable.means table.old).width (slice_get (records model.now) item)) (T.DomainTable.means table.old) (T.DomainTable.means table.new) result) }
{
    standard().pass(model, item, table)
}
