ghost use Rattle.std.specs.Prelude.{◌≡◌, ℕ, length};
ghost use Rattle.stores.specs.Rows.{Keeps};
ghost use Rattle.model.specs.Meaning.{windows, records};
ghost use Rattle.std.specs.List.{slice_get};
ghost use Rattle.kinds.specs.Demands.{Stable, Meets, Demands, with_kind, no_demands, demanded};
ghost use Rattle.kinds.specs.Laws.{Joins, Rests, Singles, LawfulKinds};
ghost use Rattle.kinds.specs.Passes.{Passes};
ghost use Rattle.kinds.specs.Theorems.{ProblemIsLawful};

use crate::shrunk::Shrunk;
use model::model::Model;
use tables::table::{DomainTable, TableFault};

// A kind of constraint: its number, what it means, and how it narrows domains.
pub trait Kind {
    // the number by which the reader and the bank know the kind
    const NUMBER: u16;

    ghost NUMBER: { ℕ };

    // when a table is stable for a record, and when values meet it
    ghost stable: { Stable };

    ghost meets: { Meets };

    // Runs the record over the table, once. It does nothing if there is no such record, or if it is of another kind.
    fn pass<T: DomainTable>(
        &self,
        model: &Model,
        item: usize,
        table: &mut T,
    ) -> Result<Shrunk, TableFault>
        ensures { Keeps T.DomainTable.sound table.old table.new (Passes (length (windows model.now)) (demanded (with_kind NUMBER stable meets no_demands) (T.DomainTable.means table.old).width (slice_get (records model.now) item)) (T.DomainTable.means table.old) (T.DomainTable.means table.new) result) };

    ghost joins: { Joins NUMBER stable };

    ghost rests: { Rests NUMBER stable };

    ghost singles: { Singles NUMBER stable meets };
}

// A set of kinds, with at most one for each number.
pub trait Kinds {
    // what they ask for each record
    ghost demands: { Demands };

    // Runs the record over the table, once, by the kind of its number. It does nothing if there is no such record or no such kind.
    fn pass<T: DomainTable>(
        &self,
        model: &Model,
        item: usize,
        table: &mut T,
    ) -> Result<Shrunk, TableFault>
        ensures { Keeps T.DomainTable.sound table.old table.new (Passes (length (windows model.now)) (demanded demands (T.DomainTable.means table.old).width (slice_get (records model.now) item)) (T.DomainTable.means table.old) (T.DomainTable.means table.new) result) };

    ghost lawful: { LawfulKinds demands };
}

// Shows that the problem which a model and a set of kinds make is lawful.
pub fn problem_is_lawful()
    ensures { ProblemIsLawful }
{}
