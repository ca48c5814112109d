ghost use Rattle.std.specs.Prelude.{◌≡◌};
ghost use Rattle.model.specs.Meaning.{records};
ghost use Rattle.std.specs.List.{slice_get};
ghost use Rattle.kinds.specs.Demands.{with_kind, no_demands};
ghost use Rattle.bank.specs.Numbers.{numbered};
ghost use Rattle.bank.specs.Banks;

use kinds::kind::{Kind, Kinds};
use kinds::shrunk::Shrunk;
use model::kind::{AtMost, Different};
use model::model::Model;
use model::model::calls::Constraint;
use tables::table::{DomainTable, TableFault};

// The number of the kind of a record, if there is such a record.
fn number_at(model: &Model, item: usize) -> Option<u16>
    ensures { result ≡ numbered (slice_get (records model.now) item) }
{
    match model.constraint(item)? {
        Constraint::AtMost { .. } => Some(AtMost::NUMBER),
        Constraint::Different { .. } => Some(Different::NUMBER),
    }
}

// No kinds.
#[derive(Clone, Copy)]
pub struct NoKinds;

impl Kinds for NoKinds {
    ghost demands = { no_demands };

    ghost lawful = { Banks.none-lawful };

    fn pass<T: DomainTable>(
        &self,
        _model: &Model,
        _item: usize,
        _table: &mut T,
    ) -> Result<Shrunk, TableFault> {
        Ok(Shrunk::none())
    }
}

// A kind, which has the records of its number, and the kinds that have the others.
#[derive(Clone, Copy)]
pub struct Bank<K: Kind, R: Kinds> {
    pub kind: K,
    pub rest: R,
}

impl<K: Kind, R: Kinds> Kinds for Bank<K, R> {
    ghost demands = { with_kind K.Kind.NUMBER K.Kind.stable K.Kind.meets R.Kinds.demands };

    ghost lawful = { Banks.lawful K.Kind.NUMBER K.Kind.stable K.Kind.meets R.Kinds.demands K.Kind.joins K.Kind.rests K.Kind.singles R.Kinds.lawful };

    fn pass<T: DomainTable>(
        &self,
        model: &Model,
        item: usize,
        table: &mut T,
    ) -> Result<Shrunk, TableFault> {
        let Some(number) = number_at(model, item) else {
            return Ok(Shrunk::none());
        };
        if number == K::NUMBER {
            self.kind.pass(model, item, table)
        } else {
            self.rest.pass(model, item, table)
        }
    }
}
