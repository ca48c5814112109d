ghost use Rattle.different.specs.Different.{stable as stable-different, meets as meets-different, ReadsLikeTheRule};
ghost use Rattle.different.specs.Laws;

use crate::expel::separate;
use kinds::kind::Kind;
use kinds::shrunk::Shrunk;
use model::kind::Different;
use model::model::Model;
use model::model::calls::Constraint;
use tables::table::{DomainTable, TableFault};

// No two of the listed variables are equal.
#[derive(Clone, Copy)]
pub struct AllDifferent;

impl Kind for AllDifferent {
    const NUMBER: u16 = Different::NUMBER;

    ghost NUMBER = { 3 };

    ghost stable = { stable-different };

    ghost meets = { meets-different };

    ghost joins = { Laws.joins };

    ghost rests = { Laws.rests };

    ghost singles = { Laws.singles };

    fn pass<T: DomainTable>(
        &self,
        model: &Model,
        item: usize,
        table: &mut T,
    ) -> Result<Shrunk, TableFault> {
        match model.constraint(item) {
            Some(Constraint::Different { variables }) => separate(variables, table),
            _ => Ok(Shrunk::none()),
        }
    }
}

// Shows that the test of stability says what the rule says.
pub fn different_reads_like_the_rule()
    ensures { ReadsLikeTheRule }
{}
