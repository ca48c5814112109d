ghost use Rattle.atmost.specs.Linear.{stable as stable-at-most, meets as meets-at-most, ReadsLikeTheRule};
ghost use Rattle.atmost.specs.Laws;

use crate::narrow::narrow;
use kinds::kind::Kind;
use kinds::shrunk::Shrunk;
use model::kind::AtMost;
use model::model::Model;
use model::model::calls::Constraint;
use tables::table::{DomainTable, TableFault};

// The sum of coefficient times variable is at most a bound.
#[derive(Clone, Copy)]
pub struct SumAtMost;

impl Kind for SumAtMost {
    const NUMBER: u16 = AtMost::NUMBER;

    ghost NUMBER = { 2 };

    ghost stable = { stable-at-most };

    ghost meets = { meets-at-most };

    ghost joins = { Laws.joins };

    ghost rests = { Laws.rests };

    ghost singles = { Laws.singles };

    fn pass<T: DomainTable>(
        &self,
        model: &Model,
        item: usize,
        table: &mut T,
    ) -> Result<Shrunk, TableFault> {
        match model.constraint(item) {
            Some(Constraint::AtMost { bound, terms }) => narrow(terms, bound, table),
            _ => Ok(Shrunk::none()),
        }
    }
}

// Shows that the test of stability says what the rule says.
pub fn at_most_reads_like_the_rule()
    ensures { ReadsLikeTheRule }
{}
