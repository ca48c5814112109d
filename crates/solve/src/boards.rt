// Plans from one board, or from two that are to agree.
use search::rule::Rule;
use search::search::{Answer, Search, SearchFault, Ticket};
use spaces::space::Space;

// No model has more variables.
pub const MOST: usize = 64;

// What gives plans, one after the other.
pub trait Plans {
    // what an accepted begin hands out, and close takes back
    type Held;

    fn begin(&mut self) -> Result<Self::Held, SearchFault>;

    fn next(&mut self, budget: u64, row: &mut [u8]) -> Result<Answer, SearchFault>;

    fn close(&mut self, held: Self::Held);

    // Whether all boards gave the same so far.
    fn agree(&self) -> bool;
}

impl<P: Space, R: Rule> Plans for Search<P, R> {
    type Held = Ticket;

    fn begin(&mut self) -> Result<Ticket, SearchFault> {
        Search::begin(self)
    }

    fn next(&mut self, budget: u64, row: &mut [u8]) -> Result<Answer, SearchFault> {
        Search::next(self, budget, row)
    }

    fn close(&mut self, held: Ticket) {
        let _ = Search::close(self, held);
    }

    fn agree(&self) -> bool {
        true
    }
}

// Two that are asked the same. What is given is what the first gave.
#[derive(Drop)]
pub struct Pair<A, B> {
    pub first: A,
    pub second: B,
    pub same: bool,
}

impl<A: Plans, B: Plans> Plans for Pair<A, B> {
    type Held = (A::Held, B::Held);

    fn begin(&mut self) -> Result<(A::Held, B::Held), SearchFault> {
        let one = self.first.begin()?;
        match self.second.begin() {
            Ok(two) => Ok((one, two)),
            Err(fault) => {
                self.first.close(one);
                Err(fault)
            }
        }
    }

    fn next(&mut self, budget: u64, row: &mut [u8]) -> Result<Answer, SearchFault> {
        let mut other = [0; MOST];
        let one = self.first.next(budget, row)?;
        let two = self.second.next(budget, &mut other)?;
        let plans_alike = match one {
            Answer::Plan(_) => row[..] == other[..],
            _ => true,
        };
        self.same = self.same && one == two && plans_alike;
        Ok(one)
    }

    fn close(&mut self, held: (A::Held, B::Held)) {
        let (one, two) = held;
        self.second.close(two);
        self.first.close(one);
    }

    fn agree(&self) -> bool {
        self.same && self.first.agree() && self.second.agree()
    }
}
