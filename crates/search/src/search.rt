ghost use Rattle.std.specs.Prelude.{◌≡◌, true, false, List};
ghost use Rattle.stores.specs.Rows.{Keeps};
ghost use Rattle.search.specs.Sessions.{number, place, has_session, has_unvisited, parts, view, rest, Sound, Begins, Closes, Nexts, Steps, none_left, Copied};
ghost use Rattle.search.specs.Runs.{Event, Runs, Law};
ghost use Rattle.search.specs.declared.search.Session.TheVariants.{Closed};
ghost use Rattle.search.specs.declared.search.SearchFault.TheVariants.{Space as FromSpace};

use crate::rule::Rule;
use faults::Fault;
use spaces::space::{Space, SpaceFault, State};

// Handed out by an accepted begin, and taken back by close. It is not Drop, so a program that forgets it does not compile.
pub struct Ticket {
    mark: (),
}

// What next answers, with the number of nodes that it visited.
#[derive(Clone, Copy, PartialEq, Eq, Debug)]
pub enum Answer {
    Plan(u64),
    Done(u64),
    Spent(u64),
}

// Why a search refused a call.
#[derive(Clone, Copy)]
pub enum SearchFault {
    // a session is open
    Busy,
    // the space is not as deep as there are variables; it holds the depth
    Shallow(usize),
    // no session is open
    Idle,
    // the row has no place for a plan; it holds the row's length
    Row(usize),
    // a budget of no node
    Budget,
    // the space below refused
    Space(SpaceFault),
}

impl From<SpaceFault> for SearchFault {
    ghost from_gives = { λ e r. r ≡ FromSpace e };

    fn from(e: SpaceFault) -> SearchFault {
        SearchFault::Space(e)
    }
}

// Where a search stands.
#[derive(Clone, Copy)]
enum Session {
    // No session is open.
    Closed,
    // A session is open, and the top of the space is not visited yet.
    Fresh,
    // A session is open, and the top of the space was visited.
    Visited,
    // No session is open, and the one before closed with its top not visited yet.
    Left,
}

impl Session {
    fn is_open(self) -> bool
        ensures { result ≡ has_session self }
    {
        !matches!(self, Session::Closed | Session::Left)
    }

    fn is_fresh(self) -> bool
        ensures { result ≡ has_unvisited self }
    {
        matches!(self, Session::Fresh | Session::Left)
    }

    // With no session open, and of its top what was so before.
    fn closed(self) -> Session
        ensures session { has_session result ≡ false }
        ensures top { has_unvisited result ≡ has_unvisited self }
    {
        if self.is_fresh() {
            Session::Left
        } else {
            Session::Closed
        }
    }
}

// A search over a space by a rule.
#[derive(Drop)]
pub struct Search<P: Space, R: Rule> {
    space: P,
    rule: R,
    session: Session,
}

impl Fault for SearchFault {
    ghost number = { number };

    ghost place = { place };

    fn number(&self) -> u8 {
        match self {
            SearchFault::Busy => 42,
            SearchFault::Shallow(_) => 41,
            SearchFault::Idle => 43,
            SearchFault::Row(_) => 44,
            SearchFault::Budget => 45,
            SearchFault::Space(fault) => fault.number(),
        }
    }

    fn place(&self) -> usize {
        match self {
            SearchFault::Shallow(depth) => *depth,
            SearchFault::Row(length) => *length,
            SearchFault::Busy | SearchFault::Idle | SearchFault::Budget => 0,
            SearchFault::Space(fault) => fault.place(),
        }
    }
}

impl<P: Space, R: Rule> Search<P, R> {
    // No session is open. Whatever calls come after, the law of runs holds of them.
    pub fn open(space: P, rule: R) -> Search<P, R>
        ensures opened { result ≡ record { space = space; rule = rule; session = Closed } }
        ensures sound { P.Space.sound space → Sound P.Space.means P.Space.sound R.Rule.picks result }
        ensures law { P.Space.sound space → (es : List Event) (b : Search P R) → Runs (view P.Space.means R.Rule.picks) (Sound P.Space.means P.Space.sound R.Rule.picks) result es b → Law (view P.Space.means R.Rule.picks) result es b }
    {
        Search {
            space,
            rule,
            session: Session::Closed,
        }
    }

    // The space, to be asked.
    pub fn space(&self) -> &P
        ensures { result.now ≡ self.now.space }
    {
        &self.space
    }

    // The space and the rule, or the search itself where a session is open.
    pub fn apart(self) -> Result<(P, R), Search<P, R>>
        ensures { result ≡ parts self }
    {
        let open = self.session.is_open();
        if open {
            return Err(self);
        }
        let Search {
            space,
            rule,
            session: _,
        } = self;
        Ok((space, rule))
    }

    // Enters the space and opens a session; no node is visited yet.
    pub fn begin(&mut self) -> Result<Ticket, SearchFault>
        ensures { Keeps (Sound P.Space.means P.Space.sound R.Rule.picks) self.old self.new (Begins (view P.Space.means R.Rule.picks) self.old result self.new) }
    {
        if self.session.is_open() {
            return Err(SearchFault::Busy);
        }
        let depth = self.space.depth();
        if depth < self.space.variables() {
            return Err(SearchFault::Shallow(depth));
        }
        self.space.enter()?;
        self.session = Session::Fresh;
        Ok(Ticket { mark: () })
    }

    // Leaves the space and ends the session.
    pub fn close(&mut self, ticket: Ticket) -> Result<(), SearchFault>
        ensures { Keeps (Sound P.Space.means P.Space.sound R.Rule.picks) self.old self.new (Closes (view P.Space.means R.Rule.picks) self.old result self.new) }
    {
        let Ticket { mark: _ } = ticket;
        if !self.session.is_open() {
            return Err(SearchFault::Idle);
        }
        self.space.leave()?;
        self.session = self.session.closed();
        Ok(())
    }

    // Goes on to the next node and says what it is, or none where none is left.
    fn step(&mut self) -> Result<Option<State>, SearchFault>
        ensures { has_session self.old.session ≡ true → Keeps (Sound P.Space.means P.Space.sound R.Rule.picks) self.old self.new (Steps (view P.Space.means R.Rule.picks self.old) result (view P.Space.means R.Rule.picks self.new)) }
    {
        if self.session.is_fresh() {
            self.session = Session::Visited;
            return Ok(Some(self.space.state()));
        }
        match self.rule.pick(&self.space) {
            Some((x, v)) => self.space.take(x, v)?,
            None => {
                if self.space.nodes() <= 1 {
                    return Ok(None);
                }
                self.space.turn()?;
            }
        }
        Ok(Some(self.space.state()))
    }

    // Whether no node is left.
    fn ends(&self) -> bool
        ensures { Sound P.Space.means P.Space.sound R.Rule.picks self.now → has_session self.now.session ≡ true → result ≡ none_left (rest (view P.Space.means R.Rule.picks self.now)) }
    {
        if self.session.is_fresh() {
            return false;
        }
        match self.space.state() {
            State::Open => false,
            _ => self.space.nodes() <= 1,
        }
    }

    // Copies the plan on top to the row, which is as long.
    fn copy(&self, row: &mut [u8])
        ensures { P.Space.sound self.now.space → Copied (P.Space.means self.now.space) row.old row.new }
    {
        for (x, place) in row.iter_mut().enumerate() {
            match self.space.least(x) {
                Ok(Some(v)) => *place = v,
                Ok(None) => return,
                Err(_) => return,
            }
        }
    }

    // Visits nodes until its count reaches the budget, a plan is visited, or none is left. A plan goes to the front of the row.
    pub fn next(&mut self, budget: u64, row: &mut [u8]) -> Result<Answer, SearchFault>
        ensures { Keeps (Sound P.Space.means P.Space.sound R.Rule.picks) self.old self.new (Nexts (view P.Space.means R.Rule.picks) self.old budget row.old result self.new row.new) }
    {
        if !self.session.is_open() {
            return Err(SearchFault::Idle);
        }
        let n = self.space.variables();
        if row.len() < n {
            return Err(SearchFault::Row(row.len()));
        }
        if budget == 0 {
            return Err(SearchFault::Budget);
        }
        for count in 0..budget {
            let Some(state) = self.step()? else {
                return Ok(Answer::Done(count));
            };
            if let State::Plan = state {
                self.copy(&mut row[..n]);
                return Ok(Answer::Plan(count + 1));
            }
        }
        if self.ends() {
            Ok(Answer::Done(budget))
        } else {
            Ok(Answer::Spent(budget))
        }
    }
}
