#![tactic(auto)]

mod boards;
mod wish;

use crate::boards::{MOST, Pair, Plans};
use crate::wish::{Board, Branching, Wish};
use bank::standard::standard;
use faults::Fault;
use marking::Marking;
use model::model::Model;
use recomputing::recomputing::Recomputing;
use search::rule::{First, Rule, Small};
use search::search::{Answer, Search, SearchFault};
use spaces::space::Space;
use std::io::Read;
use std::{env, io};
use stores::copying::Copying;
use stores::store::Store;
use stores::trail::{Cell, Entry, Trail};
use tables::table::DomainTable;
use tables::words::WordTable;

// How a list ended, and how many nodes were visited.
enum End {
    Done(u64),
    Spent(u64),
    Found,
    Differ(u64),
    Fault(SearchFault),
}

// What is wished for, of a model with n variables, and where it is shown.
#[derive(Clone, Copy)]
struct Listing<'a> {
    rt: &'a HostRuntime,
    wish: &'a Wish,
    n: usize,
}

impl Listing<'_> {
    fn show_fault(&self, fault: SearchFault) -> io::Result<()> {
        println!(self.rt; "fault {} {}", fault.number(), fault.place())
    }

    fn show_plan(&self, number: u64, row: &[u8]) -> io::Result<()> {
        print!(self.rt; "{number}:")?;
        for v in row.iter().take(self.n) {
            print!(self.rt; " {v}")?;
        }
        println!(self.rt; "")
    }

    // Shows the plans wished for, numbered from 0.
    fn list<S: Plans>(&self, plans: &mut S) -> io::Result<End> {
        let mut row = [0; MOST];
        let mut number = 0u64;
        let mut nodes = 0u64;
        for _ in 0..u64::MAX {
            let budget = self.wish.budget.min(self.wish.limit.saturating_sub(nodes));
            if budget == 0 {
                return Ok(End::Spent(nodes));
            }
            let answer = match plans.next(budget, &mut row) {
                Ok(answer) => answer,
                Err(fault) => return Ok(End::Fault(fault)),
            };
            if !plans.agree() {
                return Ok(End::Differ(number));
            }
            match answer {
                Answer::Plan(count) => {
                    nodes = nodes.saturating_add(count);
                    match self.wish.plan {
                        None => self.show_plan(number, &row)?,
                        Some(wanted) if wanted == number => {
                            self.show_plan(number, &row)?;
                            return Ok(End::Found);
                        }
                        Some(_) => {}
                    }
                    number = number.saturating_add(1);
                }
                Answer::Done(count) => return Ok(End::Done(nodes.saturating_add(count))),
                Answer::Spent(count) => nodes = nodes.saturating_add(count),
            }
        }
        Ok(End::Spent(nodes))
    }

    fn show_end(&self, end: End) -> io::Result<()> {
        match end {
            End::Found => return Ok(()),
            End::Differ(number) => return println!(self.rt; "the boards differ at {number}"),
            End::Fault(fault) => return self.show_fault(fault),
            End::Spent(nodes) => println!(self.rt; "spent {nodes}")?,
            End::Done(nodes) => {
                if let Some(wanted) = self.wish.plan {
                    return println!(self.rt; "no plan {wanted}");
                }
                println!(self.rt; "done {nodes}")?;
            }
        }
        if self.wish.board == Board::All {
            println!(self.rt; "the boards agree")?;
        }
        Ok(())
    }

    // Lists in a session.
    fn run<S: Plans>(&self, plans: &mut S) -> io::Result<()> {
        let held = match plans.begin() {
            Ok(held) => held,
            Err(fault) => return self.show_fault(fault),
        };
        let end = self.list(plans);
        plans.close(held);
        self.show_end(end?)
    }
}

// The memory of each board is as much as the model needs: a mark for each variable and one for the root, or one mark alone.
fn solve<R: Rule + Copy>(rt: &HostRuntime, wish: &Wish, model: &Model, rule: R) -> io::Result<()> {
    let heap = rt.alloc();
    let n = model.variables();
    let marks = n.saturating_add(1);
    let cell = Cell { value: 0, stamp: 0 };
    let entry = Entry {
        cell: 0,
        value: 0,
        stamp: 0,
    };
    let mut large_cells = vec![in heap; cell; n]?;
    let mut large_entries = vec![in heap; entry; n.saturating_mul(marks)]?;
    let mut small_cells = vec![in heap; cell; n]?;
    let mut small_entries = vec![in heap; entry; n]?;
    let mut words = vec![in heap; 0u64; n.saturating_mul(marks.saturating_add(1))]?;
    let large = Trail::open(large_cells.as_mut_slice(), large_entries.as_mut_slice(), n);
    let small = Trail::open(small_cells.as_mut_slice(), small_entries.as_mut_slice(), n);
    let station = Copying::open(words.as_mut_slice(), n);
    let large = Marking::open(WordTable::open(model, large), standard(), model);
    let small = Recomputing::open(WordTable::open(model, small), standard(), model);
    let station = Marking::open(WordTable::open(model, station), standard(), model);
    let mut large = Search::open(large, rule);
    let mut small = Search::open(small, rule);
    let mut station = Search::open(station, rule);
    let listing = Listing { rt, wish, n };
    match wish.board {
        Board::Large => listing.run(&mut large),
        Board::Small => listing.run(&mut small),
        Board::Station => listing.run(&mut station),
        Board::All => {
            let others = Pair {
                first: small,
                second: station,
                same: true,
            };
            let mut all = Pair {
                first: large,
                second: others,
                same: true,
            };
            listing.run(&mut all)
        }
    }
}

// The wish in the words, or none where one of them is not known; that is shown.
fn wished(rt: &HostRuntime) -> io::Result<Option<Wish>> {
    let mut wish = Wish::usual();
    let words = env::args(rt)?;
    for word in words.skip(1) {
        let text = word.as_str();
        match wish.with(text) {
            Some(more) => wish = more,
            None => {
                println!(rt;
                    "unknown word {text}; the words are rule=first|small board=large|small|station|all budget=B limit=L plan=K"
                )?;
                return Ok(None);
            }
        }
    }
    Ok(Some(wish))
}

// Reads a model from standard input, and lists its plans.
fn main(rt: HostRuntime) -> io::Result<()> {
    let Some(wish) = wished(&rt)? else {
        return Ok(());
    };
    let mut bytes = Vec::new(rt.alloc());
    rt.stdin().read_to_end(&mut bytes)?;
    let mut model = Model::fresh();
    if let Err(fault) = model.read(bytes.as_slice()) {
        return println!(rt; "refused {} {}: {fault}", fault.number(), fault.place());
    }
    match wish.branching {
        Branching::First => solve(&rt, &wish, &model, First),
        Branching::Small => solve(&rt, &wish, &model, Small),
    }
}
