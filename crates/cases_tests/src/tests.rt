use crate::boards::{Called, Claims, Grown, in_session, stops_after};
use bank::standard::standard;
use cases::{Case, Claim, all_cases, claim_of};
use marking::Marking;
use model::model::Model;
use recomputing::recomputing::Recomputing;
use search::rule::First;
use search::search::Search;
use spaces::space::Space;
use std::alloc::Global;
use std::process::Abort;
use std::test::Fail;
use stores::copying::Copying;
use stores::store::Store;
use stores::trail::{Cell, Entry, Trail};
use tables::table::DomainTable;
use tables::words::WordTable;
use trial::{Refusal, told};

const CELL: Cell = Cell { value: 7, stamp: 7 };

const ENTRY: Entry = Entry {
    cell: 7,
    value: 7,
    stamp: 7,
};

// One case, run on memory of the heap.
#[derive(Clone, Copy)]
struct Trial {
    heap: Global,
    case: Case,
}

impl Trial {
    fn trail(
        &self,
        rt: &impl Abort,
        cells: usize,
        entries: usize,
        depth: usize,
        number: u8,
    ) -> Result<(), Fail> {
        let case = self.case;
        let mut lent = vec![in self.heap; CELL; cells]?;
        let mut saved = vec![in self.heap; ENTRY; entries]?;
        let mut store = Trail::open(lent.as_mut_slice(), saved.as_mut_slice(), cells);
        assert!(rt; store.depth() == depth, "{case:?}: depth");
        assert!(rt; stops_after(&mut store, depth, number), "{case:?}: marks");
        Ok(())
    }

    fn copies(
        &self,
        rt: &impl Abort,
        cells: usize,
        words: usize,
        depth: usize,
    ) -> Result<(), Fail> {
        let case = self.case;
        let mut lent = vec![in self.heap; 7u64; words]?;
        let store = Copying::open(lent.as_mut_slice(), cells);
        assert!(rt; store.depth() == depth, "{case:?}: depth");
        Ok(())
    }

    // The bytes are refused.
    fn refused(&self, rt: &impl Abort, bytes: &[u8], number: u8, place: usize) -> Result<(), Fail> {
        let case = self.case;
        let mut model = Model::fresh();
        let refusal = told(model.read(bytes));
        assert!(rt;
            refusal == Some(Refusal { number, place }),
            "{case:?}: {refusal:?}"
        );
        Ok(())
    }

    // A trail that marks every node, a trail that recomputes from one mark, and copies: each twice, to see that a session leaves
    // the space as it was.
    fn on_boards<C: Claims>(&self, rt: &impl Abort, bytes: &[u8], claim: &C) -> Result<(), Fail> {
        let case = self.case;
        let heap = self.heap;
        let mut model = Model::fresh();
        model.read(bytes)?;
        let n = model.variables();
        let marks = n.saturating_add(1);
        let mut large_cells = vec![in heap; CELL; n]?;
        let mut large_entries = vec![in heap; ENTRY; n.saturating_mul(marks)]?;
        let mut small_cells = vec![in heap; CELL; n]?;
        let mut small_entries = vec![in heap; ENTRY; n]?;
        let mut words = vec![in heap; 7u64; n.saturating_mul(marks.saturating_add(1))]?;
        let large = Trail::open(large_cells.as_mut_slice(), large_entries.as_mut_slice(), n);
        let small = Trail::open(small_cells.as_mut_slice(), small_entries.as_mut_slice(), n);
        let station = Copying::open(words.as_mut_slice(), n);
        let large = Marking::open(WordTable::open(&model, large), standard(), &model);
        let small = Recomputing::open(WordTable::open(&model, small), standard(), &model);
        let station = Marking::open(WordTable::open(&model, station), standard(), &model);
        let mut large = Search::open(large, First);
        let mut small = Search::open(small, First);
        let mut station = Search::open(station, First);
        for _ in 0..2u8 {
            assert!(rt; in_session(claim, &mut large), "{case:?}: large");
            assert!(rt; in_session(claim, &mut small), "{case:?}: small");
            assert!(rt; in_session(claim, &mut station), "{case:?}: station");
        }
        Ok(())
    }

    fn runs(&self, rt: &impl Abort) -> Result<(), Fail> {
        match claim_of(self.case) {
            Claim::Trail {
                cells,
                entries,
                depth,
                number,
            } => self.trail(rt, cells, entries, depth, number),
            Claim::Copies {
                cells,
                words,
                depth,
            } => self.copies(rt, cells, words, depth),
            Claim::Refused {
                bytes,
                number,
                place,
            } => self.refused(rt, bytes, number, place),
            Claim::Tree {
                bytes,
                root,
                plans,
                nodes,
            } => self.on_boards(rt, bytes, &Grown { root, plans, nodes }),
            Claim::Calls {
                bytes,
                budget,
                answers,
            } => self.on_boards(rt, bytes, &Called { budget, answers }),
        }
    }
}

#[test]
fn every_case_runs(rt: HostRuntime) -> Result<(), Fail> {
    for case in all_cases() {
        let trial = Trial {
            heap: rt.alloc(),
            case,
        };
        trial.runs(&rt)?;
    }
    Ok(())
}
