use crate::script::{learnt, sessions_agree};
use bank::standard::standard;
use marking::Marking;
use model::model::Model;
use recomputing::recomputing::Recomputing;
use search::rule::{First, Rule, Small};
use search::search::Search;
use spaces::space::Space;
use std::alloc::Global;
use std::process::Abort;
use std::test::Fail;
use stores::store::Store;
use stores::trail::{Cell, Entry, Trail};
use tables::table::DomainTable;
use tables::words::WordTable;

// Scripts on both spaces over trails; the nodes are learnt from the first and held against both.
fn agrees<R: Rule + Copy>(
    rt: &impl Abort,
    heap: Global,
    bytes: &[u8],
    rule: R,
    nodes: usize,
) -> Result<(), Fail> {
    let mut model = Model::fresh();
    model.read(bytes)?;
    let n = model.variables();
    let cell = Cell { value: 7, stamp: 7 };
    let entry = Entry {
        cell: 7,
        value: 7,
        stamp: 7,
    };
    let mut cells = vec![in heap; cell; 8]?;
    let mut entries = vec![in heap; entry; 80]?;
    let mut other_cells = vec![in heap; cell; 8]?;
    let mut other_entries = vec![in heap; entry; 8]?;
    let store = Trail::open(cells.as_mut_slice(), entries.as_mut_slice(), n);
    let other = Trail::open(other_cells.as_mut_slice(), other_entries.as_mut_slice(), n);
    let mut large = Search::open(
        Marking::open(WordTable::open(&model, store), standard(), &model),
        rule,
    );
    let mut small = Search::open(
        Recomputing::open(WordTable::open(&model, other), standard(), &model),
        rule,
    );
    let learnt = learnt(heap, &mut large)?;
    match learnt {
        None => {
            assert!(rt; false, "every node is visited");
            Ok(())
        },
        Some(judge) => {
            let mut judge = judge;
            assert!(rt; judge.nodes() == nodes, "nodes");
            assert!(rt;
                sessions_agree(&mut large, &mut judge, n, 88172645463325252),
                "large"
            );
            assert!(rt;
                sessions_agree(&mut small, &mut judge, n, 4101842887655102017),
                "small"
            );
            Ok(())
        }
    }
}

#[test]
fn two_that_differ(rt: HostRuntime) -> Result<(), Fail> {
    let bytes = [5, 0, 1, 0, 2, 0, 2, 0, 3, 3, 0, 3, 0, 2, 0, 1];
    agrees(&rt, rt.alloc(), &bytes, First, 7)?;
    agrees(&rt, rt.alloc(), &bytes, Small, 7)
}

#[test]
fn a_wheel(rt: HostRuntime) -> Result<(), Fail> {
    let bytes = [
        9, 0, 1, 0, 4, 0, 4, 0, 5, 1, 4, 2, 6, 5, 0, 3, 0, 4, 0, 1, 2, 3, 11, 0, 2, 0, 2, 255, 255,
        255, 255, 0, 1, 0, 1, 255, 255, 11, 0, 2, 0, 2, 6, 0, 0, 0, 2, 1, 0, 3, 1, 0,
    ];
    agrees(&rt, rt.alloc(), &bytes, First, 55)?;
    agrees(&rt, rt.alloc(), &bytes, Small, 47)
}

#[test]
fn a_base_that_fails(rt: HostRuntime) -> Result<(), Fail> {
    let bytes = [5, 0, 1, 0, 2, 0, 1, 0, 1, 3, 0, 3, 0, 2, 0, 1];
    agrees(&rt, rt.alloc(), &bytes, First, 1)?;
    agrees(&rt, rt.alloc(), &bytes, Small, 1)
}
