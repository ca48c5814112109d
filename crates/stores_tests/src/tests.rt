use crate::judge::marks_end;
use crate::lent::{Case, Layers, Memory};
use crate::script::ladder;
use std::alloc::{AllocError, Global};
use std::test::Fail;
use stores::ceiling::Ceiling;
use stores::copying::Copying;
use stores::store::Store;
use stores::tally::Tally;
use stores::trail::{Cell, Entry, Trail};
use trial::{Refusal, any_calls};

const LAYERS: [Layers; 6] = [
    Layers::Bare,
    Layers::TallyOverCeiling(0),
    Layers::TallyOverCeiling(2),
    Layers::TallyOverCeiling(100),
    Layers::CeilingOverTally(1),
    Layers::CeilingOverTally(9),
];

fn on_trail(cells: usize, entries: usize, wanted: usize, size: usize, depth: usize) -> Case {
    Case {
        memory: Memory::Trail { cells, entries },
        wanted,
        size,
        depth,
    }
}

fn on_copies(words: usize, wanted: usize, size: usize, depth: usize) -> Case {
    Case {
        memory: Memory::Copies { words },
        wanted,
        size,
        depth,
    }
}

// Whether a long script by chance, and one up to the depth and down, agree through all layers.
fn agrees(heap: Global, case: Case, seed: u64) -> Result<bool, AllocError> {
    for (i, layers) in LAYERS.iter().enumerate() {
        let calls = any_calls(heap, seed ^ (i as u64), case.size, 1200)?;
        let steps = ladder(heap, case.size, case.depth)?;
        if !case.agrees(heap, *layers, &calls)? || !case.agrees(heap, *layers, &steps)? {
            return Ok(false);
        }
    }
    Ok(true)
}

// A mark that is refused with so many standing.
fn deep(marks: usize) -> Option<Refusal> {
    Some(Refusal {
        number: 12,
        place: marks,
    })
}

#[test]
fn trails(rt: HostRuntime) -> Result<(), Fail> {
    let cases = [
        on_trail(4, 9, 0, 0, 0),
        on_trail(0, 9, 4, 0, 0),
        on_trail(1, 100, 1, 1, 65),
        on_trail(9, 64, 1, 1, 64),
        on_trail(3, 5, 2, 2, 2),
        on_trail(2, 1, 7, 2, 0),
        on_trail(5, 0, 3, 3, 0),
        on_trail(64, 4159, 64, 64, 64),
        on_trail(70, 4161, 64, 64, 65),
        on_trail(256, 2600, 256, 256, 10),
        on_trail(300, 1000, 1000, 256, 3),
    ];
    for case in cases {
        assert!(rt; agrees(rt.alloc(), case, 88172645463325252)?);
    }
    Ok(())
}

#[test]
fn copies(rt: HostRuntime) -> Result<(), Fail> {
    let cases = [
        on_copies(7, 0, 0, 0),
        on_copies(0, 4, 0, 0),
        on_copies(1, 1, 1, 0),
        on_copies(65, 1, 1, 64),
        on_copies(67, 1, 1, 65),
        on_copies(5, 2, 2, 1),
        on_copies(3, 2, 2, 0),
        on_copies(4, 9, 4, 0),
        on_copies(4223, 64, 64, 64),
        on_copies(4300, 64, 64, 65),
        on_copies(1025, 256, 256, 3),
        on_copies(3000, 999, 256, 10),
    ];
    for case in cases {
        assert!(rt; agrees(rt.alloc(), case, 9026712358471235)?);
    }
    Ok(())
}

#[test]
fn third_mark_of_a_trail_over_five_entries(rt: HostRuntime) {
    let mut cells = [Cell { value: 9, stamp: 9 }; 3];
    let mut entries = [Entry {
        cell: 0,
        value: 0,
        stamp: 0,
    }; 5];
    let mut store = Trail::open(&mut cells, &mut entries, 2);
    assert_eq!(rt; store.depth(), 2);
    assert_eq!(rt; marks_end(&mut store, 3), deep(2));
}

#[test]
fn ceiling_below_the_marks_that_stand(rt: HostRuntime) {
    let mut words = [7u64; 9];
    let mut below = Tally::over(Copying::open(&mut words, 2));
    assert!(rt; marks_end(&mut below, 2).is_none());
    let mut store = Ceiling::over(below, 1);
    assert_eq!(rt; marks_end(&mut store, 1), deep(2));
    assert_eq!(rt; store.into_below().accepted().marks, 2);
}

#[test]
fn layers_over_a_trail(rt: HostRuntime) {
    let mut cells = [Cell { value: 9, stamp: 9 }; 3];
    let mut entries = [Entry {
        cell: 0,
        value: 0,
        stamp: 0,
    }; 9];
    let mut store = Tally::over(Ceiling::over(Trail::open(&mut cells, &mut entries, 3), 2));
    assert_eq!(rt; marks_end(&mut store, 3), deep(2));
    assert_eq!(rt; store.accepted().marks, 2);
}
