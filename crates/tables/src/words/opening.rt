ghost use Rattle.std.specs.Prelude.{◌≤◌, length};
ghost use Rattle.model.specs.Meaning.{windows};
ghost use Rattle.stores.specs.Rows.{Keeps};
ghost use Rattle.tables.specs.Opening.{Rewound, Filled, Opened};
ghost use Rattle.tables.specs.Words.{Room};

use crate::words::WordTable;
use bits::Set;
use model::model::Model;
use stores::store::Store;

// Restores every mark that stands.
fn rewind<S: Store>(store: &mut S)
    ensures { Keeps S.Store.sound store.old store.new (Rewound (S.Store.rows store.old) (S.Store.rows store.new)) }
{
    let marks = store.marks();
    for _mark in 0..marks {
        let Ok(()) = store.restore() else {
            return;
        };
    }
}

// Writes the windows of the first variables into their cells.
fn fill<S: Store>(store: &mut S, model: &Model, variables: usize)
    ensures { variables ≤ length (windows model.now) → variables ≤ length (S.Store.rows store.old).row → Keeps S.Store.sound store.old store.new (Filled (windows model.now) variables (S.Store.rows store.old) (S.Store.rows store.new)) }
{
    for x in 0..variables {
        let Some(window) = model.window(x) else {
            return;
        };
        let domain = Set::span(usize::from(window.low), usize::from(window.high));
        let Ok(()) = store.write(x, domain.word) else {
            return;
        };
    }
}

impl<S: Store> WordTable<S> {
    // Opens a table of a domain for each variable of the model, as far as the store has cells: its window.
    // Every mark of the store is restored first, and cells past the variables are left alone.
    pub fn open(model: &Model, store: S) -> WordTable<S>
        ensures sound { S.Store.sound store → S.Store.sound result.store × Room result.variables (S.Store.rows result.store) }
        ensures opens { S.Store.sound store → Opened (windows model.now) (S.Store.rows store) result.variables (S.Store.rows result.store) }
    {
        let mut store = store;
        rewind(&mut store);
        let variables = model.variables().min(store.size());
        fill(&mut store, model, variables);
        WordTable { store, variables }
    }
}
