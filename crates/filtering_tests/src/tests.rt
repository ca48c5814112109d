use crate::judge::{Pair, fixpoint};
use crate::sample::{Chance, Rule, Sample, sample_by};
use bank::standard::standard;
use filtering::filter::{Start, filter};
use filtering::list::WaitingList;
use model::model::Model;
use model::values::{Term, Window};
use std::alloc::{AllocError, Global};
use std::process::Abort;
use std::test::Fail;
use stores::copying::Copying;
use stores::store::Store;
use tables::table::{DomainTable, TableFault};
use tables::words::WordTable;

fn pairs_of<T: DomainTable>(
    heap: Global,
    table: &T,
    variables: u8,
) -> Result<Vec<Pair>, AllocError> {
    let mut pairs = Vec::new(heap);
    for variable in 0..variables {
        for value in 0..64u8 {
            if let Ok(true) = table.has(variable as usize, value) {
                pairs.push(Pair { variable, value })?;
            }
        }
    }
    Ok(pairs)
}

// What a table is filtered by: a model, and the judge's rules over so many variables.
#[derive(Drop)]
struct Measure<'a> {
    heap: Global,
    model: &'a Model,
    rules: &'a [Rule],
    variables: u8,
}

impl<'a> Measure<'a> {
    // Filters the table as it is, and compares with the judge. It answers whether there is a filtered table.
    fn agrees<T: DomainTable>(
        &self,
        rt: &impl Abort,
        table: &mut T,
        start: Start,
    ) -> Result<bool, Fail> {
        let before = pairs_of(self.heap, table, self.variables)?;
        let expected = fixpoint(self.heap, &before, self.rules, self.variables)?;
        let marks = table.marks();
        let mut list = WaitingList::new();
        let found = filter(table, self.model, &standard(), &mut list, start)?;
        assert!(rt; list.pop().is_none(), "the list is empty again");
        assert!(rt; table.marks() == marks, "marks");
        match expected {
            Some(left) => {
                assert!(rt; found, "not failed");
                let after = pairs_of(self.heap, table, self.variables)?;
                assert!(rt; after.as_slice() == left.as_slice(), "the filtered table");
            }
            None => {
                assert!(rt; !found, "failed");
            }
        }
        Ok(found)
    }
}

// From the windows, and then twice after a decision on a variable, from the table that is filtered by then.
fn agrees_after_decisions(
    rt: &impl Abort,
    heap: Global,
    sample: &Sample,
    chance: &mut Chance,
) -> Result<(), Fail> {
    let writer = sample.bytes(heap)?;
    let windows = sample.windows.as_slice();
    let mut model = Model::fresh();
    model.read(writer.bytes())?;
    let variables = (windows.len() % 65) as u8;
    let mut words = [9u64; 256];
    let mut table = WordTable::open(&model, Copying::open(&mut words, windows.len()));
    assert!(rt; table.variables() == windows.len());
    let measure = Measure {
        heap,
        model: &model,
        rules: sample.rules.as_slice(),
        variables,
    };
    if !measure.agrees(rt, &mut table, Start::All)? {
        return Ok(());
    }
    for step in 0..4u8 {
        let x = chance.below(variables) as usize;
        let Some(v) = table.greatest(x)? else {
            return Err(Fail::new("a filtered table has no empty domain"));
        };
        let _ = table.mark();
        if step % 2 == 0 {
            let _ = table.drop(x, v)?;
        } else {
            let _ = table.keep(x, v)?;
        }
        if !measure.agrees(rt, &mut table, Start::Changed(x))? {
            return Ok(());
        }
    }
    Ok(())
}

#[test]
fn small_models_by_chance(rt: HostRuntime) -> Result<(), Fail> {
    let heap = rt.alloc();
    let mut chance = Chance {
        state: 88172645463325252,
    };
    for _ in 0..4000u32 {
        let sample = sample_by(heap, &mut chance)?;
        agrees_after_decisions(&rt, heap, &sample, &mut chance)?;
    }
    Ok(())
}

fn at_most(heap: Global, bound: i32, terms: &[Term]) -> Result<Rule, AllocError> {
    Ok(Rule::AtMost {
        bound,
        terms: terms.to_vec(heap)?,
    })
}

fn term(variable: u8, coefficient: i16) -> Term {
    Term {
        variable,
        coefficient,
    }
}

fn one_rule(rt: &impl Abort, heap: Global, windows: &[Window], rule: Rule) -> Result<(), Fail> {
    let mut rules = Vec::new(heap);
    rules.push(rule)?;
    let sample = Sample {
        windows: windows.to_vec(heap)?,
        rules,
    };
    agrees_after_decisions(rt, heap, &sample, &mut Chance { state: 1 })
}

// Bounds and coefficients at the ends of their types, over 64 terms.
#[test]
fn extremes_of_coefficients_and_bounds(rt: HostRuntime) -> Result<(), Fail> {
    let heap = rt.alloc();
    let wide = [Window { low: 0, high: 64 }; 3];
    let many = [Window { low: 62, high: 64 }; 64];
    for bound in [i32::MIN, i32::MIN + 1, -1, 0, 1, i32::MAX - 1, i32::MAX] {
        for coefficient in [i16::MIN, -1, 0, 1, i16::MAX] {
            let mut terms = Vec::new(heap);
            for x in 0..64u8 {
                terms.push(term(x, coefficient))?;
            }
            one_rule(
                &rt,
                heap,
                &wide,
                at_most(
                    heap,
                    bound,
                    &[term(0, coefficient), term(1, i16::MIN), term(2, i16::MAX)],
                )?,
            )?;
            one_rule(&rt, heap, &many, Rule::AtMost { bound, terms })?;
        }
    }
    Ok(())
}

// The first below the second: 0 to 2 each gives {0, 1} and {1, 2}.
#[test]
fn one_below_the_other(rt: HostRuntime) -> Result<(), Fail> {
    let heap = rt.alloc();
    let bytes = [
        5, 0, 1, 0, 2, 0, 3, 0, 3, 11, 0, 2, 0, 2, 255, 255, 255, 255, 0, 1, 0, 1, 255, 255,
    ];
    let mut model = Model::fresh();
    model.read(&bytes)?;
    let mut words = [0u64; 8];
    let mut table = WordTable::open(&model, Copying::open(&mut words, 2));
    let mut list = WaitingList::new();
    assert!(rt; filter(&mut table, &model, &standard(), &mut list, Start::All)?);
    let left = pairs_of(heap, &table, 2)?;
    let expected = [
        Pair {
            variable: 0,
            value: 0,
        },
        Pair {
            variable: 0,
            value: 1,
        },
        Pair {
            variable: 1,
            value: 1,
        },
        Pair {
            variable: 1,
            value: 2,
        },
    ];
    assert!(rt; left.as_slice() == expected.as_slice());
    Ok(())
}

// One pass empties a domain: nothing is below 0, and three variables do not differ in two values.
#[test]
fn a_pass_that_empties_a_domain(rt: HostRuntime) -> Result<(), Fail> {
    let heap = rt.alloc();
    let two = [Window { low: 0, high: 2 }; 3];
    one_rule(&rt, heap, &two, at_most(heap, -1, &[term(1, 1)])?)?;
    one_rule(
        &rt,
        heap,
        &two,
        at_most(heap, -3, &[term(0, -1), term(2, -1)])?,
    )?;
    one_rule(
        &rt,
        heap,
        &[Window { low: 1, high: 2 }; 3],
        Rule::Different {
            variables: [0, 1, 2].to_vec(heap)?,
        },
    )
}
