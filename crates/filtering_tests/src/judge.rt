// The rules of the kinds, value by value over lists of values: slow, and not as the solver goes about it.
use crate::sample::Rule;
use std::alloc::{AllocError, Global};

// A value that is in the domain of a variable.
#[derive(Clone, Copy, PartialEq, Eq, Debug, Drop)]
pub struct Pair {
    pub variable: u8,
    pub value: u8,
}

fn size_of(pairs: &[Pair], x: u8) -> usize {
    pairs.iter().filter(|pair| pair.variable == x).count()
}

// The lowest that the coefficient times a value of x can be.
fn lowest(pairs: &[Pair], x: u8, coefficient: i64) -> i64 {
    let mut low: i64 = i64::MAX;
    for pair in pairs {
        if pair.variable == x {
            low = low.min(coefficient.saturating_mul(i64::from(pair.value)));
        }
    }
    low
}

// Whether the rule can keep the pair: each other variable is taken at its best.
fn supported(pairs: &[Pair], rule: &Rule, pair: Pair) -> bool {
    match rule {
        Rule::AtMost { bound, terms } => {
            let mut sum: i64 = 0;
            let mut listed = false;
            for term in terms.iter() {
                if term.variable == pair.variable {
                    listed = true;
                    sum = sum.saturating_add(i64::from(term.coefficient).saturating_mul(i64::from(
                        pair.value,
                    )));
                } else {
                    sum = sum.saturating_add(lowest(
                        pairs,
                        term.variable,
                        i64::from(term.coefficient),
                    ));
                }
            }
            !listed || sum <= i64::from(*bound)
        }
        Rule::Different { variables } => {
            if !variables.contains(&pair.variable) {
                return true;
            }
            for x in variables.iter() {
                let other = Pair {
                    variable: *x,
                    value: pair.value,
                };
                if *x != pair.variable && size_of(pairs, *x) == 1 && pairs.contains(&other) {
                    return false;
                }
            }
            true
        }
    }
}

fn all_support(pairs: &[Pair], rules: &[Rule], pair: Pair) -> bool {
    rules.iter().all(|rule| supported(pairs, rule, pair))
}

fn all_filled(pairs: &[Pair], variables: u8) -> bool {
    (0..variables).all(|x| size_of(pairs, x) > 0)
}

// The filtered table, or none where the table has failed.
pub fn fixpoint(
    heap: Global,
    pairs: &[Pair],
    rules: &[Rule],
    variables: u8,
) -> Result<Option<Vec<Pair>>, AllocError> {
    let mut left = pairs.to_vec(heap)?;
    for _ in 0..pairs.len().saturating_add(1) {
        if !all_filled(&left, variables) {
            return Ok(None);
        }
        let mut kept = Vec::new(heap);
        for pair in left.iter() {
            if all_support(&left, rules, *pair) {
                kept.push(*pair)?;
            }
        }
        if kept.len() == left.len() {
            return Ok(Some(left));
        }
        left = kept;
    }
    Ok(Some(left))
}
