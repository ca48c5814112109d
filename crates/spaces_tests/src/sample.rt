// Models by their windows and rules, and their bytes.
use model::values::{Term, Window};
use std::alloc::{AllocError, Global};
use trial::{Writer, mixed};

// The variables of the set all differ; or the sum of coefficients times variables, of the first eight, is at most the bound.
#[derive(Clone, Copy, Drop)]
pub enum Rule {
    Different(u64),
    AtMost(i32, [i8; 8]),
}

// So many variables, each with the window 0 to high, and rules.
#[derive(Clone, Copy, Drop)]
pub struct Sample {
    pub variables: u8,
    pub high: u8,
    pub rules: [Rule; 3],
}

fn coefficient(seed: u64, place: u64) -> i8 {
    match (seed >> (place % 8 * 4)) % 16 {
        0 | 1 => 1,
        2 => 2,
        3 => -1,
        4 => -2,
        _ => 0,
    }
}

fn rule_by(seed: u64) -> Rule {
    if seed % 3 == 0 {
        return Rule::Different(seed >> 9);
    }
    let mut coefficients = [0i8; 8];
    for (place, item) in coefficients.iter_mut().enumerate() {
        *item = coefficient(seed >> 8, place as u64);
    }
    Rule::AtMost(((seed >> 50) % 24) as i32 - 6, coefficients)
}

// Up to six variables with up to five values each.
pub fn sample_by(seed: u64) -> Sample {
    let a = mixed(seed);
    let b = mixed(a);
    let c = mixed(b);
    Sample {
        variables: 2 + ((a >> 30) % 5) as u8,
        high: 2 + ((b >> 30) % 4) as u8,
        rules: [rule_by(a), rule_by(b), rule_by(c)],
    }
}

pub fn listed(set: u64, x: u8) -> bool {
    (set >> (x % 64)) & 1 == 1
}

// A rule that lists too few variables is left out.
fn write_rule(
    heap: Global,
    writer: &mut Writer,
    variables: u8,
    rule: Rule,
) -> Result<(), AllocError> {
    match rule {
        Rule::Different(set) => {
            let mut list = Vec::new(heap);
            for x in 0..variables {
                if listed(set, x) {
                    list.push(x)?;
                }
            }
            if list.len() < 2 {
                return Ok(());
            }
            writer.different(&list)
        }
        Rule::AtMost(bound, coefficients) => {
            let mut terms = Vec::new(heap);
            for (x, factor) in coefficients.iter().enumerate().take(variables as usize) {
                if *factor != 0 {
                    terms.push(Term {
                        variable: x as u8,
                        coefficient: i16::from(*factor),
                    })?;
                }
            }
            if terms.is_empty() {
                return Ok(());
            }
            writer.at_most(bound, &terms)
        }
    }
}

pub fn bytes_of(heap: Global, sample: &Sample) -> Result<Writer, AllocError> {
    let window = Window {
        low: 0,
        high: sample.high,
    };
    let windows = vec![in heap; window; sample.variables as usize]?;
    let mut writer = Writer::new(heap);
    writer.windows(&windows)?;
    for rule in sample.rules {
        write_rule(heap, &mut writer, sample.variables, rule)?;
    }
    Ok(writer)
}
