// Small models by chance, with their bytes.
use model::values::{Term, Window};
use std::alloc::{AllocError, Global};
use trial::{Writer, mixed};

#[derive(Drop)]
pub enum Rule {
    AtMost { bound: i32, terms: Vec<Term> },
    Different { variables: Vec<u8> },
}

#[derive(Drop)]
pub struct Sample {
    pub windows: Vec<Window>,
    pub rules: Vec<Rule>,
}

impl Sample {
    // The model bytes of the sample.
    pub fn bytes(&self, heap: Global) -> Result<Writer, AllocError> {
        let mut writer = Writer::new(heap);
        writer.windows(&self.windows)?;
        for rule in self.rules.iter() {
            match rule {
                Rule::AtMost { bound, terms } => writer.at_most(*bound, terms)?,
                Rule::Different { variables } => writer.different(variables)?,
            }
        }
        Ok(writer)
    }
}

// Numbers by chance.
#[derive(Clone, Copy, Drop)]
pub struct Chance {
    pub state: u64,
}

impl Chance {
    // A number below most, or 0 where most is 0.
    pub fn below(&mut self, most: u8) -> u8 {
        self.state = mixed(self.state);
        if most == 0 {
            return 0;
        }
        ((self.state >> 20) % u64::from(most)) as u8
    }
}

fn window_by(chance: &mut Chance) -> Window {
    let low = chance.below(5);
    let high = low.saturating_add(1).saturating_add(chance.below(6));
    Window { low, high }
}

// Some of the variables, none twice; at least the first.
fn some_variables(
    heap: Global,
    chance: &mut Chance,
    variables: u8,
    fewest: usize,
) -> Result<Vec<u8>, AllocError> {
    let mut chosen = Vec::new(heap);
    for x in 0..variables {
        if chosen.len() < fewest || chance.below(2) == 1 {
            chosen.push(x)?;
        }
    }
    Ok(chosen)
}

fn rule_by(heap: Global, chance: &mut Chance, variables: u8) -> Result<Rule, AllocError> {
    if chance.below(3) == 0 && variables > 1 {
        let listed = some_variables(heap, chance, variables, 2)?;
        return Ok(Rule::Different { variables: listed });
    }
    let mut terms = Vec::new(heap);
    for x in some_variables(heap, chance, variables, 1)?.iter() {
        let coefficient = i16::from(chance.below(9)) - 4;
        terms.push(Term {
            variable: *x,
            coefficient,
        })?;
    }
    let bound = i32::from(chance.below(60)) - 30;
    Ok(Rule::AtMost { bound, terms })
}

pub fn sample_by(heap: Global, chance: &mut Chance) -> Result<Sample, AllocError> {
    let variables = chance.below(5).saturating_add(1);
    let mut windows = Vec::new(heap);
    for _ in 0..variables {
        windows.push(window_by(chance))?;
    }
    let mut rules = Vec::new(heap);
    for _ in 0..chance.below(6) {
        rules.push(rule_by(heap, chance, variables)?)?;
    }
    Ok(Sample { windows, rules })
}
