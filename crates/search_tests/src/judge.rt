// The nodes of a search tree as a plain list, and what calls with a budget answer from a place in it.
use search::search::Answer;
use std::alloc::{AllocError, Global};

// The longest plan of these tests.
pub const MOST: usize = 8;

#[derive(Drop)]
pub struct Judge {
    // the plan that each node is, if it is one
    nodes: Vec<Option<[u8; MOST]>>,
    // how many nodes were counted since the session began
    pub counted: usize,
}

impl Judge {
    pub fn new(heap: Global) -> Judge {
        Judge {
            nodes: Vec::new(heap),
            counted: 0,
        }
    }

    pub fn learns(&mut self, plan: Option<[u8; MOST]>) -> Result<(), AllocError> {
        self.nodes.push(plan)?;
        Ok(())
    }

    pub fn nodes(&self) -> usize {
        self.nodes.len()
    }

    // The answer to a call, and the plan that it gives. The nodes counted are counted on.
    pub fn next(&mut self, budget: u64) -> (Answer, Option<[u8; MOST]>) {
        let mut count = 0u64;
        for _ in 0..budget {
            let Some(plan) = self.nodes.get(self.counted) else {
                return (Answer::Done(count), None);
            };
            self.counted = self.counted.saturating_add(1);
            count = count.saturating_add(1);
            if plan.is_some() {
                return (Answer::Plan(count), *plan);
            }
        }
        if self.counted >= self.nodes.len() {
            (Answer::Done(count), None)
        } else {
            (Answer::Spent(count), None)
        }
    }
}
