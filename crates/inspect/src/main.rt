#![tactic(auto)]

use faults::Fault;
use model::model::Model;
use model::model::calls::Constraint;
use model::values::Term;
use std::io::Read;
use std::{fmt, io};

// The terms as a sum, `1*x0 + -1*x1`.
#[derive(Clone, Copy)]
struct Sum<'a>(&'a [Term]);

impl fmt::Display for Sum<'_> {
    fn fmt<W: fmt::Write>(&self, f: &mut fmt::Formatter<W>) -> fmt::Result {
        for (i, term) in self.0.iter().enumerate() {
            if i > 0 {
                write!(f, " + ")?;
            }
            write!(f, "{}*x{}", term.coefficient, term.variable)?;
        }
        Ok(())
    }
}

// A constraint in words, as `tools/encode` reads them.
#[derive(Clone, Copy)]
struct Words<'a>(Constraint<'a>);

impl fmt::Display for Words<'_> {
    fn fmt<W: fmt::Write>(&self, f: &mut fmt::Formatter<W>) -> fmt::Result {
        match self.0 {
            Constraint::AtMost { bound, terms } => write!(f, "sum {} <= {bound}", Sum(terms)),
            Constraint::Different { variables } => {
                write!(f, "different")?;
                for x in variables {
                    write!(f, " x{x}")?;
                }
                Ok(())
            }
        }
    }
}

fn show(rt: &HostRuntime, model: &Model) -> io::Result<()> {
    let n = model.variables();
    println!(rt; "variables {n}")?;
    for x in 0..n {
        if let Some(window) = model.window(x) {
            println!(rt; "x{x} in {}..{}", window.low, window.high)?;
        }
    }
    for i in 0..model.records() {
        if let Some(constraint) = model.constraint(i) {
            println!(rt; "{}", Words(constraint))?;
        }
    }
    Ok(())
}

// Reads a model from standard input, and shows it in words, or why it is refused.
fn main(rt: HostRuntime) -> io::Result<()> {
    let mut bytes = Vec::new(rt.alloc());
    rt.stdin().read_to_end(&mut bytes)?;
    let mut model = Model::fresh();
    match model.read(bytes.as_slice()) {
        Ok(()) => show(&rt, &model),
        Err(fault) => println!(rt; "refused {} {}: {fault}", fault.number(), fault.place()),
    }
}
