use crate::memory::{Case, Given};
use crate::sample::{Rule, Sample, bytes_of, sample_by};
use model::model::Model;
use std::alloc::Global;
use std::process::Abort;
use std::test::Fail;
use trial::{Over, mixed};

fn agrees(rt: &impl Abort, heap: Global, sample: Sample, case: Case) -> Result<(), Fail> {
    let writer = bytes_of(heap, &sample)?;
    let mut model = Model::fresh();
    model.read(writer.bytes())?;
    let given = Given {
        heap,
        model: &model,
        sample,
    };
    for (over, name) in [
        (Over::Trail, "trail"),
        (Over::Copies, "copies"),
        (Over::Layers, "layers"),
    ] {
        assert!(rt; case.agrees(given, over)?, "{name}");
    }
    Ok(())
}

fn case(cells: usize, depth: usize) -> Case {
    Case {
        cells,
        depth,
        marks: 0,
        emptied: None,
        seed: 88172645463325252,
        steps: 300,
    }
}

// Models by chance, over memory that is deep enough and memory that is not.
#[test]
fn scripts_by_chance(rt: HostRuntime) -> Result<(), Fail> {
    let heap = rt.alloc();
    let mut seed = 4101842887655102017u64;
    for round in 0..60u8 {
        seed = mixed(seed);
        let sample = sample_by(seed);
        let depth = if round % 4 == 0 { 3 } else { 65 };
        let one = Case {
            seed: seed | 1,
            ..case(sample.variables as usize, depth)
        };
        agrees(&rt, heap, sample, one)?;
    }
    Ok(())
}

// Sixty-four takes stand, one for each variable.
#[test]
fn a_chain_of_sixty_four_takes(rt: HostRuntime) -> Result<(), Fail> {
    let heap = rt.alloc();
    let none = Rule::Different(0);
    let sample = Sample {
        variables: 64,
        high: 3,
        rules: [none, Rule::Different(3), none],
    };
    for depth in [65, 64, 20] {
        let one = Case {
            steps: 40,
            ..case(64, depth)
        };
        agrees(&rt, heap, sample, one)?;
    }
    Ok(())
}

// An empty domain, fewer variables than the model, marks that stand, and tables that hold no mark or one.
#[test]
fn bases_of_every_kind(rt: HostRuntime) -> Result<(), Fail> {
    let heap = rt.alloc();
    let sample = sample_by(362436069);
    let variables = sample.variables as usize;
    for depth in [0, 1, 2, 9] {
        agrees(&rt, heap, sample, case(variables, depth))?;
        agrees(&rt, heap, sample, case(variables.saturating_sub(1), depth))?;
        agrees(&rt, heap, sample, case(variables.saturating_add(3), depth))?;
        let emptied = Case {
            emptied: Some(1),
            ..case(variables, depth)
        };
        agrees(&rt, heap, sample, emptied)?;
        let marked = Case {
            marks: 2,
            ..case(variables, depth)
        };
        agrees(&rt, heap, sample, marked)?;
    }
    Ok(())
}
