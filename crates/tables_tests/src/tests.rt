use crate::opened::{Case, Run};
use crate::script::ladder;
use model::model::Model;
use model::values::Window;
use std::alloc::Global;
use std::process::Abort;
use std::test::Fail;
use trial::{Over, Writer, any_calls};

fn window(low: u8, high: u8) -> Window {
    Window { low, high }
}

fn case(cells: usize, depth: usize, most: usize) -> Case {
    Case { cells, depth, most }
}

// Runs two scripts over each kind of store.
fn agrees(rt: &impl Abort, heap: Global, windows: &[Window], case: Case) -> Result<(), Fail> {
    let mut writer = Writer::new(heap);
    writer.windows(windows)?;
    let mut model = Model::fresh();
    model.read(writer.bytes())?;
    let variables = windows.len().min(case.cells);
    let calls = any_calls(heap, 88172645463325252, variables, 600)?;
    let steps = ladder(heap, variables, case.depth)?;
    for script in [&calls, &steps] {
        let run = Run {
            heap,
            model: &model,
            windows,
            script,
        };
        for over in [Over::Trail, Over::Copies, Over::Layers] {
            assert!(rt; run.agrees(case, over)?, "{over:?}");
        }
    }
    Ok(())
}

#[test]
fn windows_at_both_ends(rt: HostRuntime) -> Result<(), Fail> {
    let heap = rt.alloc();
    agrees(&rt, heap, &[window(63, 64)], case(1, 3, 2))?;
    agrees(&rt, heap, &[window(0, 1)], case(1, 65, 70))?;
    agrees(&rt, heap, &[window(0, 64)], case(4, 1, 0))?;
    agrees(
        &rt,
        heap,
        &[window(0, 64), window(0, 1), window(63, 64), window(0, 64)],
        case(4, 4, 2),
    )
}

#[test]
fn cells_more_and_fewer_than_variables(rt: HostRuntime) -> Result<(), Fail> {
    let heap = rt.alloc();
    let windows = [
        window(0, 64),
        window(31, 33),
        window(5, 20),
        window(60, 64),
        window(0, 3),
    ];
    for cells in [0, 1, 4, 5, 6, 256] {
        agrees(&rt, heap, &windows, case(cells, 3, 2))?;
    }
    agrees(&rt, heap, &windows, case(5, 0, 9))?;
    agrees(&rt, heap, &windows, case(5, 65, 9))
}

#[test]
fn sixty_four_variables(rt: HostRuntime) -> Result<(), Fail> {
    let heap = rt.alloc();
    agrees(&rt, heap, &[window(58, 64); 64], case(64, 2, 1))?;
    agrees(&rt, heap, &[window(0, 2); 64], case(70, 5, 3))
}
