use std::alloc::{AllocError, Global};
use trial::AnyCall;

// A call that may alter a store.
#[derive(Clone, Copy, Drop)]
pub enum Call {
    Write(usize, u64),
    Mark,
    Restore,
}

// Any call on a row of so many cells; some name the first cell past it, and some a cell far away. Far more marks than restores are in a script,
// so it often stands at its depth.
impl AnyCall for Call {
    fn any_call(seed: u64, size: usize) -> Call {
        let cell = match seed % 61 {
            0 => usize::MAX,
            _ => ((seed >> 8) % (size as u64).saturating_add(1)) as usize,
        };
        match seed % 8 {
            0 | 1 => Call::Mark,
            2 => Call::Restore,
            _ => Call::Write(cell, seed >> 20),
        }
    }
}

// Marks up to the depth and past it, with the same cells written twice at each level, and then restores down past the last.
pub fn ladder(heap: Global, size: usize, depth: usize) -> Result<Vec<Call>, AllocError> {
    let last = size.saturating_sub(1);
    let mut script = Vec::new(heap);
    for level in 0..depth.saturating_add(2) {
        let value = level as u64;
        script.push(Call::Write(0, value))?;
        script.push(Call::Write(last, !value))?;
        script.push(Call::Write(0, value ^ 7))?;
        script.push(Call::Mark)?;
    }
    for _ in 0..depth.saturating_add(2) {
        script.push(Call::Restore)?;
        script.push(Call::Write(last, 5))?;
    }
    Ok(script)
}
