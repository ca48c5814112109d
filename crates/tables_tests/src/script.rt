use std::alloc::{AllocError, Global};
use trial::AnyCall;

// A call that may alter a table.
#[derive(Clone, Copy, Drop)]
pub enum Call {
    Drop(usize, u8),
    Keep(usize, u8),
    Mark,
    Restore,
}

// Any call on so many variables; some name the first variable past them or one far away, and some the first value that is none. More marks
// than restores are in a script, so it often stands at its depth.
impl AnyCall for Call {
    fn any_call(seed: u64, size: usize) -> Call {
        let x = match seed % 61 {
            0 => usize::MAX,
            _ => ((seed >> 8) % (size as u64).saturating_add(1)) as usize,
        };
        let v = match seed % 53 {
            0 => 255,
            1 => 64,
            _ => ((seed >> 40) % 64) as u8,
        };
        match seed % 16 {
            0 | 1 => Call::Mark,
            2 => Call::Restore,
            3 => Call::Keep(x, v),
            _ => Call::Drop(x, v),
        }
    }
}

// Marks up to the depth and past it. Between two marks both ends of the values are dropped twice from the first domain, and of
// the last domain a value is kept that is there, then one that is not, then one of the empty domain. Then it restores down past
// the first mark.
pub fn ladder(heap: Global, variables: usize, depth: usize) -> Result<Vec<Call>, AllocError> {
    let last = variables.saturating_sub(1);
    let mut script = Vec::new(heap);
    for level in 0..depth.saturating_add(2) {
        let v = (level % 64) as u8;
        script.push(Call::Mark)?;
        script.push(Call::Drop(0, v))?;
        script.push(Call::Drop(0, 63 - v))?;
        script.push(Call::Drop(0, v))?;
        script.push(Call::Keep(last, v))?;
        script.push(Call::Keep(last, v))?;
        script.push(Call::Keep(last, 63))?;
        script.push(Call::Keep(last, 0))?;
        script.push(Call::Drop(last, 0))?;
    }
    for _ in 0..depth.saturating_add(2) {
        script.push(Call::Restore)?;
        script.push(Call::Keep(last, 63))?;
    }
    Ok(script)
}
