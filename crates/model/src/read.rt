ghost use Rattle.std.specs.Prelude.{◌≡◌, ℕ, ◌<◌, true, false, slice_index};
ghost use Rattle.model.specs.Drafted.{drafted};
ghost use Rattle.model.specs.Reading.{nothing};
ghost use Rattle.model.specs.Scans.{ReadsRecord, ReadsBytes};

use crate::draft::Draft;
use crate::entries::Entries;
use crate::fault::ModelFault;
use crate::fill::fill;
use crate::scan::{named_once, record_at, windows_fit, word};

// The first record: the windows. Answers how many bytes it has.
fn read_windows(draft: &mut Draft, bytes: &[u8]) -> Result<usize, ModelFault>
    requires { drafted draft.old ≡ nothing }
    ensures reads { ReadsRecord true 0 bytes.now draft.old draft.new result }
    ensures bytes { (i : ℕ) → slice_index bytes.now i < 256 }
{
    let kind = record_at(bytes, 0, true)?;
    let windows = Entries::of(bytes, kind);
    if !windows_fit(&windows) {
        return Err(ModelFault::Window(0));
    }
    fill(&mut draft.windows, &windows);
    Ok(4 + word(bytes) as usize)
}

// The constraint record that `left` begins with, at the offset `at`. Answers how many bytes it has.
fn read_constraint(draft: &mut Draft, left: &[u8], at: usize) -> Result<usize, ModelFault>
    ensures { ReadsRecord false at left.now draft.old draft.new result }
{
    let kind = record_at(left, at, false)?;
    let entries = Entries::of(left, kind);
    if !draft.has_room(entries.count) {
        return Err(ModelFault::Crowded(at));
    }
    if !named_once(&entries, draft.windows.len()) {
        return Err(ModelFault::Variable(at));
    }
    draft.add(left, kind, &entries);
    Ok(4 + word(left) as usize)
}

// What the bytes hold, or the first fault.
pub(crate) fn draft_of(bytes: &[u8]) -> Result<Draft, ModelFault>
    ensures { ReadsBytes bytes.now result }
{
    let mut draft = Draft::empty();
    let mut at = read_windows(&mut draft, bytes)?;
    while at < bytes.len() {
        at += read_constraint(&mut draft, &bytes[at..], at)?;
    }
    Ok(draft)
}
