ghost use Rattle.std.specs.Prelude.{◌≡◌, ℕ, ◌+◌, ◌<◌, ◌≤◌, slice_index};
ghost use lib.ListN.{length};
ghost use Rattle.model.specs.Reading.{word, long, window_at, do_windows_fit, is_named_once, is_misfit, extent};
ghost use Rattle.model.specs.Scans.{Opens, read_by, named_in};

use crate::entries::Entries;
use crate::fault::ModelFault;
use crate::form::RecordKind;
use bits::Set;

// The number in the first two bytes, the lower first.
pub(crate) fn word(bytes: &[u8]) -> u16
    requires { 2 ≤ length bytes.now }
    ensures { result ≡ word bytes.now 0 }
{
    u16::from_le_bytes([bytes[0], bytes[1]])
}

// The number in the first four bytes, the lowest first.
pub(crate) fn long(bytes: &[u8]) -> u32
    requires { 4 ≤ length bytes.now }
    ensures { result ≡ long bytes.now 0 }
{
    u32::from_le_bytes([bytes[0], bytes[1], bytes[2], bytes[3]])
}

// Whether each of the windows holds a value, and none above 63.
pub(crate) fn windows_fit(windows: &Entries<'_>) -> bool
    requires { windows.now.each ≡ 2 }
    ensures { result ≡ do_windows_fit (read_by window_at windows.now) }
{
    for window in windows.bytes.chunks_exact(2) {
        let low = window[0];
        let high = window[1];
        if low >= high || high > 64 {
            return false;
        }
    }
    true
}

// Whether the first bytes of the entries are variables that are there, and none twice.
pub(crate) fn named_once(entries: &Entries<'_>, variables: usize) -> bool
    requires { variables ≤ 64 }
    ensures { result ≡ is_named_once variables (named_in entries.now) }
{
    let mut seen = Set::empty();
    for entry in entries.bytes.chunks_exact(entries.each) {
        let x = entry[0] as usize;
        if x >= variables || seen.has(x) {
            return false;
        }
        seen = seen.with(x);
    }
    true
}

// Whether the count of the record is beyond its limits, or does not fit the length of its body.
fn misfits(left: &[u8], kind: RecordKind) -> bool
    requires { extent left.now ≤ length left.now }
    ensures { result ≡ is_misfit kind left.now }
{
    let body = word(left) as usize;
    if body == 0 {
        return true;
    }
    let count = left[4];
    count < kind.shape().least || count > 64 || body != kind.length(count)
}

// The kind of the record that `left` begins with, at the offset `at`. The record is there as a whole, and its count fits
// its length.
pub(crate) fn record_at(left: &[u8], at: usize, first: bool) -> Result<RecordKind, ModelFault>
    ensures opens { Opens first at left.now result }
    ensures bytes { (i : ℕ) → slice_index left.now i < 256 }
{
    if left.len() < 4 {
        return Err(ModelFault::Short(at));
    }
    let kind = RecordKind::try_from(word(&left[2..])).map_err(|_| ModelFault::Unknown(at))?;
    if kind.misplaced(first) {
        return Err(ModelFault::Misplaced(at));
    }
    let length = word(left) as usize;
    if left.len() < 4 + length {
        return Err(ModelFault::Short(at));
    }
    if misfits(left, kind) {
        return Err(ModelFault::Misfit(at));
    }
    Ok(kind)
}
