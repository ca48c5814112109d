// What the opening of the two stores has in common.
ghost use Rattle.std.specs.Prelude.{◌≡◌, ◌/◌};
ghost use Rattle.stores.specs.Rows.{size_for};

use crate::store::MOST_CELLS;

// The size of the row where so many cells are wanted and there are so many places for them.
pub fn row_size(wanted: usize, places: usize) -> usize
    ensures { result ≡ size_for wanted places }
{
    wanted.min(places).min(MOST_CELLS)
}

// How many whole rows so many places hold; none where a row has no cell.
pub fn whole_rows(places: usize, size: usize) -> usize
    ensures { result ≡ places / size }
{
    if size == 0 { 0 } else { places / size }
}
