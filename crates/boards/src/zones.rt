// Where a board's own zones come from.
ghost use Rattle.std.specs.Prelude.{◌≡◌, ◌==◌, ◌*◌, true, ℕ, List, ℤ, length, slice_get};

use crate::grid::Grid;

// Items that someone else measured, so many of which make a zone.
pub(crate) trait Zones: Drop {
    // How many items make one zone.
    ghost each: { ℕ };

    // How many items there are.
    ghost items: { Self → ℕ };

    // The zones of a grid with so many columns and rows, row by row from the top left.
    ghost zones: { Self → (columns rows : ℕ) → List ℤ };

    // Whether they make the zones of a grid, which then has one at each place.
    fn make(&self, grid: Grid) -> bool
        ensures value { result ≡ (items self.now == each * (grid.columns * grid.rows)) }
        ensures zoned { result ≡ true → length (zones self.now grid.columns grid.rows) ≡ grid.columns * grid.rows };

    // Zone `k` of a grid, from 0.
    fn zone(&self, grid: Grid, k: u32) -> Option<i32>
        ensures { result ≡ slice_get (zones self.now grid.columns grid.rows) k };
}
