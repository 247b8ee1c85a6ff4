// The statistics board: its zones are lent.
use crate::grid::Grid;
use crate::measured::Measured;
use crate::zones::Zones;

// A board of zones that someone else measured, row by row.
pub type Stats<'a> = Measured<&'a [i32]>;

// Each int is a zone.
impl<'a> Zones for &'a [i32] {
    ghost use Rattle.std.specs.Prelude.{length};

    ghost each = { 1 };

    ghost items = { λ s. length s.now };

    ghost zones = { λ s columns rows. s.now };

    fn make(&self, grid: Grid) -> bool {
        self.len() == grid.count() as usize
    }

    fn zone(&self, _grid: Grid, k: u32) -> Option<i32> {
        self.get(k as usize).copied()
    }
}
