// The frame board: its zones are the means of the tiles of a picture.
use crate::grid::Grid;
use crate::measured::Measured;
use crate::tile::{AREA, Tile};
use crate::zones::Zones;

// A board over the bytes of a picture, in lines of 16 bytes for each column.
pub type Frame<'a> = Measured<&'a [u8]>;

// Each tile of bytes makes a zone.
impl<'a> Zones for &'a [u8] {
    ghost use Rattle.std.specs.Prelude.{length};
    ghost use Rattle.boards.specs.Tile.{frame_zones};

    ghost each = { 256 };

    ghost items = { λ s. length s.now };

    ghost zones = { λ s. frame_zones s.now };

    fn make(&self, grid: Grid) -> bool {
        self.len() == AREA * grid.count() as usize
    }

    fn zone(&self, grid: Grid, k: u32) -> Option<i32> {
        if k >= grid.count() {
            return None;
        }
        let tile = Tile {
            bytes: *self,
            grid,
            number: k,
        };
        Some(tile.mean())
    }
}
