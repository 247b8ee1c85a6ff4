// The mean of one tile of a picture.
ghost use Rattle.std.specs.Prelude.{◌≡◌, ◌+◌, ◌*◌, ◌<◌, ◌≤◌, slice_index};

use crate::grid::Grid;

// The bytes of a tile's side.
const SIDE: usize = 16;

// The bytes of a tile.
pub(crate) const AREA: usize = SIDE * SIDE;

// Tile `number` of the picture that makes a grid.
#[derive(Clone, Copy)]
pub(crate) struct Tile<'a> {
    pub(crate) bytes: &'a [u8],
    pub(crate) grid: Grid,
    pub(crate) number: u32,
    ghost within: { number < grid.columns * grid.rows },
}

impl<'a> Tile<'a> {
    ghost use Rattle.boards.specs.Table.{sum_of};
    ghost use Rattle.boards.specs.Tile.{tile_pixel, tile_sum, tile_mean, line_sum};

    // The mean, the fraction dropped.
    pub(crate) fn mean(&self) -> i32
        ensures { result ≡ tile_mean self.now.bytes.now self.now.grid.columns self.now.number }
    {
        (self.sum() / AREA as u32) as i32
    }

    // The sum of the bytes.
    fn sum(&self) -> u32
        ensures { result ≡ tile_sum self.now.bytes.now self.now.grid.columns self.now.number }
    {
        (0..SIDE as u8).map(|y| u32::from(self.line_sum(y))).sum()
    }

    // The sum of line `y`; bytes past the end count 0.
    fn line_sum(&self, y: u8) -> u16
        ensures { result ≡ line_sum self.now.bytes.now self.now.grid.columns self.now.number y }
    {
        let start = self.line_start(y).min(self.bytes.len());
        let line = self.bytes[start..].iter().take(SIDE);
        line.map(|&byte| u16::from(byte)).sum()
    }

    // Where line `y` begins.
    fn line_start(&self, y: u8) -> usize
        ensures { result ≡ tile_pixel self.now.grid.columns self.now.number y 0 }
    {
        let columns = usize::from(self.grid.columns);
        let number = self.number as usize;
        let line = SIDE * (number / columns) + usize::from(y);
        line * (SIDE * columns) + SIDE * (number % columns)
    }
}
