// A part of a board.
ghost use Rattle.std.specs.Prelude.{◌≡◌, ◌*◌, ◌<◌};
ghost use Rattle.refusal.specs.Told.{told};
ghost use Rattle.boards.specs.Meaning.{index_answer};
ghost use Rattle.boards.specs.Crop.{place_of, numbered, lies_in, joined_answer, CropOfCrop};

use refusal::{Reason, Refusal};
use std::fmt;

// Where a part begins, and its sides.
#[derive(Clone, Copy, PartialEq, Eq, Debug)]
pub struct Window {
    pub left: u32,
    pub top: u32,
    pub columns: u32,
    pub rows: u32,
}

impl Window {
    // Whether it has no side under 1 and does not reach outside so many columns and rows.
    pub fn lies_in(self, columns: u32, rows: u32) -> bool
        ensures { result ≡ lies_in self columns rows }
    {
        self.columns >= 1
            && self.rows >= 1
            && u64::from(self.left) + u64::from(self.columns) <= u64::from(columns)
            && u64::from(self.top) + u64::from(self.rows) <= u64::from(rows)
    }

    // This part of what `outer` shows, as a part of the board itself; nothing where an offset is too large.
    pub fn through(self, outer: Window) -> Option<Window>
        ensures answer { result ≡ joined_answer outer self }
        ensures law { CropOfCrop outer self }
    {
        let left = outer.left.checked_add(self.left)?;
        let top = outer.top.checked_add(self.top)?;
        Some(Window {
            left,
            top,
            columns: self.columns,
            rows: self.rows,
        })
    }

    // How many zones it shows.
    pub(crate) fn count(self) -> u64
        ensures { result ≡ self.columns * self.rows }
    {
        u64::from(self.columns) * u64::from(self.rows)
    }

    // `i` as the index of one of its zones.
    pub(crate) fn index(self, i: i32) -> Result<u32, Refusal>
        ensures { told result ≡ index_answer (self.columns * self.rows) i }
    {
        let index = u32::try_from(i).ok();
        let index = index.filter(|&k| u64::from(k) < self.count());
        index.ok_or(Reason::NoSuchZone.into())
    }

    // The place of its zone `k` on a board with `across` columns, where an int can number it.
    pub(crate) fn place(self, across: u32, k: u32) -> Option<i32>
        requires { 0 < self.columns }
        ensures { result ≡ numbered (place_of self across k) }
    {
        let row = u64::from(self.top) + u64::from(k / self.columns);
        let start = row
            .saturating_mul(u64::from(across))
            .saturating_add(u64::from(self.left));
        let place = start.saturating_add(u64::from(k % self.columns));
        i32::try_from(place).ok()
    }
}

// Its sides, and where it begins.
impl fmt::Display for Window {
    ghost use Rattle.std.specs.Prelude.{Some};
    ghost use Rattle.boards.specs.Crop.{text_of};

    ghost output = { λ window. Some (text_of window) };

    fn fmt<W: fmt::Write>(&self, f: &mut fmt::Formatter<W>) -> fmt::Result {
        let Window {
            left,
            top,
            columns,
            rows,
        } = *self;
        write!(f, "{columns} x {rows} at ({left}, {top})")
    }
}
