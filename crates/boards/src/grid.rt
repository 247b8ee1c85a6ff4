// The sides of a board that has zones of its own.
ghost use Rattle.std.specs.Prelude.{◌≡◌, ◌*◌, ◌&&◌, if◌then◌else◌, nat_le, Ok, Err};
ghost use Rattle.refusal.specs.declared.reason.Reason.TheVariants.{BadDimensions};
ghost use Rattle.boards.specs.Making.{sides_fit};

use refusal::Reason;

const MOST_SIDE: u8 = 64;

// How many columns and rows; a side is at most 64, so a byte holds it.
#[derive(Clone, Copy, PartialEq, Eq, Debug)]
pub(crate) struct Grid {
    pub(crate) columns: u8,
    pub(crate) rows: u8,
}

impl Grid {
    // The grid of these sides.
    pub(crate) fn new(columns: u32, rows: u32) -> Result<Grid, Reason>
        ensures { result ≡ (if sides_fit columns rows then Ok (record { columns = columns; rows = rows }) else Err BadDimensions) }
    {
        let columns = side(columns)?;
        let rows = side(rows)?;
        Ok(Grid { columns, rows })
    }

    // How many zones it has.
    pub(crate) fn count(self) -> u32
        ensures { result ≡ self.columns * self.rows }
    {
        u32::from(self.columns) * u32::from(self.rows)
    }
}

// A side, from 1 to 64.
fn side(count: u32) -> Result<u8, Reason>
    ensures { result ≡ (if nat_le 1 count && nat_le count 64 then Ok count else Err BadDimensions) }
{
    match u8::try_from(count) {
        Ok(side @ 1..=MOST_SIDE) => Ok(side),
        _ => Err(Reason::BadDimensions),
    }
}
