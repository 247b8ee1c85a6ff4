// A board that has zones of its own and keeps its own reports.
ghost use Rattle.std.specs.Prelude.{◌≡◌};
ghost use Rattle.boards.specs.Making.{Made, Means, making_answer, new_board};
ghost use Rattle.boards.specs.Kinds.{measured_meaning};

use crate::board::Board;
use crate::grid::Grid;
use crate::reports::Reports;
use crate::zones::Zones;
use refusal::{Reason, Refusal};

// A board over lent items, whatever a zone is made of.
#[derive(Drop)]
pub struct Measured<Z> {
    grid: Grid,
    zones: Z,
    reports: Reports,
}

impl<Z: Zones> Measured<Z> {
    // The board of these items, with no reports.
    pub fn new(columns: u32, rows: u32, zones: Z, allowance: u32) -> Result<Measured<Z>, Refusal>
        ensures { Made result (making_answer columns rows (Z.items zones) Z.each allowance) (λ s. Means (measured_meaning Z.zones s) (new_board columns rows (Z.zones zones columns rows) allowance)) }
    {
        let grid = Grid::new(columns, rows)?;
        if !zones.make(grid) {
            return Err(Reason::BadDimensions.into());
        }
        let reports = Reports::new(allowance)?;
        Ok(Measured {
            grid,
            zones,
            reports,
        })
    }
}

impl<Z: Zones> Board for Measured<Z> {
    ghost meaning = { measured_meaning Z.zones };

    fn columns(&self) -> u32 {
        u32::from(self.grid.columns)
    }

    fn rows(&self) -> u32 {
        u32::from(self.grid.rows)
    }

    fn zone(&mut self, i: i32) -> Result<i32, Refusal> {
        let k = u32::try_from(i).ok();
        let zone = k.and_then(|k| self.zones.zone(self.grid, k));
        zone.ok_or(Reason::NoSuchZone.into())
    }

    fn report(&mut self, v: i32) -> Result<(), Refusal> {
        self.reports.file(v)
    }

    fn kept(&mut self, k: usize) -> Option<i32> {
        self.reports.kept(k)
    }
}
