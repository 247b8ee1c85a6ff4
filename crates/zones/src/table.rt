// A board's zones as a table. A board is asked zone by zone, so these loops count.
use boards::Board;
use std::io;

// One row, from zone `first` on.
fn print_row<B: Board>(rt: &HostRuntime, board: &mut B, first: i32) -> io::Result<()> {
    let columns = i32::try_from(board.columns()).unwrap_or(0);
    for column in 0..columns {
        match board.zone(first.saturating_add(column)) {
            Ok(zone) => print!(rt; "{zone:>5}")?,
            Err(_) => print!(rt; "    -")?,
        }
    }
    println!(rt; "")
}

// Every row.
pub(crate) fn print_table<B: Board>(rt: &HostRuntime, board: &mut B) -> io::Result<()> {
    let columns = i32::try_from(board.columns()).unwrap_or(0);
    let rows = i32::try_from(board.rows()).unwrap_or(0);
    for row in 0..rows {
        print_row(rt, board, row.saturating_mul(columns))?;
    }
    Ok(())
}
