// Reports: filed until one is refused, and what was kept.
use boards::Board;
use std::io;

// Files the zones one after another until a report is refused, or no zone is left.
pub(crate) fn file_zones<B: Board>(rt: &HostRuntime, board: &mut B) -> io::Result<()> {
    // Each turn needs the board itself, so no iterator over its zones can hold it.
    for i in 0..i32::MAX {
        let Ok(zone) = board.zone(i) else {
            break;
        };
        match board.report(zone) {
            Ok(()) => println!(rt; "report {zone}: taken")?,
            Err(refusal) => {
                let reason = refusal.reason;
                return println!(rt; "report {zone}: refused {reason}");
            }
        }
    }
    Ok(())
}

// Every report that the board kept.
pub(crate) fn print_kept<B: Board>(rt: &HostRuntime, board: &mut B) -> io::Result<()> {
    let kept = (0..usize::MAX).map_while(|k| board.kept(k));
    for (k, report) in kept.enumerate() {
        println!(rt; "  {k}: {report}")?;
    }
    Ok(())
}
