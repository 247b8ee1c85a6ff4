// What holds of every script and every run: each function's contract is a theorem about the definitions in specs/.
ghost use Rattle.meaning.specs.Known.{KnownResults};
ghost use Rattle.meaning.specs.Laws.{MoreTicksChangeNothing, WaitingSpendsAll, CheckedNeverStuck, ReportsOnlyGrow};

// How ticks, reports and the check bear on a script's run..
pub fn laws_of_runs()
    ensures more_ticks { MoreTicksChangeNothing }
    ensures waiting { WaitingSpendsAll }
    ensures checked { CheckedNeverStuck }
    ensures reports { ReportsOnlyGrow }
{}

// Nine scripts, from their bytes to their results.
pub fn known_results()
    ensures { KnownResults }
{}
