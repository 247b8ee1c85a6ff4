// What holds of every succession of calls.
ghost use Rattle.engine.specs.Successions.{SuccessionsAreLawful};

// Whatever is loaded, rewound and run on a new engine, in any order, with refusals among it: each call answers what the log
// says that is kept of the calls, no run is broken, and what is counted is what was carried out.
pub fn successions_are_lawful()
    ensures { SuccessionsAreLawful }
{}
