// How lexemes read as scripts.
ghost use Rattle.meaning.specs.Unique.{Unique};

// Lexemes read as at most one script.
pub fn scripts_are_unique()
    ensures { Unique }
{}
