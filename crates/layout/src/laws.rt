// What holds of the code of scripts.
ghost use Rattle.layout.specs.Faithful.{EveryScriptHasFaithfulCode};

// Every script that passes the check, no deeper than 32, has code that does what the script means, of at most four
// instructions a token.
pub fn scripts_have_faithful_code()
    ensures { EveryScriptHasFaithfulCode }
{}
