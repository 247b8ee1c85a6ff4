// What C calls: the engine's check of a source under its name in C. A crate of its own, since a static library exports only
// what stands in it, and is no library for other crates.
#![tactic(auto)]

ghost use Rattle.translator.specs.Translation.{OneAnswer};
ghost use Rattle.engine.specs.Checked.{Checked};

// Whether a source would be loaded: 0, or the number of its refusal times 65,536 and the place.
#[unsafe(no_mangle)]
pub extern "C" fn fennec_check(source: &[u8]) -> u32
    ensures answer { Checked source.now result }
    ensures only { OneAnswer }
{
    engine::fennec_check(source)
}
