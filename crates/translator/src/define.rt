// Names that come into force.
ghost use Rattle.std.specs.Prelude.{◌≡◌, ℕ, List, [], ◌∷◌, drop};
ghost use Rattle.lexer.specs.Lexeme.{Lexeme};
ghost use Rattle.lexer.specs.Reading.{lexemes};
ghost use Rattle.meaning.specs.Scopes.{variable};
ghost use Rattle.meaning.specs.Trees.{Ident};
ghost use Rattle.meaning.specs.Types.{declares};
ghost use Rattle.meaning.specs.Written.{ident};
ghost use Rattle.stacks.specs.Held.{seen};
ghost use Rattle.translator.specs.Names.{callee_of, entry_as, fitting, return_of, types_of, Enters, Defines, ListedAs, Declares};

use crate::name::{Callee, Entry, Name};
use crate::scope::{cells_in, defined_here, is_named};
use lookahead::Text;
use meaning::Scalar;
use refusal::{Reason, Refusal};
use stacks::BoundedStack;

// How many cells a script can use.
const CELLS: usize = 64;

// The most cells that a `for` finds in use: it takes two more.
pub(crate) const CELLS_BEFORE_FOR: usize = CELLS - 2;

// One more record, of no name in the source. There is room for the names of every script of so many tokens as are read.
pub(crate) fn enter(names: &mut BoundedStack<Name>, entry: Entry)
    ensures { (s : List ℕ) → Enters s (seen names.old) (entry_as entry []) (seen names.new) }
{
    let _ = names.push(Name {
        entry,
        place: 0,
        length: 0,
    });
}

// The name at `at` comes into force as a variable, untested: the level of a `for` has no other name.
pub(crate) fn bind(text: &Text, at: usize, kind: Scalar, names: &mut BoundedStack<Name>)
    ensures { (s : List ℕ) (x : Ident) (ls : List Lexeme) → drop at (lexemes s text.now.tokens.now) ≡ ident x ∷ ls → Enters s (seen names.old) (variable x.bytes kind) (seen names.new) }
{
    let token = text.token_at(at);
    let _ = names.push(Name {
        entry: Entry::Variable(kind),
        place: token.place,
        length: token.length,
    });
}

// The name at `at` comes into force as a variable, where it is new in its level and there is a cell for it.
pub(crate) fn define(
    text: &Text,
    at: usize,
    kind: Scalar,
    names: &mut BoundedStack<Name>,
) -> Result<(), Refusal>
    ensures { Defines text.now.source.now text.now.tokens.now at kind (seen names.old) (seen names.new) result }
{
    let place = text.token_at(at).place;
    let word = text.bytes_at(at);
    if defined_here(text.source, names, word) {
        return Err(Reason::DuplicateName.at(place));
    }
    if cells_in(names, names.len()) >= CELLS {
        return Err(Reason::TooManyCells.at(place));
    }
    bind(text, at, kind, names);
    Ok(())
}

// Whether a function gives and takes these types.
fn has_types(callee: Callee, gives: Option<Scalar>, takes: Option<Scalar>) -> bool
    ensures { result ≡ fitting (callee_of callee) gives takes }
{
    match (callee, gives, takes) {
        (Callee::Zone, Some(Scalar::Int), Some(Scalar::Int)) => true,
        (Callee::Columns | Callee::Rows | Callee::Main, Some(Scalar::Int), None) => true,
        (Callee::Report, None, Some(Scalar::Int)) => true,
        _ => false,
    }
}

// Whether an extern of that name, result and parameter declares the function.
fn declares(callee: Callee, word: &[u8], gives: Option<Scalar>, takes: Option<Scalar>) -> bool
    ensures { result ≡ declares word.now (return_of gives) (types_of takes) (callee_of callee) }
{
    is_named(callee, word) && has_types(callee, gives, takes)
}

// The function that an extern of that name, result and parameter declares, if there is one.
fn listed(word: &[u8], gives: Option<Scalar>, takes: Option<Scalar>) -> Option<Callee>
    ensures { ListedAs word.now gives takes result }
{
    [Callee::Zone, Callee::Columns, Callee::Rows, Callee::Report]
        .into_iter()
        .find(|callee| declares(*callee, word, gives, takes))
}

// The function that an extern declares comes into force; its name stands at `at`.
pub(crate) fn declare(
    text: &Text,
    at: usize,
    gives: Option<Scalar>,
    takes: Option<Scalar>,
    names: &mut BoundedStack<Name>,
) -> Result<(), Refusal>
    ensures { Declares text.now.source.now text.now.tokens.now at gives takes (seen names.old) (seen names.new) result }
{
    let place = text.token_at(at).place;
    let word = text.bytes_at(at);
    let Some(callee) = listed(word, gives, takes) else {
        return Err(Reason::UnlistedExtern.at(place));
    };
    if defined_here(text.source, names, word) {
        return Err(Reason::DuplicateName.at(place));
    }
    enter(names, Entry::Function(callee));
    Ok(())
}
