// Looking names up.
ghost use Rattle.std.specs.Prelude.{◌≡◌, ℕ, List, take};
ghost use Rattle.meaning.specs.Scopes.{callee_name, cells, defined_here, same_name};
ghost use Rattle.stacks.specs.Held.{seen};
ghost use Rattle.translator.specs.Names.{callee_of, callable_of, defining, entry_of, scope_of, Finds, FoundAt, VariableAt, CalleeAt};

use crate::name::{Callee, Entry, Name, Variable};
use lookahead::{Text, part};
use refusal::{Reason, Refusal};
use stacks::BoundedStack;

// The bytes of a function's name.
fn callee_name(callee: Callee) -> &'static [u8]
    ensures { result.now ≡ callee_name (callee_of callee) }
{
    match callee {
        Callee::Zone => b"zone",
        Callee::Columns => b"columns",
        Callee::Rows => b"rows",
        Callee::Report => b"report",
        Callee::Main => b"main",
    }
}

// Whether the word is the function's name.
pub(crate) fn is_named(callee: Callee, word: &[u8]) -> bool
    ensures { result ≡ same_name word.now (callee_name (callee_of callee)) }
{
    word == callee_name(callee)
}

// Whether a record defines the name.
fn defines(source: &[u8], name: Name, word: &[u8]) -> bool
    ensures { result ≡ defining word.now (entry_of source.now name) }
{
    match name.entry {
        Entry::Variable(_) => word == part(source, name.place as usize, name.length as usize),
        Entry::Function(callee) => is_named(callee, word),
        Entry::Level | Entry::Stop => false,
    }
}

// The newest record that defines the name, if one does: its place, and what it stands for.
fn find(source: &[u8], names: &BoundedStack<Name>, word: &[u8]) -> Option<(usize, Entry)>
    ensures { Finds source.now (seen names.now).held word.now result }
{
    let records = names.as_slice();
    let newest = records
        .iter()
        .rposition(|name| defines(source, *name, word))?;
    Some((newest, records[newest].entry))
}

// Whether the newest level defines the name.
pub(crate) fn defined_here(source: &[u8], names: &BoundedStack<Name>, word: &[u8]) -> bool
    ensures { result ≡ defined_here word.now (scope_of source.now (seen names.now).held) }
{
    names
        .as_slice()
        .iter()
        .rev()
        .take_while(|name| name.entry != Entry::Level)
        .any(|name| defines(source, *name, word))
}

// How many cells the first `n` records have.
pub(crate) fn cells_in(names: &BoundedStack<Name>, n: usize) -> usize
    ensures { (s : List ℕ) → result ≡ cells (scope_of s (take n (seen names.now).held)) }
{
    names
        .as_slice()
        .iter()
        .take(n)
        .filter(|name| matches!(name.entry, Entry::Variable(_) | Entry::Stop))
        .count()
}

// The newest record that defines the name at `at`: its place, and what it stands for.
fn found_at(text: &Text, at: usize, names: &BoundedStack<Name>) -> Result<(usize, Entry), Refusal>
    ensures { FoundAt text.now.source.now text.now.tokens.now at (seen names.now).held result }
{
    let place = text.token_at(at).place;
    find(text.source, names, text.bytes_at(at)).ok_or(Reason::AbsentName.at(place))
}

// The variable that the name at `at` means.
pub(crate) fn variable_at(
    text: &Text,
    at: usize,
    names: &BoundedStack<Name>,
) -> Result<Variable, Refusal>
    ensures { VariableAt text.now.source.now text.now.tokens.now at (seen names.now).held result }
{
    let (i, entry) = found_at(text, at, names)?;
    match entry {
        Entry::Variable(kind) => Ok(Variable {
            kind,
            cell: cells_in(names, i),
        }),
        _ => Err(Reason::MisusedName.at(text.token_at(at).place)),
    }
}

// The function that a record stands for, if it can be called: main cannot.
fn callable(entry: Entry) -> Option<Callee>
    ensures { result ≡ callable_of entry }
{
    match entry {
        Entry::Function(
            callee @ (Callee::Zone | Callee::Columns | Callee::Rows | Callee::Report),
        ) => Some(callee),
        _ => None,
    }
}

// The function that the called name at `at` means.
pub(crate) fn callee_at(
    text: &Text,
    at: usize,
    names: &BoundedStack<Name>,
) -> Result<Callee, Refusal>
    ensures { CalleeAt text.now.source.now text.now.tokens.now at (seen names.now).held result }
{
    let (_, entry) = found_at(text, at, names)?;
    callable(entry).ok_or(Reason::MisusedName.at(text.token_at(at).place))
}
