// The functions that a script can call.
ghost use Rattle.std.specs.Prelude.{◌≡◌};
ghost use Rattle.meaning.specs.Scopes.{a_function};
ghost use Rattle.meaning.specs.Types.{signature};
ghost use Rattle.layout.proofs.Compiled.{call_code};
ghost use Rattle.machine.specs.Codes.{code_of};
ghost use Rattle.translator.specs.Names.{callee_of, return_of};
ghost use Rattle.translator.specs.Expressions.{takes_int, takes_given};

use crate::name::Callee;
use crate::typed::Given;
use machine::Op;
use meaning::Scalar;

// Whether a function takes an int; it takes nothing otherwise.
fn takes_int(callee: Callee) -> bool
    ensures { result ≡ takes_int callee }
{
    matches!(callee, Callee::Zone | Callee::Report)
}

// Whether a function takes these arguments.
pub(crate) fn takes(callee: Callee, given: Given) -> bool
    ensures { result ≡ takes_given (takes_int callee) given }
{
    match given {
        Given::Nothing => !takes_int(callee),
        Given::One(Scalar::Int) => takes_int(callee),
        Given::One(Scalar::Bool | Scalar::Char) | Given::Many => false,
    }
}

// What a function gives.
pub(crate) fn gives(callee: Callee) -> Option<Scalar>
    ensures { return_of result ≡ (signature (callee_of callee)).result }
{
    match callee {
        Callee::Zone | Callee::Columns | Callee::Rows | Callee::Main => Some(Scalar::Int),
        Callee::Report => None,
    }
}

// The instruction of a call; main is not called.
pub(crate) fn call_op(callee: Callee) -> Op
    ensures { code_of result ≡ call_code (a_function (callee_of callee)) }
{
    match callee {
        Callee::Zone => Op::Zone,
        Callee::Columns => Op::Columns,
        Callee::Rows => Op::Rows,
        Callee::Report => Op::Report,
        Callee::Main => Op::Push,
    }
}
