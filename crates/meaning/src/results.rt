// The types that operators give.
ghost use Rattle.std.specs.Prelude.{◌≡◌};
ghost use Rattle.meaning.specs.Types.{result_of};

use crate::operator::{Operator, Scalar};

// For each operator, the type that it gives at two operands of type bool, char and int, where it takes them.
const RESULTS: [[Option<Scalar>; 3]; 13] = [
    [None, Some(Scalar::Char), Some(Scalar::Int)], // +
    [None, Some(Scalar::Char), Some(Scalar::Int)], // -
    [None, Some(Scalar::Char), Some(Scalar::Int)], // *
    [None, Some(Scalar::Char), Some(Scalar::Int)], // /
    [None, Some(Scalar::Char), Some(Scalar::Int)], // %
    [None, Some(Scalar::Bool), Some(Scalar::Bool)], // <
    [None, Some(Scalar::Bool), Some(Scalar::Bool)], // <=
    [None, Some(Scalar::Bool), Some(Scalar::Bool)], // >
    [None, Some(Scalar::Bool), Some(Scalar::Bool)], // >=
    [Some(Scalar::Bool), Some(Scalar::Bool), Some(Scalar::Bool)], // ==
    [Some(Scalar::Bool), Some(Scalar::Bool), Some(Scalar::Bool)], // !=
    [Some(Scalar::Bool), None, None], // &&
    [Some(Scalar::Bool), None, None], // ||
];

// The type that `operator` gives at operands of these types, or nothing where it does not take them.
pub fn result_type(operator: Operator, left: Scalar, right: Scalar) -> Option<Scalar>
    ensures { result ≡ result_of operator left right }
{
    if left != right {
        return None;
    }
    RESULTS[operator as usize][left as usize]
}
