// Operators of two numbers.
ghost use Rattle.std.specs.Prelude.{◌≡◌};
ghost use Rattle.std.specs.Int.{w32};
ghost use Rattle.ints.specs.Arith.{compute};

use crate::operator::Operator;

// The result of `l op r`: sums, differences and products wrap, a quotient drops its fraction,
// a remainder has the sign of `l`, a comparison gives 1 or 0. There is none by a divisor of 0.
pub fn apply(op: Operator, l: i32, r: i32) -> Option<i32>
    ensures { result ≡ compute w32 op l r }
{
    match op {
        Operator::Add => Some(l.wrapping_add(r)),
        Operator::Sub => Some(l.wrapping_sub(r)),
        Operator::Mul => Some(l.wrapping_mul(r)),
        Operator::Less => Some(i32::from(l < r)),
        Operator::Greater => Some(i32::from(l > r)),
        Operator::Equal => Some(i32::from(l == r)),
        Operator::Div if r != 0 => Some(l.wrapping_div(r)),
        Operator::Rem if r != 0 => Some(l.wrapping_rem(r)),
        Operator::Div | Operator::Rem => None,
    }
}
