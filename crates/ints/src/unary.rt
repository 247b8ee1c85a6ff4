// Operators of one number.
ghost use Rattle.std.specs.Prelude.{◌≡◌, pos};
ghost use Rattle.std.specs.Int.{int_wrap, w32};
ghost use Rattle.ints.specs.Arith.{changed};

use crate::operator::Unary;

// The result of `op v`.
pub fn change(op: Unary, v: i32) -> i32
    ensures { result ≡ changed op v }
{
    match op {
        Unary::Low => i32::from((v.rem_euclid(256) as u8).cast_signed()),
        Unary::Not => i32::from(v == 0),
    }
}

// The number with the same 32 bits.
pub fn signed(x: u32) -> i32
    ensures { result ≡ int_wrap w32 (pos x) }
{
    x.cast_signed()
}
