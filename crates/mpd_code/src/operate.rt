//! What operators make of values.

ghost use Rattle.std.specs.Prelude.{◌≡◌, ◌+ℤ◌, ◌-ℤ◌, ◌*ℤ◌, neg_ℤ, int_div, int_rem};
ghost use Rattle.mpd_model.specs.script.Term.{truth, bounded, division, combined, altered, decided};

use mpd_model::{BinaryOp, Trap, UnaryOp};

/// 1 if it holds, else 0.
fn truth(holds: bool) -> i64
    ensures { result ≡ truth holds }
{
    if holds { 1 } else { 0 }
}

/// The sum.
fn add(left: i64, right: i64) -> Result<i64, Trap>
    ensures { result ≡ bounded (left +ℤ right) }
{
    left.checked_add(right).ok_or(Trap::Overflow)
}

/// The difference.
fn subtract(left: i64, right: i64) -> Result<i64, Trap>
    ensures { result ≡ bounded (left -ℤ right) }
{
    left.checked_sub(right).ok_or(Trap::Overflow)
}

/// The product.
fn multiply(left: i64, right: i64) -> Result<i64, Trap>
    ensures { result ≡ bounded (left *ℤ right) }
{
    left.checked_mul(right).ok_or(Trap::Overflow)
}

/// The quotient, rounded toward zero.
fn divide(left: i64, right: i64) -> Result<i64, Trap>
    ensures { result ≡ division left right (int_div left right) }
{
    if right == 0 {
        return Err(Trap::ZeroDivisor);
    }
    left.checked_div(right).ok_or(Trap::Overflow)
}

/// The remainder, with the sign of the dividend.
fn remainder(left: i64, right: i64) -> Result<i64, Trap>
    ensures { result ≡ division left right (int_rem left right) }
{
    if right == 0 {
        return Err(Trap::ZeroDivisor);
    }
    left.checked_rem(right).ok_or(Trap::Overflow)
}

/// The negative.
fn negate(value: i64) -> Result<i64, Trap>
    ensures { result ≡ bounded (neg_ℤ value) }
{
    value.checked_neg().ok_or(Trap::Overflow)
}

/// What an operator makes of two values, or the trap that it ends in.
#[inline(always)]
pub(crate) fn combine(op: BinaryOp, left: i64, right: i64) -> Result<i64, Trap>
    ensures { result ≡ combined op left right }
{
    match op {
        BinaryOp::Or => Ok(truth(left != 0 || right != 0)),
        BinaryOp::And => Ok(truth(left != 0 && right != 0)),
        BinaryOp::Equal => Ok(truth(left == right)),
        BinaryOp::NotEqual => Ok(truth(left != right)),
        BinaryOp::Less => Ok(truth(left < right)),
        BinaryOp::AtMost => Ok(truth(left <= right)),
        BinaryOp::Greater => Ok(truth(left > right)),
        BinaryOp::AtLeast => Ok(truth(left >= right)),
        BinaryOp::Add => add(left, right),
        BinaryOp::Subtract => subtract(left, right),
        BinaryOp::Multiply => multiply(left, right),
        BinaryOp::Divide => divide(left, right),
        BinaryOp::Remainder => remainder(left, right),
    }
}

/// What an operator makes of one value, or the trap that it ends in.
pub(crate) fn alter(op: UnaryOp, value: i64) -> Result<i64, Trap>
    ensures { result ≡ altered op value }
{
    match op {
        UnaryOp::Negate => negate(value),
        UnaryOp::Not => Ok(truth(value == 0)),
    }
}

/// What the left side of `||` or `&&` decides alone.
pub(crate) fn decide(op: BinaryOp, left: i64) -> Option<i64>
    ensures { result ≡ decided op left }
{
    match op {
        BinaryOp::Or if left != 0 => Some(1),
        BinaryOp::And if left == 0 => Some(0),
        _ => None,
    }
}
