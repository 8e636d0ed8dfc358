//! Whole numbers: the exact quotient, rounded down, and values that are made of exact numbers.

ghost use Rattle.std.specs.Prelude.{◌≡◌, ◌≢◌, ℤ, neg_ℤ, ◌+ℤ◌, ◌-ℤ◌, ◌*ℤ◌, ◌<ℤ◌, pos, [], ◌∷◌, MatchOption};
ghost use Rattle.gm_model.specs.Expressions.{IsMade, floor};
ghost use Rattle.gm_model.specs.declared.value.Kind.TheVariants.{Int, Vec2, Vec3, Rgb};
ghost use Rattle.gm_eval.specs.inner.Made.{IsExact, IsNone};

use gm_model::Value;

/// The greatest whole number not above the quotient, where it is in the range of 64 bits.
#[inline(always)]
pub(crate) fn quotient(number: i64, divisor: i64) -> Option<i64>
    requires divisor { divisor ≢ pos 0 }
    ensures { IsExact result (floor number divisor) }
{
    if divisor > 0 {
        Some(quotient_by_positive(number, divisor))
    } else {
        quotient_by_negative(number, divisor)
    }
}

/// The greatest whole number not above the quotient by a positive number. It is always in range.
// A processor divides many times as slowly as it shifts.
#[inline(always)]
fn quotient_by_positive(number: i64, divisor: i64) -> i64
    requires divisor { pos 0 <ℤ divisor }
    ensures { result ≡ floor number divisor }
{
    let bits = divisor.trailing_zeros() % 64;
    if divisor as u64 == 1 << bits {
        number >> bits
    } else {
        quotient_by_division(number, divisor)
    }
}

/// The same by a division, which takes a processor half the time or less where both numbers are
/// short. By a positive divisor the remainder of Euclid's quotient has the divisor's sign.
#[inline(never)]
fn quotient_by_division(number: i64, divisor: i64) -> i64
    requires divisor { pos 0 <ℤ divisor }
    ensures { result ≡ floor number divisor }
{
    if let (Ok(short), Ok(by)) = (i32::try_from(number), i32::try_from(divisor)) {
        short.div_euclid(by) as i64
    } else {
        number.div_euclid(divisor)
    }
}

/// The greatest whole number not above the quotient by a negative number, where it is in the range of
/// 64 bits.
#[inline(never)]
fn quotient_by_negative(number: i64, divisor: i64) -> Option<i64>
    requires divisor { divisor <ℤ pos 0 }
    ensures { IsExact result (floor number divisor) }
{
    narrowed((-(number as i128)).div_euclid(-(divisor as i128)))
}

/// The number, where it is in the range of 64 bits.
fn narrowed(x: i128) -> Option<i64>
    ensures { IsExact result x }
{
    i64::try_from(x).ok()
}

/// What the quotient leaves.
pub(crate) fn remainder(number: i64, divisor: i64) -> i128
    requires divisor { divisor ≢ pos 0 }
    ensures { result ≡ number -ℤ (divisor *ℤ floor number divisor) }
{
    if divisor > 0 {
        number as i128 - product(divisor, quotient_by_positive(number, divisor))
    } else {
        -(-(number as i128)).rem_euclid(-(divisor as i128))
    }
}

/// The exact negation.
pub(crate) fn opposite(number: i64) -> i128
    ensures { result ≡ neg_ℤ number }
{
    -(number as i128)
}

/// The sum, where it is in the range of 64 bits.
#[inline(always)]
pub(crate) fn sum(left: i64, right: i64) -> Option<i64>
    ensures { IsExact result (left +ℤ right) }
{
    left.checked_add(right)
}

/// The difference, where it is in the range of 64 bits.
#[inline(always)]
pub(crate) fn difference(left: i64, right: i64) -> Option<i64>
    ensures { IsExact result (left -ℤ right) }
{
    left.checked_sub(right)
}

/// The exact product.
pub(crate) fn product(left: i64, right: i64) -> i128
    ensures { result ≡ left *ℤ right }
{
    left as i128 * right as i128
}

/// A number, where there is one.
#[inline(always)]
pub(crate) fn int_of(x: Option<i64>) -> Option<Value>
    ensures { (a : ℤ) → IsExact x a → MatchOption result (IsNone (IsMade Int (a ∷ []))) (IsMade Int (a ∷ [])) }
{
    Some(Value::Int(x?))
}

/// A vector of two numbers, where there are both.
#[inline(always)]
pub(crate) fn vec2_of(x: Option<i64>, y: Option<i64>) -> Option<Value>
    ensures { (a b : ℤ) → IsExact x a → IsExact y b → MatchOption result (IsNone (IsMade Vec2 (a ∷ b ∷ []))) (IsMade Vec2 (a ∷ b ∷ [])) }
{
    Some(Value::Vec2(x?, y?))
}

/// A vector of three numbers, where there are all.
#[inline(always)]
pub(crate) fn vec3_of(x: Option<i64>, y: Option<i64>, z: Option<i64>) -> Option<Value>
    ensures { (a b c : ℤ) → IsExact x a → IsExact y b → IsExact z c → MatchOption result (IsNone (IsMade Vec3 (a ∷ b ∷ c ∷ []))) (IsMade Vec3 (a ∷ b ∷ c ∷ [])) }
{
    Some(Value::Vec3(x?, y?, z?))
}

/// A number, where it is in its range.
pub(crate) fn int(x: i128) -> Option<Value>
    ensures { MatchOption result (IsNone (IsMade Int (x ∷ []))) (IsMade Int (x ∷ [])) }
{
    int_of(narrowed(x))
}

/// A vector of two numbers, where both are in their range.
pub(crate) fn vec2(x: i128, y: i128) -> Option<Value>
    ensures { MatchOption result (IsNone (IsMade Vec2 (x ∷ y ∷ []))) (IsMade Vec2 (x ∷ y ∷ [])) }
{
    vec2_of(narrowed(x), narrowed(y))
}

/// A vector of three numbers, where all are in their range.
pub(crate) fn vec3(x: i128, y: i128, z: i128) -> Option<Value>
    ensures { MatchOption result (IsNone (IsMade Vec3 (x ∷ y ∷ z ∷ []))) (IsMade Vec3 (x ∷ y ∷ z ∷ [])) }
{
    vec3_of(narrowed(x), narrowed(y), narrowed(z))
}

/// A colour, where its parts are in their range.
pub(crate) fn rgb(red: i64, green: i64, blue: i64) -> Option<Value>
    ensures { MatchOption result (IsNone (IsMade Rgb (red ∷ green ∷ blue ∷ []))) (IsMade Rgb (red ∷ green ∷ blue ∷ [])) }
{
    Some(Value::Rgb(
        u8::try_from(red).ok()?,
        u8::try_from(green).ok()?,
        u8::try_from(blue).ok()?,
    ))
}
