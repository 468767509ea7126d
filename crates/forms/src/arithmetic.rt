// Division rounded down and up, and the common divisor.
ghost use Rattle.std.specs.Prelude.{◌≡◌, ◌<◌};
ghost use Rattle.calculus.specs.Arithmetic.{floor, ceiling, divisor, near};

// z divided by a number above 0, rounded down.
pub(crate) fn floor_div(z: i32, by: u32) -> i64
    requires { 0 < by }
    ensures { result ≡ floor z by }
{
    i64::from(z).div_euclid(i64::from(by))
}

// z divided by a number above 0, rounded up. Nothing is divided by 1, the divisor of each row without a coefficient.
pub(crate) fn ceil_div(z: i32, by: u32) -> i64
    requires { 0 < by }
    ensures { result ≡ ceiling z by }
{
    if by == 1 {
        return i64::from(z);
    }
    -(-i64::from(z)).div_euclid(i64::from(by))
}

// The greatest common divisor, by calling itself; the second number falls to the remainder.
pub(crate) fn common_divisor(a: u32, b: u32) -> u32
    ensures { result ≡ divisor a b }
{
    if b == 0 { a } else { common_divisor(b, a % b) }
}

// Whether a number lies from -limit to limit.
pub fn is_near(limit: u64, z: i64) -> bool
    ensures { result ≡ near limit z }
{
    z.unsigned_abs() <= limit
}
