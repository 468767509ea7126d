// Reading the numbers of a command. A number too large for its type is taken as the nearest one that the type holds.
ghost use Rattle.script.specs.Numbers.{digits_after, magnitude, below_zero, nearest_i64, nearest_i32, label_of};
ghost use Rattle.std.specs.Option.{option_map};
ghost use Rattle.std.specs.Prelude.{◌≡◌, ◌-◌, ◌^◌, min, pos, Some};
ghost use Rattle.std.specs.Int.{saturate_to_bits};

// The number that digits write, 2^64 - 1 where it is larger. A loop that leaves at the first other byte: `try_fold` says it no plainer.
#[tactic(auto, using(crate::proofs::Saturation::cut_none, crate::proofs::Saturation::cut_more, crate::proofs::Saturation::cut_end))]
fn read_digits(text: &[u8]) -> Option<u64>
    ensures { result ≡ option_map (λ n. min n (2 ^ 64 - 1)) (digits_after 0 text.now) }
{
    let mut number: u64 = 0;
    for b in text {
        if !b.is_ascii_digit() {
            return None;
        }
        number = number
            .saturating_mul(10)
            .saturating_add(u64::from(*b - b'0'));
    }
    Some(number)
}

// The same, where the first of several digits is not 0.
fn read_magnitude(text: &[u8]) -> Option<u64>
    ensures { result ≡ option_map (λ n. min n (2 ^ 64 - 1)) (magnitude text.now) }
{
    match text {
        [] | [b'0', _, ..] => None,
        _ => read_digits(text),
    }
}

// The number n, or the greatest of 64 bits with sign.
fn above_zero(n: u64) -> i64
    ensures { result ≡ saturate_to_bits 63 (pos n) }
{
    0_i64.saturating_add_unsigned(n)
}

// The number -n, or the least of 64 bits with sign; none at 0.
fn under_zero(n: u64) -> Option<i64>
    ensures { result ≡ option_map (saturate_to_bits 63) (below_zero (Some n)) }
{
    match n {
        0 => None,
        _ => Some(0_i64.saturating_sub_unsigned(n)),
    }
}

// The number of 64 bits that a word writes, with or without a minus sign. By `?` where there is none: with `map` a long number
// takes a third longer.
pub(crate) fn read_wide(text: &[u8]) -> Option<i64>
    ensures { result ≡ nearest_i64 text.now }
{
    match text {
        [b'-', digits @ ..] => read_magnitude(digits).and_then(under_zero),
        _ => Some(above_zero(read_magnitude(text)?)),
    }
}

// The number of 32 bits with sign that is nearest to n. The cast of what is clamped loses nothing: `try_from` would need an
// answer to what cannot come.
fn shortened(n: i64) -> i32
    ensures { result ≡ saturate_to_bits 31 n }
{
    n.clamp(i32::MIN.into(), i32::MAX.into()) as i32
}

// The number of 32 bits that a word writes.
pub(crate) fn read_narrow(text: &[u8]) -> Option<i32>
    ensures { result ≡ nearest_i32 text.now }
{
    read_wide(text).map(shortened)
}

// The label that a word writes, from 0 to 255.
pub(crate) fn read_label(text: &[u8]) -> Option<u8>
    ensures { result ≡ label_of text.now }
{
    u8::try_from(read_wide(text)?).ok()
}
