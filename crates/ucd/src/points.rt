// Reads field 1: one code point, or two joined by "..".
ghost use Rattle.std.specs.Prelude.{◌≡◌, ◌≤◌, true, false, length, MatchResult};
ghost use Rattle.std.specs.List.{prefix_len};
ghost use Rattle.ucd.specs.Bytes.{Digit as digit, is};
ghost use Rattle.ucd.specs.Points.{digit_of, pointed, point_of, behind, last_point, end_of, range_of};
ghost use Rattle.ucd.specs.declared.faults.Reason.TheVariants.{BadRange as bad};

use crate::faults::Reason;

const LAST_CODE_POINT: u32 = 0x10FFFF;

// The value of a digit of base sixteen, which has no small letters.
fn digit(b: u8) -> Option<u32>
    ensures { result ≡ digit_of b }
{
    match b {
        b'0'..=b'9' => Some((b - b'0') as u32),
        b'A'..=b'F' => Some((b - b'A') as u32 + 10),
        _ => None,
    }
}

// How many digits lead.
fn leading_digits(text: &[u8]) -> usize
    ensures run { result ≡ prefix_len (is digit) text.now }
    ensures within { result ≤ length text.now }
{
    text.iter().take_while(|b| digit(**b).is_some()).count()
}

// Refuses a text that does not begin with 4 to 6 digits.
fn demand_point(text: &[u8]) -> Result<(), Reason>
    ensures { MatchResult result (λ _. pointed text.now ≡ true) (λ why. (pointed text.now ≡ false) × (why ≡ bad)) }
{
    let digits = leading_digits(text);
    if !(4..=6).contains(&digits) {
        return Err(Reason::BadRange);
    }
    Ok(())
}

// The number that the digits at the start write, and the rest. It goes on by slice patterns, as field 1 is taken
// apart throughout (docs/DECISIONS.md).
fn hex(text: &[u8]) -> (u32, &[u8])
    requires { pointed text.now ≡ true }
    ensures number { result.0 ≡ point_of text.now }
    ensures rest { result.1.now ≡ behind text.now }
{
    let mut number: u32 = 0;
    let mut rest = text;
    while let [b, more @ ..] = rest {
        let Some(value) = digit(*b) else {
            break;
        };
        number = number * 16 + value;
        rest = more;
    }
    (number, rest)
}

// The code point that the whole text writes.
fn last_point(text: &[u8]) -> Result<u32, Reason>
    ensures { result ≡ last_point text.now }
{
    demand_point(text)?;
    let (last, rest) = hex(text);
    if !rest.is_empty() {
        return Err(Reason::BadRange);
    }
    Ok(last)
}

// The last code point of a range, from the first and what stands behind it.
fn end_of(first: u32, rest: &[u8]) -> Result<u32, Reason>
    ensures { result ≡ end_of first rest.now }
{
    match rest {
        [] => Ok(first),
        [b'.', b'.', text @ ..] => last_point(text),
        _ => Err(Reason::BadRange),
    }
}

// The first and the last code point that the field writes.
pub(crate) fn read_range(field: &[u8]) -> Result<(u32, u32), Reason>
    ensures { result ≡ range_of field.now }
{
    demand_point(field)?;
    let (first, rest) = hex(field);
    let last = end_of(first, rest)?;
    if first > last || last > LAST_CODE_POINT {
        return Err(Reason::BadPoint);
    }
    Ok((first, last))
}
