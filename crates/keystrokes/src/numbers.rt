// The numbers that words write.
ghost use Rattle.std.specs.Prelude.{◌≡◌, ◌^◌, ◌<◌, ◌≤◌};
ghost use Rattle.keystrokes.specs.Numerals.{decimal, code_point};
ghost use Rattle.std.specs.Option.{SomeIff};
ghost use Rattle.std.specs.Str.Parse.{IsNumeral, digits_value};

use std::str;

// Digits of the base alone, where std would let a plus stand first.
fn number(word: &[u8], base: u32) -> Option<usize>
    requires low { 2 ≤ base }
    requires high { base ≤ 36 }
    ensures { SomeIff result (IsNumeral base word.now × (digits_value base word.now < 2 ^ 64)) (digits_value base word.now) }
{
    if word.first() == Some(&b'+') {
        return None;
    }
    let text = str::from_utf8(word).ok()?;
    usize::from_str_radix(text, base).ok()
}

// A number in base ten.
pub(crate) fn read_decimal(word: &[u8]) -> Option<usize>
    ensures { result ≡ decimal word.now }
{
    number(word, 10)
}

// A scalar value in base sixteen.
pub(crate) fn read_code_point(word: &[u8]) -> Option<u32>
    ensures { result ≡ code_point word.now }
{
    let code = u32::try_from(number(word, 16)?).ok()?;
    char::from_u32(code)?;
    Some(code)
}
