//! Numbers in decimal digits, as the texts of runs, terms and reports have them.
#![tactic(auto)]

ghost use Rattle.std.specs.Prelude.{◌≡◌, ◌≤◌, true, length};
ghost use Rattle.std.specs.Char.{is_ascii_digit};
ghost use Rattle.std.specs.List.{list_all};
ghost use Rattle.std.specs.Str.{all_ascii_digits};
ghost use Rattle.std.specs.Str.Parse.{digits_value};
ghost use Rattle.spec_calculus.specs.Bounds.{most_digits};
ghost use Rattle.spec_run_text.specs.Reading.{is_numeral, numeral};

use pi_tree::MOST_DIGITS;

/// Whether these are digits.
pub fn all_digits(digits: &[u8]) -> bool
    ensures { result ≡ list_all is_ascii_digit digits.now }
{
    digits.iter().all(|b| b.is_ascii_digit())
}

/// Whether these are digits, one at least and no more than the limit, of which a 0 stands first only alone.
#[tactic(auto, using(crate::proofs::Digits::all_digits_is))]
fn is_numeral(digits: &[u8]) -> bool
    ensures { result ≡ is_numeral digits.now }
{
    all_digits(digits)
        && 1 <= digits.len()
        && digits.len() <= MOST_DIGITS
        && (digits.len() == 1 || digits[0] != b'0')
}

/// The number that the digits spell.
fn value(digits: &[u8]) -> u32
    requires all { all_ascii_digits digits.now ≡ true }
    requires few { length digits.now ≤ most_digits }
    ensures { result ≡ digits_value 10 digits.now }
{
    let mut value = 0;
    for digit in digits {
        value = value * 10 + u32::from(*digit - b'0');
    }
    value
}

/// The number that the digits are, if they are one: one at least and no more than the limit, of which a 0 stands
/// first only alone.
pub fn number(digits: &[u8]) -> Option<u32>
    ensures { result ≡ numeral digits.now }
{
    if is_numeral(digits) {
        Some(value(digits))
    } else {
        None
    }
}
