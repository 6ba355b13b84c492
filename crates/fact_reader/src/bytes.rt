//! Single bytes, fixed texts, and numbers.

ghost use Rattle.std.specs.Prelude.{◌≡◌, ◌+◌, ◌<◌, ◌≤◌, ◌==◌, drop, length};
ghost use Rattle.std.specs.Char.{is_ascii_digit};
ghost use Rattle.std.specs.List.{prefix_len};
ghost use Rattle.spec_certificate_text.specs.Outcomes as outcomes;
ghost use Rattle.spec_certificate_text.specs.Outcomes.{read_fixed, read_number};
ghost use Rattle.fact_reader.specs.Gives.{Gives, GivesPlace, StopsWithin, PlaceWithin, same};

use crate::error::CertError;
use numerals::number;

/// The byte at the place; 0 at the end.
#[tactic(auto, using(crate::proofs::Places::bytes))]
pub fn front(bytes: &[u8], at: usize) -> u8
    ensures is { result ≡ outcomes.front (drop at bytes.now) }
    ensures there { 0 < result → at < length bytes.now }
{
    if at < bytes.len() { bytes[at] } else { 0 }
}

/// Passes over the text, which has to stand at the place.
#[tactic(auto, using(crate::proofs::Places::fixed))]
pub fn fixed(text: &[u8], bytes: &[u8], at: usize) -> Result<usize, CertError>
    requires { at ≤ length bytes.now }
    ensures read { GivesPlace bytes.now result (read_fixed text.now (drop at bytes.now) at) }
    ensures within { PlaceWithin bytes.now result }
{
    let mut place = at;
    for byte in text {
        if place == bytes.len() {
            return Err(CertError::Syntax(place));
        }
        if bytes[place] != *byte {
            return Err(CertError::Syntax(place));
        }
        place += 1;
    }
    Ok(place)
}

/// How many digits stand at the front.
fn digits_len(bytes: &[u8]) -> usize
    ensures is { result ≡ prefix_len is_ascii_digit bytes.now }
    ensures within { result ≤ length bytes.now }
{
    bytes
        .iter()
        .take_while(|byte| byte.is_ascii_digit())
        .count()
}

/// The place behind the digits that stand there.
fn behind_digits(bytes: &[u8], at: usize) -> usize
    requires { at ≤ length bytes.now }
    ensures is { result ≡ at + prefix_len is_ascii_digit (drop at bytes.now) }
    ensures within { result ≤ length bytes.now }
{
    at + digits_len(&bytes[at..])
}

/// The number at the place: all digits that stand there, before another byte.
pub fn number_at(bytes: &[u8], at: usize) -> Result<(u32, usize), CertError>
    requires { at ≤ length bytes.now }
    ensures read { Gives same bytes.now result (read_number (drop at bytes.now) at) }
    ensures within { StopsWithin bytes.now result }
{
    let behind = behind_digits(bytes, at);
    if behind == at {
        return Err(CertError::Syntax(at));
    }
    if behind == bytes.len() {
        return Err(CertError::Syntax(behind));
    }
    match number(&bytes[at..behind]) {
        Some(found) => Ok((found, behind)),
        None => Err(CertError::Number(at)),
    }
}
