//! Words.

ghost use Rattle.std.specs.Prelude.{◌≡◌, ◌+◌, ◌-◌, ◌<◌, ◌≤◌, take, drop, length, IfOk, IfErr};
ghost use Rattle.std.specs.List.{prefix_len};
ghost use Rattle.spec_protocol_tokens.specs.Bytes.{is_in_word};
ghost use Rattle.spec_certificate_text.specs.Outcomes.{Found};
ghost use Rattle.spec_certificate_text.specs.ReadWords.{read_word};
ghost use Rattle.fact_reader.specs.Gives.{HasFault};

use crate::bytes::front;
use crate::error::CertError;
use term_reader::{begins_word, is_in_word};

/// How many bytes at the front a word goes on with.
fn word_len(bytes: &[u8]) -> usize
    ensures is { result ≡ prefix_len is_in_word bytes.now }
    ensures within { result ≤ length bytes.now }
{
    bytes.iter().take_while(|byte| is_in_word(**byte)).count()
}

/// The place behind the bytes of a word that stand there.
fn behind_word(bytes: &[u8], at: usize) -> usize
    requires { at ≤ length bytes.now }
    ensures is { result ≡ at + prefix_len is_in_word (drop at bytes.now) }
    ensures within { result ≤ length bytes.now }
{
    at + word_len(&bytes[at..])
}

/// The place behind the word that stands at the place: another byte has to stand there.
#[tactic(auto, using(crate::proofs::WordsThere::words))]
pub fn word_end(bytes: &[u8], at: usize) -> Result<usize, CertError>
    requires { at ≤ length bytes.now }
    ensures read { IfOk result (λ end. read_word (drop at bytes.now) at ≡
        Found (take (end - at) (drop at bytes.now)) end (drop end bytes.now)) }
    ensures fault { IfErr result (λ e. HasFault e (read_word (drop at bytes.now) at)) }
    ensures within { IfOk result (λ end. end ≤ length bytes.now) }
    ensures some { IfOk result (λ end. at < end) }
{
    if !begins_word(front(bytes, at)) {
        return Err(CertError::Syntax(at));
    }
    let end = behind_word(bytes, at);
    if end == bytes.len() {
        return Err(CertError::Syntax(end));
    }
    Ok(end)
}
