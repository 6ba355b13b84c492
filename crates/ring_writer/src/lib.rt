//! The texts of rings, which measurements use: exactly what the definitions say.
#![tactic(auto)]

ghost use Rattle.std.specs.Prelude.{◌≡◌, ◌≤◌, ◌++◌, [], IfOk, OnOk};
ghost use Rattle.spec_calculus.specs.Bounds.{most_keys};
ghost use Rattle.spec_protocol_scope.specs.Spells.{Spells};
ghost use Rattle.spec_ring_text.specs.Meaning.{ring_protocol};
ghost use Rattle.spec_ring_text.specs.Text.{key, key_line, key_lines, middle_lines, pass_line, pass_lines, ring_text, successor};

use hv_io::put_words;
use spec_ring_text::rings_are_protocols;
use std::alloc::{AllocError, Global};

/// Puts bytes at the end.
fn put(out: &mut Vec<u8>, bytes: &[u8]) -> Result<(), AllocError>
    ensures { OnOk result (out.new.items ≡ out.old.items ++ bytes.now) }
{
    out.extend_from_slice(bytes)
}

/// Puts the word of a key.
fn put_key(out: &mut Vec<u8>, number: u64) -> Result<(), AllocError>
    ensures { OnOk result (out.new.items ≡ out.old.items ++ key number) }
{
    put_words(out, format_args!("k{number}"))
}

/// Puts the line that declares a key.
fn put_key_line(out: &mut Vec<u8>, number: u64) -> Result<(), AllocError>
    ensures { OnOk result (out.new.items ≡ out.old.items ++ key_line number []) }
{
    put(out, b"private free ")?;
    put_key(out, number)?;
    put(out, b".\n")
}

/// Puts the lines that declare so many keys.
fn put_key_lines(out: &mut Vec<u8>, keys: u64) -> Result<(), AllocError>
    requires { keys ≤ most_keys }
    ensures { OnOk result (out.new.items ≡ out.old.items ++ key_lines 1 keys []) }
{
    'each: for number in 1..keys + 1 {
        put_key_line(out, number)?;
    }
    Ok(())
}

/// Puts the query, and the process that sends `s` under the first key.
fn put_middle_lines(out: &mut Vec<u8>) -> Result<(), AllocError>
    ensures { OnOk result (out.new.items ≡ out.old.items ++ middle_lines []) }
{
    put(out, b"query attacker(s).\nprocess\nout(c,enc(s,")?;
    put_key(out, 1)?;
    put(out, b"))\n")
}

/// Puts the line of the process that decrypts with one key, and encrypts with the next.
fn put_pass_line(out: &mut Vec<u8>, number: u64, next: u64) -> Result<(), AllocError>
    ensures { OnOk result (out.new.items ≡ out.old.items ++ pass_line number next []) }
{
    put(out, b"| !in(c,x); let y = dec(x,")?;
    put_key(out, number)?;
    put(out, b") in out(c,enc(y,")?;
    put_key(out, next)?;
    put(out, b"))\n")
}

/// The number of the key behind this one.
fn successor(keys: u64, number: u64) -> u64
    requires { number ≤ keys }
    ensures { result ≡ successor keys number }
{
    if number == keys { 1 } else { number + 1 }
}

/// Puts the lines of so many processes, one for each key.
fn put_pass_lines(out: &mut Vec<u8>, keys: u64) -> Result<(), AllocError>
    requires { keys ≤ most_keys }
    ensures { OnOk result (out.new.items ≡ out.old.items ++ pass_lines keys 1 keys []) }
{
    'each: for number in 1..keys + 1 {
        put_pass_line(out, number, successor(keys, number))?;
    }
    Ok(())
}

/// The text of the ring of `n` keys, which spells a protocol.
///
/// `Err` comes only for want of memory.
pub fn make_ring(alloc: Global, n: u64) -> Result<Vec<u8>, AllocError>
    requires least { 2 ≤ n }
    requires most { n ≤ most_keys }
    ensures text { IfOk result (λ text. text.items ≡ ring_text n) }
    ensures spells { IfOk result (λ text. Spells text.items (ring_protocol n)) }
{
    rings_are_protocols();
    let mut out = Vec::new(alloc);
    put(
        &mut out,
        b"free c.\nprivate free s.\nfun enc/2.\nreduc dec(enc(x,y),y) -> x.\n",
    )?;
    put_key_lines(&mut out, n)?;
    put_middle_lines(&mut out)?;
    put_pass_lines(&mut out, n)?;
    Ok(out)
}
