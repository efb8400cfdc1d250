ghost use Rattle.std.specs.Prelude.{◌≡◌, ◌<◌, ◌∷◌, ◌++◌, length, map, take, flat_map, codes, not, OnOk, OnErr};
ghost use Rattle.std.specs.List.{prefix_len};
ghost use Rattle.m_text.specs.Grammar.{piece_text, joined, quoted, coded, c};
ghost use Rattle.m_text.specs.Written.{is_printable, decimal};

use memchr::memchr;
use std::alloc::AllocError;

pub(crate) fn is_printable(byte: u8) -> bool
    ensures { result ≡ is_printable byte }
{
    (b' '..=b'~').contains(&byte)
}

/// How many printable bytes the text begins with.
pub(crate) fn printable_len(text: &[u8]) -> usize
    ensures { result ≡ prefix_len (λ b. is_printable b) text.now }
{
    text.iter().take_while(|b| is_printable(**b)).count()
}

/// How many bytes that aren't printable the text begins with.
pub(crate) fn unprintable_len(text: &[u8]) -> usize
    ensures { result ≡ prefix_len (λ b. not (is_printable b)) text.now }
{
    text.iter().take_while(|b| !is_printable(**b)).count()
}

/// Appends the bytes in quotes.
#[tactic(auto, using(crate::proofs::BeginLemmas::begins))]
pub(crate) fn push_quoted(run: &[u8], out: &mut Vec<u8>) -> Result<(), AllocError>
    ensures ok { OnOk result (out.new.items ≡ out.old.items ++ piece_text (quoted run.now)) }
    ensures err { OnErr result (take (length out.old.items) out.new.items ≡ out.old.items) }
{
    out.push(b'"')?;
    let mut rest = run;
    while let Some(at) = memchr(b'"', rest) {
        let (front, back) = rest.split_at(at);
        out.extend_from_slice(front)?;
        out.extend_from_slice(b"\"\"")?;
        rest = &back[1..];
    }
    out.extend_from_slice(rest)?;
    out.push(b'"')?;
    Ok(())
}

/// Appends the bytes by their codes. There is one at least.
#[tactic(auto, using(crate::proofs::BeginLemmas::begins))]
pub(crate) fn push_coded(run: &[u8], out: &mut Vec<u8>) -> Result<(), AllocError>
    requires { 0 < length run.now }
    ensures ok { OnOk result (out.new.items ≡ out.old.items ++ piece_text (coded c (map decimal run.now))) }
    ensures err { OnErr result (take (length out.old.items) out.new.items ≡ out.old.items) }
{
    out.extend_from_slice(b"$C(")?;
    push_decimal(run[0], out)?;
    push_decimals(&run[1..], out)?;
    out.push(b')')?;
    Ok(())
}

#[tactic(auto, using(crate::proofs::BeginLemmas::begins))]
fn push_decimals(bytes: &[u8], out: &mut Vec<u8>) -> Result<(), AllocError>
    ensures ok { OnOk result (out.new.items ≡ out.old.items ++ flat_map (λ text. 44 ∷ text) (map decimal bytes.now)) }
    ensures err { OnErr result (take (length out.old.items) out.new.items ≡ out.old.items) }
{
    for byte in bytes {
        out.push(b',')?;
        push_decimal(*byte, out)?;
    }
    Ok(())
}

fn push_decimal(byte: u8, out: &mut Vec<u8>) -> Result<(), AllocError>
    ensures ok { OnOk result (out.new.items ≡ out.old.items ++ decimal byte) }
    ensures err { OnErr result (out.new.items ≡ out.old.items) }
{
    if byte < 10 {
        out.extend_from_slice(&[b'0' + byte])
    } else if byte < 100 {
        out.extend_from_slice(&[b'0' + byte / 10, b'0' + byte % 10])
    } else {
        out.extend_from_slice(&[b'0' + byte / 100, b'0' + byte / 10 % 10, b'0' + byte % 10])
    }
}
