ghost use Rattle.std.specs.Prelude.{◌≡◌, ◌<◌, ◌∷◌, ◌++◌, length, map, take, flat_map, IfOk, OnOk, OnErr};
ghost use Rattle.m_key.specs.Reference.{node_subscript_of, node_of};
ghost use Rattle.m_text.specs.Written.{runs_of, runs_text, more_runs_text, value_text, subscript_text, reference_text};

use crate::quoting::{is_printable, printable_len, push_coded, push_quoted, unprintable_len};
use m_key::{Reference, Subscript};
use m_number::print;
use std::alloc::AllocError;

/// Appends the one text in which a value is written. Where memory runs out, `out` is as before.
pub fn print_value(value: &[u8], out: &mut Vec<u8>) -> Result<(), AllocError>
    ensures ok { OnOk result (out.new.items ≡ out.old.items ++ value_text value.now) }
    ensures err { OnErr result (out.new.items ≡ out.old.items) }
{
    let len = out.len();
    let pushed = push_value(value, out);
    if pushed.is_err() {
        out.truncate(len);
    }
    pushed
}

/// Appends the one text in which a reference is written. Where memory runs out, `out` is as before.
pub fn print_reference(reference: &Reference, out: &mut Vec<u8>) -> Result<(), AllocError>
    ensures ok { OnOk result (out.new.items ≡ out.old.items ++ reference_text (node_of reference.now)) }
    ensures err { OnErr result (out.new.items ≡ out.old.items) }
{
    let len = out.len();
    let pushed = push_reference(reference, out);
    if pushed.is_err() {
        out.truncate(len);
    }
    pushed
}

#[tactic(auto, using(crate::proofs::BeginLemmas::begins), unfolding(crate::specs::Written::value_text))]
fn push_value(value: &[u8], out: &mut Vec<u8>) -> Result<(), AllocError>
    ensures ok { OnOk result (out.new.items ≡ out.old.items ++ value_text value.now) }
    ensures err { OnErr result (take (length out.old.items) out.new.items ≡ out.old.items) }
{
    if value.is_empty() {
        return out.extend_from_slice(b"\"\"");
    }
    let mut rest = push_run(value, out)?;
    while !rest.is_empty() {
        out.push(b'_')?;
        rest = push_run(rest, out)?;
    }
    Ok(())
}

/// Appends the first run of a value that isn't empty, and answers the bytes behind it.
#[tactic(auto, using(crate::proofs::BeginLemmas::begins))]
fn push_run<'a>(value: &'a [u8], out: &mut Vec<u8>) -> Result<&'a [u8], AllocError>
    requires { 0 < length value.now }
    ensures ok { IfOk result (λ rest. out.new.items ++ more_runs_text (runs_of rest.now)
        ≡ out.old.items ++ runs_text (runs_of value.now)) }
    ensures grown { OnOk result (take (length out.old.items) out.new.items ≡ out.old.items) }
    ensures shorter { IfOk result (λ rest. length rest.now < length value.now) }
    ensures err { OnErr result (take (length out.old.items) out.new.items ≡ out.old.items) }
{
    if is_printable(value[0]) {
        let len = printable_len(value);
        push_quoted(&value[..len], out)?;
        Ok(&value[len..])
    } else {
        let len = unprintable_len(value);
        push_coded(&value[..len], out)?;
        Ok(&value[len..])
    }
}

#[tactic(auto, using(crate::proofs::BeginLemmas::begins), unfolding(crate::specs::Written::reference_text))]
fn push_reference(reference: &Reference, out: &mut Vec<u8>) -> Result<(), AllocError>
    ensures ok { OnOk result (out.new.items ≡ out.old.items ++ reference_text (node_of reference.now)) }
    ensures err { OnErr result (take (length out.old.items) out.new.items ≡ out.old.items) }
{
    out.push(b'^')?;
    out.extend_from_slice(reference.name.bytes())?;
    match reference.subscripts.as_slice() {
        [] => Ok(()),
        [first, others @ ..] => {
            out.push(b'(')?;
            push_subscript(first, out)?;
            push_others(others, out)?;
            out.push(b')')?;
            Ok(())
        }
    }
}

#[tactic(auto, using(crate::proofs::BeginLemmas::begins))]
fn push_others(subscripts: &[Subscript], out: &mut Vec<u8>) -> Result<(), AllocError>
    ensures ok { OnOk result (out.new.items
        ≡ out.old.items ++ flat_map (λ text. 44 ∷ text) (map subscript_text (map node_subscript_of subscripts.now))) }
    ensures err { OnErr result (take (length out.old.items) out.new.items ≡ out.old.items) }
{
    for subscript in subscripts {
        out.push(b',')?;
        push_subscript(subscript, out)?;
    }
    Ok(())
}

#[tactic(auto, using(crate::proofs::BeginLemmas::begins))]
fn push_subscript(subscript: &Subscript, out: &mut Vec<u8>) -> Result<(), AllocError>
    ensures ok { OnOk result (out.new.items ≡ out.old.items ++ subscript_text (node_subscript_of subscript.now)) }
    ensures err { OnErr result (take (length out.old.items) out.new.items ≡ out.old.items) }
{
    match subscript {
        Subscript::Num(number) => out.extend_from_slice(print(number).as_slice()),
        Subscript::Text(text) => push_value(text.bytes(), out),
    }
}
