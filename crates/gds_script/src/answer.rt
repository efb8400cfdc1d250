ghost use Rattle.std.specs.Prelude.{◌≡◌, ◌++◌, ◌∷◌, OnErr, OnOk, codes, length, take};
ghost use Rattle.std.specs.Fmt.{decimal};
ghost use Rattle.m_key.specs.Reference.{name_bytes, node_of, node_subscript_of};
ghost use Rattle.m_text.specs.Written.{reference_text, subscript_text, value_text};
ghost use Rattle.gds_globals.specs.Questions.{next_of};
ghost use Rattle.gds_script.specs.Answer.{answer_line, answer_text, next_text};

use gds_globals::Next;
use m_key::{Name, Reference, Subscript};
use m_number::print;
use m_text::{print_reference, print_value};
use std::alloc::{AllocError, Global};

/// What a line is answered.
#[derive(Debug, Drop)]
pub enum Answer {
    /// The change was made.
    Done,
    /// The key has so many bytes, which are more than the database allows.
    KeyTooLong { len: u64 },
    /// The value has so many bytes, which are more than the database allows.
    ValueTooLong { len: u64 },
    /// The transaction numbers are spent.
    TnSpent,
    /// So many blocks are free, and the file can't grow enough.
    Full { free: u32 },
    /// A tree would get more levels than a database allows.
    TooDeep,
    /// The value of the node.
    Value { value: Vec<u8> },
    /// The node has no value.
    Undefined,
    /// What comes next on a level.
    Next { next: Next },
    /// Nothing more comes.
    End,
    /// 1 where the node has a value, and 10 more where one below it has.
    Data { data: u8 },
    /// The next node that has a value.
    Node { reference: Reference },
    /// All changes are durable, so many.
    Epoch { changes: u64 },
    /// The line is outside the grammar.
    BadLine,
}

/// Appends the line of an answer. Where memory runs out, `out` is as before.
pub fn write_answer(alloc: Global, answer: &Answer, out: &mut Vec<u8>) -> Result<(), AllocError>
    ensures ok { OnOk result (out.new.items ≡ out.old.items ++ answer_line answer.now) }
    ensures err { OnErr result (out.new.items ≡ out.old.items) }
{
    let len = out.len();
    let written = push_line(alloc, answer, out);
    if written.is_err() {
        out.truncate(len);
    }
    written
}

fn push_line(alloc: Global, answer: &Answer, out: &mut Vec<u8>) -> Result<(), AllocError>
    ensures ok { OnOk result (out.new.items ≡ out.old.items ++ answer_line answer.now) }
    ensures err { OnErr result (take (length out.old.items) out.new.items ≡ out.old.items) }
{
    push_text(alloc, answer, out)?;
    out.push(b'\n')?;
    Ok(())
}

fn push_text(alloc: Global, answer: &Answer, out: &mut Vec<u8>) -> Result<(), AllocError>
    ensures ok { OnOk result (out.new.items ≡ out.old.items ++ answer_text answer.now) }
    ensures err { OnErr result (take (length out.old.items) out.new.items ≡ out.old.items) }
{
    match answer {
        Answer::Done => out.extend_from_slice(b"OK"),
        Answer::KeyTooLong { len } => push_number(alloc, b"KEYTOOLONG ", *len, out),
        Answer::ValueTooLong { len } => push_number(alloc, b"VALUETOOLONG ", *len, out),
        Answer::TnSpent => out.extend_from_slice(b"TNSPENT"),
        Answer::Full { free } => push_number(alloc, b"FULL ", u64::from(*free), out),
        Answer::TooDeep => out.extend_from_slice(b"TOODEEP 7"),
        Answer::Value { value } => push_value(value, out),
        Answer::Undefined => out.extend_from_slice(b"UNDEF"),
        Answer::Next { next } => push_next(next, out),
        Answer::End => out.extend_from_slice(b"END"),
        Answer::Data { data } => push_number(alloc, b"DATA ", u64::from(*data), out),
        Answer::Node { reference } => push_node(reference, out),
        Answer::Epoch { changes } => push_number(alloc, b"EPOCH ", *changes, out),
        Answer::BadLine => out.extend_from_slice(b"BADLINE"),
    }
}

/// Appends a word and a number.
fn push_number(alloc: Global, word: &[u8], n: u64, out: &mut Vec<u8>) -> Result<(), AllocError>
    ensures ok { OnOk result (out.new.items ≡ out.old.items ++ (word.now ++ decimal n)) }
    ensures err { OnErr result (take (length out.old.items) out.new.items ≡ out.old.items) }
{
    let number = format!(in alloc; "{n}")?;
    out.extend_from_slice(word)?;
    out.extend_from_slice(number.as_bytes())
}

fn push_value(value: &[u8], out: &mut Vec<u8>) -> Result<(), AllocError>
    ensures ok { OnOk result (out.new.items ≡ out.old.items ++ (codes "VALUE " ++ value_text value.now)) }
    ensures err { OnErr result (take (length out.old.items) out.new.items ≡ out.old.items) }
{
    out.extend_from_slice(b"VALUE ")?;
    print_value(value, out)
}

/// Appends what comes next, as it is written in a reference.
fn push_next(next: &Next, out: &mut Vec<u8>) -> Result<(), AllocError>
    ensures ok { OnOk result (out.new.items ≡ out.old.items ++ (codes "NEXT " ++ next_text (next_of next.now))) }
    ensures err { OnErr result (take (length out.old.items) out.new.items ≡ out.old.items) }
{
    out.extend_from_slice(b"NEXT ")?;
    match next {
        Next::Name(name) => push_name(name, out),
        Next::Subscript(subscript) => push_subscript(subscript, out),
    }
}

fn push_name(name: &Name, out: &mut Vec<u8>) -> Result<(), AllocError>
    ensures ok { OnOk result (out.new.items ≡ out.old.items ++ (94 ∷ name_bytes name.now)) }
    ensures err { OnErr result (take (length out.old.items) out.new.items ≡ out.old.items) }
{
    out.push(b'^')?;
    out.extend_from_slice(name.bytes())
}

fn push_subscript(subscript: &Subscript, out: &mut Vec<u8>) -> Result<(), AllocError>
    ensures ok { OnOk result (out.new.items ≡ out.old.items ++ subscript_text (node_subscript_of subscript.now)) }
    ensures err { OnErr result (take (length out.old.items) out.new.items ≡ out.old.items) }
{
    match subscript {
        Subscript::Num(number) => out.extend_from_slice(print(number).as_slice()),
        Subscript::Text(text) => print_value(text.bytes(), out),
    }
}

fn push_node(reference: &Reference, out: &mut Vec<u8>) -> Result<(), AllocError>
    ensures ok { OnOk result
        (out.new.items ≡ out.old.items ++ (codes "NODE " ++ reference_text (node_of reference.now))) }
    ensures err { OnErr result (take (length out.old.items) out.new.items ≡ out.old.items) }
{
    out.extend_from_slice(b"NODE ")?;
    print_reference(reference, out)
}
