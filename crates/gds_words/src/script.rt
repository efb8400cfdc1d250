ghost use Rattle.std.specs.Prelude.{◌≡◌, ◌++◌, ℕ, List, IfNone, IfOk, IfSome, codes};
ghost use Rattle.m_key.specs.Node.{Node};
ghost use Rattle.m_key.specs.Reference.{node_of};
ghost use Rattle.m_text.specs.Grammar.{IsReferenceText};
ghost use Rattle.gds_words.specs.Script.{Asks, IsForm, IsSetting, Request, request_of};
ghost use Rattle.gds_words.specs.Verb.{verb_text};

use crate::verb::{Verb, read_verb};
use m_key::Reference;
use m_text::{read_null_reference, read_reference, read_value};
use std::alloc::{AllocError, Global};

/// The most bytes that a line may have.
pub(crate) const LINE_MAX: usize = 1_048_576;

/// What a line of a script asks for.
#[derive(Debug, Drop)]
pub enum ScriptLine {
    /// The node gets this value.
    Set {
        reference: Reference,
        value: Vec<u8>,
    },
    /// The node goes, and all below it.
    Kill {
        reference: Reference,
    },
    /// The value of the node is told.
    Get {
        reference: Reference,
    },
    /// What comes next behind the node on its level is told, or the first one a level below it.
    Order {
        reference: Reference,
        first: bool,
    },
    /// Whether the node has a value, and whether nodes stand below it, is told.
    DataOf {
        reference: Reference,
    },
    /// The next node that has a value is told.
    Query {
        reference: Reference,
    },
    /// What was changed so far becomes durable.
    Epoch,
}

/// What the line asks for. `None` says that it is outside the grammar.
pub fn read_script(alloc: Global, line: &[u8]) -> Result<Option<ScriptLine>, AllocError>
    ensures some { IfOk result (λ o. IfSome o (λ read. Asks line.now (request_of read))) }
    ensures none { IfOk result (λ o. IfNone o ((request : Request) → Asks line.now request → ⊥)) }
{
    if line.len() > LINE_MAX {
        return Ok(None);
    }
    if line == b"EPOCH".as_slice() {
        return Ok(Some(ScriptLine::Epoch));
    }
    let Some((verb, text)) = read_verb(line) else {
        return Ok(None);
    };
    read_behind(alloc, verb, text)
}

/// What a line of this verb asks for, by the text behind the verb.
fn read_behind(alloc: Global, verb: Verb, text: &[u8]) -> Result<Option<ScriptLine>, AllocError>
    ensures some { IfOk result (λ o. IfSome o (λ read. IsForm (verb_text verb ++ text.now) (request_of read))) }
    ensures none { IfOk result (λ o. IfNone o
        ((request : Request) → IsForm (verb_text verb ++ text.now) request → ⊥)) }
{
    match verb {
        Verb::Set => {
            let Some((reference, value)) = read_setting(alloc, text)? else {
                return Ok(None);
            };
            Ok(Some(ScriptLine::Set { reference, value }))
        }
        Verb::Order => read_order(alloc, text),
        Verb::Kill => {
            let named = read_whole_reference(alloc, text)?;
            Ok(named.map(|reference| ScriptLine::Kill { reference }))
        }
        Verb::Get => {
            let named = read_whole_reference(alloc, text)?;
            Ok(named.map(|reference| ScriptLine::Get { reference }))
        }
        Verb::DataOf => {
            let named = read_whole_reference(alloc, text)?;
            Ok(named.map(|reference| ScriptLine::DataOf { reference }))
        }
        Verb::Query => {
            let named = read_whole_reference(alloc, text)?;
            Ok(named.map(|reference| ScriptLine::Query { reference }))
        }
    }
}

/// What ORDER asks for, by the text behind it.
fn read_order(alloc: Global, text: &[u8]) -> Result<Option<ScriptLine>, AllocError>
    ensures some { IfOk result (λ o. IfSome o
        (λ read. IsForm (codes "ORDER " ++ text.now) (request_of read))) }
    ensures none { IfOk result (λ o. IfNone o
        ((request : Request) → IsForm (codes "ORDER " ++ text.now) request → ⊥)) }
{
    if let Some(reference) = read_whole_reference(alloc, text)? {
        return Ok(Some(ScriptLine::Order {
            reference,
            first: false,
        }));
    }
    let Some(reference) = read_null_reference(alloc, text)? else {
        return Ok(None);
    };
    Ok(Some(ScriptLine::Order {
        reference,
        first: true,
    }))
}

/// The reference and the value of a setting, which the whole text is.
fn read_setting(alloc: Global, text: &[u8]) -> Result<Option<(Reference, Vec<u8>)>, AllocError>
    ensures some { IfOk result (λ o. IfSome o (λ read. IsSetting text.now (node_of read.0) read.1.items)) }
    ensures none { IfOk result (λ o. IfNone o
        ((node : Node) (value : List ℕ) → IsSetting text.now node value → ⊥)) }
{
    let Some((reference, len)) = read_reference(alloc, text)? else {
        return Ok(None);
    };
    let Some(behind) = text[len..].strip_prefix(b"=") else {
        return Ok(None);
    };
    let Some(value) = read_value(alloc, behind)? else {
        return Ok(None);
    };
    Ok(Some((reference, value)))
}

/// The reference that the whole text is.
fn read_whole_reference(alloc: Global, text: &[u8]) -> Result<Option<Reference>, AllocError>
    ensures some { IfOk result (λ o. IfSome o (λ read. IsReferenceText text.now (node_of read))) }
    ensures none { IfOk result (λ o. IfNone o ((node : Node) → IsReferenceText text.now node → ⊥)) }
{
    let Some((reference, len)) = read_reference(alloc, text)? else {
        return Ok(None);
    };
    if len < text.len() {
        return Ok(None);
    }
    Ok(Some(reference))
}
