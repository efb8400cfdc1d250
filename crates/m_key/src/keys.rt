ghost use Rattle.std.specs.Prelude.{◌≡◌, ◌-◌, ◌^◌, ◌<◌, ◌↔◌, length, min, IsErr, OnOk, IfErr, OnErr};
ghost use Rattle.m_key.specs.Key.{key_bytes};
ghost use Rattle.m_key.specs.Reference.{node_of};

use crate::key::Written;
use crate::{Key, KeyTooLong, Reference};

/// Writes the key of a reference over `key`, which stays as it was where the key has more than 255 bytes.
pub fn key_of(reference: &Reference, key: &mut Key) -> Result<(), KeyTooLong>
    ensures too_long { IsErr result ↔ (255 < length (key_bytes (node_of reference.now))) }
    ensures ok { OnOk result (key.new.items ≡ key_bytes (node_of reference.now)) }
    ensures len { IfErr result (λ e.
        e.len ≡ min (length (key_bytes (node_of reference.now))) (2 ^ 64 - 1)) }
    ensures err { OnErr result (key.new ≡ key.old) }
{
    let written = Written::of(reference);
    if written.len > 255 {
        return Err(KeyTooLong { len: written.len });
    }
    *key = written.front;
    Ok(())
}

/// How many bytes the key of a reference has, or the greatest number of 64 bits where they are more.
pub fn key_len(reference: &Reference) -> u64
    ensures { result ≡ min (length (key_bytes (node_of reference.now))) (2 ^ 64 - 1) }
{
    Written::of(reference).len
}
