ghost use Rattle.std.specs.Prelude.{◌≡◌, ◌+◌, ◌≤◌, ◌++◌, false, length, None, option_map, IfSome};
ghost use Rattle.arrayvec.specs.ArrayVec.{array_vec_len};
ghost use Rattle.m_key.specs.KeyEnd.{end_in, end_within, key_len, key_within, shared, zero_after};

use crate::Key;

/// How many leading bytes two keys share.
pub fn shared_len(a: &[u8], b: &[u8]) -> usize
    ensures value { result ≡ shared a.now b.now }
    ensures within_first { result ≤ length a.now }
    ensures within_second { result ≤ length b.now }
{
    for (i, x) in a.iter().enumerate() {
        if i == b.len() || *x != b[i] {
            return i;
        }
    }
    a.len()
}

/// Whether there is a last byte and it is 0.
pub fn ends_in_zero(bytes: &[u8]) -> bool
    ensures { result ≡ zero_after false bytes.now }
{
    match bytes.last() {
        Some(b) => *b == 0,
        None => false,
    }
}

/// The key whose bytes are those of a front and then those of an end, 255 together at most.
pub fn join_key(front: &[u8], end: &[u8]) -> Key
    requires { length front.now + length end.now ≤ 255 }
    ensures { result.items ≡ front.now ++ end.now }
{
    let mut key = Key::new();
    append(&mut key, front);
    append(&mut key, end);
    key
}

/// The key with these bytes, of which there are 255 at most.
pub fn key_from(bytes: &[u8]) -> Key
    requires { length bytes.now ≤ 255 }
    ensures { result.items ≡ bytes.now }
{
    join_key(bytes, &[])
}

fn append(key: &mut Key, bytes: &[u8])
    requires { array_vec_len key.old + length bytes.now ≤ 255 }
    ensures { key.new.items ≡ key.old.items ++ bytes.now }
{
    for b in bytes {
        key.push(*b);
    }
}

/// How many bytes there are up to the end of a key: the second of the first two neighbouring zero bytes. The
/// byte before these counts as one of the two where it is zero, which `after_zero` says. `None` where no key
/// ends in them.
pub fn end_in(after_zero: bool, body: &[u8]) -> Option<usize>
    ensures value { result ≡ end_in after_zero body.now }
    ensures within { IfSome result (λ n. n ≤ length body.now) }
{
    let mut zero = after_zero;
    for (i, b) in body.iter().enumerate() {
        if zero && *b == 0 {
            return Some(i + 1);
        }
        zero = *b == 0;
    }
    None
}

/// How many bytes of a body end the key that begins with the bytes of `front`, where that key has at most `limit`
/// bytes. `None` where no key ends in the body, or it is longer.
pub fn end_within(front: &[u8], body: &[u8], limit: usize) -> Option<usize>
    ensures value { result ≡ end_within limit front.now body.now }
    ensures within { IfSome result (λ n. n ≤ length body.now) }
    ensures short { IfSome result (λ n. length front.now + n ≤ limit) }
    // Where no key ends in the front, that is the key at the front of both.
    ensures key { key_len front.now ≡ None
        → key_within limit (front.now ++ body.now) ≡ option_map (λ n. length front.now + n) result }
{
    let len = end_in(ends_in_zero(front), body)?;
    if front.len() + len > limit {
        return None;
    }
    Some(len)
}
