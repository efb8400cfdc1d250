ghost use Rattle.std.specs.Prelude.{◌≡◌, ◌+◌, ◌<◌, ◌≤◌, ◌↔◌, Err, IfErr, IfOk, IsErr, None, OnOk, [], length, option_map};
ghost use Rattle.std.specs.Option.{ForSome};
ghost use Rattle.gds_base.specs.Drafting.{IsDraftFor, WithDraft};
ghost use Rattle.gds_base.specs.Ending.{EndsReading};
ghost use Rattle.gds_find.specs.Found.{IsValueOf};
ghost use Rattle.gds_find.specs.Trail.{HasTreeFor};
ghost use Rattle.gds_law.specs.Visit.{Visit, directory_root};
ghost use Rattle.gds_sound.specs.Sound.{Tree, tree_at};
ghost use Rattle.gds_units.specs.Reading.{OnlyRead};
ghost use Rattle.gds_units.specs.State.{image_of};
ghost use Rattle.m_key.specs.Key.{key_bytes};
ghost use Rattle.m_key.specs.KeyEnd.{IsKey};
ghost use Rattle.m_key.specs.Reference.{name_bytes, node_of, place_of};
ghost use Rattle.gds_globals.specs.Ending.{EndsAsking};
ghost use Rattle.gds_globals.specs.Node.{HasValue, IsRootOf, name_key};

use gds_base::{Base, BaseError};
use gds_block::pointer_of;
use gds_draft::Draft;
use gds_find::{Trail, find, value_at};
use gds_header::Header;
use host_model::Host;
use m_key::{Key, Name, Reference, join_key, key_of};
use std::alloc::Global;

/// The root of the directory, which has the root of each global.
pub(crate) const DIRECTORY: u32 = 1;

/// The value of a node, or `None` where it has none. By the host's clock at most 18 calls are made.
pub fn get<H: Host>(
    alloc: Global,
    base: &mut Base<H>,
    reference: &Reference,
) -> Result<Option<Vec<u8>>, BaseError>
    ensures value { IfOk result (λ value. ForSome (image_of base.old) (λ image.
        HasValue image (place_of reference.now) (option_map (λ v. v.items) value))) }
    ensures too_long { (result ≡ Err BaseError.KeyTooLong)
        ↔ (base.old.header.key_max < length (key_bytes (node_of reference.now))) }
    ensures read { OnlyRead H.told H.moment H.failures H.left_since base.old base.new }
    ensures ends { EndsAsking (H.failures base.old.host) (H.failures base.new.host) (image_of base.old ≡ None) result }
    ensures calls { H.moment base.new.host ≤ H.moment base.old.host + 18 }
{
    let key = short_key(base.header(), reference)?;
    let draft = base.draft(alloc);
    base.hold_draft(&draft);
    let Some(root) = root_of(alloc, base, &draft, &reference.name)? else {
        return Ok(None);
    };
    value_of(alloc, base, &draft, root, &key)
}

// The key of a reference, if it has no more bytes than the header allows.
pub(crate) fn short_key(header: &Header, reference: &Reference) -> Result<Key, BaseError>
    requires { header.now.key_max ≤ 255 }
    ensures key { IfOk result (λ key. key.items ≡ key_bytes (node_of reference.now)) }
    ensures short { IfOk result (λ key. length key.items ≤ 255) }
    ensures too_long { IsErr result ↔ (header.now.key_max < length (key_bytes (node_of reference.now))) }
    ensures err { IfErr result (λ error. error ≡ BaseError.KeyTooLong) }
{
    let mut key = Key::new();
    if key_of(reference, &mut key).is_err() || key.len() > header.key_max as usize {
        return Err(BaseError::KeyTooLong);
    }
    Ok(key)
}

// The root of the tree of a global, if the directory has its name.
pub(crate) fn root_of<H: Host>(
    alloc: Global,
    base: &mut Base<H>,
    draft: &Draft,
    name: &Name,
) -> Result<Option<u32>, BaseError>
    requires { IsDraftFor base.old.header draft.now }
    ensures root { IfOk result (λ root. WithDraft base.old draft.now (λ file. (t : Tree)
        → tree_at file directory_root ≡ Some t → IsRootOf t.items (name_key (name_bytes name.now)) root)) }
    ensures read { OnlyRead H.told H.moment H.failures H.left_since base.old base.new }
    ensures ends { EndsReading (H.failures base.old.host) (H.failures base.new.host)
        (WithDraft base.old draft.now (λ file. (t : Tree) → tree_at file directory_root ≡ Some t → ⊥)) result }
    ensures calls { H.moment base.new.host ≤ H.moment base.old.host + 9 }
{
    base.hold_draft(draft);
    let key = directory_key(name);
    let Some(rest) = value_of(alloc, base, draft, DIRECTORY, &key)? else {
        return Ok(None);
    };
    let Some(root) = pointer_of(&rest) else {
        return Err(BaseError::Changed { unit: 0 });
    };
    Ok(Some(root))
}

// The key of a global in the directory.
pub(crate) fn directory_key(name: &Name) -> Key
    ensures key { result.items ≡ name_key (name_bytes name.now) }
    ensures whole { IsKey result.items }
{
    join_key(name.bytes(), &[0, 0])
}

// The value that a key has in the tree of a root.
fn value_of<H: Host>(
    alloc: Global,
    base: &mut Base<H>,
    draft: &Draft,
    root: u32,
    key: &[u8],
) -> Result<Option<Vec<u8>>, BaseError>
    requires { IsDraftFor base.old.header draft.now }
    ensures value { IfOk result (λ value. WithDraft base.old draft.now (λ file. (v : Visit)
        (has : HasTreeFor file v root None key.now)
        → IsValueOf has.tree.items key.now (option_map (λ w. w.items) value))) }
    ensures read { OnlyRead H.told H.moment H.failures H.left_since base.old base.new }
    ensures ends { EndsReading (H.failures base.old.host) (H.failures base.new.host)
        (WithDraft base.old draft.now (λ file. (v : Visit) → HasTreeFor file v root None key.now → ⊥)) result }
    ensures calls { H.moment base.new.host ≤ H.moment base.old.host + 9 }
{
    let mut trail = Trail::new();
    find(base, draft, root, key, &mut trail)?;
    let Some(value) = value_at(base, draft, &trail)? else {
        return Ok(None);
    };
    Ok(Some(Vec::from_slice(alloc, value)?))
}
