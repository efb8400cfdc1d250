ghost use Rattle.std.specs.Prelude.{◌≡◌, ◌+◌, ◌≤◌, if◌then◌else◌, ◌<◌, ◌↔◌, Err, IfOk, None, length, option_map};
ghost use Rattle.std.specs.Option.{ForSome};
ghost use Rattle.gds_base.specs.Ending.{EndsReading};
ghost use Rattle.gds_units.specs.Reading.{OnlyRead};
ghost use Rattle.gds_units.specs.State.{image_of};
ghost use Rattle.m_key.specs.Key.{key_bytes};
ghost use Rattle.m_key.specs.Reference.{node_of, place_of};
ghost use Rattle.gds_globals.specs.Ending.{EndsAsking};
ghost use Rattle.gds_globals.specs.Questions.{FindsNext, FindsNode, HasData, next_of};

use crate::asking::{root_of, short_key};
use crate::levels::{first_subscript, next_name, next_subscript};
use crate::looking::{first_under, lead_of, node_from};
use gds_base::{Base, BaseError};
use host_model::Host;
use m_key::{Name, Reference, Subscript};
use std::alloc::Global;
use std::ops::Bound;

/// What ORDER finds: the name of a global, or a subscript.
#[derive(Debug, PartialEq, Eq, Drop)]
pub enum Next {
    /// The name of a global.
    Name(Name),
    /// A subscript.
    Subscript(Subscript),
}

/// ORDER: the first subscript below a node, where that is asked for. Else what comes next on its level: the subscript
/// behind its last one, or the name of the next global where it has none.
pub fn order<H: Host>(
    alloc: Global,
    base: &mut Base<H>,
    reference: &Reference,
    first: bool,
) -> Result<Option<Next>, BaseError>
    ensures next { IfOk result (λ next. ForSome (image_of base.old) (λ image.
        FindsNext image (node_of reference.now) first (option_map next_of next))) }
    ensures too_long { (result ≡ Err BaseError.KeyTooLong)
        ↔ (base.old.header.key_max < length (key_bytes (node_of reference.now))) }
    ensures read { OnlyRead H.told H.moment H.failures H.left_since base.old base.new }
    ensures ends { EndsAsking (H.failures base.old.host) (H.failures base.new.host) (image_of base.old ≡ None) result }
{
    let key = short_key(base.header(), reference)?;
    if first {
        return first_subscript(alloc, base, reference, &key);
    }
    if reference.subscripts.as_slice().is_empty() {
        return next_name(alloc, base, reference);
    }
    next_subscript(alloc, base, reference, &key)
}

/// DATA: 1 where a node has a value, and 10 more where one below it has.
pub fn data<H: Host>(
    alloc: Global,
    base: &mut Base<H>,
    reference: &Reference,
) -> Result<u8, BaseError>
    ensures found { IfOk result (λ found. ForSome (image_of base.old) (λ image.
        HasData image (node_of reference.now) found)) }
    ensures too_long { (result ≡ Err BaseError.KeyTooLong)
        ↔ (base.old.header.key_max < length (key_bytes (node_of reference.now))) }
    ensures read { OnlyRead H.told H.moment H.failures H.left_since base.old base.new }
    ensures ends { EndsAsking (H.failures base.old.host) (H.failures base.new.host) (image_of base.old ≡ None) result }
{
    let key = short_key(base.header(), reference)?;
    data_of_key(alloc, base, reference, &key)
}

// The same for a key that is short enough.
fn data_of_key<H: Host>(
    alloc: Global,
    base: &mut Base<H>,
    reference: &Reference,
    key: &[u8],
) -> Result<u8, BaseError>
    requires key { key.now ≡ key_bytes (node_of reference.now) }
    requires short { length key.now ≤ 255 }
    ensures found { IfOk result (λ found. ForSome (image_of base.old) (λ image.
        HasData image (node_of reference.now) found)) }
    ensures read { OnlyRead H.told H.moment H.failures H.left_since base.old base.new }
    ensures ends { EndsReading (H.failures base.old.host) (H.failures base.new.host) (image_of base.old ≡ None) result }
{
    let _header = base.header();
    let draft = base.draft(alloc);
    base.hold_draft(&draft);
    let Some(root) = root_of(alloc, base, &draft, &reference.name)? else {
        return Ok(0);
    };
    let own = first_under(alloc, base, &draft, root, Bound::Included(key), key)?;
    let below = first_under(
        alloc,
        base,
        &draft,
        root,
        Bound::Excluded(key),
        lead_of(key),
    )?;
    Ok(data_of(own.is_some(), below.is_some()))
}

// What DATA answers where a node has a value, and where one below it has.
fn data_of(own: bool, below: bool) -> u8
    ensures { result ≡ (if own then 1 else 0) + (if below then 10 else 0) }
{
    match (own, below) {
        (false, false) => 0,
        (true, false) => 1,
        (false, true) => 10,
        (true, true) => 11,
    }
}

/// QUERY: the next node of the same global.
pub fn query<H: Host>(
    alloc: Global,
    base: &mut Base<H>,
    reference: &Reference,
) -> Result<Option<Reference>, BaseError>
    ensures next { IfOk result (λ next. ForSome (image_of base.old) (λ image.
        FindsNode image (node_of reference.now) (option_map place_of next))) }
    ensures too_long { (result ≡ Err BaseError.KeyTooLong)
        ↔ (base.old.header.key_max < length (key_bytes (node_of reference.now))) }
    ensures read { OnlyRead H.told H.moment H.failures H.left_since base.old base.new }
    ensures ends { EndsAsking (H.failures base.old.host) (H.failures base.new.host) (image_of base.old ≡ None) result }
{
    let key = short_key(base.header(), reference)?;
    node_from(alloc, base, reference, Bound::Excluded(&key), &[])
}
