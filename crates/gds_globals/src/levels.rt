ghost use Rattle.std.specs.Prelude.{◌≡◌, ◌<◌, ◌≤◌, [], IfOk, None, false, length, option_and_then, option_map, true};
ghost use Rattle.std.specs.Option.{ForSome};
ghost use Rattle.gds_base.specs.Ending.{EndsReading};
ghost use Rattle.gds_sound.specs.Questions.{subscript_of};
ghost use Rattle.gds_units.specs.Reading.{OnlyRead};
ghost use Rattle.gds_units.specs.State.{image_of};
ghost use Rattle.m_key.specs.Key.{key_bytes};
ghost use Rattle.m_key.specs.Reference.{node_of, place_of, subscript_list};
ghost use Rattle.gds_globals.specs.Questions.{FindsNext, next_of};

use crate::asking::{DIRECTORY, directory_key};
use crate::looking::{first_under, front_of, lead_of, node_from, node_past};
use crate::questions::Next;
use gds_base::{Base, BaseError};
use host_model::Host;
use m_key::Reference;
use std::alloc::Global;
use std::ops::Bound;

/// The first subscript below a node.
pub(crate) fn first_subscript<H: Host>(
    alloc: Global,
    base: &mut Base<H>,
    reference: &Reference,
    key: &[u8],
) -> Result<Option<Next>, BaseError>
    requires key { key.now ≡ key_bytes (node_of reference.now) }
    requires short { length key.now ≤ 255 }
    ensures next { IfOk result (λ next. ForSome (image_of base.old) (λ image.
        FindsNext image (node_of reference.now) true (option_map next_of next))) }
    ensures read { OnlyRead H.told H.moment H.failures H.left_since base.old base.new }
    ensures ends { EndsReading (H.failures base.old.host) (H.failures base.new.host) (image_of base.old ≡ None) result }
{
    let found = node_from(alloc, base, reference, Bound::Excluded(key), lead_of(key))?;
    Ok(next_at(found, reference.subscripts.as_slice().len()))
}

/// The next subscript on the level of a node that has one.
pub(crate) fn next_subscript<H: Host>(
    alloc: Global,
    base: &mut Base<H>,
    reference: &Reference,
    key: &[u8],
) -> Result<Option<Next>, BaseError>
    requires key { key.now ≡ key_bytes (node_of reference.now) }
    requires short { length key.now ≤ 255 }
    requires some { 0 < length (subscript_list reference.now.subscripts) }
    ensures next { IfOk result (λ next. ForSome (image_of base.old) (λ image.
        FindsNext image (node_of reference.now) false (option_map next_of next))) }
    ensures read { OnlyRead H.told H.moment H.failures H.left_since base.old base.new }
    ensures ends { EndsReading (H.failures base.old.host) (H.failures base.new.host) (image_of base.old ≡ None) result }
{
    let found = node_past(alloc, base, reference, key, front_of(key))?;
    Ok(next_at(
        found,
        reference.subscripts.as_slice().len().saturating_sub(1),
    ))
}

// The subscript of this level in a node that was found.
fn next_at(found: Option<Reference>, level: usize) -> Option<Next>
    ensures { option_map next_of result ≡ option_and_then (subscript_of level) (option_map place_of found) }
{
    let mut subscripts = found?.subscripts.into_vec();
    if level >= subscripts.len() {
        return None;
    }
    Some(Next::Subscript(subscripts.swap_remove(level)))
}

/// The name of the next global.
pub(crate) fn next_name<H: Host>(
    alloc: Global,
    base: &mut Base<H>,
    reference: &Reference,
) -> Result<Option<Next>, BaseError>
    requires { subscript_list reference.now.subscripts ≡ [] }
    ensures next { IfOk result (λ next. ForSome (image_of base.old) (λ image.
        FindsNext image (node_of reference.now) false (option_map next_of next))) }
    ensures read { OnlyRead H.told H.moment H.failures H.left_since base.old base.new }
    ensures ends { EndsReading (H.failures base.old.host) (H.failures base.new.host) (image_of base.old ≡ None) result }
{
    let _header = base.header();
    let draft = base.draft(alloc);
    base.hold_draft(&draft);
    let key = directory_key(&reference.name);
    let Some(found) = first_under(alloc, base, &draft, DIRECTORY, Bound::Excluded(&key), &[])?
    else {
        return Ok(None);
    };
    Ok(Some(Next::Name(found.name)))
}
