ghost use Rattle.std.specs.Prelude.{◌≡◌, ◌+◌, ◌<◌, ◌≤◌, Err, OnErr, OnOk, length};
ghost use Rattle.gds_base.specs.Spaces.{blocks_beside_maps};
ghost use Rattle.gds_base.specs.Drafting.{Drafts, IsDraftFor};
ghost use Rattle.gds_base.specs.declared.error.BaseError.TheVariants.{Memory};
ghost use Rattle.gds_pack.specs.Entry.{items};
ghost use Rattle.gds_pack.specs.Packable.{ArePackable};
ghost use Rattle.gds_pack.specs.Packed.{packed_size};
ghost use Rattle.gds_splice.specs.Writing.{HasMore, PutsEntries};

use gds_base::{Base, BaseError};
use gds_draft::Draft;
use gds_pack::{Entry, pack};
use host_model::Host;
use std::alloc::Global;

/// Writes a block of a draft with these entries.
pub fn put_entries<H: Host>(
    alloc: Global,
    base: &Base<H>,
    draft: &mut Draft,
    n: u32,
    level: u8,
    entries: &[Entry],
) -> Result<(), BaseError>
    requires draft { IsDraftFor base.now.header draft.old }
    requires there { n < draft.old.header.total }
    requires fits { packed_size (items entries.now) ≤ base.now.header.block_size }
    requires packable { ArePackable level (items entries.now) }

    ensures put { OnOk result (Drafts base.now draft.old draft.new (λ before after.
        PutsEntries before after n level (items entries.now))) }
    ensures more { HasMore draft.old draft.new 1 }
    ensures beside { blocks_beside_maps draft.new ≤ blocks_beside_maps draft.old + 1 }
    ensures err { OnErr result (result ≡ Err Memory) }
{
    let mut room = Vec::from_elem(alloc, 0, base.header().block_size as usize)?;
    put_packed(alloc, base, draft, n, level, entries, &mut room)
}

// The same with room for the block.
fn put_packed<H: Host>(
    alloc: Global,
    base: &Base<H>,
    draft: &mut Draft,
    n: u32,
    level: u8,
    entries: &[Entry],
    room: &mut [u8],
) -> Result<(), BaseError>
    requires draft { IsDraftFor base.now.header draft.old }
    requires there { n < draft.old.header.total }
    requires room { length room.old ≡ base.now.header.block_size }
    requires fits { packed_size (items entries.now) ≤ base.now.header.block_size }
    requires packable { ArePackable level (items entries.now) }

    ensures put { OnOk result (Drafts base.now draft.old draft.new (λ before after.
        PutsEntries before after n level (items entries.now))) }
    ensures more { HasMore draft.old draft.new 1 }
    ensures beside { blocks_beside_maps draft.new ≤ blocks_beside_maps draft.old + 1 }
    ensures err { OnErr result (result ≡ Err Memory) }
{
    base.hold_draft(draft);
    let _limits = base.header();
    let _drafted = draft.header();
    pack(entries, level, 0, room);
    base.put(alloc, draft, n, room)
}
