//! What a file that grows has: its header, the map of its last group, and new maps.
ghost use Rattle.std.specs.Prelude.{◌≡◌, ◌+◌, ◌-◌, ◌*◌, ◌<◌, ◌≤◌, IfOk, OnOk, length};
ghost use Rattle.gds_header.specs.Kinds.{IsWithinLimits, groups_of};
ghost use Rattle.gds_file.specs.Room.{extended, grown_free};
ghost use Rattle.gds_base.specs.Reserve.{GetsMaps, GetsPlaces, GrowsHeader, IsNewMap};
ghost use Rattle.gds_base.specs.Spaces.{present_in};

use crate::groups::present_in;
use gds_bitmap::{State, fresh, mark};
use gds_draft::Draft;
use gds_header::Header;
use std::alloc::{AllocError, Global};

/// How many blocks a file has that grows by its extension, or up to its limit.
pub(crate) fn extended(header: &Header) -> u32
    requires { IsWithinLimits header.now }
    ensures { result ≡ extended header.now }
{
    (header.total + header.extension).min(header.limit)
}

/// How many blocks of a file are free once it has grown to a total.
pub(crate) fn grown_free(header: &Header, total: u32) -> u32
    requires limits { IsWithinLimits header.now }
    requires few { header.now.free < 32 }
    requires from { header.now.total ≤ total }
    requires to { total ≤ header.now.limit }
    ensures { result ≡ grown_free header.now total }
{
    let new_maps = total.div_ceil(512) - header.total.div_ceil(512);
    header.free + (total - header.total) - new_maps
}

/// The header of a file that has grown to a total.
pub(crate) fn grown_header(old: &Header, total: u32) -> Header
    requires limits { IsWithinLimits old.now }
    requires few { old.now.free < 32 }
    requires from { old.now.total ≤ total }
    requires to { total ≤ old.now.limit }
    ensures { GrowsHeader old.now result total }
{
    let mut header = *old;
    header.free = grown_free(old, total);
    header.total = total;
    for group in old.total / 512..total.div_ceil(512) {
        let has_free = present_in(&header, group) > 1;
        header.mark_group(group, has_free);
    }
    header
}

/// Makes the places of a map new from one on and below another.
pub(crate) fn mark_new(map: &mut [u8], from: u32, to: u32)
    requires map { 144 ≤ length map.old }
    requires from { from ≤ to }
    requires to { to ≤ 512 }
    ensures { GetsPlaces map.old map.new from to }
{
    for k in from..to {
        mark(map, k, State::New);
    }
}

/// Gives a draft a new map for each group from one on and below another.
pub(crate) fn put_new_maps(
    alloc: Global,
    draft: &mut Draft,
    tn: u64,
    from: u32,
    to: u32,
) -> Result<(), AllocError>
    requires from { from ≤ to }
    requires to { to ≤ groups_of draft.old.header }
    ensures maps { OnOk result (GetsMaps draft.old draft.new tn from to) }
    ensures header { draft.new.header ≡ draft.old.header }
    ensures more { length draft.new.units ≤ length draft.old.units + (to - from) }
{
    let header = *draft.header();
    for group in from..to {
        let map = new_map(alloc, &header, tn, group)?;
        let _header = draft.header();
        draft.put_vec(512 * group, map)?;
    }
    Ok(())
}

// The map of a group all of whose blocks are new.
fn new_map(alloc: Global, header: &Header, tn: u64, group: u32) -> Result<Vec<u8>, AllocError>
    requires limits { IsWithinLimits header.now }
    requires there { 512 * group < header.now.total }
    ensures new { IfOk result (λ map. IsNewMap map.items tn (present_in header.now group)) }
    ensures len { IfOk result (λ map. length map.items ≡ header.now.block_size) }
{
    let mut map = Vec::from_elem(alloc, 0, header.block_size as usize)?;
    fresh(&mut map, present_in(header, group), tn);
    Ok(map)
}
