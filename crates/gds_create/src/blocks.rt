//! The bytes of a new database's blocks.
ghost use Rattle.std.specs.Prelude.{◌≡◌, ◌+◌, ◌*◌, ◌<◌, ◌≤◌, ◌^◌, length, replicate};
ghost use Rattle.gds_header.specs.Kinds.{IsWithinLimits};
ghost use Rattle.gds_new.specs.NewDatabase.{new_block, new_leaf, new_map, new_root};
ghost use Rattle.gds_create.specs.Blocks.{new_blocks};

use crate::first::{GROUP, first_pairs};
use gds_block::{put_bytes, write_head};
use gds_header::Header;

/// The level and the used bytes of a map's head.
const MAP_LEVEL: u8 = 255;

const MAP_USED: u32 = 144;

/// The one record of block 1: a star, which points to block 2.
const STAR: [u8; 8] = [8, 0, 0, 0, 2, 0, 0, 0];

/// Fills a piece of memory with neighbouring blocks of a new database.
pub(crate) fn fill_blocks(header: &Header, first: u32, count: u32, out: &mut [u8])
    requires limits { IsWithinLimits header.now }
    requires within { first + count ≤ header.now.total }
    requires room { length out.old ≡ count * header.now.block_size }
    ensures { out.new ≡ new_blocks header.now first count }
{
    let size = header.block_size as usize;
    for i in 0..count {
        let at = i as usize * size;
        fill_block(header, first + i, &mut out[at..at + size]);
    }
}

/// Fills the room of a block with it.
fn fill_block(header: &Header, block: u32, out: &mut [u8])
    requires limits { IsWithinLimits header.now }
    requires within { block < header.now.total }
    requires room { length out.old ≡ header.now.block_size }
    ensures { out.new ≡ new_block header.now block }
{
    out.fill(0);
    if block % GROUP == 0 {
        put_map(header, block / GROUP, out);
    } else if block == 1 {
        put_root(header, out);
    } else if block == 2 {
        put_leaf(header, out);
    }
}

/// Puts the map of a group into zeros.
fn put_map(header: &Header, group: u32, out: &mut [u8])
    requires limits { IsWithinLimits header.now }
    requires within { group < 2048 }
    requires zeros { out.old ≡ replicate header.now.block_size 0 }
    ensures { out.new ≡ new_map header.now group }
{
    write_head(out, MAP_LEVEL, MAP_USED, 0);
    put_bytes(out, 16, &first_pairs(header, group));
}

/// Puts the root of the directory into zeros.
fn put_root(header: &Header, out: &mut [u8])
    requires limits { IsWithinLimits header.now }
    requires zeros { out.old ≡ replicate header.now.block_size 0 }
    ensures { out.new ≡ new_root header.now }
{
    write_head(out, 1, 24, 0);
    put_bytes(out, 16, &STAR);
}

/// Puts the directory's block at level 0 into zeros.
fn put_leaf(header: &Header, out: &mut [u8])
    requires limits { IsWithinLimits header.now }
    requires zeros { out.old ≡ replicate header.now.block_size 0 }
    ensures { out.new ≡ new_leaf header.now }
{
    write_head(out, 0, 16, 0);
}
