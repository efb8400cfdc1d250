//! The walk of the trees of a database file: which paths are kept, in reading order, and the faults that stand there.
#![tactic(auto)]

ghost use Rattle.std.specs.Prelude.{◌≡◌, ◌<◌, ◌+◌, ◌/◌, ◌^◌, length, IfOk, OnErr};
ghost use Rattle.std.specs.Option.{ForSome};
ghost use Rattle.gds_header.specs.Kinds.{IsWithinLimits};
ghost use Rattle.integ_walk.specs.Walk.{HasCause, IsHeaderOf, IsWalked, IsWalkedInPart};

mod block_set;
mod frame;
mod link;
mod walker;

use gds_header::Header;
use gds_law::FaultSink;
use host_model::UnitSource;
use integ_block::IntegError;
use std::alloc::Global;
use walker::Walker;

/// What a walk has seen.
#[derive(Debug, PartialEq, Eq, Drop)]
pub struct Seen {
    /// The blocks that kept paths end in: block b is bit b mod 8 of byte b div 8.
    pub used: Vec<u8>,
    /// How many faults were told.
    pub faults: u64,
}

/// Tells all faults of the trees of a file whose header can be read, in reading order. Where it is refused, some of the
/// first of them were told.
pub fn walk<U: UnitSource, F: FaultSink>(
    alloc: Global,
    units: &mut U,
    header: &Header,
    sink: &mut F,
) -> Result<Seen, IntegError>
    requires limits { IsWithinLimits header.now }
    requires header { ForSome (U.image units.old) (IsHeaderOf header.now) }

    // Where the source tells: all faults and the blocks in use, or some of the first faults.
    ensures walked { ForSome (U.image units.old) (λ file.
        IfOk result (λ seen. IsWalked file (F.listed sink.old) (F.listed sink.new) seen.used.items seen.faults)) }
    ensures refused { ForSome (U.image units.old) (λ file.
        OnErr result (IsWalkedInPart file (F.listed sink.old) (F.listed sink.new))) }

    // Whether it tells or not:
    ensures room { IfOk result (λ seen. length seen.used.items ≡ (header.now.total + 7) / 8) }
    ensures few { IfOk result (λ seen. seen.faults < 2 ^ 42) }
    ensures cause { HasCause U.image U.failures F.failures units.old units.new sink.old sink.new result }
    ensures source { U.was_read units.old units.new }
{
    let mut walker = Walker::new(alloc, header)?;
    walker.begin(header, units, sink)?;
    while walker.step(header, units, sink)? {}
    Ok(walker.into_seen())
}
