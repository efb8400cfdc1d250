//! INTEG of a database file, whole: every fault of any file, in order.
#![tactic(auto)]

ghost use Rattle.std.specs.Prelude.{◌≡◌, Ok, IfOk, OnErr};
ghost use Rattle.std.specs.Option.{ForSome};
ghost use Rattle.gds_sound.specs.Sound.{HasOneMap};
ghost use Rattle.integ.specs.Integ.{IsToldInPart, IsToldWhole};
ghost use Rattle.integ_walk.specs.Walk.{HasCause};

mod group;
mod header;
mod history;
mod maps;
mod opening;
mod pairs;
mod raw_file;
mod sinks;
mod telling;

use gds_header::HEADER_LENGTH;
use gds_law::{FaultKind, FaultSink};
use host_model::UnitSource;
use integ_block::IntegError;
pub use maps::map_faults;
use opening::{open, tell_open};
pub use raw_file::RawFile;
pub use sinks::{CountSink, ListSink};
use std::alloc::Global;
use telling::tell;

/// Tells all faults of a database file, in their order, and answers how many they are. Where it is refused, some of the
/// first of them were told. A file without faults stands for exactly one map of globals.
pub fn integ<U: UnitSource, F: FaultSink>(
    alloc: Global,
    units: &mut U,
    sink: &mut F,
) -> Result<u64, IntegError>
    // Where the source tells: all faults, or some of the first.
    ensures told { ForSome (U.image units.old) (λ file.
        IfOk result (IsToldWhole file (F.listed sink.old) (F.listed sink.new))) }
    ensures refused { ForSome (U.image units.old) (λ file.
        OnErr result (IsToldInPart file (F.listed sink.old) (F.listed sink.new))) }
    ensures one_map { result ≡ Ok 0 → ForSome (U.image units.old) HasOneMap }

    // Whether it tells or not:
    ensures source { U.was_read units.old units.new }
    ensures cause { HasCause U.image U.failures F.failures units.old units.new sink.old sink.new result }
{
    let mut bytes = [0; HEADER_LENGTH];
    let opened = open(units, &mut bytes)?;
    match opened.header {
        Ok(header) => tell_open(alloc, units, &header, &bytes, opened.size, sink),
        Err(kind) => {
            tell(0, FaultKind::from(kind), sink)?;
            Ok(1)
        }
    }
}
