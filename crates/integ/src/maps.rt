ghost use Rattle.std.specs.Prelude.{◌≡◌, ◌<◌, ◌++◌, ◌^◌, length, IfOk};
ghost use Rattle.std.specs.Option.{ForSome};
ghost use Rattle.gds_header.specs.Kinds.{IsWithinLimits};
ghost use Rattle.gds_law.specs.Maps.{count_faults, free_blocks, map_faults};
ghost use Rattle.gds_law.specs.Sink.{Grew};
ghost use Rattle.integ.specs.GroupMap.{in_use};
ghost use Rattle.integ_walk.specs.Walk.{HasCause, IsHeaderOf};

use crate::group::{GROUP, Group};
use crate::telling::tell;
use gds_header::Header;
use gds_law::{FaultKind, FaultSink};
use host_model::UnitSource;
use integ_block::IntegError;
use std::alloc::Global;

/// What was told of the maps: how many faults, and how many blocks are free.
#[derive(Clone, Copy)]
struct MapsTold {
    faults: u64,
    free: u32,
}

/// Tells the faults of the local bitmaps of a file with this header, group by group, and then that of its free count.
/// It answers how many they are. A block is in use where it is a map, or is in the set `used`: block b is bit b mod 8
/// of
/// byte b div 8. Where the call is refused, some of the first faults were told.
pub fn map_faults<U: UnitSource, F: FaultSink>(
    alloc: Global,
    units: &mut U,
    header: &Header,
    used: &[u8],
    sink: &mut F,
) -> Result<u64, IntegError>
    requires limits { IsWithinLimits header.now }
    requires header { ForSome (U.image units.old) (IsHeaderOf header.now) }
    ensures told { ForSome (U.image units.old)
        (λ file. let due = map_faults file (in_use used.now) ++ count_faults file in
        Grew (F.listed sink.old) (F.listed sink.new) due result) }
    ensures count { IfOk result (λ n. ForSome (U.image units.old)
        (λ file. n ≡ length (map_faults file (in_use used.now) ++ count_faults file))) }

    // Whether it tells or not:
    ensures few { IfOk result (λ n. n < 2 ^ 32) }
    ensures source { U.was_read units.old units.new }
    ensures cause { HasCause U.image U.failures F.failures units.old units.new sink.old sink.new result }
{
    let mut block = vec![in alloc; 0; header.block_size as usize]?;
    let told = tell_maps(units, header, used, &mut block, sink)?;
    if told.free == header.free {
        return Ok(told.faults);
    }
    tell(0, FaultKind::WrongFreeCount, sink)?;
    Ok(told.faults + 1)
}

/// Tells the faults of the maps, each of which it reads into `block`.
fn tell_maps<U: UnitSource, F: FaultSink>(
    units: &mut U,
    header: &Header,
    used: &[u8],
    block: &mut [u8],
    sink: &mut F,
) -> Result<MapsTold, IntegError>
    requires limits { IsWithinLimits header.now }
    requires header { ForSome (U.image units.old) (IsHeaderOf header.now) }
    requires block { length block.old ≡ header.now.block_size }
    ensures told { ForSome (U.image units.old) (λ file.
        Grew (F.listed sink.old) (F.listed sink.new) (map_faults file (in_use used.now)) result) }
    ensures count { IfOk result (λ told. ForSome (U.image units.old)
        (λ file. told.faults ≡ length (map_faults file (in_use used.now)))) }
    ensures free { IfOk result (λ told. ForSome (U.image units.old) (λ file. told.free ≡ free_blocks file)) }
    ensures few { IfOk result (λ told. told.faults < 2 ^ 31) }
    ensures source { U.was_read units.old units.new }
    ensures cause { HasCause U.image U.failures F.failures units.old units.new sink.old sink.new result }
{
    let mut maps = MapsTold { faults: 0, free: 0 };
    for number in 0..header.total.div_ceil(GROUP) {
        units.unit(GROUP * number + 1, block)?;
        let group = Group {
            header,
            number,
            map: &*block,
            used,
        };
        let told = group.tell_all(sink)?;
        maps.faults += told.faults;
        maps.free += told.free;
    }
    Ok(maps)
}
