//! Faults that no path leads to, as they are told.
ghost use Rattle.std.specs.Prelude.{◌≡◌, ◌≤◌, ◌∷◌, [], length, map, IfOk};
ghost use Rattle.gds_law.specs.Maps.{fault_of};
ghost use Rattle.gds_law.specs.Sink.{WasTold};
ghost use Rattle.integ.specs.Standing.{standing};

use gds_law::{Fault, FaultKind, FaultSink, Path, SinkTrouble};

/// A kind, and whether it stands.
pub(crate) type Asked = (FaultKind, bool);

/// Tells a fault of a block.
pub(crate) fn tell<F: FaultSink>(
    block: u32,
    kind: FaultKind,
    sink: &mut F,
) -> Result<(), SinkTrouble>
    ensures { WasTold F.listed F.failures sink.old sink.new (fault_of block kind ∷ []) result SinkTrouble.Failed }
{
    sink.fault(&Fault {
        kind,
        block,
        offset: 0,
        level: 0,
        path: Path::new(),
    })
}

/// Tells those of the kinds that stand of a block, in their order, and answers how many they are.
pub(crate) fn tell_standing<F: FaultSink>(
    block: u32,
    kinds: &[Asked],
    sink: &mut F,
) -> Result<u64, SinkTrouble>
    ensures told { WasTold F.listed F.failures sink.old sink.new (map (fault_of block) (standing kinds.now)) result
        SinkTrouble.Failed }
    ensures count { IfOk result (λ count. count ≡ length (standing kinds.now)) }
    ensures few { IfOk result (λ count. count ≤ length kinds.now) }
{
    let mut count = 0;
    for (kind, stands) in kinds {
        if *stands {
            tell(block, *kind, sink)?;
            count += 1;
        }
    }
    Ok(count)
}
