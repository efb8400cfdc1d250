ghost use Rattle.gds_images.specs.Laws.{EndsAtItsGate, LaysBackItself, LaysOverOutside, NeedsItsEpoch, OpensToGroup};
ghost use Rattle.gds_images.specs.Laws.{RestIsFound, SameIsEquivalence};

/// What stands behind the closed gate of a file of images doesn't matter.
pub fn ends_at_its_gate()
    ensures { EndsAtItsGate }
{}

/// A good chain is the same beside each database that is as long as that of its epoch.
pub fn needs_its_epoch()
    ensures { NeedsItsEpoch }
{}

/// Where a group stands behind the closed gate, opening the gate appends its images.
pub fn opens_to_group()
    ensures { OpensToGroup }
{}

/// What is laid back depends on the bytes outside the images' ranges alone.
pub fn lays_over_outside()
    ensures { LaysOverOutside }
{}

/// Images of the bytes that a file has change nothing.
pub fn lays_back_itself()
    ensures { LaysBackItself }
{}

/// What is recovered of files at rest is the database that they hold.
pub fn rest_is_found()
    ensures { RestIsFound }
{}

/// To be the same is an equivalence.
pub fn same_is_equivalence()
    ensures { SameIsEquivalence }
{}
