ghost use Rattle.std.specs.Prelude.{◌<◌, ℕ, List, [], All};
ghost use Rattle.gds_law.specs.Faults.{AreFaults};
ghost use Rattle.gds_sound.specs.Sound.{HasOneMap, ReadingsAgree};

/// The two readings of a file agree: it has no fault exactly where it is sound, and a sound file stands for the
/// map whose pairs are the items of its globals' trees.
pub fn readings_agree()
    ensures { (image : List ℕ) → ReadingsAgree image }
{}

/// A file of bytes without faults stands for exactly one map.
pub fn one_map()
    ensures { (image : List ℕ) → All (λ b. b < 256) image → AreFaults image [] → HasOneMap image }
{}
