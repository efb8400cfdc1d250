ghost use Rattle.std.specs.Prelude.{ℕ, List};
ghost use Rattle.gds_law.specs.Faults.{HasOneReading, HasOneFaultList};

/// Each image has exactly one list of kept paths.
pub fn kept_paths()
    ensures { (image : List ℕ) → HasOneReading image }
{}

/// Each image has exactly one list of faults.
pub fn fault_lists()
    ensures { (image : List ℕ) → HasOneFaultList image }
{}
