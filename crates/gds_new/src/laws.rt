ghost use Rattle.gds_new.specs.Laws.{NewIsEmpty, NewIsWhole};

/// Nothing ends the reading of a new database's header, where that is within the limits, and the file has the length
/// that the header says.
pub fn new_is_whole()
    ensures { NewIsWhole }
{}

/// A new database whose header is within the limits reads as it was written, is sound, and stands for the map without
/// nodes.
pub fn new_is_empty()
    ensures { NewIsEmpty }
{}
