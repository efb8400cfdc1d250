ghost use Rattle.gds_globals.specs.SetLaws.{SetInGlobal, SetInNewGlobal, SetIsInMap};

/// Where an item is set in the tree of a global, or a new tree comes with it and an entry of the directory leads there,
/// the file stays sound, and stands for the map after the SET.
pub fn item_of_global()
    ensures map { SetIsInMap }
    ensures global { SetInGlobal }
    ensures new_global { SetInNewGlobal }
{}
