ghost use Rattle.gds_file.specs.ChangeLaws.{ItemsOutsideAreKill, KillInOneTree, KillOfOneTree, SetInNewTree};
ghost use Rattle.gds_file.specs.ChangeLaws.{SetInOneTree, SetItemIsSet};
ghost use Rattle.gds_file.specs.FileLaws.{DirectoryChanges, EntryComes, EntryGoes, GlobalChanges, NoTreeChanges};
ghost use Rattle.gds_file.specs.FileLaws.{StampKeepsTrees};
ghost use Rattle.gds_file.specs.FreeLaws.{FreeReshapes, FreeStaysLawful};
ghost use Rattle.gds_file.specs.GrowLaws.{GrowReshapes, GrowStaysLawful};
ghost use Rattle.gds_file.specs.MapLaws.{MapsAreRightInTwoParts};
ghost use Rattle.gds_file.specs.ReshapeLaws.{NothingReshapes, ReshapesCompose, ReshapesInAnyOrder, ReshapesWithMore};
ghost use Rattle.gds_file.specs.RewriteLaws.{RewriteKeepsHeader, RewriteReshapes, RewriteStaysLawful, RewritesCompose};
ghost use Rattle.gds_file.specs.RoomLaws.{ExtendedHasRoom, RoomByHeader};
ghost use Rattle.gds_file.specs.SameLaws.{SameCarriesOver};
ghost use Rattle.gds_file.specs.TakeLaws.{TakeReshapes, TakeStaysLawful};

/// A file that is the same as a sound one, but for what stands in blocks that were never used, is sound with the same
/// trees and stands for the same map.
pub fn same_carries_over()
    ensures { SameCarriesOver }
{}

/// Maps are right for a file's trees exactly where they are lawful and call busy what is in use.
pub fn maps_in_two_parts()
    ensures { MapsAreRightInTwoParts }
{}

/// Changes of blocks, one after another and side by side.
pub fn reshapes()
    ensures nothing { NothingReshapes }
    ensures compose { ReshapesCompose }
    ensures with_more { ReshapesWithMore }
    ensures any_order { ReshapesInAnyOrder }
{}

/// Blocks of trees that are written anew in their places: header and maps stay as they are, and it is a change of the
/// blocks to themselves.
pub fn rewrites()
    ensures header { RewriteKeepsHeader }
    ensures lawful { RewriteStaysLawful }
    ensures reshapes { RewriteReshapes }
    ensures compose { RewritesCompose }
{}

/// A free block is taken: the maps stay lawful, and it is a change of no block to that one.
pub fn takes()
    ensures lawful { TakeStaysLawful }
    ensures reshapes { TakeReshapes }
{}

/// A busy block becomes free: the maps stay lawful, and it is a change of that block to none.
pub fn frees()
    ensures lawful { FreeStaysLawful }
    ensures reshapes { FreeReshapes }
{}

/// A file grows: its maps stay lawful, and it is a change of no block to none.
pub fn grows()
    ensures lawful { GrowStaysLawful }
    ensures reshapes { GrowReshapes }
{}

/// The room of a file is how many blocks would be free if it grew to its limit. Where it grows by its extension, at
/// least 32 are free exactly where there is room for 32.
pub fn grown_room()
    ensures by_header { RoomByHeader }
    ensures extended { ExtendedHasRoom }
{}

/// A sound file stays sound where it only grows, where the tree of the directory or of one global becomes another sound
/// one, and where an entry of the directory comes or goes with its global's tree. Nothing but the blocks of these trees
/// changes, what is taken was free, and the maps are lawful.
pub fn file_stays_sound()
    ensures growing { NoTreeChanges }
    ensures global { GlobalChanges }
    ensures directory { DirectoryChanges }
    ensures comes { EntryComes }
    ensures goes { EntryGoes }
{}

/// Where a commit gives changed blocks the header's transaction number and adds 1 to the header's, all trees stay.
pub fn stamp_keeps_trees()
    ensures { StampKeepsTrees }
{}

/// Where the items of a file's globals change by one item that is set, the file stands for the map after a SET. It does
/// not matter of which tree it is an item.
pub fn set_item()
    ensures map { SetItemIsSet }
    ensures in_one_tree { SetInOneTree }
    ensures in_new_tree { SetInNewTree }
{}

/// Where the items of a node and of its descendants go, the file stands for the map after a KILL. They are all in
/// the tree of the node's global.
pub fn kill_items()
    ensures map { ItemsOutsideAreKill }
    ensures in_one_tree { KillInOneTree }
    ensures of_one_tree { KillOfOneTree }
{}
