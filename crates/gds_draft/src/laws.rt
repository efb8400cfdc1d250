ghost use Rattle.gds_draft.specs.Committed.{CommittedIsBytes, CommittedIsOne, CommittedIsStamped};
ghost use Rattle.gds_draft.specs.Laws.{DraftedHeader, DraftedReads, NothingDrafted, SameByBlocks};
ghost use Rattle.gds_draft.specs.PutLaws.{HeaderPut, PutIsThere, PutRewrites};

/// The image with a draft has the draft's header and its blocks, and else those of the image, or zeros behind its end.
pub fn drafted_reads()
    ensures { DraftedReads }
{}

/// Its header has no fault exactly where the draft's transaction number is from 1 to 2^63 and its master map says of no
/// group past the last that it has a free block.
pub fn drafted_header()
    ensures { DraftedHeader }
{}

/// A draft of a faultless image that changes nothing is that image.
pub fn nothing_drafted()
    ensures { NothingDrafted }
{}

/// A block that is put into a draft is written anew in the image with it, and the draft has it.
pub fn put_rewrites()
    ensures image { PutRewrites }
    ensures draft { PutIsThere }
{}

/// Another header of a draft is that of the image with it, in which the blocks stay, and further ones are zero.
pub fn header_put()
    ensures { HeaderPut }
{}

/// What a commit makes of an image and a draft is the image with the draft, stamped, and two such files are one.
pub fn stamped_draft()
    ensures stamped { CommittedIsStamped }
    ensures one { CommittedIsOne }
{}

/// What a commit makes of bytes is bytes. What a draft has are bytes, as `Draft::hold_bytes` says.
pub fn committed_bytes()
    ensures { CommittedIsBytes }
{}

/// Files of one length that begin alike and have the same blocks are one.
pub fn same_by_blocks()
    ensures { SameByBlocks }
{}
