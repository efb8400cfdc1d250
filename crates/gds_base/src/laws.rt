ghost use Rattle.gds_base.specs.Finds.{FindsOneOfTwo, FindsStill, FindsStored, FindsTheSame};

use host_model::Host;

/// What a crash leaves, said of maps of globals: where the next opening found one map before a call, it finds that one
/// or the one that the image stands for.
pub fn finds<H: Host>(old: &H, new: &H)
    ensures still { FindsStill H.moment H.left_since old.now new.now }
    ensures one_of_two { FindsOneOfTwo H.moment H.left_since old.now new.now }
    ensures the_same { FindsTheSame H.moment H.left_since old.now new.now }
    ensures stored { FindsStored H.moment H.left_since old.now new.now }
{}
