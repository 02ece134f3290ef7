// The theorems of this crate, one function each, so that a check asks for their proofs.
ghost use Rattle.gossip.specs.FormatLaws.{ReadsBack, SoleSpelling, ReadsSound};
ghost use Rattle.gossip.specs.TimestampLaws.{Order, Join};
ghost use Rattle.gossip.specs.WorkedCases.{WorkedCases};

// At-or-under is a partial order, and a merge is its least upper bound.
pub fn timestamps_are_ordered()
    ensures order { Order }
    ensures join { Join }
{}

// A sound message is read back from its spelling; what reads is sound, and the only spelling of its contents.
pub fn format_is_exact()
    ensures back { ReadsBack }
    ensures sole { SoleSpelling }
    ensures sound { ReadsSound }
{}

// Examples with numbers, and the lengths of messages.
pub fn worked_cases_hold()
    ensures { WorkedCases }
{}
