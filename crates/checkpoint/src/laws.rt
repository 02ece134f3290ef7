// The theorems of this crate, one function each, so that a check asks for their proofs.
ghost use Rattle.checkpoint.specs.FormatLaws.{ReadsBack, SoleSpelling, ReadsSound, OwnRow, Lengths};

// A sound checkpoint is read back from its spelling; what reads is sound, and the only spelling of its contents.
pub fn format_is_exact()
    ensures back { ReadsBack }
    ensures sole { SoleSpelling }
    ensures sound { ReadsSound }
{}

// A replica's own row is its timestamp, and every checkpoint is as long as the format says, at most 3,320 bytes.
pub fn checkpoints_are_bounded()
    ensures own { OwnRow }
    ensures lengths { Lengths }
{}
