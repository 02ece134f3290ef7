// The theorems of this crate, one function each, so that a check asks for their proofs.
ghost use Rattle.replica.specs.StepLaws.{KeepsSound, KeepsKind, StartsSound, Restores};
ghost use Rattle.replica.specs.WorkedCases.{WorkedCases};

// A replica that knows nothing is sound, and every step leaves a sound replica, with values of the kind.
pub fn steps_keep_replicas_sound()
    ensures starts { StartsSound }
    ensures sound { KeepsSound }
    ensures kind { KeepsKind }
{}

// A replica is read back from its checkpoint; what reads as its checkpoint is a sound replica, and the only spelling of it.
pub fn checkpoints_restore_replicas()
    ensures restores { Restores }
{}

// Examples with numbers.
pub fn worked_cases_hold()
    ensures { WorkedCases }
{}
