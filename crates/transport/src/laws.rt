// The theorems of this crate, one function each, so that a check asks for their proofs.
ghost use Rattle.transport.specs.TransportLaws.{Bounds, Readings};

// Every transport that is shipped takes messages of up to 3,192 bytes, and every mailbox holds at most 16.
pub fn bounds_are_kept()
    ensures bounds { Bounds }
{}

// A reading that was put in front of a message is the one that is read there.
pub fn readings_come_back()
    ensures readings { Readings }
{}
