// The transport that the service ships: a mailbox whose messages go out of date.
ghost use Rattle.std.specs.Prelude.{IfOk};
ghost use Rattle.transport.specs.Shipped.{Empty};

use crate::expiring::Expiring;
use crate::mailbox::Mailbox;
use std::alloc::{AllocError, Global};

pub type ExpiringMailbox = Expiring<Mailbox>;

// A mailbox that holds nothing, under a layer with this grace.
pub fn expiring_mailbox(heap: Global, grace: u32) -> Result<ExpiringMailbox, AllocError>
    ensures answer { IfOk result (Empty grace) }
{
    let mailbox = Mailbox::new(heap)?;
    Ok(Expiring::new(mailbox, grace))
}
