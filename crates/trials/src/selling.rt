// The example of the front page: a replica that sells seats.
use gossip::{Counts, Timestamp};
use replica::{Lookup, Membership, Refusal, Replica};
use std::test::Fail;

// Sells a seat for a count, and says what the replica knows of it then.
fn sell(replica: &mut Replica, seat: u64, count: u64, now: u64) -> Result<Lookup, Refusal> {
    replica.enter::<Counts>(seat, count, now, now)?;
    Ok(replica.lookup(seat, &Timestamp::zero()))
}

#[test]
fn a_seat_that_is_sold_is_known(rt: HostRuntime) -> Result<(), Fail> {
    let mut replica = Replica::new(rt.alloc())?;
    replica.begin(Membership {
        n: 3,
        replica: 0,
        group: 7,
        grace: 10,
    })?;
    match sell(&mut replica, 100, 5, 20)? {
        Lookup::Known { value, .. } => {
            assert_eq!(rt; value, 5);
            Ok(())
        },
        _ => Err(Fail::new("not known")),
    }
}
