// Begin: a group of one to seven, and a replica of it.
use super::check_is;
use gossip::{Counts, Lattice};
use replica::{Membership, Refusal, Replica};
use std::test::Fail;

fn number_of(answer: Result<(), Refusal>) -> u8 {
    match answer {
        Ok(()) => 0,
        Err(refusal) => refusal.number(),
    }
}

#[test]
fn a_replica_begins_as_one_of_one_to_seven(rt: HostRuntime) -> Result<(), Fail> {
    // n, replica, and the number of the refusal
    let cases = [
        (0, 0, 13),
        (1, 0, 0),
        (7, 0, 0),
        (8, 0, 13),
        (1, 1, 1),
        (3, 2, 0),
        (3, 3, 1),
        (7, 6, 0),
        (7, 7, 1),
        (0, 1, 13),
        (8, 8, 13),
    ];
    let first = Membership {
        n: 2,
        replica: 1,
        group: 7,
        grace: 10,
    };
    let mut replica = Replica::new(rt.alloc())?;
    for (n, own, number) in cases {
        replica.begin(first)?;
        replica.enter::<Counts>(100, 5, 20, 20)?;
        let before = replica.checkpoint();
        let asked = Membership {
            n,
            replica: own,
            group: 8,
            grace: 0,
        };
        assert_eq!(rt; (n, own, number_of(replica.begin(asked))), (n, own, number));
        if number == 0 {
            assert_eq!(rt; replica.membership(), asked);
            assert_eq!(rt; replica.clock(), 0);
        } else {
            assert_eq!(rt; replica.membership(), first);
            check_is(&rt, &replica, &before);
        }
    }
    Ok(())
}
