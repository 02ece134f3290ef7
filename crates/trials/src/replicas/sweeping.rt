// Sweep: a tombstone goes once its time and the grace are over and every replica is known to have it.
use super::Answer::{Refused, Swept};
use super::{
    Answer, LATEST, TOO_LATE, check_is, entry_of, has_changed, hear, of_sweep, of_two, put_back,
    tombstone, two, value,
};
use gossip::{Counts, Gossip, Head, State, Timestamp};
use replica::{Membership, Replica};
use std::process::Abort;
use std::test::Fail;

// Each sweep is tried on the same replica: reading, and the answer.
fn try_sweeps(rt: &impl Abort, replica: &mut Replica, cases: &[(u64, Answer)]) -> Result<(), Fail> {
    let before = replica.checkpoint();
    for &(reading, answer) in cases {
        assert_eq!(rt;
            (reading, of_sweep(replica.sweep(reading))),
            (reading, answer)
        );
        if !has_changed(answer) {
            check_is(rt, replica, &before);
        }
        put_back::<Counts>(rt, replica, &before)?;
    }
    Ok(())
}

#[test]
fn a_sweep_removes_and_counts_what_is_over(rt: HostRuntime) -> Result<(), Fail> {
    let mut replica = of_two(rt.alloc(), 0)?;
    let known = two(0, 1)?;
    let entries = [
        tombstone(1, 30, known),
        value(2, 5),
        tombstone(3, 10, known),
        tombstone(4, 20, known),
        value(5, 5),
        tombstone(6, LATEST, known),
    ];
    hear::<Counts>(&rt, &mut replica, (0, 2), &entries, 15)?;
    try_sweeps(
        &rt,
        &mut replica,
        &[
            (0, Swept(0)),
            (20, Swept(0)),
            (21, Swept(1)),
            (30, Swept(1)),
            (31, Swept(2)),
            (40, Swept(2)),
            (41, Swept(3)),
            (LATEST, Swept(3)),
            (TOO_LATE, Refused(4)),
        ],
    )?;
    replica.sweep(31)?;
    // seats, and whether they have an entry still
    for (seat, is_there) in [
        (1, true),
        (2, true),
        (3, false),
        (4, false),
        (5, true),
        (6, true),
    ] {
        assert_eq!(rt;
            (seat, entry_of(&replica, seat).is_some()),
            (seat, is_there)
        );
    }
    assert_eq!(rt; replica.checkpoint().message().entries().len(), 4);
    Ok(())
}

#[test]
fn a_sweep_goes_by_the_later_of_clock_and_reading(rt: HostRuntime) -> Result<(), Fail> {
    let mut replica = of_two(rt.alloc(), 0)?;
    let entries = [tombstone(1, 10, two(0, 1)?), tombstone(2, 11, two(0, 1)?)];
    hear::<Counts>(&rt, &mut replica, (0, 2), &entries, 21)?;
    try_sweeps(
        &rt,
        &mut replica,
        &[(0, Swept(1)), (21, Swept(1)), (22, Swept(2))],
    )
}

#[test]
fn a_sweep_keeps_what_another_replica_may_not_know(rt: HostRuntime) -> Result<(), Fail> {
    let mut replica = of_two(rt.alloc(), 0)?;
    hear::<Counts>(&rt, &mut replica, (0, 2), &[value(1, 5)], 20)?;
    replica.delete(1, 20, 20)?;
    try_sweeps(&rt, &mut replica, &[(31, Swept(0)), (LATEST, Swept(0))])?;
    hear::<Counts>(&rt, &mut replica, (0, 3), &[], 20)?;
    try_sweeps(&rt, &mut replica, &[(31, Swept(0)), (LATEST, Swept(0))])?;
    hear::<Counts>(&rt, &mut replica, (1, 4), &[], 20)?;
    try_sweeps(&rt, &mut replica, &[(30, Swept(0)), (31, Swept(1))])
}

// A message of a replica of group 7's three, with the tombstone of seat 1 where its timestamp covers it.
fn message_of_three(sender: usize, parts: &[u32; 3]) -> Result<Gossip, Fail> {
    let mut message = Gossip::new(Head {
        n: 3,
        sender,
        group: 7,
        clock: 0,
        timestamp: Timestamp::read(3, parts)?,
    })?;
    if parts[1] > 0 {
        message.push(tombstone(1, 10, Timestamp::read(3, &[0, 1, 0])?))?;
    }
    Ok(message)
}

#[test]
fn a_sweep_waits_for_every_row_of_the_group(rt: HostRuntime) -> Result<(), Fail> {
    let mut replica = Replica::new(rt.alloc())?;
    replica.begin(Membership {
        n: 3,
        replica: 0,
        group: 7,
        grace: 10,
    })?;
    // the sender heard next, its timestamp, and what a sweep answers then
    let cases = [
        (1, [0, 1, 0], Swept(0)),
        (2, [0, 0, 1], Swept(0)),
        (1, [0, 2, 0], Swept(0)),
        // an old message, which changes no row
        (2, [0, 1, 1], Swept(0)),
        (2, [0, 1, 2], Swept(1)),
    ];
    for (sender, parts, answer) in cases {
        replica.receive::<Counts>(&message_of_three(sender, &parts)?, 21)?;
        try_sweeps(&rt, &mut replica, &[(20, answer), (LATEST, answer)])?;
    }
    Ok(())
}

#[test]
fn the_only_replica_of_a_group_waits_for_the_grace_alone(rt: HostRuntime) -> Result<(), Fail> {
    let mut replica = Replica::new(rt.alloc())?;
    // grace, the last reading that keeps a tombstone of the time 25, and the first that does not
    let cases = [
        (0, 25, 26),
        (10, 35, 36),
        (4_294_967_295, 4_294_967_320, 4_294_967_321),
    ];
    for (grace, keeps, removes) in cases {
        replica.begin(Membership {
            n: 1,
            replica: 0,
            group: 7,
            grace,
        })?;
        replica.delete(1, 25, 20)?;
        try_sweeps(&rt, &mut replica, &[(keeps, Swept(0)), (removes, Swept(1))])?;
    }
    Ok(())
}

#[test]
fn a_value_is_never_swept(rt: HostRuntime) -> Result<(), Fail> {
    let mut replica = of_two(rt.alloc(), 0)?;
    replica.enter::<Counts>(1, 5, 0, 0)?;
    hear::<Counts>(&rt, &mut replica, (1, 2), &[value(2, 5)], 0)?;
    assert_eq!(rt; of_sweep(replica.sweep(LATEST)), Swept(0));
    assert_eq!(rt; entry_of(&replica, 1), Some(State::Value(5)));
    assert_eq!(rt; entry_of(&replica, 2), Some(State::Value(5)));
    Ok(())
}
