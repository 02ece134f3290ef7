// Delete: each answer at its bounds, and the order of its refusals.
use super::Answer::{Refused, Same, Set};
use super::{
    Answer, LATEST, TOO_LATE, check_is, check_stands, entry_of, filled, has_changed, holding,
    of_change, put_back, two,
};
use gossip::{Counts, State};
use replica::Replica;
use std::process::Abort;
use std::test::Fail;

// Each delete is tried on the same replica: seat, time, reading, and the answer.
fn try_deletes(
    rt: &impl Abort,
    replica: &mut Replica,
    cases: &[(u64, u64, u64, Answer)],
) -> Result<(), Fail> {
    let before = replica.checkpoint();
    for &(seat, time, reading, answer) in cases {
        let given = of_change(replica.delete(seat, time, reading));
        assert_eq!(rt; (seat, time, reading, given), (seat, time, reading, answer));
        if !has_changed(answer) {
            check_is(rt, replica, &before);
        }
        put_back::<Counts>(rt, replica, &before)?;
    }
    Ok(())
}

#[test]
fn a_delete_is_refused_past_its_bounds(rt: HostRuntime) -> Result<(), Fail> {
    let mut replica = holding::<Counts>(&rt, rt.alloc(), (0, 2))?;
    try_deletes(
        &rt,
        &mut replica,
        &[
            (100, LATEST, 20, Set),
            (100, TOO_LATE, 20, Refused(4)),
            (100, LATEST, LATEST, Set),
            (100, LATEST, TOO_LATE, Refused(4)),
            (100, 10, 20, Set),
            (100, 9, 20, Refused(5)),
            (100, 10, 0, Set),
            (100, 9, 0, Refused(5)),
            (100, 10, 21, Refused(5)),
            (100, 9, TOO_LATE, Refused(4)),
        ],
    )
}

#[test]
fn a_delete_needs_no_entry_and_keeps_a_tombstone(rt: HostRuntime) -> Result<(), Fail> {
    let mut replica = holding::<Counts>(&rt, rt.alloc(), (0, 2))?;
    try_deletes(
        &rt,
        &mut replica,
        &[
            (1, 20, 20, Set),
            (0, 20, 20, Set),
            (18_446_744_073_709_551_615, 20, 20, Set),
            (200, 20, 30, Same),
            (200, 9, 20, Refused(5)),
            (200, TOO_LATE, 20, Refused(4)),
        ],
    )
}

#[test]
fn a_full_replica_deletes_only_seats_that_it_knows(rt: HostRuntime) -> Result<(), Fail> {
    let mut nearly = filled(rt.alloc(), (0, 2), 63)?;
    try_deletes(&rt, &mut nearly, &[(64, 20, 20, Set)])?;
    let mut full = filled(rt.alloc(), (0, 2), 64)?;
    try_deletes(
        &rt,
        &mut full,
        &[
            (64, 20, 20, Refused(6)),
            (64, 9, 20, Refused(5)),
            (63, 20, 20, Set),
            (0, 20, 20, Same),
        ],
    )
}

#[test]
fn a_delete_is_refused_once_the_own_part_is_spent(rt: HostRuntime) -> Result<(), Fail> {
    let mut last = holding::<Counts>(&rt, rt.alloc(), (4_294_967_294, 2))?;
    try_deletes(&rt, &mut last, &[(1, 20, 20, Set)])?;
    let mut spent = holding::<Counts>(&rt, rt.alloc(), (4_294_967_295, 2))?;
    try_deletes(
        &rt,
        &mut spent,
        &[
            (1, 20, 20, Refused(7)),
            (100, 20, 20, Refused(7)),
            (100, 9, 20, Refused(5)),
            (200, 20, 20, Same),
        ],
    )
}

#[test]
fn a_full_replica_with_a_spent_part_refuses_by_6_first(rt: HostRuntime) -> Result<(), Fail> {
    let mut replica = filled(rt.alloc(), (4_294_967_295, 2), 64)?;
    try_deletes(
        &rt,
        &mut replica,
        &[
            (64, 20, 20, Refused(6)),
            (63, 20, 20, Refused(7)),
            (0, 20, 20, Same),
        ],
    )
}

#[test]
fn an_accepted_delete_leaves_a_tombstone_with_its_time(rt: HostRuntime) -> Result<(), Fail> {
    let mut replica = holding::<Counts>(&rt, rt.alloc(), (0, 2))?;
    replica.delete(100, 21, 25)?;
    check_stands(&rt, &replica, 25, (1, 2), (0, 2))?;
    let tombstone = State::Tombstone {
        time: 21,
        timestamp: two(1, 2)?,
    };
    assert_eq!(rt; entry_of(&replica, 100), Some(tombstone));
    Ok(())
}
