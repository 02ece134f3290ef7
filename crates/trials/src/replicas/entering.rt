// Enter: each answer at its bounds, and the order of its refusals.
use super::Answer::{Refused, Same, Set};
use super::{
    Answer, LATEST, TOO_LATE, check_is, check_stands, entry_of, filled, has_changed, holding,
    of_change, put_back,
};
use gossip::{Counts, Lattice, Ports, State};
use replica::Replica;
use std::process::Abort;
use std::test::Fail;

// Each enter is tried on the same replica: seat, value, time, reading, and the answer.
fn try_enters<L: Lattice>(
    rt: &impl Abort,
    replica: &mut Replica,
    cases: &[(u64, u64, u64, u64, Answer)],
) -> Result<(), Fail> {
    let before = replica.checkpoint();
    for &(seat, value, time, reading, answer) in cases {
        let given = of_change(replica.enter::<L>(seat, value, time, reading));
        assert_eq!(rt;
            (seat, value, time, reading, given),
            (seat, value, time, reading, answer)
        );
        if !has_changed(answer) {
            check_is(rt, replica, &before);
        }
        put_back::<L>(rt, replica, &before)?;
    }
    Ok(())
}

#[test]
fn an_enter_is_refused_past_its_bounds(rt: HostRuntime) -> Result<(), Fail> {
    let mut replica = holding::<Counts>(&rt, rt.alloc(), (0, 2))?;
    try_enters::<Counts>(
        &rt,
        &mut replica,
        &[
            (1, 5, LATEST, 20, Set),
            (1, 5, TOO_LATE, 20, Refused(4)),
            (1, 5, LATEST, LATEST, Set),
            (1, 5, LATEST, TOO_LATE, Refused(4)),
            (1, 4_294_967_295, 20, 20, Set),
            (1, 4_294_967_296, 20, 20, Refused(3)),
            (1, 5, 10, 20, Set),
            (1, 5, 9, 20, Refused(5)),
            (0, 5, 20, 20, Set),
            (18_446_744_073_709_551_615, 5, 20, 20, Set),
        ],
    )
}

#[test]
fn an_enter_is_late_by_the_later_of_clock_and_reading(rt: HostRuntime) -> Result<(), Fail> {
    let mut replica = holding::<Counts>(&rt, rt.alloc(), (0, 2))?;
    try_enters::<Counts>(
        &rt,
        &mut replica,
        &[
            (1, 5, 10, 0, Set),
            (1, 5, 9, 0, Refused(5)),
            (1, 5, 11, 21, Set),
            (1, 5, 10, 21, Refused(5)),
            (1, 5, 1_099_511_627_765, LATEST, Set),
            (1, 5, 1_099_511_627_764, LATEST, Refused(5)),
        ],
    )
}

#[test]
fn the_refusals_of_an_enter_have_their_order(rt: HostRuntime) -> Result<(), Fail> {
    let mut replica = holding::<Counts>(&rt, rt.alloc(), (0, 2))?;
    try_enters::<Counts>(
        &rt,
        &mut replica,
        &[
            (1, 4_294_967_296, TOO_LATE, 20, Refused(4)),
            (1, 4_294_967_296, 20, TOO_LATE, Refused(4)),
            (1, 5, 9, TOO_LATE, Refused(4)),
            (1, 4_294_967_296, 9, 20, Refused(3)),
            (200, 4_294_967_296, 20, 20, Refused(3)),
            (100, 5, 9, 20, Refused(5)),
            (200, 5, 9, 20, Refused(5)),
        ],
    )
}

#[test]
fn an_enter_that_changes_nothing_says_so(rt: HostRuntime) -> Result<(), Fail> {
    let mut counts = holding::<Counts>(&rt, rt.alloc(), (0, 2))?;
    try_enters::<Counts>(
        &rt,
        &mut counts,
        &[
            (100, 4, 20, 30, Same),
            (100, 5, 20, 30, Same),
            (100, 6, 20, 30, Set),
            (200, 6, 20, 30, Same),
        ],
    )?;
    let mut ports = holding::<Ports>(&rt, rt.alloc(), (0, 2))?;
    try_enters::<Ports>(
        &rt,
        &mut ports,
        &[
            (100, 4, 20, 30, Same),
            (100, 5, 20, 30, Same),
            (100, 2, 20, 30, Set),
            (100, 65_535, 20, 30, Set),
            (100, 65_536, 20, 30, Refused(3)),
            (1, 65_535, 20, 30, Set),
            (1, 65_536, 20, 30, Refused(3)),
            (200, 2, 20, 30, Same),
        ],
    )
}

#[test]
fn a_65th_seat_is_refused_and_a_known_one_may_change(rt: HostRuntime) -> Result<(), Fail> {
    let mut nearly = filled(rt.alloc(), (0, 2), 63)?;
    try_enters::<Counts>(&rt, &mut nearly, &[(64, 5, 20, 20, Set)])?;
    let mut full = filled(rt.alloc(), (0, 2), 64)?;
    try_enters::<Counts>(
        &rt,
        &mut full,
        &[
            (64, 5, 20, 20, Refused(6)),
            (64, 5, 9, 20, Refused(5)),
            (63, 6, 20, 20, Set),
            (63, 5, 20, 20, Same),
            (0, 6, 20, 20, Same),
        ],
    )
}

#[test]
fn an_enter_is_refused_once_the_own_part_is_spent(rt: HostRuntime) -> Result<(), Fail> {
    let mut last = holding::<Counts>(&rt, rt.alloc(), (4_294_967_294, 2))?;
    try_enters::<Counts>(&rt, &mut last, &[(1, 5, 20, 20, Set)])?;
    let mut spent = holding::<Counts>(&rt, rt.alloc(), (4_294_967_295, 2))?;
    try_enters::<Counts>(
        &rt,
        &mut spent,
        &[
            (1, 5, 20, 20, Refused(7)),
            (100, 6, 20, 20, Refused(7)),
            (100, 6, 9, 20, Refused(5)),
            (100, 5, 20, 20, Same),
            (200, 6, 20, 20, Same),
        ],
    )
}

#[test]
fn a_full_replica_with_a_spent_part_refuses_by_6_first(rt: HostRuntime) -> Result<(), Fail> {
    let mut replica = filled(rt.alloc(), (4_294_967_295, 2), 64)?;
    try_enters::<Counts>(
        &rt,
        &mut replica,
        &[
            (64, 5, 20, 20, Refused(6)),
            (63, 6, 20, 20, Refused(7)),
            (63, 5, 20, 20, Same),
            (0, 6, 20, 20, Same),
        ],
    )
}

#[test]
fn an_accepted_enter_raises_the_own_part_and_the_clock(rt: HostRuntime) -> Result<(), Fail> {
    let mut replica = holding::<Counts>(&rt, rt.alloc(), (0, 2))?;
    replica.enter::<Counts>(100, 9, 20, 25)?;
    check_stands(&rt, &replica, 25, (1, 2), (0, 2))?;
    assert_eq!(rt; entry_of(&replica, 100), Some(State::Value(9)));
    Ok(())
}
