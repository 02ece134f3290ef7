// Checkpoints: written and restored, and refused where they are another's or no checkpoint.
use crate::replicas::{check_is, hear, holding, of_two, value};
use checkpoint::Unreadable;
use gossip::{Counts, Lattice, Ports, ROOM, Refusal};
use replica::{Lookup, Membership, Replica};
use std::alloc::Global;
use std::fmt::Display;
use std::process::Abort;
use std::test::Fail;

// Begins as a replica of n with a grace of 10.
fn begin(replica: &mut Replica, n: usize, own: usize, group: u32) -> Result<(), Fail> {
    replica.begin(Membership {
        n,
        replica: own,
        group,
        grace: 10,
    })?;
    Ok(())
}

// Both replicas have the same timestamp, clock, membership and answers.
fn check_alike(rt: &impl Abort, one: &Replica, other: &Replica) {
    assert_eq!(rt; one.timestamp(), other.timestamp());
    assert_eq!(rt; one.clock(), other.clock());
    assert_eq!(rt; one.membership(), other.membership());
    let timestamp = one.timestamp();
    for seat in [0, 1, 100, 101, 200] {
        assert_eq!(rt;
            one.lookup(seat, &timestamp),
            other.lookup(seat, &timestamp),
            "seat {seat}"
        );
    }
    check_is(rt, one, &other.checkpoint());
}

// Every byte is still 255.
fn check_untouched(rt: &impl Abort, bytes: &[u8]) {
    for byte in bytes {
        assert_eq!(rt; *byte, 255, "the rest of the buffer stays");
    }
}

// A replica's checkpoint makes another what it was, whatever the other knew.
fn try_restore<L: Lattice>(rt: &impl Abort, heap: Global, parts: (u32, u32)) -> Result<(), Fail> {
    let replica = holding::<L>(rt, heap, parts)?;
    let mut room = [255; ROOM];
    let len = replica.write_checkpoint::<L>(&mut room);
    assert!(rt; len <= ROOM);
    check_untouched(rt, &room[len..ROOM]);
    let mut other = of_two(heap, 0)?;
    other.enter::<L>(1, 9, 50, 50)?;
    other.restore::<L>(&room[0..len])?;
    check_alike(rt, &other, &replica);
    Ok(())
}

#[test]
fn a_restored_replica_is_what_was_written(rt: HostRuntime) -> Result<(), Fail> {
    for parts in [(0, 1), (1, 2), (4_294_967_295, 4_294_967_295)] {
        try_restore::<Counts>(&rt, rt.alloc(), parts)?;
        try_restore::<Ports>(&rt, rt.alloc(), parts)?;
    }
    Ok(())
}

// The length of the checkpoint of a replica of n with so many entries, which is restored from it.
fn length_of(
    rt: &impl Abort,
    replica: &mut Replica,
    n: usize,
    entries: u64,
) -> Result<usize, Fail> {
    begin(replica, n, 0, 7)?;
    for seat in 0..entries {
        replica.enter::<Counts>(seat, 5, 20, 20)?;
    }
    let mut room = [255; ROOM];
    let len = replica.write_checkpoint::<Counts>(&mut room);
    assert!(rt; len <= ROOM);
    replica.restore::<Counts>(&room[0..len])?;
    Ok(len)
}

#[test]
fn a_checkpoint_is_as_long_as_the_format_says(rt: HostRuntime) -> Result<(), Fail> {
    let mut replica = Replica::new(rt.alloc())?;
    // n, entries, and bytes
    let cases = [
        (1, 0, 32),
        (3, 0, 72),
        (3, 1, 104),
        (7, 0, 248),
        (7, 64, 3_320),
    ];
    for (n, entries, bytes) in cases {
        let len = length_of(&rt, &mut replica, n, entries)?;
        assert_eq!(rt; (n, entries, len), (n, entries, bytes));
    }
    Ok(())
}

// The bytes are refused for this reason, and the replica is as it was. A failure names the case.
fn check_refused(
    rt: &impl Abort,
    replica: &mut Replica,
    bytes: &[u8],
    reason: Unreadable,
    case: &impl Display,
) -> Result<(), Fail> {
    let before = replica.checkpoint();
    let membership = replica.membership();
    assert_eq!(rt; replica.restore::<Counts>(bytes), Err(reason), "{case}");
    assert_eq!(rt; reason.number(), 29);
    assert_eq!(rt; replica.membership(), membership, "{case}");
    check_is(rt, replica, &before);
    Ok(())
}

// The bytes of a checkpoint, each time with one byte changed and cut to a length: length, place, byte, the reason, and the number that it carries.
fn try_changes(
    rt: &impl Abort,
    replica: &mut Replica,
    checkpoint: &[u8; ROOM],
    cases: &[(usize, usize, u8, Unreadable, u8)],
) -> Result<(), Fail> {
    for &(len, place, byte, reason, carried) in cases {
        let mut room = *checkpoint;
        assert!(rt; place < ROOM);
        assert!(rt; len <= ROOM);
        room[place] = byte;
        check_refused(
            rt,
            replica,
            &room[0..len],
            reason,
            &format_args!("{byte} at {place}, {len} bytes"),
        )?;
        assert_eq!(rt; reason.carried(), carried);
    }
    Ok(())
}

#[test]
fn bytes_whose_message_is_refused_carry_its_number(rt: HostRuntime) -> Result<(), Fail> {
    let mut room = [0; ROOM];
    holding::<Counts>(&rt, rt.alloc(), (1, 2))?.write_checkpoint::<Counts>(&mut room);
    let mut replica = of_two(rt.alloc(), 0)?;
    replica.enter::<Counts>(1, 9, 50, 50)?;
    let short = Unreadable::Message(Refusal::Short);
    let layout = Unreadable::Message(Refusal::Layout);
    let mark = Unreadable::Message(Refusal::Mark);
    try_changes(
        &rt,
        &mut replica,
        &room,
        &[
            (0, 0, 1, short, 20),
            (23, 0, 1, short, 20),
            (104, 0, 2, Unreadable::Message(Refusal::Form), 21),
            (104, 1, 2, Unreadable::Message(Refusal::Origin), 22),
            (24, 0, 1, layout, 23),
            (87, 0, 1, layout, 23),
            (104, 8, 1, layout, 23),
            (104, 8, 65, layout, 23),
            (104, 10, 25, layout, 23),
            (104, 21, 1, Unreadable::Message(Refusal::Clock), 24),
            (104, 32, 200, Unreadable::Message(Refusal::Order), 25),
            (104, 44, 1, mark, 26),
            (104, 48, 3, mark, 26),
        ],
    )
}

#[test]
fn wrong_rows_and_a_wrong_length_carry_0(rt: HostRuntime) -> Result<(), Fail> {
    let mut room = [0; ROOM];
    holding::<Counts>(&rt, rt.alloc(), (1, 2))?.write_checkpoint::<Counts>(&mut room);
    let mut replica = of_two(rt.alloc(), 0)?;
    replica.enter::<Counts>(1, 9, 50, 50)?;
    try_changes(
        &rt,
        &mut replica,
        &room,
        &[
            (88, 0, 1, Unreadable::Rows, 0),
            (96, 0, 1, Unreadable::Rows, 0),
            (103, 0, 1, Unreadable::Rows, 0),
            (105, 0, 1, Unreadable::Rows, 0),
            (104, 88, 0, Unreadable::Rows, 0),
            (104, 88, 2, Unreadable::Rows, 0),
            (104, 100, 3, Unreadable::Rows, 0),
            (104, 4, 8, Unreadable::Owner, 0),
        ],
    )?;
    replica.restore::<Counts>(&room[0..104])?;
    Ok(())
}

#[test]
fn a_checkpoint_of_another_replica_group_or_n_is_refused(rt: HostRuntime) -> Result<(), Fail> {
    let mut room = [0; ROOM];
    holding::<Counts>(&rt, rt.alloc(), (1, 2))?.write_checkpoint::<Counts>(&mut room);
    let mut replica = Replica::new(rt.alloc())?;
    // n, replica and group
    for (n, own, group) in [(2, 1, 7), (2, 0, 8), (1, 0, 7), (3, 0, 7), (3, 1, 8)] {
        begin(&mut replica, n, own, group)?;
        replica.enter::<Counts>(1, 9, 50, 50)?;
        check_refused(
            &rt,
            &mut replica,
            &room[0..104],
            Unreadable::Owner,
            &format_args!("replica {own} of {n} of group {group}"),
        )?;
    }
    Ok(())
}

#[test]
fn a_restored_replica_goes_on_from_its_clock_and_timestamp(rt: HostRuntime) -> Result<(), Fail> {
    let mut room = [0; ROOM];
    holding::<Counts>(&rt, rt.alloc(), (1, 2))?.write_checkpoint::<Counts>(&mut room);
    let mut replica = of_two(rt.alloc(), 0)?;
    replica.restore::<Counts>(&room[0..104])?;
    replica.enter::<Counts>(100, 9, 20, 0)?;
    hear::<Counts>(&rt, &mut replica, (1, 3), &[value(100, 6)], 0)?;
    assert_eq!(rt; replica.clock(), 20);
    assert_eq!(rt;
        replica.lookup(100, &replica.timestamp()),
        Lookup::Known {
            value: 9,
            timestamp: replica.timestamp(),
        }
    );
    Ok(())
}
