// Receive: old, new or refused, as a message and as bytes.
use super::Answer::{New, Old, Refused};
use super::{
    Answer, LATEST, TOO_LATE, check_is, check_stands, filled, has_changed, hear, holding, message,
    message_of_seats, of_receipt, put_back, tombstone, two, value,
};
use gossip::{Counts, Gossip, Head, ROOM, Timestamp};
use replica::Replica;
use std::fmt::Display;
use std::process::Abort;
use std::test::Fail;

// The bytes are received, with this answer, and the replica is set back. A failure names the case.
fn try_bytes(
    rt: &impl Abort,
    replica: &mut Replica,
    bytes: &[u8],
    reading: u64,
    answer: Answer,
    case: &impl Display,
) -> Result<(), Fail> {
    let before = replica.checkpoint();
    assert_eq!(rt;
        of_receipt(replica.receive_bytes::<Counts>(bytes, reading)),
        answer,
        "{case}"
    );
    if !has_changed(answer) {
        check_is(rt, replica, &before);
    }
    put_back::<Counts>(rt, replica, &before)
}

// The message is received, as it is and as bytes, with this answer, and the replica is set back. A failure names the case.
fn try_message(
    rt: &impl Abort,
    replica: &mut Replica,
    message: &Gossip,
    reading: u64,
    answer: Answer,
    case: &impl Display,
) -> Result<(), Fail> {
    let before = replica.checkpoint();
    assert_eq!(rt;
        of_receipt(replica.receive::<Counts>(message, reading)),
        answer,
        "{case}"
    );
    if !has_changed(answer) {
        check_is(rt, replica, &before);
    }
    put_back::<Counts>(rt, replica, &before)?;
    let mut room = [0; ROOM];
    let len = message.write::<Counts>(&mut room)?;
    assert!(rt; len <= ROOM);
    try_bytes(rt, replica, &room[0..len], reading, answer, case)
}

// A message without entries, of replica 0 of so many, with one part.
fn message_from(group: u32, n: usize, part: u32) -> Result<Gossip, Fail> {
    Ok(Gossip::new(Head {
        n,
        sender: 0,
        group,
        clock: 0,
        timestamp: Timestamp::read(1, &[part])?,
    })?)
}

#[test]
fn a_message_is_new_unless_it_is_at_or_under_the_timestamp(rt: HostRuntime) -> Result<(), Fail> {
    let mut replica = holding::<Counts>(&rt, rt.alloc(), (1, 2))?;
    // first and second part, reading, and the answer
    let cases = [
        (1, 2, 20, Old),
        (1, 1, 20, Old),
        (0, 2, 20, Old),
        (0, 0, 20, Old),
        (2, 2, 20, New),
        (1, 3, 20, New),
        (2, 1, 20, New),
        (0, 3, 20, New),
        (1, 3, 0, New),
        (1, 3, LATEST, New),
        (1, 3, TOO_LATE, Refused(4)),
        (1, 2, LATEST, Old),
        (1, 2, TOO_LATE, Refused(4)),
    ];
    for (first, second, reading, answer) in cases {
        let told = message((first, second), &[value(100, 9)])?;
        try_message(
            &rt,
            &mut replica,
            &told,
            reading,
            answer,
            &format_args!("{first}, {second} at {reading}"),
        )?;
    }
    Ok(())
}

#[test]
fn a_message_of_another_group_or_n_is_refused(rt: HostRuntime) -> Result<(), Fail> {
    let mut replica = holding::<Counts>(&rt, rt.alloc(), (1, 2))?;
    // group, n, first part, reading, and the answer
    let cases = [
        (7, 2, 0, 20, Old),
        (7, 2, 9, 20, New),
        (8, 2, 0, 20, Refused(27)),
        (8, 2, 9, 20, Refused(27)),
        (7, 1, 0, 20, Refused(27)),
        (7, 1, 9, 20, Refused(27)),
        (7, 3, 0, 20, Refused(27)),
        (7, 3, 9, 20, Refused(27)),
        (8, 2, 9, TOO_LATE, Refused(4)),
        (7, 3, 9, TOO_LATE, Refused(4)),
    ];
    for (group, n, part, reading, answer) in cases {
        let told = message_from(group, n, part)?;
        try_message(
            &rt,
            &mut replica,
            &told,
            reading,
            answer,
            &format_args!("group {group}, n {n}, part {part}"),
        )?;
    }
    Ok(())
}

#[test]
fn a_message_that_would_make_65_entries_is_refused(rt: HostRuntime) -> Result<(), Fail> {
    // seats held, the seats told from one to before another, the second part told, and the answer
    let cases = [
        (0, 0, 64, 3, New),
        (63, 60, 64, 3, New),
        (63, 60, 65, 3, Refused(6)),
        (63, 63, 65, 3, Refused(6)),
        (64, 0, 64, 3, New),
        (64, 64, 65, 3, Refused(6)),
        (64, 64, 65, 2, Old),
        (1, 1, 65, 3, Refused(6)),
    ];
    for (held, from, to, part, answer) in cases {
        let mut replica = filled(rt.alloc(), (0, 2), held)?;
        let told = message_of_seats((0, part), from, to)?;
        try_message(
            &rt,
            &mut replica,
            &told,
            30,
            answer,
            &format_args!("{held} held, {from} to {to} told"),
        )?;
    }
    Ok(())
}

// The bytes of a message, each time with one byte changed and cut to a length: length, place, byte, reading, and the answer.
fn try_changes(
    rt: &impl Abort,
    replica: &mut Replica,
    message: &Gossip,
    cases: &[(usize, usize, u8, u64, Answer)],
) -> Result<(), Fail> {
    for &(len, place, byte, reading, answer) in cases {
        let mut room = [0; ROOM];
        message.write::<Counts>(&mut room)?;
        assert!(rt; place < ROOM);
        assert!(rt; len <= ROOM);
        room[place] = byte;
        try_bytes(
            rt,
            replica,
            &room[0..len],
            reading,
            answer,
            &format_args!("{byte} at {place}, {len} bytes"),
        )?;
    }
    Ok(())
}

#[test]
fn bytes_that_are_no_message_are_refused_as_a_reader_refuses(rt: HostRuntime) -> Result<(), Fail> {
    let mut replica = holding::<Counts>(&rt, rt.alloc(), (0, 2))?;
    let entries = [value(100, 9), tombstone(101, 15, two(0, 1)?)];
    let told = message((0, 3), &entries)?;
    try_changes(
        &rt,
        &mut replica,
        &told,
        &[
            (88, 0, 1, 20, New),
            (0, 0, 1, 20, Refused(20)),
            (23, 0, 1, 20, Refused(20)),
            (88, 0, 2, 20, Refused(21)),
            (88, 1, 2, 20, Refused(22)),
            (88, 2, 0, 20, Refused(22)),
            (88, 2, 8, 20, Refused(22)),
            (88, 3, 2, 20, Refused(22)),
            (24, 0, 1, 20, Refused(23)),
            (87, 0, 1, 20, Refused(23)),
            (89, 0, 1, 20, Refused(23)),
            (88, 8, 1, 20, Refused(23)),
            (88, 10, 25, 20, Refused(23)),
        ],
    )?;
    try_changes(
        &rt,
        &mut replica,
        &told,
        &[
            (88, 20, 255, 20, New),
            (88, 21, 1, 20, Refused(24)),
            (88, 32, 101, 20, Refused(25)),
            (88, 32, 102, 20, Refused(25)),
            (88, 44, 1, 20, Refused(26)),
            (88, 48, 3, 20, Refused(26)),
            (88, 52, 1, 20, Refused(26)),
            (88, 73, 1, 20, Refused(26)),
            (88, 80, 1, 20, Refused(26)),
            (88, 4, 8, 20, Refused(27)),
            (0, 0, 1, TOO_LATE, Refused(4)),
            (88, 4, 8, TOO_LATE, Refused(4)),
        ],
    )
}

#[test]
fn bytes_of_another_group_are_read_first(rt: HostRuntime) -> Result<(), Fail> {
    let mut replica = holding::<Counts>(&rt, rt.alloc(), (0, 2))?;
    try_changes(
        &rt,
        &mut replica,
        &message_from(8, 2, 9)?,
        &[
            (32, 0, 1, 20, Refused(27)),
            (23, 0, 1, 20, Refused(20)),
            (32, 0, 2, 20, Refused(21)),
            (32, 1, 2, 20, Refused(22)),
            (31, 0, 1, 20, Refused(23)),
            (32, 21, 1, 20, Refused(24)),
        ],
    )
}

#[test]
fn news_raises_the_timestamp_the_clock_and_two_rows(rt: HostRuntime) -> Result<(), Fail> {
    let mut replica = holding::<Counts>(&rt, rt.alloc(), (0, 2))?;
    replica.enter::<Counts>(1, 5, 20, 20)?;
    hear::<Counts>(&rt, &mut replica, (0, 3), &[value(100, 9)], 25)?;
    check_stands(&rt, &replica, 25, (1, 3), (0, 3))
}
