// Replicas: what each step answers and leaves, as tables of cases at the bounds of each refusal.
use checkpoint::Checkpoint;
use gossip::{Counts, Entry, Gossip, Head, Lattice, ROOM, State, Timestamp};
use replica::{Change, Membership, Refusal, Replica};
use std::alloc::Global;
use std::process::Abort;
use std::test::Fail;

mod beginning;
mod clocks;
mod deleting;
mod entering;
mod looking;
mod merging;
mod receiving;
mod story;
mod sweeping;

// The latest time and clock reading, and the first that is too large.
pub(crate) const LATEST: u64 = 1_099_511_627_775;

pub(crate) const TOO_LATE: u64 = 1_099_511_627_776;

// What a step answers, in short.
#[derive(Clone, Copy, PartialEq, Eq, Debug)]
pub(crate) enum Answer {
    Set,
    Same,
    Old,
    New,
    Swept(usize),
    Refused(u8),
}

pub(crate) fn of_change(answer: Result<Change, Refusal>) -> Answer {
    match answer {
        Ok(Change::Set(_)) => Answer::Set,
        Ok(Change::Same(_)) => Answer::Same,
        Err(refusal) => Answer::Refused(refusal.number()),
    }
}

pub(crate) fn of_receipt(answer: Result<Option<Timestamp>, Refusal>) -> Answer {
    match answer {
        Ok(None) => Answer::Old,
        Ok(Some(_)) => Answer::New,
        Err(refusal) => Answer::Refused(refusal.number()),
    }
}

pub(crate) fn of_sweep(answer: Result<usize, Refusal>) -> Answer {
    match answer {
        Ok(removed) => Answer::Swept(removed),
        Err(refusal) => Answer::Refused(refusal.number()),
    }
}

// Whether a step that answers so may have changed something.
pub(crate) fn has_changed(answer: Answer) -> bool {
    matches!(answer, Answer::Set | Answer::New | Answer::Swept(_))
}

// A timestamp of two replicas.
pub(crate) fn two(first: u32, second: u32) -> Result<Timestamp, Fail> {
    Ok(Timestamp::read(2, &[first, second])?)
}

// A replica of the two of group 7, with a grace of 10.
pub(crate) fn of_two(heap: Global, replica: usize) -> Result<Replica, Fail> {
    let mut made = Replica::new(heap)?;
    made.begin(Membership {
        n: 2,
        replica,
        group: 7,
        grace: 10,
    })?;
    Ok(made)
}

pub(crate) fn value(seat: u64, value: u64) -> Entry {
    Entry {
        seat,
        state: State::Value(value),
    }
}

pub(crate) fn tombstone(seat: u64, time: u64, timestamp: Timestamp) -> Entry {
    Entry {
        seat,
        state: State::Tombstone { time, timestamp },
    }
}

// A message of replica 1 of group 7's two, with these parts of its timestamp.
pub(crate) fn message(parts: (u32, u32), entries: &[Entry]) -> Result<Gossip, Fail> {
    let (first, second) = parts;
    let mut message = Gossip::new(Head {
        n: 2,
        sender: 1,
        group: 7,
        clock: 0,
        timestamp: two(first, second)?,
    })?;
    for entry in entries {
        message.push(*entry)?;
    }
    Ok(message)
}

// A message of replica 1 of group 7's two, with 5 at the seats from one to before another, but a tombstone at seat 0.
pub(crate) fn message_of_seats(parts: (u32, u32), from: u64, to: u64) -> Result<Gossip, Fail> {
    let mut message = message(parts, &[])?;
    for seat in from..to {
        let entry = if seat == 0 {
            tombstone(0, 15, Timestamp::zero())
        } else {
            value(seat, 5)
        };
        message.push(entry)?;
    }
    Ok(message)
}

// The replica hears replica 1 at a clock reading.
pub(crate) fn hear<L: Lattice>(
    rt: &impl Abort,
    replica: &mut Replica,
    parts: (u32, u32),
    entries: &[Entry],
    reading: u64,
) -> Result<(), Fail> {
    let told = message(parts, entries)?;
    assert_eq!(rt;
        of_receipt(replica.receive::<L>(&told, reading)),
        Answer::New
    );
    Ok(())
}

// Replica 0 of two with these parts and the clock 20, with 5 at seat 100 and a tombstone at seat 200.
pub(crate) fn holding<L: Lattice>(
    rt: &impl Abort,
    heap: Global,
    parts: (u32, u32),
) -> Result<Replica, Fail> {
    let mut replica = of_two(heap, 0)?;
    let entries = [value(100, 5), tombstone(200, 15, Timestamp::zero())];
    hear::<L>(rt, &mut replica, parts, &entries, 20)?;
    Ok(replica)
}

// Replica 0 of two with these parts and the clock 20, with a tombstone at seat 0 and 5 at the others of so many seats.
pub(crate) fn filled(heap: Global, parts: (u32, u32), seats: u64) -> Result<Replica, Fail> {
    let mut replica = of_two(heap, 0)?;
    replica.receive::<Counts>(&message_of_seats(parts, 0, seats)?, 20)?;
    Ok(replica)
}

// The replica, 0 of two, has this clock, these parts and these of the row of replica 1.
pub(crate) fn check_stands(
    rt: &impl Abort,
    replica: &Replica,
    clock: u64,
    parts: (u32, u32),
    heard: (u32, u32),
) -> Result<(), Fail> {
    let own = two(parts.0, parts.1)?;
    let rows = replica.checkpoint().rows();
    assert_eq!(rt; replica.clock(), clock);
    assert_eq!(rt; replica.timestamp(), own);
    assert_eq!(rt; rows[0], own, "the own row");
    assert_eq!(rt; rows[1], two(heard.0, heard.1)?, "the row of replica 1");
    assert_eq!(rt; rows[2], Timestamp::zero(), "a row past the group's");
    Ok(())
}

// What the replica's checkpoint says of a seat.
pub(crate) fn entry_of(replica: &Replica, seat: u64) -> Option<State> {
    let message = replica.checkpoint().message();
    let entry = message.entries().iter().find(|entry| entry.seat == seat)?;
    Some(entry.state)
}

// The replica is what the checkpoint says.
pub(crate) fn check_is(rt: &impl Abort, replica: &Replica, before: &Checkpoint) {
    let now = replica.checkpoint();
    let message = now.message();
    let earlier = before.message();
    assert!(rt; message.head() == earlier.head(), "the head changed");
    assert!(rt;
        message.entries() == earlier.entries(),
        "the entries changed"
    );
    assert!(rt; now.rows() == before.rows(), "the rows changed");
}

// Makes the replica what the checkpoint says.
pub(crate) fn put_back<L: Lattice>(
    rt: &impl Abort,
    replica: &mut Replica,
    before: &Checkpoint,
) -> Result<(), Fail> {
    let mut room = [0; ROOM];
    let len = before.write::<L>(&mut room);
    assert!(rt; len <= ROOM);
    replica.restore::<L>(&room[0..len])?;
    Ok(())
}
