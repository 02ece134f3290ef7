// The example of the README: what a program does that only reads messages.
use gossip::{Counts, Entry, Gossip, Head, ROOM, Refusal, State, Timestamp};
use std::test::Fail;

// The count that a message gives for a seat, 0 if it has none.
fn count_of(bytes: &[u8], seat: u64) -> Result<u64, Refusal> {
    let message = Gossip::read::<Counts>(bytes)?;
    let entry = message.entries().iter().find(|entry| entry.seat == seat);
    match entry.map(|entry| entry.state) {
        Some(State::Value(count)) => Ok(count),
        _ => Ok(0),
    }
}

#[test]
fn a_seat_is_looked_up_in_a_message(rt: HostRuntime) -> Result<(), Fail> {
    let head = Head {
        n: 2,
        sender: 1,
        group: 7,
        clock: 20,
        timestamp: Timestamp::read(2, &[0, 1])?,
    };
    let mut message = Gossip::new(head)?;
    message.push(Entry {
        seat: 100,
        state: State::Value(5),
    })?;
    let mut out = [0; ROOM];
    let len = message.write::<Counts>(&mut out)?;
    assert!(rt; len <= ROOM);
    assert_eq!(rt; count_of(&out[0..len], 100)?, 5);
    assert_eq!(rt; count_of(&out[0..len], 101)?, 0);
    assert_eq!(rt; count_of(&out[0..23], 100), Err(Refusal::Short));
    Ok(())
}
