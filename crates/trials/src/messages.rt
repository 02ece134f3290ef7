// Messages: built, written and read back; what cannot be written is refused.
use gossip::{
    Counts, Entry, Gossip, Head, Kind, Ports, ROOM, Refusal, State, Timestamp, UnknownKind,
};
use std::test::Fail;

// A head of n replicas with this timestamp.
fn head(n: usize, timestamp: Timestamp) -> Head {
    Head {
        n,
        sender: 0,
        group: 7,
        clock: 99,
        timestamp,
    }
}

fn value(seat: u64, value: u64) -> Entry {
    Entry {
        seat,
        state: State::Value(value),
    }
}

#[test]
fn the_empty_message_of_three_has_36_bytes(rt: HostRuntime) -> Result<(), Fail> {
    let message = Gossip::new(head(3, Timestamp::read(3, &[1, 2, 3])?))?;
    let mut out = [255; ROOM];
    assert_eq!(rt; message.write::<Counts>(&mut out)?, 36);
    assert_eq!(rt; out[35], 0);
    assert_eq!(rt; out[36], 255, "the rest of the buffer stays");
    Ok(())
}

#[test]
fn the_longest_message_has_3124_bytes(rt: HostRuntime) -> Result<(), Fail> {
    let mut message = Gossip::new(head(7, Timestamp::zero()))?;
    for seat in 0..64 {
        message.push(value(seat, 65_535))?;
    }
    assert_eq!(rt;
        message.push(value(64, 0)),
        Err(Refusal::Layout),
        "there is no room for a 65th entry"
    );
    let mut out = [255; ROOM];
    assert_eq!(rt; message.write::<Ports>(&mut out)?, 3_124);
    let again = Gossip::read::<Ports>(&out[0..3_124])?;
    assert_eq!(rt; again.entries().len(), 64);
    Ok(())
}

#[test]
fn a_message_is_read_back_as_it_was(rt: HostRuntime) -> Result<(), Fail> {
    let first = head(2, Timestamp::read(2, &[4, 5])?);
    let tombstone = Entry {
        seat: 9,
        state: State::Tombstone {
            time: 1_099_511_627_775,
            timestamp: Timestamp::read(2, &[4, 4])?,
        },
    };
    let mut message = Gossip::new(first)?;
    message.push(value(8, 4_294_967_295))?;
    message.push(tombstone)?;
    let mut out = [0; ROOM];
    let len = message.write::<Counts>(&mut out)?;
    assert!(rt; len <= ROOM);
    let again = Gossip::read::<Counts>(&out[0..len])?;
    assert_eq!(rt; again.head(), first);
    assert_eq!(rt;
        again.entries() == [value(8, 4_294_967_295), tombstone].as_slice(),
        true
    );
    assert_eq!(rt;
        Gossip::read::<Ports>(&out[0..len]).err(),
        Some(Refusal::Origin),
        "it is of another kind"
    );
    Ok(())
}

#[test]
fn a_head_that_cannot_be_written_is_refused(rt: HostRuntime) -> Result<(), Fail> {
    let zero = Timestamp::zero();
    assert_eq!(rt; Gossip::new(head(0, zero)).err(), Some(Refusal::Origin));
    assert_eq!(rt; Gossip::new(head(8, zero)).err(), Some(Refusal::Origin));
    assert_eq!(rt;
        Gossip::new(Head {
            n: 2,
            sender: 2,
            group: 7,
            clock: 0,
            timestamp: zero,
        })
        .err(),
        Some(Refusal::Origin)
    );
    assert_eq!(rt;
        Gossip::new(head(2, Timestamp::read(3, &[0, 0, 1])?)).err(),
        Some(Refusal::Layout)
    );
    assert_eq!(rt;
        Gossip::new(Head {
            n: 2,
            sender: 1,
            group: 7,
            clock: 1_099_511_627_775,
            timestamp: zero,
        })
        .err(),
        None
    );
    assert_eq!(rt;
        Gossip::new(Head {
            n: 2,
            sender: 1,
            group: 7,
            clock: 1_099_511_627_776,
            timestamp: zero,
        })
        .err(),
        Some(Refusal::Clock)
    );
    Ok(())
}

#[test]
fn an_entry_that_cannot_be_written_is_refused(rt: HostRuntime) -> Result<(), Fail> {
    let mut message = Gossip::new(head(2, Timestamp::read(2, &[1, 1])?))?;
    message.push(value(5, 0))?;
    assert_eq!(rt; message.push(value(5, 0)), Err(Refusal::Order));
    assert_eq!(rt; message.push(value(4, 0)), Err(Refusal::Order));
    let above = Timestamp::read(2, &[1, 2])?;
    assert_eq!(rt;
        message.push(Entry {
            seat: 6,
            state: State::Tombstone {
                time: 0,
                timestamp: above,
            },
        }),
        Err(Refusal::Mark)
    );
    assert_eq!(rt;
        message.push(Entry {
            seat: 6,
            state: State::Tombstone {
                time: 1_099_511_627_776,
                timestamp: Timestamp::zero(),
            },
        }),
        Err(Refusal::Mark)
    );
    assert_eq!(rt;
        message.entries() == [value(5, 0)].as_slice(),
        true,
        "a refusal changes nothing"
    );
    Ok(())
}

#[test]
fn a_value_of_another_kind_is_not_written(rt: HostRuntime) -> Result<(), Fail> {
    let mut message = Gossip::new(head(1, Timestamp::zero()))?;
    message.push(value(1, 65_536))?;
    let mut out = [7; ROOM];
    assert_eq!(rt; message.write::<Ports>(&mut out), Err(Refusal::Mark));
    assert_eq!(rt; out[0], 7, "a refusal writes nothing");
    assert_eq!(rt; message.write::<Counts>(&mut out)?, 52);
    Ok(())
}

#[test]
fn a_kind_is_read_by_its_number(rt: HostRuntime) {
    assert_eq!(rt; Kind::try_from(1), Ok(Kind::Counts));
    assert_eq!(rt; Kind::try_from(2), Ok(Kind::Ports));
    assert_eq!(rt; Kind::try_from(0), Err(UnknownKind));
    assert_eq!(rt; Kind::try_from(3), Err(UnknownKind));
    assert_eq!(rt; Kind::Ports.number(), 2);
}

#[test]
fn a_state_is_a_mark_a_word_and_a_timestamp(rt: HostRuntime) -> Result<(), Fail> {
    let deleted = Timestamp::read(2, &[4, 4])?;
    let tombstone = State::Tombstone {
        time: 25,
        timestamp: deleted,
    };
    assert_eq!(rt; (tombstone.mark(), tombstone.word()), (2, 25));
    assert_eq!(rt; tombstone.timestamp(), deleted);
    let value = State::Value(9);
    assert_eq!(rt; (value.mark(), value.word()), (1, 9));
    assert_eq!(rt; value.timestamp(), Timestamp::zero());
    Ok(())
}
