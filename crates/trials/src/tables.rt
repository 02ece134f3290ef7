// Tables: entries put, found, lent, merged and swept, at 64 entries and past them.
use gossip::{Counts, Entry, Gossip, Head, Lattice, Ports, State, Timestamp};
use std::process::Abort;
use std::test::Fail;
use table::{Full, Table, combine};

fn tombstone(time: u64, timestamp: Timestamp) -> State {
    State::Tombstone { time, timestamp }
}

#[test]
fn entries_stand_in_the_order_of_their_seats(rt: HostRuntime) -> Result<(), Fail> {
    let mut table = Table::new(rt.alloc())?;
    table.put(7, State::Value(1))?;
    table.put(3, State::Value(2))?;
    table.put(18_446_744_073_709_551_615, State::Value(3))?;
    table.put(7, State::Value(4))?;
    assert_eq!(rt; table.len(), 3);
    assert_eq!(rt;
        table.entry(0),
        Some(Entry {
            seat: 3,
            state: State::Value(2),
        })
    );
    assert_eq!(rt;
        table.entry(1),
        Some(Entry {
            seat: 7,
            state: State::Value(4),
        })
    );
    assert_eq!(rt; table.entry(3), None);
    assert_eq!(rt;
        table.find(18_446_744_073_709_551_615),
        Some(State::Value(3))
    );
    assert_eq!(rt; table.find(4), None);
    let entries = table.entries();
    assert_eq!(rt; entries.len(), 3);
    assert_eq!(rt; entries.first().copied(), table.entry(0));
    assert_eq!(rt; entries.last().copied(), table.entry(2));
    Ok(())
}

#[test]
fn a_full_table_takes_no_other_seat(rt: HostRuntime) -> Result<(), Fail> {
    let mut table = Table::new(rt.alloc())?;
    for seat in 0..64 {
        table.put(2 * seat, State::Value(seat))?;
    }
    assert_eq!(rt; table.put(1, State::Value(0)), Err(Full));
    assert_eq!(rt; table.find(1), None);
    table.put(126, State::Value(9))?;
    assert_eq!(rt; table.find(126), Some(State::Value(9)));
    assert_eq!(rt; table.len(), 64);
    let mut copy = Table::new(rt.alloc())?;
    copy.copy_from(&table);
    table.clear();
    assert_eq!(rt; table.len(), 0);
    assert_eq!(rt; copy.find(2), Some(State::Value(1)));
    Ok(())
}

#[test]
fn a_lent_entry_is_changed_in_its_place(rt: HostRuntime) -> Result<(), Fail> {
    let mut table = Table::new(rt.alloc())?;
    table.put(1, State::Value(5))?;
    table.put(2, State::Value(6))?;
    if let Some(state) = table.state_mut(1) {
        *state = tombstone(25, Timestamp::zero());
    }
    assert_eq!(rt; table.find(1), Some(tombstone(25, Timestamp::zero())));
    assert_eq!(rt; table.find(2), Some(State::Value(6)));
    Ok(())
}

#[test]
fn two_states_of_one_seat_combine(rt: HostRuntime) -> Result<(), Fail> {
    let first = tombstone(25, Timestamp::read(2, &[1, 1])?);
    let second = tombstone(27, Timestamp::read(2, &[2, 0])?);
    assert_eq!(rt;
        combine::<Counts>(State::Value(3), State::Value(5)),
        State::Value(5)
    );
    assert_eq!(rt;
        combine::<Ports>(State::Value(3), State::Value(5)),
        State::Value(7)
    );
    assert_eq!(rt; combine::<Counts>(State::Value(3), first), first);
    assert_eq!(rt; combine::<Counts>(first, State::Value(3)), first);
    assert_eq!(rt;
        combine::<Counts>(first, second),
        tombstone(27, Timestamp::read(2, &[2, 1])?)
    );
    Ok(())
}

#[test]
fn a_message_is_taken_in_whole_or_not_at_all(rt: HostRuntime) -> Result<(), Fail> {
    let mut message = Gossip::new(Head {
        n: 1,
        sender: 0,
        group: 7,
        clock: 0,
        timestamp: Timestamp::zero(),
    })?;
    message.push(Entry {
        seat: 10,
        state: State::Value(4),
    })?;
    message.push(Entry {
        seat: 99,
        state: State::Value(1),
    })?;
    let mut table = Table::new(rt.alloc())?;
    for seat in 0..63 {
        table.put(seat, State::Value(2))?;
    }
    table.merge::<Counts>(&message)?;
    assert_eq!(rt; table.len(), 64);
    assert_eq!(rt; table.find(10), Some(State::Value(4)));
    message.push(Entry {
        seat: 100,
        state: State::Value(1),
    })?;
    assert_eq!(rt; table.merge::<Counts>(&message), Err(Full));
    assert_eq!(rt; table.find(100), None);
    Ok(())
}

#[test]
fn a_tombstone_is_swept_once_it_is_old_and_known_everywhere(rt: HostRuntime) -> Result<(), Fail> {
    let covered = Timestamp::read(2, &[1, 1])?;
    let behind = Timestamp::read(2, &[1, 0])?;
    let mut table = Table::new(rt.alloc())?;
    table.put(1, State::Value(5))?;
    table.put(2, tombstone(25, covered))?;
    assert_eq!(rt; table.sweep(10, 35, &[covered, covered]), 0);
    assert_eq!(rt; table.sweep(10, 36, &[covered, behind]), 0);
    assert_eq!(rt; table.sweep(10, 36, &[covered, covered]), 1);
    assert_eq!(rt; table.find(2), None);
    assert_eq!(rt; table.len(), 1);
    Ok(())
}

// A message of one replica, with this timestamp.
fn message(timestamp: Timestamp, entries: &[Entry]) -> Result<Gossip, Fail> {
    let mut message = Gossip::new(Head {
        n: 2,
        sender: 0,
        group: 7,
        clock: 0,
        timestamp,
    })?;
    for entry in entries {
        message.push(*entry)?;
    }
    Ok(message)
}

// What a table says of seat 100 that held the first state and is told the second; either may be none.
fn merged<L: Lattice>(
    table: &mut Table,
    held: Option<State>,
    told: Option<State>,
) -> Result<Option<State>, Fail> {
    table.clear();
    if let Some(state) = held {
        table.put(100, state)?;
    }
    let top = Timestamp::read(2, &[9, 9])?;
    let message = match told {
        Some(state) => message(top, &[Entry { seat: 100, state }])?,
        None => message(top, &[])?,
    };
    table.merge::<L>(&message)?;
    Ok(table.find(100))
}

// Each case: held, told, and what is known then by counts and by ports.
fn try_merges(
    rt: &impl Abort,
    table: &mut Table,
    cases: &[(Option<State>, Option<State>, Option<State>, Option<State>)],
) -> Result<(), Fail> {
    for &(held, told, counts, ports) in cases {
        assert_eq!(rt; merged::<Counts>(table, held, told)?, counts);
        assert_eq!(rt; merged::<Ports>(table, held, told)?, ports);
    }
    Ok(())
}

#[test]
fn every_pair_of_states_of_a_seat_merges(rt: HostRuntime) -> Result<(), Fail> {
    let first = Some(tombstone(25, Timestamp::read(2, &[1, 1])?));
    let second = Some(tombstone(27, Timestamp::read(2, &[2, 0])?));
    let both = Some(tombstone(27, Timestamp::read(2, &[2, 1])?));
    let three = Some(State::Value(3));
    let five = Some(State::Value(5));
    let seven = Some(State::Value(7));
    let mut table = Table::new(rt.alloc())?;
    try_merges(
        &rt,
        &mut table,
        &[
            (None, None, None, None),
            (None, five, five, five),
            (None, first, first, first),
            (three, None, three, three),
            (three, five, five, seven),
            (three, first, first, first),
            (first, None, first, first),
            (first, five, first, first),
            (first, second, both, both),
            (second, first, both, both),
        ],
    )
}

// Makes the table one of so many seats, from 0 on, each with the value 5.
fn fill(table: &mut Table, seats: u64) -> Result<(), Fail> {
    table.clear();
    for seat in 0..seats {
        table.put(seat, State::Value(5))?;
    }
    Ok(())
}

#[test]
fn a_put_makes_64_entries_and_not_65(rt: HostRuntime) -> Result<(), Fail> {
    let mut table = Table::new(rt.alloc())?;
    // seats held, the seat put, the answer, and the entries after it
    let cases = [
        (0, 9, Ok(()), 1),
        (63, 62, Ok(()), 63),
        (63, 63, Ok(()), 64),
        (64, 0, Ok(()), 64),
        (64, 63, Ok(()), 64),
        (64, 64, Err(Full), 64),
        (64, 18_446_744_073_709_551_615, Err(Full), 64),
    ];
    for (held, seat, answer, len) in cases {
        fill(&mut table, held)?;
        assert_eq!(rt; (seat, table.put(seat, State::Value(6))), (seat, answer));
        assert_eq!(rt; (seat, table.len()), (seat, len));
    }
    Ok(())
}

// A message with the value 6 at the seats from one to before another.
fn message_of_seats(from: u64, to: u64) -> Result<Gossip, Fail> {
    let mut message = message(Timestamp::zero(), &[])?;
    for seat in from..to {
        message.push(Entry {
            seat,
            state: State::Value(6),
        })?;
    }
    Ok(message)
}

#[test]
fn a_merge_makes_64_entries_and_not_65(rt: HostRuntime) -> Result<(), Fail> {
    let mut table = Table::new(rt.alloc())?;
    // seats held, the seats told from one to before another, the answer, and the entries after it
    let cases = [
        (0, 0, 64, Ok(()), 64),
        (0, 64, 64, Ok(()), 0),
        (63, 63, 64, Ok(()), 64),
        (63, 60, 65, Err(Full), 63),
        (64, 0, 64, Ok(()), 64),
        (64, 63, 65, Err(Full), 64),
        (64, 64, 64, Ok(()), 64),
        (1, 1, 65, Err(Full), 1),
    ];
    for (held, from, to, answer, len) in cases {
        fill(&mut table, held)?;
        let told = message_of_seats(from, to)?;
        assert_eq!(rt;
            (from, to, table.merge::<Counts>(&told)),
            (from, to, answer)
        );
        assert_eq!(rt; (held, table.len()), (held, len));
    }
    Ok(())
}
