// Merges of every pair of states: what a replica knows of a seat once it is told more.
use super::{entry_of, hear, of_two, two};
use gossip::{Counts, Entry, Lattice, Ports, State, Timestamp};
use replica::{Lookup, Replica};
use std::alloc::Global;
use std::process::Abort;
use std::test::Fail;

// The replica hears this of seat 100.
fn hear_of<L: Lattice>(
    rt: &impl Abort,
    replica: &mut Replica,
    parts: (u32, u32),
    state: Option<State>,
) -> Result<(), Fail> {
    match state {
        Some(state) => hear::<L>(rt, replica, parts, &[Entry { seat: 100, state }], 20),
        None => hear::<L>(rt, replica, parts, &[], 20),
    }
}

// What a lookup answers of a seat of which so much is known.
fn answer_of(state: Option<State>, timestamp: Timestamp) -> Lookup {
    match state {
        Some(State::Value(value)) => Lookup::Known { value, timestamp },
        Some(State::Tombstone { .. }) => Lookup::Unknown { timestamp },
        None => Lookup::Unknown { timestamp },
    }
}

// One replica hears, of seat 100, what is held and then what is told, and knows what is given last.
fn try_merge<L: Lattice>(
    rt: &impl Abort,
    heap: Global,
    case: &(Option<State>, Option<State>, Option<State>),
) -> Result<(), Fail> {
    let (held, told, known) = *case;
    let mut replica = of_two(heap, 0)?;
    hear_of::<L>(rt, &mut replica, (1, 1), held)?;
    hear_of::<L>(rt, &mut replica, (2, 0), told)?;
    assert_eq!(rt; entry_of(&replica, 100), known);
    let both = two(2, 1)?;
    assert_eq!(rt; replica.lookup(100, &both), answer_of(known, both));
    Ok(())
}

fn try_merges<L: Lattice>(
    rt: &impl Abort,
    heap: Global,
    cases: &[(Option<State>, Option<State>, Option<State>)],
) -> Result<(), Fail> {
    for case in cases {
        try_merge::<L>(rt, heap, case)?;
    }
    Ok(())
}

fn tombstone(time: u64, first: u32, second: u32) -> Result<Option<State>, Fail> {
    Ok(Some(State::Tombstone {
        time,
        timestamp: two(first, second)?,
    }))
}

fn value(value: u64) -> Option<State> {
    Some(State::Value(value))
}

#[test]
fn every_pair_of_states_of_counts_merges(rt: HostRuntime) -> Result<(), Fail> {
    let first = tombstone(25, 1, 1)?;
    let second = tombstone(27, 2, 0)?;
    let earlier = tombstone(20, 2, 0)?;
    try_merges::<Counts>(
        &rt,
        rt.alloc(),
        &[
            (None, None, None),
            (None, value(5), value(5)),
            (None, second, second),
            (value(3), None, value(3)),
            (value(3), value(5), value(5)),
            (value(5), value(3), value(5)),
            (value(3), second, second),
            (first, None, first),
            (first, value(5), first),
            (first, second, tombstone(27, 2, 1)?),
            (first, earlier, tombstone(25, 2, 1)?),
        ],
    )
}

#[test]
fn every_pair_of_states_of_ports_merges(rt: HostRuntime) -> Result<(), Fail> {
    let first = tombstone(25, 1, 1)?;
    let second = tombstone(27, 2, 0)?;
    try_merges::<Ports>(
        &rt,
        rt.alloc(),
        &[
            (None, None, None),
            (None, value(5), value(5)),
            (None, second, second),
            (value(3), None, value(3)),
            (value(3), value(5), value(7)),
            (value(3), second, second),
            (first, None, first),
            (first, value(5), first),
            (first, second, tombstone(27, 2, 1)?),
        ],
    )
}
