// Lookup: known, unknown, or behind the timestamp that is asked.
use super::{holding, two};
use gossip::{Counts, Timestamp};
use replica::{Lookup, Replica};
use std::process::Abort;
use std::test::Fail;

// Each seat is looked up at the parts asked: seat, first and second part, and the answer.
fn try_lookups(
    rt: &impl Abort,
    replica: &Replica,
    cases: &[(u64, u32, u32, Lookup)],
) -> Result<(), Fail> {
    for &(seat, first, second, answer) in cases {
        let given = replica.lookup(seat, &two(first, second)?);
        assert_eq!(rt; given, answer, "seat {seat} at {first}, {second}");
    }
    Ok(())
}

#[test]
fn a_seat_is_known_or_unknown_and_any_may_be_asked(rt: HostRuntime) -> Result<(), Fail> {
    let replica = holding::<Counts>(&rt, rt.alloc(), (1, 2))?;
    let timestamp = replica.timestamp();
    let known = Lookup::Known {
        value: 5,
        timestamp,
    };
    let unknown = Lookup::Unknown { timestamp };
    try_lookups(
        &rt,
        &replica,
        &[
            (100, 1, 2, known),
            (200, 1, 2, unknown),
            (101, 1, 2, unknown),
            (0, 1, 2, unknown),
            (18_446_744_073_709_551_615, 1, 2, unknown),
        ],
    )
}

#[test]
fn a_lookup_is_answered_at_or_under_the_timestamp(rt: HostRuntime) -> Result<(), Fail> {
    let replica = holding::<Counts>(&rt, rt.alloc(), (1, 2))?;
    let known = Lookup::Known {
        value: 5,
        timestamp: two(1, 2)?,
    };
    try_lookups(
        &rt,
        &replica,
        &[
            (100, 0, 0, known),
            (100, 0, 2, known),
            (100, 1, 1, known),
            (100, 1, 2, known),
            (100, 2, 2, Lookup::Behind),
            (100, 1, 3, Lookup::Behind),
            (100, 2, 1, Lookup::Behind),
            (100, 0, 3, Lookup::Behind),
            (101, 2, 2, Lookup::Behind),
            (200, 2, 2, Lookup::Behind),
        ],
    )?;
    let third = Timestamp::read(3, &[0, 0, 1])?;
    assert_eq!(rt;
        replica.lookup(100, &third),
        Lookup::Behind,
        "a group of two has no third part"
    );
    Ok(())
}
