// Clocks: kept at the latest reading, up to the largest.
use super::{Answer, LATEST, of_change, of_sweep, of_two};
use gossip::Counts;
use std::test::Fail;

#[test]
fn a_clock_stays_at_the_largest_reading(rt: HostRuntime) -> Result<(), Fail> {
    let mut replica = of_two(rt.alloc(), 0)?;
    // seat, time, reading, and the answer
    let cases = [
        (1, LATEST, LATEST, Answer::Set),
        (2, LATEST, 5, Answer::Set),
        (3, 1_099_511_627_765, 0, Answer::Set),
        (4, 1_099_511_627_764, 0, Answer::Refused(5)),
        (4, 5, 5, Answer::Refused(5)),
    ];
    for (seat, time, reading, answer) in cases {
        let given = of_change(replica.enter::<Counts>(seat, 5, time, reading));
        assert_eq!(rt; (seat, given), (seat, answer));
        assert_eq!(rt; replica.clock(), LATEST);
    }
    Ok(())
}

#[test]
fn a_sweep_moves_the_clock_on_and_never_back(rt: HostRuntime) -> Result<(), Fail> {
    let mut replica = of_two(rt.alloc(), 0)?;
    // reading, and the clock after it
    for (reading, clock) in [
        (0, 0),
        (30, 30),
        (29, 30),
        (31, 31),
        (LATEST, LATEST),
        (0, LATEST),
    ] {
        assert_eq!(rt; of_sweep(replica.sweep(reading)), Answer::Swept(0));
        assert_eq!(rt; (reading, replica.clock()), (reading, clock));
    }
    Ok(())
}
