// A story of two replicas: a value is entered, told, deleted, told back and swept.
use super::{Answer, of_change, of_receipt, of_sweep, of_two, two};
use gossip::Counts;
use replica::{Change, Lookup, Replica};
use std::process::Abort;
use std::test::Fail;

// Seat 100 gets 5 at replica 0 and is deleted at replica 1, which has its message.
fn entered_and_deleted(rt: &impl Abort, zero: &mut Replica, one: &mut Replica) -> Result<(), Fail> {
    assert_eq!(rt;
        zero.enter::<Counts>(100, 5, 20, 20)?,
        Change::Set(two(1, 0)?)
    );
    assert_eq!(rt;
        one.receive::<Counts>(&zero.message(), 22)?,
        Some(two(1, 0)?)
    );
    assert_eq!(rt; one.delete(100, 25, 25)?, Change::Set(two(1, 1)?));
    Ok(())
}

#[test]
fn a_value_is_entered_told_deleted_told_back_and_swept(rt: HostRuntime) -> Result<(), Fail> {
    let mut zero = of_two(rt.alloc(), 0)?;
    let mut one = of_two(rt.alloc(), 1)?;
    entered_and_deleted(&rt, &mut zero, &mut one)?;
    assert_eq!(rt;
        of_sweep(one.sweep(36)),
        Answer::Swept(0),
        "replica 0 may not know"
    );
    assert_eq!(rt;
        of_receipt(zero.receive::<Counts>(&one.message(), 36)),
        Answer::New
    );
    assert_eq!(rt; of_sweep(zero.sweep(36)), Answer::Swept(1));
    assert_eq!(rt;
        of_change(zero.enter::<Counts>(100, 9, 25, 37)),
        Answer::Refused(5)
    );
    let timestamp = two(1, 1)?;
    assert_eq!(rt; zero.lookup(100, &timestamp), Lookup::Unknown { timestamp });
    assert_eq!(rt;
        of_receipt(one.receive::<Counts>(&zero.message(), 38)),
        Answer::Old
    );
    assert_eq!(rt; of_sweep(one.sweep(40)), Answer::Swept(0));
    Ok(())
}
