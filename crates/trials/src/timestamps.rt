// Timestamps: compared, merged, bumped, read and written at their bounds.
use gossip::{Refusal, Timestamp, is_group_size};
use std::cmp::Ordering;
use std::test::Fail;

#[test]
fn compares_part_by_part(rt: HostRuntime) -> Result<(), Fail> {
    let low = Timestamp::read(3, &[1, 0, 2])?;
    let high = Timestamp::read(3, &[1, 1, 2])?;
    assert_eq!(rt; low.partial_cmp(&high), Some(Ordering::Less));
    assert_eq!(rt; high.partial_cmp(&low), Some(Ordering::Greater));
    assert_eq!(rt; low.partial_cmp(&low), Some(Ordering::Equal));
    let left = Timestamp::read(2, &[1, 0])?;
    let right = Timestamp::read(2, &[0, 1])?;
    assert_eq!(rt;
        left.partial_cmp(&right),
        None,
        "neither is at or under the other"
    );
    assert_eq!(rt; left.is_under(&right), false);
    assert_eq!(rt; low.is_under(&low), true);
    Ok(())
}

#[test]
fn compares_the_last_part_too(rt: HostRuntime) -> Result<(), Fail> {
    let low = Timestamp::read(7, &[9, 9, 9, 9, 9, 9, 8])?;
    let high = Timestamp::read(7, &[9, 9, 9, 9, 9, 9, 9])?;
    assert_eq!(rt; low.partial_cmp(&high), Some(Ordering::Less));
    Ok(())
}

#[test]
fn merges_to_the_larger_of_each_part(rt: HostRuntime) -> Result<(), Fail> {
    let mut merged = Timestamp::read(2, &[1, 0])?;
    merged.merge(&Timestamp::read(2, &[0, 1])?);
    assert_eq!(rt; merged, Timestamp::read(2, &[1, 1])?);
    Ok(())
}

#[test]
fn bumps_up_to_the_largest_part(rt: HostRuntime) -> Result<(), Fail> {
    let mut timestamp = Timestamp::read(2, &[4_294_967_294, 7])?;
    timestamp.bump(0)?;
    assert_eq!(rt; timestamp.bump(0), Err(Refusal::Full));
    assert_eq!(rt; timestamp.bump(7), Err(Refusal::Replica));
    assert_eq!(rt;
        timestamp,
        Timestamp::read(2, &[4_294_967_295, 7])?,
        "a refusal changes nothing"
    );
    Ok(())
}

#[test]
fn reads_exactly_n_parts(rt: HostRuntime) -> Result<(), Fail> {
    assert_eq!(rt;
        Timestamp::read(1, &[5])?.prefix(7) == [5, 0, 0, 0, 0, 0, 0].as_slice(),
        true
    );
    assert_eq!(rt; Timestamp::read(0, &[]), Err(Refusal::Parts));
    assert_eq!(rt; Timestamp::read(2, &[5]), Err(Refusal::Parts));
    assert_eq!(rt; Timestamp::read(2, &[5, 6, 7]), Err(Refusal::Parts));
    assert_eq!(rt; Timestamp::read(8, &[1; 8]), Err(Refusal::Parts));
    Ok(())
}

#[test]
fn writes_exactly_n_parts(rt: HostRuntime) -> Result<(), Fail> {
    let timestamp = Timestamp::read(3, &[1, 2, 3])?;
    let mut buffer = [9; 3];
    timestamp.write(3, &mut buffer)?;
    assert_eq!(rt; buffer, [1, 2, 3]);
    let mut short = [9; 2];
    assert_eq!(rt; timestamp.write(3, &mut short), Err(Refusal::Parts));
    assert_eq!(rt; short, [9, 9], "a refusal writes nothing");
    Ok(())
}

#[test]
fn is_of_n_replicas_where_the_rest_is_zero(rt: HostRuntime) -> Result<(), Fail> {
    let timestamp = Timestamp::read(3, &[1, 2, 0])?;
    assert_eq!(rt; timestamp.is_of(1), false);
    assert_eq!(rt; timestamp.is_of(2), true);
    assert_eq!(rt; timestamp.is_of(7), true);
    assert_eq!(rt; Timestamp::zero().is_of(0), true);
    Ok(())
}

#[test]
fn a_group_has_one_to_seven_replicas(rt: HostRuntime) {
    assert_eq!(rt; is_group_size(0), false);
    assert_eq!(rt; is_group_size(1), true);
    assert_eq!(rt; is_group_size(7), true);
    assert_eq!(rt; is_group_size(8), false);
}
