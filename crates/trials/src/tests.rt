use super::no_road::NoRoad;
use encoder::{Table, encode};
use judging::{judge, judge_bytes};
use record::{MAX_NODES, Record, check_record};
use ruling::{Kinds, Layer, Refusal, check_opening, check_ranks};
use std::test::Fail;

// path, road, sign, join
const RANKS: [u8; 4] = [0, 0, 1, 2];

// A sign over the join of a signed path with the join of a road and a path.
const NESTED: [u8; 7] = [0, 2, 1, 0, 3, 3, 2];

// The numbers and places that refusals tell.
#[test]
fn notices(rt: HostRuntime) {
    for (refusal, number, place) in [
        (Refusal::KindCount(0), 1, 0),
        (Refusal::KindCount(300), 1, 300),
        (Refusal::RankAbove(1), 2, 1),
        (Refusal::NoLeafKind, 3, 0),
        (Refusal::KindsDiffer(3), 7, 3),
        (Refusal::TooFewParts(1), 10, 1),
        (Refusal::TooManyStates(33), 12, 33),
        (Refusal::TooManyStates(256), 12, 256),
        (Refusal::TooManyStates(1089), 12, 1089),
        (Refusal::BufferTooShort(7), 13, 7),
        (Refusal::BufferTooShort(34), 13, 34),
    ] {
        let notice = refusal.notice();
        assert_eq!(rt; (notice.number, notice.place), (number, place));
    }
    assert_eq!(rt; Refusal::PairTooLarge(1120).notice().layer, Layer::Ruling);
}

#[test]
fn opening(rt: HostRuntime) {
    assert_eq!(rt; check_opening(&RANKS), Ok(()));
    assert_eq!(rt; check_opening(&[]), Err(Refusal::KindCount(0)));
    assert_eq!(rt; check_opening(&[0; 300]), Err(Refusal::KindCount(300)));
    assert_eq!(rt; check_opening(&[1, 3, 9]), Err(Refusal::RankAbove(1)));
    assert_eq!(rt; check_opening(&[1, 2]), Err(Refusal::NoLeafKind));
    assert_eq!(rt; check_ranks(&[1, 2]), Ok(()));
}

#[test]
fn places(rt: HostRuntime) -> Result<(), Fail> {
    let kinds = Kinds::try_from(RANKS.as_slice())?;
    let record = Record::read(&NESTED, kinds)?;
    assert!(rt; record.nth_child(1).is_none());
    let join = record.nth_child(0).ok_or("a sign has a child")?;
    assert!(rt; join.place() == 0 && join.len() == 6);
    let inner = join.nth_child(1).ok_or("a join has two children")?;
    assert!(rt; inner.place() == 2 && inner.len() == 3);
    let span = inner.find_child(1).ok_or("a join has two children")?;
    let path = inner.child(1, span);
    assert!(rt; path.place() == 3 && path.len() == 1);
    assert_eq!(rt; path.bytes(), [0].as_slice());
    Ok(())
}

#[test]
fn judges_bytes(rt: HostRuntime) {
    let mut slots = [0; 7];
    let mut few = [0; 6];
    assert_eq!(rt; judge_bytes(&NoRoad, &NESTED, &mut slots), Ok(false));
    assert_eq!(rt; judge_bytes(&NoRoad, &[0, 2, 0, 3], &mut few), Ok(true));
    assert_eq!(rt;
        judge_bytes(&NoRoad, &[0, 3], &mut slots),
        Err(Refusal::TooFewParts(1))
    );
    assert_eq!(rt;
        judge_bytes(&NoRoad, &NESTED, &mut few),
        Err(Refusal::BufferTooShort(7))
    );
}

#[test]
fn other_kinds(rt: HostRuntime) -> Result<(), Fail> {
    let ranks = [0, 0, 1];
    check_ranks(&ranks)?;
    let kinds = Kinds::make(&ranks);
    check_record(&kinds, &[0, 2], MAX_NODES)?;
    let record = Record::make(&[0, 2], kinds);
    assert_eq!(rt;
        judge(&NoRoad, &record, &mut [0; 2]),
        Err(Refusal::KindsDiffer(3))
    );
    Ok(())
}

// The table file of NoRoad.
pub(super) const NO_ROAD_FILE: &[u8; 34] =
    b"\x01\x02\x04\x00\x00\x00\x01\x02\x01\x00\x1A\x00\x01\x00\x1B\x00\x01\x00\x1C\x00\x02\x00\x1E\x00\x04\x00\x00\x01\x00\x01\x00\x01\x01\x01";

#[test]
fn copied_and_encoded(rt: HostRuntime) -> Result<(), Fail> {
    let table = Table::copied(&NoRoad).ok_or("it has two states and a leaf kind")?;
    let mut out = [7; 36];
    assert_eq!(rt; encode(&table, &mut out), Ok(34));
    assert_eq!(rt; &out[0..34], NO_ROAD_FILE.as_slice());
    assert!(rt; out[34] == 7 && out[35] == 7);
    Ok(())
}

#[test]
fn short_buffer(rt: HostRuntime) -> Result<(), Fail> {
    let table = Table::copied(&NoRoad).ok_or("it has two states and a leaf kind")?;
    let mut out = [7; 33];
    assert_eq!(rt; encode(&table, &mut out), Err(Refusal::BufferTooShort(34)));
    assert_eq!(rt; out, [7; 33]);
    Ok(())
}
