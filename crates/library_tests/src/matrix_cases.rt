// The matrix: its size, its marks, its room and its bytes.
use crate::expect::{is_wiped, only};
use crate::script::Step::*;
use crate::script::{keeps, keeps_matrix, plays, plays_over_zeros};
use store::Refusal;

// A new matrix has one station and no room, over any area.
#[test]
fn begins_with_one_station(rt: HostRuntime) {
    let steps = [Size(1), Room(0), Mark(0, 1, 0)];
    assert!(rt; keeps(&mut [0; 100], 255, &steps));
    assert!(rt; keeps_matrix(255, &steps));
}

// 1 to 256 stations can be made, and then no pair stands.
#[test]
fn makes_1_to_256_stations(rt: HostRuntime) {
    let mut area = [255; 8200];
    let made = plays(
        &mut area,
        &[
            SetSize(2, Ok(())),
            Make(1, Ok(())),
            Size(1),
            Room(0),
            Make(256, Ok(())),
            Size(256),
            Room(32640),
            Count(1, 0),
            Count(2, 0),
        ],
    );
    assert!(rt; made);
    assert!(rt; is_wiped(&area, 255));
}

// Other numbers of stations are refused by 6, and the matrix stays.
#[test]
fn makes_no_other_number_of_stations(rt: HostRuntime) {
    assert!(rt;
        keeps_matrix(
            255,
            &[
                SetSize(5, Ok(())),
                Make(0, Err(Refusal::SizeOutside)),
                Make(257, Err(Refusal::SizeOutside)),
                SetSize(0, Err(Refusal::SizeOutside)),
                SetSize(257, Err(Refusal::SizeOutside)),
                Size(5),
                Count(1, 10),
            ],
        )
    );
}

// A short area is refused by 9, after 6, and stays.
#[test]
fn makes_nothing_in_a_short_area(rt: HostRuntime) {
    assert!(rt;
        keeps(
            &mut [0; 8191],
            255,
            &[
                Make(1, Err(Refusal::AreaTooShort)),
                Make(256, Err(Refusal::AreaTooShort)),
                SetSize(2, Err(Refusal::AreaTooShort)),
                Make(0, Err(Refusal::SizeOutside)),
                Make(257, Err(Refusal::SizeOutside)),
                SetSize(257, Err(Refusal::SizeOutside)),
                Size(1),
                Room(0),
            ],
        )
    );
}

// A station outside is refused by 1, also where both are one; then one station twice by 2.
#[test]
fn lays_no_pair_outside(rt: HostRuntime) {
    assert!(rt;
        keeps_matrix(
            0,
            &[
                Make(4, Ok(())),
                Lay(4, 0, Err(Refusal::StationOutside)),
                Lay(0, 4, Err(Refusal::StationOutside)),
                Lay(4, 4, Err(Refusal::StationOutside)),
                Lay(300, 300, Err(Refusal::StationOutside)),
                Lay(0, 0, Err(Refusal::SameStation)),
                Lay(3, 3, Err(Refusal::SameStation)),
                Room(6),
            ],
        )
    );
}

// A pair that stands, as a tie or as fill, is refused by 3, either way round.
#[test]
fn lays_no_pair_twice(rt: HostRuntime) {
    assert!(rt;
        plays_over_zeros(&[
            Make(4, Ok(())),
            Tie(0, 1, Ok(())),
            Lay(3, 2, Ok(())),
            Lay(0, 1, Err(Refusal::PairStands)),
            Lay(1, 0, Err(Refusal::PairStands)),
            Lay(2, 3, Err(Refusal::PairStands)),
            Lay(3, 2, Err(Refusal::PairStands)),
            Mark(0, 1, 1),
            Mark(2, 3, 2),
            Room(4),
        ],)
    );
}

// A laid pair is fill, either way round, and takes one from the room.
#[test]
fn lays_fill(rt: HostRuntime) {
    assert!(rt;
        plays_over_zeros(&[
            Make(4, Ok(())),
            Room(6),
            Lay(0, 3, Ok(())),
            Room(5),
            Lay(2, 1, Ok(())),
            Room(4),
            Mark(0, 3, 2),
            Mark(3, 0, 2),
            Mark(1, 2, 2),
            Mark(2, 1, 2),
            Mark(0, 1, 0),
            Size(4),
        ],)
    );
}

// One station twice and a station outside have mark 0, whatever the bits say.
#[test]
fn marks_no_pair_outside(rt: HostRuntime) {
    assert!(rt;
        keeps_matrix(
            255,
            &[
                SetSize(4, Ok(())),
                Mark(2, 3, 1),
                Mark(2, 2, 0),
                Mark(3, 4, 0),
                Mark(4, 3, 0),
                Mark(4, 4, 0),
                Mark(256, 0, 0),
                Mark(0, 18446744073709551615, 0),
            ],
        )
    );
}

// A tie is refused by 1 and 2, may be given again, and turns fill into a tie.
#[test]
fn ties_pairs(rt: HostRuntime) {
    assert!(rt;
        plays_over_zeros(&[
            Make(3, Ok(())),
            Tie(3, 0, Err(Refusal::StationOutside)),
            Tie(0, 3, Err(Refusal::StationOutside)),
            Tie(3, 3, Err(Refusal::StationOutside)),
            Tie(1, 1, Err(Refusal::SameStation)),
            Room(3),
            Lay(0, 2, Ok(())),
            Tie(2, 0, Ok(())),
            Mark(0, 2, 1),
            Mark(2, 0, 1),
            Tie(0, 2, Ok(())),
            Count(1, 1),
            Count(2, 0),
            Room(2),
        ],)
    );
}

// A smaller matrix hides the pairs of its last stations, and a larger one shows them again.
#[test]
fn keeps_pairs_when_its_size_changes(rt: HostRuntime) {
    assert!(rt;
        plays_over_zeros(&[
            Make(5, Ok(())),
            Tie(0, 4, Ok(())),
            Lay(1, 2, Ok(())),
            SetSize(3, Ok(())),
            Size(3),
            Mark(0, 4, 0),
            Mark(1, 2, 2),
            Room(2),
            SetSize(256, Ok(())),
            Size(256),
            Mark(0, 4, 1),
            Room(32638),
        ],)
    );
}

// The pairs of each mark are counted, and no pair has another mark.
#[test]
fn counts_each_mark(rt: HostRuntime) {
    assert!(rt;
        plays_over_zeros(&[
            Make(5, Ok(())),
            Tie(0, 1, Ok(())),
            Tie(4, 3, Ok(())),
            Lay(0, 2, Ok(())),
            Lay(3, 1, Ok(())),
            Lay(2, 4, Ok(())),
            Count(0, 5),
            Count(1, 2),
            Count(2, 3),
            Count(3, 0),
            Count(255, 0),
        ],)
    );
}

// A laid pair has one bit, in the row of its lower station, and a bit of a tie there goes.
#[test]
fn lays_one_bit(rt: HostRuntime) {
    let mut area = [0; 8192];
    area[6400] = 255;
    assert!(rt; plays(&mut area, &[SetSize(256, Ok(())), Lay(200, 3, Ok(()))]));
    assert!(rt; only(&area, &[(121, 1), (6400, 247)]));
}

// A tied pair has a bit in the row of each of its stations.
#[test]
fn ties_two_bits(rt: HostRuntime) {
    let mut area = [0; 8192];
    assert!(rt; plays(&mut area, &[Make(256, Ok(())), Tie(255, 3, Ok(()))]));
    assert!(rt; only(&area, &[(127, 128), (8160, 8)]));
}

// Each refusal has its number.
#[test]
fn numbers_every_refusal(rt: HostRuntime) {
    let table = [
        (Refusal::StationOutside, 1),
        (Refusal::SameStation, 2),
        (Refusal::PairStands, 3),
        (Refusal::NoRoom, 4),
        (Refusal::SheetLength, 5),
        (Refusal::SizeOutside, 6),
        (Refusal::PairMalformed, 7),
        (Refusal::PairNotAbove, 8),
        (Refusal::AreaTooShort, 9),
        (Refusal::StoreHoldsFill, 10),
        (Refusal::StripTooShort, 11),
        (Refusal::TakeOutside, 12),
        (Refusal::AlreadyTaken, 13),
        (Refusal::ShortfallExceedsRoom, 14),
        (Refusal::StationsLeft, 15),
        (Refusal::NumberPastLast, 16),
    ];
    for (refusal, number) in table {
        assert_eq!(rt; refusal.number(), number);
    }
}
