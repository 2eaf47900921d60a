// Examples of the whole and the weekday kind.
use kinds::kind::Kind;
use kinds::weekday::{Weekday, WeekdayCell};
use kinds::whole::{Whole, WholeCell};

fn quotient<K: Kind>(c: i32, d: i32) -> Option<i32> {
    let q = K::read(c)?.quotient(K::read(d)?)?;
    Some(q.write())
}

fn sum<K: Kind>(c: i32, q: i32, d: i32) -> Option<i32> {
    let r = K::read(c)?.add_product(K::read(q)?, K::read(d)?)?;
    Some(r.write())
}

fn unit<K: Kind>(a: i32) -> Option<i32> {
    Some(K::read(a)?.unit().write())
}

#[test]
fn whole_quotients_round_down(rt: HostRuntime) {
    assert_eq!(rt; quotient::<Whole>(7, 2), Some(3));
    assert_eq!(rt; quotient::<Whole>(-7, 2), Some(-4));
    assert_eq!(rt; quotient::<Whole>(7, -2), Some(-4));
    assert_eq!(rt; quotient::<Whole>(-7, -2), Some(3));
    assert_eq!(rt; quotient::<Whole>(-2147483647, -1), Some(2147483647));
    assert_eq!(rt; quotient::<Whole>(7, 0), None);
}

#[test]
fn whole_numbers_overflow_at_their_range(rt: HostRuntime) {
    assert_eq!(rt; sum::<Whole>(2147483646, 1, 1), Some(2147483647));
    assert_eq!(rt; sum::<Whole>(2147483647, 1, 1), None);
    assert_eq!(rt; sum::<Whole>(-2147483647, -1, 1), None);
    assert_eq!(rt; sum::<Whole>(0, 2147483647, 2147483647), None);
    assert!(rt; Whole::read(-2147483648).is_none());
    assert!(rt; Whole::from_cell(WholeCell { value: -2147483648 }).is_none());
    assert_eq!(rt; unit::<Whole>(-5), Some(-1));
    assert_eq!(rt; unit::<Whole>(0), Some(1));
}

#[test]
fn weekday_numbers_are_remainders(rt: HostRuntime) {
    assert_eq!(rt; sum::<Weekday>(5, 6, 6), Some(6));
    assert_eq!(rt; quotient::<Weekday>(1, 3), Some(5));
    assert_eq!(rt; quotient::<Weekday>(6, 5), Some(4));
    assert_eq!(rt; quotient::<Weekday>(1, 0), None);
    assert_eq!(rt; unit::<Weekday>(3), Some(5));
    assert_eq!(rt; unit::<Weekday>(0), Some(1));
    assert!(rt; Weekday::read(7).is_none() && Weekday::read(-1).is_none());
    assert!(rt; Weekday::from_cell(WeekdayCell { value: 7 }).is_none());
}
