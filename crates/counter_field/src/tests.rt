use super::*;

#[test]
fn zero_one_and_the_largest(rt: HostRuntime) {
    let zero = Counter::Low(0);
    let one = Counter::Low(1);
    let largest = Counter::Top;
    assert_eq!(rt; <Counter as Field>::zero(), zero);
    assert_eq!(rt; <Counter as Field>::one(), one);
    assert_eq!(rt; largest.sum(one), zero);
    assert_eq!(rt; Counter::Low(65_535).sum(one), largest);
    assert_eq!(rt; largest.sum(largest), Counter::Low(65_535));
    assert_eq!(rt; zero.difference(one), largest);
    assert_eq!(rt; zero.difference(largest), one);
    assert_eq!(rt; largest.product(largest), one);
    assert_eq!(rt; largest.product(zero), zero);
    assert_eq!(rt; zero.inverse(), zero);
    assert_eq!(rt; largest.inverse(), largest);
    assert_eq!(rt; Counter::Low(3).inverse(), Counter::Low(21_846));
}

#[test]
fn both_sides_of_65_536(rt: HostRuntime) {
    assert_eq!(rt;
        <Counter as Field>::numbered(65_535),
        Some(Counter::Low(65_535))
    );
    assert_eq!(rt; <Counter as Field>::numbered(65_536), Some(Counter::Top));
    assert_eq!(rt; <Counter as Field>::numbered(65_537), None);
    assert_eq!(rt; <Counter as Field>::numbered(131_073), None);
    assert_eq!(rt; Counter::Top.number(), 65_536);
    assert!(rt; Counter::Top.equals(Counter::Top) && !Counter::Top.equals(Counter::Low(0)));
}

#[test]
fn codes(rt: HostRuntime) {
    assert_eq!(rt;
        <Counter as CodedField>::decode(&[0, 255, 255]),
        Some(Counter::Low(65_535))
    );
    assert_eq!(rt;
        <Counter as CodedField>::decode(&[1, 0, 0]),
        Some(Counter::Top)
    );
    assert_eq!(rt; <Counter as CodedField>::decode(&[1, 0, 1]), None);
    assert_eq!(rt; <Counter as CodedField>::decode(&[255, 255, 255]), None);
    assert_eq!(rt; <Counter as CodedField>::decode(&[1, 0]), None);
    let mut code = [9u8; 3];
    assert_eq!(rt; Counter::Low(258).encode(&mut code), Ok(()));
    assert!(rt; code[0] == 0 && code[1] == 1 && code[2] == 2);
}
