use super::*;
use algebra::WrongLength;

#[test]
fn zero_one_and_the_largest(rt: HostRuntime) {
    let zero = Byte(0);
    let one = Byte(1);
    let largest = Byte(255);
    assert_eq!(rt; <Byte as Field>::zero(), zero);
    assert_eq!(rt; <Byte as Field>::one(), one);
    assert_eq!(rt; largest.sum(one), Byte(254));
    assert_eq!(rt; largest.difference(largest), zero);
    assert_eq!(rt; largest.product(zero), zero);
    assert_eq!(rt; largest.product(one), largest);
    assert_eq!(rt; largest.product(largest), Byte(226));
    assert_eq!(rt; zero.inverse(), zero);
    assert_eq!(rt; one.inverse(), one);
    assert_eq!(rt; largest.inverse(), Byte(253));
}

#[test]
fn numbers_and_codes(rt: HostRuntime) {
    assert_eq!(rt; <Byte as Field>::numbered(255), Some(Byte(255)));
    assert_eq!(rt; <Byte as Field>::numbered(256), None);
    assert_eq!(rt; Byte(29).number(), 29);
    assert!(rt; Byte(7).equals(Byte(7)) && !Byte(7).equals(Byte(6)));
    let mut code = [0u8; 1];
    assert_eq!(rt; Byte(163).encode(&mut code), Ok(()));
    assert_eq!(rt; code[0], 163);
    assert_eq!(rt; <Byte as CodedField>::decode(&code), Some(Byte(163)));
    let mut other = [9u8; 2];
    assert_eq!(rt; Byte(163).encode(&mut other), Err(WrongLength));
    assert_eq!(rt; other[0], 9);
    assert_eq!(rt; <Byte as CodedField>::decode(&other), None);
}
