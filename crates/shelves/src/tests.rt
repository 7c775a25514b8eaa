use super::*;

// Two rows of three places; every mark but 1 is a hole.
const SYMBOLS: [u16; 6] = [10, 11, 12, 20, 21, 22];

const MARKS: [u8; 6] = [1, 0, 1, 255, 2, 1];

#[test]
fn symbols_holes_and_beyond(rt: HostRuntime) {
    let mut symbols = SYMBOLS;
    let mut marks = MARKS;
    let shelf = ArrayShelf::over(2, 3, &mut symbols, &mut marks);
    assert_eq!(rt; shelf.rows(), 2);
    assert_eq!(rt; shelf.places(), 3);
    assert_eq!(rt; shelf.get(0, 0), Got::Symbol(10));
    assert_eq!(rt; shelf.get(0, 1), Got::Hole);
    assert_eq!(rt; shelf.get(1, 0), Got::Hole);
    assert_eq!(rt; shelf.get(1, 1), Got::Hole);
    assert_eq!(rt; shelf.get(1, 2), Got::Symbol(22));
    assert_eq!(rt; shelf.get(2, 0), Got::Outside);
    assert_eq!(rt; shelf.get(0, 3), Got::Outside);
    assert_eq!(rt; shelf.get(usize::MAX, usize::MAX), Got::Outside);
}

#[test]
fn puts_change_their_place_alone(rt: HostRuntime) {
    let mut symbols = SYMBOLS;
    let mut marks = MARKS;
    let mut shelf = ArrayShelf::over(2, 3, &mut symbols, &mut marks);
    assert_eq!(rt; shelf.put(1, 0, 99), Ok(()));
    assert_eq!(rt; shelf.put(1, 2, 98), Ok(()));
    assert_eq!(rt; shelf.put(2, 0, 97), Err(Outside));
    assert_eq!(rt; shelf.put(0, 3, 96), Err(Outside));
    assert_eq!(rt; shelf.get(1, 0), Got::Symbol(99));
    assert_eq!(rt; shelf.get(1, 1), Got::Hole);
    assert_eq!(rt; shelf.get(1, 2), Got::Symbol(98));
    assert_eq!(rt; shelf.get(0, 2), Got::Symbol(12));
}

// The shelf's sizes over this much memory.
fn sizes(rows: usize, places: usize, symbols: &mut [u16], marks: &mut [u8]) -> (usize, usize) {
    let shelf = ArrayShelf::over(rows, places, symbols, marks);
    (shelf.rows(), shelf.places())
}

#[test]
fn memory_of_another_size(rt: HostRuntime) {
    assert_eq!(rt; sizes(2, 3, &mut [0; 6], &mut [1; 6]), (2, 3));
    assert_eq!(rt; sizes(2, 3, &mut [0; 5], &mut [1; 6]), (0, 0));
    assert_eq!(rt; sizes(2, 3, &mut [0; 7], &mut [1; 6]), (0, 0));
    assert_eq!(rt; sizes(2, 3, &mut [0; 6], &mut [1; 5]), (0, 0));
    assert_eq!(rt; sizes(2, 3, &mut [0; 6], &mut [1; 7]), (0, 0));
    assert_eq!(rt; sizes(0, 7, &mut [], &mut []), (0, 7));
    assert_eq!(rt; sizes(1 << 63, 2, &mut [], &mut []), (0, 0));
}
