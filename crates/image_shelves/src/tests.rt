use super::*;
use algebra::{Field, OwnSymbols};
use byte_field::Byte;
use counter_field::Counter;
use shelves::{ArrayShelf, Shelf};
use std::alloc::{AllocError, Global};
use std::test::Fail;

// One data row and one parity row, of one block place and two card places; the marks are 1, 0, 1 and 2, 1, 1.
const BYTES: [u8; 18] = [1, 1, 1, 2, 0, 1, 1, 0, 1, 2, 1, 1, 10, 11, 12, 20, 21, 22];

// The same head in the counter field: 65,535 and a hole, 65,536; 65,537, 0xFFFFFF and 258.
const COUNTERS: [u8; 30] = [
    2, 1, 1, 2, 0, 1, 1, 0, 1, 1, 1, 1, 0, 255, 255, 0, 0, 0, 1, 0, 0, 1, 0, 1, 255, 255, 255, 0,
    1, 2,
];

#[test]
fn bytes_get_and_put(rt: HostRuntime) {
    let mut image = BYTES;
    let mut shelf = ByteImage::over(&mut image);
    assert_eq!(rt; shelf.rows(), 2);
    assert_eq!(rt; shelf.places(), 3);
    assert_eq!(rt; shelf.get(0, 0), Got::Symbol(Byte(10)));
    assert_eq!(rt; shelf.get(0, 1), Got::Hole);
    assert_eq!(rt; shelf.get(1, 0), Got::Hole);
    assert_eq!(rt; shelf.get(1, 2), Got::Symbol(Byte(22)));
    assert_eq!(rt; shelf.get(2, 0), Got::Outside);
    assert_eq!(rt; shelf.get(0, 3), Got::Outside);
    assert_eq!(rt; shelf.put(1, 0, Byte(99)), Ok(()));
    assert_eq!(rt; shelf.put(1, 2, Byte(98)), Ok(()));
    assert_eq!(rt; shelf.put(2, 0, Byte(97)), Err(Outside));
    assert_eq!(rt; shelf.put(0, 3, Byte(96)), Err(Outside));
    assert_eq!(rt; shelf.get(1, 0), Got::Symbol(Byte(99)));
    assert_eq!(rt; shelf.get(1, 1), Got::Symbol(Byte(21)));
    assert_eq!(rt; shelf.get(1, 2), Got::Symbol(Byte(98)));
}

#[test]
fn counters_get_and_put(rt: HostRuntime) {
    let mut image = COUNTERS;
    let mut shelf = CounterImage::over(&mut image);
    assert_eq!(rt; shelf.get(0, 0), Got::Symbol(Counter::Low(65_535)));
    assert_eq!(rt; shelf.get(0, 1), Got::Hole);
    assert_eq!(rt; shelf.get(0, 2), Got::Symbol(Counter::Top));
    assert_eq!(rt; shelf.get(1, 0), Got::Hole);
    assert_eq!(rt; shelf.get(1, 1), Got::Hole);
    assert_eq!(rt; shelf.get(1, 2), Got::Symbol(Counter::Low(258)));
    assert_eq!(rt; shelf.put(1, 1, Counter::Top), Ok(()));
    assert_eq!(rt; shelf.get(1, 1), Got::Symbol(Counter::Top));
    assert_eq!(rt; shelf.get(1, 2), Got::Symbol(Counter::Low(258)));
}

// The sizes of a shelf of the field over these bytes.
fn sizes<F: OwnSymbols>(bytes: &mut [u8]) -> (usize, usize) {
    let shelf = ImageShelf::<F>::over(bytes);
    (shelf.rows(), shelf.places())
}

#[test]
fn other_lengths_and_other_fields(rt: HostRuntime) {
    let mut bytes = BYTES;
    let mut counters = COUNTERS;
    assert_eq!(rt; sizes::<Counter>(&mut bytes), (0, 0));
    assert_eq!(rt; sizes::<Byte>(&mut counters), (0, 0));
    assert_eq!(rt; sizes::<Counter>(&mut counters), (2, 3));
    assert_eq!(rt; sizes::<Byte>(&mut []), (0, 0));
    assert_eq!(rt; sizes::<Byte>(&mut [1, 0, 0, 0, 0]), (0, 0));
    assert_eq!(rt; sizes::<Byte>(&mut [1, 0, 0, 2, 1, 1]), (0, 259));
    assert_eq!(rt; sizes::<Byte>(&mut [1, 1, 0, 0, 0, 1, 1]), (0, 0));
    assert_eq!(rt; sizes::<Byte>(&mut [1, 1, 0, 0, 0, 1, 1, 7]), (1, 1));
    assert_eq!(rt; sizes::<Byte>(&mut [1, 1, 0, 0, 0, 1, 1, 7, 7]), (0, 0));
}

// What a shelf answers at every place and one beyond, before and after a put over each hole: a number, or how the answer was none.
fn listed<S: Shelf>(heap: Global, shelf: &mut S) -> Result<Vec<Got<usize>>, AllocError>
where
    S::Symbol: Field,
{
    let mut answers = Vec::new(heap);
    for _round in 0..2 {
        for row in 0..shelf.rows().saturating_add(1) {
            for place in 0..shelf.places().saturating_add(1) {
                match shelf.get(row, place) {
                    Got::Symbol(symbol) => answers.push(Got::Symbol(symbol.number()))?,
                    Got::Hole => {
                        answers.push(Got::Hole)?;
                        let _ = shelf.put(row, place, S::Symbol::one());
                    }
                    Got::Outside => answers.push(Got::Outside)?,
                }
            }
        }
    }
    Ok(answers)
}

#[test]
fn array_and_image_answer_alike(rt: HostRuntime) -> Result<(), Fail> {
    let mut image = BYTES;
    let mut symbols = [Byte(10), Byte(11), Byte(12), Byte(20), Byte(21), Byte(22)];
    let mut marks = [1, 0, 1, 2, 1, 1];
    let of_image = listed(rt.alloc(), &mut ByteImage::over(&mut image))?;
    let of_array = listed(
        rt.alloc(),
        &mut ArrayShelf::over(2, 3, &mut symbols, &mut marks),
    )?;
    assert_eq!(rt; of_image.len(), 24);
    assert!(rt; of_image == of_array);
    Ok(())
}
