mod calls;
mod mended;
mod rounds;
mod written;

use algebra::Field;
use byte_field::Byte;
use counter_field::Counter;
use rules::{Refusal, Sizes, Verdict};
use shelves::ArrayShelf;
use std::alloc::{AllocError, Global};
use std::test::Fail;
use tray::Tray;

// In order, for short tests; no function of Sizes, where four numbers without names could change places.
fn sizes(data_rows: usize, parity_rows: usize, block_length: usize, card_length: usize) -> Sizes {
    Sizes {
        data_rows,
        parity_rows,
        block_length,
        card_length,
    }
}

// Whether a tray of these sizes fits, over a shelf of zeros that has its rows and places. Over lent memory, so life's bench, which owns its memory, is another.
fn fits<F: Field>(heap: Global, sizes: Sizes) -> Result<bool, AllocError> {
    let rows = sizes.rows();
    let places = sizes.places();
    let mut symbols = vec![in heap; F::zero(); rows.saturating_mul(places)]?;
    let mut marks = vec![in heap; 1; rows.saturating_mul(places)]?;
    let tray = Tray::over(
        ArrayShelf::over(rows, places, &mut symbols, &mut marks),
        sizes,
    );
    Ok(tray.fit().is_ok())
}

#[test]
fn limits_of_the_sizes(rt: HostRuntime) -> Result<(), Fail> {
    let heap = rt.alloc();
    assert!(rt; fits::<Byte>(heap, sizes(1, 1, 255, 2))?);
    assert!(rt; !fits::<Byte>(heap, sizes(1, 1, 256, 2))?);
    assert!(rt; fits::<Counter>(heap, sizes(1, 1, 4_096, 2))?);
    assert!(rt; !fits::<Counter>(heap, sizes(1, 1, 4_097, 2))?);
    assert!(rt; fits::<Byte>(heap, sizes(64, 4, 1, 8))?);
    assert!(rt; !fits::<Byte>(heap, sizes(65, 4, 1, 8))?);
    assert!(rt; !fits::<Byte>(heap, sizes(0, 4, 1, 8))?);
    assert!(rt; !fits::<Byte>(heap, sizes(2, 5, 1, 2))?);
    assert!(rt; !fits::<Byte>(heap, sizes(2, 0, 1, 2))?);
    assert!(rt; !fits::<Byte>(heap, sizes(2, 2, 0, 2))?);
    assert!(rt; !fits::<Byte>(heap, sizes(2, 2, 1, 1))?);
    assert!(rt; !fits::<Byte>(heap, sizes(2, 2, 1, 9))?);
    Ok(())
}

#[test]
fn sizes_near_the_largest_number(rt: HostRuntime) {
    let huge = sizes(usize::MAX, usize::MAX, usize::MAX, usize::MAX);
    let mut symbols = [Byte(0); 1];
    let mut marks = [1; 1];
    let tray = Tray::over(ArrayShelf::over(1, 1, &mut symbols, &mut marks), huge);
    assert_eq!(rt; tray.fit(), Err(Refusal::DoesNotFit));
}

// Two data rows and two parity rows of three symbols, with room for cards of two that are holes or wrong.
const EXAMPLE: [Byte; 20] = [
    Byte(1),
    Byte(2),
    Byte(3),
    Byte(9),
    Byte(0),
    Byte(4),
    Byte(0),
    Byte(0),
    Byte(0),
    Byte(9),
    Byte(5),
    Byte(2),
    Byte(3),
    Byte(0),
    Byte(0),
    Byte(163),
    Byte(81),
    Byte(247),
    Byte(0),
    Byte(0),
];

const MARKS: [u8; 20] = [1, 1, 1, 1, 0, 1, 1, 1, 0, 1, 1, 1, 1, 0, 0, 1, 1, 1, 0, 0];

// What stands in the memory once the example is taken in.
const STOCKED: [usize; 20] = [
    1, 2, 3, 0, 9, 4, 0, 0, 4, 4, 5, 2, 3, 4, 13, 163, 81, 247, 5, 250,
];

// A tray of the example's sizes over this memory.
fn delivered<'a>(symbols: &'a mut [Byte], marks: &'a mut [u8]) -> Tray<ArrayShelf<'a, Byte>> {
    Tray::over(ArrayShelf::over(4, 5, symbols, marks), sizes(2, 2, 3, 2))
}

#[test]
fn intake_puts_every_card_once(rt: HostRuntime) {
    let mut symbols = EXAMPLE;
    let mut marks = MARKS;
    {
        let mut tray = delivered(&mut symbols, &mut marks);
        assert_eq!(rt; tray.intake(), Ok(()));
        assert_eq!(rt; tray.intake(), Err(Refusal::TakenInAlready));
    }
    assert_eq!(rt; numbers(&symbols), STOCKED);
    assert_eq!(rt; marks, [1; 20]);
}

// The example's tray, taken in over this memory.
fn example<'a>(symbols: &'a mut [Byte], marks: &'a mut [u8]) -> Tray<ArrayShelf<'a, Byte>> {
    let mut tray = delivered(symbols, marks);
    let _ = tray.intake();
    tray
}

// What stands in the memory of a tray of the example's sizes.
fn numbers<F: Field>(symbols: &[F; 20]) -> [usize; 20] {
    std::array::from_fn(|at| symbols[at].number())
}

// What intake answers to the example with one symbol or one mark changed.
fn answer(at: usize, symbol: u8, mark: u8) -> Result<(), Refusal> {
    let mut symbols = EXAMPLE;
    let mut marks = MARKS;
    if at < 20 {
        symbols[at] = Byte(symbol);
        marks[at] = mark;
    }
    delivered(&mut symbols, &mut marks).intake()
}

#[test]
fn intake_names_the_first_fault(rt: HostRuntime) {
    assert_eq!(rt; answer(7, 0, 0), Err(Refusal::Unreadable(1, 2)));
    assert_eq!(rt; answer(17, 247, 2), Err(Refusal::Unreadable(3, 2)));
    assert_eq!(rt; answer(11, 3, 1), Err(Refusal::Misfit(2, 1)));
    assert_eq!(rt; answer(16, 80, 1), Err(Refusal::Misfit(3, 1)));
    assert_eq!(rt; answer(2, 4, 1), Err(Refusal::Misfit(2, 2)));
    assert_eq!(rt; answer(3, 77, 0), Ok(()));
}

#[test]
fn intake_names_the_lowest_row_and_then_the_lowest_place(rt: HostRuntime) {
    let mut symbols = EXAMPLE;
    let mut marks = MARKS;
    symbols[12] = Byte(4);
    symbols[15] = Byte(0);
    let mut tray = delivered(&mut symbols, &mut marks);
    assert_eq!(rt; tray.intake(), Err(Refusal::Misfit(2, 2)));
    assert_eq!(rt; tray.intake(), Err(Refusal::Misfit(2, 2)));
}

#[test]
fn intake_looks_for_holes_first(rt: HostRuntime) {
    let mut symbols = EXAMPLE;
    let mut marks = MARKS;
    symbols[10] = Byte(0);
    marks[12] = 0;
    marks[15] = 0;
    let mut tray = delivered(&mut symbols, &mut marks);
    assert_eq!(rt; tray.intake(), Err(Refusal::Unreadable(2, 2)));
}

// A refusal's text: its number, and what it carries.
#[test]
fn refusals_as_text(rt: HostRuntime) -> Result<(), Fail> {
    let texts = [
        (Refusal::DoesNotFit, "1"),
        (Refusal::NotTakenIn, "2"),
        (Refusal::TakenInAlready, "3"),
        (Refusal::NoSuchRow(7), "4 7"),
        (Refusal::BadSpan(9), "5 9"),
        (Refusal::Unsound(2, Verdict::Hole(5)), "6 2 5"),
        (Refusal::Unsound(2, Verdict::Card(1)), "6 2 1"),
        (Refusal::Unreadable(3, 4), "7 3 4"),
        (Refusal::Misfit(3, 4), "8 3 4"),
        (Refusal::TooManyUnsound(5), "9 5"),
        (Refusal::WrongPhase, "10"),
        (Refusal::StillWalking(6), "11 6"),
    ];
    for (refusal, text) in texts {
        assert_eq!(rt; refusal.to_string(rt.alloc())?.as_str(), text);
    }
    Ok(())
}
