// Tests of write: what stands on the shelf afterwards, worked out by hand from the rules of cards and parity.
use super::{EXAMPLE, MARKS, STOCKED, example, numbers, sizes};
use byte_field::Byte;
use counter_field::Counter;
use rules::{Refusal, Verdict};
use shelves::ArrayShelf;
use tray::Tray;

#[test]
fn a_write_moves_its_row_and_the_parity_rows(rt: HostRuntime) {
    let mut symbols = EXAMPLE;
    let mut marks = MARKS;
    {
        let mut tray = example(&mut symbols, &mut marks);
        assert_eq!(rt; tray.write(0, 1, &[Byte(7)]), Ok(()));
        for row in 0..4usize {
            assert_eq!(rt; tray.audit(row), Ok(Verdict::Sound));
        }
        assert_eq!(rt; tray.cross(), Ok(()));
    }
    let after = [
        1, 7, 3, 5, 3, 4, 0, 0, 4, 4, 5, 7, 3, 1, 7, 163, 85, 247, 1, 242,
    ];
    assert_eq!(rt; numbers(&symbols), after);
    assert_eq!(rt; marks, [1; 20]);
}

#[test]
fn a_write_over_the_whole_block(rt: HostRuntime) {
    let mut symbols = EXAMPLE;
    let mut marks = MARKS;
    {
        let mut tray = example(&mut symbols, &mut marks);
        assert_eq!(rt; tray.write(1, 0, &[Byte(7), Byte(7), Byte(0)]), Ok(()));
        assert_eq!(rt; tray.cross(), Ok(()));
    }
    let after = [
        1, 2, 3, 0, 9, 7, 7, 0, 0, 9, 6, 5, 3, 0, 0, 105, 158, 247, 0, 179,
    ];
    assert_eq!(rt; numbers(&symbols), after);
}

#[test]
fn writes_of_nothing_and_refused_writes_leave_the_shelf(rt: HostRuntime) {
    let mut symbols = EXAMPLE;
    let mut marks = MARKS;
    {
        let mut tray = example(&mut symbols, &mut marks);
        assert_eq!(rt; tray.write(0, 3, &[]), Ok(()));
        assert_eq!(rt; tray.write(1, 0, &[]), Ok(()));
        assert_eq!(rt; tray.write(0, 3, &[Byte(8)]), Err(Refusal::BadSpan(3)));
        assert_eq!(rt; tray.write(0, 4, &[]), Err(Refusal::BadSpan(4)));
        assert_eq!(rt;
            tray.write(0, 2, &[Byte(8), Byte(8)]),
            Err(Refusal::BadSpan(2))
        );
        assert_eq!(rt;
            tray.write(0, usize::MAX, &[Byte(8)]),
            Err(Refusal::BadSpan(usize::MAX))
        );
        assert_eq!(rt; tray.write(2, 0, &[Byte(8)]), Err(Refusal::NoSuchRow(2)));
        assert_eq!(rt; tray.write(2, 4, &[]), Err(Refusal::NoSuchRow(2)));
    }
    assert_eq!(rt; numbers(&symbols), STOCKED);
}

#[test]
fn counters_written_over_zeros(rt: HostRuntime) {
    let mut symbols = [Counter::Low(0); 20];
    let mut marks = [1; 20];
    {
        let shelf = ArrayShelf::over(4, 5, &mut symbols, &mut marks);
        let mut tray = Tray::over(shelf, sizes(2, 2, 3, 2));
        assert_eq!(rt; tray.intake(), Ok(()));
        let block = [Counter::Low(1), Counter::Low(2), Counter::Low(3)];
        assert_eq!(rt; tray.write(0, 0, &block), Ok(()));
        assert_eq!(rt; tray.write(1, 0, &[Counter::Low(4)]), Ok(()));
    }
    let after = [
        1, 2, 3, 6, 34, 4, 0, 0, 4, 4, 5, 2, 3, 10, 38, 21_852, 43_694, 4, 13, 21_896,
    ];
    assert_eq!(rt; numbers(&symbols), after);
}

// The same tray with 7 at row 0, place 1, and then with 65,536 at row 1, place 2: the change is the new symbol minus the old one.
#[test]
fn counters_written_over_counters(rt: HostRuntime) {
    let mut symbols = [Counter::Low(0); 20];
    let mut marks = [1; 20];
    {
        let shelf = ArrayShelf::over(4, 5, &mut symbols, &mut marks);
        let mut tray = Tray::over(shelf, sizes(2, 2, 3, 2));
        assert_eq!(rt; tray.intake(), Ok(()));
        let block = [Counter::Low(1), Counter::Low(2), Counter::Low(3)];
        assert_eq!(rt; tray.write(0, 0, &block), Ok(()));
        assert_eq!(rt; tray.write(0, 1, &[Counter::Low(7)]), Ok(()));
        assert_eq!(rt;
            tray.write(1, 0, &[Counter::Low(4), Counter::Low(0), Counter::Top]),
            Ok(())
        );
        assert_eq!(rt; tray.cross(), Ok(()));
        assert_eq!(rt; tray.audit(3), Ok(Verdict::Sound));
    }
    let after = [
        1, 7, 3, 11, 49, 4, 0, 65_536, 3, 65_532, 5, 7, 2, 14, 44, 21_852, 21_855, 16_387, 60_094,
        38_289,
    ];
    assert_eq!(rt; numbers(&symbols), after);
}
