// Tests of the round and its sheet on sound trays.
use super::{EXAMPLE, MARKS, example, sizes};
use byte_field::Byte;
use counter_field::Counter;
use rules::{Entry, Refusal, Verdict};
use shelves::ArrayShelf;
use std::test::Fail;
use tray::Tray;

#[test]
fn before_any_round(rt: HostRuntime) {
    let mut symbols = EXAMPLE;
    let mut marks = MARKS;
    let mut tray = example(&mut symbols, &mut marks);
    for row in 0..4usize {
        assert_eq!(rt; tray.record(row), Ok(Entry::Unread));
    }
    assert_eq!(rt; tray.record(4), Err(Refusal::NoSuchRow(4)));
    assert_eq!(rt; tray.first(), Ok(None));
    assert_eq!(rt; tray.step(), Err(Refusal::WrongPhase));
    assert_eq!(rt; tray.totals(), Err(Refusal::WrongPhase));
}

#[test]
fn a_round_walks_every_row_once(rt: HostRuntime) {
    let mut symbols = EXAMPLE;
    let mut marks = MARKS;
    let mut tray = example(&mut symbols, &mut marks);
    assert_eq!(rt; tray.begin(), Ok(()));
    for row in 0..4usize {
        assert_eq!(rt; tray.begin(), Err(Refusal::StillWalking(row)));
        assert_eq!(rt; tray.totals(), Err(Refusal::WrongPhase));
        assert_eq!(rt; tray.record(row), Ok(Entry::Unread));
        assert_eq!(rt; tray.step(), Ok(Verdict::Sound));
        assert_eq!(rt; tray.record(row), Ok(Entry::Read(Verdict::Sound)));
    }
    assert_eq!(rt; tray.step(), Err(Refusal::WrongPhase));
    assert_eq!(rt; tray.totals(), Ok((4, 0)));
    assert_eq!(rt; tray.first(), Ok(None));
}

#[test]
fn a_second_round_starts_anew(rt: HostRuntime) {
    let mut symbols = EXAMPLE;
    let mut marks = MARKS;
    let mut tray = example(&mut symbols, &mut marks);
    assert_eq!(rt; tray.begin(), Ok(()));
    for _row in 0..4usize {
        assert_eq!(rt; tray.step(), Ok(Verdict::Sound));
    }
    assert_eq!(rt; tray.begin(), Ok(()));
    for row in 0..4usize {
        assert_eq!(rt; tray.record(row), Ok(Entry::Unread));
    }
    assert_eq!(rt; tray.totals(), Err(Refusal::WrongPhase));
    assert_eq!(rt; tray.begin(), Err(Refusal::StillWalking(0)));
}

#[test]
fn a_round_over_two_rows(rt: HostRuntime) {
    let mut symbols = [Counter::Low(5); 6];
    let mut marks = [1; 6];
    let mut tray = Tray::over(
        ArrayShelf::over(2, 3, &mut symbols, &mut marks),
        sizes(1, 1, 1, 2),
    );
    assert_eq!(rt; tray.intake(), Ok(()));
    assert_eq!(rt; tray.begin(), Ok(()));
    assert_eq!(rt; tray.step(), Ok(Verdict::Sound));
    assert_eq!(rt; tray.begin(), Err(Refusal::StillWalking(1)));
    assert_eq!(rt; tray.step(), Ok(Verdict::Sound));
    assert_eq!(rt; tray.step(), Err(Refusal::WrongPhase));
    assert_eq!(rt; tray.totals(), Ok((2, 0)));
}

#[test]
fn a_round_over_sixty_eight_rows(rt: HostRuntime) -> Result<(), Fail> {
    let mut symbols = vec![in rt.alloc(); Byte(0); 68 * 3]?;
    let mut marks = vec![in rt.alloc(); 1; 68 * 3]?;
    let mut tray = Tray::over(
        ArrayShelf::over(68, 3, &mut symbols, &mut marks),
        sizes(64, 4, 1, 2),
    );
    assert_eq!(rt; tray.intake(), Ok(()));
    assert_eq!(rt; tray.write(63, 0, &[Byte(9)]), Ok(()));
    assert_eq!(rt; tray.begin(), Ok(()));
    for _row in 0..68usize {
        assert_eq!(rt; tray.step(), Ok(Verdict::Sound));
    }
    assert_eq!(rt; tray.step(), Err(Refusal::WrongPhase));
    assert_eq!(rt; tray.totals(), Ok((68, 0)));
    assert_eq!(rt; tray.record(67), Ok(Entry::Read(Verdict::Sound)));
    assert_eq!(rt; tray.cross(), Ok(()));
    // parity rows 1 and 3 hold their coefficients of row 63 times 9
    let mut buffer = [Byte(0)];
    assert_eq!(rt; tray.read(65, 0, &mut buffer), Ok(()));
    assert_eq!(rt; buffer, [Byte(98)]);
    assert_eq!(rt; tray.read(67, 0, &mut buffer), Ok(()));
    assert_eq!(rt; buffer, [Byte(185)]);
    Ok(())
}
