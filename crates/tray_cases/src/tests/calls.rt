// Tests of audit, read and cross on sound trays, and of the refusals that these calls share.
use super::{EXAMPLE, MARKS, delivered, example, sizes};
use byte_field::Byte;
use rules::{Refusal, Verdict};
use shelves::ArrayShelf;
use tray::Tray;

#[test]
fn every_row_is_sound_once_taken_in(rt: HostRuntime) {
    let mut symbols = EXAMPLE;
    let mut marks = MARKS;
    let tray = example(&mut symbols, &mut marks);
    for row in 0..4usize {
        assert_eq!(rt; tray.audit(row), Ok(Verdict::Sound));
    }
    assert_eq!(rt; tray.audit(4), Err(Refusal::NoSuchRow(4)));
    assert_eq!(rt; tray.audit(usize::MAX), Err(Refusal::NoSuchRow(usize::MAX)));
    assert_eq!(rt; tray.cross(), Ok(()));
}

// Why each call that looks at the tray first is refused; row 9 is none of its rows.
fn refusals<'a>(tray: &mut Tray<ArrayShelf<'a, Byte>>) -> [Option<Refusal>; 9] {
    [
        tray.audit(9).err(),
        tray.read(9, 0, &mut []).err(),
        tray.write(9, 0, &[]).err(),
        tray.cross().err(),
        tray.begin().err(),
        tray.step().err(),
        tray.totals().err(),
        tray.record(9).err(),
        tray.first().err(),
    ]
}

#[test]
fn calls_before_intake(rt: HostRuntime) {
    let mut symbols = EXAMPLE;
    let mut marks = MARKS;
    let mut tray = delivered(&mut symbols, &mut marks);
    assert_eq!(rt; refusals(&mut tray), [Some(Refusal::NotTakenIn); 9]);
    assert_eq!(rt; tray.fit(), Ok(()));
}

#[test]
fn calls_on_a_tray_that_does_not_fit(rt: HostRuntime) {
    let mut symbols = EXAMPLE;
    let mut marks = MARKS;
    let mut tray = Tray::over(
        ArrayShelf::over(4, 5, &mut symbols, &mut marks),
        sizes(2, 2, 2, 2),
    );
    assert_eq!(rt; tray.intake(), Err(Refusal::DoesNotFit));
    assert_eq!(rt; refusals(&mut tray), [Some(Refusal::DoesNotFit); 9]);
}

#[test]
fn reads_of_data_rows_and_parity_rows(rt: HostRuntime) {
    let mut symbols = EXAMPLE;
    let mut marks = MARKS;
    let tray = example(&mut symbols, &mut marks);
    let mut whole = [Byte(0); 3];
    assert_eq!(rt; tray.read(0, 0, &mut whole), Ok(()));
    assert_eq!(rt; whole, [Byte(1), Byte(2), Byte(3)]);
    assert_eq!(rt; tray.read(3, 0, &mut whole), Ok(()));
    assert_eq!(rt; whole, [Byte(163), Byte(81), Byte(247)]);
    let mut part = [Byte(0); 2];
    assert_eq!(rt; tray.read(3, 1, &mut part), Ok(()));
    assert_eq!(rt; part, [Byte(81), Byte(247)]);
    assert_eq!(rt; tray.read(1, 0, &mut part), Ok(()));
    assert_eq!(rt; part, [Byte(4), Byte(0)]);
    assert_eq!(rt; tray.read(1, 3, &mut []), Ok(()));
}

#[test]
fn refused_reads_leave_the_buffer(rt: HostRuntime) {
    let mut symbols = EXAMPLE;
    let mut marks = MARKS;
    let tray = example(&mut symbols, &mut marks);
    let mut buffer = [Byte(200), Byte(201)];
    assert_eq!(rt; tray.read(4, 0, &mut buffer), Err(Refusal::NoSuchRow(4)));
    assert_eq!(rt; tray.read(4, 9, &mut buffer), Err(Refusal::NoSuchRow(4)));
    assert_eq!(rt; tray.read(0, 2, &mut buffer), Err(Refusal::BadSpan(2)));
    assert_eq!(rt; tray.read(0, 4, &mut []), Err(Refusal::BadSpan(4)));
    assert_eq!(rt;
        tray.read(3, usize::MAX, &mut buffer),
        Err(Refusal::BadSpan(usize::MAX))
    );
    assert_eq!(rt; buffer, [Byte(200), Byte(201)]);
}
