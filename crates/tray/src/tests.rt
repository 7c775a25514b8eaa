// Tests of calls on a tray that is taken in and then damaged. From outside no call damages a tray, so these make one over memory that is damaged already.
use super::*;
use byte_field::Byte;
use rules::Layer;
use shelves::ArrayShelf;

// Two data rows and two parity rows of three symbols, each with its card of two.
const STOCKED: [u8; 20] = [
    1, 2, 3, 0, 9, 4, 0, 0, 4, 4, 5, 2, 3, 4, 13, 163, 81, 247, 5, 250,
];

fn stocked() -> [Byte; 20] {
    STOCKED.map(Byte)
}

// A tray of these sizes that is taken in, over memory as it stands.
fn taken_in<'a>(symbols: &'a mut [Byte], marks: &'a mut [u8]) -> Tray<ArrayShelf<'a, Byte>> {
    Tray {
        shelf: ArrayShelf::over(4, 5, symbols, marks),
        sizes: Sizes {
            data_rows: 2,
            parity_rows: 2,
            block_length: 3,
            card_length: 2,
        },
        taken_in: true,
        round: Round::Resting,
        sheet: Sheet::unread(),
    }
}

#[test]
fn audits_name_the_lowest_fault(rt: HostRuntime) {
    let mut symbols = stocked();
    let mut marks = [1; 20];
    // row 0: wrong symbols and a hole in its block; row 1: a hole in its card, and a wrong component below it;
    // row 2: both components wrong; row 3: component 1 wrong
    symbols[0] = Byte(9);
    marks[1] = 0;
    marks[2] = 0;
    symbols[8] = Byte(0);
    marks[9] = 0;
    symbols[13] = Byte(0);
    symbols[14] = Byte(0);
    symbols[19] = Byte(0);
    let tray = taken_in(&mut symbols, &mut marks);
    assert_eq!(rt; tray.audit(0), Ok(Verdict::Hole(1)));
    assert_eq!(rt; tray.audit(1), Ok(Verdict::Hole(4)));
    assert_eq!(rt; tray.audit(2), Ok(Verdict::Card(0)));
    assert_eq!(rt; tray.audit(3), Ok(Verdict::Card(1)));
}

// Blocks 1 2 3 and 7 7 0 have one card of two components: they differ in more places than it has.
#[test]
fn audits_miss_what_a_card_cannot_see(rt: HostRuntime) {
    let mut symbols = stocked();
    let mut marks = [1; 20];
    symbols[0] = Byte(7);
    symbols[1] = Byte(7);
    symbols[2] = Byte(0);
    let tray = taken_in(&mut symbols, &mut marks);
    assert_eq!(rt; tray.audit(0), Ok(Verdict::Sound));
}

#[test]
fn a_write_passes_by_another_damaged_data_row(rt: HostRuntime) {
    let mut symbols = stocked();
    let mut marks = [1; 20];
    symbols[5] = Byte(99);
    marks[6] = 0;
    {
        let mut tray = taken_in(&mut symbols, &mut marks);
        assert_eq!(rt; tray.write(0, 1, &[Byte(7)]), Ok(()));
        assert_eq!(rt; tray.audit(1), Ok(Verdict::Hole(1)));
    }
    let mut after = stocked();
    after[1] = Byte(7);
    after[3] = Byte(5);
    after[4] = Byte(3);
    after[5] = Byte(99);
    after[11] = Byte(7);
    after[13] = Byte(1);
    after[14] = Byte(7);
    after[16] = Byte(85);
    after[18] = Byte(1);
    after[19] = Byte(242);
    assert_eq!(rt; symbols, after);
    assert_eq!(rt; marks[6], 0);
}

#[test]
fn a_write_stops_at_the_first_damaged_row_that_it_would_touch(rt: HostRuntime) {
    let mut symbols = stocked();
    let mut marks = [1; 20];
    // row 0: a wrong card; row 2: a hole in its card; row 3: a hole in its block
    symbols[4] = Byte(0);
    marks[14] = 0;
    marks[15] = 0;
    let before = symbols;
    {
        let mut tray = taken_in(&mut symbols, &mut marks);
        let own = Refusal::Unsound(0, Verdict::Card(1));
        let parity = Refusal::Unsound(2, Verdict::Hole(4));
        assert_eq!(rt; tray.write(0, 0, &[Byte(8)]), Err(own));
        assert_eq!(rt; tray.write(0, 3, &[]), Err(own));
        assert_eq!(rt; tray.write(1, 0, &[Byte(8)]), Err(parity));
        assert_eq!(rt; tray.write(1, 3, &[]), Err(parity));
        assert_eq!(rt; tray.write(0, 4, &[]), Err(Refusal::BadSpan(4)));
        assert_eq!(rt; own.layer(), Layer::Row);
        assert_eq!(rt; parity.layer(), Layer::Shelf);
    }
    assert_eq!(rt; symbols, before);
}

#[test]
fn reads_audit_their_own_row_alone(rt: HostRuntime) {
    let mut symbols = stocked();
    let mut marks = [1; 20];
    marks[9] = 0;
    symbols[16] = Byte(0);
    let tray = taken_in(&mut symbols, &mut marks);
    let mut buffer = [Byte(200); 2];
    let hole = Err(Refusal::Unsound(1, Verdict::Hole(4)));
    assert_eq!(rt; tray.read(1, 0, &mut buffer), hole);
    assert_eq!(rt; tray.read(1, 3, &mut []), hole);
    assert_eq!(rt;
        tray.read(3, 0, &mut []),
        Err(Refusal::Unsound(3, Verdict::Card(0)))
    );
    assert_eq!(rt; buffer, [Byte(200); 2]);
    assert_eq!(rt; tray.read(2, 1, &mut buffer), Ok(()));
    assert_eq!(rt; buffer, [Byte(2), Byte(3)]);
}

#[test]
fn cross_looks_at_cards_alone(rt: HostRuntime) {
    let mut symbols = stocked();
    let mut marks = [1; 20];
    marks[0] = 0;
    symbols[11] = Byte(99);
    assert_eq!(rt; taken_in(&mut symbols, &mut marks).cross(), Ok(()));
    // a wrong component 1 of row 3, then both of row 2
    symbols[19] = Byte(0);
    assert_eq!(rt;
        taken_in(&mut symbols, &mut marks).cross(),
        Err(Refusal::Misfit(3, 4))
    );
    symbols[14] = Byte(0);
    assert_eq!(rt;
        taken_in(&mut symbols, &mut marks).cross(),
        Err(Refusal::Misfit(2, 4))
    );
    symbols[13] = Byte(0);
    assert_eq!(rt;
        taken_in(&mut symbols, &mut marks).cross(),
        Err(Refusal::Misfit(2, 3))
    );
    // holes in the cards of rows 2 and 1
    marks[13] = 0;
    assert_eq!(rt;
        taken_in(&mut symbols, &mut marks).cross(),
        Err(Refusal::Unreadable(2, 3))
    );
    marks[9] = 0;
    assert_eq!(rt;
        taken_in(&mut symbols, &mut marks).cross(),
        Err(Refusal::Unreadable(1, 4))
    );
}

#[test]
fn a_round_over_damaged_rows(rt: HostRuntime) {
    let mut symbols = stocked();
    let mut marks = [1; 20];
    marks[7] = 0;
    symbols[18] = Byte(0);
    let mut tray = taken_in(&mut symbols, &mut marks);
    assert_eq!(rt; tray.begin(), Ok(()));
    assert_eq!(rt; tray.step(), Ok(Verdict::Sound));
    assert_eq!(rt; tray.first(), Ok(None));
    assert_eq!(rt; tray.step(), Ok(Verdict::Hole(2)));
    assert_eq!(rt; tray.first(), Ok(Some(1)));
    assert_eq!(rt; tray.record(3), Ok(Entry::Unread));
    assert_eq!(rt; tray.step(), Ok(Verdict::Sound));
    assert_eq!(rt; tray.step(), Ok(Verdict::Card(0)));
    assert_eq!(rt; tray.totals(), Ok((2, 2)));
    assert_eq!(rt; tray.first(), Ok(Some(1)));
    assert_eq!(rt; tray.record(1), Ok(Entry::Read(Verdict::Hole(2))));
    assert_eq!(rt; tray.record(3), Ok(Entry::Read(Verdict::Card(0))));
    assert_eq!(rt; tray.begin(), Ok(()));
    assert_eq!(rt; tray.record(1), Ok(Entry::Unread));
    assert_eq!(rt; tray.first(), Ok(None));
}
