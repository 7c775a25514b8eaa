// Tests of mending row by row, by the damage that the plan is made for.
use super::{EXAMPLE, MARKS, STOCKED, example, numbers, sizes};
use byte_field::Byte;
use mending::Plan;
use rows::{Group, GroupMut};
use shelves::ArrayShelf;

// A data row with a wrong symbol and holes in its block and its card, and a parity row with a hole.
#[test]
fn a_plan_puts_the_rows_that_it_was_made_for(rt: HostRuntime) {
    let mut symbols = EXAMPLE;
    let mut marks = MARKS;
    let _ = example(&mut symbols, &mut marks);
    symbols[0] = Byte(77);
    marks[1] = 0;
    marks[3] = 0;
    marks[17] = 0;
    {
        let sizes = sizes(2, 2, 3, 2);
        let mut shelf = ArrayShelf::over(4, 5, &mut symbols, &mut marks);
        let mut group = GroupMut {
            shelf: &mut shelf,
            sizes,
        };
        let damage = mending::gather(&group.read());
        assert_eq!(rt; damage.count, 2);
        let plan = Plan::new::<Byte>(sizes, damage);
        assert_eq!(rt; mending::first_worked_misfit(&group.read(), &plan), None);
        mending::put_rows(&mut group, &plan);
    }
    assert_eq!(rt; numbers(&symbols), STOCKED);
    assert_eq!(rt; marks, [1; 20]);
}

// Symbols that differ by 6, 5 and 3 have the same card: parity row 3 is sound, and does not fit.
#[test]
fn a_plan_finds_the_sound_parity_row_that_does_not_fit(rt: HostRuntime) {
    let mut symbols = EXAMPLE;
    let mut marks = MARKS;
    let _ = example(&mut symbols, &mut marks);
    marks[1] = 0;
    symbols[15] = Byte(165);
    symbols[16] = Byte(84);
    symbols[17] = Byte(244);
    let sizes = sizes(2, 2, 3, 2);
    let shelf = ArrayShelf::over(4, 5, &mut symbols, &mut marks);
    let group = Group {
        shelf: &shelf,
        sizes,
    };
    let damage = mending::gather(&group);
    assert_eq!(rt; damage.count, 1);
    let plan = Plan::new::<Byte>(sizes, damage);
    assert_eq!(rt; mending::first_worked_misfit(&group, &plan), Some((1, 0)));
}
