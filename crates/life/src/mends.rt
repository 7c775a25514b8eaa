// Sets of damaged rows, each mended from the rest.
use crate::bench::{Bench, Damage, Rows};
use crate::tell;
use algebra::Field;
use byte_field::Byte;
use rules::{Refusal, Sizes};
use std::alloc::{AllocError, Global};
use std::{fmt, io};

// A number for each row and place, in both fields.
fn filling<F: Field>(row: usize, place: usize) -> usize {
    let number = (row % 68 * 20_011 + place % 255 * 30_013 + 65_535) % 65_537;
    if number < F::order() {
        number
    } else {
        number % 251
    }
}

// A tray of zeros, taken in, whose data rows are then written.
fn filled<F: Field>(heap: Global, sizes: Sizes) -> Result<Bench<F>, AllocError> {
    let mut bench: Bench<F> = Bench::over_zeros(heap, sizes, 1)?;
    let _ = bench.tray.intake();
    for row in 0..sizes.data_rows {
        let numbers: Vec<usize> = (0..sizes.block_length)
            .map(|place| filling::<F>(row, place))
            .collect(heap)?;
        let _ = bench.write(row, 0, &numbers)?;
    }
    Ok(bench)
}

// The kinds of damage, one after another.
fn damage_of(sizes: Sizes, index: usize) -> Damage {
    let card = sizes.block_length;
    let kinds = [
        Damage::Hole(0),
        Damage::Hole(card),
        Damage::Wrong(card.saturating_add(1), 1),
        Damage::Wrong(0, 2),
    ];
    kinds[index % kinds.len()]
}

// Damages the rows of a set: row r belongs to it where binary digit r of its number is 1, so that counting goes over all sets.
fn damage_rows<F: Field>(bench: &mut Bench<F>, set: usize) {
    let mut rest = set;
    for row in 0..bench.rows() {
        if rest % 2 == 1 {
            bench.damage(row, damage_of(bench.sizes, set.saturating_add(row)));
        }
        rest /= 2;
    }
}

// What came of a set: every row is as before and sound, or a refusal with the count that put nothing, or neither.
#[derive(Clone, Copy, PartialEq, Eq)]
enum Outcome {
    Mended,
    Refused,
    Neither,
}

fn mended_set<F: Field>(
    bench: &mut Bench<F>,
    before: &Rows,
    count: usize,
) -> Result<Outcome, AllocError> {
    let damaged = bench.all()?;
    match bench.tray.mend() {
        Ok(mended) if mended == count && bench.all()? == *before && bench.all_sound() => {
            Ok(Outcome::Mended)
        }
        Err(Refusal::TooManyUnsound(unsound)) if unsound == count && bench.all()? == damaged => {
            Ok(Outcome::Refused)
        }
        _ => Ok(Outcome::Neither),
    }
}

// How many sets came out each way.
#[derive(Clone, Copy, Default)]
struct Outcomes {
    mended: usize,
    refused: usize,
    neither: usize,
}

impl Outcomes {
    fn count(&mut self, outcome: Outcome) {
        let count = match outcome {
            Outcome::Mended => &mut self.mended,
            Outcome::Refused => &mut self.refused,
            Outcome::Neither => &mut self.neither,
        };
        *count = count.saturating_add(1);
    }
}

impl fmt::Display for Outcomes {
    fn fmt<W: fmt::Write>(&self, f: &mut fmt::Formatter<W>) -> fmt::Result {
        let Outcomes {
            mended,
            refused,
            neither,
        } = *self;
        write!(f, "{mended} mended, {refused} refused, {neither} neither")
    }
}

// How the sets of so many damaged rows came out.
fn tally<F: Field>(
    bench: &mut Bench<F>,
    before: &Rows,
    size: usize,
) -> Result<Outcomes, AllocError> {
    let mut outcomes = Outcomes::default();
    for set in 0..1usize << (bench.rows() % 8) {
        if set.count_ones() as usize == size {
            damage_rows(bench, set);
            outcomes.count(mended_set(bench, before, size)?);
            bench.restore_all(before);
        }
    }
    Ok(outcomes)
}

// All sets of damaged rows of a tray with three data rows.
fn all_sets<F: Field>(rt: &HostRuntime, parity_rows: usize) -> io::Result<()> {
    let sizes = Sizes {
        data_rows: 3,
        parity_rows,
        block_length: 3,
        card_length: 2,
    };
    println!(rt; "3 data rows, {parity_rows} parity rows")?;
    let mut bench: Bench<F> = filled(rt.alloc(), sizes)?;
    tell::shelf(rt, &mut bench)?;
    let before = bench.all()?;
    for size in 0..=bench.rows() {
        let outcomes = tally(&mut bench, &before, size)?;
        println!(rt; "{size} damaged: {outcomes}")?;
    }
    Ok(())
}

pub fn mends<F: Field>(rt: &HostRuntime) -> io::Result<()> {
    for parity_rows in 1..=4usize {
        all_sets::<F>(rt, parity_rows)?;
    }
    Ok(())
}

// As many rows as there can be, with a set of lost rows that other coefficients could not rebuild.
pub fn widest(rt: &HostRuntime) -> io::Result<()> {
    let sizes = Sizes {
        data_rows: 64,
        parity_rows: 4,
        block_length: 3,
        card_length: 2,
    };
    println!(rt;
        "byte field, 64 data rows, 4 parity rows; rows 0, 1, 2, 25 and 66 are lost, and row 2 comes back"
    )?;
    let mut bench: Bench<Byte> = filled(rt.alloc(), sizes)?;
    for row in [0, 1, 25, 64, 65, 66, 67] {
        tell::row(rt, &mut bench, row)?;
    }
    let before = bench.all()?;
    for row in [0, 1, 2, 25, 66] {
        bench.damage(row, Damage::Hole(2));
    }
    tell::counted(rt, "mend", bench.tray.mend())?;
    bench.restore(2, &before);
    tell::mend(rt, &mut bench, &before)
}
