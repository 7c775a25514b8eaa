// The stages of a tray's life.
use crate::bench::{Bench, Damage};
use crate::tell;
use algebra::Field;
use std::io;

pub fn take_in<F: Field>(rt: &HostRuntime, bench: &mut Bench<F>) -> io::Result<()> {
    tell::done(rt, "fit", bench.tray.fit())?;
    tell::done(rt, "begin", bench.tray.begin())?;
    tell::counted(rt, "mend", bench.tray.mend())?;
    tell::done(rt, "intake", bench.tray.intake())?;
    tell::shelf(rt, bench)?;
    tell::done(rt, "intake", bench.tray.intake())
}

fn write<F: Field>(
    rt: &HostRuntime,
    bench: &mut Bench<F>,
    row: usize,
    start: usize,
    numbers: &[usize],
) -> io::Result<()> {
    tell::numbers(rt, "new symbols for", row, numbers)?;
    println!(rt; "from place {start} on")?;
    tell::done(rt, "write", bench.write(row, start, numbers)?)
}

// Writes that are accepted, and two that are not.
pub fn writes<F: Field>(
    rt: &HostRuntime,
    bench: &mut Bench<F>,
    numbers: &[usize],
) -> io::Result<()> {
    write(rt, bench, 0, 1, numbers)?;
    write(rt, bench, 1, 0, numbers)?;
    tell::shelf(rt, bench)?;
    write(rt, bench, 0, bench.sizes.block_length, &[])?;
    write(rt, bench, 0, bench.sizes.block_length, numbers)?;
    write(rt, bench, bench.sizes.data_rows, 0, numbers)
}

// A full round, with what it found.
pub fn round<F: Field>(rt: &HostRuntime, bench: &mut Bench<F>) -> io::Result<()> {
    tell::done(rt, "begin", bench.tray.begin())?;
    for row in 0..bench.rows() {
        tell::done(rt, "begin", bench.tray.begin())?;
        tell::verdict(rt, "step at", row, bench.tray.step())?;
    }
    tell::verdict(rt, "step at", bench.rows(), bench.tray.step())?;
    tell::totals(rt, bench)?;
    tell::first(rt, bench)
}

// Damages one row, asks every call that looks at it, and mends. A write of no symbols changes nothing, but it audits.
fn suffer<F: Field>(
    rt: &HostRuntime,
    bench: &mut Bench<F>,
    row: usize,
    damage: Damage,
) -> io::Result<()> {
    let before = bench.all()?;
    bench.damage(row, damage);
    tell::verdict(rt, "audit of", row, bench.tray.audit(row))?;
    tell::read(rt, bench, row)?;
    tell::done(rt, "write of no symbols to row 0", bench.write(0, 0, &[])?)?;
    tell::done(rt, "cross", bench.tray.cross())?;
    tell::mend(rt, bench, &before)
}

// One row at a time, damaged in each way.
pub fn each_damage<F: Field>(rt: &HostRuntime, bench: &mut Bench<F>) -> io::Result<()> {
    let n = bench.sizes.block_length;
    let k = bench.sizes.data_rows;
    println!(rt; "a hole in a block")?;
    suffer(rt, bench, 0, Damage::Hole(1))?;
    println!(rt; "a hole in a card")?;
    suffer(rt, bench, 1, Damage::Hole(n))?;
    println!(rt; "a wrong card component")?;
    suffer(rt, bench, k, Damage::Wrong(n.saturating_add(1), 1))?;
    for count in 1..=bench.sizes.card_length {
        println!(rt; "wrong symbols in a block: {count}")?;
        suffer(rt, bench, count % 2, Damage::Wrong(0, count))?;
    }
    Ok(())
}

// A round finds two damaged rows. They are mended, and only the next round forgets them.
pub fn found_by_a_round<F: Field>(rt: &HostRuntime, bench: &mut Bench<F>) -> io::Result<()> {
    println!(rt; "a hole and a wrong symbol, and a round")?;
    let before = bench.all()?;
    let parity = bench.sizes.data_rows;
    bench.damage(1, Damage::Hole(0));
    bench.damage(parity, Damage::Wrong(1, 1));
    round(rt, bench)?;
    tell::mend(rt, bench, &before)?;
    tell::record(rt, bench, 0)?;
    tell::record(rt, bench, 1)?;
    tell::first(rt, bench)?;
    tell::counted(rt, "mend", bench.tray.mend())?;
    round(rt, bench)
}

// With the shelf taken out, every call finds that the tray does not fit. Here by hand: the calls need the bench while its shelf is out.
pub fn without_shelf<F: Field>(rt: &HostRuntime, bench: &mut Bench<F>) -> io::Result<()> {
    println!(rt; "the shelf is taken out")?;
    let before = bench.all()?;
    let shelf = bench.take_shelf();
    tell::done(rt, "fit", bench.tray.fit())?;
    tell::counted(rt, "mend", bench.tray.mend())?;
    bench.put_back(shelf);
    println!(rt; "the shelf is put back")?;
    tell::mend(rt, bench, &before)
}

// One damaged row more than there are parity rows; then one of them comes back.
pub fn too_many<F: Field>(rt: &HostRuntime, bench: &mut Bench<F>) -> io::Result<()> {
    println!(rt; "one damaged row too many")?;
    let before = bench.all()?;
    for row in 0..=bench.sizes.parity_rows {
        bench.damage(row, Damage::Hole(row % 2));
    }
    tell::counted(rt, "mend", bench.tray.mend())?;
    tell::shelf(rt, bench)?;
    bench.restore(0, &before);
    tell::mend(rt, bench, &before)
}

// Row 0 holds what row 1 holds. It is sound, and parity does not fit; beside a lost row too.
pub fn stale_row<F: Field>(rt: &HostRuntime, bench: &mut Bench<F>) -> io::Result<()> {
    println!(rt; "row 0 holds what row 1 holds")?;
    let before = bench.all()?;
    let numbers = bench.row(1)?;
    bench.put_row(0, &numbers);
    tell::verdict(rt, "audit of", 0, bench.tray.audit(0))?;
    tell::done(rt, "cross", bench.tray.cross())?;
    tell::counted(rt, "mend", bench.tray.mend())?;
    bench.damage(1, Damage::Hole(2));
    tell::counted(rt, "mend", bench.tray.mend())?;
    tell::shelf(rt, bench)?;
    bench.restore(0, &before);
    tell::mend(rt, bench, &before)
}

// Parity row 1 is as it was before a write at place 2. It is sound, and does not fit there; beside a lost row too.
pub fn stale_parity<F: Field>(rt: &HostRuntime, bench: &mut Bench<F>) -> io::Result<()> {
    println!(rt; "parity row 1 is as before a write")?;
    let old = bench.all()?;
    write(rt, bench, 1, 2, &[9])?;
    let before = bench.all()?;
    let row = bench.sizes.data_rows.saturating_add(1);
    bench.restore(row, &old);
    tell::verdict(rt, "audit of", row, bench.tray.audit(row))?;
    tell::counted(rt, "mend", bench.tray.mend())?;
    bench.damage(0, Damage::Hole(1));
    tell::counted(rt, "mend", bench.tray.mend())?;
    bench.damage(row, Damage::Hole(0));
    tell::mend(rt, bench, &before)
}
