// Each call's answer in words, one line each. The runtime and the bench are two arguments, since some of these need no bench.
use crate::bench::{Bench, Rows};
use algebra::Field;
use rules::{Entry, Refusal, Verdict};
use std::{fmt, io};

// What an accepted call gives. As ffi's Given, but for words: neither crate stands on the other.
#[derive(Clone, Copy)]
enum Told {
    Done,
    Count(usize),
    Found(Verdict),
    Unread,
    Totals(usize, usize),
    First(Option<usize>),
}

// Beside ffi's for its own type: a program prints words, and C gets numbers.
impl From<Entry> for Told {
    fn from(entry: Entry) -> Told {
        match entry {
            Entry::Unread => Told::Unread,
            Entry::Read(verdict) => Told::Found(verdict),
        }
    }
}

impl fmt::Display for Told {
    fn fmt<W: fmt::Write>(&self, f: &mut fmt::Formatter<W>) -> fmt::Result {
        match *self {
            Told::Done => write!(f, "done"),
            Told::Count(count) => write!(f, "{count}"),
            Told::Found(Verdict::Sound) => write!(f, "sound"),
            Told::Found(Verdict::Hole(place)) => write!(f, "hole at {place}"),
            Told::Found(Verdict::Card(component)) => write!(f, "card wrong at {component}"),
            Told::Unread => write!(f, "unread"),
            Told::Totals(sound, others) => write!(f, "{sound} sound, {others} not"),
            Told::First(Some(row)) => write!(f, "row {row}"),
            Told::First(None) => write!(f, "none"),
        }
    }
}

fn tell(
    rt: &HostRuntime,
    call: impl fmt::Display + Drop,
    answer: Result<Told, Refusal>,
) -> io::Result<()> {
    match answer {
        Ok(told) => println!(rt; "{call}: {told}"),
        Err(refusal) => println!(rt; "{call}: refused {refusal}"),
    }
}

// These say what an answer's value is: one function over all of them would leave that to each caller.
pub fn done(rt: &HostRuntime, call: &str, answer: Result<(), Refusal>) -> io::Result<()> {
    tell(rt, call, answer.map(|()| Told::Done))
}

pub fn counted(rt: &HostRuntime, call: &str, answer: Result<usize, Refusal>) -> io::Result<()> {
    tell(rt, call, answer.map(Told::Count))
}

pub fn verdict(
    rt: &HostRuntime,
    call: &str,
    row: usize,
    answer: Result<Verdict, Refusal>,
) -> io::Result<()> {
    tell(
        rt,
        format_args!("{call} row {row}"),
        answer.map(Told::Found),
    )
}

pub fn record<F: Field>(rt: &HostRuntime, bench: &Bench<F>, row: usize) -> io::Result<()> {
    tell(
        rt,
        format_args!("record of row {row}"),
        bench.tray.record(row).map(Told::from),
    )
}

pub fn totals<F: Field>(rt: &HostRuntime, bench: &mut Bench<F>) -> io::Result<()> {
    let totals = bench.tray.totals();
    tell(
        rt,
        "totals",
        totals.map(|(sound, others)| Told::Totals(sound, others)),
    )
}

pub fn first<F: Field>(rt: &HostRuntime, bench: &Bench<F>) -> io::Result<()> {
    tell(rt, "first", bench.tray.first().map(Told::First))
}

pub fn numbers(rt: &HostRuntime, what: &str, row: usize, all: &[usize]) -> io::Result<()> {
    print!(rt; "{what} row {row}:")?;
    for number in all {
        print!(rt; " {number}")?;
    }
    println!(rt)
}

// A read of a row's whole block.
pub fn read<F: Field>(rt: &HostRuntime, bench: &Bench<F>, row: usize) -> io::Result<()> {
    let mut buffer = vec![in rt.alloc(); F::zero(); bench.sizes.block_length]?;
    match bench.tray.read(row, 0, &mut buffer) {
        Ok(()) => {
            let read: Vec<usize> = buffer
                .iter()
                .map(|symbol| symbol.number())
                .collect(rt.alloc())?;
            numbers(rt, "read of", row, &read)
        }
        Err(refusal) => tell(rt, format_args!("read of row {row}"), Err(refusal)),
    }
}

// What stands in a row, a hole as a dash.
pub fn row<F: Field>(rt: &HostRuntime, bench: &mut Bench<F>, row: usize) -> io::Result<()> {
    print!(rt; "row {row}:")?;
    for number in &bench.row(row)? {
        match number {
            Some(number) => print!(rt; " {number}")?,
            None => print!(rt; " -")?,
        }
    }
    println!(rt)
}

pub fn shelf<F: Field>(rt: &HostRuntime, bench: &mut Bench<F>) -> io::Result<()> {
    for at in 0..bench.rows() {
        row(rt, bench, at)?;
    }
    Ok(())
}

// Whether every row is as before; the rows, where not.
pub fn compared<F: Field>(rt: &HostRuntime, bench: &mut Bench<F>, before: &Rows) -> io::Result<()> {
    if bench.all()? == *before {
        return println!(rt; "all rows are as before");
    }
    println!(rt; "not all rows are as before")?;
    shelf(rt, bench)
}

// The mend call, and whether it left every row as before.
pub fn mend<F: Field>(rt: &HostRuntime, bench: &mut Bench<F>, before: &Rows) -> io::Result<()> {
    counted(rt, "mend", bench.tray.mend())?;
    compared(rt, bench, before)
}
