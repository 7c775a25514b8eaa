// Walks a tray of each field through its life, mends every set of damaged rows of small trays, and prints what happens.
#![tactic(auto)]

mod bench;
mod mends;
mod stages;
mod tell;

use algebra::Field;
use bench::Bench;
use byte_field::Byte;
use counter_field::Counter;
use rules::Sizes;
use std::io;

const BYTE_SIZES: Sizes = Sizes {
    data_rows: 2,
    parity_rows: 2,
    block_length: 3,
    card_length: 2,
};

const BYTE_BLOCKS: [&[usize]; 4] = [&[1, 2, 3], &[4, 0, 0], &[5, 2, 3], &[163, 81, 247]];

const COUNTER_SIZES: Sizes = Sizes {
    data_rows: 3,
    parity_rows: 4,
    block_length: 5,
    card_length: 3,
};

const COUNTER_BLOCKS: [&[usize]; 7] = [
    &[65_536, 2, 3, 40_000, 0],
    &[65_535, 7, 0, 65_536, 1],
    &[12_345, 54_321, 65_536, 0, 9],
    &[12_342, 54_330, 2, 39_999, 10],
    &[25_733, 20_413, 39_325, 26_025, 22_950],
    &[29_435, 26_883, 32_773, 36_307, 10_938],
    &[24_681, 10_362, 10, 61_692, 32_789],
];

// A tray's life, and the mends of small trays over its field.
fn life<F: Field>(
    rt: &HostRuntime,
    sizes: Sizes,
    blocks: &[&[usize]],
    written: &[usize],
) -> io::Result<()> {
    let mut bench: Bench<F> = Bench::with_blocks(rt.alloc(), sizes, blocks)?;
    stages::take_in(rt, &mut bench)?;
    stages::writes(rt, &mut bench, written)?;
    stages::round(rt, &mut bench)?;
    stages::each_damage(rt, &mut bench)?;
    stages::found_by_a_round(rt, &mut bench)?;
    stages::without_shelf(rt, &mut bench)?;
    stages::too_many(rt, &mut bench)?;
    stages::stale_row(rt, &mut bench)?;
    stages::stale_parity(rt, &mut bench)?;
    mends::mends::<F>(rt)
}

fn main(rt: HostRuntime) -> io::Result<()> {
    println!(rt; "byte field")?;
    life::<Byte>(&rt, BYTE_SIZES, &BYTE_BLOCKS, &[7])?;
    mends::widest(&rt)?;
    println!(rt; "counter field")?;
    life::<Counter>(&rt, COUNTER_SIZES, &COUNTER_BLOCKS, &[65_536, 5])
}
