// Trays for callers in C and Rust, for each field: a whole script of calls over an image in lent bytes, the same over lent symbols and marks, the parity
// rows alone, and the puts of an intake and a write one by one. Nothing is kept from one function to the next, so a caller holds no tray.
// C has no generics and takes no structs of ours, so each function stands here once for each field, with the sizes one by one.
// That these functions are safe and return is proved, what scripts, parity rows and puts answer, and what they leave of an image: its bytes after a script over
// it, what it holds after puts, and after a script over lent memory. bench/ compares all of it with a program of its own, for an image every byte.
#![tactic(auto)]

ghost use Rattle.std.specs.Prelude.{◌≡◌, length, min};
ghost use Rattle.byte_field.specs.Meaning.{byte_algebra, byte_meaning};
ghost use Rattle.counter_field.specs.Meaning.{counter_algebra, counter_meaning};
ghost use Rattle.image_shelves.specs.Fields.{byte_image, counter_image};
ghost use Rattle.ffi.specs.Copies.{MemoryRun};
ghost use Rattle.ffi.specs.Images.{ImageRun, sizes_in_order};
ghost use Rattle.ffi.specs.Parity.{ParityOf};
ghost use Rattle.ffi.specs.Puts.{PutsOf};
ghost use Rattle.ffi.specs.Script.{elements};

mod answers;
mod arrays;
mod recorded;
mod runs;
mod script;

use arrays::CAPACITY;
use byte_field::Byte;
use counter_field::Counter;
use rules::Sizes;
use runs::Memory;
use script::{Desk, SYMBOLS};

// C gives the sizes in order; no function of Sizes, where four numbers without names could change places.
fn sizes_of(data_rows: usize, parity_rows: usize, block_length: usize, card_length: usize) -> Sizes
    ensures { result ≡ sizes_in_order data_rows parity_rows block_length card_length }
{
    Sizes {
        data_rows,
        parity_rows,
        block_length,
        card_length,
    }
}

// Runs a script over an image of the byte field.
#[unsafe(no_mangle)]
pub extern "C" fn tray_byte_image(
    image: &mut [u8],
    data_rows: usize,
    parity_rows: usize,
    block_length: usize,
    card_length: usize,
    script: &[usize],
    numbers: &mut [usize],
    answers: &mut [usize],
)
    ensures { ImageRun 1 1 byte_image byte_meaning byte_algebra 4200 (sizes_in_order data_rows parity_rows block_length card_length) image.old script.now numbers.old answers.old numbers.new answers.new image.new }
{
    let sizes = sizes_of(data_rows, parity_rows, block_length, card_length);
    let mut desk = Desk {
        numbers,
        answers,
        symbols: &mut [Byte(0); SYMBOLS],
    };
    let _ = runs::over_image::<Byte>(image, sizes, script, &mut desk);
}

// Runs a script over an image of the counter field.
#[unsafe(no_mangle)]
pub extern "C" fn tray_counter_image(
    image: &mut [u8],
    data_rows: usize,
    parity_rows: usize,
    block_length: usize,
    card_length: usize,
    script: &[usize],
    numbers: &mut [usize],
    answers: &mut [usize],
)
    ensures { ImageRun 2 3 counter_image counter_meaning counter_algebra 4200 (sizes_in_order data_rows parity_rows block_length card_length) image.old script.now numbers.old answers.old numbers.new answers.new image.new }
{
    let sizes = sizes_of(data_rows, parity_rows, block_length, card_length);
    let mut desk = Desk {
        numbers,
        answers,
        symbols: &mut [Counter::Low(0); SYMBOLS],
    };
    let _ = runs::over_image::<Counter>(image, sizes, script, &mut desk);
}

// Runs a script over lent symbols and marks with an image's contents, and puts the symbols back into the image. Steps that damage do nothing.
#[unsafe(no_mangle)]
pub extern "C" fn tray_byte_array(
    image: &mut [u8],
    data_rows: usize,
    parity_rows: usize,
    block_length: usize,
    card_length: usize,
    script: &[usize],
    numbers: &mut [usize],
    answers: &mut [usize],
)
    ensures { MemoryRun 1 1 byte_image byte_meaning byte_algebra SYMBOLS CAPACITY (sizes_in_order data_rows parity_rows block_length card_length) image.old script.now numbers.old answers.old numbers.new answers.new image.new }
{
    let sizes = sizes_of(data_rows, parity_rows, block_length, card_length);
    let mut desk = Desk {
        numbers,
        answers,
        symbols: &mut [Byte(0); SYMBOLS],
    };
    let memory = Memory {
        symbols: &mut [Byte(0); CAPACITY],
        marks: &mut [0; CAPACITY],
    };
    runs::over_memory::<Byte>(image, memory, sizes, script, &mut desk);
}

// Works the parity rows of an image so many times, over the image or over lent memory with its contents.
// A bool says which of the two, since C passes no closures.
#[unsafe(no_mangle)]
pub extern "C" fn tray_byte_parity(
    image: &mut [u8],
    data_rows: usize,
    parity_rows: usize,
    block_length: usize,
    card_length: usize,
    lent: bool,
    times: usize,
    numbers: &mut [usize],
)
    ensures numbers { ParityOf byte_algebra byte_meaning lent CAPACITY (byte_image image.old) (sizes_in_order data_rows parity_rows block_length card_length) times numbers.old numbers.new }
    ensures image { image.new ≡ image.old }
{
    let sizes = sizes_of(data_rows, parity_rows, block_length, card_length);
    if lent {
        let memory = Memory {
            symbols: &mut [Byte(0); CAPACITY],
            marks: &mut [0; CAPACITY],
        };
        runs::parity_over_memory::<Byte>(image, memory, sizes, times, numbers);
    } else {
        runs::parity_over_image::<Byte>(image, sizes, times, numbers);
    }
}

// Runs a script over lent symbols and marks with an image's contents, and puts the symbols back into the image. Steps that damage do nothing.
#[unsafe(no_mangle)]
pub extern "C" fn tray_counter_array(
    image: &mut [u8],
    data_rows: usize,
    parity_rows: usize,
    block_length: usize,
    card_length: usize,
    script: &[usize],
    numbers: &mut [usize],
    answers: &mut [usize],
)
    ensures { MemoryRun 2 3 counter_image counter_meaning counter_algebra SYMBOLS CAPACITY (sizes_in_order data_rows parity_rows block_length card_length) image.old script.now numbers.old answers.old numbers.new answers.new image.new }
{
    let sizes = sizes_of(data_rows, parity_rows, block_length, card_length);
    let mut desk = Desk {
        numbers,
        answers,
        symbols: &mut [Counter::Low(0); SYMBOLS],
    };
    let memory = Memory {
        symbols: &mut [Counter::Low(0); CAPACITY],
        marks: &mut [0; CAPACITY],
    };
    runs::over_memory::<Counter>(image, memory, sizes, script, &mut desk);
}

// Works the parity rows of an image so many times, over the image or over lent memory with its contents.
// A bool says which of the two, since C passes no closures.
#[unsafe(no_mangle)]
pub extern "C" fn tray_counter_parity(
    image: &mut [u8],
    data_rows: usize,
    parity_rows: usize,
    block_length: usize,
    card_length: usize,
    lent: bool,
    times: usize,
    numbers: &mut [usize],
)
    ensures numbers { ParityOf counter_algebra counter_meaning lent CAPACITY (counter_image image.old) (sizes_in_order data_rows parity_rows block_length card_length) times numbers.old numbers.new }
    ensures image { image.new ≡ image.old }
{
    let sizes = sizes_of(data_rows, parity_rows, block_length, card_length);
    if lent {
        let memory = Memory {
            symbols: &mut [Counter::Low(0); CAPACITY],
            marks: &mut [0; CAPACITY],
        };
        runs::parity_over_memory::<Counter>(image, memory, sizes, times, numbers);
    } else {
        runs::parity_over_image::<Counter>(image, sizes, times, numbers);
    }
}

// Takes an image in, writes symbols, and writes down every put of both. It answers how many puts there were.
#[unsafe(no_mangle)]
pub extern "C" fn tray_byte_puts(
    image: &mut [u8],
    data_rows: usize,
    parity_rows: usize,
    block_length: usize,
    card_length: usize,
    row: usize,
    start: usize,
    numbers: &[usize],
    puts: &mut [usize],
) -> usize
    ensures { PutsOf 1 1 byte_image byte_meaning byte_algebra (sizes_in_order data_rows parity_rows block_length card_length) row start (elements byte_algebra numbers.now 0 (min (length numbers.now) 4200)) image.old puts.old result image.new puts.new }
{
    let sizes = sizes_of(data_rows, parity_rows, block_length, card_length);
    let mut buffer = [Byte(0); SYMBOLS];
    runs::puts::<Byte>(image, sizes, row, start, numbers, &mut buffer, puts)
}

// Takes an image in, writes symbols, and writes down every put of both. It answers how many puts there were.
#[unsafe(no_mangle)]
pub extern "C" fn tray_counter_puts(
    image: &mut [u8],
    data_rows: usize,
    parity_rows: usize,
    block_length: usize,
    card_length: usize,
    row: usize,
    start: usize,
    numbers: &[usize],
    puts: &mut [usize],
) -> usize
    ensures { PutsOf 2 3 counter_image counter_meaning counter_algebra (sizes_in_order data_rows parity_rows block_length card_length) row start (elements counter_algebra numbers.now 0 (min (length numbers.now) 4200)) image.old puts.old result image.new puts.new }
{
    let sizes = sizes_of(data_rows, parity_rows, block_length, card_length);
    let mut buffer = [Counter::Low(0); SYMBOLS];
    runs::puts::<Counter>(image, sizes, row, start, numbers, &mut buffer, puts)
}
