// Scripts over trays of either field. The local buffers are the callers', since an array of a type parameter is refused.
// An image and its tray's sizes stand side by side: with both in a struct, the functions that copy the image into lent memory got no proof (their borrows are
// not covered).
ghost use Rattle.std.specs.Prelude.{◌≡◌, ℕ, ◌+◌, ◌≤◌, length, map, min};
ghost use Rattle.image_shelves.specs.Fields.{BytesPut};
ghost use Rattle.image_shelves.specs.Layout.{image_contents};
ghost use Rattle.shelves.specs.Array.{array_contents};
ghost use Rattle.ffi.specs.Copies.{MemoryRun, copied, lent_contents};
ghost use Rattle.ffi.specs.Images.{ImageRun, Struck};
ghost use Rattle.ffi.specs.Parity.{parity_left};
ghost use Rattle.ffi.specs.Puts.{PutsOf};
ghost use Rattle.ffi.specs.Runs.{SameDesk};
ghost use Rattle.ffi.specs.Script.{elements};

use crate::arrays::{copy, parity};
use crate::recorded::Recorded;
use crate::script::{Desk, Step, load};
use algebra::{Field, OwnSymbols};
use image_shelves::{ImageShelf, image_put};
use rules::Sizes;
use shelves::{ArrayShelf, Shelf};
use tray::Tray;

// Lent memory for the symbols of a tray, each with its mark: two slices, as `ArrayShelf` takes them.
// The clauses below speak of its room as of a number that it equals: with the lengths themselves, the callers got no proof over their large arrays.
pub struct Memory<'a, F> {
    pub symbols: &'a mut [F],
    pub marks: &'a mut [u8],
}

// Sets a byte of the image under a tray.
fn damage<'a, F: OwnSymbols>(tray: &mut Tray<ImageShelf<'a, F>>, step: Step)
    ensures { Struck tray.old step tray.new }
{
    let bytes = tray.replace_shelf(ImageShelf::over(&mut [])).into_bytes();
    // By an index: of a slice that `get_mut` was asked of, no proof knows what it ends as.
    if step.first < bytes.len() {
        bytes[step.first] = (step.second % 256) as u8;
    }
    let _ = tray.replace_shelf(ImageShelf::over(bytes));
}

// Runs a script over an image, and gives its bytes back: no proof knows what a slice ends as that lies in a struct in a struct.
pub(crate) fn over_image<'a, F: OwnSymbols>(
    image: &'a mut [u8],
    sizes: Sizes,
    script: &[usize],
    desk: &mut Desk<'_, F>,
) -> &'a mut [u8]
    ensures run { ImageRun F.CodedField.kind F.CodedField.width (image_contents F.CodedField.kind F.CodedField.width F.Field.algebra.size F.Field.symbol) F.Field.meaning F.Field.algebra (length desk.old.symbols.now) sizes image.entry.now script.now desk.old.numbers.now desk.old.answers.now desk.new.numbers.now desk.new.answers.now result.now }
    ensures same_image { result.ghost_name ≡ image.entry.ghost_name }
    ensures same { SameDesk desk.old desk.new }
{
    let mut tray = Tray::over(ImageShelf::<F>::over(image), sizes);
    desk.run(script, &mut tray, damage);
    tray.into_shelf().into_bytes()
}

// A shelf over lent memory with an image's contents.
fn lent<'a, F: OwnSymbols>(image: &ImageShelf<'_, F>, memory: Memory<'a, F>) -> ArrayShelf<'a, F>
    ensures { (capacity : ℕ) → min (length memory.entry.symbols.now) (length memory.entry.marks.now) ≡ capacity → array_contents result ≡ lent_contents capacity (image_contents F.CodedField.kind F.CodedField.width F.Field.algebra.size F.Field.symbol image.now.bytes.now) }
{
    let Memory { symbols, marks } = memory;
    let rows = image.rows();
    let places = image.places();
    let size = rows
        .saturating_mul(places)
        .min(symbols.len())
        .min(marks.len());
    let marks = &mut marks[..size];
    // Whatever the marks were: a hole in the image is a hole here.
    marks.fill(0);
    let mut shelf = ArrayShelf::over(rows, places, &mut symbols[..size], marks);
    copy(image, &mut shelf);
    shelf
}

// The same over an image's bytes, which stay as they are.
fn in_memory<'a, F: OwnSymbols>(image: &mut [u8], memory: Memory<'a, F>) -> ArrayShelf<'a, F>
    ensures contents { (capacity : ℕ) → min (length memory.entry.symbols.now) (length memory.entry.marks.now) ≡ capacity → array_contents result ≡ lent_contents capacity (image_contents F.CodedField.kind F.CodedField.width F.Field.algebra.size F.Field.symbol image.old) }
    ensures same { image.new ≡ image.old }
{
    lent(&ImageShelf::over(image), memory)
}

// Damages nothing: lent memory has no bytes of an image. A function, since the run's contract says what its damage promises.
fn no_damage<S: Shelf>(_tray: &mut Tray<S>, _step: Step)
where
    S::Symbol: Field,
    ensures { _tray.new ≡ _tray.old }
{}

// Puts the symbols of a shelf into an image. By its bytes: `copy`, which knows a shelf only by its trait, does not say that one over them is still over the same.
fn put_back<F: OwnSymbols, S: Shelf<Symbol = F>>(from: &S, image: &mut [u8])
    ensures contents { image_contents F.CodedField.kind F.CodedField.width F.Field.algebra.size F.Field.symbol image.new ≡ copied (S.Shelf.contents from.now) (image_contents F.CodedField.kind F.CodedField.width F.Field.algebra.size F.Field.symbol image.old) }
    ensures puts { BytesPut F.CodedField.kind F.CodedField.width F.Field.algebra.size image.old image.new }
{
    let places = from.places();
    for row in 0..from.rows() {
        for place in 0..places {
            if let Some(symbol) = from.get(row, place).symbol() {
                // Called for its promise alone, as by the image's shelf.
                let _ = symbol.code_number();
                let _ = image_put(image, row, place, symbol);
            }
        }
    }
}

// Runs a script over lent memory with an image's contents, and puts the symbols back into the image. Steps that damage do nothing.
pub(crate) fn over_memory<F: OwnSymbols>(
    image: &mut [u8],
    memory: Memory<'_, F>,
    sizes: Sizes,
    script: &[usize],
    desk: &mut Desk<'_, F>,
)
    ensures run { (capacity : ℕ) → min (length memory.entry.symbols.now) (length memory.entry.marks.now) ≡ capacity → MemoryRun F.CodedField.kind F.CodedField.width (image_contents F.CodedField.kind F.CodedField.width F.Field.algebra.size F.Field.symbol) F.Field.meaning F.Field.algebra (length desk.old.symbols.now) capacity sizes image.old script.now desk.old.numbers.now desk.old.answers.now desk.new.numbers.now desk.new.answers.now image.new }
    ensures same { SameDesk desk.old desk.new }
{
    let mut tray = Tray::over(in_memory(image, memory), sizes);
    desk.run(script, &mut tray, no_damage);
    put_back(&tray.into_shelf(), image);
}

pub(crate) fn parity_over_image<F: OwnSymbols>(
    image: &mut [u8],
    sizes: Sizes,
    times: usize,
    numbers: &mut [usize],
)
    ensures numbers { numbers.new ≡ parity_left F.Field.algebra F.Field.meaning (image_contents F.CodedField.kind F.CodedField.width F.Field.algebra.size F.Field.symbol image.old) sizes times numbers.old }
    ensures image { image.new ≡ image.old }
{
    parity(&ImageShelf::<F>::over(image), sizes, times, numbers);
}

pub(crate) fn parity_over_memory<F: OwnSymbols>(
    image: &mut [u8],
    memory: Memory<'_, F>,
    sizes: Sizes,
    times: usize,
    numbers: &mut [usize],
)
    ensures numbers { (capacity : ℕ) → min (length memory.entry.symbols.now) (length memory.entry.marks.now) ≡ capacity → numbers.new ≡ parity_left F.Field.algebra F.Field.meaning (lent_contents capacity (image_contents F.CodedField.kind F.CodedField.width F.Field.algebra.size F.Field.symbol image.old)) sizes times numbers.old }
    ensures image { image.new ≡ image.old }
{
    let image = ImageShelf::<F>::over(image);
    parity(&lent(&image, memory), sizes, times, numbers);
}

// Takes an image in and writes symbols, over a shelf that writes down each put. It gives image and room back, and how many puts there were.
// Both are given back, as `over_image` does.
fn record_puts<'a, 'b, F: OwnSymbols>(
    image: &'a mut [u8],
    puts: &'b mut [usize],
    sizes: Sizes,
    row: usize,
    start: usize,
    symbols: &[F],
) -> (&'a mut [u8], &'b mut [usize], usize)
    ensures puts { PutsOf F.CodedField.kind F.CodedField.width (image_contents F.CodedField.kind F.CodedField.width F.Field.algebra.size F.Field.symbol) F.Field.meaning F.Field.algebra sizes row start (map F.Field.meaning symbols.now) image.entry.now puts.entry.now result.2 result.0.now result.1.now }
    ensures same_image { result.0.ghost_name ≡ image.entry.ghost_name }
    ensures same_room { result.1.ghost_name ≡ puts.entry.ghost_name }
{
    let mut tray = Tray::over(Recorded::over(ImageShelf::<F>::over(image), puts), sizes);
    let _ = tray.intake();
    let _ = tray.write(row, start, symbols);
    let (shelf, puts, count) = tray.into_shelf().into_parts();
    (shelf.into_bytes(), puts, count)
}

// The same with the symbols of numbers. It answers how many puts there were.
pub(crate) fn puts<F: OwnSymbols>(
    image: &mut [u8],
    sizes: Sizes,
    row: usize,
    start: usize,
    numbers: &[usize],
    buffer: &mut [F],
    puts: &mut [usize],
) -> usize
    ensures { PutsOf F.CodedField.kind F.CodedField.width (image_contents F.CodedField.kind F.CodedField.width F.Field.algebra.size F.Field.symbol) F.Field.meaning F.Field.algebra sizes row start (elements F.Field.algebra numbers.now 0 (min (length numbers.now) (length buffer.old))) image.old puts.old result image.new puts.new }
{
    let count = numbers.len().min(buffer.len());
    let symbols = &mut buffer[..count];
    load(numbers, symbols);
    let (_, _, count) = record_puts(image, puts, sizes, row, start, symbols);
    count
}
