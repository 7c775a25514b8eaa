// Symbols copied from shelf to shelf, and the parity of a shelf's blocks.
ghost use Rattle.std.specs.Prelude.{◌≡◌, ◌+◌, ◌<◌, ◌≤◌, length};
ghost use Rattle.ffi.specs.Copies.{copied};
ghost use Rattle.ffi.specs.Parity.{has_rows as rows_allowed, parity_left, row_numbers, rows_written};

use algebra::Field;
use rows::{coefficient_row, combination};
use rules::Sizes;
use shelves::Shelf;

// As many places as the largest tray has: 68 rows of 4,104.
pub const CAPACITY: usize = 279_072;

// Puts on a shelf what another one has a symbol for.
pub(crate) fn copy<S: Shelf, T: Shelf<Symbol = S::Symbol>>(from: &S, to: &mut T)
where
    S::Symbol: Field,
    ensures { T.Shelf.contents to.new ≡ copied (S.Shelf.contents from.now) (T.Shelf.contents to.old) }
{
    let places = from.places();
    // No row is read that the other shelf has no room for: lent memory that is too small for an image has no rows.
    for row in 0..from.rows().min(to.rows()) {
        for place in 0..places {
            if let Some(symbol) = from.get(row, place).symbol() {
                let _ = to.put(row, place, symbol);
            }
        }
    }
}

// Writes down the numbers of one parity row's symbols, worked from the data rows.
// Shelf and sizes side by side: with rows' `Group` here, the caller over lent memory got no proof (its borrows are not covered).
fn parity_row<S: Shelf>(shelf: &S, sizes: Sizes, i: usize, numbers: &mut [usize])
where
    S::Symbol: Field,
    ensures { i < 4 → sizes.data_rows ≤ 64 → sizes.data_rows + 4 ≤ S.Symbol.Field.algebra.size → numbers.new ≡ row_numbers S.Symbol.Field.algebra S.Symbol.Field.meaning (S.Shelf.contents shelf.now) sizes i 0 (length numbers.old) }
{
    let coefficients = coefficient_row::<S::Symbol>(i, sizes.data_rows);
    for (place, number) in numbers.iter_mut().enumerate() {
        *number = combination(shelf, &coefficients, sizes.data_rows, place).number();
    }
}

// Works all parity rows and writes them down, one behind the other, as far as there is room. The limits of the sizes are premises here; `parity` asks for them.
fn parity_rows<S: Shelf>(shelf: &S, sizes: Sizes, numbers: &mut [usize])
where
    S::Symbol: Field,
    ensures { sizes.parity_rows ≤ 4 → sizes.data_rows ≤ 64 → sizes.data_rows + 4 ≤ S.Symbol.Field.algebra.size → numbers.new ≡ rows_written S.Symbol.Field.algebra S.Symbol.Field.meaning (S.Shelf.contents shelf.now) sizes sizes.parity_rows numbers.old }
{
    // By index: the contract says where each row's numbers stand, and so does the loop.
    for i in 0..sizes.parity_rows {
        let from = i.saturating_mul(sizes.block_length);
        if from >= numbers.len() {
            return;
        }
        let to = from.saturating_add(sizes.block_length).min(numbers.len());
        parity_row(shelf, sizes, i, &mut numbers[from..to]);
    }
}

// Whether the rules allow so many rows, and the field has their elements.
fn has_rows<F: Field>(sizes: Sizes) -> bool
    ensures { result ≡ rows_allowed F.Field.algebra sizes }
{
    sizes.parity_rows <= 4 && sizes.data_rows <= 64 && sizes.data_rows + 4 <= F::order()
}

// Works all parity rows so many times, as intake does to compare them; of sizes that no tray has it works none.
pub(crate) fn parity<S: Shelf>(shelf: &S, sizes: Sizes, times: usize, numbers: &mut [usize])
where
    S::Symbol: Field,
    ensures { numbers.new ≡ parity_left S.Symbol.Field.algebra S.Symbol.Field.meaning (S.Shelf.contents shelf.now) sizes times numbers.old }
{
    if !has_rows::<S::Symbol>(sizes) {
        return;
    }
    if sizes.block_length == 0 {
        return;
    }
    for _time in 0..times {
        parity_rows(shelf, sizes, numbers);
    }
}
