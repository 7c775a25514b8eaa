// The puts of a write: each symbol moves its data row, the parity rows, and the cards of both by its change.
#![tactic(auto)]

ghost use Rattle.std.specs.Prelude.{◌≡◌, ℕ, ◌+◌, ◌^◌, ◌<◌, ◌≤◌, map, length, [], ◌∷◌};
ghost use Rattle.rows.specs.Shown.{SameGroup};
ghost use Rattle.rules.specs.Views.{seen};
ghost use Rattle.shelves.specs.Puts.{PutsAt, places_of};
ghost use Rattle.rules.specs.Order.{row_places, symbol_places, written_places};
ghost use Rattle.writes.specs.Few.{Few};
ghost use Rattle.rules.specs.declared.Sizes.{Sizes as SizesOf};
ghost use Rattle.writes.specs.Steps.{Puts, Readable, cells_of, place_grown, card_grown, row_grown, OneWritten, AllWritten};
ghost use Rattle.writes.specs.Weights.{PowersAt, Bases, Column};

use algebra::Field;
use rows::{GroupMut, coefficient, element, numbers_of, symbol_at};
use rules::Sizes;
use shelves::Shelf;
use std::marker::PhantomData;

// The numbers of the coefficients of one data row, one for each parity row. Numbers, and always four with the count beside them, as for the powers of a place.
fn coefficient_column<F: Field>(row: usize, parity_rows: usize) -> [usize; 4]
    ensures { row < 64 → parity_rows ≤ 4 → row + 4 < F.Field.algebra.size → Column F.Field.algebra row parity_rows result }
{
    numbers_of(parity_rows, |i| coefficient::<F>(i, row))
}

// A place of a tray's block, with the powers with which it counts in the components of a card. By their numbers, since an array of a type parameter gets no
// proof, and always eight, since nothing below the programs has a heap.
#[derive(Drop)]
struct Place<F: Field> {
    sizes: Sizes,
    index: usize,
    // What the components take powers of.
    bases: [usize; 8],
    powers: [usize; 8],
    field: PhantomData<F>,
    ghost based: { sizes.card_length ≤ 8 → Bases F.Field.algebra sizes.card_length bases },
    ghost weighed: { sizes.card_length ≤ 8 → PowersAt F.Field.algebra sizes.card_length index powers },
}

impl<F: Field> Place<F> {
    fn at(sizes: Sizes, index: usize) -> Place<F>
        ensures sizes { result.sizes ≡ sizes }
        ensures place { result.index ≡ index }
    {
        let mut place = Place {
            sizes,
            index: 0,
            // A closure: the function passed by its name gets no proof.
            bases: numbers_of(
                sizes.card_length,
                |component| algebra::power_of_alpha::<F>(component),
            ),
            powers: [F::one().number(); 8],
            field: PhantomData,
        };
        for _place in 0..index {
            place.advance();
        }
        place
    }

    // Goes on to the next place, and stays where a usize names none.
    fn advance(&mut self)
        ensures sizes { self.new.sizes ≡ self.old.sizes }
        ensures place { self.old.index + 1 < 2 ^ 64 → self.new.index ≡ self.old.index + 1 }
    {
        if let Some(next) = self.index.checked_add(1) {
            let powers = numbers_of(self.sizes.card_length, |component| {
                let base: F = element(self.bases[component]);
                base.product(element(self.powers[component]))
            });
            self.index = next;
            self.powers = powers;
        }
    }
}

// Adds a change to one symbol: one put.
fn grow<S: Shelf>(shelf: &mut S, row: usize, place: usize, change: S::Symbol)
where
    S::Symbol: Field,
    ensures grown { (sizes : SizesOf) → Puts S.Symbol.Field.meaning (Readable S.Symbol.Field.algebra S.Symbol.Field.meaning sizes (S.Shelf.contents shelf.old) row × (place < sizes.block_length + sizes.card_length)) (place_grown S.Symbol.Field.algebra (seen S.Symbol.Field.meaning sizes (S.Shelf.contents shelf.old)) row place (S.Symbol.Field.meaning change) (cells_of S.Symbol.Field.meaning (S.Shelf.contents shelf.old))) (S.Shelf.contents shelf.old) (S.Shelf.contents shelf.new) }
    ensures puts { PutsAt S.Shelf.stores shelf.old ((row, place) ∷ []) shelf.new }
{
    let symbol = symbol_at(shelf, row, place).sum(change);
    let _ = shelf.put(row, place, symbol);
}

// Adds a change at a place of the block to the components of the row's card, from component 0 on.
fn grow_card<S: Shelf>(shelf: &mut S, row: usize, place: &Place<S::Symbol>, change: S::Symbol)
where
    S::Symbol: Field,
    ensures grown { let sizes = place.now.sizes in Puts S.Symbol.Field.meaning (Readable S.Symbol.Field.algebra S.Symbol.Field.meaning sizes (S.Shelf.contents shelf.old) row) (card_grown S.Symbol.Field.algebra (seen S.Symbol.Field.meaning sizes (S.Shelf.contents shelf.old)) row place.now.index (S.Symbol.Field.meaning change) sizes.card_length (cells_of S.Symbol.Field.meaning (S.Shelf.contents shelf.old))) (S.Shelf.contents shelf.old) (S.Shelf.contents shelf.new) }
    ensures puts { let sizes = place.now.sizes in Few sizes → PutsAt S.Shelf.stores shelf.old (places_of row sizes.block_length sizes.card_length) shelf.new }
{
    for (component, power) in place
        .powers
        .iter()
        .enumerate()
        .take(place.sizes.card_length)
    {
        let weight: S::Symbol = element(*power);
        grow(
            shelf,
            row,
            place.sizes.card_place(component),
            weight.product(change),
        );
    }
}

// Adds a change to a symbol of the block, and then to the row's card. Row and change go in one by one: a write has another row and another change at each call.
fn grow_row<S: Shelf>(shelf: &mut S, row: usize, place: &Place<S::Symbol>, change: S::Symbol)
where
    S::Symbol: Field,
    ensures grown { let sizes = place.now.sizes in Puts S.Symbol.Field.meaning (Readable S.Symbol.Field.algebra S.Symbol.Field.meaning sizes (S.Shelf.contents shelf.old) row × (place.now.index < sizes.block_length)) (row_grown S.Symbol.Field.algebra (seen S.Symbol.Field.meaning sizes (S.Shelf.contents shelf.old)) row place.now.index (S.Symbol.Field.meaning change) (cells_of S.Symbol.Field.meaning (S.Shelf.contents shelf.old))) (S.Shelf.contents shelf.old) (S.Shelf.contents shelf.new) }
    ensures puts { let sizes = place.now.sizes in Few sizes → PutsAt S.Shelf.stores shelf.old (row_places sizes row place.now.index) shelf.new }
{
    grow(shelf, row, place.index, change);
    grow_card(shelf, row, place, change);
}

// Writes one symbol: the data row grows by the change from the old symbol to the new, and then each parity row by its coefficient times that.
// Of the column, as coefficient_column makes it, as many count as the tray has parity rows.
fn write_symbol<S: Shelf>(
    shelf: &mut S,
    row: usize,
    place: &Place<S::Symbol>,
    column: &[usize; 4],
    symbol: S::Symbol,
)
where
    S::Symbol: Field,
    ensures written { OneWritten S.Symbol.Field.algebra S.Symbol.Field.meaning place.now.sizes row place.now.index column.now (S.Symbol.Field.meaning symbol) (S.Shelf.contents shelf.old) (S.Shelf.contents shelf.new) }
    ensures puts { let sizes = place.now.sizes in Few sizes → PutsAt S.Shelf.stores shelf.old (symbol_places sizes row place.now.index sizes.parity_rows) shelf.new }
{
    let change = symbol.difference(symbol_at(shelf, row, place.index));
    grow_row(shelf, row, place, change);
    for (i, number) in column.iter().enumerate().take(place.sizes.parity_rows) {
        let weight: S::Symbol = element(*number);
        let parity_row = place.sizes.parity_row(i);
        grow_row(shelf, parity_row, place, weight.product(change));
    }
}

// Writes the symbols of a span into a data row, one after the other.
pub fn write_symbols<S: Shelf>(
    group: &mut GroupMut<'_, S>,
    row: usize,
    start: usize,
    symbols: &[S::Symbol],
)
where
    S::Symbol: Field,
    ensures same { SameGroup group.old group.new }
    ensures written { AllWritten S.Symbol.Field.algebra S.Symbol.Field.meaning group.old.sizes row start (map S.Symbol.Field.meaning symbols.now) (S.Shelf.contents group.old.shelf.now) (S.Shelf.contents group.new.shelf.now) }
    ensures puts { let sizes = group.old.sizes in Few sizes → start + length symbols.now ≤ sizes.block_length → PutsAt S.Shelf.stores group.old.shelf.now (written_places sizes row start (length symbols.now)) group.new.shelf.now }
{
    let column = coefficient_column::<S::Symbol>(row, group.sizes.parity_rows);
    let mut place = Place::<S::Symbol>::at(group.sizes, start);
    for symbol in symbols {
        write_symbol(group.shelf, row, &place, &column, *symbol);
        place.advance();
    }
}
