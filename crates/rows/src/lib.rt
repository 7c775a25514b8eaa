// Code over a shelf: symbols, card components, parity combinations, holes and spans. And over a group, a shelf with its sizes: the first place that does
// not fit, audits, and the putting of cards.
#![tactic(auto)]

ghost use Rattle.std.specs.Prelude.{◌≡◌, ℕ, ◌+◌, ◌-◌, ◌^◌, ◌<◌, ◌≤◌, true, not, length, map, min, slice_index};
ghost use Rattle.std.specs.Option.{option_map};
ghost use Rattle.algebra.specs.Theorems.{coefficient as coefficient_of};
ghost use Rattle.rules.specs.Codes.{component, combination as combination_of, differ};
ghost use Rattle.rules.specs.Search.{lowest, lowest_pair};
ghost use Rattle.rules.specs.States.{audited, misfit, sound};
ghost use Rattle.rules.specs.Updates.{span};
ghost use Rattle.rules.specs.Views.{element_at, seen};
ghost use Rattle.shelves.specs.Contents.{is_hole};
ghost use Rattle.rules.specs.Order.{card_places};
ghost use Rattle.shelves.specs.Puts.{PutsAt, places_of};
ghost use Rattle.rows.specs.Cards.{CardPut, CardsPut};
ghost use Rattle.rows.specs.Shown.{shown, SameGroup};
ghost use Rattle.rows.specs.Weights.{Coefficients, element_of};
ghost use Rattle.rules.specs.declared.Sizes.{Sizes as SizesOf};

use algebra::Field;
use rules::{Sizes, Verdict};
use shelves::Shelf;

// The symbol at a place, and zero where there is none.
pub fn symbol_at<S: Shelf>(shelf: &S, row: usize, place: usize) -> S::Symbol
where
    S::Symbol: Field,
    ensures { S.Symbol.Field.meaning result ≡ element_at S.Symbol.Field.algebra S.Symbol.Field.meaning (S.Shelf.contents shelf.now) row place }
{
    shelf
        .get(row, place)
        .symbol()
        .unwrap_or(<S::Symbol>::zero())
}

// The element of a number, and zero where there is none.
pub fn element<F: Field>(number: usize) -> F
    ensures known { number < F.Field.algebra.size → F.Field.meaning result ≡ F.Field.algebra.element number }
    ensures unknown { F.Field.algebra.size ≤ number → F.Field.meaning result ≡ F.Field.algebra.zer }
    ensures either { F.Field.meaning result ≡ element_of F.Field.algebra number }
{
    F::numbered(number).unwrap_or(F::zero())
}

// The numbers of elements, as many as the count, and zeros from there on.
pub fn numbers_of<F: Field, E: Fn(usize) -> F, const N: usize>(
    count: usize,
    element: E,
) -> [usize; N]
    requires calls { (i : ℕ) → i < N → E.pre element i }
    ensures numbers { (i : ℕ) → i < count → i < N → (x : F) × E.post element i x × (slice_index result i ≡ F.Field.algebra.number (F.Field.meaning x)) }
    ensures zeros { (i : ℕ) → count ≤ i → i < N → slice_index result i ≡ 0 }
{
    let mut numbers = [0; N];
    for (i, number) in numbers[..count.min(N)].iter_mut().enumerate() {
        *number = element(i).number();
    }
    numbers
}

// The coefficient of parity row i and data row j, where the field has their elements. That it has them, and above that no sum of sizes overflows, are premises
// of the clauses: calls look at no other rows, and a type for them would ask more of callers.
pub fn coefficient<F: Field>(i: usize, j: usize) -> F
    ensures { i < F.Field.algebra.size → 4 + j < F.Field.algebra.size → 4 + j < 2 ^ 64 → F.Field.meaning result ≡ coefficient_of F.Field.algebra i j }
{
    let column: F = element(j.saturating_add(4));
    let row: F = element(i);
    let origin: F = element(0);
    origin
        .difference(column)
        .product(row.difference(column).inverse())
}

// The numbers of the coefficients of parity row i, one for each data row: worked out once for a call.
// Numbers, since Rattle has no array of a type parameter here, and always 64, with the count beside them, since nothing below the programs has a heap.
pub fn coefficient_row<F: Field>(i: usize, data_rows: usize) -> [usize; 64]
    ensures known { i < F.Field.algebra.size → data_rows ≤ 64 → data_rows + 4 ≤ F.Field.algebra.size → Coefficients F.Field.algebra i data_rows result }
    ensures zeros { (j : ℕ) → data_rows ≤ j → j < 64 → slice_index result j ≡ 0 }
{
    numbers_of(data_rows, |j| coefficient::<F>(i, j))
}

// What a parity row with these coefficients holds at a place, from the data rows.
// The array as coefficient_row makes it, and how many of it count: it is cut here, so that no caller has to.
pub fn combination<S: Shelf>(
    shelf: &S,
    coefficients: &[usize; 64],
    data_rows: usize,
    place: usize,
) -> S::Symbol
where
    S::Symbol: Field,
    ensures { (i : ℕ) → Coefficients S.Symbol.Field.algebra i (min data_rows 64) coefficients.now → S.Symbol.Field.meaning result ≡ combination_of S.Symbol.Field.algebra (min data_rows 64) (λ j. element_at S.Symbol.Field.algebra S.Symbol.Field.meaning (S.Shelf.contents shelf.now) j place) i }
{
    let mut sum: S::Symbol = <S::Symbol>::zero();
    for (j, number) in coefficients[..data_rows.min(64)].iter().enumerate() {
        let weight: S::Symbol = element(*number);
        sum = sum.sum(weight.product(symbol_at(shelf, j, place)));
    }
    sum
}

// Whether a place cannot be read.
fn unreadable<S: Shelf>(shelf: &S, row: usize, place: usize) -> bool
where
    S::Symbol: Field,
    ensures { result ≡ is_hole ((S.Shelf.contents shelf.now).at row place) }
{
    shelf.get(row, place).symbol().is_none()
}

// Copies symbols of a row into a buffer, from a start on.
pub fn copy_span<S: Shelf>(shelf: &S, row: usize, start: usize, buffer: &mut [S::Symbol])
where
    S::Symbol: Field,
    ensures { start + length buffer.old < 2 ^ 64 → (sizes : SizesOf) → map S.Symbol.Field.meaning buffer.new ≡ span S.Symbol.Field.algebra (seen S.Symbol.Field.meaning sizes (S.Shelf.contents shelf.now)) row start (length buffer.old) }
{
    for (i, slot) in buffer.iter_mut().enumerate() {
        *slot = symbol_at(shelf, row, start.saturating_add(i));
    }
}

// The rows of a tray, to be read: a shelf on loan, and the tray's sizes.
// A stretch of places goes in by its start and its length, since what is found in it is counted from its start: a range would be taken apart for both.
// That no sum of the sizes overflows, and for parity that the field and a table of 64 have the rows, are premises of the clauses: a type that kept such sizes
// would ask more of callers than the calls do.
#[derive(Drop)]
pub struct Group<'a, S> {
    pub shelf: &'a S,
    pub sizes: Sizes,
}

impl<'a, S: Shelf> Group<'a, S>
where
    S::Symbol: Field,
{
    // A component of the card of a row's block, worked afresh: one product for each symbol.
    pub fn fresh_component(&self, row: usize, index: usize) -> S::Symbol
        ensures { S.Symbol.Field.meaning result ≡ component S.Symbol.Field.algebra self.now.sizes.block_length (element_at S.Symbol.Field.algebra S.Symbol.Field.meaning (S.Shelf.contents self.now.shelf.now) row) index }
    {
        let point: S::Symbol = algebra::power_of_alpha(index);
        let mut sum: S::Symbol = <S::Symbol>::zero();
        for place in (0..self.sizes.block_length).rev() {
            sum = symbol_at(self.shelf, row, place).sum(point.product(sum));
        }
        sum
    }

    // The first place that cannot be read, by row and then by place, in a stretch of so many places that is alike in all rows. The place is counted from the
    // start of the stretch.
    pub fn first_hole(&self, start: usize, places: usize) -> Option<(usize, usize)>
        ensures { start + places < 2 ^ 64 → result ≡ lowest_pair (min (self.now.sizes.data_rows + self.now.sizes.parity_rows) (2 ^ 64 - 1)) places (λ row t. is_hole ((S.Shelf.contents self.now.shelf.now).at row (start + t))) }
    {
        (0..self.sizes.rows()).find_map(|row| self
            .lowest_hole(row, start, places)
            .map(|t| (row, t)))
    }

    // The lowest place of a row's stretch that cannot be read, counted from the start of the stretch.
    fn lowest_hole(&self, row: usize, start: usize, places: usize) -> Option<usize>
        ensures { start + places < 2 ^ 64 → result ≡ lowest places (λ t. is_hole ((S.Shelf.contents self.now.shelf.now).at row (start + t))) }
    {
        (0..places).find(|t| unreadable(self.shelf, row, start.saturating_add(*t)))
    }

    // The first place of the first parity row that does not fit, by parity row and then by place, in a stretch of so many places. The parity row is named by
    // its index i, not by its row k + i, and the place is counted from the start of the stretch.
    // By the project's rules two loops, left by a label.
    pub fn first_misfit(&self, start: usize, places: usize) -> Option<(usize, usize)>
        ensures { start + places < 2 ^ 64 → self.now.sizes.data_rows + self.now.sizes.parity_rows < 2 ^ 64 → self.now.sizes.parity_rows ≤ S.Symbol.Field.algebra.size → self.now.sizes.data_rows ≤ 64 → self.now.sizes.data_rows + 4 ≤ S.Symbol.Field.algebra.size → result ≡ lowest_pair self.now.sizes.parity_rows places (λ i t. misfit S.Symbol.Field.algebra (shown S.Shelf.contents S.Symbol.Field.meaning self.now) i (start + t)) }
    {
        let mut found = None;
        'rows: for i in 0..self.sizes.parity_rows {
            let coefficients = coefficient_row::<S::Symbol>(i, self.sizes.data_rows);
            for t in 0..places {
                let place = start.saturating_add(t);
                let fitting = combination(self.shelf, &coefficients, self.sizes.data_rows, place);
                if !fitting.equals(symbol_at(self.shelf, self.sizes.parity_row(i), place)) {
                    found = Some((i, t));
                    break 'rows;
                }
            }
        }
        found
    }

    // Whether a component of a row's card differs from the fresh one.
    fn wrong_component(&self, row: usize, c: usize) -> bool
        ensures { self.now.sizes.block_length + c < 2 ^ 64 → result ≡ differ S.Symbol.Field.algebra (component S.Symbol.Field.algebra self.now.sizes.block_length (element_at S.Symbol.Field.algebra S.Symbol.Field.meaning (S.Shelf.contents self.now.shelf.now) row) c) (element_at S.Symbol.Field.algebra S.Symbol.Field.meaning (S.Shelf.contents self.now.shelf.now) row (self.now.sizes.block_length + c)) }
    {
        let fresh = self.fresh_component(row, c);
        !fresh.equals(symbol_at(self.shelf, row, self.sizes.card_place(c)))
    }

    // The lowest component of a row's card that differs from the fresh one.
    fn lowest_wrong_component(&self, row: usize) -> Option<usize>
        ensures { self.now.sizes.block_length + self.now.sizes.card_length < 2 ^ 64 → result ≡ lowest self.now.sizes.card_length (λ c. differ S.Symbol.Field.algebra (component S.Symbol.Field.algebra self.now.sizes.block_length (element_at S.Symbol.Field.algebra S.Symbol.Field.meaning (S.Shelf.contents self.now.shelf.now) row) c) (element_at S.Symbol.Field.algebra S.Symbol.Field.meaning (S.Shelf.contents self.now.shelf.now) row (self.now.sizes.block_length + c))) }
    {
        (0..self.sizes.card_length).find(|c| self.wrong_component(row, *c))
    }

    // The verdict of one row: a hole, failing that a card that is not fresh, otherwise sound.
    pub fn audit(&self, row: usize) -> Verdict
        ensures { self.now.sizes.block_length + self.now.sizes.card_length < 2 ^ 64 → result ≡ audited S.Symbol.Field.algebra (shown S.Shelf.contents S.Symbol.Field.meaning self.now) row }
    {
        if let Some(place) = self.lowest_hole(row, 0, self.sizes.places()) {
            return Verdict::Hole(place);
        }
        match self.lowest_wrong_component(row) {
            Some(component) => Verdict::Card(component),
            None => Verdict::Sound,
        }
    }

    // The lowest parity row that is not sound, by its index, with its verdict.
    pub fn first_unsound_parity(&self) -> Option<(usize, Verdict)>
        ensures { self.now.sizes.data_rows + self.now.sizes.parity_rows < 2 ^ 64 → self.now.sizes.block_length + self.now.sizes.card_length < 2 ^ 64 → result ≡ option_map (λ i. (i, audited S.Symbol.Field.algebra (shown S.Shelf.contents S.Symbol.Field.meaning self.now) (self.now.sizes.data_rows + i))) (lowest self.now.sizes.parity_rows (λ i. not (sound S.Symbol.Field.algebra (shown S.Shelf.contents S.Symbol.Field.meaning self.now) (self.now.sizes.data_rows + i)))) }
    {
        (0..self.sizes.parity_rows).find_map(|i| {
            let verdict = self.audit(self.sizes.parity_row(i));
            (!verdict.is_sound()).then_some((i, verdict))
        })
    }
}

// The rows of a tray, to be put to: a shelf on loan, and the tray's sizes.
#[derive(Drop)]
pub struct GroupMut<'a, S> {
    pub shelf: &'a mut S,
    pub sizes: Sizes,
}

impl<'a, S: Shelf> GroupMut<'a, S>
where
    S::Symbol: Field,
{
    // The same rows, to be read.
    pub fn read(&self) -> Group<'_, S>
        ensures shelf { result.shelf.now ≡ self.now.shelf.now }
        ensures sizes { result.sizes ≡ self.now.sizes }
    {
        Group {
            shelf: self.shelf,
            sizes: self.sizes,
        }
    }

    // Puts the card of one row, worked afresh.
    pub fn put_card(&mut self, row: usize)
        ensures same { SameGroup self.old self.new }
        ensures cards { CardPut S.Symbol.Field.algebra S.Symbol.Field.meaning self.old.sizes row (S.Shelf.contents self.old.shelf.now) (S.Shelf.contents self.new.shelf.now) }
        ensures puts { let sizes = self.old.sizes in sizes.block_length + sizes.card_length < 2 ^ 64 → PutsAt S.Shelf.stores self.old.shelf.now (places_of row sizes.block_length sizes.card_length) self.new.shelf.now }
    {
        for index in 0..self.sizes.card_length {
            let component = self.read().fresh_component(row, index);
            let _ = self.shelf.put(row, self.sizes.card_place(index), component);
        }
    }

    // Puts the card of every row, worked afresh.
    pub fn put_cards(&mut self)
        ensures same { SameGroup self.old self.new }
        ensures cards { CardsPut S.Symbol.Field.algebra S.Symbol.Field.meaning self.old.sizes (S.Shelf.contents self.old.shelf.now) (S.Shelf.contents self.new.shelf.now) }
        ensures puts { let sizes = self.old.sizes in sizes.data_rows + sizes.parity_rows < 2 ^ 64 → sizes.block_length + sizes.card_length < 2 ^ 64 → PutsAt S.Shelf.stores self.old.shelf.now (card_places sizes (sizes.data_rows + sizes.parity_rows)) self.new.shelf.now }
    {
        for row in 0..self.sizes.rows() {
            self.put_card(row);
        }
    }
}
