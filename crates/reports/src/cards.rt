// Intake of a new tray over any shelf, and the cards that it leaves, by their numbers.

ghost use Rattle.std.specs.Prelude.{◌≡◌, ◌+◌, ◌<◌, ◌≤◌, OnErr};
ghost use Rattle.reports.specs.Cards.{cards_of, numbers_of, listed, component_number, OutcomeOf, ContentsLeft};
ghost use Rattle.rules.specs.Views.{seen, seen_contents};
ghost use Rattle.shelves.specs.Puts.{ByPuts};

use algebra::Field;
use rows::{Group, symbol_at};
use rules::{Refusal, Sizes};
use shelves::Shelf;
use std::array;
use tray::Tray;

// The numbers of a card's components, and zeros beyond them.
#[derive(Clone, Copy, PartialEq, Eq, Debug)]
pub struct Card {
    pub numbers: [usize; 8],
}

// The cards of a tray's rows, of so many components each, and zeros beyond the rows.
// Fixed tables with counts: there is no heap below the program, and the largest tray has 68 rows of 8 components.
#[derive(PartialEq, Eq, Debug, Drop)]
pub struct Cards {
    pub rows: usize,
    pub components: usize,
    pub cards: [Card; 68],
}

impl Cards {
    // The numbers of a row's components; none beyond the table.
    pub fn numbers_of(&self, row: usize) -> &[usize]
        ensures { result.now ≡ numbers_of self.now row }
    {
        match self.cards.get(row) {
            Some(card) => &card.numbers[..self.components.min(8)],
            None => &[],
        }
    }
}

// The card that stands in a row below the tray's rows.
fn read_card<S: Shelf>(group: &Group<'_, S>, row: usize) -> Card
where
    S::Symbol: Field,
    ensures { row < group.now.sizes.data_rows + group.now.sizes.parity_rows → group.now.sizes.block_length ≤ 4096 → group.now.sizes.card_length ≤ 8 → result.numbers ≡ listed 8 (component_number S.Symbol.Field.algebra (seen S.Symbol.Field.meaning group.now.sizes (S.Shelf.contents group.now.shelf.now)) row) }
{
    Card {
        numbers: rows::numbers_of(group.sizes.card_length, |c| {
            symbol_at(group.shelf, row, group.sizes.card_place(c))
        }),
    }
}

// The cards that stand on a shelf.
fn read_cards<S: Shelf>(group: &Group<'_, S>) -> Cards
where
    S::Symbol: Field,
    ensures { group.now.sizes.data_rows ≤ 64 → group.now.sizes.parity_rows ≤ 4 → group.now.sizes.block_length ≤ 4096 → group.now.sizes.card_length ≤ 8 → result ≡ cards_of S.Symbol.Field.algebra (seen S.Symbol.Field.meaning group.now.sizes (S.Shelf.contents group.now.shelf.now)) }
{
    let rows = group.sizes.rows();
    Cards {
        rows,
        components: group.sizes.card_length,
        cards: array::from_fn(|row| {
            if row < rows {
                read_card(group, row)
            } else {
                Card { numbers: [0; 8] }
            }
        }),
    }
}

// Takes in a new tray of these sizes over a shelf, and gives the shelf back beside the cards.
pub fn take_in<S: Shelf>(shelf: S, sizes: Sizes) -> (Result<Cards, Refusal>, S)
where
    S::Symbol: Field,
    ensures outcome { OutcomeOf S.Symbol.Field.algebra (seen S.Symbol.Field.meaning sizes (S.Shelf.contents shelf)) result.0 }
    ensures left { ContentsLeft S.Symbol.Field.algebra (seen S.Symbol.Field.meaning sizes (S.Shelf.contents shelf)) result.0 (seen_contents S.Symbol.Field.meaning (S.Shelf.contents result.1)) }
    ensures puts { ByPuts S.Shelf.stores shelf result.1 }
    ensures refused { OnErr result.0 (result.1 ≡ shelf) }
{
    let mut tray = Tray::over(shelf, sizes);
    let taken = tray.intake();
    let shelf = tray.into_shelf();
    let cards = taken.map(|()| read_cards(&Group {
        shelf: &shelf,
        sizes,
    }));
    (cards, shelf)
}
