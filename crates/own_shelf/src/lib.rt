// A shelf over memory of its own. Unlike lent memory it can be damaged by whoever holds the shelf, so that tests and programs can exchange a tray's shelf for a damaged one.
#![tactic(auto)]

ghost use Rattle.std.specs.Prelude.{◌≡◌};
ghost use Rattle.shelves.specs.Memory.{memory};
ghost use Rattle.own_shelf.specs.Own.{own_contents, with_hole};

use shelves::{Got, Grid, Outside, Shelf};

// Symbols and marks are two vectors, since the grid takes them as two slices.
#[derive(Drop)]
pub struct OwnShelf<T> {
    grid: Grid,
    symbols: Vec<T>,
    marks: Vec<u8>,
}

impl<T: Copy> OwnShelf<T> {
    pub fn over(rows: usize, places: usize, symbols: Vec<T>, marks: Vec<u8>) -> OwnShelf<T>
        ensures { own_contents result ≡ memory rows places symbols.items marks.items }
    {
        OwnShelf {
            grid: Grid { rows, places },
            symbols,
            marks,
        }
    }

    // Makes a hole, as damage does; the symbol stays in memory, unread.
    pub fn lose(&mut self, row: usize, place: usize)
        ensures { own_contents self.new ≡ with_hole (own_contents self.old) row place }
    {
        if let Some(at) = self.grid.spot(&self.symbols, &self.marks, row, place) {
            self.marks[at] = 0;
        }
    }
}

// A line for each call, as in the shelf over lent memory: vectors and lent slices are two types, and what they share is the grid.
impl<T: Copy> Shelf for OwnShelf<T> {
    type Symbol = T;

    ghost contents = { own_contents };

    fn rows(&self) -> usize {
        self.grid.held(&self.symbols, &self.marks).rows
    }

    fn places(&self) -> usize {
        self.grid.held(&self.symbols, &self.marks).places
    }

    fn get(&self, row: usize, place: usize) -> Got<T> {
        self.grid.get(&self.symbols, &self.marks, row, place)
    }

    fn put(&mut self, row: usize, place: usize, symbol: T) -> Result<(), Outside> {
        self.grid
            .put(&mut self.symbols, &mut self.marks, row, place, symbol)
    }
}
