// A shelf over lent memory: symbols and marks, row after row.
ghost use Rattle.std.specs.Prelude.{◌≡◌};
ghost use Rattle.shelves.specs.Array.{array_contents, Lent, Stored};
ghost use Rattle.shelves.specs.Contents.{put_answer, after_put};
ghost use Rattle.shelves.specs.Memory.{memory};

use crate::{Got, Grid, Outside, Shelf};

// Symbols and marks are two slices, side by side, as the rules have them lent.
#[derive(Drop)]
pub struct ArrayShelf<'a, T> {
    grid: Grid,
    symbols: &'a mut [T],
    marks: &'a mut [u8],
}

impl<'a, T: Copy> ArrayShelf<'a, T> {
    pub fn over(
        rows: usize,
        places: usize,
        symbols: &'a mut [T],
        marks: &'a mut [u8],
    ) -> ArrayShelf<'a, T>
        ensures contents { array_contents result ≡ memory rows places symbols.old marks.old }
        ensures lent { Lent rows places symbols.entry marks.entry result }
    {
        ArrayShelf {
            grid: Grid { rows, places },
            symbols,
            marks,
        }
    }
}

// A line for each call, as in the shelf over memory of its own: lent slices and vectors are two types, and what they share is the grid.
impl<'a, T: Copy> Shelf for ArrayShelf<'a, T> {
    type Symbol = T;

    ghost contents = { array_contents };

    ghost stores = { Stored };

    fn rows(&self) -> usize {
        self.grid.held(self.symbols, self.marks).rows
    }

    fn places(&self) -> usize {
        self.grid.held(self.symbols, self.marks).places
    }

    fn get(&self, row: usize, place: usize) -> Got<T> {
        self.grid.get(self.symbols, self.marks, row, place)
    }

    fn put(&mut self, row: usize, place: usize, symbol: T) -> Result<(), Outside>
        ensures answer { result ≡ put_answer (array_contents self.old) row place }
        ensures after { array_contents self.new ≡ after_put (array_contents self.old) row place symbol }
        ensures stored { Stored self.old row place symbol self.new }
    {
        self.grid.put(self.symbols, self.marks, row, place, symbol)
    }
}
