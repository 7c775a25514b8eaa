// Symbols and marks in two pieces of memory, row after row.
ghost use Rattle.std.specs.Prelude.{◌≡◌};
ghost use Rattle.shelves.specs.Contents.{get_answer, put_answer, after_put};
ghost use Rattle.shelves.specs.Memory.{memory, sized, spot_in, put_in, SpotWithin};

use crate::{Got, Outside};

// The sizes that a shelf was given for its memory. The memory, symbols and marks side by side as the project's rules have them, is passed to each method: one
// shelf lends it and another owns it, so each has its own line for each call.
// A mark of 1 means a symbol, any other a hole. Over memory of another size than rows × places there are no rows and no places.
#[derive(Clone, Copy)]
pub struct Grid {
    pub rows: usize,
    pub places: usize,
}

impl Grid {
    // Whether the memory has the size of the rows.
    fn fits<T>(self, symbols: &[T], marks: &[u8]) -> bool
        ensures { result ≡ sized self.rows self.places symbols.now marks.now }
    {
        self.rows
            .checked_mul(self.places)
            .is_some_and(|size| size == symbols.len() && size == marks.len())
    }

    // The sizes that the memory bears out.
    pub fn held<T>(self, symbols: &[T], marks: &[u8]) -> Grid
        ensures rows { result.rows ≡ (memory self.rows self.places symbols.now marks.now).rows }
        ensures places { result.places ≡ (memory self.rows self.places symbols.now marks.now).places }
    {
        if self.fits(symbols, marks) {
            self
        } else {
            Grid { rows: 0, places: 0 }
        }
    }

    // Where the symbol and the mark of a row and a place lie, if the memory has them.
    pub fn spot<T>(self, symbols: &[T], marks: &[u8], row: usize, place: usize) -> Option<usize>
        ensures is { result ≡ spot_in self.rows self.places symbols.now marks.now row place }
        ensures within { SpotWithin symbols.now marks.now result }
    {
        if self.fits(symbols, marks) && row < self.rows && place < self.places {
            Some(row * self.places + place)
        } else {
            None
        }
    }

    #[tactic(auto, using(crate::proofs::Arrays::got_symbol))]
    pub fn get<T: Copy>(self, symbols: &[T], marks: &[u8], row: usize, place: usize) -> Got<T>
        ensures { result ≡ get_answer (memory self.rows self.places symbols.now marks.now) row place }
    {
        match self.spot(symbols, marks, row, place) {
            None => Got::Outside,
            Some(at) if marks[at] == 1 => Got::Symbol(symbols[at]),
            Some(_) => Got::Hole,
        }
    }

    pub fn put<T: Copy>(
        self,
        symbols: &mut [T],
        marks: &mut [u8],
        row: usize,
        place: usize,
        symbol: T,
    ) -> Result<(), Outside>
        ensures answer { result ≡ put_answer (memory self.rows self.places symbols.old marks.old) row place }
        ensures after { memory self.rows self.places symbols.new marks.new ≡ after_put (memory self.rows self.places symbols.old marks.old) row place symbol }
        ensures symbols { symbols.new ≡ put_in (spot_in self.rows self.places symbols.old marks.old row place) symbol symbols.old }
        ensures marks { marks.new ≡ put_in (spot_in self.rows self.places symbols.old marks.old row place) 1 marks.old }
    {
        let at = self.spot(symbols, marks, row, place).ok_or(Outside)?;
        symbols[at] = symbol;
        marks[at] = 1;
        Ok(())
    }
}
