// A shelf over another one that writes down each put, to see the order in which an intake and a write put.
ghost use Rattle.std.specs.Prelude.{◌≡◌};
ghost use Rattle.ffi.specs.Recorded.{Lent, Recording};

use crate::answers::write_down;
use algebra::Field;
use shelves::{Got, Outside, Shelf};

// Each put is a row, a place and a number, written down where there is room. C reads how many there were beside them.
// The room is the caller's, with a count beside it, and no Vec: there is no heap below the programs.
#[derive(Drop)]
pub struct Recorded<'a, S> {
    inner: S,
    puts: &'a mut [usize],
    count: usize,
}

impl<'a, S> Recorded<'a, S> {
    pub(crate) fn over(inner: S, puts: &'a mut [usize]) -> Recorded<'a, S>
        ensures { Lent inner puts.entry result }
    {
        Recorded {
            inner,
            puts,
            count: 0,
        }
    }

    // Gives back what it was given, as the puts left it, and how many they were.
    pub(crate) fn into_parts(self) -> (S, &'a mut [usize], usize)
        ensures inner { result.0 ≡ self.entry.inner }
        ensures puts { result.1 ≡ self.entry.puts }
        ensures count { result.2 ≡ self.entry.count }
    {
        (self.inner, self.puts, self.count)
    }
}

impl<'a, S: Shelf> Shelf for Recorded<'a, S>
where
    S::Symbol: Field,
{
    type Symbol = S::Symbol;

    ghost contents = { λ s. S.Shelf.contents s.inner };

    ghost stores = { Recording S.Shelf.stores S.Shelf.contents (λ symbol. S.Symbol.Field.algebra.number (S.Symbol.Field.meaning symbol)) };

    fn rows(&self) -> usize {
        self.inner.rows()
    }

    fn places(&self) -> usize {
        self.inner.places()
    }

    fn get(&self, row: usize, place: usize) -> Got<S::Symbol> {
        self.inner.get(row, place)
    }

    fn put(&mut self, row: usize, place: usize, symbol: S::Symbol) -> Result<(), Outside> {
        // By a range cut to the room: of a slice that `get_mut` was asked of, no proof knows what it ends as.
        let at = self.count.saturating_mul(3).min(self.puts.len());
        write_down(&mut self.puts[at..], &[row, place, symbol.number()]);
        self.count = self.count.saturating_add(1);
        self.inner.put(row, place, symbol)
    }
}
