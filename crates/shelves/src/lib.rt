// Shelves: block devices seen as rows of symbols, some of which cannot be read.
#![tactic(auto)]

ghost use Rattle.std.specs.Prelude.{◌≡◌, ℕ};
ghost use Rattle.shelves.specs.Contents.{Contents, symbol_of, get_answer, put_answer, after_put};

mod array;
mod memory;

pub use array::ArrayShelf;
pub use memory::Grid;

// What get answers: the symbol at a place, a hole where it cannot be read, or that the place is beyond the sizes.
// Three answers side by side, as the rules have them: as a Result of an Option each reader would match twice.
#[derive(Clone, Copy, PartialEq, Eq, Debug)]
pub enum Got<T> {
    Symbol(T),
    Hole,
    Outside,
}

impl<T> Got<T> {
    // The symbol, where there is one to read.
    pub fn symbol(self) -> Option<T>
        ensures { result ≡ symbol_of self }
    {
        match self {
            Got::Symbol(symbol) => Some(symbol),
            Got::Hole | Got::Outside => None,
        }
    }
}

// Why put refuses: the place is beyond the sizes.
#[derive(Clone, Copy, PartialEq, Eq, Debug)]
pub struct Outside;

// A drive, by its contents: a number of rows, a number of places in each, and at each place a symbol or a hole.
// Nothing but a put in range changes the contents, and that changes its own place alone.
// The calls take a row and a place, as the rules name them: a pair would be made at each call only to be taken apart.
pub trait Shelf {
    type Symbol;

    ghost contents: { Self → Contents Self.Symbol };

    // What a put does to the shelf besides: where it lies over lent memory, say, what that memory holds then. A shelf that says nothing here owes nothing.
    ghost stores: { Self → ℕ → ℕ → Self.Symbol → Self → Type 0 } = { λ before row place x after. Unit {0} };

    fn rows(&self) -> usize
        ensures { result ≡ (contents self.now).rows };

    fn places(&self) -> usize
        ensures { result ≡ (contents self.now).places };

    fn get(&self, row: usize, place: usize) -> Got<Self::Symbol>
        ensures { result ≡ get_answer (contents self.now) row place };

    fn put(&mut self, row: usize, place: usize, symbol: Self::Symbol) -> Result<(), Outside>
        ensures answer { result ≡ put_answer (contents self.old) row place }
        ensures after { contents self.new ≡ after_put (contents self.old) row place symbol }
        ensures stored { stores self.old row place symbol self.new };
}

#[cfg(test)]
mod tests;
