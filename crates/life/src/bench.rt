// A bench: a tray over a shelf that can be taken out, damaged and put back between calls.
use algebra::Field;
use own_shelf::OwnShelf;
use rows::element;
use rules::{Refusal, Sizes, Verdict};
use shelves::Shelf;
use std::alloc::{AllocError, Global};
use tray::Tray;

// The numbers of the symbols of some rows; none where there is a hole.
pub type Rows = Vec<Vec<Option<usize>>>;

#[derive(Drop)]
pub struct Bench<F: Field> {
    pub tray: Tray<OwnShelf<F>>,
    pub sizes: Sizes,
    pub heap: Global,
}

// What happens to a row while no call runs.
#[derive(Clone, Copy)]
pub enum Damage {
    // A hole at a place.
    Hole(usize),
    // One is added to so many symbols, from a place on.
    Wrong(usize, usize),
    // The symbol of a number is put at a place, by another hand than the tray's.
    Put(usize, usize),
}

fn add_one<F: Field>(shelf: &mut OwnShelf<F>, row: usize, place: usize) {
    if let Some(symbol) = shelf.get(row, place).symbol() {
        let _ = shelf.put(row, place, symbol.sum(F::one()));
    }
}

fn damage_shelf<F: Field>(shelf: &mut OwnShelf<F>, row: usize, damage: Damage) {
    match damage {
        Damage::Hole(place) => shelf.lose(row, place),
        Damage::Wrong(start, count) => {
            for place in start..start.saturating_add(count) {
                add_one(shelf, row, place);
            }
        }
        Damage::Put(place, number) => {
            let _ = shelf.put(row, place, element(number));
        }
    }
}

impl<F: Field> Bench<F> {
    // A tray of these sizes over a shelf of zeros, every place with this mark.
    pub fn over_zeros(heap: Global, sizes: Sizes, mark: u8) -> Result<Bench<F>, AllocError> {
        let rows = sizes.rows();
        let places = sizes.places();
        let symbols = vec![in heap; F::zero(); rows.saturating_mul(places)]?;
        let marks = vec![in heap; mark; rows.saturating_mul(places)]?;
        let tray = Tray::over(OwnShelf::over(rows, places, symbols, marks), sizes);
        Ok(Bench { tray, sizes, heap })
    }

    // A tray with these blocks; every card place is a hole.
    pub fn with_blocks(
        heap: Global,
        sizes: Sizes,
        blocks: &[&[usize]],
    ) -> Result<Bench<F>, AllocError> {
        let mut bench = Bench::over_zeros(heap, sizes, 0)?;
        for (row, block) in blocks.iter().enumerate() {
            for (place, number) in block.iter().enumerate() {
                bench.damage(row, Damage::Put(place, *number));
            }
        }
        Ok(bench)
    }

    pub fn rows(&self) -> usize {
        self.sizes.rows()
    }

    pub fn write(
        &mut self,
        row: usize,
        start: usize,
        numbers: &[usize],
    ) -> Result<Result<(), Refusal>, AllocError> {
        let symbols: Vec<F> = numbers
            .iter()
            .map(|number| element(*number))
            .collect(self.heap)?;
        Ok(self.tray.write(row, start, &symbols))
    }

    // Takes the shelf out of the tray, which meanwhile has one of no rows.
    pub fn take_shelf(&mut self) -> OwnShelf<F> {
        let none = OwnShelf::over(0, 0, Vec::new(self.heap), Vec::new(self.heap));
        self.tray.replace_shelf(none)
    }

    pub fn put_back(&mut self, shelf: OwnShelf<F>) {
        let _ = self.tray.replace_shelf(shelf);
    }

    // Takes the shelf out, hands it over, and puts it back.
    fn with_shelf<R, V: FnOnce(&mut OwnShelf<F>) -> R>(&mut self, visit: V) -> R
        requires { V.IsAlwaysCallable visit }
    {
        let mut shelf = self.take_shelf();
        let given = visit(&mut shelf);
        self.put_back(shelf);
        given
    }

    pub fn damage(&mut self, row: usize, damage: Damage) {
        self.with_shelf(|shelf| damage_shelf(shelf, row, damage));
    }

    // The numbers of a row's symbols.
    pub fn row(&mut self, row: usize) -> Result<Vec<Option<usize>>, AllocError> {
        let heap = self.heap;
        self.with_shelf(|shelf| {
            (0..shelf.places())
                .map(|place| number_at(shelf, row, place))
                .collect(heap)
        })
    }

    // The numbers of all rows.
    pub fn all(&mut self) -> Result<Rows, AllocError> {
        let mut all = Vec::new(self.heap);
        for row in 0..self.rows() {
            all.push(self.row(row)?)?;
        }
        Ok(all)
    }

    pub fn all_sound(&self) -> bool {
        (0..self.rows()).all(|row| self.tray.audit(row) == Ok(Verdict::Sound))
    }

    // Puts symbols of these numbers in a row; where there is none, the place stays as it is.
    pub fn put_row(&mut self, row: usize, numbers: &[Option<usize>]) {
        for (place, number) in numbers.iter().enumerate() {
            if let Some(number) = number {
                self.damage(row, Damage::Put(place, *number));
            }
        }
    }

    // Puts a row as it was, from the numbers of all rows.
    pub fn restore(&mut self, row: usize, all: &Rows) {
        if let Some(numbers) = all.get(row) {
            self.put_row(row, numbers);
        }
    }

    pub fn restore_all(&mut self, all: &Rows) {
        for (row, numbers) in all.iter().enumerate() {
            self.put_row(row, numbers);
        }
    }
}

fn number_at<F: Field>(shelf: &OwnShelf<F>, row: usize, place: usize) -> Option<usize> {
    shelf.get(row, place).symbol().map(|symbol| symbol.number())
}
