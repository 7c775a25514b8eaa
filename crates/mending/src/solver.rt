// Systems of the parity coefficients, solved by elimination. Arrays hold elements by their numbers, since Rattle has no array of a type parameter here.

ghost use Rattle.std.specs.Prelude.{◌≡◌, ℕ, ◌-◌, ◌<◌, ◌≤◌};
ghost use Rattle.algebra.specs.Algebra.{minus};
ghost use Rattle.algebra.specs.Cauchy.{row, solve as solve_of};
ghost use Rattle.mending.specs.Stored.{from, stored as stored_at, reduced_at, grown_at};

use algebra::Field;
use rows::numbers_of;
use std::array;

// The element at an index, and zero beyond the array.
pub(crate) fn stored<F: Field>(numbers: &[usize], index: usize) -> F
    ensures { F.Field.meaning result ≡ stored_at F.Field.algebra numbers.now index }
{
    rows::element(numbers.get(index).copied().unwrap_or(0))
}

// A system of parity coefficients: the points of its rows and of its columns, in arrays of four with their size beside them, since there is no heap below
// the programs.
#[derive(Clone, Copy)]
pub(crate) struct System {
    pub(crate) rows: [usize; 4],
    pub(crate) columns: [usize; 4],
    pub(crate) size: usize,
    ghost small: { size ≤ 4 },
}

impl System {
    fn row<F: Field>(&self, i: usize) -> F
        ensures { F.Field.meaning result ≡ stored_at F.Field.algebra self.now.rows i }
    {
        stored(&self.rows, i)
    }

    fn column<F: Field>(&self, j: usize) -> F
        ensures { F.Field.meaning result ≡ stored_at F.Field.algebra self.now.columns j }
    {
        stored(&self.columns, j)
    }

    // The elements with those after index `first` that the system has worked anew.
    fn after<F: Field, W: Fn(usize) -> F>(
        &self,
        first: usize,
        elements: [usize; 4],
        work: W,
    ) -> [usize; 4]
        requires { W.IsAlwaysCallable work }
        ensures here { (i : ℕ) → first < i → i < self.now.size → (x : F) × W.post work i x × (stored_at F.Field.algebra result i ≡ F.Field.meaning x) }
        ensures others { (i : ℕ) → i ≤ first → stored_at F.Field.algebra result i ≡ stored_at F.Field.algebra elements i }
    {
        array::from_fn(|i| {
            if first < i && i < self.size {
                work(i).number()
            } else {
                elements[i]
            }
        })
    }

    // The right-hand side from index `first` + 1 on, once row and column `first` are eliminated.
    fn reduced<F: Field>(&self, right: [usize; 4], first: usize) -> [usize; 4]
        ensures here { (i : ℕ) → first < i → i < self.now.size → stored_at F.Field.algebra result i ≡ reduced_at F.Field.algebra (stored_at F.Field.algebra self.now.rows) (stored_at F.Field.algebra self.now.columns) (stored_at F.Field.algebra right) first i }
        ensures others { (i : ℕ) → i ≤ first → stored_at F.Field.algebra result i ≡ stored_at F.Field.algebra right i }
    {
        let row: F = self.row(first);
        let column: F = self.column(first);
        let taken = row.difference(column).product(stored(&right, first));
        self.after(first, right, |i| {
            let other: F = self.row(i);
            let left = other.difference(column).product(stored(&right, i));
            row.difference(other)
                .inverse()
                .product(left.difference(taken))
        })
    }

    // The unknowns from index `first` + 1 on, back from those of the system in which row and column `first` are eliminated.
    fn grown<F: Field>(&self, unknowns: [usize; 4], first: usize) -> [usize; 4]
        ensures here { (j : ℕ) → first < j → j < self.now.size → stored_at F.Field.algebra result j ≡ grown_at F.Field.algebra (stored_at F.Field.algebra self.now.rows) (stored_at F.Field.algebra self.now.columns) (stored_at F.Field.algebra unknowns) first j }
        ensures others { (j : ℕ) → j ≤ first → stored_at F.Field.algebra result j ≡ stored_at F.Field.algebra unknowns j }
    {
        let row: F = self.row(first);
        let column: F = self.column(first);
        self.after(first, unknowns, |j| {
            let other: F = self.column(j);
            let scaled = other
                .difference(column)
                .inverse()
                .product(stored(&unknowns, j));
            row.difference(other).product(scaled)
        })
    }

    // The left-hand side of the equation at a row's point, of the unknowns from index `start` on.
    fn row_sum<F: Field>(&self, point: F, unknowns: &[usize; 4], start: usize) -> F
        ensures { start ≤ self.now.size → F.Field.meaning result ≡ row F.Field.algebra (self.now.size - start) (from start (stored_at F.Field.algebra self.now.columns)) (from start (stored_at F.Field.algebra unknowns.now)) (F.Field.meaning point) }
    {
        let terms = self
            .columns
            .iter()
            .zip(unknowns)
            .take(self.size)
            .skip(start);
        let mut sum: F = F::zero();
        for (column, unknown) in terms {
            let weight = point.difference(rows::element(*column)).inverse();
            sum = sum.sum(weight.product(rows::element(*unknown)));
        }
        sum
    }

    // The unknowns from index `first` on, of the system of the points from there on.
    fn solve<F: Field>(&self, right: [usize; 4], first: usize) -> [usize; 4]
        ensures here { (j : ℕ) → first ≤ j → j < self.now.size → stored_at F.Field.algebra result j ≡ solve_of F.Field.algebra (self.now.size - first) (from first (stored_at F.Field.algebra self.now.rows)) (from first (stored_at F.Field.algebra self.now.columns)) (from first (stored_at F.Field.algebra right)) (j - first) }
        ensures others { (j : ℕ) → j < first → stored_at F.Field.algebra result j ≡ stored_at F.Field.algebra right j }
    {
        if first >= self.size {
            return right;
        }
        let next = first + 1;
        let rest = self.solve::<F>(self.reduced::<F>(right, first), next);
        let mut unknowns = self.grown::<F>(rest, first);
        let row: F = self.row(first);
        let column: F = self.column(first);
        let sum = self.row_sum(row, &unknowns, next);
        let left: F = stored(&right, first);
        let value = row.difference(column).product(left.difference(sum));
        unknowns[first] = value.number();
        unknowns
    }

    // The solution of the system: the solution of the Cauchy system with each unknown divided by its column's scale.
    pub(crate) fn solution<F: Field>(&self, right: [usize; 4]) -> [usize; 4]
        ensures { (j : ℕ) → j < self.now.size → stored_at F.Field.algebra result j ≡ F.Field.algebra.mul (F.Field.algebra.inv (minus F.Field.algebra F.Field.algebra.zer (stored_at F.Field.algebra self.now.columns j))) (solve_of F.Field.algebra self.now.size (stored_at F.Field.algebra self.now.rows) (stored_at F.Field.algebra self.now.columns) (stored_at F.Field.algebra right) j) }
    {
        let unknowns = self.solve::<F>(right, 0);
        numbers_of(self.size, |j| {
            let scale = F::zero().difference(self.column(j));
            scale.inverse().product(stored(&unknowns, j))
        })
    }
}
