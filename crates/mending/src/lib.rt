// What mend works with: which rows are not sound, with which weights their symbols follow from rows that are, the first place that does not fit, and the puts.
#![tactic(auto)]

ghost use Rattle.std.specs.Prelude.{◌≡◌, ℕ, ◌+◌, ◌-◌, ◌^◌, ◌<◌, ◌≤◌, true, min, count_by};
ghost use Rattle.std.specs.List.{range_with_len};
ghost use Rattle.algebra.specs.Below.{Below};
ghost use Rattle.rows.specs.Cards.{Holds};
ghost use Rattle.rows.specs.Shown.{shown, SameGroup};
ghost use Rattle.rules.specs.Codes.{differ};
ghost use Rattle.rules.specs.Search.{counted, lowest, lowest_pair};
ghost use Rattle.rules.specs.States.{fits, with_cells};
ghost use Rattle.rules.specs.Updates.{Worked, worked_misfit, mended_cells};
ghost use Rattle.rules.specs.Views.{element_at, seen, seen_contents};
ghost use Rattle.shelves.specs.Puts.{PutsAt, places_of};
ghost use Rattle.rules.specs.Order.{whole_places, mended_places};
ghost use Rattle.mending.specs.Plans.{flag, Gathered, Ready, ReadyFor};
ghost use Rattle.mending.specs.Puts.{weighted_sum, block_cells, row_cells};
ghost use Rattle.mending.specs.Stored.{stored as stored_at};

mod picks;
mod plans;
mod solver;

use algebra::Field;
pub use plans::Plan;
use rows::{Group, GroupMut};
use shelves::Shelf;

// The rows that are not sound, the lowest four of them, and how many there are in all. By the project's rules they are gathered by value, in an array
// of four with a count beside it.
#[derive(Clone, Copy)]
pub struct Damage {
    rows: [usize; 4],
    pub count: usize,
}

impl Damage {
    // Whether a row is sound, where at most four rows are not.
    fn is_sound(&self, row: usize) -> bool
        ensures { result ≡ flag self.now row }
    {
        !self.rows[..self.count.min(4)].contains(&row)
    }

    // How many of so many rows from a start on are sound.
    fn sound_among(&self, start: usize, bound: usize) -> usize
        ensures { result ≡ count_by (λ i. flag self.now (min (start + i) (2 ^ 64 - 1))) (range_with_len 0 bound) }
    {
        (0..bound)
            .filter(|i| self.is_sound(start.saturating_add(*i)))
            .count()
    }
}

// Audits all rows, and gathers those that are not sound.
pub fn gather<S: Shelf>(group: &Group<'_, S>) -> Damage
where
    S::Symbol: Field,
    ensures { let F = S.Symbol.Field.algebra in let s = shown S.Shelf.contents S.Symbol.Field.meaning group.now in fits F s ≡ true → Gathered F s result }
{
    let mut rows = [0; 4];
    let mut count: usize = 0;
    // Counted by hand: the count goes on where the array is full.
    for row in 0..group.sizes.rows() {
        if !group.audit(row).is_sound() {
            if count < 4 {
                rows[count] = row;
            }
            count += 1;
        }
    }
    Damage { rows, count }
}

// A row, and the weights with which its symbols follow from those of all rows: by their numbers, as in a plan, and one for each row that a tray could have.
#[derive(Drop)]
struct WorkedRow {
    row: usize,
    weights: [usize; 68],
}

impl WorkedRow {
    // The row's symbol at a place, as worked. A row without weight is not read: it may be one that cannot be.
    fn symbol<S: Shelf>(&self, group: &Group<'_, S>, place: usize) -> S::Symbol
    where
        S::Symbol: Field,
        ensures { let sizes = group.now.sizes in
            S.Symbol.Field.meaning result ≡ weighted_sum S.Symbol.Field.algebra S.Symbol.Field.meaning (S.Shelf.contents group.now.shelf.now) (stored_at S.Symbol.Field.algebra self.now.weights) (sizes.data_rows + sizes.parity_rows) place }
    {
        let mut sum: S::Symbol = <S::Symbol>::zero();
        for (source, number) in self.weights.iter().enumerate().take(group.sizes.rows()) {
            let weight: S::Symbol = rows::element(*number);
            if !weight.equals(<S::Symbol>::zero()) {
                sum = sum.sum(weight.product(rows::symbol_at(group.shelf, source, place)));
            }
        }
        sum
    }

    // Whether the row does not hold its symbol at a place.
    fn differs_at<S: Shelf>(&self, group: &Group<'_, S>, place: usize) -> bool
    where
        S::Symbol: Field,
        ensures { let sizes = group.now.sizes in
            result ≡ differ S.Symbol.Field.algebra
            (weighted_sum S.Symbol.Field.algebra S.Symbol.Field.meaning (S.Shelf.contents group.now.shelf.now) (stored_at S.Symbol.Field.algebra self.now.weights) (sizes.data_rows + sizes.parity_rows) place)
            (element_at S.Symbol.Field.algebra S.Symbol.Field.meaning (S.Shelf.contents group.now.shelf.now) self.now.row place) }
    {
        !self
            .symbol(group, place)
            .equals(rows::symbol_at(group.shelf, self.row, place))
    }

    // The lowest place of the row's block where it does not hold its symbol.
    fn first_difference<S: Shelf>(&self, group: &Group<'_, S>) -> Option<usize>
    where
        S::Symbol: Field,
        ensures { let sizes = group.now.sizes in
            result ≡ lowest sizes.block_length (λ place. differ S.Symbol.Field.algebra
            (weighted_sum S.Symbol.Field.algebra S.Symbol.Field.meaning (S.Shelf.contents group.now.shelf.now) (stored_at S.Symbol.Field.algebra self.now.weights) (sizes.data_rows + sizes.parity_rows) place)
            (element_at S.Symbol.Field.algebra S.Symbol.Field.meaning (S.Shelf.contents group.now.shelf.now) self.now.row place)) }
    {
        (0..group.sizes.block_length).find(|place| self.differs_at(group, *place))
    }

    // Puts the row's block: at each place its symbol.
    fn put_block<S: Shelf>(&self, group: &mut GroupMut<'_, S>)
    where
        S::Symbol: Field,
        ensures same { SameGroup group.old group.new }
        ensures block { let F = S.Symbol.Field.algebra in let meaning = S.Symbol.Field.meaning in let sizes = group.old.sizes in let before = S.Shelf.contents group.old.shelf.now in
            self.now.row < sizes.data_rows + sizes.parity_rows → Holds F meaning sizes before (block_cells F meaning sizes (stored_at F self.now.weights) self.now.row before sizes.block_length) (S.Shelf.contents group.new.shelf.now) }
        ensures puts { PutsAt S.Shelf.stores group.old.shelf.now (places_of self.now.row 0 group.old.sizes.block_length) group.new.shelf.now }
    {
        for place in 0..group.sizes.block_length {
            let symbol = self.symbol(&group.read(), place);
            let _ = group.shelf.put(self.row, place, symbol);
        }
    }

    // Puts the row, block and card.
    fn put<S: Shelf>(&self, group: &mut GroupMut<'_, S>)
    where
        S::Symbol: Field,
        ensures same { SameGroup group.old group.new }
        ensures cells { let F = S.Symbol.Field.algebra in let meaning = S.Symbol.Field.meaning in let sizes = group.old.sizes in let before = S.Shelf.contents group.old.shelf.now in
            self.now.row < sizes.data_rows + sizes.parity_rows → Holds F meaning sizes before (row_cells F meaning sizes (stored_at F self.now.weights) self.now.row before) (S.Shelf.contents group.new.shelf.now) }
        ensures puts { let sizes = group.old.sizes in sizes.block_length + sizes.card_length < 2 ^ 64 → PutsAt S.Shelf.stores group.old.shelf.now (whole_places sizes self.now.row) group.new.shelf.now }
    {
        self.put_block(group);
        group.put_card(self.row);
    }
}

// The lowest place of the block where parity row i is sound and does not fit the data rows as worked. A row that is used fits, since they are worked from it.
fn row_misfit<S: Shelf>(
    group: &Group<'_, S>,
    damage: &Damage,
    plan: &Plan,
    i: usize,
) -> Option<usize>
where
    S::Symbol: Field,
    ensures { let F = S.Symbol.Field.algebra in let s = shown S.Shelf.contents S.Symbol.Field.meaning group.now in
        ReadyFor F s damage.now plan.now → i < group.now.sizes.parity_rows → (blocks : ℕ → ℕ → Below S.Symbol.Field.size) → Worked F s blocks → result ≡ lowest group.now.sizes.block_length (worked_misfit F s blocks i) }
{
    let row = group.sizes.parity_row(i);
    if !damage.is_sound(row) || plan.is_used(group.sizes, damage, i) {
        return None;
    }
    plan.worked_row::<S::Symbol>(group.sizes, damage, row)
        .first_difference(group)
}

// The first place of the first sound parity row that does not fit the data rows as worked, by parity row and then by place of the block. The parity row
// is named by its index i, not by its row k + i. Which rows are sound is said by the damage beside the plan.
pub fn first_worked_misfit_for<S: Shelf>(
    group: &Group<'_, S>,
    damage: &Damage,
    plan: &Plan,
) -> Option<(usize, usize)>
where
    S::Symbol: Field,
    ensures { let F = S.Symbol.Field.algebra in let s = shown S.Shelf.contents S.Symbol.Field.meaning group.now in
        ReadyFor F s damage.now plan.now → (blocks : ℕ → ℕ → Below S.Symbol.Field.size) → Worked F s blocks → result ≡ lowest_pair group.now.sizes.parity_rows group.now.sizes.block_length (worked_misfit F s blocks) }
{
    (0..group.sizes.parity_rows).find_map(|i| {
        row_misfit(group, damage, plan, i).map(|place| (i, place))
    })
}

// The same by the damage that the plan is made for.
pub fn first_worked_misfit<S: Shelf>(group: &Group<'_, S>, plan: &Plan) -> Option<(usize, usize)>
where
    S::Symbol: Field,
    ensures { let F = S.Symbol.Field.algebra in let s = shown S.Shelf.contents S.Symbol.Field.meaning group.now in
        Ready F s plan.now → (blocks : ℕ → ℕ → Below S.Symbol.Field.size) → Worked F s blocks → result ≡ lowest_pair group.now.sizes.parity_rows group.now.sizes.block_length (worked_misfit F s blocks) }
{
    first_worked_misfit_for(group, plan.damage(), plan)
}

// Puts every row that the damage beside the plan says is not sound, block and card: lost data rows as worked, and parity rows from all data rows.
pub fn put_rows_for<S: Shelf>(group: &mut GroupMut<'_, S>, damage: &Damage, plan: &Plan)
where
    S::Symbol: Field,
    ensures same { SameGroup group.old group.new }
    ensures mended { let F = S.Symbol.Field.algebra in let meaning = S.Symbol.Field.meaning in let s = seen meaning group.old.sizes (S.Shelf.contents group.old.shelf.now) in
        ReadyFor F s damage.now plan.now → (blocks : ℕ → ℕ → Below S.Symbol.Field.size) → Worked F s blocks → seen_contents meaning (S.Shelf.contents group.new.shelf.now) ≡ (with_cells s (mended_cells F s blocks)).contents }
    ensures puts { let F = S.Symbol.Field.algebra in let s = seen S.Symbol.Field.meaning group.old.sizes (S.Shelf.contents group.old.shelf.now) in
        ReadyFor F s damage.now plan.now → PutsAt S.Shelf.stores group.old.shelf.now (mended_places F s (group.old.sizes.data_rows + group.old.sizes.parity_rows)) group.new.shelf.now }
{
    for row in 0..group.sizes.rows() {
        if !damage.is_sound(row) {
            let worked = plan.worked_row::<S::Symbol>(group.sizes, damage, row);
            worked.put(group);
        }
    }
}

// The same by the damage that the plan is made for.
pub fn put_rows<S: Shelf>(group: &mut GroupMut<'_, S>, plan: &Plan)
where
    S::Symbol: Field,
    ensures same { SameGroup group.old group.new }
    ensures mended { let F = S.Symbol.Field.algebra in let meaning = S.Symbol.Field.meaning in let s = seen meaning group.old.sizes (S.Shelf.contents group.old.shelf.now) in
        Ready F s plan.now → (blocks : ℕ → ℕ → Below S.Symbol.Field.size) → Worked F s blocks → seen_contents meaning (S.Shelf.contents group.new.shelf.now) ≡ (with_cells s (mended_cells F s blocks)).contents }
    ensures puts { let F = S.Symbol.Field.algebra in let s = seen S.Symbol.Field.meaning group.old.sizes (S.Shelf.contents group.old.shelf.now) in
        Ready F s plan.now → PutsAt S.Shelf.stores group.old.shelf.now (mended_places F s (group.old.sizes.data_rows + group.old.sizes.parity_rows)) group.new.shelf.now }
{
    put_rows_for(group, plan.damage(), plan);
}
