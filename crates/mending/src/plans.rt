// Which rows a mend uses, and with which weights the symbols of rows that are not sound follow from the symbols of those. Weights are kept by their numbers,
// since Rattle has no array of a type parameter here.

ghost use Rattle.std.specs.Prelude.{ℕ, ◌<◌, slice_index};

use crate::picks::Picks;
use crate::solver::{System, stored};
use crate::{Damage, WorkedRow};
use algebra::Field;
use rows::numbers_of;
use rules::Sizes;

// Which data rows are lost, and the sound parity rows, of which the lowest stand in for them.
// That the sizes keep their limits (`RowsFit`) stays a premise of the clauses: calls make a plan only of a tray that fits, and a type that kept them would
// ask more of callers.
#[derive(Clone, Copy)]
struct Choice {
    sizes: Sizes,
    damage: Damage,
    lost: Picks,
    used: Picks,
    ghost lost_below: { (b : ℕ) → b < lost.count → slice_index lost.at b < sizes.data_rows },
}

impl Choice {
    ghost use Rattle.std.specs.Prelude.{◌≡◌, ◌+◌, ◌≤◌, not};
    ghost use Rattle.rules.specs.Search.{counted};
    ghost use Rattle.mending.specs.Picked.{Picked};
    ghost use Rattle.mending.specs.Plans.{flag, RowsFit, share as share_of, WorkedBy};

    fn new(sizes: Sizes, damage: Damage) -> Choice
        ensures sizes { result.sizes ≡ sizes }
        ensures damage { result.damage ≡ damage }
        ensures lost_count { counted sizes.data_rows (λ j. not (flag damage j)) ≤ 4 → result.lost.count ≡ counted sizes.data_rows (λ j. not (flag damage j)) }
        ensures lost_at { (b : ℕ) → b < result.lost.count → Picked sizes.data_rows (λ j. not (flag damage j)) b (slice_index result.lost.at b) }
        ensures used_count { sizes.data_rows + sizes.parity_rows ≤ 68 → counted sizes.parity_rows (λ i. flag damage (sizes.data_rows + i)) ≤ 4 → result.used.count ≡ counted sizes.parity_rows (λ i. flag damage (sizes.data_rows + i)) }
        ensures used_at { sizes.data_rows + sizes.parity_rows ≤ 68 → (a : ℕ) → a < result.used.count → Picked sizes.parity_rows (λ i. flag damage (sizes.data_rows + i)) a (slice_index result.used.at a) }
    {
        let lost = Picks::below(sizes.data_rows, |j| !damage.is_sound(j));
        let used = Picks::below(sizes.parity_rows, |i| damage.is_sound(sizes.parity_row(i)));
        Choice {
            sizes,
            damage,
            lost,
            used,
        }
    }

    // What a row counts on the right-hand side of parity row i's equation for the lost symbols.
    fn share<F: Field>(&self, i: usize, row: usize) -> F
        ensures { RowsFit F.Field.algebra self.now.sizes → i < 4 → F.Field.meaning result ≡ share_of F.Field.algebra self.now.sizes.data_rows (flag self.now.damage) i row }
    {
        if row < self.sizes.data_rows {
            if self.damage.is_sound(row) {
                F::zero().difference(rows::coefficient(i, row))
            } else {
                F::zero()
            }
        } else if row == self.sizes.parity_row(i) {
            F::one()
        } else {
            F::zero()
        }
    }

    // The weights of one row in the lost data rows.
    fn working<F: Field>(&self, row: usize) -> [usize; 4]
        ensures { WorkedBy F.Field.algebra self.now row result }
    {
        let system = System {
            rows: self.used.at,
            columns: self.lost.at.map(|j| j.saturating_add(4)),
            size: self.lost.count,
        };
        let right = self.used.at.map(|i| self.share::<F>(i, row).number());
        system.solution::<F>(right)
    }
}

// The rows that are chosen, and for each row its weights in the lost data rows: for as many rows as a tray can have, since there is no heap below the programs.
#[derive(Drop)]
pub struct Plan {
    choice: Choice,
    weights: [[usize; 4]; 68],
}

impl Plan {
    ghost use Rattle.std.specs.Prelude.{◌≡◌, ◌+◌, ◌≤◌, true, not, nat_lt};
    ghost use Rattle.algebra.specs.Below.{Below};
    ghost use Rattle.algebra.specs.Sum.{sum_to};
    ghost use Rattle.algebra.specs.Theorems.{coefficient as coefficient_of};
    ghost use Rattle.rules.specs.Search.{counted};
    ghost use Rattle.rules.specs.States.{State, fits, unsound_count};
    ghost use Rattle.mending.specs.Plans.{flag, Gathered, RowsFit, LostBelow, PlannedFor, Ready, ReadyFor, weight_in, weight_of};
    ghost use Rattle.mending.specs.Stored.{stored as stored_at};

    // How the lost data rows follow from the sound ones and from as many parity rows, the lowest that are sound.
    pub fn new<F: Field>(sizes: Sizes, damage: Damage) -> Plan
        ensures planned { RowsFit F.Field.algebra sizes
            → counted sizes.data_rows (λ j. not (flag damage j)) ≤ counted sizes.parity_rows (λ i. flag damage (sizes.data_rows + i))
            → PlannedFor F.Field.algebra sizes damage result }
        ensures ready { (s : State (Below F.Field.size)) → s.sizes ≡ sizes → fits F.Field.algebra s ≡ true → unsound_count F.Field.algebra s ≤ sizes.parity_rows → Gathered F.Field.algebra s damage
            → Ready F.Field.algebra s result }
        ensures ready_for { (s : State (Below F.Field.size)) → s.sizes ≡ sizes → fits F.Field.algebra s ≡ true → unsound_count F.Field.algebra s ≤ sizes.parity_rows → Gathered F.Field.algebra s damage
            → ReadyFor F.Field.algebra s damage result }
    {
        let choice = Choice::new(sizes, damage);
        let mut weights = [[0; 4]; 68];
        // Only the tray's rows: to work all 68 would cost a small tray as much as the largest.
        for (row, worked) in weights[..sizes.rows().min(68)].iter_mut().enumerate() {
            *worked = choice.working::<F>(row);
        }
        Plan { choice, weights }
    }

    // The damage that the plan is made for.
    pub(crate) fn damage(&self) -> &Damage
        ensures { result.now ≡ self.now.choice.damage }
    {
        &self.choice.damage
    }

    // The weight of a row in the lost data row of a rank.
    #[tactic(auto, using(std::proofs::lemmas::List::get_or_past, crate::proofs::Numbers::element_zero))]
    fn weight<F: Field>(&self, row: usize, rank: usize) -> F
        ensures { F.Field.meaning result ≡ weight_in F.Field.algebra self.now.weights row rank }
    {
        match self.weights.get(row) {
            Some(weights) => stored(weights, rank),
            None => F::zero(),
        }
    }

    // The weight of a row in a sum over the lost data rows, by the coefficients of parity row i.
    fn through_lost<F: Field>(&self, i: usize, row: usize) -> F
        ensures { i < 4 → ((b : ℕ) → b < self.now.choice.lost.count → (slice_index self.now.choice.lost.at b < 64) × (4 + slice_index self.now.choice.lost.at b < F.Field.algebra.size))
            → F.Field.meaning result ≡ sum_to F.Field.algebra self.now.choice.lost.count (λ b. F.Field.algebra.mul (coefficient_of F.Field.algebra i (slice_index self.now.choice.lost.at b)) (weight_in F.Field.algebra self.now.weights row b)) }
    {
        let lost = &self.choice.lost;
        let mut sum: F = F::zero();
        for (b, j) in lost.at[..lost.count].iter().enumerate() {
            let coefficient: F = rows::coefficient(i, *j);
            sum = sum.sum(coefficient.product(self.weight(row, b)));
        }
        sum
    }

    // The weight of a row in parity row i, worked from the data rows: its own coefficient, and its part in the lost data rows.
    fn parity_weight<F: Field>(&self, sizes: Sizes, damage: &Damage, i: usize, row: usize) -> F
        ensures { RowsFit F.Field.algebra sizes → LostBelow sizes.data_rows self.now → i < 4
            → F.Field.meaning result ≡ weight_of F.Field.algebra sizes.data_rows (flag damage.now) self.now (sizes.data_rows + i) row }
    {
        let through: F = self.through_lost(i, row);
        let own = if row < sizes.data_rows && damage.is_sound(row) {
            rows::coefficient::<F>(i, row)
        } else {
            F::zero()
        };
        own.sum(through)
    }

    // A lost data row, or a parity row, with the weights of the tray's rows in it. By the sizes and the damage of the tray, whatever the plan was made for.
    pub(crate) fn worked_row<F: Field>(
        &self,
        sizes: Sizes,
        damage: &Damage,
        row: usize,
    ) -> WorkedRow
        ensures row { result.row ≡ row }
        ensures weights { RowsFit F.Field.algebra sizes → LostBelow sizes.data_rows self.now → row < sizes.data_rows + sizes.parity_rows
            → (source : ℕ) → source < sizes.data_rows + sizes.parity_rows → stored_at F.Field.algebra result.weights source ≡ weight_of F.Field.algebra sizes.data_rows (flag damage.now) self.now row source }
    {
        let rows = sizes.rows();
        let weights = if row < sizes.data_rows {
            let rank = row - damage.sound_among(0, row);
            numbers_of(rows, |source| self.weight::<F>(source, rank))
        } else {
            let i = row - sizes.data_rows;
            numbers_of(
                rows,
                |source| self.parity_weight::<F>(sizes, damage, i, source),
            )
        };
        WorkedRow { row, weights }
    }

    // Whether parity row i, if it is sound, is one of those from which the lost data rows are worked.
    pub(crate) fn is_used(&self, sizes: Sizes, damage: &Damage, i: usize) -> bool
        ensures { sizes.data_rows + i ≤ 68 → result ≡ nat_lt (counted i (λ h. flag damage.now (sizes.data_rows + h))) self.now.choice.lost.count }
    {
        damage.sound_among(sizes.data_rows, i) < self.choice.lost.count
    }
}
