// A tray: a redundancy group over any shelf, and its calls.
#![tactic(auto)]

ghost use Rattle.std.specs.Prelude.{◌≡◌, ℕ, ◌+◌, ◌^◌, ◌<◌, ◌≤◌, true, length, map, Some, if◌then◌else◌, OnOk, OnErr};
ghost use Rattle.algebra.specs.Algebra.{Field as Algebra};
ghost use Rattle.algebra.specs.Below.{Below};
ghost use Rattle.rules.specs.Calls.{fit as fit_call, intake as intake_call, audit as audit_call, read as read_call, write as write_call, cross as cross_call};
ghost use Rattle.rules.specs.Calls.{begin as begin_call, step as step_call, totals as totals_call, record_of as record_call, first as first_call, mend as mend_call};
ghost use Rattle.rules.specs.Calls.{judged, entry_is, lowest_is, mended, return_number};
ghost use Rattle.rules.specs.Audits.{AuditExact, ChangesSeen, NoLongerSound};
ghost use Rattle.rules.specs.Crosses.{CrossAccepts};
ghost use Rattle.rules.specs.Exact.{IntakeExact, MendExact};
ghost use Rattle.rules.specs.Order.{card_places, written_places, mended_places};
ghost use Rattle.rules.specs.Promises.{Promise, Answered};
ghost use Rattle.rules.specs.Rounds.{RoundExact};
ghost use Rattle.rules.specs.States.{fits};
ghost use Rattle.rules.specs.Twins.{AuditFaithful, MendFaithful, Faithful};
ghost use Rattle.rules.specs.Updates.{allowed};
ghost use Rattle.rules.specs.Views.{seen, seen_contents};
ghost use Rattle.rules.specs.Writes.{WriteExact};
ghost use Rattle.shelves.specs.Puts.{ByPuts, PutsAt};
ghost use Rattle.tray.specs.State.{state, on_contents, answer_of, answer_by, ExchangedAs, read_answer, counts_of, Ready, stretch_checked, span_checked};

use algebra::Field;
use mending::Plan;
use rows::{Group, GroupMut};
use rules::{Action, Entry, Refusal, Round, Sheet, Sizes, Verdict};
use shelves::Shelf;

#[derive(Drop)]
pub struct Tray<S: Shelf> {
    shelf: S,
    sizes: Sizes,
    taken_in: bool,
    round: Round,
    sheet: Sheet,
}

impl<S: Shelf> Tray<S>
where
    S::Symbol: Field,
{
    // A new tray: not taken in, its round rests, its sheet is unread.
    pub fn over(shelf: S, sizes: Sizes) -> Tray<S>
        ensures state { state S.Shelf.contents S.Symbol.Field.meaning result ≡ seen S.Symbol.Field.meaning sizes (S.Shelf.contents shelf) }
        ensures shelf { result.shelf ≡ shelf }
    {
        Tray {
            shelf,
            sizes,
            taken_in: false,
            round: Round::Resting,
            sheet: Sheet::unread(),
        }
    }

    // Gives the shelf back, as the calls left it.
    pub fn into_shelf(self) -> S
        ensures { result ≡ self.shelf }
    {
        self.shelf
    }

    // Exchanges the shelf for another and gives the old one back: what damage between calls amounts to, where the sizes stay. All else is as it was.
    pub fn replace_shelf(&mut self, shelf: S) -> S
        ensures state { state S.Shelf.contents S.Symbol.Field.meaning self.new ≡ on_contents (state S.Shelf.contents S.Symbol.Field.meaning self.old) (seen_contents S.Symbol.Field.meaning (S.Shelf.contents shelf)) }
        ensures damage { ExchangedAs (state S.Shelf.contents S.Symbol.Field.meaning self.old) (seen_contents S.Symbol.Field.meaning (S.Shelf.contents shelf)) (state S.Shelf.contents S.Symbol.Field.meaning self.new) }
        ensures shelf { self.new.shelf ≡ shelf }
        ensures old { result ≡ self.old.shelf }
    {
        std::mem::replace(&mut self.shelf, shelf)
    }

    // The rows, to be read.
    fn group(&self) -> Group<'_, S>
        ensures shelf { result.shelf.now ≡ self.now.shelf }
        ensures sizes { result.sizes ≡ self.now.sizes }
    {
        Group {
            shelf: &self.shelf,
            sizes: self.sizes,
        }
    }

    fn fits(&self) -> bool
        ensures { result ≡ fits S.Symbol.Field.algebra (state S.Shelf.contents S.Symbol.Field.meaning self.now) }
    {
        self.sizes.in_limits()
            && self.sizes.data_rows + 4 <= <S::Symbol>::order()
            && self.sizes.block_length <= <S::Symbol>::reach()
            && self.shelf.rows() == self.sizes.rows()
            && self.shelf.places() == self.sizes.places()
    }

    // Whether the tray fits its shelf and its field.
    #[tactic(auto, using(crate::proofs::Answering::fit_accepted, crate::proofs::Answering::unfit_refused))]
    pub fn fit(&self) -> Result<(), Refusal>
        ensures promise { Promise S.Symbol.Field.algebra (state S.Shelf.contents S.Symbol.Field.meaning self.now) fit_call (answer_of result) (state S.Shelf.contents S.Symbol.Field.meaning self.now) }
        ensures number { return_number {X = Below S.Symbol.Field.size} (answer_of result) ≡ Some (if fits S.Symbol.Field.algebra (state S.Shelf.contents S.Symbol.Field.meaning self.now) then 0 else 1) }
    {
        if self.fits() {
            Ok(())
        } else {
            Err(Refusal::DoesNotFit)
        }
    }

    // What stands in the way in a stretch of places, alike in all rows: the first place that cannot be read, failing that the first one of a parity row that
    // does not fit.
    fn check_stretch(&self, start: usize, places: usize) -> Result<(), Refusal>
        ensures { let s = state S.Shelf.contents S.Symbol.Field.meaning self.now in fits S.Symbol.Field.algebra s ≡ true → start + places ≤ s.sizes.block_length + s.sizes.card_length → result ≡ stretch_checked S.Symbol.Field.algebra s start places }
    {
        if let Some((row, offset)) = self.group().first_hole(start, places) {
            return Err(Refusal::Unreadable(row, start.saturating_add(offset)));
        }
        if let Some((i, offset)) = self.group().first_misfit(start, places) {
            let row = self.sizes.parity_row(i);
            return Err(Refusal::Misfit(row, start.saturating_add(offset)));
        }
        Ok(())
    }

    // Takes the tray in: looks for holes in blocks and then for parity rows that do not fit, and puts every card.
    #[tactic(auto, using(rules::proofs::Intake::intake_exact, crate::proofs::Answering::unfit_refused, crate::proofs::Answering::intake_again, crate::proofs::Answering::intake_refused, shelves::proofs::Puts::no_puts))]
    pub fn intake(&mut self) -> Result<(), Refusal>
        ensures promise { Promise S.Symbol.Field.algebra (state S.Shelf.contents S.Symbol.Field.meaning self.old) intake_call (answer_of result) (state S.Shelf.contents S.Symbol.Field.meaning self.new) }
        ensures exact { IntakeExact S.Symbol.Field.algebra }
        ensures order { let sizes = self.old.sizes in OnOk result (PutsAt S.Shelf.stores self.old.shelf (card_places sizes (sizes.data_rows + sizes.parity_rows)) self.new.shelf) }
        ensures puts { ByPuts S.Shelf.stores self.old.shelf self.new.shelf }
        ensures refused { OnErr result (self.new ≡ self.old) }
    {
        if !self.fits() {
            return Err(Refusal::DoesNotFit);
        }
        if self.taken_in {
            return Err(Refusal::TakenInAlready);
        }
        self.check_stretch(0, self.sizes.block_length)?;
        // Made here, and in write and mend: no clause says what a tray holds after a loan that a method hands out inside a struct.
        GroupMut {
            shelf: &mut self.shelf,
            sizes: self.sizes,
        }
        .put_cards();
        self.taken_in = true;
        Ok(())
    }

    // The checks that all calls but fit and intake share. As in intake the first is by `fits`, which says plainly whether the tray fits; out of fit's
    // answer a proof would have to take that first.
    #[tactic(auto, using(crate::proofs::Answering::unfit_refused, crate::proofs::Answering::early_refused))]
    fn ready(&self) -> Result<(), Refusal>
        ensures { Ready S.Symbol.Field.algebra (state S.Shelf.contents S.Symbol.Field.meaning self.now) result }
    {
        if !self.fits() {
            return Err(Refusal::DoesNotFit);
        }
        if !self.taken_in {
            return Err(Refusal::NotTakenIn);
        }
        Ok(())
    }

    // Whether a span of the block is allowed; the sum of start and count may overflow, so they are compared one by one.
    fn allows(&self, start: usize, count: usize) -> bool
        ensures { result ≡ allowed (state S.Shelf.contents S.Symbol.Field.meaning self.now) start count }
    {
        start <= self.sizes.block_length && count <= self.sizes.block_length - start
    }

    // What stands in the way of a span of a row: that it is not allowed, failing that the row's own fault.
    fn check_span(&self, row: usize, start: usize, count: usize) -> Result<(), Refusal>
        ensures { let s = state S.Shelf.contents S.Symbol.Field.meaning self.now in fits S.Symbol.Field.algebra s ≡ true → result ≡ span_checked S.Symbol.Field.algebra s row start count }
    {
        if !self.allows(start, count) {
            return Err(Refusal::BadSpan(start));
        }
        let verdict = self.group().audit(row);
        if !verdict.is_sound() {
            return Err(Refusal::Unsound(row, verdict));
        }
        Ok(())
    }

    // The verdict of one row. The first checks of audit, read, write and record are alike but for the limit of the row, which stays where the row is refused.
    pub fn audit(&self, row: usize) -> Result<Verdict, Refusal>
        ensures promise { Promise S.Symbol.Field.algebra (state S.Shelf.contents S.Symbol.Field.meaning self.now) (audit_call row) (answer_by judged result) (state S.Shelf.contents S.Symbol.Field.meaning self.now) }
        ensures exact { AuditExact S.Symbol.Field.algebra }
        ensures changes { ChangesSeen S.Symbol.Field.algebra }
        ensures no_longer { NoLongerSound S.Symbol.Field.algebra }
        ensures after_runs { AuditFaithful S.Symbol.Field.algebra (state S.Shelf.contents S.Symbol.Field.meaning self.now) row (answer_by judged result) }
    {
        self.ready()?;
        if row >= self.sizes.rows() {
            return Err(Refusal::NoSuchRow(row));
        }
        Ok(self.group().audit(row))
    }

    // Copies a span of a sound row's block into the buffer, as many symbols as the buffer has.
    #[tactic(auto, using(crate::proofs::Answering::row_count, crate::proofs::Answering::read_no_row, crate::proofs::Answering::read_refused))]
    pub fn read(&self, row: usize, start: usize, buffer: &mut [S::Symbol]) -> Result<(), Refusal>
        ensures promise { Promise S.Symbol.Field.algebra (state S.Shelf.contents S.Symbol.Field.meaning self.now) (read_call row start (length buffer.old)) (read_answer S.Symbol.Field.meaning buffer.new result) (state S.Shelf.contents S.Symbol.Field.meaning self.now) }
        ensures refused { OnErr result (buffer.new ≡ buffer.old) }
    {
        self.ready()?;
        if row >= self.sizes.rows() {
            return Err(Refusal::NoSuchRow(row));
        }
        self.check_span(row, start, buffer.len())?;
        rows::copy_span(&self.shelf, row, start, buffer);
        Ok(())
    }

    // Writes symbols into a data row's block, and moves the parity rows and all cards touched by the change.
    #[tactic(auto, using(rules::proofs::Writes::write_exact, crate::proofs::Answering::write_no_row, crate::proofs::Answering::write_refused, crate::proofs::Answering::mapped_length, shelves::proofs::Puts::no_puts))]
    pub fn write(&mut self, row: usize, start: usize, symbols: &[S::Symbol]) -> Result<(), Refusal>
        ensures promise { Promise S.Symbol.Field.algebra (state S.Shelf.contents S.Symbol.Field.meaning self.old) (write_call row start (map S.Symbol.Field.meaning symbols.now)) (answer_of result) (state S.Shelf.contents S.Symbol.Field.meaning self.new) }
        ensures exact { WriteExact S.Symbol.Field.algebra }
        ensures order { OnOk result (PutsAt S.Shelf.stores self.old.shelf (written_places self.old.sizes row start (length symbols.now)) self.new.shelf) }
        ensures puts { ByPuts S.Shelf.stores self.old.shelf self.new.shelf }
        ensures refused { OnErr result (self.new ≡ self.old) }
    {
        self.ready()?;
        if row >= self.sizes.data_rows {
            return Err(Refusal::NoSuchRow(row));
        }
        self.check_span(row, start, symbols.len())?;
        if let Some((i, verdict)) = self.group().first_unsound_parity() {
            return Err(Refusal::Unsound(self.sizes.parity_row(i), verdict));
        }
        let mut group = GroupMut {
            shelf: &mut self.shelf,
            sizes: self.sizes,
        };
        writes::write_symbols(&mut group, row, start, symbols);
        Ok(())
    }

    // Checks from cards alone that parity fits.
    #[tactic(auto, using(rules::proofs::Crosses::cross_accepts, crate::proofs::Answering::cross_checked))]
    pub fn cross(&self) -> Result<(), Refusal>
        ensures promise { Promise S.Symbol.Field.algebra (state S.Shelf.contents S.Symbol.Field.meaning self.now) cross_call (answer_of result) (state S.Shelf.contents S.Symbol.Field.meaning self.now) }
        ensures accepts { CrossAccepts S.Symbol.Field.algebra }
    {
        self.ready()?;
        self.check_stretch(self.sizes.block_length, self.sizes.card_length)
    }

    // Begins a round at row 0, on a sheet where nothing is read. It opens as step and totals do: the three lines are two calls, and what each refusal means
    // is its call's to say.
    #[tactic(auto, using(crate::proofs::Answering::begin_refused, crate::proofs::Answering::begin_accepted))]
    pub fn begin(&mut self) -> Result<(), Refusal>
        ensures promise { Promise S.Symbol.Field.algebra (state S.Shelf.contents S.Symbol.Field.meaning self.old) begin_call (answer_of result) (state S.Shelf.contents S.Symbol.Field.meaning self.new) }
        ensures shelf { self.new.shelf ≡ self.old.shelf }
    {
        self.ready()?;
        let rows = self.sizes.rows();
        self.round.act(Action::Begin, rows)?;
        self.sheet = Sheet::unread();
        Ok(())
    }

    // Audits the row that the round walks at, enters the verdict, and goes on to the next row or to over.
    #[tactic(auto, using(crate::proofs::Answering::step_refused))]
    pub fn step(&mut self) -> Result<Verdict, Refusal>
        ensures promise { Promise S.Symbol.Field.algebra (state S.Shelf.contents S.Symbol.Field.meaning self.old) step_call (answer_by judged result) (state S.Shelf.contents S.Symbol.Field.meaning self.new) }
        ensures shelf { self.new.shelf ≡ self.old.shelf }
    {
        self.ready()?;
        let rows = self.sizes.rows();
        let row = self.round.act(Action::Step, rows)?;
        let verdict = self.group().audit(row);
        self.sheet.enter(row, verdict);
        Ok(verdict)
    }

    // How many rows the round found sound, and how many it did not.
    #[tactic(auto, using(rules::proofs::Rounds::round_exact, crate::proofs::Answering::totals_refused, crate::proofs::Answering::totals_counted))]
    pub fn totals(&mut self) -> Result<(usize, usize), Refusal>
        ensures promise { Promise S.Symbol.Field.algebra (state S.Shelf.contents S.Symbol.Field.meaning self.old) totals_call (answer_by counts_of result) (state S.Shelf.contents S.Symbol.Field.meaning self.new) }
        ensures round { RoundExact S.Symbol.Field.algebra }
        ensures shelf { self.new.shelf ≡ self.old.shelf }
    {
        self.ready()?;
        let rows = self.sizes.rows();
        let walked = self.round.act(Action::Totals, rows)?;
        Ok(self.sheet.totals(walked))
    }

    // What the sheet says of a row.
    #[tactic(auto, using(crate::proofs::Answering::row_count, crate::proofs::Answering::record_no_row, crate::proofs::Answering::record_answered))]
    pub fn record(&self, row: usize) -> Result<Entry, Refusal>
        ensures { Promise S.Symbol.Field.algebra (state S.Shelf.contents S.Symbol.Field.meaning self.now) (record_call row) (answer_by entry_is result) (state S.Shelf.contents S.Symbol.Field.meaning self.now) }
    {
        self.ready()?;
        if row >= self.sizes.rows() {
            return Err(Refusal::NoSuchRow(row));
        }
        Ok(self.sheet.entry(row))
    }

    // The lowest row that the sheet has as not sound.
    #[tactic(auto, using(crate::proofs::Answering::first_answered))]
    pub fn first(&self) -> Result<Option<usize>, Refusal>
        ensures { Promise S.Symbol.Field.algebra (state S.Shelf.contents S.Symbol.Field.meaning self.now) first_call (answer_by lowest_is result) (state S.Shelf.contents S.Symbol.Field.meaning self.now) }
    {
        self.ready()?;
        Ok(self.sheet.first_unsound(self.sizes.rows()))
    }

    // Puts back every row that is not sound, block and card, from the rows that are. It audits all rows afresh and never looks at the sheet.
    pub fn mend(&mut self) -> Result<usize, Refusal>
        ensures promise { Promise S.Symbol.Field.algebra (state S.Shelf.contents S.Symbol.Field.meaning self.old) mend_call (answer_by mended result) (state S.Shelf.contents S.Symbol.Field.meaning self.new) }
        ensures exact { MendExact S.Symbol.Field.algebra }
        ensures answered { (q : ℕ) (F : Algebra (Below q)) → Answered F }
        ensures law { (q : ℕ) (F : Algebra (Below q)) → Faithful F }
        ensures after_runs { MendFaithful S.Symbol.Field.algebra (state S.Shelf.contents S.Symbol.Field.meaning self.old) (state S.Shelf.contents S.Symbol.Field.meaning self.new) }
        ensures order { let sizes = self.old.sizes in OnOk result (PutsAt S.Shelf.stores self.old.shelf (mended_places S.Symbol.Field.algebra (state S.Shelf.contents S.Symbol.Field.meaning self.old) (sizes.data_rows + sizes.parity_rows)) self.new.shelf) }
        ensures puts { ByPuts S.Shelf.stores self.old.shelf self.new.shelf }
        ensures refused { OnErr result (self.new ≡ self.old) }
    {
        self.ready()?;
        let damage = mending::gather(&self.group());
        if damage.count > self.sizes.parity_rows {
            return Err(Refusal::TooManyUnsound(damage.count));
        }
        let plan = Plan::new::<S::Symbol>(self.sizes, damage);
        if let Some((i, place)) = mending::first_worked_misfit_for(&self.group(), &damage, &plan) {
            return Err(Refusal::Misfit(self.sizes.parity_row(i), place));
        }
        let mut group = GroupMut {
            shelf: &mut self.shelf,
            sizes: self.sizes,
        };
        mending::put_rows_for(&mut group, &damage, &plan);
        Ok(damage.count)
    }
}

#[cfg(test)]
mod tests;
