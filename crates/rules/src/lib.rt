// The types that a tray's answers are made of. What they mean, and what every call promises, stands in specs/.
#![tactic(auto)]

ghost use Rattle.std.specs.Prelude.{◌≡◌, ◌+◌, ◌-◌, ◌^◌, min, ◌<◌, not, slice_set, Some};
ghost use Rattle.rules.specs.Calls.{own_number, returned, layer as layer_of, is_sound};
ghost use Rattle.rules.specs.Search.{counted, lowest};
ghost use Rattle.rules.specs.Sheets.{entered, tallied, turn_answer, turned};
ghost use Rattle.rules.specs.States.{unread, within_limits};
ghost use Rattle.rules.specs.Text.{numbers_text};
ghost use Rattle.rules.specs.Updates.{entry_at, entry_bad, entry_sound, next_row};

use std::fmt;

// The four sizes of a tray.
#[derive(Clone, Copy, PartialEq, Eq, Debug)]
pub struct Sizes {
    pub data_rows: usize,
    pub parity_rows: usize,
    // Symbols of a block.
    pub block_length: usize,
    // Symbols of a card, the algebraic signature of a block.
    pub card_length: usize,
}

impl Sizes {
    // Whether each size keeps its limits.
    pub fn in_limits(&self) -> bool
        ensures { result ≡ within_limits self.now }
    {
        (1..=64).contains(&self.data_rows)
            && (1..=4).contains(&self.parity_rows)
            && (1..=4096).contains(&self.block_length)
            && (2..=8).contains(&self.card_length)
    }

    // How many rows a tray of these sizes has; the largest number, where the sum overflows.
    pub fn rows(&self) -> usize
        ensures { result ≡ min (self.now.data_rows + self.now.parity_rows) (2 ^ 64 - 1) }
    {
        self.data_rows.saturating_add(self.parity_rows)
    }

    // How many places a row has, block and card; the largest number, where the sum overflows.
    pub fn places(&self) -> usize
        ensures { result ≡ min (self.now.block_length + self.now.card_length) (2 ^ 64 - 1) }
    {
        self.block_length.saturating_add(self.card_length)
    }

    // The row of parity row i; the largest number, where the sum overflows.
    pub fn parity_row(&self, i: usize) -> usize
        ensures { result ≡ min (self.now.data_rows + i) (2 ^ 64 - 1) }
    {
        self.data_rows.saturating_add(i)
    }

    // The place of a component of the card; the largest number, where the sum overflows.
    pub fn card_place(&self, component: usize) -> usize
        ensures { result ≡ min (self.now.block_length + component) (2 ^ 64 - 1) }
    {
        self.block_length.saturating_add(component)
    }
}

// What an audit finds in one row.
#[derive(Clone, Copy, PartialEq, Eq, Debug)]
pub enum Verdict {
    Sound,
    // The lowest place that cannot be read.
    Hole(usize),
    // The lowest component of the card that is not the fresh one.
    Card(usize),
}

impl Verdict {
    pub fn is_sound(self) -> bool
        ensures { result ≡ is_sound self }
    {
        matches!(self, Verdict::Sound)
    }
}

// What the sheet says of one row: by the project's rules an enum of its own, and not an Option.
#[derive(Clone, Copy, PartialEq, Eq, Debug)]
pub enum Entry {
    Unread,
    Read(Verdict),
}

// The result of a scrub pass for one row.
#[derive(Clone, Copy, PartialEq, Eq, Debug)]
pub struct Record {
    pub entry: Entry,
}

impl Record {
    pub fn enter(&mut self, verdict: Verdict)
        ensures { self.new ≡ entered verdict }
    {
        self.entry = Entry::Read(verdict);
    }
}

// The results of a scrub pass: one record for each row that a tray could have; of a fixed size, by the project's rules.
#[derive(Drop)]
pub struct Sheet {
    pub records: [Record; 68],
}

impl Sheet {
    pub fn unread() -> Sheet
        ensures { result ≡ unread }
    {
        Sheet {
            records: [Record {
                entry: Entry::Unread,
            }; 68],
        }
    }

    // What the sheet says of a row; nothing is read of a row that it has no record for.
    pub fn entry(&self, row: usize) -> Entry
        ensures { result ≡ entry_at self.now row }
    {
        self.records
            .get(row)
            .map_or(Entry::Unread, |record| record.entry)
    }

    // Enters a verdict in the record of a row, where there is one.
    pub fn enter(&mut self, row: usize, verdict: Verdict)
        ensures { self.new.records ≡ slice_set self.old.records row (entered verdict) }
    {
        // By an index: after a write through an array's `get_mut` no proof knows the other elements.
        if row < self.records.len() {
            self.records[row].enter(verdict);
        }
    }

    // How many of the rows were entered as sound, and how many were not.
    #[tactic(auto, using(crate::proofs::Counted::counted_not))]
    pub fn totals(&self, rows: usize) -> (usize, usize)
        ensures sound { result.0 ≡ counted rows (λ r. entry_sound (entry_at self.now r)) }
        ensures others { result.1 ≡ counted rows (λ r. not (entry_sound (entry_at self.now r))) }
    {
        // A loop: that the counts do not overflow is its invariant, and a fold's closure has none.
        let mut totals = (0, 0);
        for row in 0..rows {
            totals = tally(totals, self.entry(row));
        }
        totals
    }

    // The lowest of the rows that was entered as not sound.
    pub fn first_unsound(&self, rows: usize) -> Option<usize>
        ensures { result ≡ lowest rows (λ r. entry_bad (entry_at self.now r)) }
    {
        (0..rows).find(|row| match self.entry(*row) {
            Entry::Read(verdict) => !verdict.is_sound(),
            Entry::Unread => false,
        })
    }
}

// One entry more, in the sound ones or in the others. By the project's rules the counts go in and out as a pair.
fn tally(totals: (usize, usize), entry: Entry) -> (usize, usize)
    requires { totals.0 + totals.1 + 1 < 2 ^ 64 }
    ensures { result ≡ tallied totals entry }
{
    let (sound, others) = totals;
    match entry {
        Entry::Read(Verdict::Sound) => (sound + 1, others),
        _ => (sound, others + 1),
    }
}

// A scrub pass over the rows.
#[derive(Clone, Copy, PartialEq, Eq, Debug)]
pub enum Round {
    Resting,
    Walking(usize),
    Over,
}

// What the patrol asks of a round.
#[derive(Clone, Copy, PartialEq, Eq, Debug)]
pub enum Action {
    Begin,
    Step,
    Totals,
}

impl Round {
    // Takes an action on a tray of so many rows. It answers the row at which the round begins, the row that a step audits, or how many rows were walked.
    // By the project's rules an action is a value, which the round matches together with its own state, and the round replaces itself.
    pub fn act(&mut self, action: Action, rows: usize) -> Result<usize, Refusal>
        ensures answer { result ≡ turn_answer self.old action rows }
        ensures after { self.new ≡ turned self.old action rows }
    {
        match (*self, action) {
            (Round::Walking(row), Action::Begin) => Err(Refusal::StillWalking(row)),
            (_, Action::Begin) => {
                *self = Round::Walking(0);
                Ok(0)
            }
            (Round::Walking(row), Action::Step) => {
                *self = following(row, rows);
                Ok(row)
            }
            (Round::Over, Action::Totals) => Ok(rows),
            (_, Action::Step | Action::Totals) => Err(Refusal::WrongPhase),
        }
    }
}

// The round after the step at a row: at the next row, or over.
fn following(row: usize, rows: usize) -> Round
    ensures { result ≡ next_row row rows }
{
    match row.checked_add(1) {
        Some(next) if next < rows => Round::Walking(next),
        _ => Round::Over,
    }
}

// Why a call was refused.
#[derive(Clone, Copy, PartialEq, Eq, Debug)]
pub enum Refusal {
    DoesNotFit,
    NotTakenIn,
    TakenInAlready,
    // The row.
    NoSuchRow(usize),
    // The span's start.
    BadSpan(usize),
    // The row, and what its audit found.
    Unsound(usize, Verdict),
    // The row and the place of a hole.
    Unreadable(usize, usize),
    // The row and the place where a parity row does not fit.
    Misfit(usize, usize),
    // How many rows are not sound.
    TooManyUnsound(usize),
    WrongPhase,
    // The row that the round walks at.
    StillWalking(usize),
}

// Where the fault of a refusal lies.
#[derive(Clone, Copy, PartialEq, Eq, Debug)]
pub enum Layer {
    Shelf,
    Row,
    Tray,
    Call,
}

impl Refusal {
    // The number that C callers and reports have for it.
    // One of what a refusal tells, beside its layer and what it carries, so it is no `From`.
    pub fn number(self) -> u8
        ensures { result ≡ own_number self }
    {
        match self {
            Refusal::DoesNotFit => 1,
            Refusal::NotTakenIn => 2,
            Refusal::TakenInAlready => 3,
            Refusal::NoSuchRow(_) => 4,
            Refusal::BadSpan(_) => 5,
            Refusal::Unsound(_, _) => 6,
            Refusal::Unreadable(_, _) => 7,
            Refusal::Misfit(_, _) => 8,
            Refusal::TooManyUnsound(_) => 9,
            Refusal::WrongPhase => 10,
            Refusal::StillWalking(_) => 11,
        }
    }

    pub fn layer(self) -> Layer
        ensures { result ≡ layer_of self }
    {
        match self {
            Refusal::Unsound(_, Verdict::Hole(_)) | Refusal::Unreadable(_, _) => Layer::Shelf,
            Refusal::Unsound(_, Verdict::Card(_)) => Layer::Row,
            Refusal::Misfit(_, _) => Layer::Tray,
            _ => Layer::Call,
        }
    }
}

// The numbers that a refusal returns: its own, and what it carries.
impl fmt::Display for Refusal {
    ghost output = { λ r. Some (numbers_text (returned r)) };

    fn fmt<W: fmt::Write>(&self, f: &mut fmt::Formatter<W>) -> fmt::Result {
        let number = self.number();
        match *self {
            Refusal::DoesNotFit
            | Refusal::NotTakenIn
            | Refusal::TakenInAlready
            | Refusal::WrongPhase => write!(f, "{number}"),
            Refusal::NoSuchRow(carried)
            | Refusal::BadSpan(carried)
            | Refusal::Unsound(carried, Verdict::Sound)
            | Refusal::TooManyUnsound(carried)
            | Refusal::StillWalking(carried) => write!(f, "{number} {carried}"),
            Refusal::Unsound(row, Verdict::Hole(at) | Verdict::Card(at))
            | Refusal::Unreadable(row, at)
            | Refusal::Misfit(row, at) => write!(f, "{number} {row} {at}"),
        }
    }
}
