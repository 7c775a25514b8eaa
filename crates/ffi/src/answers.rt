// A call's answer as five numbers: its kind, up to three numbers that it carries, and the layer of a refusal.
ghost use Rattle.std.specs.Prelude.{◌≡◌};
ghost use Rattle.ffi.specs.Answers.{verdict_kind, verdict_at, layer_number as number_of_layer, carried_numbers, refusal_numbers, given_numbers, result_numbers, entry_given, written_over};

use rules::{Entry, Layer, Refusal, Verdict};

// C has no enums that carry numbers, and gets a number where one carries none: kinds and layers have theirs here. Those of verdicts and layers are no `From`, as both
// sides are of other crates; `accepted` stands beside `refused`, which could be none either.
pub type Answer = [usize; 5];

// What an accepted call gives.
#[derive(Clone, Copy)]
pub enum Given {
    Done,
    Found(Verdict),
    Counts(usize, usize),
    Unread,
    Lowest(Option<usize>),
    Mended(usize),
}

impl From<Entry> for Given {
    ghost from_gives = { λ entry given. given ≡ entry_given entry };

    fn from(entry: Entry) -> Given {
        match entry {
            Entry::Unread => Given::Unread,
            Entry::Read(verdict) => Given::Found(verdict),
        }
    }
}

// A verdict's kind, and its place or component.
fn verdict_numbers(verdict: Verdict) -> (usize, usize)
    ensures kind { result.0 ≡ verdict_kind verdict }
    ensures at { result.1 ≡ verdict_at verdict }
{
    match verdict {
        Verdict::Sound => (0, 0),
        Verdict::Hole(place) => (1, place),
        Verdict::Card(component) => (2, component),
    }
}

fn layer_number(layer: Layer) -> usize
    ensures { result ≡ number_of_layer layer }
{
    match layer {
        Layer::Call => 1,
        Layer::Shelf => 2,
        Layer::Row => 3,
        Layer::Tray => 4,
    }
}

fn accepted(given: Given) -> Answer
    ensures { result ≡ given_numbers given }
{
    match given {
        Given::Done => [0; 5],
        Given::Found(verdict) => {
            let (kind, at) = verdict_numbers(verdict);
            [100, kind, at, 0, 0]
        }
        Given::Counts(sound, others) => [101, sound, others, 0, 0],
        Given::Unread => [102, 0, 0, 0, 0],
        Given::Lowest(Some(row)) => [103, row, 0, 0, 0],
        Given::Lowest(None) => [104, 0, 0, 0, 0],
        Given::Mended(count) => [105, count, 0, 0, 0],
    }
}

fn carried(refusal: Refusal) -> [usize; 3]
    ensures { result ≡ carried_numbers refusal }
{
    match refusal {
        Refusal::DoesNotFit | Refusal::NotTakenIn | Refusal::TakenInAlready | Refusal::WrongPhase =>
            [0; 3],
        Refusal::NoSuchRow(number)
        | Refusal::BadSpan(number)
        | Refusal::TooManyUnsound(number)
        | Refusal::StillWalking(number) => [number, 0, 0],
        Refusal::Unreadable(row, place) | Refusal::Misfit(row, place) => [row, place, 0],
        Refusal::Unsound(row, verdict) => {
            let (kind, at) = verdict_numbers(verdict);
            [row, at, kind]
        }
    }
}

// A refusal's kind is its number, 1 to 11.
fn refused(refusal: Refusal) -> Answer
    ensures { result ≡ refusal_numbers refusal }
{
    let [first, second, third] = carried(refusal);
    let kind = usize::from(refusal.number());
    [kind, first, second, third, layer_number(refusal.layer())]
}

pub(crate) fn answer(answered: Result<Given, Refusal>) -> Answer
    ensures { result ≡ result_numbers answered }
{
    match answered {
        Ok(given) => accepted(given),
        Err(refusal) => refused(refusal),
    }
}

// Writes numbers down, as many as there is room for.
pub(crate) fn write_down(room: &mut [usize], numbers: &[usize])
    ensures { room.new ≡ written_over numbers.now room.old }
{
    let count = numbers.len().min(room.len());
    room[..count].copy_from_slice(&numbers[..count]);
}
