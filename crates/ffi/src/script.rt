// A script: one step after another, each a call with its arguments. It runs over a tray on any shelf.
ghost use Rattle.std.specs.Prelude.{◌≡◌, ℕ, ◌-◌, ◌*◌, ◌/◌, ◌^◌, length, map, min};
ghost use Rattle.rules.specs.Calls.{buffer_after};
ghost use Rattle.rules.specs.Promises.{Promise};
ghost use Rattle.shelves.specs.Puts.{ByPuts};
ghost use Rattle.tray.specs.State.{state};
ghost use Rattle.ffi.specs.Answers.{result_numbers, written_at, written_over};
ghost use Rattle.ffi.specs.Script.{deed_of, step_of, elements, call_of, told, Called};
ghost use Rattle.ffi.specs.Runs.{ByClosure, Resulting, Runs, SameDesk, Taken};

use crate::answers::{Given, answer, write_down};
use algebra::Field;
use rules::Refusal;
use shelves::Shelf;
use tray::Tray;

// The most symbols that a step reads or writes.
pub const SYMBOLS: usize = 4200;

#[derive(Clone, Copy)]
pub enum Call {
    Fit,
    Intake,
    Audit,
    Read,
    Write,
    Cross,
    Begin,
    Step,
    Totals,
    Record,
    First,
    Mend,
}

// What a step does: a call, or damage to a byte of an image.
#[derive(Clone, Copy)]
pub enum Deed {
    Call(Call),
    Damage,
}

// C names deeds by numbers: the calls in the order of the rules, and damage. Every other number is a mend.
impl From<usize> for Deed {
    ghost from_gives = { λ number deed. deed ≡ deed_of number };

    fn from(number: usize) -> Deed {
        Deed::Call(match number {
            0 => Call::Fit,
            1 => Call::Intake,
            2 => Call::Audit,
            3 => Call::Read,
            4 => Call::Write,
            5 => Call::Cross,
            6 => Call::Begin,
            7 => Call::Step,
            8 => Call::Totals,
            9 => Call::Record,
            10 => Call::First,
            12 => return Deed::Damage,
            _ => Call::Mend,
        })
    }
}

// A deed and three numbers: a row, a start and a count of symbols, or what else it takes. C gives four words for each step, so no deed has fields of its own.
#[derive(Clone, Copy)]
pub struct Step {
    pub deed: Deed,
    pub first: usize,
    pub second: usize,
    pub count: usize,
}

impl From<[usize; 4]> for Step {
    ghost from_gives = { λ words step. step ≡ step_of words };

    fn from(words: [usize; 4]) -> Step {
        let [deed, first, second, count] = words;
        Step {
            deed: Deed::from(deed),
            first,
            second,
            count: count.min(SYMBOLS),
        }
    }
}

// Sets the symbols of numbers, and those beyond the numbers to zero. What is alike with mending's `stored` is one line, and ffi does not stand on mending.
pub(crate) fn load<F: Field>(numbers: &[usize], symbols: &mut [F])
    ensures { map F.Field.meaning symbols.new ≡ elements F.Field.algebra numbers.now 0 (length symbols.old) }
{
    for (i, symbol) in symbols.iter_mut().enumerate() {
        *symbol = rows::element(numbers.get(i).copied().unwrap_or(0));
    }
}

// Writes the numbers of symbols back, where there is room.
fn unload<F: Field>(symbols: &[F], numbers: &mut [usize])
    ensures { numbers.new ≡ written_over (map (λ x. F.Field.algebra.number (F.Field.meaning x)) symbols.now) numbers.old }
{
    // By an index: of a slice that `get_mut` was asked of, no proof knows what it ends as.
    for (i, symbol) in symbols.iter().enumerate() {
        if i < numbers.len() {
            numbers[i] = symbol.number();
        }
    }
}

#[tactic(auto, using(shelves::proofs::Puts::no_puts, crate::proofs::Running::unchanged))]
fn make<S: Shelf>(
    tray: &mut Tray<S>,
    call: Call,
    step: Step,
    symbols: &mut [S::Symbol],
) -> Result<Given, Refusal>
where
    S::Symbol: Field,
    ensures promise { Promise S.Symbol.Field.algebra (state S.Shelf.contents S.Symbol.Field.meaning tray.old) (call_of call step (map S.Symbol.Field.meaning symbols.old)) (told call (map S.Symbol.Field.meaning symbols.new) result) (state S.Shelf.contents S.Symbol.Field.meaning tray.new) }
    ensures puts { ByPuts S.Shelf.stores tray.old.shelf tray.new.shelf }
    ensures symbols { map S.Symbol.Field.meaning symbols.new ≡ buffer_after (map S.Symbol.Field.meaning symbols.old) (told call (map S.Symbol.Field.meaning symbols.new) result) }
{
    match call {
        Call::Fit => tray.fit().map(|()| Given::Done),
        Call::Intake => tray.intake().map(|()| Given::Done),
        Call::Audit => tray.audit(step.first).map(Given::Found),
        Call::Read => tray
            .read(step.first, step.second, symbols)
            .map(|()| Given::Done),
        Call::Write => tray
            .write(step.first, step.second, symbols)
            .map(|()| Given::Done),
        Call::Cross => tray.cross().map(|()| Given::Done),
        Call::Begin => tray.begin().map(|()| Given::Done),
        Call::Step => tray.step().map(Given::Found),
        Call::Totals => tray
            .totals()
            .map(|(sound, others)| Given::Counts(sound, others)),
        Call::Record => tray.record(step.first).map(Given::from),
        Call::First => tray.first().map(Given::Lowest),
        Call::Mend => tray.mend().map(Given::Mended),
    }
}

// Makes a call. It goes in beside its step, whose deed may be damage too and is taken apart once, in `take`. Its symbols, lent to read and given to write, are the first of the numbers, and come back as the call leaves them.
fn make_call<S: Shelf>(
    tray: &mut Tray<S>,
    call: Call,
    step: Step,
    numbers: &mut [usize],
    buffer: &mut [S::Symbol],
) -> Result<Given, Refusal>
where
    S::Symbol: Field,
    ensures called { Called S.Symbol.Field.algebra (state S.Shelf.contents S.Symbol.Field.meaning tray.old) call step 0 (min step.count (length buffer.old)) numbers.old (result_numbers result) numbers.new (state S.Shelf.contents S.Symbol.Field.meaning tray.new) }
    ensures puts { ByPuts S.Shelf.stores tray.old.shelf tray.new.shelf }
{
    let count = step.count.min(buffer.len());
    let symbols = &mut buffer[..count];
    load(numbers, symbols);
    let answered = make(tray, call, step, symbols);
    unload(symbols, numbers);
    answered
}

// What a script works on: the numbers of the symbols that its steps take and give, one step after another, room for their answers, and a buffer for the
// symbols of one step.
// The script stands beside it: it is only read, and a desk is what a run writes on.
#[derive(Drop)]
pub struct Desk<'a, F> {
    pub numbers: &'a mut [usize],
    pub answers: &'a mut [usize],
    pub symbols: &'a mut [F],
}

impl<'a, F: Field> Desk<'a, F> {
    // Makes a step's call on a tray, with its numbers from an index on.
    fn call<S: Shelf<Symbol = F>>(
        &mut self,
        tray: &mut Tray<S>,
        call: Call,
        step: Step,
        from: usize,
    ) -> Result<Given, Refusal>
        ensures result { (start : ℕ) → from ≡ min start (2 ^ 64 - 1) → Resulting S.Shelf.contents S.Shelf.stores F.Field.meaning F.Field.algebra (length self.old.symbols.now) step start call result tray.old self.old.numbers.now tray.new self.new.numbers.now }
        ensures answers { self.new.answers.now ≡ self.old.answers.now }
        ensures room { length self.new.symbols.now ≡ length self.old.symbols.now }
        ensures same { SameDesk self.old self.new }
    {
        let from = from.min(self.numbers.len());
        make_call(tray, call, step, &mut self.numbers[from..], self.symbols)
    }

    // Writes down the answer of the step at an index.
    fn write_answer(&mut self, index: usize, answered: Result<Given, Refusal>)
        ensures answers { self.new.answers.now ≡ written_at (5 * index) (result_numbers answered) self.old.answers.now }
        ensures numbers { self.new.numbers.now ≡ self.old.numbers.now }
        ensures room { length self.new.symbols.now ≡ length self.old.symbols.now }
        ensures same { SameDesk self.old self.new }
    {
        let at = index.saturating_mul(5).min(self.answers.len());
        write_down(&mut self.answers[at..], &answer(answered));
    }

    // Takes the step at an index of a script, its numbers from another index on.
    fn take<S: Shelf<Symbol = F>, D: Fn(&mut Tray<S>, Step)>(
        &mut self,
        tray: &mut Tray<S>,
        damage: &D,
        step: Step,
        index: usize,
        from: usize,
    )
        requires { D.IsAlwaysCallable damage.now }
        ensures taken { (start : ℕ) → from ≡ min start (2 ^ 64 - 1) → Taken S.Shelf.contents S.Shelf.stores F.Field.meaning F.Field.algebra (ByClosure D.Fn damage.now) (length self.old.symbols.now) step start (5 * index) tray.old self.old.numbers.now self.old.answers.now tray.new self.new.numbers.now self.new.answers.now }
        ensures room { length self.new.symbols.now ≡ length self.old.symbols.now }
        ensures same { SameDesk self.old self.new }
    {
        let answered = match step.deed {
            Deed::Call(call) => self.call(tray, call, step, from),
            Deed::Damage => {
                damage(tray, step);
                Ok(Given::Done)
            }
        };
        self.write_answer(index, answered);
    }

    // Runs a script over a tray, four words a step; `damage` is how a step damages the tray.
    pub(crate) fn run<S: Shelf<Symbol = F>, D: Fn(&mut Tray<S>, Step)>(
        &mut self,
        script: &[usize],
        tray: &mut Tray<S>,
        damage: D,
    )
        requires { D.IsAlwaysCallable damage }
        ensures runs { Runs S.Shelf.contents S.Shelf.stores F.Field.meaning F.Field.algebra (ByClosure D.Fn damage) (length self.old.symbols.now) script.now tray.old self.old.numbers.now self.old.answers.now (length script.now / 4) tray.new self.new.numbers.now self.new.answers.now }
        ensures same { SameDesk self.old self.new }
    {
        // Where a step's numbers begin is carried along, as each takes its own share; and a step is made where there is no room for its answer, too.
        let mut from: usize = 0;
        for (index, words) in script.as_chunks::<4>().0.iter().enumerate() {
            let step = Step::from(*words);
            self.take(tray, &damage, step, index, from);
            from = from.saturating_add(step.count);
        }
    }
}
