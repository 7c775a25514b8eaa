// The lowest few numbers that pass a test.

ghost use Rattle.std.specs.Prelude.{◌≤◌};

// Numbers in order, at most four. They stay an array with a count beside it, since there is no heap below the programs.
#[derive(Clone, Copy)]
pub(crate) struct Picks {
    pub(crate) at: [usize; 4],
    pub(crate) count: usize,
    ghost few: { count ≤ 4 },
}

impl Picks {
    ghost use Rattle.std.specs.Prelude.{◌≡◌, ℕ, ◌<◌, Bool, slice_index};
    ghost use Rattle.rules.specs.Search.{counted};
    ghost use Rattle.mending.specs.Picked.{Picked, Answers};

    // The lowest four of the numbers below a bound that pass a test.
    pub(crate) fn below<T: Fn(usize) -> bool>(bound: usize, test: T) -> Picks
        requires { T.IsAlwaysCallable test }
        ensures count { (passes : ℕ → Bool) → Answers (T.post test) bound passes → counted bound passes ≤ 4 → result.count ≡ counted bound passes }
        ensures at { (passes : ℕ → Bool) → Answers (T.post test) bound passes → (b : ℕ) → b < result.count → Picked bound passes b (slice_index result.at b) }
    {
        let mut at = [0; 4];
        let mut count = 0;
        // Counted by hand: the count is also where the next one goes. Mend's damage is gathered by a loop of its own, which audits each row once.
        for i in 0..bound {
            if count < 4 && test(i) {
                at[count] = i;
                count += 1;
            }
        }
        Picks { at, count }
    }
}
