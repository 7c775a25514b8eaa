// The worked examples of the rule book, and theorems on the definitions, proved of them.
#![tactic(auto)]

ghost use Rattle.std.specs.Prelude.{ℕ};
ghost use Rattle.algebra.specs.Algebra.{Field as Algebra};
ghost use Rattle.algebra.specs.Below.{Below};
ghost use Rattle.rules.specs.Parity.{FirstRowOnes, FirstRowSums};
ghost use Rattle.rules.specs.Twins.{GoesOn};
ghost use Rattle.worked.specs.Examples.{WorkedExamples};
ghost use Rattle.worked.specs.Run.{ExampleRun};
ghost use Rattle.worked.specs.Searches.{LowestsAreLowest};

// The worked examples of products, inverse, cards, coefficients, parity and a write hold. Those of spans and of mend are steps of the run below; those of fit are tested.
pub fn worked_examples_hold()
    ensures { WorkedExamples }
{}

// The example image goes through an intake, writes, damage of each kind, a refused write, a refused mend and a mend, and ends equal to its twin.
#[tactic(auto, using(crate::proofs::Run::example_run))]
pub fn example_run_holds()
    ensures { ExampleRun }
{}

// Parity row 0 is the plain sum of the data rows, over every field.
#[tactic(auto, using(rules::proofs::Parity::first_row_sums))]
pub fn first_parity_row_sums()
    ensures ones { (q : ℕ) (F : Algebra (Below q)) → FirstRowOnes F }
    ensures sums { (q : ℕ) (F : Algebra (Below q)) → FirstRowSums F }
{}

// Every run of a tray goes on with any call: what a call does to the twin is always settled.
pub fn runs_go_on()
    ensures { (q : ℕ) (F : Algebra (Below q)) → GoesOn F }
{}

// What a refusal names is the lowest row, and then the lowest place.
#[tactic(auto, using(crate::proofs::Searches::lowests_are_lowest))]
pub fn searches_find_the_lowest()
    ensures { LowestsAreLowest }
{}
