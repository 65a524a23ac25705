//! The rule of runs: what it gives of a set that is written out, and that it gives one list of runs.
ghost use Rattle.std.specs.Prelude.{◌≡◌, ◌≤◌, ◌↔◌, ℕ, List, length};
ghost use Rattle.vol_numbers.specs.declared.runs.Run.{Run};
ghost use Rattle.run_allocator.specs.Rows.{EightRows};
ghost use Rattle.run_allocator.specs.Runs.{Ascends};
ghost use Rattle.run_allocator.specs.Taken.{AreTaken, taken_runs};

/// The rule for eight free blocks in three runs.
pub fn eight_free()
    ensures { EightRows }
{}

/// Runs that are taken one after the other by the rule are those that `taken_runs` computes, and so no others are.
/// Of a set of blocks, as an ascending list, those that it computes are taken so.
pub fn taken_runs_are_the_rule()
    ensures one { (free : List ℕ) (n : ℕ) (runs : List Run) → n ≤ length free → AreTaken free n runs → runs ≡ taken_runs free n }
    ensures both { (free : List ℕ) (n : ℕ) (runs : List Run) → Ascends 1 free → n ≤ length free → AreTaken free n runs ↔ (runs ≡ taken_runs free n) }
{}
