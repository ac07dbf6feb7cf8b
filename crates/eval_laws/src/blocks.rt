//! What is true of runs and blocks in any text, and of a splitter's calls however an input is cut. Each law is the
//! contract of a function with an empty body.
ghost use Rattle.std.specs.Prelude.{◌≡◌, ◌<◌, ◌+◌, ◌↔◌, ◌⊎◌, List, ℕ, Bool, true, ◌++◌, length, take};
ghost use Rattle.text_bytes.specs.Text.{Text};
ghost use Rattle.device_core.specs.Runs.{lines_inclusive, complete_runs, rest_of, runs};
ghost use Rattle.eval_laws.specs.Cuts.{IsCutInto};
ghost use Rattle.device_core.specs.RunBlocks.{blocks_of, up_to_faulty, most_bytes, is_too_long, line_of_excess, FindsAll, FindsFaulty};
ghost use Rattle.device_core.specs.Splits.{Split, opened, completed, SplitEnds, SplitFailsBy};
ghost use Rattle.eval_laws.specs.Calls.{Call, TakesAll, used_by, given_by, GiveRuns, GiveAll, EndsTooLong};
ghost use Rattle.device_core.specs.declared.splitter.SplitFault.TheVariants.{TooLong};

/// A text is newlines, then runs, each followed by the newline of an empty line and by further newlines, then a
/// rest, in just one way: the runs are the complete ones. A run begins with no newline, ends in one and has no two
/// in a row; a rest begins with none and has no two in a row.
pub fn a_text_is_cut_one_way()
    ensures { (text : Text) (found : List Text) (rest : Text)
        → IsCutInto text found rest ↔ ((complete_runs text ≡ found) × (rest_of text ≡ rest)) }
{}

/// The runs of an input don't depend on where it is cut into pieces: those of `s` followed by `t`
/// are the complete runs of `s`, then those of its rest followed by `t`.
pub fn runs_of_pieces()
    ensures complete { (s t : Text) → complete_runs (s ++ t) ≡ complete_runs s ++ complete_runs (rest_of s ++ t) }
    ensures rest { (s t : Text) → rest_of (s ++ t) ≡ rest_of (rest_of s ++ t) }
    ensures all { (s t : Text) → runs (s ++ t) ≡ complete_runs s ++ runs (rest_of s ++ t) }
{}

/// The blocks of an input are all its runs if none is faulty, and else those before the first faulty one, and that
/// one.
pub fn blocks_end_at_the_first_fault()
    ensures { (is_faulty : Text → Bool) (input : Text) (found : List Text)
        → (found ≡ blocks_of is_faulty input)
        ↔ (FindsAll is_faulty (runs input) found ⊎ FindsFaulty is_faulty (runs input) found) }
{}

/// A reader for whom more runs are faulty than those that are too long finds its blocks among those that a splitter
/// gives.
pub fn other_faults_end_the_blocks_sooner()
    ensures { (is_faulty : Text → Bool)
        → ((run : Text) → is_too_long run ≡ true → is_faulty run ≡ true)
        → (input : Text)
        → blocks_of is_faulty input ≡ up_to_faulty is_faulty (blocks_of is_too_long input) }
{}

/// The first excess byte of a run is in the last line of its first 65,537 bytes.
pub fn excess_is_in_the_last_line()
    ensures { (run : Text) → most_bytes < length run
        → line_of_excess run ≡ length (lines_inclusive (take (most_bytes + 1) run)) }
{}

/// However an input is cut into pieces, a new splitter gives the complete runs of the bytes that it used and keeps
/// their rest, and its end gives that rest. So it gives the blocks of the input, and if it fails, the block of its
/// fault is the last, whatever comes later.
pub fn calls_give_the_blocks()
    ensures takes { (calls : List Call) (now : Split) → TakesAll opened calls now → GiveRuns calls now }
    ensures end { (calls : List Call) (now last : Split) (some : Bool)
        → TakesAll opened calls now → SplitEnds now some last → GiveAll calls (completed some last.block) }
    ensures too_long { (calls : List Call) (now last : Split) (piece : Text) (line : ℕ)
        → TakesAll opened calls now → SplitFailsBy (TooLong line) now piece last
        → (later : Text) → EndsTooLong (used_by calls ++ piece ++ later) (given_by calls) line }
{}
