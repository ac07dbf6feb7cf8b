//! What is true of blocks, in terms of whole lines and not of how they are read.
//!
//! Each function here is empty: its contract is the law.
ghost use Rattle.std.specs.Prelude.{◌≡◌, ◌↔◌, ◌≤◌, ◌∷◌, List, ℕ, length, true, false, Ok, Err, IsOk};
ghost use Rattle.text_bytes.specs.Text.{Text};
ghost use Rattle.device_core.specs.Values.{EventValue, chain};
ghost use Rattle.device_core.specs.Lines.{Row};
ghost use Rattle.device_core.specs.Blocks.{devices, event};
ghost use Rattle.device_core.specs.Faults.{given_by, block_gives};
ghost use Rattle.eval_laws.specs.DeviceWeights.{event_weight};
ghost use Rattle.eval_laws.specs.DeviceLaws.{rows_of, AreFaultless, AreGrouped, IsLeastFault, has_device};
ghost use Rattle.device_core.specs.declared.faults.BlockFault.{BlockFault};
ghost use Rattle.device_core.specs.declared.faults.BlockFaultKind.TheVariants.{NoDevice};

/// If a line is faulty, the fault is that of the first such line.
pub fn the_least_faulty_line_counts()
    ensures { (lines : List Text) (fault : BlockFault) → IsLeastFault lines fault → given_by lines ≡ Err fault }
{}

/// There is an event if and only if no line is faulty and one is a `P:`.
pub fn faultless_lines_with_a_device_give_an_event()
    ensures { (lines : List Text) → IsOk (given_by lines) ↔ ((AreFaultless lines) × (has_device (rows_of lines) ≡ true)) }
{}

/// The devices of an event are those of its lines, and so is all else.
pub fn an_event_is_that_of_its_lines()
    ensures { (lines : List Text) (given : EventValue) → given_by lines ≡ Ok given
        → (chain given ≡ devices (rows_of lines)) × (given ≡ event (rows_of lines) given.device given.parents) }
{}

/// If no line is faulty and none is a `P:`, that is the fault of the last line.
pub fn faultless_lines_without_a_device_lack_it()
    ensures { (line : Text) (below : List Text) → AreFaultless (line ∷ below) → has_device (rows_of (line ∷ below)) ≡ false
        → given_by (line ∷ below) ≡ Err (record { line = length (line ∷ below); kind = NoDevice }) }
{}

/// A line belongs to the last `P:` at or above it: lines are some without a `P:`, and then groups,
/// each a `P:` with the lines up to the next.
pub fn each_line_belongs_to_the_device_above()
    ensures { (rows : List Row) → AreGrouped rows }
{}

/// The texts of an event, each with one more, together are no longer than its block.
pub fn an_event_weighs_no_more_than_its_block()
    ensures { (block : Text) (given : EventValue) → block_gives block ≡ Ok given → event_weight given ≤ length block }
{}
