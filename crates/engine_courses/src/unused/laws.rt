//! What holds of the lines of `--unused`. Each law is the contract of a function that does nothing.
ghost use Rattle.std.specs.Prelude.{◌≡◌, ◌≤◌, ◌<◌, ℕ, true, false, List, [], ◌∷◌, ◌++◌, codes, count_by, length, map, slice_index_or};
ghost use Rattle.std.specs.List.{list_any};
ghost use Rattle.text_bytes.specs.Names.{newline};
ghost use Rattle.builtin_devices.specs.Knowledge.{Known};
ghost use Rattle.rule_types.specs.Rules as rules;
ghost use Rattle.device_core.specs.Values.{EventValue};
ghost use Rattle.engine_sessions.specs.Places.{place_of};
ghost use Rattle.eval_courses.specs.Fates.{keys_of};
ghost use Rattle.eval_courses.specs.declared.fate.Fate as fate;
ghost use Rattle.engine_courses.specs.UnusedLaws.{after, ends_at, fates_of, is_reached};
ghost use Rattle.engine_courses.specs.Rows.{counted, unreached};
ghost use Rattle.engine_courses.specs.Unused.{first_place, greatest, unused_line};

/// Each event is counted once for a rule that it reaches, and once at the place where it ended there.
pub fn each_event_is_counted_where_it_ended()
    ensures reached { (r : rules.Rule) (fs : List fate.Fate) → (after r fs).reached ≡ count_by is_reached fs }
    ensures ends { (r : rules.Rule) (fs : List fate.Fate) (place : ℕ) → place ≤ length (keys_of r)
        → slice_index_or (after r fs).ends place 0 ≡ count_by (ends_at place) fs }
{}

/// A rule that some event met has no line.
pub fn a_rule_that_an_event_met_has_no_line()
    ensures { (r : rules.Rule) (fs : List fate.Fate) → list_any (ends_at 0) fs ≡ true → unused_line r (after r fs) ≡ [] }
{}

/// A rule that no event reached is said to be not reached.
pub fn a_rule_that_no_event_reached_is_not_reached()
    ensures { (r : rules.Rule) (fs : List fate.Fate) → list_any is_reached fs ≡ false
        → unused_line r (after r fs) ≡ codes "unused " ++ place_of r.file r.line ++ codes "not reached" ++ newline ∷ [] }
{}

/// The key that is named stopped as many events as any other key, and each key in front of it stopped fewer.
pub fn no_key_stopped_more_events_than_the_one_named()
    ensures most { (stops : List ℕ) (place : ℕ) → slice_index_or stops place 0 ≤ greatest stops }
    ensures named { (stops : List ℕ) → 0 < length stops → slice_index_or stops (first_place (greatest stops) stops) 0 ≡ greatest stops }
    ensures first { (stops : List ℕ) (place : ℕ) → place < first_place (greatest stops) stops → slice_index_or stops place 0 < greatest stops }
{}

/// The counts of the rules after some events are, for each rule, those of its own fates at them.
pub fn each_rule_is_counted_by_its_own_fates()
    ensures { (read : List rules.Rule) (known : Known) (events : List EventValue) (place : ℕ) (r : rules.Rule) → place < length read
        → slice_index_or (counted read known (map unreached read) events) place (unreached r)
        ≡ after (slice_index_or read place r) (fates_of read known place events) }
{}
