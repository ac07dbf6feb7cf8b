//! Laws of the texts that one list has more often than another. Each is the contract of a function with an empty body.
ghost use Rattle.std.specs.Prelude.{◌≡◌, ◌↔◌, ◌+◌, ◌-◌, ◌≤◌, true, false, List, [], ◌∷◌, ◌++◌, codes, map};
ghost use Rattle.text_bytes.specs.Text.{Text};
ghost use Rattle.text_tables.specs.Texts.{is_among};
ghost use Rattle.text_tables.specs.Surplus.{ShownLine, line_of, surplus, surplus_by, times, unless_fewer};

/// A line is reported as many times as its list has it more often than the other list.
pub fn lines_are_reported_as_often_as_they_are_more()
    ensures { (texts others : List Text) (text : Text) → times text (surplus texts others) ≡ times text texts - times text others }
{}

/// If the lines that disappear are removed from the old ones and those that appear are added, the new ones are
/// left, each as often as it is there.
pub fn differences_lead_from_old_to_new()
    ensures taken { (old new : List Text) (text : Text) → times text (surplus old new) ≤ times text old }
    ensures put { (old new : List Text) (text : Text) → (times text old - times text (surplus old new)) + times text (surplus new old) ≡ times text new }
{}

/// Whatever is shown for lines, those are reported that are more.
pub fn lines_are_chosen_whatever_is_shown()
    ensures { (lines : List ShownLine) (others : List Text) → map line_of (surplus_by line_of lines others) ≡ surplus (map line_of lines) others }
{}

/// What is shown for lines is reported in their place, by an example: of two equal lines the last one.
pub fn what_is_shown_is_reported()
    ensures { surplus_by line_of
        ((codes "a", codes "1: a") ∷ (codes "b", codes "2: b") ∷ (codes "a", codes "3: a") ∷ (codes "c", codes "4: c") ∷ [])
        (codes "c" ∷ codes "a" ∷ []) ≡ (codes "b", codes "2: b") ∷ (codes "a", codes "3: a") ∷ [] }
{}

/// No line both disappears and appears.
pub fn no_line_disappears_and_appears()
    ensures { (old new : List Text) (text : Text) → is_among (surplus old new) text ≡ true → is_among (surplus new old) text ≡ false }
{}

/// No line disappears or appears if and only if both lists have each line equally often, in whatever order.
pub fn nothing_differs_where_lines_are_the_same()
    ensures { (old new : List Text) → ((surplus old new ≡ []) × (surplus new old ≡ [])) ↔ ((text : Text) → times text old ≡ times text new) }
{}

/// Lines are reported in the order of their list, and of equal ones the last: a line at the end of a list
/// is reported after the others, unless those before it have it less often than the other list.
pub fn the_last_of_equal_lines_are_reported()
    ensures { (texts others : List Text) (text : Text) → surplus (texts ++ text ∷ []) others ≡ surplus texts others ++ unless_fewer texts text text others }
{}
