//! Laws of the lines that appear and disappear. Each is the contract of a function with an empty body.
ghost use Rattle.std.specs.Prelude.{◌≡◌, ◌↔◌, ◌++◌, ◌∷◌, [], codes};
ghost use Rattle.text_json.specs.Told.{told};
ghost use Rattle.text_json.specs.Values.{array_of, object_of, value_line};
ghost use Rattle.text_bytes.specs.Text.{Text};
ghost use Rattle.text_tables.specs.Surplus.{times};
ghost use Rattle.device_core.specs.Values.{EventValue};
ghost use Rattle.engine_sessions.specs.EventLine.{event_line};
ghost use Rattle.engine_answers.specs.Differences.{ShownAnswer, compared_lines, differences, itself};
ghost use Rattle.engine_answers.specs.Objects.{differences_in_json};

/// Nothing is reported for two equal answers, whatever is shown for their lines.
pub fn the_same_answer_differs_in_nothing()
    ensures { (event : EventValue) (answer old_shown new_shown : Text) → differences event (answer, old_shown) (answer, new_shown) ≡ [] }
{}

/// Nothing is reported for an event if and only if its two answers have the same lines apart from notes, each as
/// often, in whatever order.
pub fn nothing_is_reported_where_lines_are_the_same()
    ensures { (event : EventValue) (old new : ShownAnswer) → (differences event old new ≡ [])
        ↔ ((text : Text) → times text (compared_lines old.0) ≡ times text (compared_lines new.0)) }
{}

/// What is reported, by an example: after the event's line the lines that disappear, each after `-`, then those
/// that appear, each after `+`, both in the order of their answer, and an empty line. The first line of an answer
/// is not compared, and neither are notes.
pub fn lines_that_disappear_come_before_those_that_appear()
    ensures { (event : EventValue) → differences event
        (itself (codes "event add /old\nlink x\nnote 1 a\nenv A=1\nmode 0600\n\n"))
        (itself (codes "event add /new\nmode 0660\nenv A=1\nnote 2 b\nlink y\n\n"))
        ≡ event_line event.action event.device.path ++ codes "-link x\n-mode 0600\n+mode 0660\n+link y\n\n" }
{}

/// What is shown for the lines is reported in their place, by an example: where they come from is not compared.
pub fn lines_are_reported_as_they_are_shown()
    ensures { (event : EventValue) → differences event
        (codes "event add /d\nlink x\nenv A=1\nrun program b\n\n", codes "event add /d\na.rules:1: link x\n-: env A=1\na.rules:2: run program b\n\n")
        (codes "event add /d\nlink y\nenv A=1\nrun program b\n\n", codes "event add /d\na.rules:1: link y\n-: env A=1\na.rules:3: run program b\n\n")
        ≡ event_line event.action event.device.path ++ codes "-a.rules:1: link x\n+a.rules:1: link y\n\n" }
{}

/// No object is reported for an event if and only if its two answers have the same lines apart from notes, each as
/// often, in whatever order.
pub fn no_object_is_reported_where_lines_are_the_same()
    ensures { (event : EventValue) (old new : ShownAnswer) → (differences_in_json event old new ≡ [])
        ↔ ((text : Text) → times text (compared_lines old.0) ≡ times text (compared_lines new.0)) }
{}

/// The object of an event, by an example: the lines that disappear, and then those that appear.
pub fn an_object_has_the_lines_that_disappear_and_appear()
    ensures { (event : EventValue) → differences_in_json event
        (itself (codes "event add /old\nlink x\nnote 1 a\nenv A=1\nmode 0600\n\n"))
        (itself (codes "event add /new\nmode 0660\nenv A=1\nnote 2 b\nlink y\n\n"))
        ≡ value_line (object_of (
        (codes "event", told event.action)
        ∷ (codes "path", told event.device.path)
        ∷ (codes "gone", array_of (told (codes "link x") ∷ told (codes "mode 0600") ∷ []))
        ∷ (codes "come", array_of (told (codes "mode 0660") ∷ told (codes "link y") ∷ []))
        ∷ [])) }
{}
