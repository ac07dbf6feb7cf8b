//! Laws of what is asked for, each the contract of a function with an empty body.
ghost use Rattle.std.specs.Prelude.{◌≡◌, ◌||◌, IfSome, true, is_none, if◌then◌else◌, List, [], ◌∷◌};
ghost use Rattle.std.specs.List.{list_all, list_any};
ghost use Rattle.file_messages.specs.declared.message.Message as messages;
ghost use Rattle.text_bytes.specs.Text.{Text};
ghost use Rattle.text_tables.specs.Texts.{same_text};
ghost use Rattle.builtin_devices.specs.Knowledge.{Known};
ghost use Rattle.rule_types.specs.Rules as rules;
ghost use Rattle.device_core.specs.Values.{EventValue};
ghost use Rattle.engine_courses.specs.Asked.{is_asked, unknown};
ghost use Rattle.engine_courses.specs.Meant.{meant_file};
ghost use Rattle.engine_courses.specs.Nearest.{Place};
ghost use Rattle.engine_courses.specs.WhyLines.{reported_for, why_lines};

/// A text is unknown if and only if it asks for no rule and for no message's place.
#[tactic(auto, using(crate::proofs::Known::known_is))]
pub fn unknown_asks_for_nothing()
    ensures { (text : Text) (reported : List messages.Message) (read : List rules.Rule) → is_none (unknown (text ∷ []) reported read)
        ≡ (list_any (λ r. is_asked (text ∷ []) r.file r.line) read || list_any (λ m. is_asked (text ∷ []) m.file m.line) reported) }
{}

/// Of several texts the first unknown one is reported.
#[tactic(auto, using(crate::proofs::Known::first_is))]
pub fn first_unknown_is_reported()
    ensures { (text : Text) (why : List Text) (reported : List messages.Message) (read : List rules.Rule) → unknown (text ∷ why) reported read
        ≡ (if is_none (unknown (text ∷ []) reported read) then unknown why reported read else unknown (text ∷ []) reported read) }
{}

/// Rules that are not asked for have no line.
#[tactic(auto, using(crate::proofs::Reported::asked_alone))]
pub fn rules_are_reported_where_asked()
    ensures { (why : List Text) (read : List rules.Rule) (known : Known) (event : EventValue)
        → list_all (λ reported. is_asked why reported.0.file reported.0.line) (reported_for why read known event) ≡ true }
{}

/// If nothing is asked for, nothing is reported.
#[tactic(auto, using(crate::proofs::Reported::nothing_reported))]
pub fn nothing_is_reported_unasked()
    ensures { (reported : List messages.Message) (read : List rules.Rule) (known : Known) (event : EventValue) → why_lines [] reported read known event ≡ [] }
{}

/// A file that may be meant is one that was read: it has a place.
#[tactic(auto, using(crate::proofs::MeantFiles::meant_is_read))]
pub fn a_file_that_may_be_meant_was_read()
    ensures { (text : Text) (places : List Place) → IfSome (meant_file text places) (λ meant. list_any (λ place. same_text place.0 meant.0) places ≡ true) }
{}
