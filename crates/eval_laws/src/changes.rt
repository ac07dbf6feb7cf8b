//! What an assignment changes, whatever the rule is.
//!
//! Each function here is empty: its contract is the law.
ghost use Rattle.std.specs.Prelude.{◌≡◌, ◌≢◌, ◌∷◌, ◌++◌, [], ◌||◌, not, true, false, filter, fold};
ghost use Rattle.std.specs.Prelude.{if◌then◌else◌, is_some, option_map, List, Option, Some, None, ℤ};
ghost use Rattle.std.specs.List.{list_any};
ghost use Rattle.text_bytes.specs.Names.{space};
ghost use Rattle.text_bytes.specs.Texts.{is_empty};
ghost use Rattle.text_bytes.specs.declared.profile.Profile.TheVariants.{Manual, Udev};
ghost use Rattle.text_tables.specs.Pairs.{value_of};
ghost use Rattle.text_bytes.specs.Text.{Text};
ghost use Rattle.text_tables.specs.Texts.{is_among, without_text};
ghost use Rattle.rule_tokens.specs.Template as templates;
ghost use Rattle.rule_types.specs.declared.part.Assignment.{Assignment};
ghost use Rattle.rule_types.specs.declared.part.Change.TheVariants as change;
ghost use Rattle.rule_types.specs.declared.roles.AssignOperator.{AssignOperator};
ghost use Rattle.rule_types.specs.declared.roles.AssignOperator.TheVariants.{Assign, Add, Remove, AssignFinal};
ghost use Rattle.rule_types.specs.declared.roles.Target.TheVariants as target;
ghost use Rattle.rule_types.specs.declared.rule_option.RuleOption.TheVariants as option;
ghost use Rattle.rule_types.specs.declared.types.RunType.{RunType};
ghost use Rattle.rule_types.specs.Rules.{Rule};
ghost use Rattle.rule_types.specs.Topics.{mode_of};
ghost use Rattle.device_core.specs.Values.{NumberValue};
ghost use Rattle.eval_state.specs.Finals.{is_final, made_final};
ghost use Rattle.eval_state.specs.Runs.{RunValue, runs_after, same_run};
ghost use Rattle.eval_state.specs.declared.finals.FinalKey.{FinalKey};
ghost use Rattle.eval_state.specs.declared.finals.FinalKey.TheVariants as key;
ghost use Rattle.eval_state.specs.declared.finals.Finals.{Finals};
ghost use Rattle.eval_state.specs.Texts.{or_empty};
ghost use Rattle.eval_state.specs.declared.scene.Scene.{Scene};
ghost use Rattle.eval_rendering.specs.Bounds.{bounded, most_command_bytes, most_value_bytes, within};
ghost use Rattle.eval_rendering.specs.Rendering.{render};
ghost use Rattle.eval_rendering.specs.declared.rendered.Mode.TheVariants.{Plain};
ghost use Rattle.eval_rendering.specs.declared.rendered.Rendered.TheVariants as rendered;
ghost use Rattle.eval_assignments.specs.Assigning.{link_text, unless_empty};
ghost use Rattle.eval_assignments.specs.Escapes.{escape_of};
ghost use Rattle.eval_assignments.specs.Finality.{final_key};
ghost use Rattle.eval_assignments.specs.Links.{words};
ghost use Rattle.eval_assignments.specs.Lists.{changed, link_names, one_tag};
ghost use Rattle.eval_assignments.specs.Modes.{four_digits};
ghost use Rattle.eval_assignments.specs.Names.{name_text};
ghost use Rattle.eval_assignments.specs.Runs.{made_before};
ghost use Rattle.eval_assignments.specs.Steps.{set_step};
ghost use Rattle.eval_laws.specs.AssignmentLaws.{Keeps};
ghost use Rattle.eval_laws.specs.Making.{IsAssigned, after_option, after_text, is_made};
ghost use Rattle.eval_laws.specs.Scopes.{but_for};

/// `=` and `:=` leave just the tags or links that are given, each once: the first, and after it what they leave of
/// the others without that one.
pub fn assigned_texts_are_alone()
    ensures none { (texts : List Text) → changed Assign [] texts ≡ [] }
    ensures first { (text : Text) (others texts : List Text) → changed Assign (text ∷ others) texts ≡ text ∷ without_text (changed Assign others texts) text }
    ensures last { (given texts : List Text) → changed AssignFinal given texts ≡ changed Assign given texts }
{}

/// `+=` leaves tags and links as they are, in their order, and adds after them those that are given and not there,
/// as `=` leaves these.
pub fn added_texts_come_last()
    ensures order { (more texts : List Text) → changed Add more texts ≡ texts ++ filter (λ t. not (is_among texts t)) (changed Assign more []) }
    ensures members { (more texts : List Text) (t : Text) → is_among (changed Add more texts) t ≡ (is_among texts t || is_among more t) }
{}

/// `-=` removes just the tags or links that are given; the others stay, in their order.
pub fn only_the_given_texts_are_removed()
    ensures { (gone texts : List Text) → changed Remove gone texts ≡ filter (λ t. not (is_among gone t)) texts }
{}

/// `:=` makes its key final if it is made, so that no later assignment changes the key. No other operator makes a
/// key final. For udev an assignment whose text is too long also counts as made.
pub fn a_final_assignment_makes_its_key_final()
    ensures made { (r : Rule) (a : Assignment) (s : Scene) (k : FinalKey) → a.operator ≡ AssignFinal → final_key s.state.event.profile a.change ≡ Some k
        → is_final s.finals k ≡ false → is_final (set_step r s a).finals k ≡ is_made r a.change s }
    ensures later { (r : Rule) (a : Assignment) (s : Scene) (k : FinalKey) → a.operator ≡ AssignFinal → final_key s.state.event.profile a.change ≡ Some k
        → is_made r a.change s ≡ true → (other : Rule) (sets : List Assignment) → Keeps k (set_step r s a) (fold (set_step other) (set_step r s a) sets) }
    ensures others { (r : Rule) (a : Assignment) (s : Scene) → a.operator ≢ AssignFinal → (set_step r s a).finals ≡ s.finals }
{}

/// A key that is made final is final, and each other key is as it was.
pub fn a_key_becomes_final_alone()
    ensures made { (finals : Finals) (k : FinalKey) → is_final (made_final finals k) k ≡ true }
    ensures others { (finals : Finals) (k other : FinalKey) → k ≢ other → is_final (made_final finals k) other ≡ is_final finals other }
{}

/// An assignment of OWNER, GROUP or MODE that is made leaves its text, and with the empty text none. With udev the
/// empty text keeps what was there, and so does an invalid mode; a mode is reported with four octal digits.
pub fn assigned_texts_are_there()
    ensures owner { (r : Rule) (o : AssignOperator) (template : templates.Parts) (s : Scene) (t : Text) → s.state.event.profile ≡ Manual
        → is_final s.finals key.Owner ≡ false → render template s.state Plain ≡ rendered.Text t
        → (set_step r s (record { operator = o; change = change.Text target.Owner template })).owner ≡ (if is_empty t then None else Some t) }
    ensures group { (r : Rule) (o : AssignOperator) (template : templates.Parts) (s : Scene) (t : Text) → s.state.event.profile ≡ Manual
        → is_final s.finals key.Group ≡ false → render template s.state Plain ≡ rendered.Text t
        → (set_step r s (record { operator = o; change = change.Text target.Group template })).group ≡ (if is_empty t then None else Some t) }
    ensures mode { (r : Rule) (o : AssignOperator) (template : templates.Parts) (s : Scene) (t : Text) → s.state.event.profile ≡ Manual
        → is_final s.finals key.Mode ≡ false → render template s.state Plain ≡ rendered.Text t
        → (set_step r s (record { operator = o; change = change.Text target.Mode template })).mode ≡ (if is_empty t then None else Some t) }
    ensures udev_owner { (r : Rule) (o : AssignOperator) (template : templates.Parts) (s : Scene) (t : Text) → s.state.event.profile ≡ Udev
        → (number : NumberValue) → s.state.event.device.number ≡ Some number → is_final s.finals key.Owner ≡ false
        → within most_value_bytes (render template s.state Plain) ≡ rendered.Text t
        → (set_step r s (record { operator = o; change = change.Text target.Owner template })).owner ≡ (if is_empty t then s.owner else Some t) }
    ensures udev_group { (r : Rule) (o : AssignOperator) (template : templates.Parts) (s : Scene) (t : Text) → s.state.event.profile ≡ Udev
        → (number : NumberValue) → s.state.event.device.number ≡ Some number → is_final s.finals key.Group ≡ false
        → within most_value_bytes (render template s.state Plain) ≡ rendered.Text t
        → (set_step r s (record { operator = o; change = change.Text target.Group template })).group ≡ (if is_empty t then s.group else Some t) }
    ensures udev_mode { (r : Rule) (o : AssignOperator) (template : templates.Parts) (s : Scene) (t : Text) → s.state.event.profile ≡ Udev
        → (number : NumberValue) → s.state.event.device.number ≡ Some number → is_final s.finals key.Mode ≡ false
        → within most_value_bytes (render template s.state Plain) ≡ rendered.Text t
        → (set_step r s (record { operator = o; change = change.Text target.Mode template })).mode
        ≡ (if is_empty t then s.mode else if is_some (mode_of t) then option_map four_digits (mode_of t) else s.mode) }
{}

/// By the manual SYMLINK and TAG change the links and the tags as their operator says, NAME the name, ENV a property, which
/// the empty text removes and `+=` extends, and ATTR, SYSCTL and SECLABEL the text of the name in their braces.
pub fn each_key_changes_what_it_names()
    ensures links { (r : Rule) (o : AssignOperator) (template : templates.Parts) (s : Scene) (t : Text) → IsAssigned r target.Symlink template s t
        → (after_text r o target.Symlink template s).state.links ≡ changed o (link_names (link_text (escape_of r.sets) t)) s.state.links }
    ensures tags { (r : Rule) (o : AssignOperator) (template : templates.Parts) (s : Scene) (t : Text) → IsAssigned r target.Tag template s t
        → (after_text r o target.Tag template s).state.tags ≡ changed o (one_tag t) s.state.tags }
    ensures name { (r : Rule) (o : AssignOperator) (template : templates.Parts) (s : Scene) (t : Text) → IsAssigned r target.Name template s t
        → (after_text r o target.Name template s).state.name ≡ unless_empty (name_text Manual (escape_of r.sets) t) }
    ensures property { (name : Text) (r : Rule) (o : AssignOperator) (template : templates.Parts) (s : Scene) (t : Text)
        → IsAssigned r (target.Env name) template s t → o ≢ Add → value_of (after_text r o (target.Env name) template s).state.env name ≡ unless_empty t }
    ensures first { (name : Text) (r : Rule) (template : templates.Parts) (s : Scene) (t : Text) → IsAssigned r (target.Env name) template s t
        → is_empty t ≡ false → or_empty (value_of s.state.env name) ≡ []
        → value_of (after_text r Add (target.Env name) template s).state.env name ≡ Some t }
    ensures extended { (name : Text) (r : Rule) (template : templates.Parts) (s : Scene) (t value whole : Text)
        → IsAssigned r (target.Env name) template s t → is_empty t ≡ false → is_empty value ≡ false → value_of s.state.env name ≡ Some value
        → bounded (value ++ space ∷ t) ≡ Some whole
        → value_of (after_text r Add (target.Env name) template s).state.env name ≡ Some whole }
    ensures attribute { (name : Text) (r : Rule) (o : AssignOperator) (template : templates.Parts) (s : Scene) (t : Text)
        → IsAssigned r (target.Attr name) template s t → value_of (after_text r o (target.Attr name) template s).attrs name ≡ Some t }
    ensures parameter { (name : Text) (r : Rule) (o : AssignOperator) (template : templates.Parts) (s : Scene) (t : Text)
        → IsAssigned r (target.Sysctl name) template s t → value_of (after_text r o (target.Sysctl name) template s).sysctls name ≡ Some t }
    ensures label { (name : Text) (r : Rule) (o : AssignOperator) (template : templates.Parts) (s : Scene) (t : Text)
        → IsAssigned r (target.Seclabel name) template s t → value_of (after_text r o (target.Seclabel name) template s).labels name ≡ Some t }
{}

/// `link_priority`, `watch`, `nowatch` and `db_persist` each set their own field, unless it is final.
pub fn each_option_sets_what_it_names()
    ensures priority { (r : Rule) (o : AssignOperator) (s : Scene) (priority : ℤ) → is_final s.finals key.Priority ≡ false
        → (after_option r o (option.LinkPriority priority) s).priority ≡ Some priority }
    ensures watch { (r : Rule) (o : AssignOperator) (s : Scene) → is_final s.finals key.Watch ≡ false
        → (after_option r o option.Watch s).watch ≡ Some true }
    ensures nowatch { (r : Rule) (o : AssignOperator) (s : Scene) → is_final s.finals key.Watch ≡ false
        → (after_option r o option.NoWatch s).watch ≡ Some false }
    ensures persist { (r : Rule) (o : AssignOperator) (s : Scene) → (after_option r o option.DbPersist s).persist ≡ true }
{}

/// An assignment changes nothing but what it is about, the keys that are final, and the notes: with ENV the properties of other
/// names stay, each in its place.
pub fn an_assignment_changes_nothing_else()
    ensures { (r : Rule) (a : Assignment) (s : Scene) → but_for a.change (set_step r s a) ≡ but_for a.change s }
{}

/// A RUN that is not there, and whose written text is not empty, is the last of the runs after `+=`, and the only
/// one after any other operator. One whose written text is empty is not added. udev adds the text that it is
/// rendered to at its rule, if that has a word, after those that the operator leaves.
pub fn new_runs_come_last()
    ensures added { (runs : List RunValue) (run : RunValue) → is_empty run.template.written ≡ false → list_any (same_run run) runs ≡ false
        → runs_after Add runs run ≡ runs ++ run ∷ [] }
    ensures alone { (o : AssignOperator) (runs : List RunValue) (run : RunValue) → o ≢ Add → is_empty run.template.written ≡ false
        → runs_after o runs run ≡ run ∷ [] }
    ensures empty { (runs : List RunValue) (run : RunValue) → is_empty run.template.written ≡ true → runs_after Add runs run ≡ runs }
    ensures kept { (r : Rule) (o : AssignOperator) (braces : Option RunType) (template : templates.Parts) (s : Scene) → s.state.event.profile ≡ Manual
        → is_final s.finals key.Run ≡ false → (set_step r s (record { operator = o; change = change.Run braces template })).runs
        ≡ runs_after o s.runs (record { rule = r; braces = braces; template = template; selected = s.state.selected }) }
    ensures made { (r : Rule) (o : AssignOperator) (braces : Option RunType) (template : templates.Parts) (s : Scene) (text : Text)
        → s.state.event.profile ≡ Udev → is_final s.finals key.Run ≡ false → within most_command_bytes (render template s.state Plain) ≡ rendered.Text text
        → is_empty (words text) ≡ false → (set_step r s (record { operator = o; change = change.Run braces template })).made ≡ made_before o s.made
        ++ record { run = record { rule = r; braces = braces; template = template; selected = s.state.selected }; text = text } ∷ [] }
{}
