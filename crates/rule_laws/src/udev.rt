//! Laws of what udev reads otherwise than the manual says, each the contract of a function with an empty body.
ghost use Rattle.std.specs.Prelude.{List};
ghost use Rattle.text_bytes.specs.Text.{Text};
ghost use Rattle.text_bytes.specs.declared.profile.Profile.TheVariants.{Udev};
ghost use Rattle.rule_types.specs.declared.part.Part.{Part};
ghost use Rattle.rule_tokens.specs.Grammar.{Placed};
ghost use Rattle.rule_core.specs.Drafts.{first_place, sets_of};
ghost use Rattle.rule_types.specs.Tokens.{WrittenPart};
ghost use Rattle.rule_laws.specs.LineEnds.{StaysAsRead, TakesLongestEnd};
ghost use Rattle.rule_laws.specs.Turns.{KnownComeLast};
ghost use Rattle.rule_laws.specs.Udev.{CountsInPlace, IsFirstPlace};

/// Of the ends of lines that udev knows, the longest with which a text begins is taken.
pub fn ends_are_the_longest()
    ensures { (text : Text) → TakesLongestEnd text }
{}

/// A file as udev read it has no carriage return and no NUL, and stays as it is when it is read again.
pub fn read_files_stay()
    ensures { (text : Text) → StaysAsRead text }
{}

/// The first token of a line follows all commas and blanks in front.
pub fn first_tokens_follow_gaps()
    ensures { (line : Text) → IsFirstPlace line (first_place Udev line) }
{}

/// A label after others counts instead of the one that counted before it, which is reported.
pub fn last_label_counts()
    ensures { (line : Text) (parts : List WrittenPart) (t : Placed) (name : Text) → CountsInPlace line parts t name }
{}

/// Of the assignments of OWNER, GROUP and MODE, none whose value is rendered for each event comes after one whose
/// value is known when the rule is read: a text without substitutions, and for MODE an octal number up to 7777.
pub fn known_values_come_last()
    ensures { (parts : List Part) → KnownComeLast (sets_of Udev parts) }
{}
