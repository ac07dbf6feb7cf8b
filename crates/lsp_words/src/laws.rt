//! What is true of the words and of what is found at them.
//!
//! Each function here is empty: its contract is the law.
ghost use Rattle.std.specs.Prelude.{◌≡◌, [], ◌∷◌, ◌++◌, ℕ, Option, Some, fold, length, map};
ghost use Rattle.text_bytes.specs.Names.{dollar, percent};
ghost use Rattle.text_bytes.specs.Text.{Text};
ghost use Rattle.rule_tokens.specs.Names.{long_names, short_names};
ghost use Rattle.rule_tokens.specs.Grammar.{AllAre, attribute_bytes, is_key_byte, operator_text};
ghost use Rattle.rule_tokens.specs.declared.kinds.Operator.{Operator};
ghost use Rattle.rule_types.specs.Builtins.{builtin_name, builtins};
ghost use Rattle.rule_types.specs.Names.{import_name, import_types, key_name, keys, run_name};
ghost use Rattle.lsp_words.specs.Contexts.{Context, context_of, step};
ghost use Rattle.lsp_words.specs.Entries.{entry_at};
ghost use Rattle.lsp_words.specs.Laws.{names_of, operators, option_names, run_types};
ghost use Rattle.lsp_words.specs.Tables.{entries_of};
ghost use Rattle.lsp_words.specs.Tokens.{head_text, in_value_of, is_in_braces, is_plain};
ghost use Rattle.lsp_words.specs.declared.kinds.WordKind.TheVariants as kind;
ghost use Rattle.lsp_words.specs.declared.moves.Place.TheVariants as place;

use crate::kinds::WordKind;

/// The keys that are told about are those of rules, and none is missing; so it is with operators, the types of IMPORT and
/// RUN, builtins, substitutions and options.
pub fn all_words_are_told_about()
    ensures keys { names_of kind.Key ≡ map key_name keys }
    ensures operators { names_of kind.Operator ≡ map operator_text operators }
    ensures imports { names_of kind.ImportType ≡ map import_name import_types }
    ensures runs { names_of kind.RunType ≡ map run_name run_types }
    ensures builtins { names_of kind.Builtin ≡ map builtin_name builtins }
    ensures substitutions { names_of kind.Substitution ≡ map (λ row. dollar ∷ row.0) long_names }
    ensures options { names_of kind.RuleOption ≡ option_names }
    ensures letters { names_of kind.Letter ≡ map (λ row. percent ∷ row.0) short_names }
{}

/// Each word is found by its name, with its own text: no other entry hides it.
pub fn each_word_has_its_own_text(kind: WordKind)
    ensures { map (λ row. entry_at (entries_of kind) (length row.name) row.name) (entries_of kind) ≡ map Some (entries_of kind) }
{}

/// In a token that is written as udev(7) says, the value belongs to the token's key, with what is in the key's braces, and
/// to its operator: in the first token of a row, and in each that begins where no other does, whatever came before.
pub fn a_value_belongs_to_its_token()
    ensures first { (k : ℕ) (key : Text) (braces : Option Text) (o : Operator) (value : Text) → AllAre is_key_byte (k ∷ key)
        → AllAre is_in_braces (attribute_bytes braces) → AllAre is_plain value
        → context_of (head_text (k ∷ key) braces o ++ value) ≡ in_value_of (k ∷ key) braces o [] value }
    ensures later { (c : Context) (k : ℕ) (key : Text) (braces : Option Text) (o : Operator) (value : Text) → AllAre is_key_byte (k ∷ key)
        → AllAre is_in_braces (attribute_bytes braces) → AllAre is_plain value
        → fold step (record c { place = place.Gap }) (head_text (k ∷ key) braces o ++ value) ≡ in_value_of (k ∷ key) braces o c.name value }
{}
