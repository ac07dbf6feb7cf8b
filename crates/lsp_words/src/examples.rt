//! Examples of whole rows, each the contract of a function with an empty body.
ghost use Rattle.std.specs.Prelude.{◌≡◌, None, Some, codes};
ghost use Rattle.text_bytes.specs.declared.source_file.FileKind.TheVariants.{Hwdb, Rules};
ghost use Rattle.lsp_words.specs.Codes.{code_at};
ghost use Rattle.lsp_words.specs.Examples.{code, word};
ghost use Rattle.lsp_words.specs.Meanings.{slot_around};
ghost use Rattle.lsp_words.specs.Slots.{slot_of};
ghost use Rattle.lsp_words.specs.declared.kinds.WordKind.TheVariants.{Action, Attribute, Builtin, DatabaseProperty, ImportType, Key, Letter};
ghost use Rattle.lsp_words.specs.declared.kinds.WordKind.TheVariants.{Match, Operator, Property, RuleOption, Substitution};

/// Outside quotes a word is a key or an operator, and in a key's braces it is what that key takes.
pub fn keys_and_braces_are_completed()
    ensures nothing { slot_of Rules (codes "") ≡ Some (word Key 0) }
    ensures key { slot_of Rules (codes "SUB") ≡ Some (word Key 0) }
    ensures second { slot_of Rules (codes "  TAG==\"a\", SUB") ≡ Some (word Key 12) }
    ensures operator { slot_of Rules (codes "KERNEL =") ≡ Some (word Operator 7) }
    ensures attribute { slot_of Rules (codes "ATTR{") ≡ Some (word Attribute 5) }
    ensures property { slot_of Rules (codes "ENV{ID_") ≡ Some (word Property 4) }
    ensures import { slot_of Rules (codes "IMPORT{bu") ≡ Some (word ImportType 7) }
    ensures bare { slot_of Rules (codes "KERNEL{") ≡ None }
    ensures comment { slot_of Rules (codes " # SUB") ≡ None }
{}

/// In a value a word is what the key takes there; a substitution begins at its sign.
pub fn values_are_completed()
    ensures builtin { slot_of Rules (codes "IMPORT{builtin}=\"") ≡ Some (word Builtin 17) }
    ensures option { slot_of Rules (codes "OPTIONS+=\"") ≡ Some (word RuleOption 10) }
    ensures action { slot_of Rules (codes "ACTION==\"add|re") ≡ Some (word Action 13) }
    ensures stored { slot_of Rules (codes "IMPORT{db}=\"ID_") ≡ Some (word Property 12) }
    ensures sign { slot_of Rules (codes "TAG+=\"a$") ≡ Some (word Substitution 7) }
    ensures compared { slot_of Rules (codes "TAG==\"a$") ≡ None }
    ensures any { slot_of Rules (codes "KERNEL==\"sd") ≡ None }
{}

/// The word that a byte is in, or else the one that ends there.
pub fn words_are_found_around_a_place()
    ensures braces { slot_around Rules (codes "ENV{ID_BUS}==\"usb\"") 6 ≡ Some (word Property 4) }
    ensures end { slot_around Rules (codes "TAG += \"a\"") 3 ≡ Some (word Key 0) }
    ensures sign { slot_around Rules (codes "TAG+=\"a$kernel\"") 7 ≡ Some (word Substitution 7) }
    ensures name { slot_around Rules (codes "TAG+=\"a$kernel\"") 14 ≡ Some (word Substitution 7) }
    ensures letter { slot_around Rules (codes "TAG+=\"%k%n\"") 8 ≡ Some (word Letter 8) }
    ensures inner { slot_around Rules (codes "TAG+=\"$env{ID_BUS}\"") 13 ≡ Some (word Property 11) }
    ensures escaped { slot_around Rules (codes "TAG+=\"\\\"$env{A}\"") 13 ≡ Some (word Property 13) }
    ensures comment { slot_around Rules (codes "# TAG") 3 ≡ None }
{}

/// In a database file a word begins a match, or names a property.
#[tactic(auto, unfolding(crate::specs::Meanings::slot_around, crate::specs::Slots::slot_of))]
pub fn words_of_database_files_are_found()
    ensures nothing { slot_of Hwdb (codes "") ≡ Some (word Match 0) }
    ensures prefix { slot_of Hwdb (codes "mou") ≡ Some (word Match 0) }
    ensures property { slot_of Hwdb (codes " ID_IN") ≡ Some (word DatabaseProperty 1) }
    ensures value { slot_of Hwdb (codes " ID_INPUT=") ≡ None }
    ensures comment { slot_of Hwdb (codes "# mou") ≡ None }
    ensures end { slot_around Hwdb (codes " MOUSE_DPI=800") 10 ≡ Some (word DatabaseProperty 1) }
{}

/// A code is found in a comment alone.
#[tactic(auto, unfolding(crate::specs::Codes::code_at))]
pub fn codes_are_found_in_comments()
    ensures code { code_at Rules (codes "# ignore V6,S2") 10 ≡ Some (code 9 11) }
    ensures end { code_at Rules (codes "# ignore V6,S2") 11 ≡ Some (code 9 11) }
    ensures long { code_at Hwdb (codes "usb:* # D10") 9 ≡ Some (code 8 11) }
    ensures word { code_at Rules (codes "# ignore V6,S2") 4 ≡ None }
    ensures value { code_at Rules (codes "TAG+=\"V6\"") 7 ≡ None }
{}
