//! What is true of how `.link` files are read.
//!
//! Each function here is empty: its contract is the law.
ghost use Rattle.std.specs.Prelude.{◌≡◌, ◌≤◌, ◌∷◌, List, Some, [], codes, false, length, true};
ghost use Rattle.text_bytes.specs.Text.{Text};
ghost use Rattle.text_bytes.specs.declared.source_file.FileKind.{FileKind};
ghost use Rattle.link_files.specs.Examples.{at};
ghost use Rattle.link_files.specs.Files.{link_files};
ghost use Rattle.link_files.specs.Lines.{joined};
ghost use Rattle.link_files.specs.Names.{is_interface_name};
ghost use Rattle.link_files.specs.Settings.{ReadingValue, broken, with_line, with_section, with_setting};
ghost use Rattle.link_files.specs.Words.{words_of};
ghost use Rattle.link_files.specs.declared.words.WordKind.TheVariants.{Plain, Glob};

/// A name of an interface has at most 15 bytes.
#[tactic(auto, unfolding(crate::specs::Names::is_interface_name))]
pub fn names_are_short()
    ensures { (text : Text) → is_interface_name text ≡ true → length text ≤ 15 }
{}

/// Texts that may be the name of an interface, and some that may not: digits alone, a reserved one, one with `:` or `%`.
#[tactic(auto, unfolding(crate::specs::Names::is_interface_name))]
pub fn names_of_interfaces()
    ensures plain { is_interface_name (codes "enp0s31f6") ≡ true }
    ensures digits { is_interface_name (codes "0123") ≡ false }
    ensures reserved { is_interface_name (codes "all") ≡ false }
    ensures colon { is_interface_name (codes "eth0:1") ≡ false }
    ensures percent { is_interface_name (codes "net%d") ≡ false }
{}

/// How lines are put together: a comment between two lines that belong together is left out, and a backslash before
/// another does not continue a line.
#[tactic(auto, unfolding(crate::specs::Lines::joined_from, crate::specs::Lines::is_comment))]
pub fn lines_are_put_together()
    ensures continued { joined (codes "a \\" ∷ codes "# b" ∷ codes "c" ∷ codes " ;d" ∷ []) ≡ codes "a  c" ∷ [] ∷ [] }
    ensures escaped { joined (codes "a\\\\" ∷ codes "b\\" ∷ []) ≡ codes "a\\\\" ∷ codes "b " ∷ [] }
{}

/// How values are split: quotes keep blanks in a word of a pattern, where a backslash stays; in a plain list a backslash
/// does so, and quotes stay. A quote that stays open drops its word.
#[tactic(auto, unfolding(crate::specs::Words::words_of, crate::specs::Words::split, crate::specs::Words::split_byte))]
pub fn values_are_split()
    ensures globs { words_of Glob (codes "a 'b c'd e\\f '' \"g") ≡ codes "a" ∷ codes "b cd" ∷ codes "e\\f" ∷ [] ∷ [] }
    ensures plain { words_of Plain (codes "'a b' c\\ d\\\\") ≡ codes "'a" ∷ codes "b'" ∷ codes "c d\\" ∷ [] }
{}

/// Of a file in two folders the first counts, with its drop-ins of all folders, none of them hidden; if it is empty, none
/// counts. The kinds of the files are not looked at.
pub fn files_are_put_together()
    ensures first { (kind : FileKind) → link_files (at kind 3 (codes "a.link") (codes "#") ∷ at kind 1 (codes "a.link") (codes "#") ∷ [])
        (at kind 2 (codes "a.link.d/b.conf") [] ∷ [])
        ≡ record {
          path = codes "/run/systemd/network/a.link";
          drop_ins = codes "/usr/local/lib/systemd/network/a.link.d/b.conf";
          is_sound = true;
          settings = [];
        } ∷ [] }
    ensures other { (kind : FileKind) → link_files (at kind 0 (codes "a.link") (codes "#") ∷ [])
        (at kind 0 (codes "a.link.d/.b.conf") [] ∷ at kind 0 (codes "a-.link.d/b.conf") [] ∷ [])
        ≡ record { path = codes "/etc/systemd/network/a.link"; drop_ins = []; is_sound = true; settings = [] } ∷ [] }
    ensures masked { (kind : FileKind) → link_files (at kind 3 (codes "a.link") (codes "#") ∷ at kind 0 (codes "a.link") [] ∷ []) [] ≡ [] }
{}

/// What a line adds: blanks around the key and the value are no part of them; a section is between brackets, and
/// a line without `=` adds nothing.
pub fn lines_set_keys()
    ensures setting { (r : ReadingValue) → with_line r (codes " Name = e=f\t") ≡ with_setting r (codes "Name") (codes "e=f") }
    ensures section { (r : ReadingValue) → with_line r (codes "[Link] ") ≡ with_section r (Some (codes "Link")) }
    ensures broken { (r : ReadingValue) → with_line r (codes "[Link] a") ≡ broken r }
    ensures bare { (r : ReadingValue) → with_line r (codes "Name") ≡ r }
{}
