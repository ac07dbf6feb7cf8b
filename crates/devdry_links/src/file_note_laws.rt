//! What is true of the notes on files.
//!
//! Each function here is empty: its contract is the law.
ghost use Rattle.std.specs.Prelude.{◌≡◌, ◌++◌, ◌∷◌, [], codes, nat_lt, true};
ghost use Rattle.text_bytes.specs.declared.source_file.SourceFile.{SourceFile};
ghost use Rattle.text_bytes.specs.declared.profile.Profile.{Profile};
ghost use Rattle.text_tables.specs.Texts.{same_text};
ghost use Rattle.devdry_links.specs.Notes.{kind_note, note_on, told_of_root, unseen_among, unseen_in};
ghost use Rattle.devdry_links.specs.Unseen.{byte_order_mark, has_no_break};

use text_bytes::{FileKind, Profile};

/// Of each that no editor shows the first line is told, and nothing of a comment's blanks or of a file without it.
#[tactic(auto, unfolding(crate::specs::Notes::unseen_in))]
pub fn unseen_signs_are_told_once()
    ensures each { unseen_in Profile.Manual (record {
      kind = FileKind.Rules;
      rank = 0;
      name = codes "a.rules";
      bytes = byte_order_mark ++ codes "A\n# " ++ 194 ∷ 160 ∷ codes "\nB\r\nC\r\nD" ++ 194 ∷ 160 ∷ codes "\nE" ++ 194 ∷ 160 ∷ [];
    })
        ≡ codes "devdry: a.rules:1: a byte order mark, which no editor shows: save the file as UTF-8 without one\n"
        ++ codes "devdry: a.rules:3: the line ends in a carriage return, as on Windows: save the file with LF alone\n"
        ++ codes "devdry: a.rules:5: a no-break space, which looks like a space: write a space\n" }
    ensures udev { unseen_in Profile.Udev (record { kind = FileKind.Rules; rank = 0; name = codes "a.rules"; bytes = byte_order_mark ++ codes "A\r\n" })
        ≡ codes "devdry: a.rules:1: a byte order mark, which no editor shows: save the file as UTF-8 without one\n" }
    ensures none { unseen_in Profile.Manual (record {
      kind = FileKind.Rules;
      rank = 0;
      name = codes "a.rules";
      bytes = codes "A \n# " ++ 194 ∷ 160 ∷ codes "\nB" ++ 195 ∷ 160 ∷ [];
    }) ≡ [] }
{}

/// A no-break space is found wherever it stands in a text.
pub fn no_break_spaces_are_found(before: &[u8], after: &[u8])
    ensures { has_no_break (before.now ++ 194 ∷ 160 ∷ after.now) ≡ true }
{}

/// Nothing is told of a file that is not read, since another one has its name and a lesser rank.
pub fn hidden_files_are_left_out()
    ensures { (profile : Profile) (file other : SourceFile) → same_text other.name file.name ≡ true → nat_lt other.rank file.rank ≡ true
        → unseen_among profile (file ∷ other ∷ []) file ≡ [] }
{}

/// A file of the other kind is told by its path, escaped, and a file of another name is not.
pub fn another_kind_is_told()
    ensures database { kind_note FileKind.Hwdb (codes "d/a.hwdb")
        ≡ codes "devdry: d/a.hwdb: a file of the hardware database by its name, which devdry update checks\n" }
    ensures rules { kind_note FileKind.Rules (codes "a\n.rules") ≡ codes "devdry: a\\x0A.rules: a rules file by its name, which devdry verify checks\n" }
    ensures other { kind_note FileKind.Hwdb (codes "a.rules") ≡ [] }
{}

/// A root is told by its path.
pub fn roots_are_told()
    ensures { note_on (codes "mnt") told_of_root
        ≡ codes "devdry: mnt: its rules are not read beside a FILE that is named: --with FILE reads FILE among them\n" }
{}
