//! What is true of the faults of `.link` files.
//!
//! Each function here is empty: its contract is the law.
ghost use Rattle.std.specs.Prelude.{◌≡◌, ◌∷◌, List, [], codes, false, flat_map, true};
ghost use Rattle.text_bytes.specs.declared.source_file.FileKind.{FileKind};
ghost use Rattle.text_bytes.specs.declared.source_file.SourceFile.{SourceFile};
ghost use Rattle.link_files.specs.Examples.{at, line, of_fault};
ghost use Rattle.link_files.specs.Files.{with_drop_ins};
ghost use Rattle.link_files.specs.Faults.{file_faults, line_faults};
ghost use Rattle.link_files.specs.Matching.{link_faults, no_interface};
ghost use Rattle.link_files.specs.Values.{takes};
ghost use Rattle.link_files.specs.declared.fault.LinkFault.TheVariants.{BadLine, BadValue, UnknownKey, UnknownSection};
ghost use Rattle.link_files.specs.declared.keys.Form.TheVariants.{Boolean, Name, NamePolicies, Names};
ghost use Rattle.link_files.specs.declared.sections.Section.TheVariants as section;

/// A file without faults in its lines and in those of its drop-ins is used: each of these lines can be read.
pub fn faultless_files_are_used()
    ensures { (file : SourceFile) (drop_ins : List SourceFile)
        → flat_map (λ f. file_faults f.bytes) (file ∷ drop_ins) ≡ [] → (with_drop_ins file drop_ins).is_sound ≡ true }
{}

/// What is reported for lines, and where: a section, a key, a value and a line as a whole.
pub fn faults_have_their_places()
    ensures section { line_faults section.Link (line 3 (codes " [Matsch]")) ≡ of_fault 3 3 9 UnknownSection (codes "Matsch") }
    ensures extension { line_faults section.Link (line 3 (codes "[X-Own]")) ≡ [] }
    ensures key { line_faults section.Link (line 2 (codes "  Nmae=a")) ≡ of_fault 2 3 7 UnknownKey (codes "Nmae") }
    ensures other { line_faults section.Match (line 2 (codes "Name=a")) ≡ of_fault 2 1 5 UnknownKey (codes "Name") }
    ensures value { line_faults section.Link (line 2 (codes "NTupleFilter = maybe ")) ≡ of_fault 2 16 21 BadValue (codes "maybe") }
    ensures empty { line_faults section.Link (line 2 (codes "NTupleFilter=")) ≡ [] }
    ensures bare { line_faults section.Link (line 4 (codes "Name")) ≡ of_fault 4 1 5 BadLine (codes "Name") }
    ensures before { line_faults section.Before (line 1 (codes "Name=a")) ≡ of_fault 1 1 7 BadLine (codes "Name=a") }
    ensures skipped { line_faults section.Unknown (line 4 (codes "Name")) ≡ [] }
    ensures unread { line_faults section.Link (line 1 (codes "[Link")) ≡ of_fault 1 1 6 BadLine (codes "[Link") }
{}

/// Values that keys take, and some that they don't.
pub fn keys_take_their_values()
    ensures yes { takes Boolean (codes "Yes") ≡ true }
    ensures number { takes Boolean (codes "2") ≡ false }
    ensures pattern { takes Names (codes "!en* eth?") ≡ true }
    ensures long { takes Names (codes "en* a-name-of-16-byt") ≡ false }
    ensures digits { takes Name (codes "007") ≡ false }
    ensures policies { takes NamePolicies (codes "keep kernel  mac") ≡ true }
    ensures policy { takes NamePolicies (codes "keep Kernel") ≡ false }
{}

/// A file is for no interface if nothing is given in its `[Match]` or in that of a drop-in; a file without bytes masks others.
pub fn files_ask_for_an_interface()
    ensures none { (kind : FileKind) → link_faults [] (at kind 0 (codes "a.link") (codes "#")) ≡ no_interface ∷ [] }
    ensures drop_in { (kind : FileKind) → link_faults [] (at kind 0 (codes "a.link.d/b.conf") (codes "#")) ≡ [] }
    ensures masked { (kind : FileKind) → link_faults [] (at kind 0 (codes "a.link") []) ≡ [] }
{}
