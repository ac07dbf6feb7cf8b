//! What is true of the ways in a root, whatever a disk answers.
//!
//! Each function here is empty: its contract is the law.
ghost use Rattle.std.specs.Prelude.{◌≡◌, ◌++◌, ◌∷◌, [], codes};
ghost use Rattle.text_bytes.specs.Text.{Text};
ghost use Rattle.devdry_files.specs.Walks.{Enters, Way};
ghost use Rattle.devdry_files.specs.declared.walking.Next as nexts;

use crate::disk::Disk;

/// `..` leads one folder up, and at the root nowhere else.
#[tactic(auto, using(crate::proofs::Ways::above_last))]
pub fn dots_lead_one_folder_up<D: Disk>()
    ensures up { (disk : D) (root : Text) (way : Way) (name : Text) (then_next : nexts.Next) (to : Way)
        → Enters (D.may_answer disk) root (way ++ name ∷ []) (codes "..") then_next to → to ≡ way }
    ensures top { (disk : D) (root : Text) (then_next : nexts.Next) (to : Way)
        → Enters (D.may_answer disk) root [] (codes "..") then_next to → to ≡ [] }
{}
