//! What is true of an input as a file.
//!
//! Each function here is empty: its contract is the law.
ghost use Rattle.std.specs.Prelude.{◌≡◌, codes};
ghost use Rattle.devdry_files.specs.Answers.Answer.{Content, Looked, NoContent};
ghost use Rattle.devdry_files.specs.declared.disk.DiskFault.TheVariants.{Absent};
ghost use Rattle.devdry_files.specs.declared.look.Look.TheVariants.{File, Folder};
ghost use Rattle.devdry_files.specs.Beside.{MayBeside};

use crate::disk::Disk;

/// At its path the input is a file, whatever the disk has there: it is read with just these bytes, and seen as a file.
pub fn the_input_is_a_file<D: Disk>(disk: &D)
    ensures bytes { MayBeside (D.may_answer disk.now) (codes "a.rules") (codes "A") (Content (codes "a.rules") (codes "A")) }
    ensures others { MayBeside (D.may_answer disk.now) (codes "a.rules") (codes "A") (Content (codes "a.rules") (codes "B")) → ⊥ }
    ensures there { MayBeside (D.may_answer disk.now) (codes "a.rules") (codes "A") (NoContent (codes "a.rules") Absent) → ⊥ }
    ensures seen { MayBeside (D.may_answer disk.now) (codes "a.rules") (codes "A") (Looked (codes "a.rules") Folder) → ⊥ }
    ensures file { MayBeside (D.may_answer disk.now) (codes "a.rules") (codes "A") (Looked (codes "a.rules") File) }
{}

/// About all other paths, and about each folder, the disk answers.
pub fn all_else_is_answered_by_the_disk<D: Disk>(disk: &D)
    ensures content { D.may_answer disk.now (Content (codes "b.rules") (codes "B"))
        → MayBeside (D.may_answer disk.now) (codes "a.rules") (codes "A") (Content (codes "b.rules") (codes "B")) }
    ensures only { MayBeside (D.may_answer disk.now) (codes "a.rules") (codes "A") (Content (codes "b.rules") (codes "B"))
        → D.may_answer disk.now (Content (codes "b.rules") (codes "B")) }
{}
