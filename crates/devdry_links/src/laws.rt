//! What is true of the folders of `.link` files, and of what is met there.
//!
//! Each function here is empty: its contract is the law.
ghost use Rattle.std.specs.Prelude.{◌≡◌, ◌∷◌, All, [], codes, map, true};
ghost use Rattle.text_bytes.specs.Text.{Text};
ghost use Rattle.text_bytes.specs.declared.source_file.FileKind.TheVariants.{Rules};
ghost use Rattle.link_files.specs.Examples.{at};
ghost use Rattle.link_files.specs.Files.{is_masked};
ghost use Rattle.devdry_folders.specs.declared.reasons.Reason.{Reason};
ghost use Rattle.devdry_folders.specs.declared.sights.Met.TheVariants as met;
ghost use Rattle.devdry_links.specs.Places.{LinkPlaceValue, drop_in_places, link_places};
ghost use Rattle.devdry_links.specs.Visits.{file_of_met};

/// The folders of a root in their order, and what those of the drop-ins of a file put before their names; a file without bytes
/// has none.
pub fn folders_have_their_places()
    ensures links { map (λ p. p.path) (link_places (codes "/r")) ≡
        codes "/r/etc/systemd/network" ∷ codes "/r/run/systemd/network"
        ∷ codes "/r/usr/local/lib/systemd/network" ∷ codes "/r/usr/lib/systemd/network" ∷ [] }
    ensures drop_ins { map (λ p. p.before) (drop_in_places (codes "/r") (at Rules 3 (codes "a.link") (codes "x") ∷ [])) ≡
        codes "a.link.d/" ∷ codes "a.link.d/" ∷ codes "a.link.d/" ∷ codes "a.link.d/" ∷ [] }
    ensures masked { drop_in_places (codes "/r") (at Rules 0 (codes "a.link") [] ∷ []) ≡ [] }
{}

/// A file that can't be read masks those of its name, as one without bytes does.
pub fn what_cannot_be_read_masks()
    ensures { (place : LinkPlaceValue) (name : Text) (reason : Reason) →
        All (λ file. is_masked file ≡ true) (file_of_met place name (met.Unread reason)) }
{}
