//! What is true of the part of assigned texts that udev keeps.
//!
//! Each function here is empty: its contract is the law.
ghost use Rattle.std.specs.Prelude.{◌≡◌, ◌<◌, ◌^◌, ◌++◌, ◌==◌, ℕ, true, false, Some, codes};
ghost use Rattle.std.specs.List.{All, slice_split};
ghost use Rattle.text_bytes.specs.Names.{slash};
ghost use Rattle.text_bytes.specs.Text.{Text};
ghost use Rattle.rule_types.specs.Topics.{mode_of};
ghost use Rattle.eval_assignments.specs.Links.{is_barred, is_step, plain_link};
ghost use Rattle.eval_assignments.specs.Modes.{four_digits};

/// A link that udev keeps has no component that is empty or `.`, none that is `..`, and none of over 255 bytes.
pub fn kept_links_are_plain()
    ensures steps { (path link : Text) → plain_link path ≡ Some link → All (λ component. is_step component ≡ true) (slice_split (λ b. b == slash) link) }
    ensures free { (path link : Text) → plain_link path ≡ Some link → All (λ component. is_barred component ≡ false) (slice_split (λ b. b == slash) link) }
{}

/// A path of such components is a link that udev keeps as it is, also after `/dev/`.
pub fn plain_paths_are_links()
    ensures relative { (link : Text) → All (λ component. is_step component ≡ true) (slice_split (λ b. b == slash) link)
        → All (λ component. is_barred component ≡ false) (slice_split (λ b. b == slash) link) → plain_link link ≡ Some link }
    ensures absolute { (link : Text) → All (λ component. is_step component ≡ true) (slice_split (λ b. b == slash) link)
        → All (λ component. is_barred component ≡ false) (slice_split (λ b. b == slash) link) → plain_link (codes "/dev/" ++ link) ≡ Some link }
{}

/// A mode as it is reported is read as the same mode.
pub fn reported_modes_are_read_back()
    ensures { (mode : ℕ) → mode < 8 ^ 4 → mode_of (four_digits mode) ≡ Some mode }
{}
