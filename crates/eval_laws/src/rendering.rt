//! What is true of a rendered text, whatever the template and the event.
ghost use Rattle.std.specs.Prelude.{◌≡◌, ◌<◌, [], ◌∷◌, ◌++◌, ◌-◌, false, codes, flat_map, length, option_map, take, List, None, Some, ℕ};
ghost use Rattle.text_bytes.specs.Numbers.{is_digit};
ghost use Rattle.text_bytes.specs.Texts.{is_empty, trimmed};
ghost use Rattle.text_bytes.specs.declared.profile.Profile.TheVariants.{Manual, Udev};
ghost use Rattle.text_tables.specs.Pairs.{value_of};
ghost use Rattle.text_bytes.specs.Text.{Text};
ghost use Rattle.device_core.specs.Values.{DeviceValue, NumberValue};
ghost use Rattle.rule_tokens.specs.declared.piece.Piece.{Piece};
ghost use Rattle.rule_tokens.specs.declared.piece.Piece.TheVariants as piece;
ghost use Rattle.eval_state.specs.Chains.{device_at, kernel_of};
ghost use Rattle.eval_state.specs.Named.{NamedValue, named, named_place};
ghost use Rattle.eval_state.specs.Texts.{or_empty};
ghost use Rattle.eval_rendering.specs.Bounds.{bounded};
ghost use Rattle.eval_rendering.specs.Pieces.{as_read, attribute, attribute_read, named_attribute, piece_text};
ghost use Rattle.eval_rendering.specs.Words.{from_word, spaced, word_at};
ghost use Rattle.text_bytes.specs.Kernels.{longest_end};
ghost use Rattle.text_bytes.specs.Safe.{attribute_marks, link_marks, safe};
ghost use Rattle.rule_tokens.specs.Template as templates;
ghost use Rattle.eval_state.specs.declared.state.State as states;
ghost use Rattle.eval_rendering.specs.Rendering.{as_rendered, render, text_in};
ghost use Rattle.eval_rendering.specs.declared.rendered.Mode.{Mode};
ghost use Rattle.eval_rendering.specs.declared.rendered.Mode.TheVariants.{Link};
ghost use Rattle.eval_rendering.specs.declared.rendered.Rendered.TheVariants as rendered;
ghost use Rattle.eval_laws.specs.SafeTexts.{IsSafe};

use crate::safe_texts::safe_texts_are_safe;

/// A text that is rendered for a link has only ASCII letters and digits, marks, spaces, backslashes with an `x`
/// after them, and bytes over 127 that are part of a UTF-8 sequence.
pub fn rendered_links_are_safe()
    ensures { (template : templates.Parts) (state : states.State) (text : Text) → render template state Link ≡ rendered.Text text → IsSafe link_marks text }
{
    safe_texts_are_safe();
}

/// By the manual a text is rendered piece by piece, and too long only if the whole of it is. For udev a text is
/// also too long if it has an attribute of over 511 bytes that is not named with its device.
pub fn long_attributes_are_too_long()
    ensures manual { (template : templates.Parts) (state : states.State) (mode : Mode) → state.event.profile ≡ Manual
        → render template state mode ≡ as_rendered mode (bounded (flat_map (text_in mode state) template.pieces)) }
    ensures udev { (template : templates.Parts) (state : states.State) (mode : Mode) (before following : List Piece) (name : Text)
        → state.event.profile ≡ Udev → template.pieces ≡ before ++ piece.Attr name ∷ following → named_attribute name state.event ≡ None
        → 511 < length (as_read (or_empty (attribute_read name state))) → render template state mode ≡ rendered.TooLong }
{}

/// Each substitution is replaced with its own text: of the event device, of the selected one, of the next device above, of the
/// result, or of what the rules before left.
pub fn each_substitution_has_its_own_text()
    ensures device { (state : states.State) → (piece_text state piece.Kernel ≡ kernel_of state.event.device)
        × (piece_text state piece.Devpath ≡ state.event.device.path)
        × (piece_text state piece.Devnode ≡ or_empty (option_map (λ node. codes "/dev/" ++ node) state.event.device.node)) }
    ensures numbers { (state : states.State) (number : NumberValue) → state.event.device.number ≡ Some number
        → (piece_text state piece.Major ≡ number.major) × (piece_text state piece.Minor ≡ number.minor) }
    ensures no_numbers { (state : states.State) → state.event.device.number ≡ None
        → (piece_text state piece.Major ≡ codes "0") × (piece_text state piece.Minor ≡ codes "0") }
    ensures selected { (state : states.State) (place : ℕ) (device : DeviceValue) → state.selected ≡ Some place → device_at state.event place ≡ Some device
        → (piece_text state piece.Id ≡ kernel_of device) × (piece_text state piece.Driver ≡ or_empty device.driver) }
    ensures none_selected { (state : states.State) → state.selected ≡ None
        → (piece_text state piece.Id ≡ []) × (piece_text state piece.Driver ≡ []) }
    ensures parent { (state : states.State) (parent : DeviceValue) → device_at state.event 1 ≡ Some parent
        → piece_text state piece.Parent ≡ or_empty parent.node }
    ensures program { (state : states.State) (number : ℕ) → (piece_text state piece.Result ≡ state.result)
        × (piece_text state (piece.Word number) ≡ word_at (number - 1) state.result)
        × (piece_text state (piece.From number) ≡ from_word (number - 1) state.result) }
    ensures kept { (state : states.State) (name : Text) → (piece_text state (piece.Env name) ≡ or_empty (value_of state.env name))
        × (piece_text state piece.Links ≡ spaced state.links) }
    ensures assigned { (state : states.State) (name : Text) → state.name ≡ Some name → piece_text state piece.Name ≡ name }
    ensures manual { (state : states.State) → state.event.profile ≡ Manual
        → (piece_text state piece.Number ≡ longest_end is_digit (kernel_of state.event.device))
        × ((name : Text) → piece_text state (piece.Attr name) ≡ safe attribute_marks (trimmed (or_empty (attribute name state))))
        × (state.name ≡ None → piece_text state piece.Name ≡ kernel_of state.event.device) }
    ensures written { (state : states.State) (text : Text) → (piece_text state (piece.Plain text) ≡ text)
        × (piece_text state piece.Root ≡ codes "/dev") × (piece_text state piece.Sys ≡ codes "/sys") }
{}

/// With udev an attribute that is named with its device is that of this device in any text, made safe, up to its
/// first 511 bytes.
pub fn named_attributes_are_cut()
    ensures { (state : states.State) (name : Text) (is : NamedValue) (place : ℕ) (device : DeviceValue) → state.event.profile ≡ Udev → named name ≡ Some is
        → is_empty is.attribute ≡ false → named_place is state.event ≡ Some place → device_at state.event place ≡ Some device
        → piece_text state (piece.Attr name) ≡ safe attribute_marks (trimmed (take 511 (as_read (or_empty (value_of device.attrs is.attribute))))) }
{}
