//! Laws of the catalogue.
//!
//! Each function has an empty body, and its contract is a law of the definitions.
ghost use Rattle.std.specs.Prelude.{◌≡◌, ◌==◌, ◌∷◌, ◌++◌, IsSomeAnd, Some, false, if◌then◌else◌, map};
ghost use Rattle.std.specs.List.{list_any};
ghost use Rattle.text_bytes.specs.Names.{space};
ghost use Rattle.text_bytes.specs.Text.{Text};
ghost use Rattle.text_bytes.specs.Texts.{up_to};
ghost use Rattle.file_messages.specs.Messages.{is_style};
ghost use Rattle.file_messages.specs.declared.message.MessageKind.{MessageKind};
ghost use Rattle.hwdb_core.specs.declared.lint.DatabaseLint.{DatabaseLint};
ghost use Rattle.link_files.specs.declared.fault.LinkFault.{LinkFault};
ghost use Rattle.rule_lints.specs.declared.lint.Lint.{Lint};
ghost use Rattle.file_catalogue.specs.Catalogue.{all_codes, code_of, remark_heading, remark_of, severity_of, text_of};
ghost use Rattle.file_catalogue.specs.Sections.{HasAdvice, HasHeading, explanation, sections};
ghost use Rattle.file_catalogue.specs.declared.remark.Remark.{Remark};
ghost use Rattle.file_catalogue.specs.declared.remark.Remark.TheVariants as about;
ghost use Rattle.file_catalogue.specs.declared.remark.Severity.TheVariants.{Error, Warning};

/// Each remark is found by its code, so that each has a row, and no two have the same code; and the remark that is found by a
/// code has it.
pub fn each_remark_is_found()
    ensures found { (remark : Remark) → remark_of (code_of remark) ≡ Some remark }
    ensures named { (code : Text) (remark : Remark) → remark_of code ≡ Some remark → code_of remark ≡ code }
{}

/// The heading of a remark is its code, a space and its text; the code has no space.
pub fn a_heading_is_its_code_and_text()
    ensures whole { (remark : Remark) → remark_heading remark ≡ code_of remark ++ space ∷ text_of remark }
    ensures code { (remark : Remark) → list_any (λ b. b == space) (code_of remark) ≡ false }
{}

/// Messages about style are warnings, and all other messages are errors. Lints and remarks on comments
/// are warnings.
pub fn style_is_a_warning()
    ensures message { (kind : MessageKind) → severity_of (about.Message kind) ≡ (if is_style kind then Warning else Error) }
    ensures lint { (lint : Lint) → severity_of (about.Lint lint) ≡ Warning }
    ensures database { (lint : DatabaseLint) → severity_of (about.DatabaseLint lint) ≡ Warning }
    ensures links { (fault : LinkFault) → severity_of (about.LinkFault fault) ≡ Error }
    ensures idle { severity_of about.IdleIgnore ≡ Warning }
    ensures unknown { severity_of about.UnknownCode ≡ Warning }
{}

/// There is a section on each code, in the order of the codes, and no other. It begins with the heading of the remark with the
/// code, and goes on with how to fix the file.
pub fn each_section_is_on_its_code()
    ensures order { map (up_to space) sections ≡ all_codes }
    ensures heading { (remark : Remark) → IsSomeAnd (explanation (code_of remark)) (HasHeading remark) }
    ensures advice { (remark : Remark) → IsSomeAnd (explanation (code_of remark)) (HasAdvice remark) }
{}
