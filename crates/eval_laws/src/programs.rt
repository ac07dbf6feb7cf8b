//! What a PROGRAM leaves. The function here is empty: its contract is the law.
ghost use Rattle.std.specs.Prelude.{◌≡◌, ◌↔◌, [], true, false};
ghost use Rattle.text_bytes.specs.Text.{Text};
ghost use Rattle.builtin_devices.specs.Knowledge.{Known};
ghost use Rattle.rule_tokens.specs.Template as templates;
ghost use Rattle.rule_types.specs.Rules.{Rule};
ghost use Rattle.eval_state.specs.declared.scene.Scene.{Scene};
ghost use Rattle.eval_acts.specs.Acts.{act_step};
ghost use Rattle.eval_acts.specs.Questions.{result_of, with_result};
ghost use Rattle.eval_laws.specs.Answered.{IsAnswered, program};

/// `PROGRAM==` holds if and only if the event's block answers its command with status 0, and then the answer's
/// text, for udev with its bytes as udev has them, is the result, and nothing else changes. After each failure the
/// result is empty, whatever it was before: if the command is too long, if the block has no answer to it, or if the
/// answer has another status.
pub fn a_program_that_fails_leaves_no_result()
    ensures holds { (known : Known) (rule : Rule) (template : templates.Parts) (scene : Scene)
        → ((act_step known rule (program template) scene).1 ≡ true) ↔ ((text : Text) × IsAnswered template scene text) }
    ensures answered { (known : Known) (rule : Rule) (template : templates.Parts) (scene : Scene) (text : Text) → IsAnswered template scene text
        → act_step known rule (program template) scene ≡ (with_result (result_of scene.state.event.profile text) scene, true) }
    ensures failed { (known : Known) (rule : Rule) (template : templates.Parts) (scene : Scene) → (act_step known rule (program template) scene).1 ≡ false
        → (act_step known rule (program template) scene).0.state.result ≡ [] }
{}
