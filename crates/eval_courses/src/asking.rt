//! What all rules ask of an event.
ghost use Rattle.std.specs.Prelude.{◌≡◌, IfOk};
ghost use Rattle.eval_courses.specs.Questions.{questions};

use crate::asks::ask;
use builtin_devices::Knowledge;
use device_core::Event;
use eval_acts::act_step;
use eval_assignments::set_all;
use eval_rules::{Moment, Watch, run_watched};
use eval_state::Scene;
use rule_types::{Act, Rule};
use std::alloc::{AllocError, Global};
use std::marker::Model;
use text_tables::OwnedTexts;

/// The commands that rules asked while it watched them, each once.
#[derive(Drop)]
struct Asked {
    commands: OwnedTexts,
}

impl Model for Asked {
    ghost use Rattle.std.specs.Prelude.{List};
    ghost use Rattle.text_bytes.specs.Text.{Text};

    ghost Value = { List Text };

    ghost view = { λ a. a.commands };
}

impl<'a> Watch<'a> for Asked {
    ghost use Rattle.eval_courses.specs.Inner.{asking};

    ghost telling = { asking };

    #[tactic(auto, using(crate::proofs::AllAsked::moments_ask_nothing))]
    fn tell(
        &mut self,
        _alloc: Global,
        _moment: Moment<'a>,
        _scene: &mut Scene<'a>,
    ) -> Result<(), AllocError> {
        Ok(())
    }

    #[tactic(auto, using(eval_rules::proofs::Staying::act_stays))]
    fn act<K: Knowledge>(
        &mut self,
        alloc: Global,
        rule: &'a Rule,
        part: &'a Act,
        knowledge: &K,
        scene: &mut Scene<'a>,
    ) -> Result<bool, AllocError> {
        ask(alloc, &part.kind, &mut scene.state, &mut self.commands)?;
        act_step(alloc, rule, part, knowledge, scene)
    }

    fn assign(
        &mut self,
        alloc: Global,
        rule: &'a Rule,
        scene: &mut Scene<'a>,
    ) -> Result<(), AllocError> {
        set_all(alloc, rule, scene)
    }
}

/// What rules ask of an event: the commands that a PROGRAM looks up while they are evaluated, for udev also an
/// IMPORT{program}, and that the event's block does not answer. Each is there once, in the order in which they are first
/// asked. A command that no line of a block can have is left out.
pub fn questions<'a, K: Knowledge>(
    alloc: Global,
    rules: &'a [Rule],
    event: &'a Event<'_>,
    knowledge: &K,
) -> Result<OwnedTexts, AllocError>
    ensures { IfOk result (λ asked. asked ≡ questions rules.now (K.known knowledge.now) event.now) }
{
    let mut scene = Scene::new(alloc, event)?;
    let commands = OwnedTexts::new(alloc);
    let mut asked = Asked { commands };
    let went = run_watched(alloc, rules, knowledge, &mut asked, &mut scene);
    drop(scene);
    went?;
    Ok(asked.commands)
}
