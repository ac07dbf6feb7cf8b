//! What searches and assignments of all rules ask for and is not read.
ghost use Rattle.std.specs.Prelude.{◌≡◌, ◌++◌, IfOk, None};
ghost use Rattle.eval_state.specs.Scenes.{start};
ghost use Rattle.eval_unread.specs.Unread.{rules_unread};

use crate::asked::search_unread;
use crate::sets::{note_name, set_each};
use builtin_devices::Knowledge;
use device_core::Event;
use eval_acts::act_step;
use eval_rules::{Moment, Watch, run_watched};
use eval_state::{Notes, Scene};
use rule_types::{Act, Rule};
use std::alloc::{AllocError, Global};
use std::marker::Model;

/// The notes that were there, and those that searches and assignments left while it watched them.
#[derive(Drop)]
struct Noted {
    notes: Notes,
}

impl Model for Noted {
    ghost use Rattle.std.specs.Prelude.{List};
    ghost use Rattle.eval_state.specs.declared.notes.Note.{Note};

    ghost Value = { List Note };

    ghost view = { λ n. n.notes };
}

impl<'a> Watch<'a> for Noted {
    ghost use Rattle.eval_unread.specs.Inner.{noting};

    ghost telling = { noting };

    fn tell(
        &mut self,
        alloc: Global,
        moment: Moment<'a>,
        scene: &mut Scene<'a>,
    ) -> Result<(), AllocError> {
        match moment {
            Moment::Searching(rule) => {
                let name = search_unread(&rule.up, &scene.state);
                note_name(alloc, rule, name, &mut self.notes)
            }
            _ => Ok(()),
        }
    }

    #[tactic(auto, using(eval_rules::proofs::Staying::act_stays))]
    fn act<K: Knowledge>(
        &mut self,
        alloc: Global,
        rule: &'a Rule,
        part: &'a Act,
        knowledge: &K,
        scene: &mut Scene<'a>,
    ) -> Result<bool, AllocError> {
        act_step(alloc, rule, part, knowledge, scene)
    }

    fn assign(
        &mut self,
        alloc: Global,
        rule: &'a Rule,
        scene: &mut Scene<'a>,
    ) -> Result<(), AllocError> {
        set_each(alloc, rule, &mut self.notes, scene)
    }
}

/// Notes, and after them those of the searches and assignments of rules at an event.
pub(crate) fn noted_after<'a, K: Knowledge>(
    alloc: Global,
    rules: &'a [Rule],
    event: &'a Event<'_>,
    knowledge: &K,
    notes: Notes,
) -> Result<Notes, AllocError>
    ensures { IfOk result (λ all. all ≡ notes ++ rules_unread (K.known knowledge.now) None rules.now (start event.now)) }
{
    let mut scene = Scene::new(alloc, event)?;
    let mut noted = Noted { notes };
    let went = run_watched(alloc, rules, knowledge, &mut noted, &mut scene);
    drop(scene);
    went?;
    Ok(noted.notes)
}
