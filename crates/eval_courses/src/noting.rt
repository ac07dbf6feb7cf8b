//! What became of each rule at an event.
ghost use Rattle.std.specs.Prelude.{◌≡◌, [], IfOk, OnOk};
ghost use Rattle.eval_courses.specs.Fates.{fates};
ghost use Rattle.eval_courses.specs.Inner.{with_fate, with_key};

use crate::fate::Fate;
use builtin_devices::Knowledge;
use device_core::Event;
use eval_acts::act_step;
use eval_assignments::set_all;
use eval_rules::{Moment, Watch, run_watched};
use eval_state::Scene;
use rule_types::{Act, Rule};
use std::alloc::{AllocError, Global};
use std::marker::Model;

/// What became of the rules until now, while they are watched.
#[derive(Drop)]
struct Noted {
    /// How many keys of the rule that was reached last were begun.
    begun: usize,
    fates: Vec<Fate>,
}

impl Model for Noted {
    ghost use Rattle.eval_courses.specs.Inner as inner;

    ghost Value = { inner.Noted };

    ghost view = { λ n. record { begun = n.begun; fates = n.fates.items } };
}

impl Noted {
    /// Nothing was seen yet.
    fn new(alloc: Global) -> Noted
        ensures { result ≡ record { begun = 0; fates = [] } }
    {
        Noted {
            begun: 0,
            fates: Vec::new(alloc),
        }
    }

    /// Begins a key.
    fn begin(&mut self) -> Result<(), AllocError>
        ensures { OnOk result (self.new ≡ with_key self.old) }
    {
        match self.begun.checked_add(1) {
            Some(begun) => {
                self.begun = begun;
                Ok(())
            }
            None => Err(AllocError),
        }
    }

    /// Notes what became of a rule.
    fn note(&mut self, fate: Fate) -> Result<(), AllocError>
        ensures { OnOk result (self.new ≡ with_fate self.old fate) }
    {
        self.fates.push(fate)?;
        Ok(())
    }
}

impl<'a> Watch<'a> for Noted {
    ghost use Rattle.eval_courses.specs.Inner.{noting};

    ghost telling = { noting };

    fn tell(
        &mut self,
        _alloc: Global,
        moment: Moment<'a>,
        _scene: &mut Scene<'a>,
    ) -> Result<(), AllocError> {
        match moment {
            Moment::Passed(_) => self.note(Fate::Passed),
            Moment::Entered(_) => {
                self.begun = 0;
                Ok(())
            }
            Moment::Meeting(_, _) => self.begin(),
            Moment::Searching(_) => self.begin(),
            Moment::Comparing(_, _) => self.begin(),
            Moment::Stopped(_) => self.note(Fate::Stopped(self.begun)),
            Moment::Skipped(_) => self.note(Fate::Met),
            Moment::Left(_, _) => Ok(()),
        }
    }

    #[tactic(auto, using(eval_rules::proofs::Staying::act_stays))]
    fn act<K: Knowledge>(
        &mut self,
        alloc: Global,
        rule: &'a Rule,
        part: &'a Act,
        knowledge: &K,
        scene: &mut Scene<'a>,
    ) -> Result<bool, AllocError> {
        self.begin()?;
        act_step(alloc, rule, part, knowledge, scene)
    }

    fn assign(
        &mut self,
        alloc: Global,
        rule: &'a Rule,
        scene: &mut Scene<'a>,
    ) -> Result<(), AllocError> {
        self.note(Fate::Met)?;
        set_all(alloc, rule, scene)
    }
}

/// What became of each rule at an event, in the order of the rules: whether a label was sought and it was passed over,
/// which of its keys stopped it, or that all of them let it go on. Its keys are the matches of the event, the search for
/// one device, which is one key, what acts, and the matches of the result.
pub fn fates<'a, K: Knowledge>(
    alloc: Global,
    rules: &'a [Rule],
    event: &'a Event<'_>,
    knowledge: &K,
) -> Result<Vec<Fate>, AllocError>
    ensures { IfOk result (λ found. found.items ≡ fates rules.now (K.known knowledge.now) event.now) }
{
    let mut scene = Scene::new(alloc, event)?;
    let mut noted = Noted::new(alloc);
    let went = run_watched(alloc, rules, knowledge, &mut noted, &mut scene);
    drop(scene);
    went?;
    Ok(noted.fates)
}
