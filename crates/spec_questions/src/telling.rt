//! Questions in words and texts.
ghost use Rattle.std.specs.Prelude.{◌≡◌, ◌++◌, ◌||◌, true, is_some, IfOk, OnOk};
ghost use Rattle.std.specs.List.{list_all, list_any};
ghost use Rattle.spec_questions.specs.Right.{asked_facts, facts_in, is_asked_or_plain, is_known_false};

use crate::asking::Asker;
use crate::branches::Branches;
use crate::faults::NoQuestion;
use crate::questions::Question;
use crate::shown::{Named, with_excluded};
use crate::widths::told_widths;
use spec_asked::asking::Asked;
use spec_calls::conditions::Condition;
use spec_cases::arena::Formulas;
use spec_cases::formulas::Fact;
use spec_texts::texts::text_of;

/// What questions are told with.
#[derive(Clone, Copy)]
pub(crate) struct Teller<'t, 'a> {
    pub(crate) formulas: &'t Formulas,
    pub(crate) asker: Asker<'a>,
    pub(crate) condition: &'t Condition,
    pub(crate) named: &'t Named,
    /// What is so beside each question's facts.
    pub(crate) excluded: &'t [Fact],
    pub(crate) branches: &'t Branches,
    /// The texts that ask where all is followed, by the places of questions.
    pub(crate) elsewhere: &'t [Option<String>],
    /// Whether they ask whether pure calls are as their terms require.
    pub(crate) is_required: bool,
}

impl<'t, 'a> Teller<'t, 'a> {
    /// Adds questions, behind one of the way that this text asks for. Those of one way, up to the first goal, follow one another.
    #[tactic(auto, using(crate::proofs::TellingSteps::told_steps))]
    pub(crate) fn add_questions(
        self,
        asked: &[Asked],
        way: &str,
        out: &mut Vec<Question>,
    ) -> Result<(), NoQuestion>
        ensures same { OnOk result (facts_in out.new.items ≡ facts_in out.old.items ++ asked_facts asked.now) }
        ensures plain { OnOk result (list_all is_asked_or_plain out.new.items ≡ list_all is_asked_or_plain out.old.items) }
    {
        match asked {
            [] => Ok(()),
            [first, rest @ ..] => {
                let taken = self.taken(&first.facts, way)?;
                let question = self.question(&first.facts, &taken, out.len())?;
                out.push(question)?;
                Ok(self.add_questions(rest, &taken, out)?)
            }
        }
    }

    // The text that asks whether a call takes the rule on the way of a question: the one before, unless it is the first of its way.
    fn taken(self, facts: &[Fact], way: &str) -> Result<String, NoQuestion> {
        let count = self.branches.before_goals();
        if facts.len() > count.saturating_add(1) {
            return Ok(String::from_str(self.asker.alloc, way)?);
        }
        self.text(facts.get(..count).unwrap_or(&[]))
    }

    // The text of facts, and of what is so beside them.
    fn text(self, facts: &[Fact]) -> Result<String, NoQuestion> {
        let all = with_excluded(self.asker.alloc, facts, self.excluded)?;
        Ok(text_of(self.formulas, &all)?)
    }

    // A question, by its facts and the text that asks whether a call takes the rule.
    fn question(self, facts: &[Fact], taken: &str, place: usize) -> Result<Question, NoQuestion>
        ensures same { IfOk result (λ q. q.facts.items ≡ facts.now) }
        ensures plain { IfOk result (λ q. is_asked_or_plain q ≡ true) }
    {
        let wrong = self.text_unless_plain(facts)?;
        let facts = Vec::from_slice(self.asker.alloc, facts)?;
        let elsewhere = self.elsewhere_at(place)?;
        self.told(
            facts,
            String::from_str(self.asker.alloc, taken)?,
            wrong,
            elsewhere,
        )
    }

    // A question with its texts.
    fn told(
        self,
        facts: Vec<Fact>,
        taken: String,
        wrong: Option<String>,
        elsewhere: Option<String>,
    ) -> Result<Question, NoQuestion>
        ensures same { IfOk result (λ q. q.facts.items ≡ facts.items) }
        ensures asked { IfOk result (λ q. q.wrong ≡ wrong) }
    {
        Ok(Question {
            widths: told_widths(
                self.formulas,
                self.asker,
                self.condition,
                self.named,
                &facts,
            )?,
            goal: self.branches.goal(facts.len()),
            elsewhere,
            taken,
            wrong,
            facts,
            is_required: self.is_required,
        })
    }

    // The text that asks a question of this place where all is followed, if there is one.
    fn elsewhere_at(self, place: usize) -> Result<Option<String>, NoQuestion> {
        match self.elsewhere.get(place) {
            Some(Some(text)) => Ok(Some(text.clone()?)),
            Some(None) | None => Ok(None),
        }
    }

    // The text of facts, unless one is known not to be so.
    fn text_unless_plain(self, facts: &[Fact]) -> Result<Option<String>, NoQuestion>
        ensures { IfOk result (λ text. (is_some text || list_any is_known_false facts.now) ≡ true) }
    {
        if is_plain(facts) {
            Ok(None)
        } else {
            Ok(Some(self.text(facts)?))
        }
    }
}

// Whether one of these facts is known not to be so.
fn is_plain(facts: &[Fact]) -> bool
    ensures { result ≡ list_any is_known_false facts.now }
{
    facts.iter().any(|fact| is_false(*fact))
}

// Whether a fact is known not to be so.
fn is_false(fact: Fact) -> bool
    ensures { result ≡ is_known_false fact }
{
    match fact {
        Fact::Known(truth) => !truth,
        Fact::At(_) | Fact::AsWide(_, _) | Fact::IsKind(_, _) | Fact::Made(_) => false,
    }
}
