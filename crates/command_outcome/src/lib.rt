// What a call of one of the ten commands gives and leaves, as definitions (specs/Outcome.antt, specs/Calls.antt), and their laws; and the
// answer to the questions that are put to a command.
#![tactic(auto)]

ghost use Rattle.std.specs.Prelude.{◌≡◌, map};
ghost use Rattle.model.specs.Questions.{first_no};
ghost use Rattle.command_outcome.specs.Asked.{question};
ghost use Rattle.refusal.specs.Numbers.{code};

use refusal::Refusal;

// The questions in their order, each with its answer and with what refuses where this is no: the first no gives the answer.
#[tactic(auto, using(crate::specs::AskedLaws::asked_no, crate::specs::AskedLaws::asked_yes, crate::specs::AskedLaws::asked_end))]
pub fn first_no(asked: &[(bool, Refusal)]) -> Result<(), Refusal>
    ensures { code result ≡ first_no (map question asked.now) }
{
    for &(yes, refusal) in asked {
        if !yes {
            return Err(refusal);
        }
    }
    Ok(())
}
