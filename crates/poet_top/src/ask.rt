ghost use Rattle.std.specs.Prelude.{◌≡◌, [], IfOk, IfErr, IfSome, OnOk, MatchResult};
ghost use Rattle.poet_io.specs.Takes.{LeavesRest};
ghost use Rattle.poet_top.specs.Ask.{asked_types, IsAnswerOver};
ghost use Rattle.poet_top.specs.Ends.{EndsOver};
ghost use Rattle.poet_top.specs.FaultOutcome.{outcome_of, HasNoAnswer, CountsFault};

use crate::fault::Fault;
use crate::taking::take_events;
use causal_base::{Answer, MOST_TRACES, Plain, Types};
use command_line::AskPlan;
use poet_io::{Files, Source};
use raw_reader::Reader;
use std::alloc::Global;

/// The answer to a plan, from the file that it names.
pub fn ask<'a, F: Files>(
    alloc: Global,
    plan: &AskPlan<'a>,
    files: &mut F,
) -> Result<Answer<bool>, Fault<'a>>
    ensures { EndsOver plan.now.name.now plan.now.a plan.now.b
        (F.state files.old) (F.state files.new) (outcome_of result) }
{
    let mut source = match files.open(alloc, plan.name) {
        Ok(source) => source,
        Err(error) => return Err(Fault::of_open(error, plan.name)),
    };
    let answer = answer_from(alloc, plan, &mut source);
    files.close(source);
    answer
}

/// The answer to a plan, over the events that the source of its file spells.
fn answer_from<'a, S: Source>(
    alloc: Global,
    plan: &AskPlan<'a>,
    source: &mut S,
) -> Result<Answer<bool>, Fault<'a>>
    ensures ok { IfOk result (λ answer. IfSome (S.state source.old).left
        (λ bytes. IsAnswerOver asked_types bytes plan.now.a plan.now.b answer)) }
    ensures at_end { OnOk result (IfSome (S.state source.new).left (λ left. left ≡ [])) }
    ensures err { IfErr result (λ fault. IfSome (S.state source.old).left
        (λ bytes. IfSome (S.state source.new).left
        (λ left. HasNoAnswer asked_types bytes left fault))) }

    ensures rest { LeavesRest (S.state source.old).left (S.state source.new).left }
    ensures same_name { (S.state source.new).name ≡ (S.state source.old).name }
    ensures faults { MatchResult result
        (λ _. (S.state source.new).faults ≡ (S.state source.old).faults)
        (λ fault. CountsFault plan.now.name.now fault
        (S.state source.old).faults (S.state source.new).faults) }
{
    let Ok(types) = Types::builtin(alloc, MOST_TRACES) else {
        return Err(Fault::Memory);
    };
    let Ok(its_types) = types.copy(alloc) else {
        return Err(Fault::Memory);
    };
    let mut plain = Plain::new(alloc, its_types);
    take_events(
        plan.name,
        source,
        &mut Reader::new(alloc, &types),
        &mut plain,
    )?;
    Ok(plain.before(plan.a, plan.b))
}
