// Lists of steps.
ghost use Rattle.std.specs.Prelude.{◌≡◌, MatchResult};
ghost use Rattle.runners.specs.Lists.{Taken};

use crate::steps::Runner;
use ledgers::steps::Step;
use protocol::answers::Answer;
use protocol::faults::StepFault;
use std::alloc::{AllocError, Global};

// Takes steps one after the other, and gives what each was answered. The memory for the answers is taken first, so that want of
// it alters nothing.
pub fn play<R: Runner>(
    heap: Global,
    runner: &mut R,
    steps: &[Step],
) -> Result<Vec<Result<Answer, StepFault>>, AllocError>
    ensures { MatchResult result (λ given. Taken (R.Runner.state runner.old) steps.now given.items (R.Runner.state runner.new)) (λ _. R.Runner.state runner.new ≡ R.Runner.state runner.old) }
{
    let mut answers = Vec::with_capacity(heap, steps.len())?;
    for step in steps {
        answers.push_reserved(runner.step(step));
    }
    Ok(answers)
}
