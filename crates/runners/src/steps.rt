// One step.
ghost use Rattle.std.specs.Prelude.{◌≡◌};
ghost use Rattle.protocol.specs.Clusters.{Cluster};
ghost use Rattle.protocol.specs.Law.{GoesOn};
ghost use Rattle.protocol.specs.Steps.{step as taken};

use ledgers::steps::Step;
use protocol::answers::Answer;
use protocol::faults::StepFault;

pub trait Runner {
    // The bookies, the store, the clients and the messages that wait.
    ghost state: { Self → Cluster };

    // Takes a step. A step that is refused alters nothing.
    fn step(&mut self, step: &Step) -> Result<Answer, StepFault>
        ensures answer { result ≡ (taken (state self.old) step.now).answer }
        ensures after { state self.new ≡ (taken (state self.old) step.now).next }
        // Whatever led here, a closed ledger keeps its word.
        ensures law { GoesOn (state self.old) step.now (state self.new) };
}
