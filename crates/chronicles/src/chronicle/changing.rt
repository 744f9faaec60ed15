// A chronicle is set up, and shows its changes.
ghost use Rattle.std.specs.Prelude.{◌≡◌, length, Ok};
ghost use Rattle.chronicles.specs.Chronicles.{history, in_chronicle, SetUp};
ghost use Rattle.chronicles.specs.Replays.{Complete};
ghost use Rattle.chronicles.specs.declared.chronicle.Chronicle.{Chronicle};

use super::{Chronicle, MAX_CHANGES};
use crate::changes::Change;
use messages::faults::SetUpFault;
use places::lent_logs::LentLog;

impl<'a> Chronicle<'a> {
    // A chronicle without a change. Its places stay as they were: what they hold means nothing.
    pub fn new(places: &'a mut [Change]) -> Result<Chronicle<'a>, SetUpFault>
        ensures answer { SetUp (length places.old) result }
        ensures places { (c : Chronicle) → result ≡ Ok c → c.changes.places.now ≡ places.old }
    {
        if places.len() > MAX_CHANGES {
            return Err(SetUpFault::ChroniclePlaces);
        }
        let changes = LentLog::new(places);
        Ok(Chronicle { changes })
    }

    // Every change that was ever accepted, in order. No version of a ledger is missing.
    pub fn changes(&self) -> &[Change]
        ensures value { result.now ≡ history self.now }
        ensures complete { Complete (in_chronicle self.now) result.now }
    {
        self.changes.as_slice()
    }
}
