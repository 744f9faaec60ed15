// Sizes from numbers, and back.
ghost use Rattle.std.specs.Prelude.{◌≡◌, ◌≤◌};
ghost use Rattle.layout.specs.Sizes.{made_sizes};

use super::Sizes;
use ledgers::bookie_lists::MAX_ENSEMBLE;

impl Sizes {
    // These sizes; none where they are out of order.
    pub fn new(ensemble: u32, write: u32, ack: u32) -> Option<Sizes>
        ensures { result ≡ made_sizes ensemble write ack }
    {
        if ensemble as usize <= MAX_ENSEMBLE && write <= ensemble && ack <= write && 1 <= ack {
            Some(Sizes {
                ensemble,
                write,
                ack,
            })
        } else {
            None
        }
    }

    // How many positions an ensemble has.
    pub fn ensemble(&self) -> u32
        ensures value { result ≡ self.now.ensemble }
        ensures few { result ≤ 5 }
    {
        self.ensemble
    }

    // How many positions an entry is written to.
    pub fn write_quorum(&self) -> u32
        ensures value { result ≡ self.now.write }
        ensures few { result ≤ 5 }
    {
        self.write
    }

    // How many positions have to hold an entry before it is confirmed.
    pub fn ack_quorum(&self) -> u32
        ensures { result ≡ self.now.ack }
    {
        self.ack
    }
}
