ghost use Rattle.gt_journal.specs.Ledger.{front_of};
ghost use Rattle.gt_pins.specs.Live.{ReadIn, reads_in};

use gt_journal::Journal;
use gt_pins::Live;

/// The log of a partition, and the live transactions, each of which reads a position of it from its floor on.
#[derive(Drop)]
pub struct PartitionState {
    pub journal: Journal,
    pub live: Live,
    pub ghost reads: { ReadIn journal.floor (front_of journal) live } by { reads_in _ _ _ },
}
