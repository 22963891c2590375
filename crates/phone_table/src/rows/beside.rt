//! A call that the program does not make, for who has rows and no switchboard.
ghost use Rattle.phone_table.specs.Phones.{AreCounted};

use super::PhoneRows;
use ipc_ids::TaskNo;

impl PhoneRows {
    /// Reads each row, so that a proof learns that each phone has its count.
    pub fn check_counts(&self)
        ensures { AreCounted self.now }
    {
        for i in 0..self.tasks() {
            let _phones = self.row(TaskNo(i + 1)).len();
        }
    }
}
