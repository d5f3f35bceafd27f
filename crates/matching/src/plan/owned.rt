// A plan read off a note of who has whom.
ghost use Rattle.std.specs.Prelude.{◌≡◌, ◌≤◌};
ghost use Rattle.matching.specs.Owned.{EachOnce, ReadsOff};

use super::Plan;
use augmenting::Owners;

impl Plan {
    pub(crate) fn of_owners(packages: u8, owners: &Owners) -> Plan
        requires some { (1 ≤ packages) × (packages ≤ 48) }
        requires once { EachOnce packages owners.now.places }
        ensures packages { result.packages ≡ packages }
        ensures numbers { ReadsOff owners.now.places result.numbers }
    {
        let mut numbers = [0; 48];
        for (j, owner) in owners.places().iter().enumerate() {
            if 0 < *owner {
                numbers[usize::from(*owner) - 1] = j as u16 + 1;
            }
        }
        Plan { packages, numbers }
    }
}
