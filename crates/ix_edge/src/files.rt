ghost use Rattle.std.specs.Prelude.{◌≡◌, ◌≤◌, ℕ, List, Option, length, IfOk, IfSome, IsErrOf};
ghost use Rattle.ix_edge.specs.declared.fault.LoadFault.TheVariants.{Failed};
ghost use Rattle.ix_edge.specs.Causes.{Rose};
ghost use Rattle.ix_edge.specs.Told.{Told, Loads};

use crate::LoadFault;
use std::alloc::Global;

/// Files that are loaded by name.
pub trait Files {
    /// What the names hold, where the files tell it.
    ghost told: { Self → Option Told };

    /// How often a load of each name has failed. A count stays at the last `u64`.
    ghost faults: { Self → List ℕ → ℕ };

    /// How often a load of this name has failed.
    fn faults(&self, name: &str) -> u64
        ensures { result ≡ faults self.now name.now };

    /// The first `most` bytes of the file of this name, or all of them if it has fewer.
    ///
    /// `Failed` comes only where the count of this very name rose, and always where the files are known to
    /// lack it. `Memory` may come at any load.
    fn load(&mut self, alloc: Global, name: &str, most: u64) -> Result<Vec<u8>, LoadFault>
        ensures few { IfOk result (λ v. length v.items ≤ most) }
        ensures bytes { IfSome (told self.old) (λ files. Loads files name.now most result) }
        ensures same { told self.new ≡ told self.old }
        ensures later { (other : List ℕ) → faults self.old other ≤ faults self.new other }
        ensures cause { IsErrOf result Failed → Rose (faults self.old name.now) (faults self.new name.now) };
}
