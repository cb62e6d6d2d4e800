// The counts' greatest and sum, over any table.
ghost use Rattle.std.specs.Prelude.{◌≡◌, ◌≤◌};
ghost use Rattle.register.specs.Census.{greatest_of, stored_of};

use crate::table::Opened;

impl Opened<'_> {
    pub fn greatest(&self) -> usize
        ensures { result ≡ greatest_of self.now.counts.now }
    {
        usize::from(self.counts.iter().copied().max().unwrap_or(0))
    }

    pub fn total(&self) -> usize
        ensures { (result ≡ stored_of self.now.counts.now) × (result ≤ 2147450880) }
    {
        self.counts.iter().map(|&c| usize::from(c)).sum()
    }
}
