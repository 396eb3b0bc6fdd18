// What every store of a network keeps.
ghost use Rattle.std.specs.Prelude.{◌≡◌};
ghost use Rattle.store.specs.Nets.{Net, Lawful};
ghost use Rattle.store.specs.Refusals.{Lays};

use crate::refusal::Refusal;

// A store means a net: its size, its marks and its room.
pub trait Store {
    ghost meaning: { Self → Net };

    ghost lawful: { (s : Self) → Lawful (meaning s) };

    // How many stations there are, 1 to 256.
    fn size(&self) -> usize
        ensures { result ≡ (meaning self.now).size };

    // How many pairs may still be laid.
    fn room(&self) -> usize
        ensures { result ≡ (meaning self.now).room };

    // 1 for a tie, 2 for fill, and 0 otherwise, also for one station twice or a station outside.
    // A mark stays a number and no enum: customers are told these numbers.
    fn mark(&self, u: usize, v: usize) -> u8
        ensures { result ≡ (meaning self.now).mark u v };

    // The pair joins the fill, or is refused by 1 to 4, in that order, and the meaning stays.
    fn lay(&mut self, u: usize, v: usize) -> Result<(), Refusal>
        ensures { Lays (meaning self.old) u v (meaning self.new) result };
}
