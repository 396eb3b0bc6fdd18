// Bits of a square of 256 by 256 in the first 8,192 bytes of an area.
// Reads and writes take the area and ask for its length: a struct with that fact as a ghost field, and `first_chunk_mut`, were
// tried in `make`, and what the area holds after either borrows it from behind `&mut self` stayed an unknown list.
ghost use Rattle.std.specs.Prelude.{◌≡◌, ◌≤◌, cond, length, ◌==◌};
ghost use Rattle.store.specs.Squares.{place, mask, bit, raised, lowered, wiped};

// The bit of a row and a column.
#[derive(Clone, Copy)]
pub(crate) struct Bit {
    pub(crate) row: u8,
    pub(crate) column: u8,
}

impl Bit {
    // The byte that has the bit.
    fn byte(self) -> usize
        ensures { result ≡ place self.row self.column }
    {
        usize::from(self.row) * 32 + usize::from(self.column / 8)
    }

    // The byte with this one bit.
    fn mask(self) -> u8
        ensures { result ≡ mask self.column }
    {
        1 << (self.column % 8)
    }

    // Whether the bit is 1.
    #[tactic(auto, using(crate::proofs::Squares::mask_tests), unfolding(crate::specs::Squares::bit))]
    pub(crate) fn is_set(self, area: &[u8]) -> bool
        requires { 8192 ≤ length area.now }
        ensures { result ≡ (bit area.now self.row self.column == 1) }
    {
        area[self.byte()] & self.mask() != 0
    }

    // Makes the bit 1 or 0: the flag is its value, so that one function writes both.
    #[tactic(auto, unfolding(crate::specs::Squares::raised, crate::specs::Squares::lowered))]
    pub(crate) fn set(self, area: &mut [u8], one: bool)
        requires { 8192 ≤ length area.old }
        ensures { area.new ≡ cond one (raised area.old self.row self.column) (lowered area.old self.row self.column) }
    {
        let byte = self.byte();
        if one {
            area[byte] |= self.mask();
        } else {
            area[byte] &= !self.mask();
        }
    }
}

// Makes every bit 0.
pub(crate) fn wipe(area: &mut [u8])
    requires { 8192 ≤ length area.old }
    ensures { area.new ≡ wiped area.old }
{
    area[..8192].fill(0);
}
