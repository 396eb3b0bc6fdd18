// A marks strip: lent bytes, one for each station, which are zero again when the work on them ends.
ghost use Rattle.std.specs.Prelude.{◌≡◌, ℕ, ◌&&◌, if◌then◌else◌, ◌==◌, nat_lt};
ghost use Rattle.graph.specs.Graphs.{at};
ghost use Rattle.sets.specs.Sets.{has};
ghost use Rattle.search.specs.Strips.{zeroed};

use sets::StationSet;

// Guards a borrowed strip: however the work ends, the strip's first 256 bytes are zero then.
pub struct Marks<'a> {
    pub(crate) strip: &'a mut [u8],
}

impl<'a> Marks<'a> {
    // Guards the strip from here on; its bytes are as they were.
    pub fn over(strip: &'a mut [u8]) -> Self
        ensures bytes { result.strip.now ≡ strip.old }
        ensures same_strip { result.strip.ghost_name ≡ strip.entry.ghost_name }
    {
        Marks { strip }
    }
}

impl Drop for Marks<'_> {
    fn drop(self)
        ensures { self.exit.0.now ≡ zeroed self.entry.strip.now }
    {
        zero(self.strip);
        let Marks { strip: _ } = self;
    }
}

// Sets the first 256 bytes to 0, or all of them where there are fewer.
fn zero(strip: &mut [u8])
    ensures { strip.new ≡ zeroed strip.old }
{
    let end = strip.len().min(256);
    strip[..end].fill(0);
}

// The stations that have the mark.
pub(crate) fn marked(strip: &[u8; 256], mark: u8) -> StationSet
    ensures { (x : ℕ) → has result x ≡ (nat_lt x 256 && at strip.now x == mark) }
{
    let mut all = StationSet::empty();
    for (x, &m) in strip.iter().enumerate() {
        if m == mark {
            all.insert(x as u8);
        }
    }
    all
}

// Gives each station of the set the mark.
pub(crate) fn mark_all(strip: &mut [u8; 256], which: StationSet, mark: u8)
    ensures { (x : ℕ) → at strip.new x ≡ (if has which x then mark else at strip.old x) }
{
    for x in which {
        strip[x as usize] = mark;
    }
}
