// The public calls: the order of a network by a search, and whether the network is chordal.
ghost use Rattle.std.specs.Prelude.{◌≡◌, ◌≤◌, length};
ghost use Rattle.search.specs.Calls.{Searches, Judges};
ghost use Rattle.search.specs.Strips.{fronted};

use crate::label::Label;
use crate::marks::Marks;
use crate::network::Network;
use crate::perfect::is_perfect;
use crate::placing::place_all;
use crate::rings::find_ring;
use store::{Refusal, Store};

// What the judge says of a network. An Option<usize> would not say what None is.
#[derive(Clone, Copy, Debug, PartialEq, Eq, Hash)]
pub enum Verdict {
    // No ring: the strip begins with the search's order, which is perfect.
    Chordal,
    // The length of a ring, with which the strip begins.
    Ring(usize),
}

// The strip begins with the stations.
fn put_front(strip: &mut [u8], stations: &[u8])
    requires { length stations.now ≤ length strip.old }
    ensures { strip.new ≡ fronted stations.now strip.old }
{
    strip[..stations.len()].copy_from_slice(stations);
}

// Writes the search's order, from position 0, at the start of the strip; each of the first n labels is then its station's last.
// Refused by 11 where strip or row is below 256 entries.
pub fn search<S: Store, L: Label + Copy>(
    store: &S,
    labels: &mut [L],
    strip: &mut [u8],
) -> Result<(), Refusal>
    ensures searches { Searches L.BLANK L.raised L.less (S.meaning store.now) strip.old strip.new labels.old labels.new result }
    ensures store_stays { S.meaning store.exit.now ≡ S.meaning store.entry.now }
{
    if strip.len() < 256 || labels.len() < 256 {
        return Err(Refusal::StripTooShort);
    }
    let order = place_all(&Network::of(store), labels);
    put_front(strip, order.as_slice());
    Ok(())
}

// Says whether the network is chordal, with its order or a ring in the strip. Refused by 11 where strip, row or marks strip
// is below 256 entries.
pub fn judge<S: Store, L: Label + Copy>(
    store: &S,
    labels: &mut [L],
    strip: &mut [u8],
    marks: &mut [u8],
) -> Result<Verdict, Refusal>
    ensures judges { Judges L.BLANK L.raised L.less (S.meaning store.now) strip.old strip.new labels.old labels.new marks.old marks.new result }
    ensures store_stays { S.meaning store.exit.now ≡ S.meaning store.entry.now }
{
    if strip.len() < 256 || labels.len() < 256 || marks.len() < 256 {
        return Err(Refusal::StripTooShort);
    }
    let guard = Marks::over(marks);
    let network = Network::of(store);
    let order = place_all(&network, labels);
    if is_perfect(&network, order.as_slice()) {
        put_front(strip, order.as_slice());
        return Ok(Verdict::Chordal);
    }
    let ring = find_ring(&network, guard.strip);
    let length = ring.len();
    put_front(strip, ring.as_slice());
    Ok(Verdict::Ring(length))
}
