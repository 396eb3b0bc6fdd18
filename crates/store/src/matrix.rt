// The matrix: a network in the first 8,192 bytes of a lent area.
ghost use Rattle.std.specs.Prelude.{◌≡◌, ◌<◌, min, max, IfOk};
ghost use Rattle.store.specs.Nets.{count_in_row, count_pairs};
ghost use Rattle.store.specs.Refusals.{Checks, pair_refusal, Lays};
ghost use Rattle.store.specs.Matrices.{net_of, bytes_of, matrix_net, empty_net, Makes, SetsSize, Ties, LaysBits};
ghost use Rattle.store.specs.MatrixLaws.{matrix_lawful};

use crate::pair::Pair;
use crate::refusal::Refusal;
use crate::square::wipe;
use crate::store::Store;

// Stations u and v have bit v mod 8 of byte u * 32 + v div 8: for u below v it says that the
// pair stands, for u above v that it is a tie. Any bytes mean a network of 1 to 256 stations.
// Every changing call says `same_area`: no type can say that the reference is still the one that was lent.
#[derive(Drop)]
pub struct Matrix<'a> {
    area: &'a mut [u8],
    n: usize,
}

impl<'a> Matrix<'a> {
    // A matrix of one station over the area, whatever its length and its bytes.
    #[tactic(auto, using(crate::proofs::Marks::lone_net))]
    pub fn over(area: &'a mut [u8]) -> Self
        ensures bytes { bytes_of result ≡ area.old }
        ensures net { net_of result ≡ empty_net 1 }
        ensures same_area { result.area.ghost_name ≡ area.entry.ghost_name }
    {
        Matrix { area, n: 1 }
    }

    // n stations without pairs, refused by 6 and 9.
    pub fn make(&mut self, n: usize) -> Result<(), Refusal>
        ensures makes { Makes n self.old self.new result }
        ensures same_area { self.new.area.ghost_name ≡ self.old.area.ghost_name }
    {
        self.set_size(n)?;
        wipe(self.area);
        Ok(())
    }

    // n stations over the same bytes, refused by 6 and 9.
    pub fn set_size(&mut self, n: usize) -> Result<(), Refusal>
        ensures sets_size { SetsSize n self.old self.new result }
        ensures same_area { self.new.area.ghost_name ≡ self.old.area.ghost_name }
    {
        if !(1..=256).contains(&n) {
            return Err(Refusal::SizeOutside);
        }
        if self.area.len() < 8192 {
            return Err(Refusal::AreaTooShort);
        }
        self.n = n;
        Ok(())
    }

    // The pair is a tie, whether it stood or not; refused by 1 and 2.
    #[tactic(auto, using(crate::proofs::Checks::pair_long))]
    pub fn tie(&mut self, u: usize, v: usize) -> Result<(), Refusal>
        ensures ties { Ties u v self.old self.new result }
        ensures same_area { self.new.area.ghost_name ≡ self.old.area.ghost_name }
    {
        let pair = self.pair(u, v)?;
        pair.standing().set(self.area, true);
        pair.tied().set(self.area, true);
        Ok(())
    }

    // How many pairs have the mark: 0 for those that do not stand, 1 for ties, 2 for fill.
    // The mark stays a number, since customers are told it; an enum would ask more of callers.
    pub fn count(&self, mark: u8) -> usize
        ensures { result ≡ count_pairs (net_of self.now).mark mark (net_of self.now).size }
    {
        (0..self.stations())
            .map(|b| self.count_row(mark, b as u8))
            .sum()
    }

    // How many stations below b have the mark with b. A number, as `count` is asked for it.
    // A sum of flags, since `filter` and `count` cost a branch more a pair.
    fn count_row(&self, mark: u8, b: u8) -> usize
        requires { b < (net_of self.now).size }
        ensures { result ≡ count_in_row (net_of self.now).mark mark b b }
    {
        (0..b)
            .map(|a| usize::from(self.mark_of(Pair::new(a, b)) == mark))
            .sum()
    }

    // The pair of two stations of the matrix, refused by 1 and 2.
    #[tactic(auto, using(crate::specs::MatrixLaws::size_most))]
    fn pair(&self, u: usize, v: usize) -> Result<Pair, Refusal>
        ensures checks { Checks (pair_refusal (net_of self.now).size u v) result }
        ensures lower { IfOk result (λ pair. pair.lower ≡ min u v) }
        ensures upper { IfOk result (λ pair. pair.upper ≡ max u v) }
    {
        let n = self.stations();
        if u >= n || v >= n {
            return Err(Refusal::StationOutside);
        }
        if u == v {
            return Err(Refusal::SameStation);
        }
        Ok(Pair::new(u.min(v) as u8, u.max(v) as u8))
    }

    // How many stations the matrix has.
    #[tactic(auto, unfolding(crate::specs::Matrices::size_over))]
    fn stations(&self) -> usize
        ensures { result ≡ (net_of self.now).size }
    {
        if self.area.len() < 8192 {
            return 1;
        }
        self.n.clamp(1, 256)
    }

    // The mark of two stations, 0 where they are no pair. A number, as `mark` tells it.
    fn pair_mark(&self, u: usize, v: usize) -> u8
        ensures { result ≡ (net_of self.now).mark u v }
    {
        let Ok(pair) = self.pair(u, v) else {
            return 0;
        };
        self.mark_of(pair)
    }

    // The mark of a pair of the matrix, from its two bits. A number, as `mark` tells it.
    #[tactic(auto, using(crate::specs::MatrixLaws::size_two))]
    fn mark_of(&self, pair: Pair) -> u8
        requires { pair.upper < (net_of self.now).size }
        ensures { result ≡ (net_of self.now).mark pair.lower pair.upper }
    {
        if !pair.standing().is_set(self.area) {
            return 0;
        }
        if pair.tied().is_set(self.area) { 1 } else { 2 }
    }
}

impl<'a> Store for Matrix<'a> {
    ghost meaning = { λ s. matrix_net s.area.now s.n };

    ghost lawful = { λ s. matrix_lawful s.area.now s.n };

    fn size(&self) -> usize {
        self.stations()
    }

    fn room(&self) -> usize {
        self.count(0)
    }

    // A number, as the trait says.
    fn mark(&self, u: usize, v: usize) -> u8 {
        self.pair_mark(u, v)
    }

    #[tactic(auto, using(crate::proofs::Checks::pair_long))]
    fn lay(&mut self, u: usize, v: usize) -> Result<(), Refusal>
        ensures lays { Lays (net_of self.old) u v (net_of self.new) result }
        ensures bits { LaysBits u v self.old self.new result }
        ensures same_area { self.new.area.ghost_name ≡ self.old.area.ghost_name }
    {
        let pair = self.pair(u, v)?;
        if self.pair_mark(u, v) > 0 {
            return Err(Refusal::PairStands);
        }
        pair.standing().set(self.area, true);
        pair.tied().set(self.area, false);
        Ok(())
    }
}
