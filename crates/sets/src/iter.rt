// The members of a set one by one, the lowest first.
ghost use Rattle.std.specs.Prelude.{◌≡◌, ℕ};
ghost use Rattle.std.specs.Iterator.{YieldsFirst, item_count};
ghost use Rattle.std.specs.Iterator.Runs.{YieldsInOrder};
ghost use Rattle.sets.specs.Sets.{members};
ghost use Rattle.sets.specs.declared.iter.Members.{Members};

use crate::station_set::StationSet;

// The members that have not come yet.
#[derive(Drop)]
pub struct Members {
    left: StationSet,
}

impl Iterator for Members {
    type Item = u8;

    ghost next_gives = { YieldsFirst (λ s. members s.left) };

    ghost remaining = { item_count (λ s. members s.left) };

    // The lowest member that is left.
    fn next(&mut self) -> Option<u8> {
        let v = self.left.first()?;
        self.left.remove(v);
        Some(v)
    }
}

impl IntoIterator for StationSet {
    type Item = u8;

    type IntoIter = Members;

    ghost into_iter_gives = { λ s it. (it.left ≡ s)
        × YieldsInOrder (YieldsFirst {S = Members} {A = ℕ} (λ m. members m.left)) (λ m. members m.left) };

    // The members, rising.
    fn into_iter(self) -> Members {
        Members { left: self }
    }
}
