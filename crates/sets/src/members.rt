// The members of a set, the least first.
ghost use Rattle.std.specs.Prelude.{◌≡◌};
ghost use Rattle.std.specs.Iterator.{YieldsFirst, item_count};
ghost use Rattle.theory.specs.Sets.{members};
ghost use Rattle.sets.specs.Sets.{capacity, in_set};

use crate::Set;

// What is left to go over.
#[derive(Drop)]
pub struct Members {
    left: Set,
}

impl Iterator for Members {
    type Item = usize;

    ghost next_gives = { YieldsFirst (λ s. members capacity (in_set s.left)) };

    ghost remaining = { item_count (λ s. members capacity (in_set s.left)) };

    fn next(&mut self) -> Option<usize> {
        let left = self.left;
        if left.is_empty() {
            return None;
        }
        self.left = left.rest();
        Some(left.first())
    }
}

impl IntoIterator for Set {
    type Item = usize;

    type IntoIter = Members;

    ghost into_iter_gives = { λ set it. it.left ≡ set };

    fn into_iter(self) -> Members {
        Members { left: self }
    }
}
