// Whether commands of a set conflict, by the rows of conflicts.
#![tactic(auto)]

ghost use Rattle.std.specs.Prelude.{◌≡◌, length};
ghost use Rattle.sets.specs.Sets.{capacity, in_set};
ghost use Rattle.calm.specs.Rows.{free_between, free_by};

use sets::Set;

// No member of the first set has a member of the other in its row. One look at a row for each member of the first.
fn is_free_between(rows: &[u64], new: Set, set: Set) -> bool
    requires { length rows.now ≡ capacity }
    ensures { result ≡ free_between rows.now (in_set new) (in_set set) }
{
    for member in new {
        let row = Set::load(rows, member);
        let conflicting = row.common(set);
        if !conflicting.is_empty() {
            return false;
        }
    }
    true
}

// No member of the set has another in its row.
pub fn is_free(rows: &[u64], set: Set) -> bool
    requires { length rows.now ≡ capacity }
    ensures { result ≡ free_by rows.now (in_set set) }
{
    is_free_between(rows, set, set)
}
