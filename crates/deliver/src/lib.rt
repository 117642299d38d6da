// Commands delivered at one lent site: each is executed on the site's register, and its answer recorded.
#![tactic(auto)]

ghost use Rattle.std.specs.Prelude.{true, ◌∷◌, [], ◌≡◌, ◌+◌, ◌≤◌, ◌<◌, length};
ghost use Rattle.sets.specs.Sets.{capacity, within_of};
ghost use Rattle.register.specs.Register.{Within};
ghost use Rattle.register.specs.Lent.{register_of};
ghost use Rattle.commands.specs.Book.{commands_of, Placed};
ghost use Rattle.layout.specs.Layout.{site_size, register_place};
ghost use Rattle.deliver.specs.Delivering.{Delivered, in_order};

use layout::Site;
use sets::Set;

// A command is delivered, as the k-th of the site's deliveries.
pub fn deliver(site: &mut [u8], book: &[u8], places: &[u64], k: usize, m: usize)
    requires { (length site.old ≡ site_size) × Within (register_of site.old register_place) × Placed book.now places.now
        × (m < length (commands_of book.now)) × (k < capacity) }
    ensures { Delivered (commands_of book.now) k (m ∷ []) site.old site.new }
{
    let command = commands::indexed(book, places, m);
    let answer = register::execute(site, Site::REGISTER, command);
    layout::record_delivery(site, k, m as u8, answer);
}

// The commands of a set are delivered in number order, after k others. The answer is the number of deliveries then.
pub fn deliver_all(site: &mut [u8], book: &[u8], places: &[u64], k: usize, set: Set) -> usize
    requires { (length site.old ≡ site_size) × Within (register_of site.old register_place) × Placed book.now places.now
        × (within_of set (length (commands_of book.now)) ≡ true) × (k + length (in_order set) ≤ capacity) }
    ensures { (result ≡ k + length (in_order set)) × Delivered (commands_of book.now) k (in_order set) site.old site.new }
{
    let mut n = k;
    for m in set {
        deliver(site, book, places, n, m);
        n += 1;
    }
    n
}
