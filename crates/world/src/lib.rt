// All sites, the log and what was sent, in three lent buffers: the start of a run.
#![tactic(auto)]

ghost use Rattle.std.specs.Prelude.{◌≡◌, ◌*◌, length};
ghost use Rattle.layout.specs.Layout.{site_size};
ghost use Rattle.sent.specs.Sent.{sent_size};
ghost use Rattle.world.specs.Started.{Started};

use layout::Site;
use table::SiteTable;

// Every site is fresh and nothing is sent.
pub fn start(sites: &mut [u8], sent: &mut [u8], table: SiteTable)
    requires { (length sites.old ≡ table.sites * site_size) × (length sent.old ≡ sent_size) }
    ensures { Started table sites.new sent.new sites.old sent.old }
{
    for i in 0..table.sites {
        let from = i * Site::SIZE;
        let to = from + Site::SIZE;
        lent::fresh(&mut sites[from..to]);
    }
    sent::clear(sent);
}
