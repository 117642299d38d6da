// The site lines of a print, written from sites in lent bytes.
#![tactic(auto)]

ghost use Rattle.std.specs.Prelude.{false, ◌≡◌, ◌+◌, ◌*◌, ◌≤◌, length};
ghost use Rattle.sets.specs.Sets.{capacity};
ghost use Rattle.table.specs.Table.{faulty_of};
ghost use Rattle.print.specs.Print.{HasRoom, Printed};
ghost use Rattle.lines.specs.Lines.{deliveries_text};
ghost use Rattle.layout.specs.Layout.{site_at, site_size, deliveries_of};
ghost use Rattle.report.specs.Report.{delivery_room, line_room, Printable, AllPrintable, line_of, line_at, lines_below};

use layout::Site;
use print::Text;
use table::SiteTable;

// The first n recorded deliveries of a lent site are written.
fn put_deliveries(text: &mut Text<'_>, site: &[u8], n: usize)
    requires { (length site.now ≡ site_size) × (n ≤ capacity) × HasRoom text.old (delivery_room * n) }
    ensures { Printed text.new text.old (deliveries_text (deliveries_of n site.now)) × (text.new.end ≤ text.old.end + delivery_room * n) }
{
    for k in 0..n {
        let delivery = layout::delivery_at(site, k);
        lines::put_delivery(text, delivery.command as usize, delivery.answer);
    }
}

// The line of a lent site is written, under its number.
fn put_site_line(text: &mut Text<'_>, number: usize, site: &[u8])
    requires { Printable site.now × HasRoom text.old line_room }
    ensures { Printed text.new text.old (line_of number site.now) × (text.new.end ≤ text.old.end + line_room) }
{
    let header = Site::read(site);
    lines::put_site_head(text, number, header.round as usize);
    put_deliveries(text, site, header.deliveries as usize);
    lines::put_line_end(text);
}

// The line of site i is written where the site is correct.
fn put_line_at(text: &mut Text<'_>, sites: &[u8], table: SiteTable, i: usize)
    requires { (i * site_size + site_size ≤ length sites.now) × (faulty_of table i ≡ false → Printable (site_at sites.now i)) × HasRoom text.old line_room }
    ensures { Printed text.new text.old (line_at table sites.now i) × (text.new.end ≤ text.old.end + line_room) }
{
    if table.is_faulty(i) {
        return;
    }
    let start = i * Site::SIZE;
    let end = start + Site::SIZE;
    put_site_line(text, i, &sites[start..end]);
}

// The lines of the correct sites are written, in order. Sites stand end to end.
pub fn put_site_lines(text: &mut Text<'_>, sites: &[u8], table: SiteTable)
    requires { AllPrintable table sites.now × HasRoom text.old (line_room * table.sites) }
    ensures { Printed text.new text.old (lines_below table sites.now table.sites) × (text.new.end ≤ text.old.end + line_room * table.sites) }
{
    for i in 0..table.sites {
        put_line_at(text, sites, table, i);
    }
}
