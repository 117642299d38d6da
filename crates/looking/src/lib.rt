// The calls that look at a lent site: its status, a bike of its register, a delivery. Each judges what it is lent and writes what it finds.
#![tactic(auto)]

ghost use Rattle.std.specs.Prelude.{◌≡◌, ◌≤◌, ◌<◌, length};
ghost use Rattle.wire.specs.Wire.{splice};
ghost use Rattle.sets.specs.Sets.{capacity};
ghost use Rattle.register.specs.Register.{bikes};
ghost use Rattle.register.specs.Lent.{bike_size, register_of, bike_bytes};
ghost use Rattle.layout.specs.Layout.{site_size, head_of, register_place, delivery_size, delivery_of, delivery_bytes};
ghost use Rattle.refusals.specs.Refusals.{code_of};
ghost use Rattle.judging.specs.Outcomes.{outcome};
ghost use Rattle.looking.specs.Looking.{status_size, head_status, status_call, bike_call, delivery_call};

use layout::Site;
use refusals::{Refusal, Verdict};
use register::Bike;

// The bytes of a status: round, phase, number of deliveries, log position.
pub const STATUS_BYTES: usize = 5;

// The status of a site is written.
fn write_status(site: &[u8], out: &mut [u8])
    requires { (length site.now ≡ site_size) × ((head_of site.now).deliveries ≤ capacity) × (status_size ≤ length out.old) }
    ensures { out.new ≡ splice out.old 0 (head_status (head_of site.now)) }
{
    let header = Site::read(site);
    wire::put(out, 0, header.round);
    wire::put(out, 1, u8::from(header.phase));
    wire::put(out, 2, header.deliveries as u8);
    wire::put(out, 3, header.position);
}

// A site's status is written: round (1), phase (1: 0 acknowledging, 1 waiting), number of deliveries (1), log position (2).
pub fn status(table: &[u8], book: &[u8], site: &[u8], out: &mut [u8]) -> Verdict
    ensures { outcome (code_of result) out.new ≡ status_call table.now book.now site.now out.old }
{
    let enough = out.len() >= STATUS_BYTES;
    let mut places = [0u64; commands::MAX_COMMANDS];
    judging::judge_site(enough, table, book, site, &mut places)?;
    write_status(&site[..Site::SIZE], out);
    Ok(())
}

// What the register holds of a bike is written.
fn write_bike(site: &[u8], bike: usize, out: &mut [u8])
    requires { (length site.now ≡ site_size) × (bike < bikes) × (bike_size ≤ length out.old) }
    ensures { out.new ≡ splice out.old 0 (bike_bytes (register_of site.now register_place bike)) }
{
    let found = register::bike_at(site, Site::REGISTER, bike);
    wire::put(out, 0, found.reading);
    wire::put(out, 4, found.dash);
}

// A bike's reading (4) and dash (4) are written.
pub fn bike(table: &[u8], book: &[u8], site: &[u8], bike: usize, out: &mut [u8]) -> Verdict
    ensures { outcome (code_of result) out.new ≡ bike_call table.now book.now site.now bike out.old }
{
    let enough = out.len() >= Bike::SIZE;
    let mut places = [0u64; commands::MAX_COMMANDS];
    judging::judge_site(enough, table, book, site, &mut places)?;
    if bike >= Bike::COUNT {
        return Err(Refusal::Range);
    }
    write_bike(&site[..Site::SIZE], bike, out);
    Ok(())
}

// How many deliveries a site has recorded.
fn count(site: &[u8]) -> usize
    requires { length site.now ≡ site_size }
    ensures { result ≡ (head_of site.now).deliveries }
{
    let header = Site::read(site);
    header.deliveries as usize
}

// The k-th delivery is written.
fn write_delivery(site: &[u8], k: usize, out: &mut [u8])
    requires { (length site.now ≡ site_size) × (k < capacity) × (delivery_size ≤ length out.old) }
    ensures { out.new ≡ splice out.old 0 (delivery_bytes (delivery_of site.now k).command (delivery_of site.now k).answer) }
{
    let place = Site::DELIVERIES + Site::DELIVERY * k;
    let command: u8 = wire::get(site, place);
    let answer: u32 = wire::get(site, place + 1);
    wire::put(out, 0, command);
    wire::put(out, 1, answer);
}

// The k-th delivery, from 0, is written: command (1) and answer (4).
pub fn delivery(table: &[u8], book: &[u8], site: &[u8], k: usize, out: &mut [u8]) -> Verdict
    ensures { outcome (code_of result) out.new ≡ delivery_call table.now book.now site.now k out.old }
{
    let enough = out.len() >= Site::DELIVERY;
    let mut places = [0u64; commands::MAX_COMMANDS];
    judging::judge_site(enough, table, book, site, &mut places)?;
    if k >= count(&site[..Site::SIZE]) {
        return Err(Refusal::Range);
    }
    write_delivery(&site[..Site::SIZE], k, out);
    Ok(())
}
