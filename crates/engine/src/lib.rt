// The calls that change a lent site. Each judges all that it is lent, and where it refuses it leaves everything as it was.
#![tactic(auto)]

ghost use Rattle.std.specs.Prelude.{◌≡◌, List, ◌≤◌, ◌<◌, length};
ghost use Rattle.table.specs.declared.SiteTable.{SiteTable};
ghost use Rattle.table.specs.Table.{max_sites};
ghost use Rattle.layout.specs.Layout.{site_size, site_rounds};
ghost use Rattle.register.specs.declared.Command.{Command};
ghost use Rattle.refusals.specs.Refusals.{code_of};
ghost use Rattle.judging.specs.Outcomes.{outcome};
ghost use Rattle.engine.specs.Calls.{fresh_call, receive_command_call, TookMessage, message_in_range, receive_call, log_read_call};
ghost use Rattle.engine.specs.Next.{next_in_range_of, third_of};

use entries::Entry;
use layout::Site;
use message::{Kind, Message};
use refusals::{Refusal, Verdict};
use table::Rules;

// A fresh site is written, or refusal 9.
pub fn fresh(site: &mut [u8]) -> Verdict
    ensures { (t : SiteTable) (book : List Command) → outcome (code_of result) site.new ≡ fresh_call t book site.old }
{
    if site.len() < Site::SIZE {
        return Err(Refusal::Size);
    }
    lent::fresh(&mut site[..Site::SIZE]);
    Ok(())
}

// A command reached the site.
pub fn receive_command(table: &[u8], book: &[u8], site: &mut [u8], command: usize) -> Verdict
    ensures { outcome (code_of result) site.new ≡ receive_command_call table.now book.now site.old command }
{
    let mut places = [0u64; commands::MAX_COMMANDS];
    let rules = judging::judge_site(true, table, book, &site[..], &mut places)?;
    if command >= rules.commands {
        return Err(Refusal::Range);
    }
    site::receive_command(&mut site[..Site::SIZE], command);
    Ok(())
}

// Whether sender, round and set of a message are in range.
fn in_range(message: Message, sender: usize, rules: Rules) -> bool
    ensures { result ≡ message_in_range message sender rules }
{
    let round = message.round as usize;
    let sites = rules.table.sites;
    (sender < sites) & (1 <= round) & (round <= Site::ROUNDS) & message.set.within(rules.commands)
}

// A message joins what the site has received; an acknowledgment is also kept under its sender and its own round.
fn take_message(site: &mut [u8], sender: usize, message: Message)
    requires { (length site.old ≡ site_size) × (sender < max_sites) × (1 ≤ message.round) × (message.round ≤ site_rounds) }
    ensures { TookMessage message.kind sender message.round message.set site.old site.new }
{
    match message.kind {
        Kind::Acknowledgment => site::hear(site, sender, message.round as usize, message.set),
        Kind::Check => site::receive(site, message.set),
    }
}

// A message reached the site, from a sender that the host vouches for and of a round past, present or to come.
pub fn receive(table: &[u8], book: &[u8], site: &mut [u8], sender: usize, message: &[u8]) -> Verdict
    ensures { outcome (code_of result) site.new ≡ receive_call table.now book.now site.old sender message.now }
{
    let mut places = [0u64; commands::MAX_COMMANDS];
    let formed = Message::is_message(message);
    let rules = judging::judge_site_and_message(formed, table, book, &site[..], &mut places)?;
    let said = Message::read(message);
    if !in_range(said, sender, rules) {
        return Err(Refusal::Range);
    }
    take_message(&mut site[..Site::SIZE], sender, said);
    Ok(())
}

// Whether the entry at a position, where there is one, is in range.
fn next_in_range(log: &[u8], position: usize, sites: usize, commands: usize) -> bool
    ensures { result ≡ next_in_range_of log.now position sites commands }
{
    if position >= log.len() / Entry::BYTES {
        return true;
    }
    let entry = entries::read_entry(log, position);
    entries::in_range(entry, sites, commands)
}

// Whether the entry at a position, where there is one, is a third of its site and round among those before it.
fn next_is_third(log: &[u8], position: usize) -> bool
    ensures { result ≡ third_of log.now position }
{
    if position >= log.len() / Entry::BYTES {
        return false;
    }
    let site = entries::site_of(log, position);
    let round = entries::round_of(log, position);
    entries::entries_of(log, position, site, round) >= 2
}

// The next log entry is read.
pub fn log_read(table: &[u8], book: &[u8], site: &mut [u8], log: &[u8]) -> Verdict
    ensures { outcome (code_of result) site.new ≡ log_read_call table.now book.now site.old log.now }
{
    let mut places = [0u64; commands::MAX_COMMANDS];
    let rules = judging::judge_site_and_log(true, table, book, &site[..], log, &mut places)?;
    let position = judging::position_of(&site[..Site::SIZE]);
    if !next_in_range(log, position, rules.table.sites, rules.commands) {
        return Err(Refusal::Range);
    }
    let left = position < log.len() / Entry::BYTES;
    let third = next_is_third(log, position);
    site::read_entry(&mut site[..Site::SIZE], left, third)
}
