// The call of a turn: the site acknowledges what it received, or proposes where that has a conflict, and what it sends is written.
#![tactic(auto)]

ghost use Rattle.std.specs.Prelude.{◌≡◌, ◌≤◌, ◌<◌, length};
ghost use Rattle.sets.specs.Sets.{capacity};
ghost use Rattle.refusals.specs.Refusals.{code_of};
ghost use Rattle.entries.specs.Entries.{entry_size};
ghost use Rattle.layout.specs.Layout.{site_size};
ghost use Rattle.message.specs.Messages.{message_size};
ghost use Rattle.judging.specs.Outcomes.{outcome};
ghost use Rattle.turning.specs.Turning.{sendings, buffers, TurnTaken, entry_of, sent, turn_call};

use entries::Entry;
use layout::{Proposal, Site};
use message::{Kind, Message};
use refusals::{Refusal, Verdict};
use site::Turn;

// The site takes its turn: conflicts are looked for among its undelivered commands, its entries of the round in the whole log.
fn take_turn(site: &mut [u8], log: &[u8], rows: &[u64], own: usize) -> Result<Turn, Refusal>
    requires { (length site.old ≡ site_size) × (length rows.now ≡ capacity) }
    ensures { TurnTaken rows.now log.now own site.old result site.new }
{
    let header = Site::read(&site[..]);
    let free = calm::is_free(rows, site::undelivered(header));
    let n = log.len() / Entry::BYTES;
    let third = entries::entries_of(log, n, own, header.round as usize) >= 2;
    site::take_turn(site, free, third)
}

// The log entry of a proposal.
fn entry_of(own: usize, round: u8, proposed: Proposal) -> Entry
    ensures { result ≡ entry_of own round proposed }
{
    Entry {
        site: own,
        round: round as usize,
        nc: proposed.nc,
        c: proposed.c,
    }
}

// What a turn sends is written: the message, and of a proposal also the log entry.
fn send(turn: Turn, own: usize, round: u8, message: &mut [u8], entry: &mut [u8])
    requires { (message_size ≤ length message.old) × (entry_size ≤ length entry.old) × (own < 256) }
    ensures { sendings message.new entry.new ≡ sent own round turn message.old entry.old }
{
    match turn {
        Turn::Acknowledged(set) => {
            let kind = Kind::Acknowledgment;
            Message { kind, round, set }.write(message);
        }
        Turn::Proposed {
            check,
            entry: proposed,
        } => {
            let kind = Kind::Check;
            Message {
                kind,
                round,
                set: check,
            }
            .write(message);
            entries::write_entry(entry, 0, entry_of(own, round, proposed));
        }
    }
}

// The turn of site number `own`. What it sends to all goes to `message`, what it appends to the log to `entry`, which an acknowledgment leaves as it was.
pub fn turn(
    table: &[u8],
    book: &[u8],
    site: &mut [u8],
    log: &[u8],
    own: usize,
    message: &mut [u8],
    entry: &mut [u8],
) -> Verdict
    ensures { outcome (code_of result) (buffers site.new message.new entry.new)
        ≡ turn_call table.now book.now site.old log.now own message.old entry.old }
{
    let enough = (message.len() >= Message::BYTES) & (entry.len() >= Entry::BYTES);
    let mut noted = [0u64; conflicts::NOTED];
    let rules = judging::judge_site_and_log(enough, table, book, &site[..], log, &mut noted)?;
    if own >= rules.table.sites {
        return Err(Refusal::Range);
    }
    conflicts::conflict_rows(book, rules.commands, &mut noted);
    let header = Site::read(&site[..Site::SIZE]);
    let turn = take_turn(
        &mut site[..Site::SIZE],
        log,
        &noted[commands::MAX_COMMANDS..],
        own,
    )?;
    send(turn, own, header.round, message, entry);
    Ok(())
}
