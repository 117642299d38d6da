// Plays the run on standard input and writes what it prints to standard output.
#![tactic(auto)]

ghost use Rattle.std.specs.Prelude.{◌≡◌, length};
ghost use Rattle.sent.specs.Sent.{sent_size};
ghost use Rattle.run.specs.Ran.{print_room, sites_bytes, log_bytes};

// One byte more than a run may have, so that a longer one is noticed and refused.
const INPUT: usize = header::MAX_RUN + 1;

fn input_room() -> [u8; INPUT]
    ensures { 60001 ≡ length result }
{
    [0; INPUT]
}

fn sites_room() -> [u8; run::SITES]
    ensures { sites_bytes ≡ length result }
{
    [0; run::SITES]
}

fn log_room() -> [u8; run::LOG]
    ensures { log_bytes ≡ length result }
{
    [0; run::LOG]
}

fn sent_room() -> [u8; run::SENT]
    ensures { sent_size ≡ length result }
{
    [0; run::SENT]
}

fn print_room() -> [u8; run::ROOM]
    ensures { print_room ≡ length result }
{
    [0; run::ROOM]
}

// The run is read, played and printed.
fn play(input: &mut [u8], sites: &mut [u8], log: &mut [u8], sent: &mut [u8], out: &mut [u8]) {
    let size = io::read_full(0, input);
    let end = run::run(&input[..size], sites, log, sent, out);
    io::write_all(1, &out[..end]);
}

fn main() {
    let mut input = input_room();
    let mut sites = sites_room();
    let mut log = log_room();
    let mut sent = sent_room();
    let mut out = print_room();
    play(&mut input, &mut sites, &mut log, &mut sent, &mut out);
}
