// The steps of a run: bytes to steps and back.
#![tactic(auto)]

ghost use Rattle.std.specs.Prelude.{◌≡◌, ◌+◌, ◌≤◌, ◌++◌, length, drop};
ghost use Rattle.wire.specs.Wire.{splice};
ghost use Rattle.sets.specs.Sets.{set_bytes, read_set};
ghost use Rattle.steps.specs.Steps.{size_of, byte, uncut, read_as, read_step, set_operand, encode_step};

use sets::Set;

// A step: `site` is the one that receives or acts, `from` the one that a message or log entry comes from.
#[derive(Clone, Copy)]
pub enum Step {
    // 01: a command reaches a site
    Command {
        site: u8,
        command: u8,
    },
    // 02: the acknowledgment of that number, from 1, that a correct site sent in a round reaches a site
    Acknowledgment {
        site: u8,
        from: u8,
        round: u8,
        number: u8,
    },
    // 03: the check message that a correct site sent in a round reaches a site
    Check {
        site: u8,
        from: u8,
        round: u8,
    },
    // 04: an acknowledgment of a faulty site
    FalseAcknowledgment {
        site: u8,
        from: u8,
        round: u8,
        set: Set,
    },
    // 05: a check message of a faulty site
    FalseCheck {
        site: u8,
        from: u8,
        round: u8,
        set: Set,
    },
    // 06: a log entry of a faulty site
    FalseEntry {
        from: u8,
        round: u8,
        nc: Set,
        c: Set,
    },
    // 07: a turn
    Turn {
        site: u8,
    },
    // 08: fast delivery of a command
    FastDelivery {
        site: u8,
        command: u8,
    },
    // 09: a log read
    LogRead {
        site: u8,
    },
    // 0A: a round end
    RoundEnd {
        site: u8,
    },
}

// The bytes of a step.
pub fn size(step: Step) -> usize
    ensures { result ≡ size_of step }
{
    match step {
        Step::Command { .. } => 3,
        Step::Acknowledgment { .. } => 5,
        Step::Check { .. } => 4,
        Step::FalseAcknowledgment { .. } => 4 + Set::BYTES,
        Step::FalseCheck { .. } => 4 + Set::BYTES,
        Step::FalseEntry { .. } => 3 + 2 * Set::BYTES,
        Step::Turn { .. } => 2,
        Step::FastDelivery { .. } => 3,
        Step::LogRead { .. } => 2,
        Step::RoundEnd { .. } => 2,
    }
}

// The byte at a position, 0 where the bytes are cut.
fn operand(bytes: &[u8], k: usize) -> u8
    ensures { result ≡ byte bytes.now k }
{
    if k < bytes.len() {
        return bytes[k];
    }
    0
}

// The set at a position in a step; any set where the bytes are cut.
fn set_operand(bytes: &[u8], k: usize) -> Set
    requires { k ≤ 3 + set_bytes }
    ensures { k + set_bytes ≤ length bytes.now → result ≡ read_set bytes.now k }
{
    if bytes.len() < k + Set::BYTES {
        return Set::empty();
    }
    Set::read(bytes, k)
}

// The step, where the bytes that its operands were read from are not cut.
fn uncut_step(bytes: &[u8], step: Step) -> Option<Step>
    ensures { result ≡ uncut bytes.now step }
{
    if bytes.len() < size(step) {
        return None;
    }
    Some(step)
}

// 02 to 05: a message, i j r and a number or a set.
fn message(bytes: &[u8], code: u8) -> Step
    requires { (2 ≤ code) × (code ≤ 5) }
    ensures { uncut bytes.now result ≡ read_as code bytes.now }
{
    let site = operand(bytes, 1);
    let from = operand(bytes, 2);
    let round = operand(bytes, 3);
    match code {
        2 => Step::Acknowledgment {
            site,
            from,
            round,
            number: operand(bytes, 4),
        },
        3 => Step::Check { site, from, round },
        4 => Step::FalseAcknowledgment {
            site,
            from,
            round,
            set: set_operand(bytes, 4),
        },
        _ => Step::FalseCheck {
            site,
            from,
            round,
            set: set_operand(bytes, 4),
        },
    }
}

// 06: a log entry, j r NC C.
fn entry(bytes: &[u8]) -> Step
    ensures { uncut bytes.now result ≡ read_as 6 bytes.now }
{
    let from = operand(bytes, 1);
    let round = operand(bytes, 2);
    let nc = set_operand(bytes, 3);
    let c = set_operand(bytes, 3 + Set::BYTES);
    Step::FalseEntry { from, round, nc, c }
}

// The step that stands at a position; none where it cannot be read, which is refusal 3.
pub fn read_step(bytes: &[u8], at: usize) -> Option<Step>
    requires { at ≤ length bytes.now }
    ensures { result ≡ read_step (drop at bytes.now) }
{
    let rest = &bytes[at..];
    let code = operand(rest, 0);
    let site = operand(rest, 1);
    let command = operand(rest, 2);
    match code {
        1 => uncut_step(rest, Step::Command { site, command }),
        2 => uncut_step(rest, message(rest, 2)),
        3 => uncut_step(rest, message(rest, 3)),
        4 => uncut_step(rest, message(rest, 4)),
        5 => uncut_step(rest, message(rest, 5)),
        6 => uncut_step(rest, entry(rest)),
        7 => uncut_step(rest, Step::Turn { site }),
        8 => uncut_step(rest, Step::FastDelivery { site, command }),
        9 => uncut_step(rest, Step::LogRead { site }),
        10 => uncut_step(rest, Step::RoundEnd { site }),
        _ => None,
    }
}

// A set is written; here and below the answer is the position after what was written.
fn put_set(out: &mut [u8], at: usize, set: Set) -> usize
    requires { at + set_bytes ≤ length out.old }
    ensures { (result ≡ at + set_bytes) × (out.new ≡ splice out.old at (set_operand set)) }
{
    set.write(out, at);
    at + Set::BYTES
}

// Bytes are written, then a set.
fn put_with_set(out: &mut [u8], at: usize, head: &[u8], set: Set) -> usize
    requires { at + (length head.now + set_bytes) ≤ length out.old }
    ensures { (result ≡ at + (length head.now + set_bytes)) × (out.new ≡ splice out.old at (head.now ++ set_operand set)) }
{
    let middle = print::put_text(out, at, head);
    put_set(out, middle, set)
}

// A step is written at a position.
pub fn write_step(out: &mut [u8], at: usize, step: Step) -> usize
    requires { at + size_of step ≤ length out.old }
    ensures { (result ≡ at + size_of step) × (out.new ≡ splice out.old at (encode_step step)) }
{
    match step {
        Step::Command { site, command } => print::put_text(out, at, &[1, site, command]),
        Step::Acknowledgment {
            site,
            from,
            round,
            number,
        } => print::put_text(out, at, &[2, site, from, round, number]),
        Step::Check { site, from, round } => print::put_text(out, at, &[3, site, from, round]),
        Step::FalseAcknowledgment {
            site,
            from,
            round,
            set,
        } => put_with_set(out, at, &[4, site, from, round], set),
        Step::FalseCheck {
            site,
            from,
            round,
            set,
        } => put_with_set(out, at, &[5, site, from, round], set),
        Step::FalseEntry { from, round, nc, c } => {
            let middle = put_with_set(out, at, &[6, from, round], nc);
            put_set(out, middle, c)
        }
        Step::Turn { site } => print::put_text(out, at, &[7, site]),
        Step::FastDelivery { site, command } => print::put_text(out, at, &[8, site, command]),
        Step::LogRead { site } => print::put_text(out, at, &[9, site]),
        Step::RoundEnd { site } => print::put_text(out, at, &[10, site]),
    }
}
