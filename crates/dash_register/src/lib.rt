// The library for a C host: the calls of include/dash_register.h, each over the proved call of the same name. The contracts are the calls' own.
#![tactic(auto)]

ghost use Rattle.std.specs.Prelude.{◌≡◌, List};
ghost use Rattle.refusals.specs.Refusals.{code_of};
ghost use Rattle.table.specs.declared.SiteTable.{SiteTable};
ghost use Rattle.register.specs.declared.Command.{Command};
ghost use Rattle.protocol.specs.System.{verdict};
ghost use Rattle.judging.specs.Outcomes.{outcome};
ghost use Rattle.judging.specs.Judging.{for_marked, for_book};
ghost use Rattle.looking.specs.Looking.{status_call, bike_call, delivery_call};
ghost use Rattle.engine.specs.Calls.{fresh_call, receive_command_call, receive_call, log_read_call};
ghost use Rattle.turning.specs.Turning.{buffers, turn_call};
ghost use Rattle.delivering.specs.Delivering.{fast_delivery_call, round_end_call};
ghost use Rattle.run.specs.Ran.{working, ran, run_of};
ghost use Rattle.run.specs.Left.{Left};

#[unsafe(no_mangle)]
pub extern "C" fn dash_register_judge_table(table: &[u8]) -> u32
    ensures { result ≡ code_of (verdict (for_marked table.now)) }
{
    refusals::code(judging::judge_table(table))
}

#[unsafe(no_mangle)]
pub extern "C" fn dash_register_judge_book(book: &[u8]) -> u32
    ensures { result ≡ code_of (verdict (for_book book.now)) }
{
    refusals::code(judging::judge_book(book))
}

#[unsafe(no_mangle)]
pub extern "C" fn dash_register_fresh(site: &mut [u8]) -> u32
    ensures { (t : SiteTable) (book : List Command) → outcome result site.new ≡ fresh_call t book site.old }
{
    refusals::code(engine::fresh(site))
}

#[unsafe(no_mangle)]
pub extern "C" fn dash_register_receive_command(
    table: &[u8],
    book: &[u8],
    site: &mut [u8],
    command: usize,
) -> u32
    ensures { outcome result site.new ≡ receive_command_call table.now book.now site.old command }
{
    refusals::code(engine::receive_command(table, book, site, command))
}

#[unsafe(no_mangle)]
pub extern "C" fn dash_register_receive(
    table: &[u8],
    book: &[u8],
    site: &mut [u8],
    sender: usize,
    message: &[u8],
) -> u32
    ensures { outcome result site.new ≡ receive_call table.now book.now site.old sender message.now }
{
    refusals::code(engine::receive(table, book, site, sender, message))
}

#[unsafe(no_mangle)]
pub extern "C" fn dash_register_turn(
    table: &[u8],
    book: &[u8],
    site: &mut [u8],
    log: &[u8],
    own: usize,
    message: &mut [u8],
    entry: &mut [u8],
) -> u32
    ensures { outcome result (buffers site.new message.new entry.new)
        ≡ turn_call table.now book.now site.old log.now own message.old entry.old }
{
    refusals::code(turning::turn(table, book, site, log, own, message, entry))
}

#[unsafe(no_mangle)]
pub extern "C" fn dash_register_fast_delivery(
    table: &[u8],
    book: &[u8],
    site: &mut [u8],
    command: usize,
) -> u32
    ensures { outcome result site.new ≡ fast_delivery_call table.now book.now site.old command }
{
    refusals::code(delivering::fast_delivery(table, book, site, command))
}

#[unsafe(no_mangle)]
pub extern "C" fn dash_register_log_read(
    table: &[u8],
    book: &[u8],
    site: &mut [u8],
    log: &[u8],
) -> u32
    ensures { outcome result site.new ≡ log_read_call table.now book.now site.old log.now }
{
    refusals::code(engine::log_read(table, book, site, log))
}

#[unsafe(no_mangle)]
pub extern "C" fn dash_register_round_end(
    table: &[u8],
    book: &[u8],
    site: &mut [u8],
    log: &[u8],
) -> u32
    ensures { outcome result site.new ≡ round_end_call table.now book.now site.old log.now }
{
    refusals::code(delivering::round_end(table, book, site, log))
}

#[unsafe(no_mangle)]
pub extern "C" fn dash_register_status(
    table: &[u8],
    book: &[u8],
    site: &[u8],
    status: &mut [u8],
) -> u32
    ensures { outcome result status.new ≡ status_call table.now book.now site.now status.old }
{
    refusals::code(looking::status(table, book, site, status))
}

#[unsafe(no_mangle)]
pub extern "C" fn dash_register_bike(
    table: &[u8],
    book: &[u8],
    site: &[u8],
    bike: usize,
    out: &mut [u8],
) -> u32
    ensures { outcome result out.new ≡ bike_call table.now book.now site.now bike out.old }
{
    refusals::code(looking::bike(table, book, site, bike, out))
}

#[unsafe(no_mangle)]
pub extern "C" fn dash_register_delivery(
    table: &[u8],
    book: &[u8],
    site: &[u8],
    k: usize,
    out: &mut [u8],
) -> u32
    ensures { outcome result out.new ≡ delivery_call table.now book.now site.now k out.old }
{
    refusals::code(looking::delivery(table, book, site, k, out))
}

// What a run prints is written at the start of out, and the number of bytes written is answered: 0, and nothing is changed, where a buffer is too short.
// The run is played on sites, log and sent, whatever they hold. They hold its last world then; a run that is refused leaves them as they were.
#[unsafe(no_mangle)]
pub extern "C" fn dash_register_run(
    input: &[u8],
    sites: &mut [u8],
    log: &mut [u8],
    sent: &mut [u8],
    out: &mut [u8],
) -> usize
    ensures { (ran result out.new
        ≡ run_of input.now (working sites.old log.old sent.old) out.old)
        × Left input.now (working sites.old log.old sent.old) out.old
        (working sites.new log.new sent.new) }
{
    run::run(input, sites, log, sent, out)
}
