#![tactic(auto)]

// One event of any content, where the board stands: its refusal, or what it changes. A refusal changes nothing.
ghost use Rattle.std.specs.Prelude.{◌≡◌, ◌<◌, ◌+◌, IfOk, OnErr};
ghost use Rattle.rules.specs.Tables.{thread_at, with_depth, with_last};
ghost use Rattle.rules.specs.Begin.{begin, begun, opened};
ghost use Rattle.rules.specs.Codes.{answered, code_of};
ghost use Rattle.rules.specs.Refusal.{refusal};
ghost use Rattle.rules.specs.Step.{Stepped, apply, did, fence, settled_board, step, step_event};
ghost use Rattle.rules.specs.declared.Event.TheVariants.{Begin, Cut, DataAck, End, Fence, LogAck, Read, Setup, Write};

use measures::{MOST_REGIONS, NUMBERS};
use rules::{Answer, Board, Event, Refusal, Region, Shares, Tables, Thread};

// ---- begin

// Region `key` as it begins, in the channel of its number; it depends on its predecessor if that is uncommitted.
fn begun(regions: &[Region; MOST_REGIONS], key: u32, before: u32) -> Region
    ensures { result ≡ begun key before regions.now }
{
    let mut region = Region::default();
    region.key = key;
    region.channel = lookup::channel_of(key % NUMBERS);
    region.deps[0] = tables::uncommitted(regions, before);
    region
}

fn next_number(thread: &mut Thread)
    requires { thread.old.last < 65535 }
    ensures { thread.new ≡ with_depth 1 (with_last (thread.old.last + 1) thread.old) }
{
    thread.last += 1;
    thread.depth = 1;
}

// "Begin at depth 0 opens the next number, entered in both lists."
fn opened(tables: &mut Tables, thread: u8)
    requires thread { thread < 8 }
    requires number { (thread_at thread tables.old).last < 65535 }
    ensures { tables.new ≡ opened thread tables.old }
{
    let before = tables::current(tables, thread);
    let region = begun(&tables.regions, before + 1, before);
    tables::enter(&mut tables.regions, region);
    next_number(&mut tables.threads[thread as usize]);
}

// "At other depths only the depth rises."
#[tactic(auto, unfolding(rules::specs::Begin::begin))]
fn begin(tables: &mut Tables, thread: u8)
    requires thread { thread < 8 }
    requires depth { (thread_at thread tables.old).depth < 15 }
    requires number { (thread_at thread tables.old).depth ≡ 0 → (thread_at thread tables.old).last < 65535 }
    ensures { tables.new ≡ begin thread tables.old }
{
    if tables::depth_of(tables, thread) == 0 {
        opened(tables, thread);
    } else {
        tables.threads[thread as usize].depth += 1;
    }
}

// ---- each event: the value of its answer, or its refusal

#[tactic(auto, unfolding(rules::specs::Step::apply, rules::specs::Step::setup))]
fn run_setup(board: &mut Board, threads: u8, lines: u16, shares: Shares) -> Result<u64, Refusal>
    ensures done { IfOk result (λ v. did v board.new ≡ apply board.old (Setup threads lines shares)) }
    ensures kept { OnErr result (board.new ≡ board.old) }
    ensures code { code_of result ≡ refusal board.old.tables (Setup threads lines shares) }
{
    let size = &mut board.tables.size;
    refusals::test_setup(*size, threads, lines, shares)?;
    size.threads = threads;
    size.lines = lines;
    size.shares = shares;
    Ok(0)
}

#[tactic(auto, unfolding(rules::specs::Step::apply))]
fn run_begin(board: &mut Board, thread: u8) -> Result<u64, Refusal>
    ensures done { IfOk result (λ v. did v board.new ≡ apply board.old (Begin thread)) }
    ensures kept { OnErr result (board.new ≡ board.old) }
    ensures code { code_of result ≡ refusal board.old.tables (Begin thread) }
{
    refusals::test_begin(&board.tables, thread)?;
    begin(&mut board.tables, thread);
    Ok(0)
}

// What becomes done and commits: the value is the number of commits.
#[tactic(auto, unfolding(rules::specs::Step::settled_board))]
fn settle(board: &mut Board) -> u64
    ensures { did result board.new ≡ settled_board board.old }
{
    commits::settle(&mut board.tables)
}

#[tactic(auto, unfolding(rules::specs::Step::apply))]
fn run_end(board: &mut Board, thread: u8) -> Result<u64, Refusal>
    ensures done { IfOk result (λ v. did v board.new ≡ apply board.old (End thread)) }
    ensures kept { OnErr result (board.new ≡ board.old) }
    ensures code { code_of result ≡ refusal board.old.tables (End thread) }
{
    refusals::test_end(&board.tables, thread)?;
    if tables::depth_of(&board.tables, thread) == 1 {
        ends::end_region(board, thread);
        return Ok(settle(board));
    }
    ends::shallower(&mut board.tables, thread);
    Ok(0)
}

#[tactic(auto, unfolding(rules::specs::Step::apply))]
fn run_read(board: &mut Board, thread: u8, line: u8, word: u8) -> Result<u64, Refusal>
    ensures done { IfOk result (λ v. did v board.new ≡ apply board.old (Read thread line word)) }
    ensures kept { OnErr result (board.new ≡ board.old) }
    ensures code { code_of result ≡ refusal board.old.tables (Read thread line word) }
{
    refusals::test_read(&board.tables, thread, line, word)?;
    let key = tables::current(&board.tables, thread);
    access::read(&mut board.tables, thread, key, line);
    Ok(lines::line_of(&board.cur, line)[word as usize])
}

#[tactic(auto, unfolding(rules::specs::Step::apply))]
fn run_write(
    board: &mut Board,
    thread: u8,
    line: u8,
    word: u8,
    mask: u8,
    value: u64,
) -> Result<u64, Refusal>
    ensures done { IfOk result (λ v. did v board.new ≡ apply board.old (Write thread line word mask value)) }
    ensures kept { OnErr result (board.new ≡ board.old) }
    ensures code { code_of result ≡ refusal board.old.tables (Write thread line word mask value) }
{
    refusals::test_write(&board.tables, thread, line, word, mask, value)?;
    access::write(board, thread, line, word, mask, value)?;
    Ok(0)
}

// Kept: two events that differ in their test and in what they do; one function over both would take both as closures, and is no plainer.
#[tactic(auto, unfolding(rules::specs::Step::apply))]
fn run_log_ack(board: &mut Board, line: u8) -> Result<u64, Refusal>
    ensures done { IfOk result (λ v. did v board.new ≡ apply board.old (LogAck line)) }
    ensures kept { OnErr result (board.new ≡ board.old) }
    ensures code { code_of result ≡ refusal board.old.tables (LogAck line) }
{
    refusals::test_log_ack(&board.tables, line)?;
    ends::log_ack(board, line);
    Ok(settle(board))
}

// Kept: see `run_log_ack`.
#[tactic(auto, unfolding(rules::specs::Step::apply))]
fn run_data_ack(board: &mut Board, line: u8) -> Result<u64, Refusal>
    ensures done { IfOk result (λ v. did v board.new ≡ apply board.old (DataAck line)) }
    ensures kept { OnErr result (board.new ≡ board.old) }
    ensures code { code_of result ≡ refusal board.old.tables (DataAck line) }
{
    refusals::test_data_ack(&board.tables, line)?;
    ends::data_ack(board, line);
    Ok(settle(board))
}

// 1 where every region of the thread, other than the open one, has committed.
#[tactic(auto, unfolding(rules::specs::Step::fence))]
fn fence(tables: &Tables, thread: u8) -> u64
    ensures { result ≡ fence thread tables.now }
{
    let open = tables::open_region(tables, thread);
    u64::from(!tables::has_other(&tables.regions, thread, open))
}

#[tactic(auto, unfolding(rules::specs::Step::apply))]
fn run_fence(board: &Board, thread: u8) -> Result<u64, Refusal>
    ensures done { IfOk result (λ v. did v board.now ≡ apply board.now (Fence thread)) }
    ensures code { code_of result ≡ refusal board.now.tables (Fence thread) }
{
    refusals::test_fence(&board.tables, thread)?;
    Ok(fence(&board.tables, thread))
}

#[tactic(auto, unfolding(rules::specs::Step::apply))]
fn run_cut(board: &mut Board) -> Result<u64, Refusal>
    ensures done { IfOk result (λ v. did v board.new ≡ apply board.old Cut) }
    ensures kept { OnErr result (board.new ≡ board.old) }
    ensures code { code_of result ≡ refusal board.old.tables Cut }
{
    refusals::test_cut(&board.tables)?;
    board.tables.cut = true;
    Ok(tables::count_held(&board.tables.regions) as u64)
}

// ---- an event

fn run(board: &mut Board, event: Event) -> Result<u64, Refusal>
    ensures done { IfOk result (λ v. did v board.new ≡ apply board.old event) }
    ensures kept { OnErr result (board.new ≡ board.old) }
    ensures code { code_of result ≡ refusal board.old.tables event }
{
    match event {
        Event::Setup(threads, lines, shares) => run_setup(board, threads, lines, shares),
        Event::Begin(thread) => run_begin(board, thread),
        Event::End(thread) => run_end(board, thread),
        Event::Read(thread, line, word) => run_read(board, thread, line, word),
        Event::Write(thread, line, word, mask, value) => run_write(
            board, thread, line, word, mask, value,
        ),
        Event::LogAck(line) => run_log_ack(board, line),
        Event::DataAck(line) => run_data_ack(board, line),
        Event::Fence(thread) => run_fence(board, thread),
        Event::Cut => run_cut(board),
    }
}

// An event's answer; a refusal leaves the board as it was, and its value is 0.
fn step_event(board: &mut Board, event: Event) -> Answer
    ensures { ◌≡◌ {A = Stepped} (record { board = board.new; answer = result }) (step_event board.old event) }
{
    Answer::from(run(board, event))
}

/// One event call: a record of any content. A refusal changes nothing; bytes behind a whole record are not looked at.
#[tactic(auto, unfolding(rules::specs::Step::step))]
pub fn event(board: &mut Board, bytes: &[u8]) -> Answer
    ensures { ◌≡◌ {A = Stepped} (record { board = board.new; answer = result }) (step board.old bytes.now) }
{
    let reading = events::read_record(bytes);
    // The list of forms by place asks for `let .. else` at the reader's answer.
    let Ok(event) = reading else {
        return Answer::from(reading.map(|_| 0));
    };
    step_event(board, event)
}
