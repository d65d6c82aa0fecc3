// The kiosk's functions for C and Rust, numbers and slices alone, which the header vulzegan.h declares: each is the one of crate `kiosk`.
#![tactic(auto)]

ghost use Rattle.std.specs.Prelude.{◌≡◌};
ghost use Rattle.homes.specs.Homes.{hash_of};
ghost use Rattle.orders.specs.Orders.{orders_of};
ghost use Rattle.state.specs.Model.{kiosk};
ghost use Rattle.state.specs.Open.{open_call};
ghost use Rattle.tables.specs.Calls.{check_call, count_call};
ghost use Rattle.numbered.specs.Numbers.{reply_answer};
ghost use Rattle.numbered.specs.Batch.{Promised};
ghost use Rattle.rounds.specs.Rounds.{acks_of};
ghost use Rattle.migration.specs.Lists.{MoveNumbers, MovePromised};
ghost use Rattle.answers.specs.Numbers.{counted_answer, ListNumbers, TillNumbers, RunNumbers, OpenNumbers, CloseNumbers};

use orders::Order;

// Whether the table is sound by a and b: 0, or the number of the refusal.
#[unsafe(no_mangle)]
pub extern "C" fn vulzegan_kiosk_check(a: u32, b: u32, cells: &[u64]) -> u64
    ensures { result ≡ reply_answer (check_call kiosk (hash_of a b) cells.now) }
{
    kiosk::vulzegan_kiosk_check(a, b, cells)
}

// How many keys the table has.
#[unsafe(no_mangle)]
pub extern "C" fn vulzegan_kiosk_count(a: u32, b: u32, cells: &[u64]) -> u64
    ensures { result ≡ counted_answer (count_call kiosk (hash_of a b) cells.now) }
{
    kiosk::vulzegan_kiosk_count(a, b, cells)
}

// Lists the entries, each key with its price, in cell order at the front of `out`.
#[unsafe(no_mangle)]
pub extern "C" fn vulzegan_kiosk_list(a: u32, b: u32, cells: &[u64], out: &mut [u64]) -> u64
    ensures { ListNumbers kiosk (hash_of a b) cells.now out.old result out.new }
{
    kiosk::vulzegan_kiosk_list(a, b, cells, out)
}

// Reads a till list into a list of orders, lent as its keys, its prices and its workers, for a crew of so many: how many records the text has.
#[unsafe(no_mangle)]
pub extern "C" fn vulzegan_kiosk_read_till(
    text: &[u8],
    count: u64,
    keys: &mut [u32],
    prices: &mut [u32],
    workers: &mut [u32],
) -> u64
    ensures { TillNumbers kiosk text.now count keys.old prices.old workers.old
        result keys.new prices.new workers.new }
{
    kiosk::vulzegan_kiosk_read_till(text, count, keys, prices, workers)
}

// Whether a phase may be opened: 0, or the number of the refusal.
#[unsafe(no_mangle)]
pub extern "C" fn vulzegan_kiosk_open(
    kind: u64,
    count: u64,
    a: u32,
    b: u32,
    cells: &[u64],
    orders: &[Order],
) -> u64
    ensures { result ≡ reply_answer (open_call kiosk kind count (hash_of a b) cells.now orders.now).reply }
{
    kiosk::vulzegan_kiosk_open(kind, count, a, b, cells, orders)
}

// Opens a phase, an insert phase with a list of orders, and if the opening is accepted, applies calls, each lent that list: 0, or the number of the
// opening's refusal.
#[unsafe(no_mangle)]
pub extern "C" fn vulzegan_kiosk_run_calls(
    kind: u64,
    count: u64,
    a: u32,
    b: u32,
    cells: &mut [u64],
    order_keys: &[u32],
    order_prices: &[u32],
    order_workers: &[u32],
    ops: &[u32],
    lines: &[u32],
    workers: &[u32],
    keys: &[u32],
    answers: &mut [u64],
) -> u64
    ensures is_run { RunNumbers kiosk kind count (hash_of a b) cells.old
        (orders_of order_keys.now order_prices.now order_workers.now)
        ops.now lines.now workers.now keys.now answers.old
        result cells.new answers.new }
    ensures promise { Promised kiosk kind count (hash_of a b) cells.old
        (orders_of order_keys.now order_prices.now order_workers.now)
        ops.now lines.now workers.now keys.now answers.old }
{
    kiosk::vulzegan_kiosk_run_calls(
        kind,
        count,
        a,
        b,
        cells,
        order_keys,
        order_prices,
        order_workers,
        ops,
        lines,
        workers,
        keys,
        answers,
    )
}

// The same, each call by value with the phase tested at each, as single calls are.
#[unsafe(no_mangle)]
pub extern "C" fn vulzegan_kiosk_run_calls_singly(
    kind: u64,
    count: u64,
    a: u32,
    b: u32,
    cells: &mut [u64],
    order_keys: &[u32],
    order_prices: &[u32],
    order_workers: &[u32],
    ops: &[u32],
    lines: &[u32],
    workers: &[u32],
    keys: &[u32],
    answers: &mut [u64],
) -> u64
    ensures is_run { RunNumbers kiosk kind count (hash_of a b) cells.old
        (orders_of order_keys.now order_prices.now order_workers.now)
        ops.now lines.now workers.now keys.now answers.old
        result cells.new answers.new }
    ensures promise { Promised kiosk kind count (hash_of a b) cells.old
        (orders_of order_keys.now order_prices.now order_workers.now)
        ops.now lines.now workers.now keys.now answers.old }
{
    kiosk::vulzegan_kiosk_run_calls_singly(
        kind,
        count,
        a,
        b,
        cells,
        order_keys,
        order_prices,
        order_workers,
        ops,
        lines,
        workers,
        keys,
        answers,
    )
}

// Opens a round with the list sent: 0, or the number of the refusal.
#[unsafe(no_mangle)]
pub extern "C" fn vulzegan_kiosk_round_open(
    count: u64,
    a: u32,
    b: u32,
    cells: &mut [u64],
    keys: &[u32],
    prices: &[u32],
    workers: &[u32],
) -> u64
    ensures { OpenNumbers kiosk count (hash_of a b) cells.old (orders_of keys.now prices.now workers.now)
        result cells.new }
{
    kiosk::vulzegan_kiosk_round_open(count, a, b, cells, keys, prices, workers)
}

// Closes a round with the replies: how many labels are left, or the number of the refusal. `answers` takes the number of each reply's answer, 0 if it is
// accepted, and `out` what is left.
#[unsafe(no_mangle)]
pub extern "C" fn vulzegan_kiosk_round_close(
    count: u64,
    a: u32,
    b: u32,
    cells: &mut [u64],
    keys: &[u32],
    workers: &[u32],
    answers: &mut [u32],
    out: &mut [u64],
) -> u64
    ensures { CloseNumbers kiosk count (hash_of a b) cells.old (acks_of keys.now workers.now)
        answers.old out.old result cells.new answers.new out.new }
{
    kiosk::vulzegan_kiosk_round_close(count, a, b, cells, keys, workers, answers, out)
}

// Opens a move shift from the table `old` to the new one and, if the opening is accepted, applies calls: 0, or the number of the opening's refusal.
#[unsafe(no_mangle)]
pub extern "C" fn vulzegan_kiosk_run_moves(
    count: u64,
    a: u32,
    b: u32,
    old: &[u64],
    cells: &mut [u64],
    ops: &[u32],
    workers: &[u32],
    answers: &mut [u64],
) -> u64
    ensures is_run { MoveNumbers kiosk count (hash_of a b) old.now cells.old
        ops.now workers.now answers.old result old.now cells.new answers.new }
    ensures promise { MovePromised kiosk count (hash_of a b) old.now cells.old
        ops.now workers.now answers.old }
{
    kiosk::vulzegan_kiosk_run_moves(count, a, b, old, cells, ops, workers, answers)
}
