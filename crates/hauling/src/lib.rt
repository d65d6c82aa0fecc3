// Lists of calls on a migration, lent as numbers, each through the function of that call. What the promises on courses say of code that runs.
#![tactic(auto)]

ghost use Rattle.state.specs.Model.{model_of};
ghost use Rattle.migration.specs.Lists.{calls_lent, RunsFrom, Ran, MovePromised};

use homes::Hash;
use migrating::{close, open, order, turn};
use migration::{Migrated, Migration};
use singly::{reply_answer, turn_answer};
use state::Device;

// The operations' numbers; any other is a close.
const ORDER: u32 = 1;

const TURN: u32 = 2;

// Applies calls from a migration on, as many as the shortest of ops, workers and answers has; `answers` takes their answers' numbers.
fn run_from(
    device: Device,
    migration: Migration,
    old: &[u64],
    new: &mut [u64],
    ops: &[u32],
    workers: &[u32],
    answers: &mut [u64],
) -> Migration
    ensures { RunsFrom (model_of device) migration old.now new.old
        (calls_lent ops.now workers.now answers.old)
        answers.old result old.now new.new answers.new }
{
    let all = ops.len().min(workers.len()).min(answers.len());
    let mut next = migration;
    for i in 0..all {
        let worker = workers[i] as usize;
        if ops[i] == ORDER {
            let ordered = order(device, next, worker);
            next = ordered.migration;
            answers[i] = reply_answer(ordered.reply);
        } else if ops[i] == TURN {
            let turned = turn(device, next, old, new, worker);
            next = turned.migration;
            answers[i] = turn_answer(turned.reply);
        } else {
            let closed = close(device, next);
            next = closed.migration;
            answers[i] = reply_answer(closed.reply);
        }
    }
    next
}

// Opens a migration from an old table to a new one and, if the opening is accepted, applies calls as above.
pub fn run_moves(
    device: Device,
    crew: u64,
    hash: Hash,
    old: &[u64],
    new: &mut [u64],
    ops: &[u32],
    workers: &[u32],
    answers: &mut [u64],
) -> Migrated
    ensures is_run { Ran (model_of device) crew hash old.now new.old ops.now workers.now answers.old
        result old.now new.new answers.new }
    ensures promise { MovePromised (model_of device) crew hash old.now new.old ops.now workers.now answers.old }
{
    let opened = open(device, crew, hash, old, new);
    match opened.reply {
        Ok(()) => Migrated {
            migration: run_from(device, opened.migration, old, new, ops, workers, answers),
            reply: Ok(()),
        },
        Err(_) => opened,
    }
}
