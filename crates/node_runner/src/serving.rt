//! A worker's loop.

ghost use Rattle.std.specs.Prelude.{◌≡◌, ◌<◌, ◌%◌, ℕ, Ok, OnErr, OnOk, length, slice_index_or};
ghost use Rattle.node_runner.specs.declared.desk.Offer.TheVariants as offer;

use crate::desk::{Desk, Gate, Offer};
use orca_base::NoMemory;
use std::sync::Wait;
use std::thread;
use std::thread::Threads;

/// Serves a desk until its work is over, for a worker that prefers this member's processes; the gate is called before each burst is
/// computed. Where memory lacks for a take, or for a burst, the desk is stopped, and the worker ends.
pub fn serve<R: Wait, D: Desk, G: Gate>(
    rt: &R,
    desk: &D,
    gate: &G,
    home: u8,
) -> Result<(), NoMemory>
    ensures over { OnOk result (D.is_over desk.now home) }
    ensures stopped { OnErr result (D.is_stopped desk.now) }
{
    let mut offered = desk.take_work(rt, home);
    'works: for _ in rt.forever() {
        offered = match offered {
            Ok(Offer::Over) => return Ok(()),
            Ok(Offer::Stepped) => desk.take_work(rt, home),
            Ok(Offer::Wait) => {
                desk.wait(rt);
                desk.take_work(rt, home)
            }
            Ok(Offer::Work { work }) => compute(rt, desk, gate, home, work),
            Err(failure) => {
                desk.stop(rt, failure);
                return Err(NoMemory);
            }
        };
    }
    unreachable!()
}

// Computes what was taken, puts it, and takes the next work.
fn compute<R: Wait, D: Desk, G: Gate>(
    rt: &R,
    desk: &D,
    gate: &G,
    home: u8,
    work: D::Work,
) -> Result<Offer<D::Work>, D::Failure>
    ensures over { result ≡ Ok offer.Over → D.is_over desk.now home }
{
    gate.before_run(desk.process_of(&work));
    match desk.run_work(work) {
        Ok(done) => desk.put_and_take(rt, done, home),
        Err(failure) => Err(failure),
    }
}

// The member whose processes a worker prefers.
fn home_of(worker: usize, nodes: u8) -> u8
    requires { 0 < nodes }
    ensures { result ≡ worker % nodes }
{
    (worker % usize::from(nodes)) as u8
}

/// Lets as many workers serve a desk as there are slots, each of which leaves its answer in its slot. All have ended then. Worker w prefers
/// the processes of member w mod `nodes`.
pub fn serve_all<R: Threads + Wait + Sync, D: Desk + Sync, G: Gate + Sync>(
    rt: &R,
    desk: &D,
    gate: &G,
    nodes: u8,
    slots: &mut [Result<(), NoMemory>],
)
    requires { 0 < nodes }
    ensures over { (w : ℕ) (d : _) → w < length slots.old → OnOk (slice_index_or slots.new w d) (D.is_over desk.now (w % nodes)) }
    ensures stopped { (w : ℕ) (d : _) → w < length slots.old → OnErr (slice_index_or slots.new w d) (D.is_stopped desk.now) }
{
    let workers = slots.len();
    if workers == 0 {
        return;
    }
    thread::for_each_mut(
        rt,
        slots,
        workers,
        &|worker: usize, slot: &mut Result<(), NoMemory>|
            requires { 0 < nodes }
            ensures over { OnOk slot.new (D.is_over desk.entry.now (worker % nodes)) }
            ensures stopped { OnErr slot.new (D.is_stopped desk.entry.now) }
        {
            *slot = serve(rt, desk, gate, home_of(worker, nodes));
        },
    );
}
