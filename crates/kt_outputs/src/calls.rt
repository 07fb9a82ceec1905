//! Calls that are made side by side, each in a thread of its own.
//! The rule: docs/ARCHITECTURE.md, "A run of all stages".
ghost use Rattle.std.specs.Prelude.{ℕ, ◌+◌, ◌^◌, ◌<◌, ◌≤◌, ◌≡◌, IfOk, vec_len};
ghost use Rattle.std.specs.Fork.{GivesEach};
ghost use Rattle.std.specs.Fork.Halves.{GivesFrom};
ghost use Rattle.std.specs.Thread.{IsSend, IsSync};

use std::alloc::{AllocError, Global};
use std::thread::{Threads, join};

/// The answer of the call with one number, in a list of its own.
fn one_call<X: Drop, F: Fn(usize) -> X>(
    alloc: Global,
    from: usize,
    call: &F,
) -> Result<Vec<X>, AllocError>
    requires accepts { F.pre call.now from }
    ensures { IfOk result (λ made. GivesFrom F.Fn call.now from 1 made.items) }
{
    let mut one = Vec::new(alloc);
    one.push(call(from))?;
    Ok(one)
}

/// The calls of so many numbers from one on, each in a thread of its own.
#[cycle(calls)]
fn calls_from<R: Threads + Sync, X: Send + Drop, F: Fn(usize) -> X + Sync>(
    rt: &R,
    alloc: Global,
    from: usize,
    count: usize,
    call: &F,
) -> Result<Vec<X>, AllocError>
    requires room { from + count < 2 ^ 64 }
    requires accepts { (i : ℕ) → from ≤ i → i < from + count → F.pre call.now i }
    ensures { IfOk result (λ made. GivesFrom F.Fn call.now from count made.items) }
{
    if count == 0 {
        return Ok(Vec::new(alloc));
    }
    let high = count - 1;
    let up = from + 1;
    let first = move || -> Result<Vec<X>, AllocError>
        requires { IsSync F.row × IsSend X.row × F.pre call.now from }
        ensures { IfOk result (λ made. GivesFrom F.Fn call.entry.now from 1 made.items) }
    { one_call(alloc, from, call) };
    let others = move || -> Result<Vec<X>, AllocError>
        requires { IsSync R.row × IsSync F.row × IsSend X.row × (up + high < 2 ^ 64) × ((i : ℕ) → up ≤ i → i < up + high → F.pre call.now i) }
        ensures { IfOk result (λ made. GivesFrom F.Fn call.entry.now up high made.items) }
    { calls_from(rt, alloc, up, high, call) };
    let (a, b) = join(rt, first, others);
    let mut all = a?;
    let mut rest = b?;
    all.append(&mut rest)?;
    Ok(all)
}

/// What the calls with the numbers below `count` answer, in their order, each in a thread of its own where one can be made. An error is
/// want of memory. The calling thread makes all threads, one after the other, and then waits: a calling thread that makes a call as
/// well often has one of the new threads put beside it, while another processor stands idle, and so has a new thread that makes others.
/// A single call is made on the calling thread, with no thread of its own.
pub fn calls_beside<R: Threads + Sync, X: Send + Drop, F: Fn(usize) -> X + Sync>(
    rt: &R,
    alloc: Global,
    count: usize,
    call: &F,
) -> Result<Vec<X>, AllocError>
    requires { (i : ℕ) → i < count → F.pre call.now i }
    ensures len { IfOk result (λ made. vec_len made ≡ count) }
    ensures each { IfOk result (λ made. GivesEach F.Fn call.now count made.items) }
{
    if count == 1 {
        return one_call(alloc, 0, call);
    }
    calls_from(rt, alloc, 0, count, call)
}
