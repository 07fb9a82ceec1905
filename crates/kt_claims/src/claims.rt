//! The word from which the workers of a round claim its numbers, each number exactly once whatever the order of their steps.
//! The rule: docs/ARCHITECTURE.md, "A run of all stages".
ghost use Rattle.std.specs.Prelude.{◌≡◌, ◌<◌, []};

use crate::dealing::{Dealing, Deals, Draws, Gathers, Known, Settles};
use atomic_table::{Seat, Table};
use std::alloc::{AllocError, Global};

/// The word of a round. Threads share it, and each has a pass of its own.
#[derive(Drop)]
pub struct Claims {
    table: Table<(), Known, u32, Dealing, Global>,
    ghost one_word: { table.shared.table_id.words ≡ 1 },
}

/// What a thread claims with. It has no bytes: contracts alone see its claims, the draws that it has left, and the number of workers.
#[derive(Drop)]
pub struct Pass {
    seat: Seat<(), Known>,
    ghost dealt: { 0 < seat.me.0.workers },
    ghost bare: { seat.me.1 ≡ [] },
}

impl Claims {
    ghost use Rattle.std.specs.Prelude.{◌≡◌, ◌+◌, ◌*◌, ◌<◌, ◌≤◌, ◌++◌, [], IfOk, length};
    ghost use Rattle.kt_claims.specs.Numbers.{AreFirst};
    ghost use Rattle.kt_claims.specs.Passes.{HasDrawn, IsFresh, IsPassOf, claims_of, left_of, workers_of};
    ghost use Rattle.kt_claims.specs.Dealing.{Drawn};

    /// A word of which no number is claimed, and a pass with 17 draws for each worker. An error is want of memory.
    pub fn new(alloc: Global, workers: u32) -> Result<(Claims, Pass), AllocError>
        requires some { 0 < workers }
        requires few { workers ≤ 16 }
        ensures of { IfOk result (λ made. IsPassOf made.0 made.1) }
        ensures fresh { IfOk result (λ made. IsFresh workers made.1) }
    {
        let (table, seat) = Table::of_words(alloc, &[0], &workers)?;
        Ok((Claims { table }, Pass { seat }))
    }

    /// Cuts the draws of one worker off a pass.
    pub fn split(&self, pass: &mut Pass) -> Pass
        requires of { IsPassOf self.now pass.old }
        requires left { 17 ≤ left_of pass.old }
        ensures of { IsPassOf self.now pass.new × IsPassOf self.now result }
        ensures kept { (claims_of pass.new ≡ claims_of pass.old) × (workers_of pass.new ≡ workers_of pass.old) }
        ensures left { left_of pass.new + 17 ≡ left_of pass.old }
        ensures cut { (claims_of result ≡ []) × (left_of result ≡ 17) × (workers_of result ≡ workers_of pass.old) }
    {
        let seat = self.table.shared.split_seat::<Deals>(&mut pass.seat);
        Pass { seat }
    }

    /// Draws the next number.
    fn draw(&self, pass: &mut Pass) -> u64
        requires of { IsPassOf self.now pass.old }
        requires left { 0 < left_of pass.old }
        ensures of { IsPassOf self.now pass.new }
        ensures drawn { Drawn pass.old.seat.me.0 result pass.new.seat.me.0 }
    {
        self.table.shared.fetch_add::<Draws>(&mut pass.seat, 0, 1)
    }

    /// Claims the next number, and answers it where it is below `count`.
    pub fn claim(&self, pass: &mut Pass, count: u32) -> Option<u32>
        requires of { IsPassOf self.now pass.old }
        requires left { 0 < left_of pass.old }
        ensures of { IsPassOf self.now pass.new }
        ensures drawn { HasDrawn count pass.old pass.new result }
    {
        let number = self.draw(pass);
        if number < count as u64 {
            Some(number as u32)
        } else {
            None
        }
    }

    /// Puts the claims and the draws of a second pass behind those of the first. Where they are all draws of its workers then, its
    /// claims are the numbers below some number, each once.
    pub fn join(&self, pass: &mut Pass, other: Pass)
        requires of { IsPassOf self.now pass.old × IsPassOf self.now other }
        ensures of { IsPassOf self.now pass.new }
        ensures claims { claims_of pass.new ≡ claims_of pass.old ++ claims_of other }
        ensures left { left_of pass.new ≡ left_of pass.old + left_of other }
        ensures workers { workers_of pass.new ≡ workers_of pass.old }
        ensures settled { length (claims_of pass.new) + left_of pass.new ≡ 17 * workers_of pass.new → AreFirst (claims_of pass.new) }
    {
        let Pass { seat } = other;
        self.table.shared.join_seat::<Gathers>(&mut pass.seat, seat);
        self.table.shared.load::<Settles>(&mut pass.seat, 0);
    }
}
