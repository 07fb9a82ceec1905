//! The calls of an object in memory: which of them fail, and how many bytes one moves.
//! The rule: docs/ARCHITECTURE.md, "The outside".
ghost use Rattle.std.specs.Prelude.{◌≡◌, ◌<◌, ◌≤◌, min};
ghost use Rattle.kt_kept_files.specs.Calls.{fails_next, after_call, after_pass, no_calls};

use std::marker::Model;

/// The calls made so far, those that are to fail, and the most bytes that one moves.
#[derive(Drop)]
pub struct Calls {
    made: u64,
    to_fail: Vec<u64>,
    most: u64,
    failed: u64,
}

impl Model for Calls {
    ghost use Rattle.std.specs.Prelude.{◌<◌};
    ghost use Rattle.kt_kept_files.specs.Calls.{CallsSoFar};

    ghost Value = { CallsSoFar };

    ghost view = { λ c. record { made = c.made; to_fail = c.to_fail.items; most = c.most; failed = c.failed } };

    ghost invariant = { λ c. 0 < c.most };
}

impl Calls {
    /// No call yet. The calls with these numbers, counted from 1, are to fail.
    pub fn new(to_fail: Vec<u64>, most: u64) -> Self
        requires { 0 < most }

        ensures { result ≡ no_calls to_fail.items most }
    {
        Calls {
            made: 0,
            to_fail,
            most,
            failed: 0,
        }
    }

    /// Counts one more call, and answers whether it is one of those that are to fail.
    pub fn next_fails(&mut self) -> bool
        ensures value { result ≡ fails_next self.old }
        ensures exact { self.new ≡ after_call self.old }
        ensures counted { self.old.failed ≤ self.new.failed }
    {
        self.made = self.made.saturating_add(1);
        let fails = self.to_fail.contains(&self.made);
        if fails {
            self.failed = self.failed.saturating_add(1);
        }
        fails
    }

    /// Counts one more call, which does not fail.
    pub fn pass_next(&mut self)
        ensures exact { self.new ≡ after_pass self.old }
    {
        self.made = self.made.saturating_add(1);
    }

    /// How many calls have failed.
    pub fn failed(&self) -> u64
        ensures { result ≡ self.now.failed }
    {
        self.failed
    }

    /// The most bytes that one call moves, at least 1.
    pub fn most(&self) -> u64
        ensures value { result ≡ self.now.most }
        ensures some { 0 < self.now.most }
    {
        self.most
    }
}

/// How many of n bytes one call moves, where it moves at most so many.
pub fn moved_bytes(n: usize, most: u64) -> usize
    ensures { result ≡ min n most }
{
    (n as u64).min(most) as usize
}
