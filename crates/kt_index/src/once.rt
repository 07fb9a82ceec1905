//! Ids in order, each once.
//! The rule: docs/CALCULATION.md, "Summary".
ghost use Rattle.std.specs.Prelude.{◌≡◌, ℕ, nat_eq};
ghost use Rattle.std.specs.List.{list_any};
ghost use Rattle.kt_rec.specs.Rising.{IsRising};

/// Puts ids in order, and leaves each once.
pub fn keep_once(ids: &mut Vec<u32>)
    ensures rising { IsRising ids.new.items }
    ensures same { (id : ℕ) → list_any (nat_eq id) ids.new.items ≡ list_any (nat_eq id) ids.old.items }
{
    ids.sort_unstable();
    ids.dedup();
}
