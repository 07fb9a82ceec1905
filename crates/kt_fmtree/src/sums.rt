//! The four amounts of several units, added.
//! The rule: docs/FINANCIAL_MODULE.md, "The four amounts".
ghost use Rattle.std.specs.Prelude.{◌≡◌, ◌+◌, ◌≤◌, ◌^◌};
ghost use Rattle.std.specs.List.{sum_by};
ghost use Rattle.kt_rules.specs.Amounts.{total};
ghost use Rattle.kt_fmtree.specs.Tree.{add_carries};
ghost use Rattle.kt_fmtree.specs.Carried.{added};

use kt_rules::Carry;

/// The amounts of two, added.
fn add(one: Carry, other: Carry) -> Carry
    requires { total one + total other ≤ 10 ^ 16 }
    ensures value { result ≡ add_carries one other }
{
    Carry {
        loss: one.loss + other.loss,
        ded: one.ded + other.ded,
        over: one.over + other.over,
        kept: one.kept + other.kept,
    }
}

/// The amounts of units, added. They add to at most 10^16 cents.
pub fn added(carries: &[Carry]) -> Carry
    requires { sum_by total carries.now ≤ 10 ^ 16 }
    ensures value { result ≡ added carries.now }
    ensures few { total result ≤ 10 ^ 16 }
{
    let mut all = Carry {
        loss: 0,
        ded: 0,
        over: 0,
        kept: 0,
    };
    for carry in carries {
        all = add(all, *carry);
    }
    all
}
