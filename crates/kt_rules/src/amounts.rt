//! What one term makes of the four amounts.
//! The rules: docs/FINANCIAL_MODULE.md, "Steps".
ghost use Rattle.std.specs.Prelude.{◌≡◌, ◌≤◌, ◌^◌};
ghost use Rattle.kt_rules.specs.Amounts.{total, deduct, limited, attached, shared, franchise, reverse_franchise, at_most, at_least, between, within_bounds};

use crate::carry::Carry;
use kt_money::ppm_of;

/// A deductible: what the loss has of the amount becomes deductible.
pub(crate) fn deduct(amount: u64, carry: Carry) -> Carry
    requires few { total carry ≤ 10 ^ 16 }
    ensures value { result ≡ deduct amount carry }
    ensures kept { total result ≡ total carry }
{
    let taken = carry.loss.min(amount);
    Carry {
        loss: carry.loss - taken,
        ded: carry.ded + taken,
        ..carry
    }
}

/// A limit: what the loss has above the amount is over it.
pub(crate) fn limited(amount: u64, carry: Carry) -> Carry
    requires few { total carry ≤ 10 ^ 16 }
    ensures value { result ≡ limited amount carry }
    ensures kept { total result ≡ total carry }
{
    let taken = carry.loss.saturating_sub(amount);
    Carry {
        loss: carry.loss - taken,
        over: carry.over + taken,
        ..carry
    }
}

/// An attachment: what the loss has of the amount is kept.
pub(crate) fn attached(amount: u64, carry: Carry) -> Carry
    requires few { total carry ≤ 10 ^ 16 }
    ensures value { result ≡ attached amount carry }
    ensures kept { total result ≡ total carry }
{
    let taken = carry.loss.min(amount);
    Carry {
        loss: carry.loss - taken,
        kept: carry.kept + taken,
        ..carry
    }
}

/// A share in parts per million: the loss becomes its part, and the rest is kept.
pub(crate) fn shared(share: u32, carry: Carry) -> Carry
    requires few { total carry ≤ 10 ^ 16 }
    requires part { share ≤ 1000000 }
    ensures value { result ≡ shared share carry }
    ensures kept { total result ≡ total carry }
{
    let loss = ppm_of(carry.loss, share);
    Carry {
        loss,
        kept: carry.kept + (carry.loss - loss),
        ..carry
    }
}

/// The whole loss becomes deductible.
fn all_deducted(carry: Carry) -> Carry
    requires few { total carry ≤ 10 ^ 16 }
    ensures value { result ≡ deduct carry.loss carry }
    ensures kept { total result ≡ total carry }
{
    deduct(carry.loss, carry)
}

/// A franchise: a loss below the amount becomes deductible, and one that reaches it is paid whole.
pub(crate) fn franchise(amount: u64, carry: Carry) -> Carry
    requires few { total carry ≤ 10 ^ 16 }
    ensures value { result ≡ franchise amount carry }
    ensures kept { total result ≡ total carry }
{
    if carry.loss < amount {
        all_deducted(carry)
    } else {
        carry
    }
}

/// A reverse franchise: a loss above the amount becomes deductible, and one up to it is paid whole.
pub(crate) fn reverse_franchise(amount: u64, carry: Carry) -> Carry
    requires few { total carry ≤ 10 ^ 16 }
    ensures value { result ≡ reverse_franchise amount carry }
    ensures kept { total result ≡ total carry }
{
    if carry.loss > amount {
        all_deducted(carry)
    } else {
        carry
    }
}

/// A maximum deductible: what the deductible has above the amount goes back to the loss where nothing is over a limit, and
/// else over it.
pub(crate) fn at_most(amount: u64, carry: Carry) -> Carry
    requires few { total carry ≤ 10 ^ 16 }
    ensures value { result ≡ at_most amount carry }
    ensures kept { total result ≡ total carry }
{
    let surplus = carry.ded.saturating_sub(amount);
    let ded = carry.ded - surplus;
    if carry.over == 0 {
        Carry {
            loss: carry.loss + surplus,
            ded,
            ..carry
        }
    } else {
        Carry {
            ded,
            over: carry.over + surplus,
            ..carry
        }
    }
}

/// A minimum deductible: what the deductible lacks of the amount is taken from what is over limits, and then from the loss,
/// as far as they reach.
pub(crate) fn at_least(amount: u64, carry: Carry) -> Carry
    requires few { total carry ≤ 10 ^ 16 }
    ensures value { result ≡ at_least amount carry }
    ensures kept { total result ≡ total carry }
{
    let want = amount.saturating_sub(carry.ded);
    let from_over = want.min(carry.over);
    let from_loss = (want - from_over).min(carry.loss);
    Carry {
        loss: carry.loss - from_loss,
        ded: carry.ded + from_over + from_loss,
        over: carry.over - from_over,
        ..carry
    }
}

/// A minimum and a maximum deductible: the minimum where the deductible is below it, else the maximum.
pub(crate) fn between(least: u64, most: u64, carry: Carry) -> Carry
    requires few { total carry ≤ 10 ^ 16 }
    ensures value { result ≡ between least most carry }
    ensures kept { total result ≡ total carry }
{
    if carry.ded < least {
        at_least(least, carry)
    } else {
        at_most(most, carry)
    }
}

/// An amount within a least and a most; the least where they cross.
pub(crate) fn within_bounds(least: u64, most: u64, amount: u64) -> u64
    ensures value { result ≡ within_bounds least most amount }
{
    least.max(amount.min(most))
}
