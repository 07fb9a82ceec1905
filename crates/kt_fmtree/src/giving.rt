//! What a unit gives to its children.
//! The rule: docs/FINANCIAL_MODULE.md, "Allocation".
ghost use Rattle.std.specs.Prelude.{◌≡◌, ◌+◌, ◌≤◌, ◌<◌, ◌^◌, ◌++◌, length, map, false, OnOk};
ghost use Rattle.std.specs.List.{sum_by};
ghost use Rattle.kt_money.specs.Sharing.{share_of, share_out};
ghost use Rattle.kt_rules.specs.Amounts.{total};
ghost use Rattle.kt_fmtree.specs.Carried.{CanCarry};
ghost use Rattle.kt_fmtree.specs.Placed.{due, weights, parts_from, amounts_for, children_of};

use crate::node::Node;
use crate::part::PlacedPart;
use crate::sums::added;
use kt_money::ShareOut;
use kt_rules::Carry;
use std::alloc::AllocError;

/// What is shared out over weights: where they add to nothing, nothing.
fn due(amount: u64, weights: u64) -> u64
    ensures value { result ≡ due amount weights }
{
    if weights == 0 { 0 } else { amount }
}

/// The share of the next weight; a weight of 0 has none.
fn next_share(sharing: &mut ShareOut, weight: u64) -> u64
    requires { sharing.old.given + weight ≤ sharing.old.weights }
    ensures value { result ≡ share_of sharing.old.total sharing.old.weights sharing.old.given weight }
    ensures given { sharing.new ≡ record sharing.old { given = sharing.old.given + weight } }
{
    if weight == 0 {
        return 0;
    }
    sharing.next(weight)
}

/// Puts the shares of children, whose places begin at one, of an amount behind other parts.
fn push_shares(
    children: &[Carry],
    start: usize,
    amount: u64,
    parts: &mut Vec<PlacedPart>,
) -> Result<(), AllocError>
    requires few { sum_by total children.now ≤ 10 ^ 16 }
    requires most { amount ≤ 10 ^ 17 }
    requires within { start + length children.now < 2 ^ 63 }
    ensures value { OnOk result (parts.new.items ≡ parts.old.items ++ parts_from start (share_out amount (weights children.now))) }
{
    let all = added(children);
    let weights = all.weight(all.loss);
    let mut sharing = ShareOut::new(due(amount, weights), u128::from(weights));
    for (at, carry) in children.iter().enumerate() {
        let share = next_share(&mut sharing, carry.weight(all.loss));
        parts.push(PlacedPart {
            place: start + at,
            amount: share,
        })?;
    }
    Ok(())
}

/// Puts the ground-up losses of children, whose places begin at one, behind other parts.
fn push_losses(
    children: &[Carry],
    start: usize,
    parts: &mut Vec<PlacedPart>,
) -> Result<(), AllocError>
    requires few { sum_by total children.now ≤ 10 ^ 16 }
    requires within { start + length children.now < 2 ^ 63 }
    ensures value { OnOk result (parts.new.items ≡ parts.old.items ++ parts_from start (map total children.now)) }
{
    for (at, carry) in children.iter().enumerate() {
        parts.push(PlacedPart {
            place: start + at,
            amount: carry.ground_up(),
        })?;
    }
    Ok(())
}

/// Puts what the children of a unit have behind other parts: their ground-up losses, or their shares of its amount.
pub(crate) fn push_children(
    node: &Node,
    below: &[Carry],
    whole: bool,
    amount: u64,
    parts: &mut Vec<PlacedPart>,
) -> Result<(), AllocError>
    requires can { CanCarry below.now node.now }
    requires most { whole ≡ false → amount ≤ 10 ^ 17 }
    ensures value { OnOk result (parts.new.items ≡ parts.old.items ++ parts_from node.now.start (amounts_for whole amount (children_of below.now node.now))) }
{
    let children = &below[node.start..node.start + node.width];
    if whole {
        push_losses(children, node.start, parts)
    } else {
        push_shares(children, node.start, amount, parts)
    }
}
