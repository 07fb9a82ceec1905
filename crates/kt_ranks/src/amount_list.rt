//! A list of amounts, to which one that may be absent is appended without a branch.
//! The rules: docs/CALCULATION.md, "Kinds of exceedance curves".
ghost use Rattle.std.specs.Prelude.{◌≡◌, ◌∷◌, [], IfOk, if◌then◌else◌};
ghost use Rattle.kt_cell.specs.Losses.{one_if};
ghost use Rattle.kt_ranks.specs.AmountLists.{HasMore, HasRoom, IsRoom, listed};

use kt_money::OutOfMemory;
use std::alloc::Global;

/// 1 for yes, 0 for no.
#[inline]
pub(crate) fn one_if(is_there: bool) -> usize
    ensures value { result ≡ one_if is_there }
{
    if is_there { 1 } else { 0 }
}

/// Amounts in cents, and room for further ones.
#[derive(Drop)]
pub struct AmountList {
    /// The amounts; what stands behind them has no meaning.
    values: Vec<u64>,
    /// How many amounts there are.
    used: usize,
}

impl AmountList {
    /// No amounts yet, and room for so many. An error is want of memory.
    pub(crate) fn new(alloc: Global, room: usize) -> Result<Self, OutOfMemory>
        ensures { IfOk result (IsRoom room) }
    {
        let values = vec![in alloc; 0; room]?;
        Ok(AmountList { values, used: 0 })
    }

    /// Appends an amount, where there is one.
    #[inline]
    pub(crate) fn put(&mut self, amount: u64, is_there: bool)
        requires { HasRoom self.old }
        ensures { HasMore (if is_there then amount ∷ [] else []) self.old self.new }
    {
        // Written in any case and counted where it is there: a branch would be foretold wrong as often as an amount is absent.
        self.values[self.used] = amount;
        self.used += one_if(is_there);
    }

    /// The amounts.
    pub fn into_amounts(self) -> Vec<u64>
        ensures { result.items ≡ listed self }
    {
        let mut values = self.values;
        values.truncate(self.used);
        values
    }
}
