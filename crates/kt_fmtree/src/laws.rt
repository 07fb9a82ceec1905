//! Theorems about the tree of a programme, and that of its struck units, as functions with an empty body.
//! The rules: docs/FINANCIAL_MODULE.md, "Levels", "Policy losses", "Allocation".
ghost use Rattle.std.specs.Prelude.{◌≡◌, ◌≤◌, ◌*◌, ℕ, List, false, length, nat_eq, slice_index, unwrap_or};
ghost use Rattle.std.specs.List.{IsDistinct, list_any, sum, sum_by, zip};
ghost use Rattle.std.specs.Map.{lookup};
ghost use Rattle.kt_rules.specs.Amounts.{total};
ghost use Rattle.kt_fmtree.specs.Tree.{Tree, IsTree, carry_of, ground_up, policy_loss, beneath};
ghost use Rattle.kt_fmtree.specs.Sharing.{allocated};
ghost use Rattle.kt_fmtree.specs.Struck.{is_struck, struck};

/// The four amounts of a unit add to the ground-up loss beneath it.
pub fn the_amounts_add_to_the_loss_beneath()
    ensures { (tree : Tree) → IsTree tree → (losses : ℕ → ℕ) (level unit : ℕ) → total (carry_of tree losses level unit) ≡ ground_up tree losses level unit }
{}

/// The policy loss of a layer is not above the ground-up loss beneath its top.
pub fn no_policy_loss_is_above_the_loss_beneath()
    ensures { (tree : Tree) → IsTree tree → (losses : ℕ → ℕ) (top layer : ℕ) → policy_loss tree losses top layer ≤ ground_up tree losses tree.top_level top }
{}

/// The ground-up losses beneath all tops are not above those of all ids: an id comes to one top at the most.
pub fn the_losses_beneath_all_tops_are_within_those_of_all_ids()
    ensures { (tree : Tree) → IsTree tree → IsDistinct nat_eq tree.tops → (losses : ℕ → ℕ) → sum_by (ground_up tree losses tree.top_level) tree.tops ≤ sum_by losses tree.ids }
{}

/// So where no top has more than 50 layers, the policy losses of all layers are not above 50 times the losses of all ids.
pub fn all_policy_losses_are_within_fifty_times_the_losses()
    ensures { (tree : Tree) → IsTree tree → IsDistinct nat_eq tree.tops → ((top : ℕ) → length (tree.layers top) ≤ 50) → (losses : ℕ → ℕ) → sum_by (λ top. sum_by (policy_loss tree losses top) (tree.layers top)) tree.tops ≤ 50 * sum_by losses tree.ids }
{}

/// What the ids beneath a top get of the policy loss of a layer adds to it.
pub fn the_allocated_losses_add_to_the_policy_loss()
    ensures { (tree : Tree) → IsTree tree → (losses : ℕ → ℕ) (top layer rule : ℕ) → sum (allocated tree losses rule top layer) ≡ policy_loss tree losses top layer }
{}

/// An id beneath a top that has no ground-up loss gets nothing of a policy loss.
pub fn an_id_without_a_loss_gets_nothing()
    ensures { (tree : Tree) → IsTree tree → (losses : ℕ → ℕ) (top layer rule place : ℕ) → losses (slice_index (beneath tree top) place) ≡ 0 → slice_index (allocated tree losses rule top layer) place ≡ 0 }
{}

/// The units that the losses of some ids come to make a tree that hangs together.
pub fn the_struck_units_make_a_tree()
    ensures { (tree : Tree) → IsTree tree → (ids : List ℕ) → IsTree (struck tree ids) }
{}

/// Where the other ids have no loss, each policy loss is what it was.
pub fn no_policy_loss_changes()
    ensures { (tree : Tree) → IsTree tree → (ids : List ℕ) (losses : ℕ → ℕ) → ((id : ℕ) → list_any (nat_eq id) ids ≡ false → losses id ≡ 0) → (top layer : ℕ) → policy_loss (struck tree ids) losses top layer ≡ policy_loss tree losses top layer }
{}

/// Then a top that the losses of none of these ids come to has no policy loss.
pub fn an_unstruck_top_has_no_policy_loss()
    ensures { (tree : Tree) → IsTree tree → (ids : List ℕ) (losses : ℕ → ℕ) → ((id : ℕ) → list_any (nat_eq id) ids ≡ false → losses id ≡ 0) → (top layer : ℕ) → is_struck tree ids tree.top_level top ≡ false → policy_loss tree losses top layer ≡ 0 }
{}

/// And each id has of a policy loss what it had, by both rules of allocation.
pub fn no_part_changes()
    ensures { (tree : Tree) → IsTree tree → (ids : List ℕ) (losses : ℕ → ℕ) → ((id : ℕ) → list_any (nat_eq id) ids ≡ false → losses id ≡ 0) → (rule top layer id : ℕ) → unwrap_or (lookup (nat_eq id) (zip (beneath (struck tree ids) top) (allocated (struck tree ids) losses rule top layer))) 0 ≡ unwrap_or (lookup (nat_eq id) (zip (beneath tree top) (allocated tree losses rule top layer))) 0 }
{}
