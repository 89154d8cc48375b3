// Laws, proved from the definitions.
ghost use Rattle.std.specs.Prelude.{◌≡◌, ◌↔◌, ℕ, ◌<◌, nat_eq, true, IsTrue, List, length};
ghost use Rattle.std.specs.List.{IsDistinct};
ghost use Rattle.py_tree.specs.Names.{Name};
ghost use Rattle.py_tree.specs.Trees.{Cell};
ghost use Rattle.graph_meaning.specs.Graph.{order, is_in, LiesOnCycle, NoneCyclic};
ghost use Rattle.graph_meaning.specs.Reruns.{rerun, IsReached};

/// The order lists every cell exactly where no cell lies on a cycle, and it lists no cell of a cycle.
pub fn order_and_cycles()
    ensures free { (nb : List Cell) → ((c : ℕ) → c < length nb → is_in c (order nb) ≡ true)
        → NoneCyclic nb }
    ensures lists { (nb : List Cell) → NoneCyclic nb → (c : ℕ) → c < length nb
        → is_in c (order nb) ≡ true }
    ensures none { (nb : List Cell) (c : ℕ) → is_in c (order nb) ≡ true → LiesOnCycle nb c → ⊥ }
{}

/// In a notebook without a cycle the cells that run again are those to which a path leads from a cell that references one of the names;
/// each of them runs once.
pub fn what_runs_again()
    ensures reached { (nb : List Cell) (names : List Name) → NoneCyclic nb → (c : ℕ) → c < length nb
        → (IsTrue (is_in c (rerun nb names)) ↔ IsReached nb names c) }
    ensures once { (nb : List Cell) (names : List Name) → IsDistinct nat_eq (rerun nb names) }
{}
