//! What `==` and the order say of names: they tell all names apart.
ghost use Rattle.std.specs.Prelude.{◌≡◌, ◌↔◌, IsTrue};
ghost use Rattle.std.specs.declared.cmp.Ordering.TheVariants.{Equal};
ghost use Rattle.lvish_names.specs.Names.{Name, Handler, same_name, same_handler};
ghost use Rattle.lvish_names.specs.NameOrder.{name_cmp, handler_cmp};

use lvish_lattice::Plain;

/// `==` of tasks' names holds of one name alone, and so does the answer `Equal` of their order.
pub fn task_names_identical<E: Plain>()
    ensures eq { (t u : Name E) → IsTrue (same_name E.eq t u) ↔ (t ≡ u) }
    ensures cmp { (t u : Name E) → (name_cmp E.cmp t u ≡ Equal) ↔ (t ≡ u) }
{}

/// `==` of handlers' names holds of one name alone, and so does the answer `Equal` of their order.
pub fn handler_names_identical<E: Plain>()
    ensures eq { (h k : Handler E) → IsTrue (same_handler E.eq h k) ↔ (h ≡ k) }
    ensures cmp { (h k : Handler E) → (handler_cmp E.cmp h k ≡ Equal) ↔ (h ≡ k) }
{}
