//! Laws of the definitions. The functions do nothing: their contracts are the laws.

ghost use Rattle.std.specs.Prelude.{◌≡◌};
ghost use Rattle.std.specs.Cmp.{IsTotalOrder};
ghost use Rattle.std.specs.declared.cmp.Ordering.TheVariants.{Equal};
ghost use Rattle.must_find.specs.declared.finding.Finding.{Finding};
ghost use Rattle.must_find.specs.Order.{by_all};

/// The order of findings is total, and no two different findings stand at one place in it.
pub fn order_law()
    ensures total { IsTotalOrder by_all }
    ensures exact { (f g : Finding) → by_all f g ≡ Equal → f ≡ g }
{}
