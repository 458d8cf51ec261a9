//! Values under `==`, `<` and std's sorts and maps.

ghost use Rattle.std.specs.Prelude.{refl};
ghost use Rattle.std.specs.Cmp.{partial_equiv_from_equiv, eq_by_cmp_equiv, partial_order_from_agreeing_total};
ghost use Rattle.std.specs.Ordering.{on, eq_by_cmp, as_partial_cmp};
ghost use Rattle.std.proofs.lemmas.Cmp.{on_total};
ghost use Rattle.value_core.specs.Order.{datum_cmp, data_cmp};
ghost use Rattle.value_core.specs.OrderLaws.{datum_total, data_total};
ghost use Rattle.value_core.specs.View.{datum_of};

use crate::value::{Parts, Value};
use std::cmp::Ordering;

impl PartialEq for Value {
    ghost eq = { eq_by_cmp (on datum_of datum_cmp) };

    ghost laws = { partial_equiv_from_equiv (eq_by_cmp_equiv (on_total datum_of datum_total)) };

    fn eq(&self, other: &Value) -> bool {
        self.compare(other).is_eq()
    }
}

impl Eq for Value {
    ghost laws = { eq_by_cmp_equiv (on_total datum_of datum_total) };
}

impl PartialOrd for Value {
    ghost partial_cmp = { as_partial_cmp (on datum_of datum_cmp) };

    ghost laws = { partial_order_from_agreeing_total (on datum_of datum_cmp) (on_total datum_of datum_total) (λ _ _. refl) (λ _ _. refl) };

    fn partial_cmp(&self, other: &Value) -> Option<Ordering> {
        Some(self.compare(other))
    }
}

impl Ord for Value {
    ghost cmp = { on datum_of datum_cmp };

    ghost total = { on_total datum_of datum_total };

    ghost matches_partial_cmp = { λ _ _. refl };

    ghost matches_eq = { λ _ _. refl };

    fn cmp(&self, other: &Value) -> Ordering {
        self.compare(other)
    }
}

impl PartialEq for Parts {
    ghost eq = { eq_by_cmp data_cmp };

    ghost laws = { partial_equiv_from_equiv (eq_by_cmp_equiv data_total) };

    fn eq(&self, other: &Parts) -> bool {
        self.compare(other).is_eq()
    }
}

impl Eq for Parts {
    ghost laws = { eq_by_cmp_equiv data_total };
}

impl PartialOrd for Parts {
    ghost partial_cmp = { as_partial_cmp data_cmp };

    ghost laws = { partial_order_from_agreeing_total data_cmp data_total (λ _ _. refl) (λ _ _. refl) };

    fn partial_cmp(&self, other: &Parts) -> Option<Ordering> {
        Some(self.compare(other))
    }
}

impl Ord for Parts {
    ghost cmp = { data_cmp };

    ghost total = { data_total };

    ghost matches_partial_cmp = { λ _ _. refl };

    ghost matches_eq = { λ _ _. refl };

    fn cmp(&self, other: &Parts) -> Ordering {
        self.compare(other)
    }
}
