// 64-bit floats.
ghost use Rattle.std.specs.Prelude.{refl};
ghost use Rattle.std.proofs.Common.{arith};
ghost use Rattle.std.specs.Float.{binary64, nan};
ghost use Rattle.numbers.specs.Words.{plus_zero};
ghost use Rattle.numbers.specs.Places.{get_or_any};

use crate::real::Real;

impl Real for f64 {
    ghost format = { binary64 };

    ghost float = { λ x. x };

    ghost floats = { λ l. l };

    fn zero() -> f64 {
        0.0
    }

    fn add_product(self, a: f64, b: f64) -> f64 {
        self + a * b
    }

    ghost adds = { λ x y r e. e };

    ghost may_add = { λ x y. tt };

    ghost multiplies = { λ x y r e. e };

    ghost may_multiply = { λ x y. tt };

    ghost negates = { λ x r e. e };

    ghost may_negate = { λ x. tt };

    ghost small = { omega arith };

    ghost aligned = { omega arith };

    ghost floats_length = { λ l. refl };

    ghost floats_at = { λ l i d h. get_or_any l i nan d h };

    ghost floats_set = { λ l i x. refl };

    ghost floats_take = { λ n l. refl };

    ghost floats_drop = { λ n l. refl };

    ghost floats_append = { λ l m. refl };

    ghost floats_replicate = { λ n x. refl };
}
