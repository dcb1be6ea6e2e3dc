// Floats of either width: what code for both asks of them. `wide` and `narrow` have the two.
ghost use Rattle.std.specs.Prelude.{◌≡◌, ◌<◌, ◌≤◌, ◌++◌, List, ℕ, Float, length, get_or, set, take, drop, replicate};
ghost use Rattle.std.specs.Float.{Format};
ghost use Rattle.std.specs.Float.Ieee.{add, mul, neg};
ghost use Rattle.numbers.specs.Words.{plus_zero, at};
ghost use prog.Memory.{align, size};
ghost use denote.Param.{layout};

use std::ops::{Add, Mul, Neg};

// `float` and `floats` are what definitions see of a number and of a list: of an f32 or an f64 the number and the list themselves.
pub trait Real: Copy + Add<Self, Output = Self> + Mul<Self, Output = Self> + Neg<Output = Self> {
    ghost format: { Format };

    ghost float: { Self → Float };

    ghost floats: { List Self → List Float };

    fn zero() -> Self
        ensures { float result ≡ plus_zero };

    // The product is rounded, and then the sum.
    fn add_product(self, a: Self, b: Self) -> Self
        ensures { float result ≡ add format (float self) (mul format (float a) (float b)) };

    // Sums, products and signs by themselves, which are never refused.
    ghost adds: { (x y r : Self) → Self.add_gives x y r → float r ≡ add format (float x) (float y) };

    ghost may_add: { (x y : Self) → Self.can_add x y };

    ghost multiplies: { (x y r : Self) → Self.mul_gives x y r → float r ≡ mul format (float x) (float y) };

    ghost may_multiply: { (x y : Self) → Self.can_mul x y };

    ghost negates: { (x r : Self) → Self.neg_gives x r → float r ≡ neg (float x) };

    ghost may_negate: { (x : Self) → Self.can_neg x };

    // At most eight bytes, so that a few in a row fit into memory.
    ghost small: { size (layout Self.row) ≤ 8 };

    ghost aligned: { align (layout Self.row) ≤ 8 };

    ghost floats_length: { (l : List Self) → length (floats l) ≡ length l };

    ghost floats_at: { (l : List Self) (i : ℕ) (d : Self) → i < length l → at (floats l) i ≡ float (get_or l i d) };

    ghost floats_set: { (l : List Self) (i : ℕ) (x : Self) → floats (set l i x) ≡ set (floats l) i (float x) };

    ghost floats_take: { (n : ℕ) (l : List Self) → floats (take n l) ≡ take n (floats l) };

    ghost floats_drop: { (n : ℕ) (l : List Self) → floats (drop n l) ≡ drop n (floats l) };

    ghost floats_append: { (l m : List Self) → floats (l ++ m) ≡ floats l ++ floats m };

    ghost floats_replicate: { (n : ℕ) (x : Self) → floats (replicate n x) ≡ replicate n (float x) };
}
