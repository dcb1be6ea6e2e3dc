// A number told with the words that it carries; words that carry nothing stay.
ghost use Rattle.std.specs.Prelude.{[], ◌∷◌};
ghost use Rattle.telling.specs.Told.{Told};

pub fn one(number: u64, a: usize, carried: &mut [usize; 2]) -> u64
    ensures { Told number (a ∷ []) carried.old result carried.new }
{
    carried[0] = a;
    number
}

pub fn two(number: u64, a: usize, b: usize, carried: &mut [usize; 2]) -> u64
    ensures { Told number (a ∷ b ∷ []) carried.old result carried.new }
{
    carried[0] = a;
    carried[1] = b;
    number
}
