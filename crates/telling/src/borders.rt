// Borders by number (RULES, Borders).
ghost use Rattle.std.specs.Prelude.{◌≡◌};
ghost use Rattle.telling.specs.Borders.{border_of, no_border};

use border::{BORDERS, Border};

pub fn no_border(number: usize) -> bool
    ensures { result ≡ no_border number }
{
    BORDERS.len() <= number
}

// no `TryFrom`: neither it nor `Border` is of this crate
pub fn border_of(number: usize) -> Border
    ensures { result ≡ border_of number }
{
    BORDERS.get(number).copied().unwrap_or(Border::Clamp)
}
