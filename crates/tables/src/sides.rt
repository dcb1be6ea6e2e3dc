// The sides of a plane or a band.
ghost use Rattle.std.specs.Prelude.{◌≡◌};
ghost use Rattle.tables.specs.Tables.{too_large};

use numbers::{LARGEST, LONGEST};

// Past a limit: 1,048,576 columns or rows, or 16,777,216 numbers.
#[tactic(auto, unfolding(crate::specs::Tables::too_large))]
pub fn too_large(width: usize, height: usize) -> bool
    ensures { result ≡ too_large width height }
{
    LONGEST < width || LONGEST < height || LARGEST < width * height
}
