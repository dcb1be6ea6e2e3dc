// The packed buffer's parts, handed out and read; level 0 names the last approximations.
#![tactic(auto)]

ghost use Rattle.std.specs.Prelude.{◌≡◌};
ghost use Rattle.level_parts.specs.Parts.{handing_of, HandedOut, Read};

use packed::depth::part_of;
use packed::{LevelsError, PartError, packed_answer};

// A float, or why there is none: an enum (RULES, Forms).
#[derive(Clone, Copy)]
pub enum Reading {
    Value(f64),
    NoSuchLevel(usize),
    NoSuchPlace(usize),
    Refused(LevelsError),
}

// Whether a level's part is handed out.
#[tactic(auto, unfolding(crate::specs::Parts::handing_of))]
pub fn handing_answer(
    n: usize,
    f: usize,
    levels: usize,
    packed: usize,
    level: usize,
) -> Result<(), PartError>
    ensures { result ≡ handing_of n f levels packed level }
{
    packed_answer(n, f, levels, packed)?;
    if levels.max(1) < level {
        return Err(PartError::NoSuchLevel(level));
    }
    Ok(())
}

// A level's details, as that part of the packed buffer itself; the empty part where `handing_answer` refuses.
#[tactic(auto, using(crate::proofs::Within::handed_within))]
pub fn level_details<'a>(
    packed: &'a [f64],
    n: usize,
    f: usize,
    levels: usize,
    level: usize,
) -> &'a [f64]
    ensures { HandedOut n f levels level packed.entry result }
{
    let Ok(()) = handing_answer(n, f, levels, packed.len(), level) else {
        return &packed[0..0];
    };
    let part = part_of(n, f, levels, level);
    let start = part.start;
    let end = start + part.count;
    &packed[start..end]
}

// One place of a level.
#[tactic(auto, using(crate::proofs::Within::held_within))]
pub fn read_place(
    packed: &[f64],
    n: usize,
    f: usize,
    levels: usize,
    level: usize,
    place: usize,
) -> Reading
    ensures { Read n f levels level place packed.now result }
{
    if let Err(e) = packed_answer(n, f, levels, packed.len()) {
        return Reading::Refused(e);
    }
    if levels.max(1) < level {
        return Reading::NoSuchLevel(level);
    }
    let part = part_of(n, f, levels, level);
    if part.count <= place {
        return Reading::NoSuchPlace(place);
    }
    Reading::Value(packed[part.start + place])
}
