// How far down a line goes, and where that leads in the packed buffer; taps and samples have been tested.
ghost use Rattle.std.specs.Prelude.{◌≡◌};
ghost use Rattle.packed.specs.Lengths.{packed_length, level_start, level_count, levels_scratch, restoring_length};
ghost use Rattle.bank.specs.Lengths.{Sound, Analysable};
ghost use Rattle.packed.specs.Works.{Split, Named, Down};

use bank::lengths::{dwt_length, idwt_length, padded_length};

// So many levels, the details that they have together, and the line that they leave.
#[derive(Drop)]
pub struct Depth {
    pub levels: usize,
    pub details: usize,
    pub line: usize,
}

// As many levels as are asked for, or as the line allows: each halves what it has above f - 1 samples.
#[tactic(auto, using(crate::specs::Falls::level_steps))]
pub fn down(n: usize, f: usize, levels: usize) -> Depth
    requires { Sound n f }
    ensures { Down n f levels result }
{
    let mut k = 0usize;
    let mut details = 0usize;
    let mut line = n;
    // no `for`: it may end early, and then k is how far it came
    while k < levels && f <= line {
        line = dwt_length(line, f);
        details += line;
        k += 1;
    }
    Depth {
        levels: k,
        details,
        line,
    }
}

// How long the packed buffer is.
#[tactic(auto, using(crate::specs::Tested::all_the_way, crate::specs::Falls::fallen))]
pub fn packed_need(n: usize, f: usize, levels: usize) -> usize
    requires { Split n f levels }
    ensures { result ≡ packed_length n f levels }
{
    let deepest = down(n, f, levels.max(1));
    deepest.details + deepest.line
}

// How much scratch analysis over levels needs.
pub fn scratch_need(n: usize, f: usize) -> usize
    requires { Sound n f }
    ensures { result ≡ levels_scratch n f }
{
    let m = dwt_length(n, f);
    padded_length(m, f) + 2 * m
}

// How long each work buffer of restoring has to be.
pub fn restoring_need(n: usize, f: usize) -> usize
    requires { Analysable n f }
    ensures { result ≡ restoring_length n f }
{
    idwt_length(dwt_length(n, f), f)
}

// Where a part of the packed buffer begins, and how many numbers it has.
#[derive(Drop)]
pub struct Part {
    pub start: usize,
    pub count: usize,
}

pub fn part_of(n: usize, f: usize, levels: usize, level: usize) -> Part
    requires { Named n f levels level }
    ensures { (result.start ≡ level_start n f levels level) × (result.count ≡ level_count n f levels level) }
{
    if level == 0 {
        let deepest = down(n, f, levels.max(1));
        return Part {
            start: deepest.details,
            count: deepest.line,
        };
    }
    let above = down(n, f, level - 1);
    Part {
        start: above.details,
        count: dwt_length(above.line, f),
    }
}
