// Borders: what stands left and right of a line, and lines with it written out.
#![tactic(auto)]

pub mod pad;
pub mod rule;

#[derive(Clone, Copy)]
pub enum Border {
    Clamp,
    Wrap,
    Reflect,
    Zeros,
    Reflect101,
    Mirror,
    Mirror101,
}

// In the order of their numbers (RULES, Borders).
pub const BORDERS: [Border; 7] = [
    Border::Clamp,
    Border::Wrap,
    Border::Reflect,
    Border::Zeros,
    Border::Reflect101,
    Border::Mirror,
    Border::Mirror101,
];
