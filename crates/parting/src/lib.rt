// Where the bands of one line part from other bands of it.
#![tactic(auto)]

pub mod finding;

// Same, or the first place where the approximations part, or where those are the same that of the details.
#[derive(Clone, Copy)]
pub enum Parting {
    Same,
    Approx(usize),
    Detail(usize),
}
