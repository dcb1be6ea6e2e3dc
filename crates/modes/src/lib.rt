// The border's name, in the first line.
#![tactic(auto)]

ghost use Rattle.std.specs.Prelude.{◌≡◌};
ghost use Rattle.modes.specs.Names.{front, mode_text, mode_of};

use border::{BORDERS, Border};

// A border that was read, and where its line ends.
#[derive(Clone, Copy)]
pub struct Mode {
    pub border: Border,
    pub next: usize,
}

// How long the name is, if the text begins with it.
fn front(text: &[u8], name: &[u8]) -> Option<usize>
    ensures { result ≡ front name.now text.now }
{
    text.starts_with(name).then_some(name.len())
}

// The same of the border's line, each by its name.
fn line_of(border: Border, text: &[u8]) -> Option<usize>
    ensures { result ≡ front (mode_text border) text.now }
{
    match border {
        Border::Clamp => front(text, b"Clamp\n"),
        Border::Wrap => front(text, b"Wrap\n"),
        Border::Reflect => front(text, b"Reflect\n"),
        Border::Zeros => front(text, b"Zeros\n"),
        Border::Reflect101 => front(text, b"Reflect101\n"),
        Border::Mirror => front(text, b"Mirror\n"),
        Border::Mirror101 => front(text, b"Mirror101\n"),
    }
}

// The border whose line the text begins with.
pub fn read_mode(text: &[u8]) -> Option<Mode>
    ensures { result ≡ mode_of text.now }
{
    for border in BORDERS {
        if let Some(next) = line_of(border, text) {
            return Some(Mode { border, next });
        }
    }
    None
}
