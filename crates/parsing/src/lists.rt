// The three lists behind the border's line.
ghost use Rattle.std.specs.Prelude.{◌≡◌, ◌≤◌, length};
ghost use Rattle.texts.specs.Texts.{longest_text};
ghost use Rattle.parsing.specs.Steps.{counts, ListsRead};

use crate::line::read_line;

// How many numbers each has.
#[derive(Clone, Copy)]
pub struct Lists {
    pub low: usize,
    pub high: usize,
    pub samples: usize,
}

fn three(low: usize, high: usize, samples: usize) -> Lists
    ensures { result ≡ counts low high samples }
{
    Lists { low, high, samples }
}

// Three lines and nothing after, or what there is of them; their numbers go one behind another, as far as `out` reaches.
pub fn read_lists(text: &[u8], from: usize, out: &mut [f64]) -> Result<Lists, Lists>
    requires { (from ≤ length text.now) × (length text.now ≤ longest_text) }
    ensures { ListsRead text.now from out.old result out.new }
{
    let low = match read_line(text, from, out) {
        Ok(line) => line,
        Err(line) => return Err(three(line.count, 0, 0)),
    };
    let a = low.count.min(out.len());
    let high = match read_line(text, low.next, &mut out[a..]) {
        Ok(line) => line,
        Err(line) => return Err(three(low.count, line.count, 0)),
    };
    let b = (low.count + high.count).min(out.len());
    let samples = match read_line(text, high.next, &mut out[b..]) {
        Ok(line) => line,
        Err(line) => return Err(three(low.count, high.count, line.count)),
    };
    let read = three(low.count, high.count, samples.count);
    if samples.next < text.len() {
        return Err(read);
    }
    Ok(read)
}
