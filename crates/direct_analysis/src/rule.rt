// The border rule, asked for one sample at a time. No pad is longer than its line less two samples, so that a remainder is at most one step away.
ghost use Rattle.std.specs.Prelude.{◌≡◌, ◌+◌, ◌≤◌, length};
ghost use Rattle.numbers.specs.Words.{plus_zero};
ghost use Rattle.border.specs.declared.rule.Place.TheVariants.{Before, At};
ghost use Rattle.border.specs.Rule.{source, value_of};
ghost use Rattle.analysis.specs.Lines.{padded_at};
ghost use Rattle.direct_analysis.specs.Works.{Asking};

use border::Border;

// The sample at place -(k + 1).
fn before(border: Border, line: &[f64], k: usize) -> f64
    requires { k + 3 ≤ length line.now }
    ensures { result ≡ value_of plus_zero line.now (source border (Before k) (length line.now)) }
{
    let n = line.len();
    match border {
        Border::Clamp => line[0],
        Border::Wrap => line[n - 1 - k],
        Border::Reflect => line[k],
        Border::Zeros => 0.0,
        Border::Reflect101 => line[k + 1],
        Border::Mirror => line[k],
        Border::Mirror101 => line[k + 1],
    }
}

// The sample at place n + k.
fn behind(border: Border, line: &[f64], k: usize) -> f64
    requires { k + 3 ≤ length line.now }
    ensures { result ≡ value_of plus_zero line.now (source border (At (length line.now + k)) (length line.now)) }
{
    let n = line.len();
    match border {
        Border::Clamp => line[n - 1],
        Border::Wrap => line[k],
        Border::Reflect => line[n - 1 - k],
        Border::Zeros => 0.0,
        Border::Reflect101 => line[n - 2 - k],
        Border::Mirror => line[n - 1 - k],
        Border::Mirror101 => line[n - 2 - k],
    }
}

// Sample q of the line as it would be padded for f taps: f - 2 places stand in front.
#[tactic(auto, using(crate::specs::Near::in_front, crate::specs::Near::in_line, crate::specs::Near::behind_line))]
pub fn sample(border: Border, line: &[f64], f: usize, q: usize) -> f64
    requires { Asking f (length line.now) q }
    ensures { result ≡ padded_at f border line.now q }
{
    let n = line.len();
    let left = f - 2;
    if q < left {
        return before(border, line, left - 1 - q);
    }
    let i = q - left;
    if i < n {
        return line[i];
    }
    behind(border, line, i - n)
}
