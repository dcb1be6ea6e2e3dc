// So many lines of n numbers become n lines of so many: for entries to share, sizes have been tested.
ghost use Rattle.std.specs.Prelude.{◌≡◌, ◌+◌, ◌*◌, length};
ghost use Rattle.numbers.specs.Words.{at, placed};
ghost use Rattle.tables.specs.Tables.{crossed};
ghost use Rattle.tables.specs.Works.{Gatherable, Crossable, Strip, CrossedTo};

// So many numbers, n apart from `from` on, go together from `to` on, behind all of them.
fn gather(s: &mut [f64], n: usize, from: usize, to: usize, count: usize)
    requires { Gatherable (length s.old) n from to count }
    ensures { s.new ≡ placed (λ k. at s.old (from + k * n)) to count s.old }
{
    let mut at = from;
    for k in 0..count {
        s[to + k] = s[at];
        at += n;
    }
}

// So many lines from `r` on, place after place from `left` to `right`.
fn strip(s: &mut [f64], lines: usize, n: usize, r: usize, count: usize, left: usize, right: usize)
    requires { Strip (length s.old) lines n r (r + count) left right }
    ensures { CrossedTo lines n r (r + count) left right s.old s.new }
{
    let first = r * n;
    let mut to = lines * n + (left * lines + r);
    for c in left..right {
        gather(s, n, first + c, to, count);
        to += lines;
    }
}

// All lines, from `left` to `right`. Eight lines at a time fill a cache line of each crossing.
fn tile(s: &mut [f64], lines: usize, n: usize, left: usize, right: usize)
    requires { Strip (length s.old) lines n 0 lines left right }
    ensures { CrossedTo lines n 0 lines left right s.old s.new }
{
    let mut r = 0usize;
    // r goes by eights, and the lines that are left begin where it stops
    while 8 <= lines - r {
        strip(s, lines, n, r, 8, left, right);
        r += 8;
    }
    strip(s, lines, n, r, lines - r, left, right);
}

// The list begins with so many lines of n numbers: their crossings come to stand behind them. Sixty-four places at a time, since each crossing lies in a page of its own.
pub fn cross(s: &mut [f64], lines: usize, n: usize)
    requires { Crossable (length s.old) lines n }
    ensures { s.new ≡ crossed lines n s.old }
{
    let mut c = 0usize;
    // c goes by sixty-fours, and the places that are left begin where it stops
    while 64 <= n - c {
        tile(s, lines, n, c, c + 64);
        c += 64;
    }
    tile(s, lines, n, c, n);
}
