// A label and its number, then a line for each float.
use laying::digits::bits;

pub fn word(label: &[u8]) {
    io::write_all(1, label);
    io::write_all(1, b"\n");
}

pub fn number(label: &[u8], n: usize) {
    io::write_all(1, label);
    io::write_all(1, b" ");
    io::print_decimal(1, n as u64);
    io::write_all(1, b"\n");
}

// A float by its bits.
fn float(x: f64) {
    let mut text = [0u8; 17];
    bits(x, &mut text);
    io::write_all(1, &text);
}

// The first n floats.
pub fn front(label: &[u8], s: &[f64], n: usize) {
    number(label, n);
    for x in s.iter().take(n) {
        float(*x);
    }
}

pub fn floats(label: &[u8], s: &[f64]) {
    front(label, s, s.len());
}
