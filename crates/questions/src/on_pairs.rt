// Entries by a bank of two pairs: one list has the four of taps one after another, and their lengths are told.
use crate::floats::{Call, Lent};
use crate::on_banks::restored_line;
use crate::on_lengths::back_told;
use bank::Bank;
use bank::making::two_pairs;
use exact::there_and_back;
use plane_synthesis::synthesise_plane;
use plane_telling::plane_told;
use telling::borders::border_of;

// The first so many of a list, and what is behind them; all of it, and nothing, where it has no more.
fn split<F>(list: &[F], count: usize) -> (&[F], &[F]) {
    list.split_at(list.len().min(count))
}

// Four lists of these lengths.
pub fn four<F>(taps: &[F], lengths: [usize; 4]) -> (&[F], &[F], &[F], &[F]) {
    let (low, taps) = split(taps, lengths[0]);
    let (high, taps) = split(taps, lengths[1]);
    let (lowback, taps) = split(taps, lengths[2]);
    let (highback, _) = split(taps, lengths[3]);
    (low, high, lowback, highback)
}

// The bank of four lists of these lengths; the way back reads no border.
pub fn paired(taps: &[f64], lengths: [usize; 4], border: usize) -> Bank {
    let (low, high, lowback, highback) = four(taps, lengths);
    let made = two_pairs(low, high, lowback, highback, border_of(border));
    made.bank
}

fn back_by_pairs(call: &Call<'_, f64>, lent: &mut Lent<'_, f64>) -> u64 {
    let [border, low, high, lowback, highback] = call.line.scalars::<5>();
    let bank = paired(call.list(2), [low, high, lowback, highback], border);
    let line = call.list(4);
    back_told(
        there_and_back(bank, line, lent.p, lent.q, lent.r, lent.s),
        lent.told,
    )
}

fn restored_by_pairs(call: &Call<'_, f64>, lent: &mut Lent<'_, f64>) -> Option<u64> {
    let [_, _, low, high, lowback, highback] = call.line.scalars::<6>();
    let bank = paired(call.list(2), [low, high, lowback, highback], 0);
    restored_line(call, bank, call.list(4), lent)
}

fn plane_by_pairs(call: &Call<'_, f64>, lent: &mut Lent<'_, f64>) -> u64 {
    let [width, height, low, high, lowback, highback] = call.line.scalars::<6>();
    let bank = paired(call.list(2), [low, high, lowback, highback], 0);
    let ll = call.list(4);
    let lh = call.list(6);
    let hl = call.list(8);
    let hh = call.list(10);
    plane_told(
        synthesise_plane(bank, ll, lh, hl, hh, width, height, lent.p, lent.q),
        lent.told,
    )
}

pub fn ask(call: &Call<'_, f64>, lent: &mut Lent<'_, f64>) -> Option<u64> {
    Some(match call.line.scalar(0) {
        39 => back_by_pairs(call, lent),
        40 => restored_by_pairs(call, lent)?,
        41 => plane_by_pairs(call, lent),
        _ => return None,
    })
}
