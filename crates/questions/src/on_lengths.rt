// The entries' tests on lengths alone: they take lengths that no program here could lend.
ghost use Rattle.exact.specs.Backs as Backs;
ghost use Rattle.level_parts.specs.Parts as Parts;
ghost use Rattle.telling.specs.Told.{Told};

use crate::parts::Line;
use analysis::analysis_answer;
use comparing::comparing_answer;
use convolution::convolution_answer;
use convolution::pads::split;
use direct_analysis::direct_answer;
use exact::{BackError, back_answer};
use level_parts::handing_answer;
use levels::levels_answer;
use packed::PartError;
use plane_analysis::plane_analysis_answer;
use plane_synthesis::plane_synthesis_answer;
use plane_telling::{comparison_told, plane_told};
use restoring::restoring_answer;
use synthesis::synthesis_answer;
use telling::borders::border_of;

pub fn back_told(answer: Result<(), BackError>, carried: &mut [usize; 2]) -> u64
    ensures { Told (Backs.number_of answer) (Backs.values_of answer) carried.old result carried.new }
{
    match answer {
        Ok(()) => 0,
        Err(BackError::Analysis(refusal)) => line_telling::told::analysis(Err(refusal), carried),
        Err(BackError::Synthesis(refusal)) => line_telling::told::synthesis(Err(refusal), carried),
    }
}

pub fn handing_told(answer: Result<(), PartError>, carried: &mut [usize; 2]) -> u64
    ensures { Told (Parts.handing_number answer) (Parts.handing_values answer) carried.old result carried.new }
{
    match answer {
        Ok(()) => 0,
        Err(PartError::NoSuchLevel(level)) => telling::told::one(22, level, carried),
        Err(PartError::Refused(refusal)) => level_telling::told::levels(Err(refusal), carried),
    }
}

pub fn ask(line: &Line, carried: &mut [usize; 2]) -> Option<u64> {
    let [a, b, c, d, e, f, g, h, i] = line.scalars::<9>();
    Some(match line.scalar(0) {
        26 => line_telling::told::analysis(analysis_answer(a, b, c, d, e), carried),
        27 => line_telling::told::synthesis(synthesis_answer(a, b, c, d), carried),
        28 => line_telling::told::convolution(
            convolution_answer(border_of(a), b, c, d, split(line.signed(5)), f),
            carried,
        ),
        29 => level_telling::told::levels(levels_answer(a, b, c, d, e), carried),
        30 => level_telling::told::levels(restoring_answer(a, b, c, d, e, f), carried),
        31 => handing_told(handing_answer(a, b, c, d, e), carried),
        32 => plane_told(plane_analysis_answer(a, b, c, d, e, f, g, h, i), carried),
        33 => plane_told(plane_synthesis_answer(a, b, c, d, e, f, g, h, i), carried),
        34 => match comparing_answer(a, b, c, d) {
            Ok(()) => 0,
            Err(refusal) => comparison_told(Err(refusal), carried),
        },
        35 => back_told(back_answer(a, b, c, d, e, f), carried),
        51 => line_telling::told::analysis(direct_answer(a, b, c, d), carried),
        _ => return None,
    })
}
