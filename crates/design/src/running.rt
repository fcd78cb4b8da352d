//! Lists of calls on a design.

ghost use Rattle.std.specs.Prelude.{◌≡◌, [], length, drop};
ghost use Rattle.charts.specs.Walks.{chart_function};
ghost use Rattle.mapping.specs.Histories.{events};
ghost use Rattle.mapping.specs.Judged.{Judged};
ghost use Rattle.mapping.specs.Kept.{Reaches};
ghost use Rattle.design.specs.Designs.{answer_of, seen};
ghost use Rattle.design.specs.Runs.{tolds, setting, Does, Goes, Ran, Promise};

use super::design::Design;
use super::splitting::SplitCounts;
use charts::Chart;
use families::family::CellFamily;
use mapping::answer::Answer;
use mapping::call::Call;
use mapping::refusal::Refusal;
use rules::rule::CodeRule;

impl<C: Chart, R: CodeRule, F: CellFamily> Design<C, R, F> {
    /// What a call answers that is made, or why it is refused.
    fn try_call(
        &mut self,
        call: Call,
        strip: &mut [C::Place],
        out: &mut [u8],
    ) -> Result<Answer, Refusal>
        ensures { Does C.Chart R.CodeRule F.CellFamily (setting C.Chart R.CodeRule F.CellFamily self.old strip.old out.old) call (answer_of result) (setting C.Chart R.CodeRule F.CellFamily self.new strip.new out.new) }
    {
        // Kept: a list of calls is data, so that which of them is made is a value; closures would need a list of their own.
        match call {
            Call::Swap { place } => {
                self.swap(place)?;
                Ok(Answer::Done)
            }
            Call::Split { bound, codes, room } => {
                let lent = room.min(strip.len());
                let SplitCounts { classes, cells } = self.split(bound, codes, &mut strip[..lent])?;
                Ok(Answer::Divided { classes, cells })
            }
            Call::Close => {
                self.close()?;
                Ok(Answer::Done)
            }
            Call::Pin { inputs } => Ok(Answer::Shows {
                bit: self.pin(inputs),
            }),
            Call::Write { room } => {
                let lent = room.min(out.len());
                let bytes = self.write(&mut out[..lent])?;
                Ok(Answer::Wrote { bytes })
            }
        }
    }

    /// Makes a call, which is lent as much of the strip or of the buffer as it names, or all of it if that is less.
    pub fn call(&mut self, call: Call, strip: &mut [C::Place], out: &mut [u8]) -> Answer
        ensures { Does C.Chart R.CodeRule F.CellFamily (setting C.Chart R.CodeRule F.CellFamily self.old strip.old out.old) call result (setting C.Chart R.CodeRule F.CellFamily self.new strip.new out.new) }
    {
        self.try_call(call, strip, out).unwrap_or_else(Answer::from)
    }
}

// Kept: each call takes the strip and the buffer apart, so that a struct of the two would be packed and unpacked here.
/// Makes calls on a design, as many as there is room for answers, and stores the answer of each.
fn run<C: Chart, R: CodeRule, F: CellFamily>(
    design: &mut Design<C, R, F>,
    calls: &[Call],
    answers: &mut [Answer],
    strip: &mut [C::Place],
    out: &mut [u8],
)
    ensures goes { Goes C.Chart R.CodeRule F.CellFamily (setting C.Chart R.CodeRule F.CellFamily design.old strip.old out.old) (tolds (length strip.old) (length out.old) calls.now answers.new) (setting C.Chart R.CodeRule F.CellFamily design.new strip.new out.new) }
    ensures rest { drop (length calls.now) answers.new ≡ drop (length calls.now) answers.old }
{
    // Kept: tried a zip of iter_mut; the proof did not close, as nothing is known of what it wrote.
    for (i, answer) in answers.iter_mut().enumerate() {
        let Some(call) = calls.get(i) else { break };
        *answer = design.call(*call, strip, out);
    }
}

// Kept: its proof of `kept` is written out, so that an edit of it would be refused in that proof first; `perform`, which calls it,
// proves with no file.
/// Opens a design with a chart and makes calls on it, as many as there is room for answers.
#[tactic(auto, using(crate::proofs::Performed::ran, crate::proofs::Performed::judged_run, crate::proofs::Performed::reached_run))]
fn performed<C: Chart, R: CodeRule, F: CellFamily>(
    chart: C,
    rule: R,
    family: F,
    calls: &[Call],
    answers: &mut [Answer],
    strip: &mut [C::Place],
    out: &mut [u8],
) -> Design<C, R, F>
    ensures run { Ran C.Chart R.CodeRule F.CellFamily chart rule family strip.old out.old (tolds (length strip.old) (length out.old) calls.now answers.new) (setting C.Chart R.CodeRule F.CellFamily result strip.new out.new) }
    ensures judged { Judged (R.CodeRule.code rule) (F.CellFamily.pins family) (F.CellFamily.size family) (C.Chart.fits chart) (C.Chart.arity chart) (chart_function C.Chart chart) [] (tolds (length strip.old) (length out.old) calls.now answers.new) }
    ensures kept { Promise C.Chart R.CodeRule F.CellFamily (C.Chart.arity chart) (chart_function C.Chart chart) (events (tolds (length strip.old) (length out.old) calls.now answers.new)) result }
    ensures reached { Reaches (R.CodeRule.code rule) (F.CellFamily.pins family) (F.CellFamily.size family) (C.Chart.fits chart) (C.Chart.arity chart) (chart_function C.Chart chart) (tolds (length strip.old) (length out.old) calls.now answers.new) (seen C.Chart R.CodeRule F.CellFamily result) }
    ensures rest { drop (length calls.now) answers.new ≡ drop (length calls.now) answers.old }
{
    let mut design = Design::open(chart, rule, family);
    run(&mut design, calls, answers, strip, out);
    design
}

/// Opens a design with a chart and makes calls on it, as many as there is room for answers. A call is lent as much of the
/// strip or of the buffer as it names, or all of it if that is less.
///
/// Whatever the chart, the rule, the family and the calls: each call does what its own contract says, from what those
/// before it left (`run`); each answer is the one that the opened function, the rule and the calls so far demand
/// (`judged`); and the design that is left keeps its promises (`kept`): its pin is the opened function, what it writes is
/// taken back as a network with that function at its pin, and a split is refused for its classes exactly where the
/// reference function has no decomposition.
pub fn perform<C: Chart, R: CodeRule, F: CellFamily>(
    chart: C,
    rule: R,
    family: F,
    calls: &[Call],
    answers: &mut [Answer],
    strip: &mut [C::Place],
    out: &mut [u8],
) -> Design<C, R, F>
    ensures run { Ran C.Chart R.CodeRule F.CellFamily chart rule family strip.old out.old (tolds (length strip.old) (length out.old) calls.now answers.new) (setting C.Chart R.CodeRule F.CellFamily result strip.new out.new) }
    ensures judged { Judged (R.CodeRule.code rule) (F.CellFamily.pins family) (F.CellFamily.size family) (C.Chart.fits chart) (C.Chart.arity chart) (chart_function C.Chart chart) [] (tolds (length strip.old) (length out.old) calls.now answers.new) }
    ensures kept { Promise C.Chart R.CodeRule F.CellFamily (C.Chart.arity chart) (chart_function C.Chart chart) (events (tolds (length strip.old) (length out.old) calls.now answers.new)) result }
    ensures reached { Reaches (R.CodeRule.code rule) (F.CellFamily.pins family) (F.CellFamily.size family) (C.Chart.fits chart) (C.Chart.arity chart) (chart_function C.Chart chart) (tolds (length strip.old) (length out.old) calls.now answers.new) (seen C.Chart R.CodeRule F.CellFamily result) }
    ensures rest { drop (length calls.now) answers.new ≡ drop (length calls.now) answers.old }
{
    performed(chart, rule, family, calls, answers, strip, out)
}
