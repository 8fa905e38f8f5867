//! The line that tells what a run came to.

ghost use Rattle.std.specs.Prelude.{◌≡◌, ◌+◌, ◌*◌, ◌<◌, ◌≤◌, [], length, max};
ghost use Rattle.fb_rules.specs.Reasons.{reason_count};
ghost use Rattle.fb_run.specs.{JsonSums.summary_in, Sums.counts_part, Sums.in_form, Sums.reason_part, Sums.reasons_part, Sums.verdicts_part};

use crate::line::Line;
use crate::options::LineForm;
use crate::tally::Tally;
use fb_verify::REASONS;

/// The line of these numbers: `summary: messages=12 yes=10 no=2 V4=2 bytes=2400 tables=60 reads=310`, or the same as an
/// object of JSON.
pub fn summary(form: LineForm, tally: &Tally) -> Line
    requires { length tally.now.reasons ≡ reason_count }
    ensures { result ≡ summary_in form tally.now }
{
    let mut line = Line::new();
    put_counts(&mut line, form, tally);
    put_reasons(&mut line, form, &tally.reasons);
    put_verdicts(&mut line, form, tally);
    line
}

/// Puts how many messages there are, and how many had a yes and a no, in front.
#[tactic(auto, using(std::proofs::lemmas::Grind::common_steps))]
fn put_verdicts(line: &mut Line, form: LineForm, tally: &Tally)
    requires { length line.old ≤ 150 + 27 * reason_count }
    ensures { line.new ≡ verdicts_part form tally.now line.old }
{
    line.put_number(tally.no);
    line.put_text(in_form(form, " no=", ",\"no\":"));
    line.put_number(tally.yes);
    line.put_text(in_form(form, " yes=", ",\"yes\":"));
    line.put_wide(u128::from(tally.yes) + u128::from(tally.no));
    line.put_text(in_form(form, "summary: messages=", "{\"messages\":"));
}

/// Puts what was counted beside the verdicts.
fn put_counts(line: &mut Line, form: LineForm, tally: &Tally)
    requires { line.old ≡ [] }
    ensures text { line.new ≡ counts_part form tally.now }
    ensures short { length line.new ≤ 150 }
{
    line.put_text(in_form(form, "\n", "}\n"));
    line.put_wide(tally.reads);
    line.put_text(in_form(form, " reads=", ",\"reads\":"));
    line.put_wide(tally.tables);
    line.put_text(in_form(form, " tables=", ",\"tables\":"));
    line.put_wide(tally.bytes);
    line.put_text(in_form(form, " bytes=", ",\"bytes\":"));
}

/// Puts how often each reason was given, in front.
fn put_reasons(line: &mut Line, form: LineForm, counts: &[u64; REASONS])
    requires room { length line.old ≤ 150 }
    requires places { length counts.now ≡ reason_count }
    ensures text { line.new ≡ reasons_part form counts.now line.old }
    ensures short { length line.new ≤ 150 + 27 * reason_count }
{
    let mut place = counts.len();
    while place > 0 {
        place -= 1;
        put_reason(line, form, place as u64 + 1, counts[place]);
    }
}

/// Puts how often the reason with this number was given, in front, where it was.
#[tactic(auto, using(crate::proofs::SumsLemmas::in_front))]
fn put_reason(line: &mut Line, form: LineForm, number: u64, count: u64)
    requires room { length line.old ≤ 150 + 27 * reason_count }
    requires number { number < 100 }
    ensures text { line.new ≡ reason_part form number count line.old }
    ensures short { length line.new ≤ length line.old + 27 }
{
    if count == 0 {
        return;
    }
    line.put_number(count);
    line.put_text(in_form(form, "=", "\":"));
    line.put_number(number);
    line.put_text(in_form(form, " V", ",\"V"));
}

/// One of two texts, by the form of the line.
fn in_form(form: LineForm, plain: &'static str, json: &'static str) -> &'static str
    ensures text { result.now ≡ in_form form plain.now json.now }
    ensures short { length result.now ≤ max (length plain.now) (length json.now) }
{
    match form {
        LineForm::Plain => plain,
        LineForm::Json => json,
    }
}
