// What a sheet is answered by: its grid and its order, or a refusal.
ghost use Rattle.std.specs.Prelude.{◌≡◌, ◌&&◌, eqb, ltb, IfOk};
ghost use Rattle.rules.specs.Studies.{rule_number, number_of};
ghost use Rattle.whole_sheets.specs.Sheets.{printed_of, contents_of};
ghost use Rattle.sheet_answers.specs.Answers.{line_rule, rule_line, rule_refusal, refusal_in, answer_of};

use line_order::LineFault;
use rules::{Refusal, check_sweep};
use sheet_bytes::{Reading, ended};
use sheet_parts::counted_on;
use taken_lines::Sheet;
use whole_sheets::{SheetContents, SheetFault, SheetRefusal};

// The line of a rule, a field or a number for each: T's for 4, O's for 9, the first bad one of its letter for 6, 7 and 8, else none.
#[tactic(auto, unfolding(crate::specs::Answers::rule_line, rules::specs::Studies::rule_number))]
fn rule_line(s: Sheet, rule: Refusal) -> usize
    ensures { result ≡ rule_line s (rule_number rule) }
{
    match rule {
        Refusal::TimeOutside => 1,
        Refusal::StationOutside => s.bad_station,
        Refusal::CableOutside => s.bad_cable,
        Refusal::BreakerOutside => s.bad_breaker,
        Refusal::EventOutside => 2,
        Refusal::NoStation
        | Refusal::NoCable
        | Refusal::TooManyParts
        | Refusal::TooManySteps
        | Refusal::NotConverged => 0,
    }
}

// Ok where a sheet breaks none of the rules up to 9, else the first of them. Of 6, 7 and 8 a line can break one that the grid does not show.
#[tactic(auto, using(crate::proofs::Rules::early_rule, crate::proofs::Rules::late_rule))]
fn check_rules(s: Sheet) -> Result<(), Refusal>
    ensures { number_of result ≡ rule_refusal s }
{
    let shown = check_sweep(s.grid, s.order);
    if is_before_parts(shown) {
        return shown;
    }
    check_parts(s, shown)
}

// Whether a rule before 6 is broken.
#[tactic(auto, unfolding(rules::specs::Studies::number_of))]
fn is_before_parts(shown: Result<(), Refusal>) -> bool
    ensures { result ≡ (ltb 0 (number_of shown) && ltb (number_of shown) 6) }
{
    match shown {
        Ok(()) => false,
        Err(rule) => rule.number() < 6,
    }
}

// The same where none of 1 to 5 is broken: the rule that the grid shows, or an earlier one that a line shows.
#[tactic(auto, unfolding(crate::specs::Answers::line_rule, rules::specs::Studies::number_of, rules::specs::Studies::rule_number))]
fn check_parts(s: Sheet, shown: Result<(), Refusal>) -> Result<(), Refusal>
    ensures { number_of result ≡ line_rule s (number_of shown) }
{
    if is_rule(shown, Refusal::StationOutside) | (s.bad_station != 0) {
        return Err(Refusal::StationOutside);
    }
    if is_rule(shown, Refusal::CableOutside) | (s.bad_cable != 0) {
        return Err(Refusal::CableOutside);
    }
    if is_rule(shown, Refusal::BreakerOutside) | (s.bad_breaker != 0) {
        return Err(Refusal::BreakerOutside);
    }
    shown
}

// Whether this rule is the one that is broken, by the numbers of which the contract speaks: with `==` its proof did not close.
#[tactic(auto, unfolding(rules::specs::Studies::number_of))]
fn is_rule(shown: Result<(), Refusal>, rule: Refusal) -> bool
    ensures { result ≡ eqb (number_of shown) (rule_number rule) }
{
    match shown {
        Ok(()) => false,
        Err(broken) => broken.number() == rule.number(),
    }
}

// Ok where nothing is refused, else the refusal: a fault that is kept first, by its own number, then a line that is missing, then the rules.
#[tactic(auto, unfolding(crate::specs::Answers::refusal_in, rules::specs::Studies::number_of))]
fn check_sheet(s: Sheet) -> Result<(), SheetRefusal>
    ensures { printed_of result ≡ refusal_in s }
{
    let next = counted_on(s.lines) as u64;
    if let Some(fault) = s.fault {
        return Err(SheetRefusal { fault, line: next });
    }
    if s.lines < 2 {
        return Err(SheetRefusal {
            fault: SheetFault::Line(LineFault::WrongOrder),
            line: next,
        });
    }
    if let Err(rule) = check_rules(s) {
        return Err(SheetRefusal {
            fault: SheetFault::Rule(rule),
            line: rule_line(s, rule) as u64,
        });
    }
    Ok(())
}

// The answer once the input is at its end.
pub fn answer(r: Reading) -> Result<SheetContents, SheetRefusal>
    ensures refusal { printed_of result ≡ (answer_of r).refusal }
    ensures contents { IfOk result (λ c. c ≡ contents_of (answer_of r)) }
{
    let sheet = ended(r);
    check_sheet(sheet)?;
    Ok(SheetContents {
        grid: sheet.grid,
        order: sheet.order,
    })
}
