// What holds of the rules, whatever is called: each function stands for the theorem that its contract names. Where no
// lemma is named beside it, the search does not close with one, and proofs/theorems has the answer.
ghost use Rattle.rulebook.specs.Laws.{ChecksRise, RefusalKeeps, StateRefuses, TurnsGranted, KnowsPlainly, JournalAgrees, JournalLawful, RulesHold, QuestionsKeep, StateTakes, PlacesLimited, BlockingsStay, SameOrdersEqual, MinistryPaid, IssuesTimely, DaysPass, FatesMove, CausesSuit};
ghost use Rattle.rulebook.specs.Runs.{RunsWhole};
ghost use Rattle.rulebook.specs.Sheet.{Sheet};
ghost use Rattle.rulebook.specs.Works.{ObeyingWorks, RunsWork};
ghost use Rattle.rulebook.specs.Cases.{MoreCases};

// A refused call changes nothing.
#[tactic(auto, using(crate::proofs::Answering::refusal_keeps))]
pub fn refusals_keep()
    ensures { RefusalKeeps }
{}

// A call that the state does not take is answered so, and changes nothing.
#[tactic(auto, using(crate::proofs::Answering::state_refuses))]
pub fn states_refuse()
    ensures { StateRefuses }
{}

// Each in its own state, opening and closing are never refused.
#[tactic(auto, using(crate::proofs::Answering::turns_granted))]
pub fn turns_granted()
    ensures { TurnsGranted }
{}

// From a start that can be made, every participant below their number is known.
#[tactic(auto, using(crate::proofs::Answering::knows_plainly))]
pub fn participants_known()
    ensures { KnowsPlainly }
{}

// Amounts kept in place and the journal agree over every list of calls.
#[tactic(auto, using(crate::proofs::Agreement::journal_agrees))]
pub fn journal_agrees()
    ensures { JournalAgrees }
{}

// The journal is lawful after every list of calls: nominals and balances are its sums, no leg stands twice, and every
// instruction and every return ends exactly once.
pub fn journal_lawful()
    ensures { JournalLawful }
{}

// Whatever a register that obeys the rules is called and in whatever order, its answers are the journal's.
pub fn calls_work()
    ensures one { ObeyingWorks }
    ensures all { RunsWork }
{}

// The rules' own laws after every list of calls: partners, legs, dates, outstanding nominal, and causes of refusals.
#[tactic(auto, using(crate::proofs::Whole::rules_hold))]
pub fn rules_hold()
    ensures { RulesHold }
{}

// The edge cases of the rules hold.
#[tactic(auto, using(crate::proofs::Sheet::sheet))]
pub fn edge_cases_hold()
    ensures { Sheet }
{}

// Each call's refusals and limits, and the course of instructions, case by case.
#[tactic(auto, using(crate::proofs::Cases::more_cases))]
pub fn more_cases_hold()
    ensures { MoreCases }
{}

// A whole day and a whole week are answered as written.
#[tactic(auto, using(crate::proofs::Runs::runs_whole))]
pub fn runs_whole()
    ensures { RunsWhole }
{}

// Every call's checks run in the order of the table.
#[tactic(auto, using(crate::proofs::Rising::checks_rise))]
pub fn checks_rise()
    ensures { ChecksRise }
{}

// A question changes nothing.
#[tactic(auto, using(crate::proofs::Limits::questions_keep))]
pub fn questions_keep()
    ensures { QuestionsKeep }
{}

// A call that the state takes is not refused for it.
#[tactic(auto, using(crate::proofs::Limits::states_take))]
pub fn states_take()
    ensures { StateTakes }
{}

// After every list of calls at most 256 instructions and 64 blockings stand, and numbers go up to 999,999.
pub fn places_limited()
    ensures { PlacesLimited }
{}

// A participant's blocked nominal falls only by a release of its own.
#[tactic(auto, using(crate::proofs::Limits::blockings_stay))]
pub fn blockings_stay()
    ensures { BlockingsStay }
{}

// Orders compared as the same are equal in every field.
pub fn same_orders_equal()
    ensures { SameOrdersEqual }
{}

// Placements are paid to the ministry, redemptions by it.
#[tactic(auto, using(crate::proofs::Ministry::ministry_paid))]
pub fn ministry_paid()
    ensures { MinistryPaid }
{}

// Placements and legs of an issue lie before its maturity, redemptions at it or later.
#[tactic(auto, using(crate::proofs::Timely::issues_timely))]
pub fn issues_timely()
    ensures { IssuesTimely }
{}

// Whatever call comes next, each accepted instruction keeps its serial and order, and its fate moves only as it may.
pub fn fates_move()
    ensures { FatesMove }
{}

// Every accepted instruction's cause is one that its fate can have.
#[tactic(auto, using(crate::proofs::Reasons::causes_suit))]
pub fn causes_suit()
    ensures { CausesSuit }
{}

// Business days pass one by one, and only opening changes the day.
#[tactic(auto, using(crate::proofs::Passing::days_pass))]
pub fn days_pass()
    ensures { DaysPass }
{}
