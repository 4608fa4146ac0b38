// Answer lines.
ghost use Rattle.std.specs.Prelude.{◌≡◌, ◌+◌, ◌≤◌, length};
ghost use Rattle.rulebook.specs.Answers.{fate_letter, cause_number, behind_fate, answer_values, reply_letter, reply_values};
ghost use Rattle.dayfile.specs.Replies.{behind, padded, answer_line};

use crate::slip::Slip;
use refusals::Refusal;
use rulebook::{Answer, Fate, Fault};

// Writes the answer to the line with that number, byte 10 and zeros; the length with byte 10 is answered. The caller's
// 120 bytes take it: no answer line needs heap.
#[tactic(auto, using(crate::proofs::Slips::short))]
pub fn write_answer(number: u64, answer: Result<Answer, Fault>, out: &mut [u8; 120]) -> usize
    ensures bytes { out.new ≡ padded (answer_line number answer) }
    ensures size { result ≡ length (answer_line number answer) }
    ensures room { result ≤ 120 }
{
    let mut slip = Slip::new();
    slip.put_number(number);
    slip.put(b',');
    slip.put(letter_of(answer));
    slip.put_answer(answer);
    slip.put(b'\n');
    slip.hand_out(out)
}

// A for an acceptance, N for a refusal. It is of this format alone.
fn letter_of(answer: Result<Answer, Fault>) -> u8
    ensures { result ≡ reply_letter answer }
{
    match answer {
        Ok(_) => b'A',
        Err(_) => b'N',
    }
}

impl Slip {
    // Writes what stands behind the letter: the values of an acceptance, or the refusal's number and the field.
    fn put_answer(&mut self, answer: Result<Answer, Fault>)
        requires { length self.old ≤ 30 }
        ensures text { self.new ≡ behind self.old (reply_values answer) }
        ensures size { length self.new ≤ length self.old + 84 }
    {
        match answer {
            Ok(answer) => self.put_values(answer),
            Err(fault) => {
                self.put_value(u64::from(fault.refusal.number()));
                // there is no `From` between a size and a `u64`
                self.put_value(fault.field.map_or(0, |number| number as u64));
            }
        }
    }

    // Writes the values of an acceptance, each behind a comma.
    fn put_values(&mut self, answer: Answer)
        requires { length self.old ≤ 30 }
        ensures text { self.new ≡ behind self.old (answer_values answer) }
        ensures size { length self.new ≤ length self.old + 84 }
    {
        match answer {
            Answer::Opened { today } => self.put_value(today.map_or(
                0,
                |day| u64::from(day.number),
            )),
            // nor here
            Answer::Registered { issue } => self.put_value(issue as u64),
            Answer::Placed { outstanding: value }
            | Answer::Instructed { serial: value }
            | Answer::Cancelled { serial: value }
            | Answer::Blocked { blocking: value }
            | Answer::Released { blocking: value }
            | Answer::RoundMade { legs: value }
            | Answer::Redeemed { amount: value } => self.put_value(value),
            Answer::Closed(ending) => {
                self.put_value(ending.legs);
                self.put_value(ending.refused);
            }
            Answer::Status { fate, cause } => {
                self.put(b',');
                self.put(fate_letter(fate));
                self.put_value(behind_fate(fate, cause));
            }
            Answer::Holds(held) => {
                self.put_value(held.own);
                self.put_value(held.customer);
                self.put_value(held.blocked_own);
                self.put_value(held.blocked_customer);
            }
        }
    }
}

// The letter of a fate, of this format alone.
fn fate_letter(fate: Fate) -> u8
    ensures { result ≡ fate_letter fate }
{
    match fate {
        Fate::Kept => b'k',
        Fate::Unmatched => b'u',
        Fate::Matched => b'm',
        Fate::Joined(_) => b'j',
        Fate::Settled => b's',
        Fate::RepoOut => b'o',
        Fate::RepoBack => b'b',
        Fate::Refused => b'r',
        Fate::ReturnRefused => b'l',
        Fate::Cancelled => b'x',
    }
}

// What stands behind a fate: a joined instruction's partner, else the cause, 0 where there is none.
fn behind_fate(fate: Fate, cause: Option<Refusal>) -> u64
    ensures { result ≡ behind_fate fate (cause_number cause) }
{
    match fate {
        Fate::Joined(partner) => partner,
        _ => cause.map_or(0, |refusal| u64::from(refusal.number())),
    }
}
