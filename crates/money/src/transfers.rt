// Payments over any money side, by its meaning alone.
ghost use Rattle.std.specs.Prelude.{◌≡◌};
ghost use Rattle.money.specs.Funds.{answer_to, funds_after};
ghost use Rattle.money.specs.Laws.{Lawful, Conserves};

use crate::Money;
use refusals::Refusal;

// What one participant is to pay another.
#[derive(Clone, Copy, Debug, PartialEq, Eq)]
pub struct Payment {
    pub payer: usize,
    pub payee: usize,
    pub amount: u64,
}

// Makes a payment: the answer, the funds after it, and the laws that it keeps.
pub fn pay_once<M: Money>(money: &mut M, order: Payment) -> Result<(), Refusal>
    ensures answer { result ≡ answer_to (M.Money.meaning money.old) order }
    ensures after { M.Money.meaning money.new ≡ funds_after (M.Money.meaning money.old) order }
    ensures lawful { Lawful order (M.Money.meaning money.old) (M.Money.meaning money.new) result }
{
    pay(money, order)
}

// Makes a payment: the answer, and the funds after it.
fn pay<M: Money>(money: &mut M, order: Payment) -> Result<(), Refusal>
    ensures answer { result ≡ answer_to (M.Money.meaning money.old) order }
    ensures after { M.Money.meaning money.new ≡ funds_after (M.Money.meaning money.old) order }
{
    money.pay(order)
}

// Makes two payments, the second whatever became of the first.
pub fn pay_both<M: Money>(
    money: &mut M,
    first: Payment,
    second: Payment,
) -> (Result<(), Refusal>, Result<(), Refusal>)
    ensures answer { let before = M.Money.meaning money.old in
        result ≡ (answer_to before first, answer_to (funds_after before first) second) }
    ensures after { M.Money.meaning money.new ≡ funds_after (funds_after (M.Money.meaning money.old) first) second }
    ensures lawful { Conserves (M.Money.meaning money.old) (M.Money.meaning money.new) }
{
    let one = pay_once(money, first);
    let two = pay_once(money, second);
    (one, two)
}
