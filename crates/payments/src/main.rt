// Payments of every ending: on a ledger, on an agent table over it, and on a table over that.
#![tactic(auto)]

ghost use Rattle.std.specs.Prelude.{◌≡◌};
ghost use Rattle.payments.specs.Sums.{whole};

use money::{AgentTable, Ledger, MOST_AMOUNT, MOST_AT_FIRST, Money, Payment, pay_both, pay_once};
use refusals::Refusal;
use std::{fmt, io};

// What is asked, in one line.
fn order(payer: usize, payee: usize, amount: u64) -> Payment
    ensures { result ≡ record { payer = payer; payee = payee; amount = amount } }
{
    Payment {
        payer,
        payee,
        amount,
    }
}

// What was asked, and how it ended.
fn show<A: fmt::Display + Drop>(
    rt: &HostRuntime,
    asked: A,
    ending: Result<&str, Refusal>,
) -> io::Result<()> {
    match ending {
        Ok(done) => println!(rt; "{asked}: {done}"),
        Err(refusal) => println!(rt; "{asked}: refused {refusal}"),
    }
}

// How a payment ended.
fn show_answer(rt: &HostRuntime, order: Payment, answer: Result<(), Refusal>) -> io::Result<()> {
    let Payment {
        payer,
        payee,
        amount,
    } = order;
    show(
        rt,
        format_args!("{payer} pays {payee} {amount}"),
        answer.map(|()| "accepted"),
    )
}

// A participant's account and balance, or why there are none.
fn show_participant<M: Money>(rt: &HostRuntime, money: &M, participant: usize) -> io::Result<()> {
    match (money.account(participant), money.balance(participant)) {
        (Ok(account), Ok(balance)) => println!(rt;
            "{participant} has {balance} on account {account}"
        ),
        (Err(refusal), _) | (_, Err(refusal)) => println!(rt;
            "{participant} has no account: refused {refusal}"
        ),
    }
}

// All participants, and the first number that is nobody's.
fn show_funds<M: Money>(rt: &HostRuntime, money: &M) -> io::Result<()> {
    let participants = money.participants();
    for participant in 0..participants {
        show_participant(rt, money, participant)?;
    }
    show_participant(rt, money, participants)
}

// Makes the payments in their order; the money stays the same in all.
fn make_all<M: Money>(rt: &HostRuntime, money: &mut M, orders: &[Payment]) -> io::Result<()>
    ensures { whole (M.Money.meaning money.new) ≡ whole (M.Money.meaning money.old) }
{
    for order in orders {
        let answer = pay_once(money, *order);
        show_answer(rt, *order, answer)?;
    }
    show_funds(rt, money)
}

// Makes payments through a table on a money side, and takes the table off again.
fn through_agents<M: Money>(
    rt: &HostRuntime,
    below: M,
    rows: Vec<usize>,
    orders: &[Payment],
) -> (M, io::Result<()>)
    ensures { whole (M.Money.meaning result.0) ≡ whole (M.Money.meaning below) }
{
    match AgentTable::new(below, rows) {
        Ok(mut table) => {
            let shown = make_all(rt, &mut table, orders);
            (table.into_below(), shown)
        }
        Err((refusal, below)) => (below, println!(rt; "no table: refused {refusal}")),
    }
}

// The same through a table on a table. A closure in place of the two would have to promise in its contract what they do.
fn through_both<M: Money>(
    rt: &HostRuntime,
    below: M,
    lower: Vec<usize>,
    upper: Vec<usize>,
    orders: &[Payment],
) -> (M, io::Result<()>)
    ensures { whole (M.Money.meaning result.0) ≡ whole (M.Money.meaning below) }
{
    match AgentTable::new(below, lower) {
        Ok(table) => {
            let (table, shown) = through_agents(rt, table, upper, orders);
            (table.into_below(), shown)
        }
        Err((refusal, below)) => (below, println!(rt; "no table: refused {refusal}")),
    }
}

// Whether a ledger opens with so many accounts that hold this each.
fn show_ledger(rt: &HostRuntime, accounts: usize, each: u64) -> io::Result<()> {
    let opened = Ledger::new(vec![in rt.alloc(); each; accounts]?);
    show(
        rt,
        format_args!("{accounts} accounts with {each}"),
        opened.map(|_| "a ledger"),
    )
}

// Whether a table of so many rows that name this agent stands on a ledger of two accounts.
fn show_table(rt: &HostRuntime, rows: usize, agent: usize) -> io::Result<()> {
    let names = vec![in rt.alloc(); agent; rows]?;
    let ledger = Ledger::new(vec![in rt.alloc(); 0; 2]?).unwrap();
    let stood = AgentTable::new(ledger, names)
        .map(|table| {
            let _ledger = table.into_below();
            "a table"
        })
        .map_err(|(refusal, _ledger)| refusal);
    show(rt, format_args!("{rows} rows that name {agent}"), stood)
}

// On both sides of each limit.
fn show_limits(rt: &HostRuntime) -> io::Result<()> {
    for (accounts, each) in [
        (1, 0),
        (2, MOST_AT_FIRST),
        (2, MOST_AT_FIRST + 1),
        (32, 0),
        (33, 0),
    ] {
        show_ledger(rt, accounts, each)?;
    }
    for (rows, agent) in [(1, 0), (2, 1), (2, 2), (32, 0), (33, 0)] {
        show_table(rt, rows, agent)?;
    }
    Ok(())
}

fn main(rt: HostRuntime) -> io::Result<()> {
    show_limits(&rt)?;
    let mut ledger = Ledger::new(vec![in rt.alloc(); 1000, 500, 0, 250]?).unwrap();
    make_all(&rt, &mut ledger, &on_ledger())?;
    let rows = vec![in rt.alloc(); 1, 2, 1, 3, 0]?;
    let (ledger, shown) = through_agents(&rt, ledger, rows, &on_table());
    shown?;
    let lower = vec![in rt.alloc(); 1, 2, 1, 3, 0]?;
    let upper = vec![in rt.alloc(); 4, 3, 0, 2]?;
    let (mut ledger, shown) = through_both(&rt, ledger, lower, upper, &on_both());
    shown?;
    show_pair(&rt, &mut ledger)
}

// Two payments in a row, of which the first takes what the second wants.
fn show_pair<M: Money>(rt: &HostRuntime, money: &mut M) -> io::Result<()> {
    let first = order(2, 0, 1000);
    let second = order(2, 1, 1);
    let (one, two) = pay_both(money, first, second);
    show_answer(rt, first, one)?;
    show_answer(rt, second, two)?;
    show_funds(rt, money)
}

fn on_ledger() -> [Payment; 11] {
    [
        order(4, 0, 1),
        order(0, 4, 1),
        order(4, 4, 0),
        order(0, 1, 0),
        order(0, 1, MOST_AMOUNT + 1),
        order(0, 1, MOST_AMOUNT),
        order(2, 2, 77),
        order(3, 3, 0),
        order(0, 1, 1001),
        order(0, 1, 1000),
        order(1, 2, 600),
    ]
}

fn on_table() -> [Payment; 9] {
    [
        order(5, 0, 1),
        order(0, 5, 1),
        order(0, 1, 0),
        order(0, 1, MOST_AMOUNT + 1),
        order(0, 2, 5000),
        order(4, 0, 1),
        order(3, 4, 250),
        order(2, 1, 901),
        order(2, 1, 400),
    ]
}

fn on_both() -> [Payment; 9] {
    [
        order(4, 0, 1),
        order(0, 4, 1),
        order(0, 1, 0),
        order(0, 1, MOST_AMOUNT + 1),
        order(2, 3, MOST_AMOUNT),
        order(1, 0, 1),
        order(0, 1, 251),
        order(0, 1, 250),
        order(3, 0, 125),
    ]
}
