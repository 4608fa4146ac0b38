// The day program: a day file on standard input, its answer lines on standard output.
#![tactic(auto)]

use anyhow::anyhow;
use dayfile::write_answer;
use desk::{FileError, work_day};
use rulebook::{Answer, Fault};
use std::io::{Read, Write};

fn main(rt: HostRuntime) -> anyhow::Result<()> {
    let mut file = Vec::new(rt.alloc());
    let _ = rt.stdin().read_to_end(&mut file)?;
    match work_day(rt.alloc(), file.as_slice()) {
        Ok(answers) => print_answers(&rt, answers.as_slice()),
        Err(FileError::TooLong(refusal)) => print_answer(&rt, 0, Err(refusal.into())),
        Err(FileError::Memory) => Err(anyhow!("not enough memory")),
    }
}

// The answers of the lines, which are counted from 1.
fn print_answers(rt: &HostRuntime, answers: &[Result<Answer, Fault>]) -> anyhow::Result<()> {
    for (answer, number) in answers.iter().zip(1u64..) {
        print_answer(rt, number, *answer)?;
    }
    Ok(())
}

// One answer line with its line end, and not the zeros behind it.
fn print_answer(
    rt: &HostRuntime,
    number: u64,
    answer: Result<Answer, Fault>,
) -> anyhow::Result<()> {
    let mut line = [0; 120];
    let size = write_answer(number, answer, &mut line);
    rt.stdout().write_all(&line[..size])?;
    Ok(())
}
