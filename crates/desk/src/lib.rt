// Works the lines of a day file on a register.
#![tactic(auto)]

mod letters;
pub mod year;

ghost use Rattle.std.specs.Prelude.{◌≡◌};
ghost use Rattle.register.specs.Shows.{Stands};
ghost use Rattle.desk.specs.Work.{line_step, WorksFile, WorksDay, LastLineCounts};
ghost use Rattle.desk.specs.declared.FileError.TheVariants.{TooLong, Memory};

use dayfile::{Lines, read_call};
use letters::suits;
use refusals::Refusal;
use register::register::Register;
use rulebook::{Answer, Fault};
use std::alloc::{AllocError, Global};
use year::year_2025;

// Why a file is not worked; no line of it was.
#[derive(Clone, Copy, Debug, PartialEq, Eq)]
pub enum FileError {
    TooLong(Refusal),
    Memory,
}

impl From<Refusal> for FileError {
    ghost from_gives = { λ refusal error. error ≡ TooLong refusal };

    fn from(refusal: Refusal) -> FileError {
        FileError::TooLong(refusal)
    }
}

impl From<AllocError> for FileError {
    ghost from_gives = { λ _ error. error ≡ Memory };

    fn from(_error: AllocError) -> FileError {
        FileError::Memory
    }
}

// Works one line.
pub fn work_line(register: &mut Register, line: &[u8]) -> Result<Answer, Fault>
    ensures works { (register.new, result) ≡ line_step register.old line.now }
    ensures stands { Stands register.old }
{
    // asked first for its clause: what is true of every register
    let state = register.state();
    let call = read_call(line)?;
    if !suits(call, state) {
        return Err(Refusal::WrongState.into());
    }
    Ok(register.serve(call)?)
}

// Works a whole file: an answer for each of its lines. The room for all answers is had before the first line is worked.
pub fn work_file(
    heap: Global,
    register: &mut Register,
    file: &[u8],
) -> Result<Vec<Result<Answer, Fault>>, FileError>
    ensures works { WorksFile register.old file.now register.new result }
    ensures last_line { LastLineCounts }
    ensures stands { Stands register.old }
{
    // asked for its clause alone: what is true of every register
    let _ = register.state();
    let lines = Lines::new(file)?;
    let mut answers = Vec::with_capacity(heap, file.len())?;
    for line in lines {
        answers.push_reserved(work_line(register, line));
    }
    Ok(answers)
}

// Works a file on a new register over the calendar of 2025.
pub fn work_day(heap: Global, file: &[u8]) -> Result<Vec<Result<Answer, Fault>>, FileError>
    ensures { WorksDay file.now result }
{
    let mut register = Register::new(year_2025(heap)?);
    let answers = work_file(heap, &mut register, file);
    let _ = register.finish();
    answers
}
