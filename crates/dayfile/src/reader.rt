// Readers that hand out the lines of a file.
ghost use Rattle.std.specs.Prelude.{◌≡◌, ℕ, ◌≤◌, List, length, drop, position, ◌==◌};
ghost use Rattle.std.specs.Iterator.{YieldsFirstRef, item_count};
ghost use Rattle.std.specs.Result.{result_map_both};
ghost use Rattle.dayfile.specs.Text.{before, lines, LinesParted, SameLines};
ghost use Rattle.dayfile.specs.Readers.{file_lines};

use refusals::Refusal;
use std::marker::Model;

// A day file, and the place from which it has still to be read, by a rule of the project for this reader. Contracts see
// the bytes that are left.
#[derive(Drop)]
pub struct Lines<'a> {
    file: &'a [u8],
    place: usize,
}

impl<'a> Model for Lines<'a> {
    ghost Value = { List ℕ };

    ghost view = { λ r. drop r.place r.file.now };
}

impl<'a> Lines<'a> {
    // A reader before the first line; a file of more than 65,536 bytes is refused.
    #[tactic(auto, using(crate::proofs::Parted::lines_parted, crate::proofs::Cuts::same_lines))]
    pub fn new(file: &'a [u8]) -> Result<Lines<'a>, Refusal>
        ensures lines { result_map_both lines (λ e. e) result ≡ file_lines file.now }
        ensures parted { LinesParted }
        ensures ends { SameLines }
    {
        if file.len() > 65536 {
            return Err(Refusal::FileTooLong);
        }
        Ok(Lines { file, place: 0 })
    }
}

// The lines that are left, each without its byte 10.
impl<'a> Iterator for Lines<'a> {
    type Item = &'a [u8];

    ghost next_gives = { YieldsFirstRef lines };

    ghost remaining = { item_count lines };

    fn next(&mut self) -> Option<&'a [u8]> {
        let rest = self.file.get(self.place..)?;
        if rest.is_empty() {
            return None;
        }
        let end = line_end(rest);
        self.place += end + 1;
        Some(&rest[..end])
    }
}

// Where the line in front ends.
fn line_end(bytes: &[u8]) -> usize
    ensures value { result ≡ length (before 10 bytes.now) }
    ensures bound { result ≤ length bytes.now }
{
    end_of(bytes, b'\n')
}

// Where the part in front ends: before the first mark, or with the bytes.
pub(crate) fn end_of(bytes: &[u8], mark: u8) -> usize
    ensures value { result ≡ length (before mark bytes.now) }
    ensures bound { result ≤ length bytes.now }
{
    first_mark(bytes, mark).unwrap_or(bytes.len())
}

// Where the first mark stands, if there is one.
fn first_mark(bytes: &[u8], mark: u8) -> Option<usize>
    ensures { result ≡ position (λ b. b == mark) bytes.now }
{
    bytes.iter().position(|b| *b == mark)
}
