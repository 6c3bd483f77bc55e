ghost use Rattle.std.specs.Prelude.{◌≡◌, ◌-◌, ◌^◌, ◌<◌, ◌≤◌, length};
ghost use Rattle.ix_model.specs.Answers.Places.{line_of, column_of};

use crate::Place;

/// The place of an offset in characters from 0: line and column, each counted from 1.
pub fn place(text: &[char], offset: u32) -> Place
    requires within { offset ≤ length text.now }
    requires small { offset < 2 ^ 32 - 1 }
    ensures line { result.line ≡ line_of text.now offset }
    ensures column { result.column ≡ column_of text.now offset }
{
    let before = &text[..offset as usize];
    let mut line = 1;
    let mut column = 1;
    for c in before {
        if *c == '\n' {
            line += 1;
            column = 1;
        } else {
            column += 1;
        }
    }
    Place { line, column }
}
