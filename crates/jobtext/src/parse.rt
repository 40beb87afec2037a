ghost use Rattle.std.specs.Prelude.{◌≡◌, Some};
ghost use Rattle.std.specs.Option.{option_map};
ghost use Rattle.jobtext.specs.LineTexts.{Spells};
ghost use Rattle.jobtext.specs.Parsing.{next_number, ended, floor_line, change_line, only_number, by_letter, parse_line};

use super::cut::cut;
use super::line::Line;
use super::number::read_number;

/// The next number, and what is left behind it; None is the end of the line.
fn next_number(left: Option<&[u8]>) -> Option<(u32, Option<&[u8]>)>
    ensures { option_map (λ p. (p.0, option_map (λ x. x.now) p.1)) result ≡ next_number (option_map (λ x. x.now) left.entry) }
{
    let (word, left) = cut(left?, b' ');
    let number = read_number(word)?;
    Some((number, left))
}

/// The value, if nothing is left behind it.
fn ended<T: Copy>(left: Option<&[u8]>, value: T) -> Option<T>
    ensures { result ≡ ended (option_map (λ x. x.now) left.entry) value }
{
    left.is_none().then_some(value)
}

/// A floor: rows, columns, least, target, place.
fn floor_line(left: Option<&[u8]>) -> Option<Line>
    ensures { result ≡ floor_line (option_map (λ x. x.now) left.entry) }
{
    let (rows, left) = next_number(left)?;
    let (columns, left) = next_number(left)?;
    let (least, left) = next_number(left)?;
    let (target, left) = next_number(left)?;
    let (place, left) = next_number(left)?;
    ended(
        left,
        Line::Floor {
            rows,
            columns,
            least,
            target,
            place,
        },
    )
}

/// A change: spot, toll.
fn change_line(left: Option<&[u8]>) -> Option<Line>
    ensures { result ≡ change_line (option_map (λ x. x.now) left.entry) }
{
    let (spot, left) = next_number(left)?;
    let (toll, left) = next_number(left)?;
    ended(left, Line::Change { spot, toll })
}

/// One number, and nothing behind it.
fn one_number(left: Option<&[u8]>) -> Option<u32>
    ensures { result ≡ only_number (option_map (λ x. x.now) left.entry) }
{
    let (number, left) = next_number(left)?;
    ended(left, number)
}

/// The line that begins with the letter, read from what is left behind it.
fn by_letter(letter: char, left: Option<&[u8]>) -> Option<Line>
    ensures { result ≡ by_letter letter (option_map (λ x. x.now) left.entry) }
{
    match letter {
        'F' => floor_line(left),
        'C' => change_line(left),
        'P' => one_number(left).map(Line::Put),
        'R' => ended(left, Line::Route),
        'S' => ended(left, Line::Step),
        'H' => ended(left, Line::Halt),
        'Q' => one_number(left).map(Line::Query),
        'T' => ended(left, Line::Tally),
        _ => None,
    }
}

/// The line that the bytes write: exactly the text of a line is read, and as that line.
pub fn parse(line: &[u8]) -> Option<Line>
    ensures value { result ≡ parse_line line.now }
    ensures only { (l : Line) → result ≡ Some l → Spells line.now l }
    ensures every { (l : Line) → Spells line.now l → result ≡ Some l }
{
    let (head, left) = cut(line, b' ');
    match head {
        [letter] => by_letter(*letter as char, left),
        _ => None,
    }
}
